//! Why bytes are no table.

ghost use Rattle.std.specs.Prelude.{◌≡◌};
ghost use Rattle.vat.specs.declared.fault.VatFault.TheVariants.{Memory};

use std::alloc::AllocError;

/// Why bytes are no virtual allocation table, in the order in which the faults are reported.
#[derive(Clone, Copy, Debug, PartialEq, Eq)]
pub enum VatFault {
    /// A length, the reserved field, or the block number of the previous VAT ICB.
    Header,
    /// The label is not the dstring of a label.
    Label,
    /// A revision of UDF is not 2.01.
    Version,
    /// The sessions' identifier or version, their count, or a record of a client.
    Record,
    /// A client has two records.
    ClientTwice,
    /// An entry is neither unused nor below the VAT ICB, or that of the file set or the root is unused.
    Entry,
    /// How many entries there are, how many of them are used, or the next unique ID.
    Count,
    /// There was no memory for the table. The bytes are a table.
    Memory,
}

impl VatFault {
    ghost use Rattle.std.specs.Prelude.{◌≡◌};
    ghost use Rattle.vat.specs.Rules.{number_of_fault};

    /// The number that causes of refusals show, from 41 to 47, and 65 for lack of memory.
    pub fn number(self) -> u8
        ensures { result ≡ number_of_fault self }
    {
        match self {
            VatFault::Header => 41,
            VatFault::Label => 42,
            VatFault::Version => 43,
            VatFault::Record => 44,
            VatFault::ClientTwice => 45,
            VatFault::Entry => 46,
            VatFault::Count => 47,
            VatFault::Memory => 65,
        }
    }
}

impl From<AllocError> for VatFault {
    ghost from_gives = { λ _ e. e ≡ Memory };

    fn from(_: AllocError) -> VatFault {
        VatFault::Memory
    }
}
