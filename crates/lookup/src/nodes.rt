//! The nodes of a state, by their virtual addresses.

ghost use Rattle.limits.specs.declared.TheConstants.{ADDRESSES};
ghost use Rattle.std.specs.Prelude.{◌≡◌, ◌+◌, ◌≤◌, IsTrue, length, drop};
ghost use Rattle.model.specs.Addresses as addresses;

use ecma::Timestamp;
use recover::Extent;

/// How many virtual addresses are looked at together in the search for an unused one.
const RUN: usize = 4;

/// Where the entry of a node is: the number of its block, and the virtual address in its tag.
#[derive(Clone, Copy, Debug, PartialEq, Eq, Hash)]
pub struct EntryAt {
    pub number: u32,
    pub address: u32,
}

/// Where a directory's entry and its data are, and its moment.
#[derive(Clone, Copy, Debug)]
pub struct Placed {
    pub at: EntryAt,
    pub extent: Extent,
    pub moment: Timestamp,
}

/// Where the nodes of a state are: the block number of each virtual address, all below the address of the VAT ICB.
#[derive(Clone, Copy, Debug)]
pub struct Nodes<'a> {
    pub vat_icb_address: u32,
    pub numbers: &'a [Option<u32>],
    pub ghost few: { length numbers.now ≤ ADDRESSES },
}

impl Nodes<'_> {
    /// The least unused virtual address from 2 on, since 0 is the file set's and 1 the root's. If all are used, the one
    /// after the last.
    pub(crate) fn free_address(&self) -> u32
        ensures { result ≡ addresses.free_address self.now.numbers.now }
    {
        let mut address = 2;
        'runs: while self.numbers.len() >= address + RUN {
            if !are_used(self.numbers, address) {
                break;
            }
            address += RUN;
        }
        'each: while address < self.numbers.len() {
            if self.numbers[address].is_none() {
                break;
            }
            address += 1;
        }
        address as u32
    }
}

/// Whether the four virtual addresses from this one on are used.
fn are_used(entries: &[Option<u32>], address: usize) -> bool
    requires { address + 4 ≤ length entries.now }
    ensures { IsTrue result → addresses.used_first (drop address entries.now) ≡ 4 + addresses.used_first (drop (address + 4) entries.now) }
{
    let front = entries[address].is_some() & entries[address + 1].is_some();
    let back = entries[address + 2].is_some() & entries[address + 3].is_some();
    front & back
}
