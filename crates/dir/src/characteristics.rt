//! File characteristics (ECMA-167 4/14.4.3).

ghost use Rattle.std.specs.Prelude.{⊤, ◌≡◌, [], ◌∷◌, codes};

use crate::entry::Kind;
use bitflags::{Flag, Flags, bitflag_items};

/// What a file identifier descriptor names: a file, a directory, or the directory above.
#[derive(Clone, Copy, PartialEq, Eq, Debug)]
pub(crate) struct Characteristics(u8);

bitflag_items! {
    impl Characteristics: u8 {
        const DIRECTORY = 0x02;
        const PARENT = 0x08;
    }
}

impl Flags for Characteristics {
    type Bits = u8;

    ghost exact = { ⊤ };

    ghost table = { (codes "DIRECTORY", 2) ∷ (codes "PARENT", 8) ∷ [] };

    ghost set_of = { λ c. c.0 };

    fn flags<'a>() -> &'a [Flag<Characteristics>] {
        Characteristics::FLAGS
    }

    fn bits(&self) -> u8 {
        self.0
    }

    fn from_bits_retain(bits: u8) -> Characteristics {
        Characteristics(bits)
    }
}

impl Characteristics {
    ghost use Rattle.std.specs.Prelude.{◌≡◌, ◌≢◌, ◌↔◌, IsSome, IfSome, IsTrue};
    ghost use Rattle.dir.specs.Directory.{characteristics_of};
    ghost use Rattle.dir.specs.Kinds.{IsKind};

    /// The characteristics of the directory above.
    pub(crate) fn of_parent() -> Characteristics
        ensures { result.0 ≡ 0x0A }
    {
        Characteristics::DIRECTORY.union(Characteristics::PARENT)
    }

    /// The characteristics of a name of this kind.
    pub(crate) fn of(kind: Kind) -> Characteristics
        ensures { result.0 ≡ characteristics_of kind }
    {
        match kind {
            Kind::File => Characteristics::empty(),
            Kind::Directory => Characteristics::DIRECTORY,
        }
    }

    /// The characteristics that the byte is, if they are those of a file, a directory or a parent.
    pub(crate) fn read(byte: u8) -> Option<Characteristics>
        ensures exactly { IsSome result ↔ IsKind byte }
        ensures value { IfSome result (λ c. c.0 ≡ byte) }
    {
        match byte {
            0x00 | 0x02 | 0x0A => Some(Characteristics(byte)),
            _ => None,
        }
    }

    /// Whether they are those of the directory above.
    pub(crate) fn is_parent(self) -> bool
        ensures { IsTrue result ↔ (self.0 ≡ 0x0A) }
    {
        self == Characteristics::of_parent()
    }

    /// The kind of a name with these characteristics.
    pub(crate) fn kind(self) -> Kind
        requires kind { IsKind self.0 }
        requires name { self.0 ≢ 0x0A }
        ensures { characteristics_of result ≡ self.0 }
    {
        if self.contains(Characteristics::DIRECTORY) {
            Kind::Directory
        } else {
            Kind::File
        }
    }
}
