//! What holds of each volume header. Nothing here runs: each function's contract is a law about the definitions.

ghost use Rattle.volume.specs.Front.{FrontIsNoEntry, OneFront};

/// No block of a volume header begins as a file entry does, so none is taken for a VAT ICB.
pub fn front_is_no_entry()
    ensures { FrontIsNoEntry }
{}

/// For one label, moment and capacity there is one volume header.
pub fn one_front()
    ensures { OneFront }
{}
