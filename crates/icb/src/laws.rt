//! What a block cannot be at once. Nothing here runs: each function's contract is a law about the definitions.

ghost use Rattle.icb.specs.Laws.{OneEntry, OthersAreNone, EntriesBegin, DescriptorsAreNone, OneBlock, OneDescriptorBlock, OneSet};

/// A block is at most one file entry, and at one location only.
pub fn one_entry()
    ensures { OneEntry }
{}

/// Which blocks a reader that looks for a VAT ICB passes over, wherever they are.
pub fn table_entries()
    ensures others { OthersAreNone }
    ensures begin { EntriesBegin }
    ensures descriptors { DescriptorsAreNone }
{}

/// An entry, a file set or the allocation descriptors of a descriptor block have one encoding at their location.
pub fn one_spelling()
    ensures entry { OneBlock }
    ensures set { OneSet }
    ensures descriptors { OneDescriptorBlock }
{}
