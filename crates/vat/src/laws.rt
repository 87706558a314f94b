//! What holds of tables. Nothing here runs: each clause is a law about the definitions.

ghost use Rattle.vat.specs.Laws.{OneTable, NodesHaveEntries, TakesSoMany, IsValidLater};

/// Bytes are at most one table. Its counts are bounded, its size follows from them, and it is also valid for a later
/// VAT ICB.
pub fn tables()
    ensures one { OneTable }
    ensures bounded { NodesHaveEntries }
    ensures size { TakesSoMany }
    ensures later { IsValidLater }
{}
