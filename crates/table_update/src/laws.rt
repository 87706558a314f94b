//! What holds of the tables of commits. Nothing here runs: each function's contract is a law.

ghost use Rattle.table_update.specs.Commits.{CommitsArePart, CommitsAreWhole, TablesRecover};
ghost use Rattle.table_update.specs.Need.{FilesAreCounted, NamesAreCounted, NamesAreShort, NeedIsComputed};
ghost use Rattle.table_update.specs.Pieces.{NodesAreWritten, PiecesArePlanned};
ghost use Rattle.table_update.specs.NextTable.{ChangesAreTaken, NextTablesFollow, NextTablesAreLong, NextTablesAreSized};

/// The table that a commit writes is the one that its plan asks for. Each of its changes can be made, and it takes as
/// many bytes as planned.
pub fn next_tables_follow()
    ensures follows { NextTablesFollow }
    ensures taken { ChangesAreTaken }
    ensures long { NextTablesAreLong }
    ensures sized { NextTablesAreSized }
{}

/// The need that is computed from the sizes of a change is that of its request, even if names are counted one by one.
pub fn need_is_reckoned()
    ensures need { NeedIsComputed }
    ensures names { NamesAreCounted }
    ensures short { NamesAreShort }
    ensures files { FilesAreCounted }
{}

/// The blocks of the nodes that a request writes, its table's bytes and the VAT ICB make the plan of the request.
pub fn pieces_are_planned()
    ensures written { NodesAreWritten }
    ensures planned { PiecesArePlanned }
{}

/// If a whole plan is written, its request is committed. If a prefix is written, the request is committed or not. So it
/// follows to what each prefix recovers.
pub fn commits_are_planned()
    ensures whole { CommitsAreWhole }
    ensures part { CommitsArePart }
    ensures table { TablesRecover }
{}
