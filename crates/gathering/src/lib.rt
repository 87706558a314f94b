//! What a disk may have of a group of commits, and to which state a medium recovers then.
//!
//! A group is requests that are carried out one after another, each a commit of its own, and that go to the disk
//! together. A commit ends with its VAT ICB, the mark. First all other blocks of the group are written, with holes in
//! place of the marks, and synced; then the marks, and synced; then the requests are answered. Nothing here runs: each
//! function's contract is a law for the formats of `udf`. The lemmas in `proofs/` hold for any formats of `durability`.
//!
//! Left to others: which calls write a group in this order.
#![tactic(auto)]

ghost use Rattle.gathering.specs.Laws.{FirstPhase, SecondPhase, Together, AnyMarks};
ghost use Rattle.udf.specs.Udf.{udf};

/// Until the first sync has returned, the state before the group is recovered, whatever blocks the disk has. After that,
/// with the marks of the first n commits, it is the state after the first n requests, and each before it can be read.
/// With all marks the medium is the one that the same commits make one by one. With any choice of them, as a reader
/// finds it that knows nothing of groups, the newest mark that is there decides, and no state is read that all marks
/// would not show.
pub fn groups_endure()
    ensures first { FirstPhase udf }
    ensures second { SecondPhase udf }
    ensures together { Together udf }
    ensures any { AnyMarks udf }
{}
