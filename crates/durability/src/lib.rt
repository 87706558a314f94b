//! To which state a medium recovers, why an interruption does no harm, and what each prefix of a run leaves. The byte
//! formats are parameters.
//!
//! Nothing here runs. `specs/` says to what a medium recovers and what a commit must write. `proofs/` has the laws:
//! blocks that imitate no VAT ICB change nothing; a medium recovers to one state at most; a commit takes effect with
//! its last block, and not before; and each prefix of a run of commits, repeats, refusals and restarts leaves the state
//! after the first N of its commits, for some N. The crate `udf` states these laws for its formats.
#![tactic(auto)]

ghost use Rattle.durability.specs.Example.{ExampleStands};

/// With some formats a volume is formatted and a request committed, so the premises of the laws can be met.
pub fn example_stands()
    ensures { ExampleStands }
{}
