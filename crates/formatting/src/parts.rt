//! What the blocks of a new volume are made from.

ghost use Rattle.limits.specs.declared.TheConstants.{GREATEST_CAPACITY, LEAST_CAPACITY};
ghost use Rattle.std.specs.Prelude.{◌≡◌, ◌≤◌, ◌∷◌, []};
ghost use Rattle.dir.specs.Directory.{identifiers};
ghost use Rattle.dir.specs.Layout.{identifier_blocks};
ghost use Rattle.osta.specs.Label.{IsLabel};
ghost use Rattle.std.proofs.Props.{props};
ghost use Rattle.udf.specs.NewVolume.{first_table};
ghost use Rattle.vat.specs.Table.{table_bytes};

use ecma::{Block, Timestamp};
use osta::Label;

/// What the blocks of a format are made from.
#[derive(Drop)]
pub(crate) struct Parts {
    pub(crate) label: Label,
    pub(crate) moment: Timestamp,
    pub(crate) capacity: u32,
    /// The block of the root, which has no names.
    pub(crate) root: Block,
    pub(crate) table: Vec<u8>,
    ghost named: { IsLabel label } by { Prim.hlevel props },
    ghost low: { LEAST_CAPACITY ≤ capacity },
    ghost high: { capacity ≤ GREATEST_CAPACITY },
    ghost names: { root ∷ [] ≡ identifier_blocks 1 (identifiers 1 []) },
    ghost first: { table.items ≡ table_bytes (first_table label) },
}
