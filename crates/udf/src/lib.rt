//! The byte formats of this profile of UDF, as the laws of `durability` ask for them, and these laws for the formats.
//!
//! Nothing here runs. `specs/Udf` puts the codecs' relations together: a file entry and the file set of `icb`, a
//! directory of `dir`, a table of `vat`, and the volume header of `volume`, each in the terms of `model` and
//! `durability`. The laws say that these formats are exact, bounded, distinct and short, and what then holds of every
//! medium and of every commit. `specs/Said` describes what the codecs read in the same terms.
//!
//! Left to others: which calls write these blocks, and which read them back.
#![tactic(auto)]

mod laws;

pub use laws::{
    blocks_are_appended, blocks_are_bytes, codecs_agree, commits_advance, commits_endure,
    formats_are_bounded, formats_are_distinct, formats_are_exact, formats_are_short, formats_stand,
    imitation_agrees, new_volumes_are_formats, one_state_stands, one_state_stood,
    planned_blocks_carry, runs_hold, torn_commits_move, torn_formats_stand, torn_images_are_left,
};
