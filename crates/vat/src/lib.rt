//! The virtual allocation table of a write-once volume (UDF 2.01 2.2.10), the sessions in its implementation use, and
//! places for data.
//!
//! Promised: a table has one encoding. `encode_vat` writes it, and `decode_vat` reads exactly it, and otherwise reports
//! the first fault. `is_vat_icb` recognizes a VAT ICB by its whole descriptor, including its location and its CRC.
//! `clear_start` returns the least start at which no block of some data would be a VAT ICB.
//!
//! Left to others: that a table agrees with the tree that it leads to, the chain of earlier tables, and
//! which request is due.
#![tactic(auto)]

mod decode;
mod encode;
mod fault;
mod laws;
mod offsets;
mod place;
mod record;
mod rules;
mod table;

pub use decode::decode_vat;
pub use encode::encode_vat;
pub use fault::VatFault;
pub use laws::tables;
pub use place::{clear_start, is_vat_icb};
pub use record::{Record, Replies, Reply};
pub use table::{Sessions, Vat, Version};
