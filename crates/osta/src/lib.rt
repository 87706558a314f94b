//! Text on a UDF volume: compressed Unicode, dstrings, names and labels (UDF 2.01 2.1).
//!
//! A text has at most one spelling on the medium, and no other is read. So what is written is read back exactly, and
//! two texts never have the same bytes. Bytes that are no spelling are refused with their first fault.
//!
//! There is no case folding, and there are no normal forms: texts are equal if their characters are.
#![tactic(auto)]

mod dstring;
mod fault;
mod label;
mod name;
mod reading;
mod writing;

pub use dstring::{dstring_read, dstring_write};
pub use fault::{NameFault, OstaFault};
pub use label::Label;
pub use name::Name;
pub use reading::{check_encoding, expand};
pub use writing::{compress, one_spelling};
