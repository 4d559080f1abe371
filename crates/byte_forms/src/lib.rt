//! The forms of codes: of which parts every code is made, and how its numbers and texts are written, measured and read.
#![tactic(auto)]

mod bytes;
mod reading;
mod rest;
mod utf8;
mod writing;

pub use bytes::CodeBytes;
pub use rest::{ReadFault, Rest};
pub use writing::{CODE_LIMIT, text_size};
