//! The one code of entries and of configurations: how it is written, measured and read.
#![tactic(auto)]

mod additions;
mod codes;
mod edits;
mod entries;
mod fault;
mod fields;
mod kinds;
mod laws;
mod lists;
mod sound;
mod tags;

pub use codes::{entry_len, head_len, read_entry, read_head, write_entry, write_head};
pub use fault::CodeFault;
pub use laws::{an_entry_in_bytes, codes_are_apart, codes_are_read};
