//! Annotations as JSON (EMU-SDMS Manual, "The emuDB format": `_annot.json`): an annotation is read from
//! a value, and a bundle is printed.
#![tactic(auto)]

mod forms;
mod known;
mod laws;
mod print;
mod read;
mod read_parts;
mod values;

pub use laws::{given_makes_again, printed_is_read};
pub use print::print_annot;
pub use read::read_annot;
