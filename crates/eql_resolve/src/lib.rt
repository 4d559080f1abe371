//! What a query asks: its patterns compiled, and its names looked up as levels and attributes of a
//! database. (EMU-SDMS Manual, "The EMU Query Language version 2".)
#![tactic(auto)]

mod asked;
mod compile;
mod counts;
mod crossing;
mod faults;
mod laws;
mod prepared;
mod queries;
mod resolution;
mod terms;
mod times;

pub use asked::{Asked, AskedQuery, AskedTerm, Wanted};
pub use crossing::{asked_cross_threads, prepared_cross_threads};
pub use faults::{AskFault, PrepareFault};
pub use laws::{levels_are_there, marks_are_found, shown_is_there};
pub use prepared::{Prepared, made_of, prepare};
pub use queries::are_joined;
pub use resolution::{resolve, resolve_untimed};
pub use terms::named;
pub use times::time_level;
