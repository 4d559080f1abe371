//! The lines of a script: the request that a line of JSON stands for.
#![tactic(auto)]

mod additions;
mod commands;
mod edits;
mod faults;
mod forms;
mod grids;
mod items;
mod labels;
mod law;
mod line_set;
mod lists;
mod place;
mod questions;
mod read;
mod requeries;
mod requests;

pub use faults::{LineFault, ReadLine};
pub use law::read_lines_are_known;
pub use line_set::{EarlierLine, LineSet};
pub use read::read_line;
pub use session_core;
