//! The script of work: bundles that are made from a number, four queries over them, the run of both by several
//! sessions at once, and the summary of what was found.
#![tactic(auto)]

mod annotation;
mod config;
mod laws;
mod letters;
mod lines;
mod run;
mod summary;

pub use laws::additions_in_any_order;
pub use run::work;
