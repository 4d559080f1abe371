//! A run in order: the lines of a script over a book, each of which is answered before the next one is read.
#![tactic(auto)]

mod in_order;
mod looks;
mod shown;
mod turns;

pub use in_order::{InOrder, new_in_order};
