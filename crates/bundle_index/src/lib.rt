//! Bundles with their labels and times in columns, which answer questions on a whole level at once.
#![tactic(auto)]

mod columns;
mod fitted;
mod indexed;
mod labels;
mod shared;
mod short_keys;

pub use indexed::Indexed;
