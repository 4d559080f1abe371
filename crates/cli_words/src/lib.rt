//! The words behind the program's name: which of them are a command line, and what it asks for.
#![tactic(auto)]

mod command;
mod numbers;
mod parsing;
mod read;
mod words;

pub use read::{read_words, run_alone};
pub use words::{WORKERS, WORKERS_UNASKED, Words, WordsFault};
