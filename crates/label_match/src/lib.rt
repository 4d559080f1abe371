//! Patterns that match whole labels: the regular expressions behind `=~` and `!~` of EQL.
#![tactic(auto)]

mod faults;
mod list_maker;
mod maker;
mod matching;
mod pattern;
mod regex_maker;

pub use faults::{Memory, PatternFault};
pub use list_maker::ListMaker;
pub use maker::PatternMaker;
pub use matching::Matching;
pub use pattern::{Pattern, patterns_cross_threads};
pub use regex_maker::RegexMaker;
