//! The core as one goes through it by hand: an event at a time, over a database in memory, with no book and no thread.
//! The program does not call it; its contracts say that the definitions of `session_core` can be run.
#![tactic(auto)]

mod machine;
mod moves;
mod queries;

pub use machine::Core;
pub use moves::PlainHistory;
pub use queries::answer;
