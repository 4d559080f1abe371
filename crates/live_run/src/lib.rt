//! Sessions of a script that run at once over one book, in lanes of threads of their own.
#![tactic(auto)]

mod ending;
mod gathering;
mod grouping;
mod lanes;
mod places;
mod room;
mod run;

pub use live_seats::Marks;
pub use live_seats::live_book::{Book, Published};
pub use live_seats::session_core::{Answer, Ask, Command, Line, Lines, Replies, Reply, Request};
pub use run::{Ended, LiveEnd, run_live};
