//! The laws of sessions that run at once: what each lane keeps of the lines that it answered, and that the
//! lanes together are a legal run.
#![tactic(auto)]

mod law;

pub use law::{lanes_are_legal, lanes_begin, lanes_see_more, lanes_take_steps};
