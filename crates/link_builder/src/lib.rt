//! The links that times give: each item of a level with the segment of another level that holds it.
#![tactic(auto)]

mod laws;
mod pairs;

pub use laws::items_have_one_segment;
pub use pairs::{Pairs, timed_pairs};
