//! Segment lists: the rows of results in indexed bundles, those of many bundles in the order of their keys, and their
//! text.
#![tactic(auto)]

mod builder;
mod digits;
mod growing;
mod laws;
mod listing;
mod merge;
mod names;
mod parts;
mod pieces;
mod print;
mod results;

pub use builder::{ListingBuilder, finished};
pub use laws::merges_are_one;
pub use listing::{Listing, print_rows, with_text};
pub use merge::merge_in_order;
pub use parts::{Part, Parts};
