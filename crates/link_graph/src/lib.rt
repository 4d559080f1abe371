//! The links between the items of one bundle, in the order in which they were added.
#![tactic(auto)]

mod block;
mod blocks;
mod by_item;
mod ends;
mod forms;
mod index;
mod indexed;
mod item_links;
mod laws;
mod link;
mod links;
mod pairs;

pub use ends::Ends;
pub use laws::{
    added_links_keep_kinds, inserted_links_keep_kinds, kept_links_keep_kinds,
    links_that_fit_are_added, no_links_keep_kinds,
};
pub use link::Link;
pub use links::Links;
