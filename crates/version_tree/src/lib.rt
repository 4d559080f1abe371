//! Versions of the database: ordered maps of indexed bundles that share what an edit leaves as it was.
#![tactic(auto)]

mod bundles;
mod change;
mod page;
mod pages;
mod sizes;
mod splice;
mod tree;
mod version;

pub use edit_rules;
pub use version::{Version, versions_cross_threads};
