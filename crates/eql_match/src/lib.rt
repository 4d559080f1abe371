//! The results of a query in a bundle with its columns, worked out by label numbers, rows of bits and
//! sets of tuples in order (EMU-SDMS Manual, "The EMU Query Language (EQL)").
#![tactic(auto)]

mod bundle;
mod conjunction;
mod evaluate;
mod few;
mod found;
mod reach;
mod runs;
mod ways;

pub use bundle::{match_bundle, match_with};
pub use bundle_index;
pub use eql_columns;
pub use eql_model;
pub use eql_rows;
pub use eql_tuples;
