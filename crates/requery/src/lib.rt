//! Requeries: the results of a query carried to another level, or moved along their own, and the rows of
//! what they reach (EMU-SDMS Manual, "The EMU Query Language (EQL)": `requery_hier`, `requery_seq`).
#![tactic(auto)]

mod ends;
mod laws;
mod plain;
mod reach;
mod reached;
mod resolution;
mod stretches;
mod target;

pub use eql_model;
pub use eql_rows;
pub use eql_tuples;
pub use laws::{carried_to_its_own_level, kin_is_mutual, moved_there_and_back};
pub use plain::requery_plain;
pub use reach::{reach_between, reach_near};
pub use reached::Reached;
pub use resolution::resolve_requery;
pub use target::{Requery, Shift, Target};
