//! Laws of folders that a user can check, with nothing to run.
#![tactic(auto)]

mod laws;

pub use laws::{folders_list_what_is_stored, loads_go_in_order};
