//! The edits of a database in lists and its configuration's: what each act makes of it, and the rule that it
//! breaks first.
#![tactic(auto)]

mod acts;
mod commit_fault;
mod config_change;
mod database;
mod effects;
mod history;
mod laws;
mod list_change;
mod words;

pub use acts::{Act, Breach, ChangeFault, ConfigEdit, Edits, Entry};
pub use bundle_edits::{Counts, Edit};
pub use commit_fault::EditFault;
pub use config_change::change_config;
pub use database::Database;
pub use effects::{apply, check};
pub use history::{Entries, Noted};
pub use laws::{
    acts_are_whole, acts_change_one_bundle, acts_keep_rules, edits_keep_rules,
    order_does_not_matter, prefixes_are_legal, replay_goes_on, states_keep_rules,
};
pub use list_change::change;
