//! The edits of one bundle: what each of them makes of it, and the rule that it breaks first.
#![tactic(auto)]

mod bundle_change;
mod edit;
mod item_changes;
mod laws;
mod names;
mod segments;
mod timed_links;

pub use bundle_change::{Counts, change, change_own};
pub use edit::Edit;
pub use laws::{edits_keep_ids, edits_keep_links, times_link_exactly};
