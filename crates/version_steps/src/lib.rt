//! The version behind one more act, and what of it is made before the version is known.
#![tactic(auto)]

mod added;
mod draft;
mod dropped;
mod edited;
mod forms;
mod given;
mod last_dropped;
mod marks;
mod next;
mod thinning;

pub use bundle_index;
pub use draft::Draft;
pub use dropped::{DroppedBundle, dropped_by};
pub use edit_rules;
pub use last_dropped::{Dropped, dropped_cross_threads};
pub use next::{next_drafted, next_version};
pub use version_tree;
