//! The answer to a query over all bundles of a version.
#![tactic(auto)]

mod ahead;
mod answers;
mod carried;
mod halves;
mod question;
mod walk;

pub use answers::answer_over;
pub use carried::reach;
pub use session_core;
pub use version_tree;
pub use walk::{answer, answer_requery};
