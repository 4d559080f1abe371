//! What a run writes, and how it ends: replies, last lines, the answers of a live run, and the statuses.
#![tactic(auto)]

mod ended;
mod ending;
mod last;
mod lines;
mod output;
mod status;

pub use ended::Ended;
pub use ending::Ending;
pub use last::{close_run, damaged, finish, usage};
pub use output::{write_config, write_from, write_mark, write_reply};
pub use status::{Status, code};
