//! Sources, sinks and folders in memory, which fail where their maker says, or never.
#![tactic(auto)]

mod copying;
mod lists;
mod mapped;
mod sure;
mod tree;

pub use lists::{ListSink, ListSource};
pub use mapped::{MapFolder, SureFolder};
pub use sure::{SureSink, SureSource};
