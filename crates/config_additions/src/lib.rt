//! What is added to a configuration: a level, an attribute or a link definition, put last in its list.
#![tactic(auto)]

mod additions;
mod configs;
mod laws;
mod names;

pub use configs::{with_attribute, with_definition, with_level};
pub use laws::{additions_extend, additions_keep_rules};
