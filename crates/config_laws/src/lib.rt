//! The law that additions make configurations, with nothing to run.
#![tactic(auto)]

mod laws;

pub use laws::additions_make_configurations;
