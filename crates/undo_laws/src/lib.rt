//! The law of inverses: what takes an act back leads to the database before it.
#![tactic(auto)]

mod laws;

pub use laws::acts_are_taken_back;
