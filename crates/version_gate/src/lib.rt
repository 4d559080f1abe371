//! Versions that one publisher publishes and passes look at in any thread, with no lock: a look
//! gives a published version, and never one that is older than what its pass has seen or learnt.
#![tactic(auto)]

mod entry;
mod fault;
mod gate;
pub mod law;
mod pass;
mod passes;
mod published;
mod publisher;
mod rule;
mod shown;
mod side;

pub use entry::{Entry, Snapshot};
pub use fault::{LookFault, Memory};
pub use gate::{Made, new_gate};
pub use pass::{Note, Pass};
pub use passes::Passes;
pub use publisher::Publisher;
