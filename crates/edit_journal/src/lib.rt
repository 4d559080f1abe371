//! A list of bodies on a disk that survives a crash at any moment. A store is the eight bytes
//! `EMUSTORE` and then the bodies, each behind a gate byte that is opened only once the body is
//! safe.
#![tactic(auto)]

mod body;
mod fault;
mod frame;
mod journal;
pub mod law;
mod next;
mod recovery;

pub use body::{Bodies, Body, BodyBytes};
pub use emu_names::Memory;
pub use fault::{JournalFault, NoJournal};
pub use frame::Frame;
pub use journal::Journal;
pub use recovery::Recovered;
