//! Runs of a script: it is cut into lines, read and run over a book, in order or its sessions at once.
#![tactic(auto)]

mod answers;
mod at_once;
mod cut;
mod in_order;
mod reading;
mod running;
mod script;
mod spread;

pub use at_once::{live_alone, live_stored};
pub use book_opening::{NoStore, OpenFault, Opened, open_store};
pub use in_order::{Ran, run_alone, run_stored};
pub use live_run::Book;
pub use program_output::{Ending, Status, code, finish, usage};
pub use spread::Spread;
