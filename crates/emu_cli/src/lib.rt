//! The program: its words, its commands and its status.
#![tactic(auto)]

mod adding;
mod at_once;
mod ending;
mod in_order;
mod program;
mod reading;
mod store;
mod top;
mod work_command;

pub use at_once::live;
pub use in_order::run;
pub use program::{is_of_store, on_store};
pub use script_runs::{Ending, Ran, Spread, Status};
pub use store::StoreEnd;
pub use top::{Exit, emu};
