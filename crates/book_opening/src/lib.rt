//! The book of a store that is opened, and of a new configuration.
#![tactic(auto)]

mod fault;
mod making;
mod opening;
mod replay;

pub use fault::OpenFault;
pub use live_book;
pub use making::{MadeBook, NoBook, new_book};
pub use opening::{NoStore, Opened, open_store};
