//! The book of a database: its history, the version in force and the journal, which agree at every
//! moment.
#![tactic(auto)]

mod book;
mod commit;
mod inverse;
mod kept;
pub mod law;
mod live;
mod parts;
mod published;
mod store;

pub use book::Book;
pub use edit_code;
pub use kept::Kept;
pub use live::{Live, MadeLive, Opening, Share};
pub use parts::Parts;
pub use published::Published;
pub use version_steps::edit_rules::EditFault;
pub use version_steps::next_version;
