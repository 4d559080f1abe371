//! The ground of the database: its names, numbers, limits and refusals, lists and shared values that
//! contracts see as plain values, and what a count of faults is.
#![tactic(auto)]

mod kinds;
mod law;
pub mod limits;
mod names;
mod plain;
mod rules;
mod series;
mod shared;
mod shortage;
mod texts;

pub use kinds::{ItemId, LevelKind, LinkKind, SessionNo};
pub use law::counts_add_up;
pub use names::{BundleKey, Name, NameFault, is_name, keys_in_order};
pub use plain::PlainData;
pub use rules::{Broken, Fault, What};
pub use series::Series;
pub use shared::Shared;
pub use shortage::Memory;
pub use texts::Text;
