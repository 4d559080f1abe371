//! Tuples: what a part of a query finds in one bundle (EMU-SDMS Manual, "The EMU Query Language (EQL)"), the
//! sets that they make, and what they show.
#![tactic(auto)]

mod faults;
mod gathered;
mod kept;
mod laws;
mod shown;
mod tuple;

pub use faults::MatchFault;
pub use gathered::Gathered;
pub use laws::{joins_are_pairs, sets_are_in_order, sets_have_their_tuples};
pub use shown::{bare, shown_once};
pub use tuple::{Tuple, Tuples};
