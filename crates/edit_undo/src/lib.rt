//! What takes an act back: the edits that lead from the database behind it to the one before it.
#![tactic(auto)]

mod act_inverse;
mod annot;
mod faults;
mod item_edits;
mod laws;
mod link_edits;
mod link_places;
mod own_edits;
mod reversed;
mod turns;

pub use act_inverse::inverse;
pub use edit_rules;
pub use faults::{InverseFault, NoUndo};
pub use laws::passing_acts_are_before;
