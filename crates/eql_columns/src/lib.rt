//! Which items of a level meet conditions, by the columns of a bundle: label numbers, and rows of bits (EMU-SDMS
//! Manual, "The EMU Query Language (EQL)": simple queries, position and count functions, conjunction).
#![tactic(auto)]

mod answers;
mod conditions;
mod groups;
mod labels;
mod matchers;
mod patterns;
mod positions;
mod rows;

pub use conditions::all_met;
pub use matchers::Matchers;
pub use rows::none_set;
