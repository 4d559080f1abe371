//! Which items of a level of a bundle dominate which items of a lower one, as one row of bits for each
//! upper item.
#![tactic(auto)]

mod asked;
mod children;
mod closure;
mod held;
mod laws;
mod levels;
mod linked;
mod ranks;
mod relinked;
mod stands;

pub use closure::Closure;
pub use laws::{bits_are_dominance, dominance_is_by_chains, dominance_is_by_first_links};
pub use linked::{LinkedLevels, linked_levels};
pub use relinked::{are_alike, relinked_levels, stands_again};
pub use stands::{BundleStands, LevelStands, Stand, stands_in};
