//! The meaning of queries (EMU-SDMS Manual, "The EMU Query Language (EQL)"): what a query finds in one
//! bundle, worked out plainly, and the rows that show it.
#![tactic(auto)]

mod answer;
mod conjunction;
mod ends;
mod evaluate;
mod flags;
mod joins;
mod labels;
mod laws;
mod pairs;
mod positions;
mod rows;
mod terms;
mod times;

pub use answer::{answer_plain, match_plain};
pub use conjunction::single;
pub use joins::{bit_at, bits_cover};
pub use laws::{results_are_there, tuples_lie_on_level};
pub use positions::row_counts;
pub use rows::{numbers_below, rows_at, rows_below, rows_of};
pub use times::Below;
