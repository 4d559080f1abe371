//! Rows of bits over the places of a column, and what vectors ask of whole columns at once.
#![tactic(auto)]

mod bits;
mod columns;
mod joins;
mod lanes;
mod row;
mod shortage;
mod span;

pub use row::{BitRow, and_into, eq_lanes, meet, or_into, range_lanes};
pub use shortage::Memory;
pub use span::SpanRow;
