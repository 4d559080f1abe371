//! Results in a bundle, and the rows that show them (EMU-SDMS Manual, "The EMU Query Language (EQL)": results, the
//! columns of a segment list).
#![tactic(auto)]

mod items;
mod laws;
mod names;
mod row;
mod rows;
mod span;
mod spans;
mod times;

pub use items::{items_at, items_of, joined_labels, label_of};
pub use laws::touching_segments_meet;
pub use names::{RowNames, attribute_name, kind_of, level_name, names_of};
pub use row::{Row, RowNumbers, SegmentList};
pub use rows::{numbers_between, row_between};
pub use span::{Span, Spans};
pub use spans::{spans_of, spans_of_row};
pub use times::{ends_between, ends_of, timed_items};
