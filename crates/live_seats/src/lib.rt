//! The seats of a live run: what one of its threads has, and how it answers the lines of its lane.
#![tactic(auto)]

mod answered;
mod around;
mod lane;
mod line;
mod looks;
mod marks;
mod notes;
mod seat;
mod table;

pub use answered::Answered;
pub use around::Around;
pub use lane::Lane;
pub use live_book;
pub use looks::Look;
pub use marks::{Mark, Marks, mark_room, marks_of};
pub use notes::Row;
pub use query_workers::session_core;
pub use seat::{Seat, SeatEnd};
pub use table::Table;
