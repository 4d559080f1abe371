//! Typed parts of a JSON value (RFC 8259), or the path and the wanted form of the part that is not
//! there.
#![tactic(auto)]

mod faults;
mod laws;
mod path;
mod text_views;
mod views;
mod wants;

pub use faults::{PathText, Shape, ViewFault};
pub use laws::texts_by_cases;
pub use text_views::TextViews;
pub use views::View;
pub use wants::Wanted;
