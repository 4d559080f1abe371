//! The items of one level of a bundle, which keep the level rule by their type, and annotations as they
//! are given.
#![tactic(auto)]

mod annot;
mod handle;
mod items;
mod labels;
mod law;
mod levels;
mod marks;
mod moves;
mod places;
mod shared_levels;
mod times;

pub use annot::{
    Annot, AnnotItem, AnnotItems, AnnotLabel, AnnotLabels, AnnotLevel, AnnotLevels, AnnotLink,
    AnnotLinks,
};
pub use handle::Handle;
pub use items::Item;
pub use labels::Labels;
pub use law::{insert_refuses_exactly, place_splits_items, retime_refuses_exactly};
pub use levels::LevelList;
pub use places::{order_passes, time_passes};
pub use shared_levels::SharedLevels;
pub use times::Time;
