//! What comes into a store from files: a bundle of a TextGrid, and a whole database of a folder.
#![tactic(auto)]

mod bundles;
mod faults;
mod files;
mod importing;
mod loading;
mod paths;
mod sessions;

pub use importing::import;
pub use loading::{Loaded, load};
pub use store_texts;
