//! TextGrids as they are written: the levels with times of a bundle, in the long text form. (Praat manual,
//! "TextGrid file formats".)
#![tactic(auto)]

mod entries;
mod laws;
mod levels;
mod lines;
mod text;
mod write;

pub use laws::{filled_leaves_none_out, written_comes_back};
pub use write::{WriteFault, write_textgrid};
