//! TextGrids, the annotation files of Praat: the grid that the bytes of a file hold, and the annotation
//! that the grid gives. (Praat manual, "TextGrid file formats".)
#![tactic(auto)]

mod counts;
mod encoding;
mod entries;
mod fault;
mod grid;
mod law;
mod levels;
mod quoted;
mod reader;
mod scan;
mod tiers;
mod values;

pub use fault::{GridFault, GridWhat};
pub use grid::{
    Grid, GridEntries, GridInterval, GridIntervals, GridPoint, GridPoints, GridTier, GridTiers,
};
pub use law::grids_are_written_out;
pub use levels::to_annot;
pub use reader::read_textgrid;
