//! Bytes that come in and go out, with the faults of the outside counted.
#![tactic(auto)]

mod adapters;
mod entries;
mod faults;
mod folder;
mod gate;
mod hold;
pub mod limits;
mod real;
mod traits;
mod tree;
mod whole;

pub use adapters::{InputSource, OutputSink};
pub use entries::{FileBytes, FileName, FolderEntries, FolderEntry};
pub use faults::{Failed, Memory, ReadFault};
pub use folder::{Folder, FolderFault, count_miss};
pub use gate::{Gate, Moment, OpenGate};
pub use hold::{Hold, HoldGate, LineMoment, gates_cross_threads};
pub use real::RealFolder;
pub use traits::{Sink, Source};
pub use tree::{FilePath, Stored};
pub use whole::{Front, read_front, write_all};
