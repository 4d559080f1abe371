//! A disk of bytes that may fail at any call and may crash at any moment, in memory and as a real
//! file.
#![tactic(auto)]

mod bytes;
mod call;
mod disk;
mod faults;
mod file;
mod log;
mod memory;
mod plan;
mod replay;
mod shortage;
mod sure;

pub use call::{Call, Written};
pub use disk::{Disk, Failed};
pub use file::FileDisk;
pub use memory::MemoryDisk;
pub use replay::Fate;
pub use shortage::Memory;
pub use sure::SureDisk;
