//! The limits of what is read of a folder, each of which stands here once.

/// The most bytes of a file that is read.
pub const FILE_BYTES: usize = 67_108_864;

/// The most entries of a folder that is listed.
pub const FOLDER_ENTRIES: usize = 65_536;
