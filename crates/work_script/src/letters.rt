//! What the script of work is made of.

/// How many segments a bundle has.
pub const SEGMENTS: u32 = 24;

/// How many words a bundle has.
pub const WORDS: u32 = 6;

/// How many segments a word is above.
pub const STRIDE: u32 = 4;

/// How many letters there are, from `a` on.
pub const LETTERS: u64 = 5;

/// How many sessions add bundles.
pub const ADDING: u32 = 4;
