//! An accepted act, with what takes it back.

use edit_undo::NoUndo;
use version_steps::edit_rules::Act;

/// An act that was accepted.
#[derive(Drop)]
pub struct Kept {
    /// How many entries stand then.
    pub n: u64,
    /// The act that takes it back, or why there is none.
    pub inverse: Result<Act, NoUndo>,
}
