//! How a command on the store ends.
use emu_names::Text;

/// How a command on the store ends, before its text is written.
#[derive(Drop)]
pub enum Ending {
    /// This text is the command's.
    Fine(Text),
    /// The command is refused, and this is the last line.
    Refused(Text),
    /// The store stands for no history, and this is the last line.
    Damaged(Text),
    /// The folder could not be read.
    Read,
    /// The disk failed, while the store was opened or something was stored.
    Disk,
    /// Memory ran out.
    Memory,
}
