//! How a command ends.
ghost use Rattle.std.specs.Prelude.{◌≡◌};
ghost use Rattle.program_output.specs.Statuses.{code_of};

/// How a command ends.
#[derive(Clone, Copy, Debug, PartialEq, Eq)]
pub enum Status {
    /// 0: the input was read to its end, and every request has its reply; or the text of a command on the store was
    /// written.
    Fine,
    /// 2: the words are no command.
    Usage,
    /// 3: a line of the script is no request.
    Script,
    /// 4: the script, or the folder of `import` or `load`, could not be read.
    Read,
    /// 5: the output could not be written.
    Write,
    /// 6: the disk failed while the store was opened, its configuration written, or a bundle stored by `import` or
    /// `load`.
    Disk,
    /// 7: the store stands for no configuration and history.
    Damaged,
    /// 8: memory ran out.
    Memory,
    /// 9: a line, the number of lines or the script passes its limit, or the store has no room for the script's
    /// configuration.
    Limit,
    /// 10: the command is refused, and the last line says why.
    Refused,
}

/// The program's number of a status.
pub fn code(status: Status) -> u8
    ensures { result ≡ code_of status }
{
    match status {
        Status::Fine => 0,
        Status::Usage => 2,
        Status::Script => 3,
        Status::Read => 4,
        Status::Write => 5,
        Status::Disk => 6,
        Status::Damaged => 7,
        Status::Memory => 8,
        Status::Limit => 9,
        Status::Refused => 10,
    }
}
