//! What holds of every line that is read.
ghost use Rattle.script_lines.specs.Known.{ReadLinesAreKnown};

/// A line that is read is of the kind that was wanted, and a request has the number of its line, a
/// session with a place, the command of its request, and where it is an `after` an earlier request.
pub fn read_lines_are_known()
    ensures { ReadLinesAreKnown }
{}
