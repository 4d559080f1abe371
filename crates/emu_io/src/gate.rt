//! Where a test may hold a line of a script until another one has come as far as it wants.

/// A moment of a line of a script.
#[derive(Clone, Copy, Debug, PartialEq, Eq)]
pub enum Moment {
    /// The line has its reply.
    Answered,
    /// The line's query is about to look at the bundle at this place of the version, counted from 0.
    Piece(u32),
}

impl Moment {
    ghost use Rattle.std.specs.Prelude.{◌≡◌};

    /// The same moment again.
    pub fn copy(&self) -> Moment
        ensures { result ≡ self.now }
    {
        *self
    }
}

/// What is told of each moment of each line. It answers nothing, changes nothing that an answer
/// rests on, and may wait for a while.
pub trait Gate {
    /// The line of that number, counted from 1, is at that moment.
    fn at(&self, line: u32, moment: Moment);
}

/// The gate that does nothing.
#[derive(Clone, Copy, Debug, Drop)]
pub struct OpenGate;

impl Gate for OpenGate {
    fn at(&self, _line: u32, _moment: Moment) {}
}
