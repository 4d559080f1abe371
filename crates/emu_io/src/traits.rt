//! What the rest of the database asks of the outside.
ghost use Rattle.std.specs.Prelude.{ℕ, List, Option, ◌<◌, length, IfOk};
ghost use Rattle.std.specs.Io.{ReadsAtMost, WritesAtMost};
ghost use Rattle.std.specs.Io.KnownBytes.{ReadConsumes, WriteAppends};
ghost use Rattle.emu_names.specs.Count.{HasCause};

use crate::faults::Failed;

/// Where bytes are read from.
pub trait Source {
    /// The bytes that are left to read, where the source tells them.
    ghost left: { Self → Option (List ℕ) };

    /// How often a read failed. It never falls.
    ghost faults: { Self → ℕ };

    /// Takes the next bytes of what is left, puts them at the front of `buf` and answers their
    /// number. 0 for a buffer that is not empty is the end of the input. `Failed` comes only where
    /// the count of faults rose in this call, and then nothing was taken.
    fn read(&mut self, buf: &mut [u8]) -> Result<usize, Failed>
        ensures bound { ReadsAtMost result buf.new }
        ensures bytes { ReadConsumes (left self.old) (left self.new) result buf.new }
        ensures cause { HasCause (faults self.old) (faults self.new) result };
}

/// Where bytes are written to.
pub trait Sink {
    /// The bytes that the sink has taken, where it tells them.
    ghost written: { Self → Option (List ℕ) };

    /// How often a write failed. It never falls.
    ghost faults: { Self → ℕ };

    /// Appends a front of `buf`, which is not empty unless `buf` is, and answers its length.
    /// `Failed` comes only where the count of faults rose in this call, and then nothing was
    /// appended.
    fn write(&mut self, buf: &[u8]) -> Result<usize, Failed>
        ensures bound { WritesAtMost result buf.now }
        ensures some { IfOk result (λ n. 0 < length buf.now → 0 < n) }
        ensures bytes { WriteAppends (written self.old) (written self.new) result buf.now }
        ensures cause { HasCause (faults self.old) (faults self.new) result };
}
