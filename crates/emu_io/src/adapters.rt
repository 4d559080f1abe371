//! The real input and output as a source and a sink.
ghost use Rattle.std.specs.Prelude.{◌≡◌};

use crate::faults::Failed;
use crate::traits::{Sink, Source};
use std::io::{Read, Write};

/// A reader of std as a source, which counts each read that fails. It tells what is left where the
/// reader does, and so nothing of the standard input.
#[derive(Drop)]
pub struct InputSource<R: Drop> {
    reader: R,
    faults: u64,
}

impl<R: Read + Drop> InputSource<R> {
    /// The source that reads from `reader`.
    pub fn new(reader: R) -> InputSource<R>
        ensures left { ⟦<InputSource<R> as Source>⟧.left result ≡ R.remaining reader }
        ensures faults { ⟦<InputSource<R> as Source>⟧.faults result ≡ 0 }
    {
        InputSource { reader, faults: 0 }
    }

    /// How often a read failed.
    pub fn faults(&self) -> u64
        ensures { result ≡ ⟦<InputSource<R> as Source>⟧.faults self.now }
    {
        self.faults
    }
}

impl<R: Read + Drop> Source for InputSource<R> {
    ghost left = { λ s. R.remaining s.reader };

    ghost faults = { λ s. s.faults };

    fn read(&mut self, buf: &mut [u8]) -> Result<usize, Failed> {
        match self.reader.read(buf) {
            Ok(count) => Ok(count),
            Err(_) => {
                self.faults = self.faults.saturating_add(1);
                Err(Failed)
            }
        }
    }
}

/// A writer of std as a sink, which counts each write that fails, and each that takes nothing of
/// bytes that are not empty. It never flushes, so the writer has to hand on what it takes at once.
/// It tells what was written where the writer does, and so nothing of the standard output.
#[derive(Drop)]
pub struct OutputSink<W: Drop> {
    writer: W,
    faults: u64,
}

impl<W: Write + Drop> OutputSink<W> {
    /// The sink that writes to `writer`.
    pub fn new(writer: W) -> OutputSink<W>
        ensures written { ⟦<OutputSink<W> as Sink>⟧.written result ≡ W.contents writer }
        ensures faults { ⟦<OutputSink<W> as Sink>⟧.faults result ≡ 0 }
    {
        OutputSink { writer, faults: 0 }
    }

    /// How often a write failed.
    pub fn faults(&self) -> u64
        ensures { result ≡ ⟦<OutputSink<W> as Sink>⟧.faults self.now }
    {
        self.faults
    }

    /// The writer, with all that was written.
    pub fn into_inner(self) -> W
        ensures { W.contents result ≡ ⟦<OutputSink<W> as Sink>⟧.written self }
    {
        self.writer
    }
}

impl<W: Write + Drop> Sink for OutputSink<W> {
    ghost written = { λ s. W.contents s.writer };

    ghost faults = { λ s. s.faults };

    fn write(&mut self, buf: &[u8]) -> Result<usize, Failed> {
        match self.writer.write(buf) {
            Ok(count) if count > 0 || buf.is_empty() => Ok(count),
            _ => {
                self.faults = self.faults.saturating_add(1);
                Err(Failed)
            }
        }
    }
}
