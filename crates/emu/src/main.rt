//! The program `emu`: the words of the command line, the standard streams and the status.
#![tactic(auto)]

use emu_cli::emu;
use emu_disk::FileDisk;
use emu_io::{InputSource, OpenGate, OutputSink, RealFolder};
use label_match::RegexMaker;
use std::process::ExitCode;
use std::rt::Env;
use std::{env, io};

/// The status where memory ran out before the program began.
const OUT_OF_MEMORY: u8 = 8;

/// The bytes of the block that is taken and let go of first: close to the largest one after which the C library's
/// allocator keeps memory.
const BLOCK: usize = 32_000_000;

/// Takes a large block and lets go of it. From then on the C library's allocator keeps memory that is let go of for what
/// comes next, in place of giving it back to the system with each list. Nothing else hangs on it.
fn keep_memory<R: AllocGlobal>(rt: &R) {
    let block: Result<Vec<u8>, _> = Vec::with_capacity(rt.alloc(), BLOCK);
    drop(block);
}

/// The words after the program's name. Words that are not UTF-8 are no command, and count as none.
fn words<R: Env + AllocGlobal>(rt: &R) -> io::Result<Vec<String>> {
    let mut words = Vec::new(rt.alloc());
    match env::args(rt) {
        Ok(args) => {
            for word in args.skip(1) {
                words.push(word)?;
            }
            Ok(words)
        }
        Err(error) if error.kind() == io::ErrorKind::InvalidData => Ok(words),
        Err(error) => Err(error),
    }
}

fn main(rt: HostRuntime) -> ExitCode {
    keep_memory(&rt);
    let Ok(words) = words(&rt) else {
        return ExitCode::from(OUT_OF_MEMORY);
    };
    let mut script = InputSource::new(rt.reader());
    let mut out = OutputSink::new(io::writer(&rt));
    let mut folder = RealFolder::new(&rt);
    let mut patterns = RegexMaker::new();
    let exit = emu(
        &rt,
        rt.alloc(),
        words.as_slice(),
        &mut script,
        &mut out,
        &mut folder,
        FileDisk::new(&rt),
        &mut patterns,
        &OpenGate,
    );
    ExitCode::from(exit.status)
}
