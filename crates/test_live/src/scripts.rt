//! Lines of scripts, and live runs of the program over sources and sinks in memory.
use emu_cli::{Exit, emu};
use emu_disk::MemoryDisk;
use emu_io::Gate;
use label_match::RegexMaker;
use memory_io::{ListSink, ListSource, SureFolder};
use std::alloc::{AllocError, Global};
use std::sync::Wait;
use std::test::Fail;
use std::thread::Threads;

/// A configuration with the SEGMENT level Phonetic, which has one attribute of its name.
pub const CONFIG: &str =
    "{\"do\":\"config\",\"config\":{\"name\":\"t\",\"levelDefinitions\":[{\"name\":\"Phonetic\",\"type\":\"SEGMENT\",\"attributeDefinitions\":[{\"name\":\"Phonetic\",\"type\":\"STRING\"}]}],\"linkDefinitions\":[]}}";

/// The bundle b1 at 20000 samples a second: V from 3749 to 5138, m from 5139 to 6803.
pub const BUNDLE: &str =
    "{\"s\":1,\"do\":\"add_bundle\",\"session\":\"s1\",\"bundle\":\"b1\",\"annot\":{\"name\":\"b1\",\"annotates\":\"b1.wav\",\"sampleRate\":20000,\"levels\":[{\"name\":\"Phonetic\",\"type\":\"SEGMENT\",\"items\":[{\"id\":1,\"sampleStart\":3749,\"sampleDur\":1389,\"labels\":[{\"name\":\"Phonetic\",\"value\":\"V\"}]},{\"id\":2,\"sampleStart\":5139,\"sampleDur\":1664,\"labels\":[{\"name\":\"Phonetic\",\"value\":\"m\"}]}]}],\"links\":[]}}";

/// How a live run ended, what it wrote, and its disk.
#[derive(Drop)]
pub struct Ran {
    pub status: u8,
    pub sink: ListSink,
    pub disk: MemoryDisk,
}

impl Ran {
    /// Whether it ended with this status and wrote just these lines.
    pub fn gave(&self, status: u8, lines: &[&str]) -> bool {
        self.status == status && has_lines(self.sink.bytes(), lines)
    }
}

/// Whether a text has these lines, each with its end, and nothing else.
pub fn has_lines(text: &[u8], lines: &[&str]) -> bool {
    let mut rest = text;
    for line in lines {
        match rest.strip_prefix(line.as_bytes()) {
            Some([b'\n', behind @ ..]) => rest = behind,
            _ => return false,
        }
    }
    rest.is_empty()
}

/// The text of these lines, each with its end.
pub fn joined(alloc: Global, lines: &[&str]) -> Result<Vec<u8>, AllocError> {
    let mut bytes = Vec::new(alloc);
    for line in lines {
        bytes.extend_from_slice(line.as_bytes())?;
        bytes.push(b'\n')?;
    }
    Ok(bytes)
}

/// Words as the program takes them.
fn words_of(alloc: Global, words: &[&str]) -> Result<Vec<String>, AllocError> {
    let mut all = Vec::new(alloc);
    for word in words {
        all.push(String::from_str(alloc, word)?)?;
    }
    Ok(all)
}

/// Calls the program on these words, over an empty folder and behind a gate. What it takes is let go of by calls.
fn call<R: Threads + Wait + Sync, G: Gate + Sync>(
    rt: &R,
    alloc: Global,
    words: Vec<String>,
    script: Vec<u8>,
    bad_writes: Vec<u64>,
    disk: MemoryDisk,
    gate: &G,
) -> Ran {
    let mut source = ListSource::new(script, Vec::new(alloc));
    let mut sink = ListSink::new(alloc, bad_writes);
    let mut folder = SureFolder::new(Vec::new(alloc));
    let mut patterns = RegexMaker::new();
    let Exit { status, disk } = emu(
        rt,
        alloc,
        words.as_slice(),
        &mut source,
        &mut sink,
        &mut folder,
        disk,
        &mut patterns,
        gate,
    );
    drop(words);
    drop(source);
    drop(folder);
    Ran { status, sink, disk }
}

/// Runs the words over a script, with a sink that fails on these calls, counted from 1, and behind a gate.
pub fn run_on<R: Threads + Wait + Sync, G: Gate + Sync>(
    rt: &R,
    alloc: Global,
    words: &[&str],
    lines: &[&str],
    bad_writes: &[u64],
    disk: MemoryDisk,
    gate: &G,
) -> Result<Ran, Fail> {
    let script = joined(alloc, lines)?;
    run_script(rt, alloc, words, script, bad_writes, disk, gate)
}

/// As `run_on`, over a script of these bytes.
pub fn run_script<R: Threads + Wait + Sync, G: Gate + Sync>(
    rt: &R,
    alloc: Global,
    words: &[&str],
    script: Vec<u8>,
    bad_writes: &[u64],
    disk: MemoryDisk,
    gate: &G,
) -> Result<Ran, Fail> {
    let bad_writes = Vec::from_slice(alloc, bad_writes)?;
    let words = words_of(alloc, words)?;
    Ok(call(rt, alloc, words, script, bad_writes, disk, gate))
}
