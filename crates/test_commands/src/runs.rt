//! Runs of the program by its words over a script, files and a disk in memory.
use emu_cli::{Exit, emu};
use emu_disk::MemoryDisk;
use emu_io::{OpenGate, Source, Stored};
use label_match::{PatternMaker, RegexMaker};
use memory_io::{ListSink, ListSource, MapFolder};
use std::alloc::{AllocError, Global};
use std::sync::Wait;
use std::thread::Threads;

/// A configuration with the SEGMENT level Phonetic, which has one attribute of its name.
pub const CONFIG: &str =
    "{\"do\":\"config\",\"config\":{\"name\":\"t\",\"levelDefinitions\":[{\"name\":\"Phonetic\",\"type\":\"SEGMENT\",\"attributeDefinitions\":[{\"name\":\"Phonetic\",\"type\":\"STRING\"}]}],\"linkDefinitions\":[]}}";

/// The bundle b1 at 20000 samples a second: V from 3749 to 5138, m from 5139 to 6803.
pub const BUNDLE: &str =
    "{\"s\":1,\"do\":\"add_bundle\",\"session\":\"s1\",\"bundle\":\"b1\",\"annot\":{\"name\":\"b1\",\"annotates\":\"b1.wav\",\"sampleRate\":20000,\"levels\":[{\"name\":\"Phonetic\",\"type\":\"SEGMENT\",\"items\":[{\"id\":1,\"sampleStart\":3749,\"sampleDur\":1389,\"labels\":[{\"name\":\"Phonetic\",\"value\":\"V\"}]},{\"id\":2,\"sampleStart\":5139,\"sampleDur\":1664,\"labels\":[{\"name\":\"Phonetic\",\"value\":\"m\"}]}]}],\"links\":[]}}";

/// The replies to these two, over a store that had nothing.
pub const CONFIG_DONE: &str = "{\"line\":1,\"n\":0,\"ok\":\"config\"}";

pub const BUNDLE_DONE: &str = "{\"line\":2,\"n\":1,\"ok\":\"add_bundle\"}";

/// How a run ended, what it wrote, and its disk.
#[derive(Drop)]
pub struct Ran {
    pub status: u8,
    pub sink: ListSink,
    pub disk: MemoryDisk,
}

impl Ran {
    /// Whether it ended with this status and wrote just these lines.
    pub fn gave(&self, status: u8, lines: &[&str]) -> bool {
        self.status == status && has_lines(self.sink.bytes(), lines)
    }
}

/// Whether a text has these lines, each with its end, and nothing else.
fn has_lines(text: &[u8], lines: &[&str]) -> bool {
    let mut rest = text;
    for line in lines {
        match rest.strip_prefix(line.as_bytes()) {
            Some([b'\n', behind @ ..]) => rest = behind,
            _ => return false,
        }
    }
    rest.is_empty()
}

/// What a run is given beside its script and its disk: its words, its files with the calls of the folder that fail, and
/// the calls of the sink that fail, counted from 1.
#[derive(Drop)]
pub struct Given {
    words: Vec<String>,
    folder: MapFolder,
    bad_writes: Vec<u64>,
}

/// The lines of a text, each with its end.
fn joined(alloc: Global, lines: &[&str]) -> Result<Vec<u8>, AllocError> {
    let mut bytes = Vec::new(alloc);
    for line in lines {
        bytes.extend_from_slice(line.as_bytes())?;
        bytes.push(b'\n')?;
    }
    Ok(bytes)
}

/// The words of a command with a `|` between each two.
fn words_in(alloc: Global, words: &str) -> Result<Vec<String>, AllocError> {
    let mut all = Vec::new(alloc);
    for word in words.split('|') {
        all.push(String::from_str(alloc, word)?)?;
    }
    Ok(all)
}

/// Words over files, of which a call fails, with a sink of which a call fails. 0 is no call.
pub fn over_files(
    alloc: Global,
    words: &str,
    files: Vec<Stored>,
    folder_call: u64,
    sink_call: u64,
) -> Result<Given, AllocError> {
    let folder = MapFolder::new(files, vec![in alloc; folder_call]?);
    let words = words_in(alloc, words)?;
    let bad_writes = vec![in alloc; sink_call]?;
    Ok(Given {
        words,
        folder,
        bad_writes,
    })
}

/// Words without files, with a sink of which a call fails. 0 is no call.
pub fn alone(alloc: Global, words: &str, sink_call: u64) -> Result<Given, AllocError> {
    over_files(alloc, words, Vec::new(alloc), 0, sink_call)
}

/// Words over a script, of which a read fails, and with a sink of which a call fails. 0 is no call.
pub fn over_script(
    alloc: Global,
    words: &str,
    lines: &[&str],
    read: u64,
    sink_call: u64,
) -> Result<(Given, ListSource), AllocError> {
    let given = alone(alloc, words, sink_call)?;
    let script = joined(alloc, lines)?;
    let bad_reads = vec![in alloc; read]?;
    Ok((given, ListSource::new(script, bad_reads)))
}

/// Runs the program over a source. All tests of the crate call it here; what it is given is let go of by calls.
pub fn run_by<R: Threads + Wait + Sync, S: Source, P: PatternMaker>(
    rt: &R,
    alloc: Global,
    given: Given,
    source: &mut S,
    disk: MemoryDisk,
    patterns: &mut P,
) -> Ran {
    let Given {
        words,
        mut folder,
        bad_writes,
    } = given;
    let mut sink = ListSink::new(alloc, bad_writes);
    let Exit { status, disk } = emu(
        rt,
        alloc,
        words.as_slice(),
        source,
        &mut sink,
        &mut folder,
        disk,
        patterns,
        &OpenGate,
    );
    drop(words);
    drop(folder);
    Ran { status, sink, disk }
}

/// Runs the program over a script.
pub fn run<R: Threads + Wait + Sync>(
    rt: &R,
    alloc: Global,
    given: Given,
    script: ListSource,
    disk: MemoryDisk,
) -> Ran {
    let mut source = script;
    let mut patterns = RegexMaker::new();
    let ran = run_by(rt, alloc, given, &mut source, disk, &mut patterns);
    drop(source);
    ran
}
