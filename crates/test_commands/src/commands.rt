//! Commands on a store, over a folder and a disk in memory: each call failing once, and the store read again.
use crate::runs::{Ran, over_files, run};
use emu_disk::MemoryDisk;
use emu_io::Stored;
use memory_io::ListSource;
use std::alloc::{AllocError, Global};
use std::process::Abort;
use std::sync::Wait;
use std::test::Fail;
use std::thread::Threads;

/// The file of a configuration with the SEGMENT level Phonetic.
static CONFIG_FILE: &str =
    r#"{"name":"t","levelDefinitions":[{"name":"Phonetic","type":"SEGMENT","attributeDefinitions":[{"name":"Phonetic","type":"STRING"}]}],"linkDefinitions":[]}"#;

/// The file of a bundle at 20000 samples a second: V from 3749 to 5138, m from 5139 to 6803.
static ANNOT_FILE: &str =
    r#"{"name":"b1","annotates":"b1.wav","sampleRate":20000,"levels":[{"name":"Phonetic","type":"SEGMENT","items":[{"id":1,"sampleStart":3749,"sampleDur":1389,"labels":[{"name":"Phonetic","value":"V"}]},{"id":2,"sampleStart":5139,"sampleDur":1664,"labels":[{"name":"Phonetic","value":"m"}]}]}],"links":[]}"#;

/// A TextGrid of three intervals.
static GRID: &str =
    r#""ooTextFile" "TextGrid" 0 0.340175 <exists> 1 "IntervalTier" "Phonetic" 0 0.340175 3 0 0.187425 "" 0.187425 0.256925 "V" 0.256925 0.340175 "m""#;

/// The bytes of an ASCII text in UTF-16, the lower byte first, with the mark of it.
fn utf16(alloc: Global, text: &str) -> Result<Vec<u8>, AllocError> {
    let mut bytes = Vec::from_slice(alloc, b"\xff\xfe")?;
    for &byte in text.as_bytes() {
        bytes.push(byte)?;
        bytes.push(0)?;
    }
    Ok(bytes)
}

/// The TextGrid as a file.
fn grid_file(alloc: Global) -> Result<Stored, Fail> {
    let bytes = utf16(alloc, GRID)?;
    Ok(Stored::file(alloc, "a.TextGrid", bytes.as_slice())?)
}

/// The files of the database `t`, and of a TextGrid.
fn stored(alloc: Global) -> Result<Vec<Stored>, Fail> {
    let mut all = vec![in alloc; grid_file(alloc)?]?;
    all.push(Stored::file(alloc, "t_emuDB/t_DBconfig.json", CONFIG_FILE.as_bytes())?)?;
    all.push(Stored::file(
        alloc,
        "t_emuDB/s1_ses/b1_bndl/b1_annot.json",
        ANNOT_FILE.as_bytes(),
    )?)?;
    Ok(all)
}

/// Runs a command over the files, of whose calls one fails, and a disk, with a sink of which one call fails. Calls are
/// counted from 1.
fn command<R: Threads + Wait + Sync>(
    rt: &R,
    alloc: Global,
    words: &str,
    folder_call: u64,
    sink_call: u64,
    disk: MemoryDisk,
) -> Result<Ran, Fail> {
    let files = stored(alloc)?;
    let given = over_files(alloc, words, files, folder_call, sink_call)?;
    let none = ListSource::new(Vec::new(alloc), Vec::new(alloc));
    Ok(run(rt, alloc, given, none, disk))
}

/// Whether `history` over a store of these bytes writes one of these texts.
pub fn history_is_one_of<R: Threads + Wait + Sync>(
    rt: &R,
    alloc: Global,
    store: &[u8],
    texts: &[&str],
) -> Result<bool, Fail> {
    let disk = MemoryDisk::new(alloc, store)?;
    let ran = command(rt, alloc, "history", 0, 0, disk)?;
    let told = ran.sink.bytes();
    let is_one = texts.iter().any(|text| told == text.as_bytes());
    drop(ran);
    Ok(is_one)
}

/// What `history` writes over a store without a configuration.
pub const NO_CONFIGURATION: &str = "{\"cause\":\"NoConfiguration\",\"status\":10}\n";

const LOADED: &str = "{\"at\":1,\"do\":\"add_bundle\",\"line\":0,\"s\":0}\n";

const BOTH: &str =
    "{\"at\":1,\"do\":\"add_bundle\",\"line\":0,\"s\":0}\n{\"at\":2,\"do\":\"add_bundle\",\"line\":0,\"s\":0}\n";

/// A command with `|` between its words.
struct Row {
    words: &'static str,
    /// What it writes.
    output: &'static str,
    /// What `history` may write where a call failed.
    failed: &'static [&'static str],
    /// What `history` writes where it is done, or only its output was not written.
    done: &'static [&'static str],
    /// Whether it reads files.
    reads: bool,
}

static LOAD: Row = Row {
    words: "load|t",
    output: "{\"n\":1,\"ok\":\"load\"}\n",
    failed: &[NO_CONFIGURATION, "", LOADED],
    done: &[LOADED],
    reads: true,
};

static IMPORT: Row = Row {
    words: "import|s1|b9|20000|a.TextGrid",
    output: "{\"n\":2,\"ok\":\"import\"}\n",
    failed: &[LOADED, BOTH],
    done: &[BOTH],
    reads: true,
};

/// Commands that only read, over the store of the two before.
static READING: [Row; 3] = [
    Row {
        words: "export|s1|b1",
        output: "{\"annotates\":\"b1.wav\",\"levels\":[{\"items\":[{\"id\":1,\"labels\":[{\"name\":\"Phonetic\",\"value\":\"V\"}],\"sampleDur\":1389,\"sampleStart\":3749},{\"id\":2,\"labels\":[{\"name\":\"Phonetic\",\"value\":\"m\"}],\"sampleDur\":1664,\"sampleStart\":5139}],\"name\":\"Phonetic\",\"type\":\"SEGMENT\"}],\"links\":[],\"name\":\"b1\",\"sampleRate\":20000}\n",
        failed: &[BOTH],
        done: &[BOTH],
        reads: false,
    },
    Row {
        words: "history",
        output: BOTH,
        failed: &[BOTH],
        done: &[BOTH],
        reads: false,
    },
    Row {
        words: "ask|Phonetic == V",
        output: "{\"n\":2,\"segments\":[{\"attribute\":\"Phonetic\",\"bundle\":\"b1\",\"end\":256925,\"endItem\":1,\"endPos\":0,\"labels\":\"V\",\"level\":\"Phonetic\",\"sampleEnd\":5138,\"sampleRate\":20000,\"sampleStart\":3749,\"session\":\"s1\",\"start\":187425,\"startItem\":1,\"startPos\":0},{\"attribute\":\"Phonetic\",\"bundle\":\"b9\",\"end\":256925,\"endItem\":2,\"endPos\":1,\"labels\":\"V\",\"level\":\"Phonetic\",\"sampleEnd\":5138,\"sampleRate\":20000,\"sampleStart\":3749,\"session\":\"s1\",\"start\":187425,\"startItem\":2,\"startPos\":1}]}\n",
        failed: &[BOTH],
        done: &[BOTH],
        reads: false,
    },
];

/// The part of the outer world of which a call fails.
#[derive(Clone, Copy, PartialEq, Eq)]
enum Part {
    Disk,
    Folder,
    Sink,
}

/// The parts, each with the status of a command of which a call of it fails.
static PARTS: [(Part, u8); 3] = [(Part::Disk, 6), (Part::Folder, 4), (Part::Sink, 5)];

/// Runs a command over a store, where the call of this number of a part fails, counted from 0.
fn failing<R: Threads + Wait + Sync>(
    rt: &R,
    alloc: Global,
    words: &str,
    store: &[u8],
    part: Part,
    call: u64,
) -> Result<Ran, Fail> {
    let mut disk = MemoryDisk::new(alloc, store)?;
    let next = call.saturating_add(1);
    match part {
        Part::Disk => {
            disk.fail_at(&[call])?;
            command(rt, alloc, words, 0, 0, disk)
        }
        Part::Folder => command(rt, alloc, words, next, 0, disk),
        Part::Sink => command(rt, alloc, words, 0, next, disk),
    }
}

/// Whether a command is done, or ends with this status behind a front of its output.
fn is_told(row: &Row, ran: &Ran, status: u8) -> bool {
    let output = row.output.as_bytes();
    if ran.status == 0 {
        ran.sink.bytes() == output
    } else {
        ran.status == status && output.starts_with(ran.sink.bytes())
    }
}

/// Runs a command of which a call fails, compares how it ends, and reads the store again. Whether the command is done.
fn expect_failing<R: Abort + Threads + Wait + Sync>(
    rt: &R,
    alloc: Global,
    row: &Row,
    store: &[u8],
    part: &(Part, u8),
    call: u64,
) -> Result<bool, Fail> {
    let ran = failing(rt, alloc, row.words, store, part.0, call)?;
    let done = ran.status == 0;
    let stored = done || part.0 == Part::Sink;
    let texts = if stored { row.done } else { row.failed };
    let told = is_told(row, &ran, part.1);
    let kept = history_is_one_of(rt, alloc, ran.disk.bytes(), texts);
    drop(ran);
    let good = kept? && told;
    assert!(rt; good, "{} {} {call}", row.words, part.1);
    Ok(done)
}

/// Lets each of the first calls of a part fail. Some do where the command makes any.
fn expect_part<R: Abort + Threads + Wait + Sync>(
    rt: &R,
    alloc: Global,
    row: &Row,
    store: &[u8],
    part: &(Part, u8),
) -> Result<(), Fail> {
    let mut failed = false;
    for call in 0..16 {
        let done = expect_failing(rt, alloc, row, store, part, call)?;
        failed = failed || !done;
    }
    assert_eq!(rt;
        failed,
        row.reads || part.0 != Part::Folder,
        "{} {}",
        row.words,
        part.1
    );
    Ok(())
}

/// Lets each call of a command over a store fail, and gives the store that it leaves where none does.
fn expect_row<R: Abort + Threads + Wait + Sync>(
    rt: &R,
    alloc: Global,
    row: &Row,
    store: &[u8],
) -> Result<Ran, Fail> {
    for part in &PARTS {
        expect_part(rt, alloc, row, store, part)?;
    }
    let ran = command(rt, alloc, row.words, 0, 0, MemoryDisk::new(alloc, store)?)?;
    assert!(rt; ran.status == 0 && ran.sink.bytes() == row.output.as_bytes());
    Ok(ran)
}

/// Lets each call of the commands fail that only read, over a store.
fn expect_reading<R: Abort + Threads + Wait + Sync>(
    rt: &R,
    alloc: Global,
    store: &[u8],
) -> Result<(), Fail> {
    for row in &READING {
        let ran = expect_row(rt, alloc, row, store)?;
        drop(ran);
    }
    Ok(())
}

/// Lets each call of an import over a store fail, and then of those that only read.
fn expect_import<R: Abort + Threads + Wait + Sync>(
    rt: &R,
    alloc: Global,
    store: &[u8],
) -> Result<(), Fail> {
    let both = expect_row(rt, alloc, &IMPORT, store)?;
    let compared = expect_reading(rt, alloc, both.disk.bytes());
    drop(both);
    compared
}

#[test]
fn each_call_of_a_command_fails(rt: HostRuntime) -> Result<(), Fail> {
    let loaded = expect_row(&rt, rt.alloc(), &LOAD, &[])?;
    let compared = expect_import(&rt, rt.alloc(), loaded.disk.bytes());
    drop(loaded);
    compared
}
