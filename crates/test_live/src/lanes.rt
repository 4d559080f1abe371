//! Lanes by the number of passes: scripts that have one output, whichever sessions share a lane.
ghost use Rattle.std.specs.Prelude.{◌≤◌};

use crate::live::{HELD, HELD_OUTPUT};
use crate::scripts::{BUNDLE, CONFIG, has_lines, joined};
use emu_cli::{Spread, Status, live};
use emu_disk::MemoryDisk;
use emu_io::OpenGate;
use label_match::RegexMaker;
use memory_io::{ListSink, ListSource};
use std::alloc::Global;
use std::process::Abort;
use std::sync::Wait;
use std::test::Fail;
use std::thread::Threads;

/// Three sessions change two bundles. Each `after` names the edit or the look before it, so that the edits have one
/// order; a look of session 3 stays open beside the edits of the others. Behind the last edit all three go on at once.
const SHARED: [&str; 19] = [
    CONFIG,
    BUNDLE,
    r#"{"s":2,"do":"after","line":2}"#,
    r#"{"s":2,"do":"add_bundle","session":"s1","bundle":"b2","annot":{"sampleRate":20000,"levels":[{"name":"Phonetic","type":"SEGMENT","items":[{"id":1,"sampleStart":3749,"sampleDur":1389,"labels":[{"name":"Phonetic","value":"V"}]},{"id":2,"sampleStart":5139,"sampleDur":1664,"labels":[{"name":"Phonetic","value":"m"}]}]}]}}"#,
    r#"{"s":3,"do":"after","line":4}"#,
    r#"{"s":3,"do":"look","eql":"[Phonetic == m]"}"#,
    r#"{"s":1,"do":"after","line":6}"#,
    r#"{"s":1,"do":"split","session":"s1","bundle":"b2","id":2,"newId":3,"sampleStart":6000}"#,
    r#"{"s":2,"do":"after","line":8}"#,
    r#"{"s":2,"do":"set_label","session":"s1","bundle":"b2","id":3,"attribute":"Phonetic","value":"m"}"#,
    r#"{"s":3,"do":"after","line":10}"#,
    r#"{"s":3,"do":"drop_bundle","session":"s1","bundle":"b1"}"#,
    r#"{"s":3,"do":"finish"}"#,
    r#"{"s":1,"do":"after","line":12}"#,
    r#"{"s":1,"do":"set_label","session":"s1","bundle":"b1","id":2,"attribute":"Phonetic","value":"n"}"#,
    r#"{"s":2,"do":"after","line":12}"#,
    r#"{"s":2,"do":"query","eql":"[Phonetic == m]"}"#,
    r#"{"s":1,"do":"finish"}"#,
    r#"{"s":3,"do":"query","eql":"[Phonetic == V]"}"#,
];

/// What that script is answered: the look sees both bundles as they were given, the query of session 2 the two parts of
/// the segment that was split.
const SHARED_OUTPUT: [&str; 25] = [
    r#"{"line":1,"n":0,"ok":"config"}"#,
    r#"{"line":2,"n":1,"ok":"add_bundle"}"#,
    r#"{"line":7,"n":2,"ok":"after"}"#,
    r#"{"line":8,"n":3,"ok":"split"}"#,
    r#"{"line":14,"n":5,"ok":"after"}"#,
    r#"{"line":15,"n":5,"refused":{"rule":"NoBundle"}}"#,
    r#"{"line":18,"refused":{"rule":"NoLook"}}"#,
    r#"{"line":3,"n":1,"ok":"after"}"#,
    r#"{"line":4,"n":2,"ok":"add_bundle"}"#,
    r#"{"line":9,"n":3,"ok":"after"}"#,
    r#"{"line":10,"n":4,"ok":"set_label"}"#,
    r#"{"line":16,"n":5,"ok":"after"}"#,
    r#"{"line":17,"n":5,"segments":[{"attribute":"Phonetic","bundle":"b2","end":299975,"endItem":2,"endPos":1,"labels":"m","level":"Phonetic","sampleEnd":5999,"sampleRate":20000,"sampleStart":5139,"session":"s1","start":256925,"startItem":2,"startPos":1},{"attribute":"Phonetic","bundle":"b2","end":340175,"endItem":3,"endPos":2,"labels":"m","level":"Phonetic","sampleEnd":6803,"sampleRate":20000,"sampleStart":6000,"session":"s1","start":299975,"startItem":3,"startPos":2}]}"#,
    r#"{"line":5,"n":2,"ok":"after"}"#,
    r#"{"line":6,"n":2,"ok":"look"}"#,
    r#"{"line":11,"n":4,"ok":"after"}"#,
    r#"{"line":12,"n":5,"ok":"drop_bundle"}"#,
    r#"{"line":13,"n":2,"segments":[{"attribute":"Phonetic","bundle":"b1","end":340175,"endItem":2,"endPos":1,"labels":"m","level":"Phonetic","sampleEnd":6803,"sampleRate":20000,"sampleStart":5139,"session":"s1","start":256925,"startItem":2,"startPos":1},{"attribute":"Phonetic","bundle":"b2","end":340175,"endItem":2,"endPos":1,"labels":"m","level":"Phonetic","sampleEnd":6803,"sampleRate":20000,"sampleStart":5139,"session":"s1","start":256925,"startItem":2,"startPos":1}]}"#,
    r#"{"line":19,"n":5,"segments":[{"attribute":"Phonetic","bundle":"b2","end":256925,"endItem":1,"endPos":0,"labels":"V","level":"Phonetic","sampleEnd":5138,"sampleRate":20000,"sampleStart":3749,"session":"s1","start":187425,"startItem":1,"startPos":0}]}"#,
    r#"{"from":0}"#,
    r#"{"at":1,"line":2,"s":1}"#,
    r#"{"at":2,"line":4,"s":2}"#,
    r#"{"at":3,"line":8,"s":1}"#,
    r#"{"at":4,"line":10,"s":2}"#,
    r#"{"at":5,"line":12,"s":3}"#,
];

/// Scripts, and what each is answered.
static ROWS: [(&[&str], &[&str]); 2] = [(&HELD, &HELD_OUTPUT), (&SHARED, &SHARED_OUTPUT)];

/// How often each script is run.
const TIMES: u32 = 50;

/// How a live run ended, and what it wrote.
#[derive(Drop)]
struct Ended {
    status: Status,
    sink: ListSink,
}

/// Runs the sessions of a script at once, with so many passes asked for.
fn run<R: Threads + Wait + Sync>(
    rt: &R,
    alloc: Global,
    readers: u32,
    script: Vec<u8>,
    disk: MemoryDisk,
) -> Ended
    requires readers { (1 ≤ readers) × (readers ≤ 16) }
{
    let mut source = ListSource::new(script, Vec::new(alloc));
    let mut sink = ListSink::new(alloc, Vec::new(alloc));
    let mut patterns = RegexMaker::new();
    let spread = Spread {
        readers,
        workers: 4,
    };
    let ran = live(
        rt,
        alloc,
        false,
        spread,
        &mut source,
        &mut sink,
        disk,
        &mut patterns,
        &OpenGate,
    );
    let status = ran.status;
    drop(ran);
    drop(source);
    Ended { status, sink }
}

/// Runs each script once, with so many passes asked for, and compares.
fn expect_rows<R: Abort + Threads + Wait + Sync>(
    rt: &R,
    alloc: Global,
    readers: u32,
) -> Result<(), Fail>
    requires readers { (1 ≤ readers) × (readers ≤ 16) }
{
    for (lines, wanted) in &ROWS {
        let script = joined(alloc, lines)?;
        let disk = MemoryDisk::new(alloc, &[])?;
        let ended = run(rt, alloc, readers, script, disk);
        let good = ended.status == Status::Fine && has_lines(ended.sink.bytes(), wanted);
        drop(ended);
        assert!(rt; good, "{readers} passes, {} lines", lines.len());
    }
    Ok(())
}

#[test]
fn all_sessions_share_one_lane(rt: HostRuntime) -> Result<(), Fail> {
    for _ in 0..TIMES {
        expect_rows(&rt, rt.alloc(), 1)?;
    }
    Ok(())
}

#[test]
fn three_sessions_share_two_lanes(rt: HostRuntime) -> Result<(), Fail> {
    for _ in 0..TIMES {
        expect_rows(&rt, rt.alloc(), 2)?;
    }
    Ok(())
}

#[test]
fn each_session_has_a_lane(rt: HostRuntime) -> Result<(), Fail> {
    for _ in 0..TIMES {
        expect_rows(&rt, rt.alloc(), 16)?;
    }
    Ok(())
}
