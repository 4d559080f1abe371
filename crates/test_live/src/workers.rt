//! Queries by several workers: two bundles that are held until both are looked at, and many bundles by 1, 3 and 8.
use crate::scripts::{BUNDLE, CONFIG, Ran, joined, run_on, run_script};
use emu_disk::MemoryDisk;
use emu_io::{Hold, HoldGate, LineMoment, Moment, OpenGate};
use std::alloc::{AllocError, Global};
use std::process::Abort;
use std::str;
use std::sync::Wait;
use std::test::Fail;
use std::thread::Threads;

/// Two bundles of the same annotation, and a query that finds a row in each.
const TWO: [&str; 4] = [
    CONFIG,
    BUNDLE,
    r#"{"s":1,"do":"add_bundle","session":"s1","bundle":"b2","annot":{"annotates":"b1.wav","sampleRate":20000,"levels":[{"name":"Phonetic","type":"SEGMENT","items":[{"id":1,"sampleStart":3749,"sampleDur":1389,"labels":[{"name":"Phonetic","value":"V"}]},{"id":2,"sampleStart":5139,"sampleDur":1664,"labels":[{"name":"Phonetic","value":"m"}]}]}],"links":[]}}"#,
    r#"{"s":1,"do":"query","eql":"Phonetic == m"}"#,
];

/// What that script is answered.
const TWO_OUTPUT: [&str; 7] = [
    r#"{"line":1,"n":0,"ok":"config"}"#,
    r#"{"line":2,"n":1,"ok":"add_bundle"}"#,
    r#"{"line":3,"n":2,"ok":"add_bundle"}"#,
    r#"{"line":4,"n":2,"segments":[{"attribute":"Phonetic","bundle":"b1","end":340175,"endItem":2,"endPos":1,"labels":"m","level":"Phonetic","sampleEnd":6803,"sampleRate":20000,"sampleStart":5139,"session":"s1","start":256925,"startItem":2,"startPos":1},{"attribute":"Phonetic","bundle":"b2","end":340175,"endItem":2,"endPos":1,"labels":"m","level":"Phonetic","sampleEnd":6803,"sampleRate":20000,"sampleStart":5139,"session":"s1","start":256925,"startItem":2,"startPos":1}]}"#,
    r#"{"from":0}"#,
    r#"{"at":1,"line":2,"s":1}"#,
    r#"{"at":2,"line":3,"s":1}"#,
];

/// The moment at which the query of line 4 is about to look at the bundle of a place.
const fn piece(place: u32) -> LineMoment {
    LineMoment {
        line: 4,
        moment: Moment::Piece(place),
    }
}

/// Whether the script has the output that is wanted by so many workers behind a gate, which sees all its moments.
fn is_held<R: Threads + Wait + Sync>(
    rt: &R,
    alloc: Global,
    workers: &str,
    gate: &HoldGate,
) -> Result<bool, Fail> {
    let disk = MemoryDisk::new(alloc, &[])?;
    let words = ["live", "--workers", workers];
    let ran = run_on(rt, alloc, &words, &TWO, &[], disk, gate)?;
    let good = ran.gave(0, &TWO_OUTPUT);
    drop(ran);
    Ok(good && gate.saw_all())
}

/// Runs the script by so many workers, behind a gate that holds each of the two bundles until the other is looked at, and
/// that gives up or not.
fn expect_held<R: Abort + Threads + Wait + Sync>(
    rt: &R,
    alloc: Global,
    workers: &str,
    gives_up: bool,
) -> Result<(), Fail> {
    let holds = [
        Hold {
            first: piece(0),
            second: piece(1),
        },
        Hold {
            first: piece(1),
            second: piece(0),
        },
    ];
    let gate = HoldGate::new(alloc, &holds)?;
    let held = is_held(rt, alloc, workers, &gate);
    let gave_up = gate.gave_up();
    drop(gate);
    let good = held? && gave_up == gives_up;
    assert!(rt; good);
    Ok(())
}

/// One thread could not go through both bundles: by one worker the gate gives up.
#[test]
fn two_workers_look_at_two_bundles_at_once(rt: HostRuntime) -> Result<(), Fail> {
    expect_held(&rt, rt.alloc(), "2", false)?;
    expect_held(&rt, rt.alloc(), "1", true)
}

/// The line of a bundle up to its name, from there to the label of its second segment, and behind that.
const PARTS: [&str; 3] = [
    r#"{"s":1,"do":"add_bundle","session":"s1","bundle":"b"#,
    r#"","annot":{"sampleRate":20000,"levels":[{"name":"Phonetic","type":"SEGMENT","items":[{"id":1,"sampleStart":3749,"sampleDur":1389,"labels":[{"name":"Phonetic","value":"m"}]},{"id":2,"sampleStart":5139,"sampleDur":1664,"labels":[{"name":"Phonetic","value":""#,
    "\"}]}]}]}}\n",
];

/// How many bundles there are.
const MANY: u32 = 256;

/// How many rows the query finds: the first segment of each bundle is an m, and the second of every third one too.
const MANY_ROWS: usize = 256 + 86;

/// Adds the line of the bundle of a place.
fn push_bundle(alloc: Global, script: &mut Vec<u8>, place: u32) -> Result<(), AllocError> {
    let [front, middle, behind] = PARTS;
    let label = if place.is_multiple_of(3) { "m" } else { "n" };
    let line = format!(in alloc; "{front}{place}{middle}{label}{behind}")?;
    script.extend_from_slice(line.as_bytes())
}

/// A configuration, many bundles, and a query.
fn many(alloc: Global) -> Result<Vec<u8>, AllocError> {
    let mut script = joined(alloc, &[CONFIG])?;
    for place in 0..MANY {
        push_bundle(alloc, &mut script, place)?;
    }
    script.extend_from_slice(br#"{"s":1,"do":"query","eql":"Phonetic == m"}"#)?;
    Ok(script)
}

/// Runs the many bundles by so many workers.
fn run_many<R: Threads + Wait + Sync>(rt: &R, alloc: Global, workers: &str) -> Result<Ran, Fail> {
    let script = many(alloc)?;
    let disk = MemoryDisk::new(alloc, &[])?;
    let words = ["live", "--workers", workers];
    run_script(rt, alloc, &words, script, &[], disk, &OpenGate)
}

/// How many rows an output has.
fn rows(output: &[u8]) -> usize {
    match str::from_utf8(output) {
        Ok(text) => text.split("{\"attribute\":").count().saturating_sub(1),
        Err(_) => 0,
    }
}

/// Runs the many bundles by so many workers, and compares with what one worker wrote.
fn expect_same<R: Abort + Threads + Wait + Sync>(
    rt: &R,
    alloc: Global,
    workers: &str,
    one: &[u8],
) -> Result<(), Fail> {
    let more = run_many(rt, alloc, workers)?;
    let same = more.status == 0 && more.sink.bytes() == one;
    drop(more);
    assert!(rt; same, "{workers} workers");
    Ok(())
}

/// Compares what one worker wrote, and then runs the many bundles by three and by eight.
fn expect_many<R: Abort + Threads + Wait + Sync>(
    rt: &R,
    alloc: Global,
    one: &Ran,
) -> Result<(), Fail> {
    assert_eq!(rt; (one.status, rows(one.sink.bytes())), (0, MANY_ROWS));
    expect_same(rt, alloc, "3", one.sink.bytes())?;
    expect_same(rt, alloc, "8", one.sink.bytes())
}

#[test]
fn one_three_and_eight_workers_find_the_same_rows(rt: HostRuntime) -> Result<(), Fail> {
    let one = run_many(&rt, rt.alloc(), "1")?;
    let compared = expect_many(&rt, rt.alloc(), &one);
    drop(one);
    compared
}
