//! Sessions that add to the configuration while another one adds a bundle.
use crate::scripts::{BUNDLE, CONFIG, Ran, run_on};
use emu_disk::MemoryDisk;
use emu_io::OpenGate;
use std::alloc::Global;
use std::sync::Wait;
use std::test::Fail;
use std::thread::Threads;

/// Session 2 adds a level. Behind it session 3 adds a link definition, and session 1 a bundle, at once; then session 1
/// puts a word over a segment of the new bundle, in one list.
const CHANGING: [&str; 10] = [
    CONFIG,
    BUNDLE,
    r#"{"s":2,"do":"after","line":2}"#,
    r#"{"s":2,"do":"add_level","level":{"name":"Word","type":"ITEM","attributeDefinitions":[{"name":"Word","type":"STRING"}]}}"#,
    r#"{"s":3,"do":"after","line":4}"#,
    r#"{"s":3,"do":"add_link_definition","definition":{"type":"ONE_TO_MANY","superlevelName":"Word","sublevelName":"Phonetic"}}"#,
    r#"{"s":1,"do":"add_bundle","session":"s1","bundle":"b2","annot":{"sampleRate":20000,"levels":[{"name":"Phonetic","type":"SEGMENT","items":[{"id":1,"sampleStart":0,"sampleDur":99,"labels":[{"name":"Phonetic","value":"V"}]}]}]}}"#,
    r#"{"s":1,"do":"after","line":6}"#,
    r#"{"s":1,"do":"edits","session":"s1","bundle":"b2","edits":[{"do":"add_item","level":"Word","id":2,"labels":[{"name":"Word","value":"w"}]},{"do":"add_link","fromID":2,"toID":1}]}"#,
    r#"{"s":1,"do":"query","eql":"[Word == w ^ Phonetic == V]"}"#,
];

/// The row of the word of b2, behind all five entries.
const WORD: &str =
    r#"{"line":10,"n":5,"segments":[{"attribute":"Word","bundle":"b2","end":4975,"endItem":2,"endPos":0,"labels":"w","level":"Word","sampleEnd":99,"sampleRate":20000,"sampleStart":0,"session":"s1","start":0,"startItem":2,"startPos":0}]}"#;

/// The replies to lines 7, 3, 4, 5 and 6, and the entries from 2 to 4, as they may come: the bundle of line 7 is added
/// before the level, between level and link definition, or behind both. An `after` sees what it names or more.
static COMES: [[&str; 8]; 5] = [
    [
        r#"{"line":7,"n":2,"ok":"add_bundle"}"#,
        r#"{"line":3,"n":1,"ok":"after"}"#,
        r#"{"line":4,"n":3,"ok":"add_level"}"#,
        r#"{"line":5,"n":3,"ok":"after"}"#,
        r#"{"line":6,"n":4,"ok":"add_link_definition"}"#,
        r#"{"at":2,"line":7,"s":1}"#,
        r#"{"at":3,"line":4,"s":2}"#,
        r#"{"at":4,"line":6,"s":3}"#,
    ],
    [
        r#"{"line":7,"n":2,"ok":"add_bundle"}"#,
        r#"{"line":3,"n":2,"ok":"after"}"#,
        r#"{"line":4,"n":3,"ok":"add_level"}"#,
        r#"{"line":5,"n":3,"ok":"after"}"#,
        r#"{"line":6,"n":4,"ok":"add_link_definition"}"#,
        r#"{"at":2,"line":7,"s":1}"#,
        r#"{"at":3,"line":4,"s":2}"#,
        r#"{"at":4,"line":6,"s":3}"#,
    ],
    [
        r#"{"line":7,"n":3,"ok":"add_bundle"}"#,
        r#"{"line":3,"n":1,"ok":"after"}"#,
        r#"{"line":4,"n":2,"ok":"add_level"}"#,
        r#"{"line":5,"n":2,"ok":"after"}"#,
        r#"{"line":6,"n":4,"ok":"add_link_definition"}"#,
        r#"{"at":2,"line":4,"s":2}"#,
        r#"{"at":3,"line":7,"s":1}"#,
        r#"{"at":4,"line":6,"s":3}"#,
    ],
    [
        r#"{"line":7,"n":3,"ok":"add_bundle"}"#,
        r#"{"line":3,"n":1,"ok":"after"}"#,
        r#"{"line":4,"n":2,"ok":"add_level"}"#,
        r#"{"line":5,"n":3,"ok":"after"}"#,
        r#"{"line":6,"n":4,"ok":"add_link_definition"}"#,
        r#"{"at":2,"line":4,"s":2}"#,
        r#"{"at":3,"line":7,"s":1}"#,
        r#"{"at":4,"line":6,"s":3}"#,
    ],
    [
        r#"{"line":7,"n":4,"ok":"add_bundle"}"#,
        r#"{"line":3,"n":1,"ok":"after"}"#,
        r#"{"line":4,"n":2,"ok":"add_level"}"#,
        r#"{"line":5,"n":2,"ok":"after"}"#,
        r#"{"line":6,"n":3,"ok":"add_link_definition"}"#,
        r#"{"at":2,"line":4,"s":2}"#,
        r#"{"at":3,"line":6,"s":3}"#,
        r#"{"at":4,"line":7,"s":1}"#,
    ],
];

/// How often the script is run.
const TIMES: u32 = 200;

/// Whether a run gave this output.
fn came(ran: &Ran, told: &[&str; 8]) -> bool {
    let [bundle, seen, level, behind, links, second, third, fourth] = *told;
    let lines = [
        r#"{"line":1,"n":0,"ok":"config"}"#,
        r#"{"line":2,"n":1,"ok":"add_bundle"}"#,
        bundle,
        r#"{"line":8,"n":4,"ok":"after"}"#,
        r#"{"line":9,"n":5,"ok":"edits"}"#,
        WORD,
        seen,
        level,
        behind,
        links,
        r#"{"from":0}"#,
        r#"{"at":1,"line":2,"s":1}"#,
        second,
        third,
        fourth,
        r#"{"at":5,"line":9,"s":1}"#,
    ];
    ran.gave(0, &lines)
}

/// Whether a run gave one of the outputs that there may be.
fn is_one(ran: &Ran) -> bool {
    COMES.iter().any(|told| came(ran, told))
}

/// Runs the sessions of the script at once.
fn run<R: Threads + Wait + Sync>(rt: &R, alloc: Global) -> Result<Ran, Fail> {
    let disk = MemoryDisk::new(alloc, &[])?;
    run_on(rt, alloc, &["live"], &CHANGING, &[], disk, &OpenGate)
}

#[test]
fn a_bundle_comes_while_the_configuration_changes(rt: HostRuntime) -> Result<(), Fail> {
    for _ in 0..TIMES {
        let ran = run(&rt, rt.alloc())?;
        let good = is_one(&ran);
        drop(ran);
        assert!(rt; good);
    }
    Ok(())
}
