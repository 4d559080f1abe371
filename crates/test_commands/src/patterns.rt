//! A pattern that the maker refuses for its size.
use crate::runs::{BUNDLE, BUNDLE_DONE, CONFIG, CONFIG_DONE, Ran, over_script, run_by};
use emu_disk::MemoryDisk;
use label_match::ListMaker;
use std::alloc::Global;
use std::sync::Wait;
use std::test::Fail;
use std::thread::Threads;

/// A query by a pattern.
const BY_PATTERN: &str = r#"{"s":1,"do":"query","eql":"[Phonetic =~ '[Vm]']"}"#;

/// What is written where the maker refuses its first pattern for its size.
static REFUSED_ONCE: [&str; 4] = [
    CONFIG_DONE,
    BUNDLE_DONE,
    r#"{"line":3,"n":1,"refused":{"at":0,"rule":"PatternTooLarge"}}"#,
    r#"{"line":4,"n":1,"segments":[{"attribute":"Phonetic","bundle":"b1","end":256925,"endItem":1,"endPos":0,"labels":"V","level":"Phonetic","sampleEnd":5138,"sampleRate":20000,"sampleStart":3749,"session":"s1","start":187425,"startItem":1,"startPos":0},{"attribute":"Phonetic","bundle":"b1","end":340175,"endItem":2,"endPos":1,"labels":"m","level":"Phonetic","sampleEnd":6803,"sampleRate":20000,"sampleStart":5139,"session":"s1","start":256925,"startItem":2,"startPos":1}]}"#,
];

/// Runs two queries by a pattern.
fn run_queries<R: Threads + Wait + Sync>(
    rt: &R,
    alloc: Global,
    maker: &mut ListMaker,
) -> Result<Ran, Fail> {
    let disk = MemoryDisk::new(alloc, &[])?;
    let lines = [CONFIG, BUNDLE, BY_PATTERN, BY_PATTERN];
    let (given, mut script) = over_script(alloc, "run", &lines, 0, 0)?;
    Ok(run_by(rt, alloc, given, &mut script, disk, maker))
}

#[test]
fn a_pattern_that_is_too_large_is_refused(rt: HostRuntime) -> Result<(), Fail> {
    let mut maker = ListMaker::new(vec![in rt.alloc(); 1]?);
    let ran = run_queries(&rt, rt.alloc(), &mut maker)?;
    let good = ran.gave(0, &REFUSED_ONCE);
    drop(ran);
    assert!(rt; good && maker.refusals() == 1);
    Ok(())
}
