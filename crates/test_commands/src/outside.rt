//! Sources and sinks that fail.
use crate::runs::{BUNDLE, BUNDLE_DONE, CONFIG, CONFIG_DONE, Ran, over_script, run};
use emu_disk::MemoryDisk;
use std::alloc::Global;
use std::sync::Wait;
use std::test::Fail;
use std::thread::Threads;

const QUERY: &str = "{\"s\":1,\"do\":\"query\",\"eql\":\"Phonetic == m\"}";

/// The words of a run, the read of its script and the write that fail, counted from 1 where 0 is none; how it ends and
/// what it writes.
type Row = (&'static str, u64, u64, u8, &'static [&'static str]);

static ROWS: [Row; 6] = [
    ("run", 1, 0, 4, &[]),
    ("run", 2, 0, 4, &[]),
    ("run", 0, 1, 5, &[]),
    ("run", 0, 2, 5, &[CONFIG_DONE]),
    ("run", 0, 3, 5, &[CONFIG_DONE, BUNDLE_DONE]),
    ("fly", 0, 1, 5, &[]),
];

/// Runs the words over a script, where a read and a write fail.
fn run_row<R: Threads + Wait + Sync>(rt: &R, alloc: Global, row: &Row) -> Result<Ran, Fail> {
    let &(words, bad_read, bad_write, _, _) = row;
    let disk = MemoryDisk::new(alloc, &[])?;
    let lines = [CONFIG, BUNDLE, QUERY];
    let (given, script) = over_script(alloc, words, &lines, bad_read, bad_write)?;
    Ok(run(rt, alloc, given, script, disk))
}

/// Whether the run of a row ends as the row says.
fn ends<R: Threads + Wait + Sync>(rt: &R, alloc: Global, row: &Row) -> Result<bool, Fail> {
    let ran = run_row(rt, alloc, row)?;
    let good = ran.gave(row.3, row.4);
    drop(ran);
    Ok(good)
}

#[test]
fn reads_and_writes_that_fail(rt: HostRuntime) -> Result<(), Fail> {
    for row in &ROWS {
        let good = ends(&rt, rt.alloc(), row)?;
        assert!(rt; good, "{} {} {}", row.0, row.1, row.2);
    }
    Ok(())
}
