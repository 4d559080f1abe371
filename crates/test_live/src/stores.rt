//! Live runs over a store: one after another, with a call of the disk that fails, and with a sink that fails.
use crate::live::{HELD, HELD_OUTPUT};
use crate::scripts::{BUNDLE, CONFIG, Ran, joined, run_on};
use emu_disk::MemoryDisk;
use emu_io::OpenGate;
use std::alloc::Global;
use std::process::Abort;
use std::sync::Wait;
use std::test::Fail;
use std::thread::Threads;

/// The answers to a configuration and twice the same bundle, where the disk refuses nothing.
const STORED: [&str; 5] = [
    "{\"line\":1,\"n\":0,\"ok\":\"config\"}",
    "{\"line\":2,\"n\":1,\"ok\":\"add_bundle\"}",
    "{\"line\":3,\"n\":1,\"refused\":{\"rule\":\"BundleTaken\"}}",
    "{\"from\":0}",
    "{\"at\":1,\"line\":2,\"s\":1}",
];

/// The same where the disk refuses the first of these.
const REFUSED: [&str; 5] = [
    "{\"line\":1,\"n\":0,\"ok\":\"config\"}",
    "{\"line\":2,\"refused\":{\"rule\":\"Disk\"}}",
    "{\"line\":3,\"n\":1,\"ok\":\"add_bundle\"}",
    "{\"from\":0}",
    "{\"at\":1,\"line\":3,\"s\":1}",
];

/// The answers to the bundle again, over the store that has it.
const AGAIN: [&str; 2] = [
    "{\"line\":1,\"n\":1,\"refused\":{\"rule\":\"BundleTaken\"}}",
    "{\"from\":1}",
];

const LIVE: [&str; 2] = ["live", "--store"];

/// How a run of the bundle that is given twice ends, where one call of its disk fails.
#[derive(Clone, Copy, Debug, PartialEq, Eq)]
enum End {
    /// The store was not opened, and nothing was written.
    Unopened,
    /// The disk refused the first of the two.
    Refused,
    /// The disk refused none.
    Stored,
    /// In another way, which is wrong.
    Wrong,
}

/// How such a run ended.
fn end_of(ran: &Ran) -> End {
    if ran.gave(6, &[]) {
        End::Unopened
    } else if ran.gave(0, &REFUSED) {
        End::Refused
    } else if ran.gave(0, &STORED) {
        End::Stored
    } else {
        End::Wrong
    }
}

/// Runs the bundle that is given twice over an empty disk, a call of which fails.
fn run_twice<R: Threads + Wait + Sync>(rt: &R, alloc: Global, call: u64) -> Result<Ran, Fail> {
    let mut disk = MemoryDisk::new(alloc, &[])?;
    disk.fail_at(&[call])?;
    let lines = [CONFIG, BUNDLE, BUNDLE];
    run_on(rt, alloc, &LIVE, &lines, &[], disk, &OpenGate)
}

/// Whether the bundle is refused when it is given again, over the store of these bytes.
fn is_there<R: Threads + Wait + Sync>(rt: &R, alloc: Global, store: &[u8]) -> Result<bool, Fail> {
    let disk = MemoryDisk::new(alloc, store)?;
    let ran = run_on(rt, alloc, &LIVE, &[BUNDLE], &[], disk, &OpenGate)?;
    let good = ran.gave(0, &AGAIN);
    drop(ran);
    Ok(good)
}

/// How a run ends of whose disk a call fails. Where its store was opened, that has the bundle then.
fn expect_end<R: Abort + Threads + Wait + Sync>(
    rt: &R,
    alloc: Global,
    call: u64,
) -> Result<End, Fail> {
    let ran = run_twice(rt, alloc, call)?;
    let end = end_of(&ran);
    let there = match end {
        End::Unopened => Ok(true),
        _ => is_there(rt, alloc, ran.disk.bytes()),
    };
    drop(ran);
    let good = there? && end != End::Wrong;
    assert!(rt; good, "call {call}");
    Ok(end)
}

#[test]
fn each_call_of_the_disk_fails(rt: HostRuntime) -> Result<(), Fail> {
    let (mut unopened, mut refused) = (false, false);
    for call in 0..20 {
        let end = expect_end(&rt, rt.alloc(), call)?;
        unopened = unopened || end == End::Unopened;
        refused = refused || end == End::Refused;
    }
    assert!(rt; unopened && refused);
    Ok(())
}

/// Runs the held script with a sink of which a write fails: whether the run ends so, and what it wrote is a front of
/// the whole output.
fn is_cut_short<R: Threads + Wait + Sync>(
    rt: &R,
    alloc: Global,
    call: u64,
    whole: &[u8],
) -> Result<bool, Fail> {
    let disk = MemoryDisk::new(alloc, &[])?;
    let ran = run_on(rt, alloc, &["live"], &HELD, &[call], disk, &OpenGate)?;
    let short = ran.status == 5 && whole.starts_with(ran.sink.bytes());
    drop(ran);
    Ok(short)
}

#[test]
fn each_write_fails(rt: HostRuntime) -> Result<(), Fail> {
    let whole = joined(rt.alloc(), &HELD_OUTPUT)?;
    for call in 1..=HELD_OUTPUT.len() {
        let short = is_cut_short(&rt, rt.alloc(), call as u64, whole.as_slice())?;
        assert!(rt; short, "write {call}");
    }
    Ok(())
}
