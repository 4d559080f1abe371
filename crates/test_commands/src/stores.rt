//! Runs over a store on a disk in memory: one after another, with a call of the disk that fails, with a disk that stops,
//! and over bytes that are no store.
use crate::commands::{NO_CONFIGURATION, history_is_one_of};
use crate::runs::{BUNDLE, BUNDLE_DONE, CONFIG, CONFIG_DONE, Ran, over_script, run};
use emu_disk::{Fate, MemoryDisk};
use std::alloc::Global;
use std::process::Abort;
use std::sync::Wait;
use std::test::Fail;
use std::thread::Threads;

const QUERY: &str = "{\"s\":1,\"do\":\"query\",\"eql\":\"Phonetic == x\"}";

const RUN: &str = "run|--store";

/// The replies to a configuration, a bundle and a query.
const REPLIES: [&str; 3] = [
    CONFIG_DONE,
    BUNDLE_DONE,
    "{\"line\":3,\"n\":1,\"segments\":[]}",
];

/// The replies to a configuration and twice the same bundle.
const TAKEN: [&str; 3] = [
    CONFIG_DONE,
    BUNDLE_DONE,
    "{\"line\":3,\"n\":1,\"refused\":{\"rule\":\"BundleTaken\"}}",
];

/// The same where the disk refuses the first of these.
const REFUSED: [&str; 3] = [
    CONFIG_DONE,
    "{\"line\":2,\"refused\":{\"rule\":\"Disk\"}}",
    "{\"line\":3,\"n\":1,\"ok\":\"add_bundle\"}",
];

/// Runs a script over the store on a disk, by these words.
fn run_stored<R: Threads + Wait + Sync>(
    rt: &R,
    alloc: Global,
    words: &str,
    lines: &[&str],
    disk: MemoryDisk,
) -> Result<Ran, Fail> {
    let (given, script) = over_script(alloc, words, lines, 0, 0)?;
    Ok(run(rt, alloc, given, script, disk))
}

/// Runs a script over the store on a disk, compares how the run ends and the lines that it writes, and hands the disk
/// on.
fn expect_stored<R: Abort + Threads + Wait + Sync>(
    rt: &R,
    alloc: Global,
    lines: &[&str],
    disk: MemoryDisk,
    status: u8,
    wanted: &[&str],
) -> Result<MemoryDisk, Fail> {
    let ran = run_stored(rt, alloc, RUN, lines, disk)?;
    assert!(rt; ran.gave(status, wanted));
    Ok(ran.disk)
}

/// The replies to the query and the same bundle, over the store that has it.
const AGAIN: [&str; 2] = [
    "{\"line\":1,\"n\":1,\"segments\":[]}",
    "{\"line\":2,\"n\":1,\"refused\":{\"rule\":\"BundleTaken\"}}",
];

const NO_PLACE: &str = "{\"cause\":\"ConfigPlace\",\"line\":1,\"status\":3}";

#[test]
fn a_run_goes_on_over_the_store_of_another(rt: HostRuntime) -> Result<(), Fail> {
    let alloc = rt.alloc();
    let disk = MemoryDisk::new(alloc, &[])?;
    let disk = expect_stored(&rt, alloc, &[CONFIG, BUNDLE, QUERY], disk, 0, &REPLIES)?;
    let disk = expect_stored(&rt, alloc, &[QUERY, BUNDLE], disk, 0, &AGAIN)?;
    let _disk = expect_stored(&rt, alloc, &[CONFIG], disk, 3, &[NO_PLACE])?;
    Ok(())
}

/// What `history` writes of the bundle of this line.
const OF_LINE_2: &str = "{\"at\":1,\"do\":\"add_bundle\",\"line\":2,\"s\":1}\n";

const OF_LINE_3: &str = "{\"at\":1,\"do\":\"add_bundle\",\"line\":3,\"s\":1}\n";

/// What `history` may write where the disk stopped behind some calls of a run: where the calls behind the stop left nothing,
/// and where a write among them may have landed.
type Stop = (&'static [&'static str], &'static [&'static str]);

const NEITHER: &[&str] = &[NO_CONFIGURATION];

const CONFIG_OR_NOT: &[&str] = &[NO_CONFIGURATION, ""];

const CONFIG_ALONE: &[&str] = &[""];

const BUNDLE_OR_NOT: &[&str] = &["", OF_LINE_2];

const BUNDLE_TOO: &[&str] = &[OF_LINE_2];

/// Runs of a configuration and twice the same bundle over an empty disk, of which a call fails, from one number on up to
/// before another: how they end, what they write, and what `history` may write then. Two calls read the disk, six store
/// the configuration and four the bundle. The seventh writes the gate of the configuration.
type Failing = (
    u64,
    u64,
    u8,
    &'static [&'static str],
    &'static [&'static str],
);

static FAILING: [Failing; 4] = [
    (0, 6, 6, &[], NEITHER),
    (6, 8, 6, &[], CONFIG_OR_NOT),
    (8, 12, 0, &REFUSED, &[OF_LINE_3]),
    (12, 20, 0, &TAKEN, BUNDLE_TOO),
];

/// Runs the bundle that is given twice over an empty disk, a call of which fails.
fn run_twice<R: Threads + Wait + Sync>(rt: &R, alloc: Global, call: u64) -> Result<Ran, Fail> {
    let mut disk = MemoryDisk::new(alloc, &[])?;
    disk.fail_at(&[call])?;
    run_stored(rt, alloc, RUN, &[CONFIG, BUNDLE, BUNDLE], disk)
}

/// Lets each of the calls of a row fail, compares how the run ends, and reads the store again.
fn expect_failing<R: Abort + Threads + Wait + Sync>(
    rt: &R,
    alloc: Global,
    row: &Failing,
) -> Result<(), Fail> {
    for call in row.0..row.1 {
        let ran = run_twice(rt, alloc, call)?;
        let gave = ran.gave(row.2, row.3);
        let kept = history_is_one_of(rt, alloc, ran.disk.bytes(), row.4);
        drop(ran);
        let good = kept? && gave;
        assert!(rt; good, "call {call}");
    }
    Ok(())
}

#[test]
fn each_call_of_the_disk_fails(rt: HostRuntime) -> Result<(), Fail> {
    for row in &FAILING {
        expect_failing(&rt, rt.alloc(), row)?;
    }
    Ok(())
}

/// Stops behind 0, 1, 2 .. calls of a run that stores a configuration and a bundle. The seventh call writes the gate of the
/// configuration, the eleventh that of the bundle, and the eighth and the twelfth sync them.
static STOPS: [Stop; 13] = [
    (NEITHER, NEITHER),
    (NEITHER, NEITHER),
    (NEITHER, NEITHER),
    (NEITHER, NEITHER),
    (NEITHER, NEITHER),
    (NEITHER, NEITHER),
    (NEITHER, CONFIG_OR_NOT),
    (CONFIG_OR_NOT, CONFIG_OR_NOT),
    (CONFIG_ALONE, CONFIG_ALONE),
    (CONFIG_ALONE, CONFIG_ALONE),
    (CONFIG_ALONE, BUNDLE_OR_NOT),
    (BUNDLE_OR_NOT, BUNDLE_OR_NOT),
    (BUNDLE_TOO, BUNDLE_TOO),
];

/// The words of the runs, which call the disk alike.
static WORDS: [&str; 2] = [RUN, "live|--store"];

static FATES: [Fate; 5] = [
    Fate::Lost,
    Fate::Half,
    Fate::Whole,
    Fate::Filled(0),
    Fate::Filled(1),
];

/// Whether `history` over the image of these fates writes one of these texts.
fn image_is_one_of<R: Threads + Wait + Sync>(
    rt: &R,
    alloc: Global,
    disk: &MemoryDisk,
    fates: &[Fate],
    texts: &[&str],
) -> Result<bool, Fail> {
    let image = disk.image(alloc, fates)?;
    history_is_one_of(rt, alloc, image.as_slice(), texts)
}

/// Reads images of a disk, the writes and cuts behind the second of which are lost.
fn expect_image<R: Abort + Threads + Wait + Sync>(
    rt: &R,
    alloc: Global,
    disk: &MemoryDisk,
    first: Fate,
    second: Fate,
    texts: &[&str],
) -> Result<(), Fail> {
    let lost = Fate::Lost;
    let fates = [first, second, lost, lost, lost, lost];
    let good = image_is_one_of(rt, alloc, disk, &fates, texts)?;
    assert!(rt; good, "{first:?} {second:?}, wanted {texts:?}");
    Ok(())
}

/// Reads images of a disk that stopped behind a write that is not synced, or behind another call.
fn expect_images<R: Abort + Threads + Wait + Sync>(
    rt: &R,
    alloc: Global,
    disk: &MemoryDisk,
    unsynced: bool,
    stop: &Stop,
) -> Result<(), Fail> {
    for &first in &FATES {
        let last = if unsynced { first } else { Fate::Lost };
        expect_image(rt, alloc, disk, last, Fate::Lost, stop.0)?;
        for &second in &FATES {
            expect_image(rt, alloc, disk, first, second, stop.1)?;
        }
    }
    Ok(())
}

/// Runs a configuration and a bundle over an empty disk that stops behind so many calls.
fn stopped<R: Threads + Wait + Sync>(
    rt: &R,
    alloc: Global,
    words: &str,
    calls: usize,
) -> Result<Ran, Fail> {
    let mut disk = MemoryDisk::new(alloc, &[])?;
    disk.stop_after(calls as u64);
    run_stored(rt, alloc, words, &[CONFIG, BUNDLE], disk)
}

#[test]
fn a_disk_that_stops_leaves_what_was_acknowledged(rt: HostRuntime) -> Result<(), Fail> {
    for words in &WORDS {
        for calls in 0..STOPS.len() {
            let ran = stopped(&rt, rt.alloc(), words, calls)?;
            let compared = expect_images(&rt, rt.alloc(), &ran.disk, calls % 2 == 1, &STOPS[calls]);
            drop(ran);
            compared?;
        }
    }
    Ok(())
}

/// A script of one session. Four of its edits are accepted, and one is refused.
const ALIKE: [&str; 7] = [
    CONFIG,
    BUNDLE,
    "{\"s\":1,\"do\":\"merge\",\"session\":\"s1\",\"bundle\":\"b1\",\"id\":1}",
    BUNDLE,
    "{\"s\":1,\"do\":\"undo\",\"line\":3}",
    QUERY,
    "{\"s\":1,\"do\":\"drop_bundle\",\"session\":\"s1\",\"bundle\":\"b1\"}",
];

/// How many calls it makes over an empty disk: two that read it, six for the configuration, and four for each edit.
const ALIKE_CALLS: usize = 24;

/// Runs that script over an empty disk.
fn run_alike<R: Threads + Wait + Sync>(rt: &R, alloc: Global, words: &str) -> Result<Ran, Fail> {
    run_stored(rt, alloc, words, &ALIKE, MemoryDisk::new(alloc, &[])?)
}

#[test]
fn a_session_alone_calls_the_disk_alike_in_order_and_live(rt: HostRuntime) -> Result<(), Fail> {
    let [in_order, live] = WORDS;
    let first = run_alike(&rt, rt.alloc(), in_order)?;
    let second = run_alike(&rt, rt.alloc(), live)?;
    let calls = second.disk.calls();
    let alike = first.disk.calls() == calls && calls.len() == ALIKE_CALLS;
    drop(first);
    drop(second);
    assert!(rt; alike);
    Ok(())
}

/// Compares what `history` writes over a store of these bytes.
fn expect_history<R: Abort + Threads + Wait + Sync>(
    rt: &R,
    alloc: Global,
    store: &[u8],
    wanted: &str,
) -> Result<(), Fail> {
    let good = history_is_one_of(rt, alloc, store, &[wanted])?;
    assert!(rt; good, "{wanted}");
    Ok(())
}

/// Compares what `history` writes over a store without its last byte.
fn expect_cut<R: Abort + Threads + Wait + Sync>(
    rt: &R,
    alloc: Global,
    store: &[u8],
) -> Result<(), Fail> {
    let [cut @ .., _] = store else {
        return Ok(());
    };
    let len = cut.len();
    let wanted = format!(in alloc; "{{\"at\":{len},\"cause\":\"Damaged\",\"status\":7}}\n")?;
    expect_history(rt, alloc, cut, wanted.as_str())
}

#[test]
fn a_store_without_its_last_byte_is_damaged(rt: HostRuntime) -> Result<(), Fail> {
    let ran = stopped(&rt, rt.alloc(), RUN, STOPS.len())?;
    let compared = expect_cut(&rt, rt.alloc(), ran.disk.bytes());
    drop(ran);
    compared?;
    expect_history(
        &rt,
        rt.alloc(),
        b"NOTASTORE!",
        "{\"at\":0,\"cause\":\"Damaged\",\"status\":7}\n",
    )?;
    expect_history(&rt, rt.alloc(), &[], NO_CONFIGURATION)
}

#[test]
fn bytes_that_are_no_store(rt: HostRuntime) -> Result<(), Fail> {
    let alloc = rt.alloc();
    let disk = MemoryDisk::new(alloc, b"NOTASTORE!")?;
    let wanted = ["{\"at\":0,\"cause\":\"Damaged\",\"status\":7}"];
    let disk = expect_stored(&rt, alloc, &[CONFIG], disk, 7, &wanted)?;
    let is_same = disk.bytes() == b"NOTASTORE!".as_slice();
    drop(disk);
    assert!(rt; is_same);
    Ok(())
}
