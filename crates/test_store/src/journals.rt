//! The calls of an append, faults and stops at each of them with the images that a crash may leave, and damage.
ghost use Rattle.std.specs.Prelude.{IfOk};
ghost use Rattle.emu_disk.specs.Inner.Planned.{images_of};
ghost use Rattle.edit_journal.specs.Inner.Held.{IsHeld};

use crate::compared::same;
use edit_journal::{
    Bodies, Body, BodyBytes, Frame, Journal, JournalFault, Memory, NoJournal, Recovered,
};
use emu_disk::{Call, Fate, MemoryDisk};
use std::alloc::Global;
use std::process::Abort;
use std::test::Fail;

// A store with the body `x`.
static STORE: &str = "EMUSTORE\x01\0\0\0\x01x\0";

static FATES: [Fate; 5] = [
    Fate::Lost,
    Fate::Half,
    Fate::Whole,
    Fate::Filled(0),
    Fate::Filled(1),
];

fn is_sendable<T: Send>(_: &T) {}

// Why a store stands for no list; the disk is let go of.
fn fault_of(none: NoJournal<MemoryDisk>) -> JournalFault {
    let fault = none.fault;
    drop(none);
    fault
}

fn opened(alloc: Global, disk: MemoryDisk) -> Result<Journal<MemoryDisk>, JournalFault>
    ensures { IfOk result (λ journal. IsHeld images_of journal) }
{
    match Journal::recover(alloc, disk) {
        Ok(Recovered { journal, bodies }) => {
            drop(bodies);
            Ok(journal)
        }
        Err(none) => Err(fault_of(none)),
    }
}

fn bodies_of(alloc: Global, disk: MemoryDisk) -> Result<Bodies, JournalFault> {
    match Journal::recover(alloc, disk) {
        Ok(Recovered { journal, bodies }) => {
            drop(journal);
            Ok(bodies)
        }
        Err(none) => Err(fault_of(none)),
    }
}

// Whether an image stands for these bodies.
fn stands_for(alloc: Global, image: &[u8], wanted: &[&[u8]]) -> Result<bool, Fail> {
    let bodies = bodies_of(alloc, MemoryDisk::new(alloc, image)?)?;
    let stands = are(&bodies, wanted);
    drop(bodies);
    Ok(stands)
}

fn are(bodies: &Bodies, wanted: &[&[u8]]) -> bool {
    bodies.len() == wanted.len()
        && bodies
            .as_slice()
            .iter()
            .zip(wanted)
            .all(|(body, text)| body.bytes.as_slice() == *text)
}

fn is_write(call: &Call, place: u64, text: &[u8]) -> bool {
    match call {
        Call::Write { at, bytes, done } => *done && *at == place && bytes.as_slice() == text,
        _ => false,
    }
}

fn is_sync(call: &Call) -> bool {
    matches!(call, Call::Sync { done: true })
}

// Whether the bodies are `x` with `AB` or, unless the append is safe, without.
fn are_those(bodies: &Bodies, safe: bool) -> bool {
    are(bodies, &[b"x", b"AB"]) || (!safe && are(bodies, &[b"x"]))
}

// Whether an image stands for such bodies.
fn stands_for_those(alloc: Global, image: &[u8], safe: bool) -> Result<bool, Fail> {
    let bodies = bodies_of(alloc, MemoryDisk::new(alloc, image)?)?;
    let stands = are_those(&bodies, safe);
    drop(bodies);
    Ok(stands)
}

// Whether the image of these fates stands for such bodies.
fn image_stands(
    alloc: Global,
    disk: &MemoryDisk,
    fates: &[Fate],
    safe: bool,
) -> Result<bool, Fail> {
    let image = disk.image(alloc, fates)?;
    stands_for_those(alloc, image.as_slice(), safe)
}

// Whether each image of a disk stands for `x` with `AB` or, unless it is safe, without.
fn each_image_stands(alloc: Global, disk: &MemoryDisk, safe: bool) -> Result<bool, Fail> {
    for &first in &FATES {
        for &second in &FATES {
            if !image_stands(alloc, disk, &[first, second], safe)? {
                return Ok(false);
            }
        }
    }
    Ok(true)
}

// The same of a disk that is then let go of.
fn each_image_of(alloc: Global, disk: MemoryDisk, safe: bool) -> Result<bool, Fail> {
    let stands = each_image_stands(alloc, &disk, safe);
    drop(disk);
    stands
}

/// Writes, each of which is synced behind it: the place of the write among the calls, the place on the
/// disk, and the bytes.
type Written = (usize, u64, &'static str);

/// Whether a disk got these writes, each with a sync behind it.
fn has(calls: &[Call], rows: &[Written]) -> bool {
    rows.iter().all(|&(place, at, text)| {
        calls
            .get(place)
            .is_some_and(|call| is_write(call, at, text.as_bytes()))
            && calls.get(place.saturating_add(1)).is_some_and(is_sync)
    })
}

static FIRST: [Written; 3] = [
    (2, 0, "EMUSTORE\0"),
    (4, 9, "\0\0\0\x02AB\0"),
    (6, 8, "\x01"),
];

/// What a first append answers, the end of the list behind it, and the disk.
fn first_append(alloc: Global) -> Result<(Answer, u64, MemoryDisk), Fail> {
    let mut journal = failing(alloc, "", &[])?;
    let answer = append(alloc, &mut journal);
    Ok((answer, journal.end(), journal.into_disk()))
}

#[test]
fn the_calls_of_a_first_append(rt: HostRuntime) -> Result<(), Fail> {
    let (answer, end, disk) = first_append(rt.alloc())?;
    let calls = disk.calls();
    let found = (answer, end, calls.len(), has(calls, &FIRST));
    same(&rt, found, (Ok(()), 15, 8, true));
    let wanted = b"EMUSTORE\x01\0\0\0\x02AB\0".as_slice();
    same(&rt, disk.bytes(), wanted);
    drop(disk);
    Ok(())
}

/// A body that is too large.
fn large(alloc: Global) -> Result<Frame, Memory> {
    let bytes = vec![in alloc; 0u8; 268_435_443]?;
    Frame::new(alloc, bytes.as_slice())
}

/// What an append of a body answers, and how many calls the disk then got.
fn append_frame(alloc: Global, frame: &Frame) -> Result<(Answer, usize), Fail> {
    let mut journal = failing(alloc, "", &[])?;
    let answer = journal.append(frame);
    let disk = journal.into_disk();
    let count = disk.calls().len();
    drop(disk);
    Ok((answer, count))
}

/// The same of a body that is too large.
fn append_large(alloc: Global) -> Result<(Answer, usize), Fail> {
    let large = large(alloc)?;
    let found = append_frame(alloc, &large);
    drop(large);
    found
}

#[test]
fn a_body_that_is_too_large(rt: HostRuntime) -> Result<(), Fail> {
    let found = append_large(rt.alloc())?;
    same(&rt, found, (Err(JournalFault::StoreFull), 2));
    Ok(())
}

/// A disk over a store, of which some calls fail.
fn failing_disk(
    alloc: Global,
    store: &str,
    places: &[u64],
) -> Result<MemoryDisk, emu_disk::Memory> {
    let mut disk = MemoryDisk::new(alloc, store.as_bytes())?;
    match disk.fail_at(places) {
        Ok(()) => Ok(disk),
        Err(fault) => {
            drop(disk);
            Err(fault)
        }
    }
}

/// A journal over a store, of which some calls of the disk fail.
fn failing(alloc: Global, store: &str, places: &[u64]) -> Result<Journal<MemoryDisk>, Fail>
    ensures { IfOk result (λ journal. IsHeld images_of journal) }
{
    Ok(opened(alloc, failing_disk(alloc, store, places)?)?)
}

/// Appends `AB`.
fn append(alloc: Global, journal: &mut Journal<MemoryDisk>) -> Result<(), JournalFault>
    requires { IsHeld images_of journal.old }
    ensures { IsHeld images_of journal.new }
{
    let frame = Frame::new(alloc, b"AB")?;
    let answer = journal.append(&frame);
    drop(frame);
    answer
}

/// What an append answers, and whether the last one then failed.
fn tried(alloc: Global, journal: &mut Journal<MemoryDisk>) -> (Answer, bool)
    requires { IsHeld images_of journal.old }
    ensures { IsHeld images_of journal.new }
{
    let answer = append(alloc, journal);
    (answer, journal.failed_last())
}

/// Three appends: one whose gate came to be in doubt, one that failed to close it, and one that did.
fn expect_doubt(rt: &impl Abort, alloc: Global, journal: &mut Journal<MemoryDisk>)
    requires { IsHeld images_of journal.old }
    ensures { IsHeld images_of journal.new }
{
    let refused = Err(JournalFault::Disk);
    same(rt, tried(alloc, journal), (refused, true));
    same(rt, append(alloc, journal), refused);
    same(rt, tried(alloc, journal), (Ok(()), false));
}

/// The disk behind three such appends.
fn disk_behind_doubt(rt: &impl Abort, alloc: Global) -> Result<MemoryDisk, Fail> {
    let mut journal = failing(alloc, "", &[7, 9])?;
    expect_doubt(rt, alloc, &mut journal);
    Ok(journal.into_disk())
}

/// How many calls there are, and whether the ninth to the twelfth close a gate: in vain, and then done.
fn closings(calls: &[Call]) -> (usize, bool) {
    let failed = calls.get(8).is_some_and(|call| is_write(call, 8, b"\0"))
        && matches!(calls.get(9), Some(Call::Sync { done: false }));
    (calls.len(), failed && has(calls, &[(10, 8, "\0")]))
}

#[test]
fn a_gate_in_doubt_is_closed_first(rt: HostRuntime) -> Result<(), Fail> {
    let disk = disk_behind_doubt(&rt, rt.alloc())?;
    same(&rt, closings(disk.calls()), (16, true));
    let stands = stands_for(rt.alloc(), disk.bytes(), &[b"AB"]);
    drop(disk);
    assert!(rt; stands?);
    Ok(())
}

/// A disk over the store that stops behind so many calls.
fn stopping(alloc: Global, stop: u64) -> Result<MemoryDisk, emu_disk::Memory> {
    let mut disk = MemoryDisk::new(alloc, STORE.as_bytes())?;
    disk.stop_after(stop);
    Ok(disk)
}

/// Whether an append is done by a disk that stops behind so many calls, and whether each image then
/// stands for a list.
fn stopped(alloc: Global, stop: u64) -> Result<(bool, bool), Fail> {
    let mut journal = opened(alloc, stopping(alloc, stop)?)?;
    let safe = append(alloc, &mut journal).is_ok();
    let stands = each_image_of(alloc, journal.into_disk(), safe)?;
    Ok((safe, stands))
}

#[test]
fn each_stop_with_each_image(rt: HostRuntime) -> Result<(), Fail> {
    for stop in 3..=7 {
        let found = stopped(rt.alloc(), stop)?;
        same(&rt, (stop, found), (stop, (stop == 7, true)));
    }
    Ok(())
}

/// What an append answers.
type Answer = Result<(), JournalFault>;

/// What two appends answer of which a call of the first one fails, and whether each image then stands
/// for both.
fn failed(alloc: Global, place: u64) -> Result<(Answer, Answer, bool), Fail> {
    let mut journal = failing(alloc, STORE, &[place])?;
    let first = append(alloc, &mut journal);
    let second = append(alloc, &mut journal);
    let stands = each_image_of(alloc, journal.into_disk(), true)?;
    Ok((first, second, stands))
}

#[test]
fn each_failed_call(rt: HostRuntime) -> Result<(), Fail> {
    for place in 3..7 {
        let found = failed(rt.alloc(), place)?;
        let wanted = (Err(JournalFault::Disk), Ok(()), true);
        same(&rt, (place, found), (place, wanted));
    }
    Ok(())
}

/// Stores that stand for no list, each with the place of its damage.
static DAMAGED: [(&str, u64); 6] = [
    ("NOTASTORE!", 0),
    ("EMUSTORE\x01\0", 8),
    ("EMUSTORE\x01\0\0\0\0\0", 8),
    ("EMUSTORE\x01\0\0\0\x02x", 8),
    ("EMUSTORE\x01\0\0\0\x01x", 14),
    ("EMUSTORE\x01\0\0\0\x01x\x01\0\0\0\x09", 14),
];

/// Whether a store is opened, or why not.
fn opening(alloc: Global, store: &str) -> Result<Answer, emu_disk::Memory> {
    match opened(alloc, MemoryDisk::new(alloc, store.as_bytes())?) {
        Ok(journal) => {
            drop(journal);
            Ok(Ok(()))
        }
        Err(fault) => Ok(Err(fault)),
    }
}

#[test]
fn places_of_damage(rt: HostRuntime) -> Result<(), Fail> {
    for &(store, at) in &DAMAGED {
        let found = opening(rt.alloc(), store)?;
        same(&rt, (store, found), (store, Err(JournalFault::Damaged(at))));
    }
    Ok(())
}

/// Stores that stand for no body.
static WITHOUT: [&str; 2] = ["EMUSTORE\x01", "EMUSTORE\x02rest"];

#[test]
fn a_store_without_bodies(rt: HostRuntime) -> Result<(), Fail> {
    for &store in &WITHOUT {
        let stands = stands_for(rt.alloc(), store.as_bytes(), &[])?;
        assert!(rt; stands, "{store}");
    }
    Ok(())
}

#[test]
fn bytes_are_a_list(rt: HostRuntime) -> Result<(), Fail> {
    let mut bytes = BodyBytes::new(rt.alloc());
    bytes.push(b'x')?;
    let ends = (bytes.len(), bytes.get(0), bytes.get(1));
    same(&rt, ends, (1, Some(b'x'), None));
    Ok(())
}

/// The body x, whose gate is at 8.
fn one_body(alloc: Global) -> Result<Bodies, Memory> {
    let mut bytes = BodyBytes::new(alloc);
    bytes.push(b'x')?;
    let mut bodies = Bodies::new(alloc);
    bodies.push(Body { at: 8, bytes })?;
    Ok(bodies)
}

/// A copy of them.
fn copy_of_one(alloc: Global) -> Result<Bodies, Memory> {
    let bodies = one_body(alloc)?;
    let copied = bodies.copy(alloc);
    drop(bodies);
    copied
}

#[test]
fn bodies_are_copied(rt: HostRuntime) -> Result<(), Fail> {
    let copied = copy_of_one(rt.alloc())?;
    let found = (are(&copied, &[b"x"]), copied.get(0).map(|body| body.at));
    drop(copied);
    same(&rt, found, (true, Some(8)));
    Ok(())
}

#[test]
fn frames_are_copied(rt: HostRuntime) -> Result<(), Fail> {
    let frame = Frame::new(rt.alloc(), b"AB")?.copy(rt.alloc())?;
    same(&rt, frame.len(), 2);
    is_sendable(&frame);
    drop(frame);
    Ok(())
}

#[test]
fn journals_may_be_sent(rt: HostRuntime) -> Result<(), Fail> {
    let journal = opened(rt.alloc(), MemoryDisk::new(rt.alloc(), b"")?)?;
    is_sendable(&journal);
    drop(journal);
    Ok(())
}
