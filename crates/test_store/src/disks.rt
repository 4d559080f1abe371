//! Each disk on its happy path, the failures that are asked for, the images that fates pick, and a real file.
use crate::compared::same;
use emu_disk::{Call, Disk, Failed, Fate, FileDisk, MemoryDisk, SureDisk};
use std::alloc::Global;
use std::process::Abort;
use std::test::Fail;
use std::{env, fs, process};

fn is_sendable<T: Send>(_: &T) {}

// What a read of ten bytes from a place gives.
fn read_ten<D: Disk>(disk: &mut D, at: u64) -> Result<([u8; 10], usize), Failed> {
    let mut buf = [0u8; 10];
    let count = disk.read(at, &mut buf)?;
    Ok((buf, count))
}

/// How many bytes a read of ten bytes from a place gives.
fn read_count<D: Disk>(disk: &mut D, at: u64) -> Result<usize, Failed> {
    let (_, count) = read_ten(disk, at)?;
    Ok(count)
}

/// The calls of a disk that are done.
fn expect_done(rt: &impl Abort, disk: &mut MemoryDisk) -> Result<(), Failed> {
    assert!(rt; disk.bytes().len() == 3);
    disk.write_at(1, b"XYZ")?;
    let given = Ok((*b"YZ\0\0\0\0\0\0\0\0", 2));
    same(rt, read_ten(disk, 2), given);
    disk.sync()?;
    disk.cut(3)
}

/// A write that fails.
fn expect_failed_write(rt: &impl Abort, disk: &mut MemoryDisk) {
    same(rt, disk.bytes(), b"aXY".as_slice());
    assert!(rt; disk.bytes().len() == 3);
    same(rt, disk.write_at(3, b"1234"), Err(Failed));
    same(rt, disk.bytes(), b"aXY12".as_slice());
}

/// Other calls that fail, and a sync between them that is done.
fn expect_failed(rt: &impl Abort, disk: &mut MemoryDisk) {
    same(rt, (disk.cut(1), disk.sync()), (Err(Failed), Err(Failed)));
    same(rt, read_ten(disk, 0), Err(Failed));
    same(rt, (disk.sync(), disk.sync()), (Ok(()), Err(Failed)));
}

/// Whether a call is a sync that was done, or was not.
fn is_sync(call: Option<&Call>, wanted: bool) -> bool {
    match call {
        Some(Call::Sync { done }) => *done == wanted,
        _ => false,
    }
}

/// What the disk kept of its calls.
fn expect_kept(rt: &impl Abort, calls: &[Call]) {
    let syncs = (is_sync(calls.get(2), true), is_sync(calls.get(6), false));
    same(rt, (calls.len(), syncs), (10, (true, true)));
}

/// The calls of a disk of which some fail and which stops behind the ninth.
fn expect_calls(rt: &impl Abort, disk: &mut MemoryDisk) -> Result<(), Fail> {
    disk.fail_at(&[4, 5, 6, 7])?;
    disk.stop_after(9);
    expect_done(rt, disk)?;
    expect_failed_write(rt, disk);
    expect_failed(rt, disk);
    expect_kept(rt, disk.calls());
    Ok(())
}

#[test]
fn calls_of_a_memory_disk(rt: HostRuntime) -> Result<(), Fail> {
    let mut disk = MemoryDisk::new(rt.alloc(), b"abc")?;
    is_sendable(&disk);
    let compared = expect_calls(&rt, &mut disk);
    drop(disk);
    compared
}

/// Fates of a write and of a cut, and the image that they pick.
static IMAGES: [([Fate; 2], &str); 4] = [
    ([Fate::Whole, Fate::Whole], "..1"),
    ([Fate::Lost, Fate::Lost], "..cd"),
    ([Fate::Half, Fate::Lost], "..12"),
    ([Fate::Filled(b'x'), Fate::Lost], "..xxxx"),
];

/// Writes and syncs, and then writes and cuts.
fn write_and_cut(disk: &mut MemoryDisk) -> Result<(), Failed> {
    disk.write_at(0, b"..")?;
    disk.sync()?;
    disk.write_at(2, b"1234")?;
    disk.cut(3)
}

/// Compares the images of a disk that was written and cut.
fn expect_images(rt: &impl Abort, alloc: Global, disk: &mut MemoryDisk) -> Result<(), Fail> {
    write_and_cut(disk)?;
    for (fates, wanted) in &IMAGES {
        let image = disk.image(alloc, fates)?;
        same(rt, image.as_slice(), wanted.as_bytes());
    }
    Ok(())
}

#[test]
fn images_of_a_memory_disk(rt: HostRuntime) -> Result<(), Fail> {
    let mut disk = MemoryDisk::new(rt.alloc(), b"abcd")?;
    let compared = expect_images(&rt, rt.alloc(), &mut disk);
    drop(disk);
    compared
}

/// Writes within the room of six bytes, and past it.
fn expect_room(rt: &impl Abort, disk: &mut SureDisk) -> Result<(), Failed> {
    disk.write_at(0, b"abcd")?;
    disk.cut(3)?;
    disk.sync()?;
    disk.write_at(2, b"X")?;
    same(rt, disk.write_at(0, b"YZ"), Err(Failed));
    same(rt, disk.bytes(), b"abX".as_slice());
    same(rt, read_count(disk, 1), Ok(2));
    Ok(())
}

#[test]
fn room_of_a_sure_disk(rt: HostRuntime) -> Result<(), Fail> {
    let mut disk = SureDisk::new(rt.alloc(), 6)?;
    is_sendable(&disk);
    let compared = expect_room(&rt, &mut disk);
    drop(disk);
    same(&rt, compared, Ok(()));
    Ok(())
}

/// Leaves the first nine bytes of a text.
fn fill<D: Disk>(disk: &mut D) -> Result<(), Failed> {
    disk.write_at(0, b"a short text")?;
    disk.sync()?;
    disk.cut(9)?;
    disk.cut(20)
}

fn expect_filled<D: Disk>(rt: &impl Abort, disk: &mut D) -> Result<(), Failed> {
    disk.sync()?;
    let given = Ok((*b"short t\0\0\0", 7));
    same(rt, read_ten(disk, 2), given);
    same(rt, read_count(disk, 9), Ok(0));
    Ok(())
}

/// Goes to a folder of its own, and gives its path.
fn in_a_folder(rt: &HostRuntime) -> Result<String, Fail> {
    let id = process::id(rt.process());
    let folder = format!(in rt.alloc(); "/tmp/emu-disk-{id}")?;
    fs::create_dir(rt, folder.as_str())?;
    env::set_current_dir(rt, folder.as_str())?;
    Ok(folder)
}

/// Fills the file of a disk. How many bytes a read gave before, and whether a sync made the file.
fn fill_first<D: Disk>(rt: &HostRuntime, disk: &mut D) -> Result<(usize, bool), Fail> {
    let count = read_count(disk, 0)?;
    disk.sync()?;
    let there = fs::exists(rt, "emu.store")?;
    fill(disk)?;
    Ok((count, there))
}

/// The same with a disk of its own.
fn fill_file(rt: &HostRuntime) -> Result<(usize, bool), Fail> {
    let mut disk = FileDisk::new(rt);
    is_sendable(&disk);
    let filled = fill_first(rt, &mut disk);
    drop(disk);
    filled
}

/// A disk that found no file, and another that makes the file: the first may no longer write.
fn expect_late<D: Disk>(rt: &impl Abort, host: &HostRuntime, late: &mut D) -> Result<(), Fail> {
    same(rt, read_count(late, 0), Ok(0));
    same(rt, fill_file(host)?, (0, false));
    same(rt, late.write_at(0, b"lost"), Err(Failed));
    same(rt, read_count(late, 0), Ok(0));
    Ok(())
}

/// The same with a disk that is made first.
fn expect_made_once(rt: &impl Abort, host: &HostRuntime) -> Result<(), Fail> {
    let mut late = FileDisk::new(host);
    let compared = expect_late(rt, host, &mut late);
    drop(late);
    compared
}

/// Two disks of one file: the second may neither read nor write.
fn expect_refused<A: Disk, B: Disk>(
    rt: &impl Abort,
    first: &mut A,
    second: &mut B,
) -> Result<(), Failed> {
    expect_filled(rt, first)?;
    same(rt, read_ten(second, 0), Err(Failed));
    same(rt, second.write_at(0, b"lost"), Err(Failed));
    same(rt, second.cut(0), Err(Failed));
    expect_filled(rt, first)
}

/// A first disk of the file, which is dropped at the end.
fn expect_first<D: Disk>(
    rt: &impl Abort,
    host: &HostRuntime,
    second: &mut D,
) -> Result<(), Failed> {
    let mut first = FileDisk::new(host);
    let compared = expect_refused(rt, &mut first, second);
    drop(first);
    compared
}

/// Two disks of one file: the second may neither read nor write before the first is dropped.
fn expect_one_at_a_time(rt: &impl Abort, host: &HostRuntime) -> Result<(), Failed> {
    let mut second = FileDisk::new(host);
    let refused = expect_first(rt, host, &mut second);
    let filled = expect_filled(rt, &mut second);
    drop(second);
    refused?;
    filled
}

#[test]
fn a_real_file(rt: HostRuntime) -> Result<(), Fail> {
    let folder = in_a_folder(&rt)?;
    expect_made_once(&rt, &rt)?;
    expect_one_at_a_time(&rt, &rt)?;
    fs::remove_file(&rt, "emu.store")?;
    fs::remove_dir(&rt, folder.as_str())?;
    Ok(())
}
