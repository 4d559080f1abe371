//! Reading from bytes and writing over them, as both disks in memory do.
ghost use Rattle.std.specs.Prelude.{◌≡◌, ◌+◌, ◌≤◌, ◌++◌, length, take, vec_capacity, vec_len, OnOk};
ghost use Rattle.emu_disk.specs.Disk.{put, IsRead};

use std::alloc::AllocError;

/// Copies the bytes from a place, as many as fit and are there, and says how many.
pub(crate) fn copy_from(bytes: &[u8], at: u64, buf: &mut [u8]) -> usize
    ensures { IsRead bytes.now at result buf.new }
{
    if at >= bytes.len() as u64 {
        return 0;
    }
    let at = at as usize;
    let count = buf.len().min(bytes.len() - at);
    buf[..count].copy_from_slice(&bytes[at..at + count]);
    count
}

/// Writes over the bytes from a place on, and past their end.
pub(crate) fn overlay(bytes: &mut Vec<u8>, at: usize, with: &[u8])
    requires at { at ≤ length bytes.old.items }
    requires room { vec_len bytes.old + length with.now ≤ vec_capacity bytes.old }
    ensures bytes { bytes.new.items ≡ put at with.now bytes.old.items }
    ensures len { vec_len bytes.new ≤ vec_len bytes.old + length with.now }
    ensures capacity { vec_capacity bytes.old ≤ vec_capacity bytes.new }
{
    let len = bytes.len();
    let over = with.len().min(len - at);
    extend(bytes, &with[over..]);
    bytes[at..at + over].copy_from_slice(&with[..over]);
}

/// Writes over the bytes from a place on, or at their end where they end before it.
pub(crate) fn write_over(bytes: &mut Vec<u8>, at: u64, with: &[u8]) -> Result<(), AllocError>
    ensures { OnOk result (bytes.new.items ≡ put at with.now bytes.old.items) }
{
    bytes.reserve(with.len())?;
    let at = at.min(bytes.len() as u64);
    overlay(bytes, at as usize, with);
    Ok(())
}

/// Keeps the first bytes, at most as many as there are.
pub(crate) fn keep_front(bytes: &mut Vec<u8>, len: u64)
    ensures { bytes.new.items ≡ take len bytes.old.items }
{
    let len = len.min(bytes.len() as u64);
    bytes.truncate(len as usize);
}

/// Adds bytes for which there is room.
pub(crate) fn extend(bytes: &mut Vec<u8>, with: &[u8])
    requires { vec_len bytes.old + length with.now ≤ vec_capacity bytes.old }
    ensures bytes { bytes.new.items ≡ bytes.old.items ++ with.now }
    ensures capacity { vec_capacity bytes.old ≤ vec_capacity bytes.new }
{
    bytes.extend_from_slice(with).unwrap();
}
