//! The one copy that the sources in memory make.
ghost use Rattle.std.specs.Prelude.{◌≡◌, length, min, take};

/// Copies as many bytes as fit from the front of `from` to the front of `buf`, and answers their
/// number.
pub fn copy_front(from: &[u8], buf: &mut [u8]) -> usize
    ensures count { result ≡ min (length from.now) (length buf.old) }
    ensures bytes { take result buf.new ≡ take result from.now }
{
    let count = from.len().min(buf.len());
    buf[..count].copy_from_slice(&from[..count]);
    count
}
