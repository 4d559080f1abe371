//! A disk as its callers see it: what a read gives, what a crash may leave, and how often it has
//! failed.
ghost use Rattle.std.specs.Prelude.{◌≡◌, ◌≤◌, ℕ, List, Option, Some, length, take, IfOk, OnOk, OnErr};
ghost use Rattle.emu_names.specs.Count.{HasCause};
ghost use Rattle.emu_disk.specs.Disk.{put, told, IsReadOf, HasPlace, TornBy, Shorter, Scrambled};
ghost use Rattle.emu_disk.specs.Disk.{Becomes, Follows, Within, Only, GoesOn};

use thiserror::Error;

/// A call of the disk failed. What it left is said at each call of [`Disk`].
#[derive(Clone, Copy, Debug, PartialEq, Eq, Error)]
#[error("the disk failed")]
pub struct Failed;

/// A disk of bytes, at places that count from 0. What was written is safe from a crash once a later
/// [`Disk::sync`] has succeeded. Until then a crash may leave any bytes in each range that was
/// written, and any length between the old one and the new one.
///
/// A call answers [`Failed`] only where the count of faults rose in that call.
pub trait Disk {
    /// The bytes that a read gives, where the disk tells them.
    ghost reads: { Self → Option (List ℕ) };

    /// The images: what a crash at this moment may leave.
    ghost may_leave: { Self → List ℕ → Type 0 };

    /// The moment, as a number that doesn't fall.
    ghost moment: { Self → ℕ };

    /// What a crash at some moment from that one on might have left, during a call or between two.
    ghost left_since: { Self → ℕ → List ℕ → Type 0 };

    /// How often the disk has failed. It doesn't fall.
    ghost faults: { Self → ℕ };

    /// Reads the bytes from `at` into the front of `buf`, as many as fit and are there, and says
    /// how many: 0 at or past the end. It changes nothing, whether it fails or not.
    fn read(&mut self, at: u64, buf: &mut [u8]) -> Result<usize, Failed>
        ensures bound { IfOk result (λ n. n ≤ length buf.new) }
        ensures bytes { IfOk result (λ n. IsReadOf (reads self.old) at n buf.new) }
        ensures same { reads self.new ≡ reads self.old }
        ensures crash { Within (may_leave self.old) (may_leave self.new) }
        ensures all { Within (may_leave self.new) (may_leave self.old) }
        ensures time { GoesOn moment left_since may_leave self.old self.new }
        ensures cause { HasCause (faults self.old) (faults self.new) result };

    /// Writes over what is there, and past the end. After a failure a read may give any bytes in
    /// the range, and the length is any between the old one and the new one.
    fn write_at(&mut self, at: u64, bytes: &[u8]) -> Result<(), Failed>
        requires { HasPlace (reads self.old) at }
        ensures written { OnOk result (reads self.new ≡ told (put at bytes.now) (reads self.old)) }
        ensures torn { OnErr result (
            Becomes (TornBy at bytes.now) (reads self.old) (reads self.new)) }
        ensures crash { Follows (TornBy at bytes.now) (may_leave self.old) (may_leave self.new) }
        ensures time { GoesOn moment left_since may_leave self.old self.new }
        ensures cause { HasCause (faults self.old) (faults self.new) result };

    /// Keeps the first `len` bytes, or all where there are fewer. After a failure a read may give
    /// any bytes behind them, up to the old length.
    fn cut(&mut self, len: u64) -> Result<(), Failed>
        ensures cut { OnOk result (reads self.new ≡ told (take len) (reads self.old)) }
        ensures left { OnErr result (Becomes (Scrambled len) (reads self.old) (reads self.new)) }
        ensures crash { OnOk result (
            Follows (Shorter len) (may_leave self.old) (may_leave self.new)) }
        ensures scrambled { OnErr result (
            Follows (Scrambled len) (may_leave self.old) (may_leave self.new)) }
        ensures time { GoesOn moment left_since may_leave self.old self.new }
        ensures cause { HasCause (faults self.old) (faults self.new) result };

    /// After it a crash leaves what a read gives. A sync that fails makes nothing safe. Neither
    /// changes what a read gives.
    fn sync(&mut self) -> Result<(), Failed>
        ensures durable { OnOk result (Only (reads self.old) (may_leave self.new)) }
        ensures same { reads self.new ≡ reads self.old }
        ensures crash { Within (may_leave self.old) (may_leave self.new) }
        ensures all { OnErr result (Within (may_leave self.new) (may_leave self.old)) }
        ensures time { GoesOn moment left_since may_leave self.old self.new }
        ensures cause { HasCause (faults self.old) (faults self.new) result };

    /// The disk as it reads is one of its images.
    ghost as_read: { (disk : Self) (xs : List ℕ) → reads disk ≡ Some xs → may_leave disk xs };

    /// This moment is one of those since an earlier one.
    ghost counts_now: { (disk : Self) (t : ℕ) (c : List ℕ) → t ≤ moment disk → may_leave disk c
        → left_since disk t c };

    /// Since this moment there is no other.
    ghost only_now: { (disk : Self) (c : List ℕ) →
        left_since disk (moment disk) c → may_leave disk c };
}
