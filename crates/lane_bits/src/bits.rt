//! The bits of words of 64 bits: one at a time, how many are set, the first, the next and the last, and
//! whether some bit is set in both of two.
ghost use Rattle.std.specs.Prelude.{◌≡◌, ◌≢◌, ℕ, ◌+◌, ◌<◌, ◌≤◌, ◌*◌, ◌^◌, if◌then◌else◌, count_by, length, take, drop, map, replicate};
ghost use Rattle.std.specs.Simd.Lanes.{sum_l};
ghost use Rattle.std.specs.Int.{bit_at};
ghost use Rattle.std.specs.Int.RustNames.{count_ones};
ghost use Rattle.lane_bits.specs.Inner.Row.{IsFirst, IsLast, IsNext};
ghost use Rattle.lane_bits.specs.Inner.Words.{bits_of, Hold, SaysMeet};

use std::simd::prelude::*;

/// Clears all bits.
pub fn clear_words(words: &mut [u64])
    ensures { words.new ≡ replicate (length words.old) 0 }
{
    words.fill(0);
}

/// The word with one of its bits set or cleared.
pub fn with_bit(word: u64, place: usize, bit: bool) -> u64
    requires { place < 64 }
    ensures here { bit_at result place ≡ (if bit then 1 else 0) }
    ensures others { (i : ℕ) → i < 64 → i ≢ place → bit_at result i ≡ bit_at word i }
{
    let mask = 1 << place;
    if bit { word | mask } else { word & !mask }
}

/// How many bits are set in the eight words from `at` on.
#[inline(always)]
fn count_eight(words: &[u64], at: usize) -> u64
    requires { at + 8 ≤ length words.now }
    ensures { result ≡ sum_l (map count_ones (take 8 (drop at words.now))) }
{
    u64x8::from_slice(&words[at..])
        .count_ones()
        .strict_reduce_sum()
}

/// How many bits are set in the fewer than eight words from `from` on.
fn count_rest(words: &[u64], from: usize) -> u64
    requires near { from ≤ length words.now }
    requires few { length words.now < from + 8 }
    ensures { result ≡ sum_l (map count_ones (drop from words.now)) }
{
    let mut count = 0;
    let mut at = words.len();
    while at > from {
        at -= 1;
        count += u64::from(words[at].count_ones());
    }
    count
}

/// How many bits are set.
pub fn count_words(words: &[u64], len: usize) -> usize
    requires { Hold words.now (bits_of len words.now) }
    ensures { result ≡ count_by (λ b. b) (bits_of len words.now) }
{
    let blocks = words.len() / 8;
    let mut count = 0;
    for block in 0..blocks {
        count += count_eight(words, 8 * block);
    }
    (count + count_rest(words, 8 * blocks)) as usize
}

/// The place of the first bit that is set.
pub fn first_set(words: &[u64], len: usize) -> Option<usize>
    requires { Hold words.now (bits_of len words.now) }
    ensures { IsFirst (bits_of len words.now) result }
{
    for k in 0..words.len() {
        let word = words[k];
        if word > 0 {
            return Some(64 * k + word.trailing_zeros() as usize);
        }
    }
    None
}

/// The place of the first bit that is set in the words from one on.
fn next_from_word(words: &[u64], len: usize, from: usize) -> Option<usize>
    requires { Hold words.now (bits_of len words.now) }
    ensures { IsNext (64 * from) (bits_of len words.now) result }
{
    for k in from..words.len() {
        let word = words[k];
        if word > 0 {
            return Some(64 * k + word.trailing_zeros() as usize);
        }
    }
    None
}

/// The place of the first bit that is set from a place on.
pub fn next_set(words: &[u64], len: usize, from: usize) -> Option<usize>
    requires { Hold words.now (bits_of len words.now) }
    ensures { IsNext from (bits_of len words.now) result }
{
    let at = from / 64;
    if at >= words.len() {
        return None;
    }
    let word = words[at] >> (from % 64);
    if word > 0 {
        return Some(from + word.trailing_zeros() as usize);
    }
    next_from_word(words, len, at + 1)
}

/// Whether some bit is set in both.
pub fn share_bit(words: &[u64], others: &[u64]) -> bool
    requires { length words.now ≡ length others.now }
    ensures { SaysMeet words.now others.now result }
{
    for k in 0..words.len() {
        if words[k] & others[k] > 0 {
            return true;
        }
    }
    false
}

/// The place of the last bit that is set.
pub fn last_set(words: &[u64], len: usize) -> Option<usize>
    requires { Hold words.now (bits_of len words.now) }
    ensures { IsLast (bits_of len words.now) result }
{
    let mut k = words.len();
    while k > 0 {
        k -= 1;
        let word = words[k];
        if word > 0 {
            return Some(64 * k + word.ilog2() as usize);
        }
    }
    None
}
