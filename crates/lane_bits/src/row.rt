//! A row of bits, and the questions and joins that fill it.
ghost use Rattle.std.specs.Prelude.{◌≡◌, ◌<◌, ◌≤◌, ◌||◌, ◌&&◌, ◌==◌, count_by, length, map, replicate, slice_get, slice_set, false, IfOk, IsOk, Some};
ghost use Rattle.std.specs.List.{list_any};
ghost use Rattle.std.specs.Simd.Lanes.{zip2};
ghost use Rattle.lane_bits.specs.Inner.Row.{is_between, IsFirst, IsLast, IsNext};

use crate::bits::{clear_words, count_words, first_set, last_set, next_set, share_bit, with_bit};
use crate::columns::{eq_words, range_words};
use crate::joins::{and_words, or_words};
use crate::shortage::Memory;
use smallvec::SmallVec;
use std::alloc::Global;
use std::marker::Model;

/// A row of bits, which contracts see as the list of its bits. It lies in words of 64 bits, and all
/// bits of the last word that are past the row's length are 0. A row of at most 64 bits has its word
/// in the value itself, and takes no block of memory.
#[derive(Drop)]
pub struct BitRow {
    words: SmallVec<u64, 1>,
    len: usize,
}

impl Model for BitRow {
    ghost use Rattle.std.specs.Prelude.{List, Bool};
    ghost use Rattle.lane_bits.specs.Inner.Words.{bits_of, Hold};

    ghost Value = { List Bool };

    ghost view = { λ r. bits_of r.len r.words.items };

    ghost invariant = { λ r. Hold r.words.items (bits_of r.len r.words.items) };
}

/// So many words, all of them 0. The allocator is asked only for more than one.
fn zero_words(alloc: Global, count: usize) -> Result<SmallVec<u64, 1>, Memory>
    ensures zeros { IfOk result (λ words. words.items ≡ replicate count 0) }
    ensures one { count ≤ 1 → IsOk result }
{
    if count <= 1 {
        return Ok(SmallVec::from_buf_and_len(alloc, [0], count));
    }
    let words = vec![in alloc; 0; count]?;
    Ok(SmallVec::from_vec(words))
}

impl BitRow {
    /// A row of `len` bits, none of which is set. The only refusal is want of memory.
    pub fn new(alloc: Global, len: usize) -> Result<BitRow, Memory>
        ensures { IfOk result (λ row. row ≡ replicate len false) }
    {
        let words = zero_words(alloc, len.div_ceil(64))?;
        Ok(BitRow { words, len })
    }

    /// How many bits there are.
    pub fn len(&self) -> usize
        ensures { result ≡ length self.now }
    {
        self.len
    }

    /// The bit at a place, counted from 0.
    pub fn get(&self, at: usize) -> bool
        requires { at < length self.now }
        ensures { slice_get self.now at ≡ Some result }
    {
        let words = self.words.as_slice();
        (words[at / 64] >> (at % 64)) & 1 == 1
    }

    /// Sets or clears the bit at a place.
    pub fn set(&mut self, at: usize, bit: bool)
        requires { at < length self.old }
        ensures { self.new ≡ slice_set self.old at bit }
    {
        let words = self.words.as_mut_slice();
        let word = words[at / 64];
        words[at / 64] = with_bit(word, at % 64, bit);
    }

    /// How many bits are set.
    pub fn count(&self) -> usize
        ensures { result ≡ count_by (λ b. b) self.now }
    {
        count_words(self.words.as_slice(), self.len)
    }

    /// The first place at which a bit is set, or `None`, where no bit is.
    pub fn first(&self) -> Option<usize>
        ensures { IsFirst self.now result }
    {
        first_set(self.words.as_slice(), self.len)
    }

    /// The first place from a place on at which a bit is set, or `None`, where no bit is.
    pub fn next(&self, from: usize) -> Option<usize>
        ensures { IsNext from self.now result }
    {
        next_set(self.words.as_slice(), self.len, from)
    }

    /// The last place at which a bit is set, or `None`, where no bit is.
    pub fn last(&self) -> Option<usize>
        ensures { IsLast self.now result }
    {
        last_set(self.words.as_slice(), self.len)
    }

    /// The same row again. The only refusal is want of memory.
    pub fn copy(&self, alloc: Global) -> Result<BitRow, Memory>
        ensures { IfOk result (λ row. row ≡ self.now) }
    {
        let words = SmallVec::from_slice(alloc, self.words.as_slice())?;
        Ok(BitRow {
            words,
            len: self.len,
        })
    }
}

/// Sets bit i of the row to whether number i of the column is `label`.
pub fn eq_lanes(column: &[u32], label: u32, out: &mut BitRow)
    requires { length column.now ≡ length out.old }
    ensures { out.new ≡ map (λ x. x == label) column.now }
{
    eq_words(out.words.as_mut_slice(), column, label);
}

/// Sets bit i of the row to whether number i of the column is from `low` to `high`.
pub fn range_lanes(column: &[u64], low: u64, high: u64, out: &mut BitRow)
    requires { length column.now ≡ length out.old }
    ensures { out.new ≡ map (is_between low high) column.now }
{
    if low <= high {
        range_words(out.words.as_mut_slice(), column, low, high);
    } else {
        clear_words(out.words.as_mut_slice());
    }
}

/// Whether some place has its bit in both rows.
pub fn meet(one: &BitRow, other: &BitRow) -> bool
    requires { length one.now ≡ length other.now }
    ensures { result ≡ list_any (λ bit. bit) (zip2 (λ a b. a && b) one.now other.now) }
{
    share_bit(one.words.as_slice(), other.words.as_slice())
}

/// Sets each bit of `into` that is set there or in `other`.
pub fn or_into(into: &mut BitRow, other: &BitRow)
    requires { length into.old ≡ length other.now }
    ensures { into.new ≡ zip2 (λ a b. a || b) into.old other.now }
{
    or_words(into.words.as_mut_slice(), other.words.as_slice());
}

/// Sets each bit of `into` that is set there and in `other`, and clears all others.
pub fn and_into(into: &mut BitRow, other: &BitRow)
    requires { length into.old ≡ length other.now }
    ensures { into.new ≡ zip2 (λ a b. a && b) into.old other.now }
{
    and_words(into.words.as_mut_slice(), other.words.as_slice());
}
