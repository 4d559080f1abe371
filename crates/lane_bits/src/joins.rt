//! The bits of two rows joined, in words of 64 bits.
ghost use Rattle.std.specs.Prelude.{◌≡◌, ◌+◌, ◌≤◌, length};
ghost use Rattle.std.specs.Int.Bits.{bit_and, bit_or};
ghost use Rattle.std.specs.Simd.Lanes.{zip2};
ghost use Rattle.lane_bits.specs.Inner.Words.{JoinedIn};

use std::simd::prelude::*;

/// Joins the eight words from `at` on by "or".
#[inline(always)]
fn or_eight(into: &mut [u64], other: &[u64], at: usize)
    requires room { at + 8 ≤ length into.old }
    requires same { length into.old ≡ length other.now }
    ensures { JoinedIn bit_or into.old other.now into.new at (at + 8) }
{
    let joined = u64x8::from_slice(&into[at..]) | u64x8::from_slice(&other[at..]);
    joined.copy_to_slice(&mut into[at..]);
}

/// Joins the words from `from` on by "or".
fn or_rest(into: &mut [u64], other: &[u64], from: usize)
    requires near { from ≤ length into.old }
    requires same { length into.old ≡ length other.now }
    ensures { JoinedIn bit_or into.old other.now into.new from (length into.old) }
{
    for at in from..into.len() {
        into[at] |= other[at];
    }
}

/// Joins all words by "or".
pub fn or_words(into: &mut [u64], other: &[u64])
    requires { length into.old ≡ length other.now }
    ensures { into.new ≡ zip2 bit_or into.old other.now }
{
    let blocks = into.len() / 8;
    for block in 0..blocks {
        or_eight(into, other, 8 * block);
    }
    or_rest(into, other, 8 * blocks);
}

/// Joins the eight words from `at` on by "and".
#[inline(always)]
fn and_eight(into: &mut [u64], other: &[u64], at: usize)
    requires room { at + 8 ≤ length into.old }
    requires same { length into.old ≡ length other.now }
    ensures { JoinedIn bit_and into.old other.now into.new at (at + 8) }
{
    let joined = u64x8::from_slice(&into[at..]) & u64x8::from_slice(&other[at..]);
    joined.copy_to_slice(&mut into[at..]);
}

/// Joins the words from `from` on by "and".
fn and_rest(into: &mut [u64], other: &[u64], from: usize)
    requires near { from ≤ length into.old }
    requires same { length into.old ≡ length other.now }
    ensures { JoinedIn bit_and into.old other.now into.new from (length into.old) }
{
    for at in from..into.len() {
        into[at] &= other[at];
    }
}

/// Joins all words by "and".
pub fn and_words(into: &mut [u64], other: &[u64])
    requires { length into.old ≡ length other.now }
    ensures { into.new ≡ zip2 bit_and into.old other.now }
{
    let blocks = into.len() / 8;
    for block in 0..blocks {
        and_eight(into, other, 8 * block);
    }
    and_rest(into, other, 8 * blocks);
}
