//! What a vector of 64 or 8 numbers asks of each of them, as the bits of a number.
ghost use Rattle.std.specs.Prelude.{◌≡◌, ◌+◌, ◌*◌, ◌<◌, ◌≤◌, ◌^◌, ◌==◌, length, map, take, drop};
ghost use Rattle.std.specs.Simd.Lanes.{mask_l};
ghost use Rattle.lane_bits.specs.Inner.Row.{is_between};

use std::simd::prelude::*;

/// Which of the 64 numbers from `at` on are `label`.
#[inline(always)]
pub fn eq_word(column: &[u32], at: usize, label: u32) -> u64
    requires { at + 64 ≤ length column.now }
    ensures { result ≡ mask_l (map (λ x. x == label) (take 64 (drop at column.now))) }
{
    let lanes = u32x64::from_slice(&column[at..]);
    lanes.simd_eq(u32x64::splat(label)).to_bitmask()
}

/// Which of the 8 numbers from `at` on are `label`.
#[inline(always)]
pub fn eq_eight(column: &[u32], at: usize, label: u32) -> u64
    requires { at + 8 ≤ length column.now }
    ensures { result ≡ mask_l (map (λ x. x == label) (take 8 (drop at column.now))) }
{
    let lanes = u32x8::from_slice(&column[at..]);
    lanes.simd_eq(u32x8::splat(label)).to_bitmask()
}

/// Which of the 8 numbers from `at` on are from `low` to `high`.
#[inline(always)]
pub fn range_eight(column: &[u64], at: usize, low: u64, high: u64) -> u64
    requires room { at + 8 ≤ length column.now }
    requires order { low ≤ high }
    ensures { result ≡ mask_l (map (is_between low high) (take 8 (drop at column.now))) }
{
    let above = u64x8::from_slice(&column[at..]) - u64x8::splat(low);
    above.simd_le(u64x8::splat(high - low)).to_bitmask()
}

/// Which of the 64 numbers from `at` on are from `low` to `high`.
#[inline(always)]
pub fn range_word(column: &[u64], at: usize, low: u64, high: u64) -> u64
    requires room { at + 64 ≤ length column.now }
    requires order { low ≤ high }
    ensures { result ≡ mask_l (map (is_between low high) (take 64 (drop at column.now))) }
{
    let mut word = 0;
    for done in 0..8 {
        let eight = range_eight(column, at + (56 - 8 * done), low, high);
        word = word * 256 + eight;
    }
    word
}
