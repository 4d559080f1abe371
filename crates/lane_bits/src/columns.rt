//! What is asked of each number of a column, in words of 64 bits.
ghost use Rattle.std.specs.Prelude.{◌≡◌, ◌+◌, ◌<◌, ◌≤◌, ◌==◌, length, map, drop, replicate};
ghost use Rattle.std.specs.Simd.Lanes.{mask_l};
ghost use Rattle.lane_bits.specs.Inner.Row.{is_between};
ghost use Rattle.lane_bits.specs.Inner.Words.{AreFor, Hold};

use crate::lanes::{eq_eight, eq_word, range_word};

/// Which of the fewer than 64 numbers from `from` on are `label`, one by one.
fn eq_singly(column: &[u32], from: usize, label: u32) -> u64
    requires near { from ≤ length column.now }
    requires few { length column.now < from + 64 }
    ensures { result ≡ mask_l (map (λ x. x == label) (drop from column.now)) }
{
    let mut word = 0;
    let mut at = column.len();
    while at > from {
        at -= 1;
        word = word * 2 + (column[at] == label) as u64;
    }
    word
}

/// Which of the fewer than 64 numbers from `from` on are `label`.
fn eq_rest(column: &[u32], from: usize, label: u32) -> u64
    requires near { from ≤ length column.now }
    requires few { length column.now < from + 64 }
    ensures { result ≡ mask_l (map (λ x. x == label) (drop from column.now)) }
{
    let eights = (column.len() - from) / 8;
    let mut word = eq_singly(column, from + 8 * eights, label);
    for done in 0..eights {
        let eight = eq_eight(column, from + 8 * (eights - done - 1), label);
        word = word * 256 + eight;
    }
    word
}

/// Sets the words to which numbers of the column are `label`.
pub fn eq_words(words: &mut [u64], column: &[u32], label: u32)
    requires { AreFor (length column.now) words.old }
    ensures { Hold words.new (map (λ x. x == label) column.now) }
{
    let whole = column.len() / 64;
    for k in 0..whole {
        words[k] = eq_word(column, 64 * k, label);
    }
    if whole < words.len() {
        words[whole] = eq_rest(column, 64 * whole, label);
    }
}

/// Whether the number is from `low` to `high`.
fn is_between(low: u64, high: u64, number: u64) -> bool
    ensures { result ≡ is_between low high number }
{
    low <= number && number <= high
}

/// Which of the fewer than 64 numbers from `from` on are from `low` to `high`.
fn range_rest(column: &[u64], from: usize, low: u64, high: u64) -> u64
    requires near { from ≤ length column.now }
    requires few { length column.now < from + 64 }
    ensures { result ≡ mask_l (map (is_between low high) (drop from column.now)) }
{
    let mut word = 0;
    let mut at = column.len();
    while at > from {
        at -= 1;
        word = word * 2 + is_between(low, high, column[at]) as u64;
    }
    word
}

/// Sets the words to which numbers of the column are from `low` to `high`.
pub fn range_words(words: &mut [u64], column: &[u64], low: u64, high: u64)
    requires room { AreFor (length column.now) words.old }
    requires order { low ≤ high }
    ensures { Hold words.new (map (is_between low high) column.now) }
{
    let whole = column.len() / 64;
    for k in 0..whole {
        words[k] = range_word(column, 64 * k, low, high);
    }
    if whole < words.len() {
        words[whole] = range_rest(column, 64 * whole, low, high);
    }
}
