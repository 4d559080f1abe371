//! Keys of a few labels, by which a short label is found without a look at the labels.
ghost use Rattle.std.specs.Prelude.{◌≡◌, ◌≢◌, ◌<◌, ◌≤◌, ◌%◌, ◌==◌, ℕ, List, true, IfOk, IfSome, Some, length, position};
ghost use Rattle.std.specs.List.{slice_get};
ghost use Rattle.std.specs.Str.{bytes_eq};
ghost use Rattle.bundle_index.specs.Inner.Keys.{AreBytes, AreKeysOf, AreMarksOf, IsKeyOf, number_of};

use crate::labels::Labels;
use emu_names::{Memory, Series};
use lane_bits::BitRow;
use std::alloc::Global;
use std::marker::Model;

/// The most labels of which there are keys.
const KEYED_LABELS: usize = 64;

/// The most bytes of a label that is found by its key.
const KEY_BYTES: usize = 7;

/// How many marks there are: as many as lie in one word, but for one, so that each byte of a label counts.
const MARKS: usize = 63;

/// The number of at most seven bytes: they are its digits to base 256, the first one lowest, with a 1
/// above the last.
fn number_of(bytes: &[u8]) -> u64
    requires { length bytes.now ≤ 7 }
    ensures number { result ≡ number_of bytes.now }
    ensures bytes { AreBytes bytes.now }
{
    let mut number = 1;
    let mut left = bytes.len();
    while left > 0 {
        left -= 1;
        number = number * 256 + bytes[left] as u64;
    }
    number
}

/// The key of a label: the number of its bytes where it has at most seven, else 0.
fn key_of(label: &str) -> u64
    ensures { IsKeyOf label.now result }
{
    let bytes = label.as_bytes();
    if bytes.len() > KEY_BYTES {
        return 0;
    }
    number_of(bytes)
}

/// The place of the first key that is this one.
fn place_of(keys: &[u64], key: u64) -> Option<usize>
    ensures place { result ≡ position (λ k. k == key) keys.now }
    ensures within { IfSome result (λ place. place < length keys.now) }
{
    keys.iter().position(|k| *k == key)
}

/// The place of a key's mark.
fn mark_of(key: u64) -> usize
    ensures { result ≡ key % 63 }
{
    (key % 63) as usize
}

/// Sixty-three marks, of which those of these keys are set. The only refusal is want of memory.
fn marks_of(alloc: Global, keys: &[u64]) -> Result<BitRow, Memory>
    ensures { IfOk result (λ marks. AreMarksOf keys.now marks) }
{
    let mut marks = match BitRow::new(alloc, MARKS) {
        Ok(marks) => marks,
        Err(_) => return Err(Memory),
    };
    for key in keys {
        marks.set(mark_of(*key), true);
    }
    Ok(marks)
}

/// The keys of these labels, one for each in order; none where there are more than sixty-four. The only refusal is
/// want of memory.
fn keys_of(alloc: Global, labels: &Labels) -> Result<Series<u64>, Memory>
    ensures keys { IfOk result (λ keys. AreKeysOf labels.now keys) }
    ensures few { IfOk result (λ keys. length keys ≤ 64) }
{
    if labels.len() > KEYED_LABELS {
        return Ok(Series::new(alloc));
    }
    let mut keys = Series::from_vec(Vec::with_capacity(alloc, labels.len())?);
    for place in 0..labels.len() {
        keys.push(key_of(labels.get(place)))?;
    }
    Ok(keys)
}

/// The keys of a list of labels, one for each in order; none where there are more than sixty-four. The marks tell of
/// more than half of the labels that are not in the list that they are not, without a walk over the keys.
#[derive(Drop)]
pub struct ShortKeys {
    keys: Series<u64>,
    marks: BitRow,
}

impl Model for ShortKeys {
    ghost use Rattle.std.specs.Prelude.{◌≤◌, List, ℕ, length};
    ghost use Rattle.bundle_index.specs.Inner.Keys.{AreMarksOf};

    ghost Value = { List ℕ };

    ghost view = { λ s. s.keys };

    ghost invariant = { λ s. (length s.keys ≤ 64) × AreMarksOf s.keys s.marks };
}

impl ShortKeys {
    /// The keys of these labels. The only refusal is want of memory.
    pub fn of(alloc: Global, labels: &Labels) -> Result<ShortKeys, Memory>
        ensures { IfOk result (λ keys. AreKeysOf labels.now keys) }
    {
        let keys = keys_of(alloc, labels)?;
        let marks = marks_of(alloc, keys.as_slice())?;
        Ok(ShortKeys { keys, marks })
    }

    /// Whether the keys tell where this label stands: there are keys, and it has at most seven bytes.
    pub fn can_tell(&self, label: &str) -> bool
        ensures keys { result ≡ true → 0 < length self.now }
        ensures short { result ≡ true → length label.now ≤ 7 }
    {
        !self.keys.is_empty() && label.len() <= KEY_BYTES
    }

    /// The place of a label in the list of labels, `None` exactly where it is not there.
    pub fn find(&self, label: &str) -> Option<u32>
        requires keys { 0 < length self.now }
        requires short { length label.now ≤ 7 }
        ensures { (labels : List (List ℕ)) → AreKeysOf labels self.now
            → result ≡ position (bytes_eq label.now) labels }
    {
        let key = key_of(label);
        if !self.marks.get(mark_of(key)) {
            return None;
        }
        match place_of(self.keys.as_slice(), key) {
            Some(place) => Some(place as u32),
            None => None,
        }
    }

    /// The key of the label at a place of the list of labels; 0 where it has more than seven bytes, or where there are
    /// no keys.
    pub fn at(&self, place: usize) -> u64
        ensures { (labels : List (List ℕ)) (label : List ℕ) → AreKeysOf labels self.now
            → slice_get labels place ≡ Some label → result ≢ 0 → IsKeyOf label result }
    {
        if place < self.keys.len() {
            *self.keys.get(place)
        } else {
            0
        }
    }
}
