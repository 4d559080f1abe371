//! Answers of a test to short labels that were given before.
ghost use Rattle.std.specs.Prelude.{◌≡◌, ◌≢◌, ◌<◌, ℕ, Bool, List, IfOk, IfSome};
ghost use Rattle.eql_columns.specs.Inner.Labels.{AreKnownOf, IsAnswerTo};

use emu_names::{Memory, Series};
use std::alloc::Global;
use std::marker::Model;

/// How many answers are kept.
const KNOWN_ANSWERS: usize = 512;

/// What a test answered to the labels of a key; nothing where the key is 0.
#[derive(Clone, Copy)]
pub(crate) struct Known {
    key: u64,
    is: bool,
}

/// The place at which the answer to a key is kept: the highest nine bits of its product with an odd number, which sends
/// keys that differ in few bits to different places.
fn place_of(key: u64) -> usize
    ensures { result < 512 }
{
    (key.wrapping_mul(0x9E37_79B9_7F4A_7C15) >> 55) as usize
}

/// What a test answered to short labels of late, by their keys, which are the same in all bundles. Contracts see
/// what is known at each place.
#[derive(Drop)]
pub(crate) struct Answers {
    known: Series<Known>,
}

impl Model for Answers {
    ghost use Rattle.std.specs.Prelude.{◌≡◌, List, length};
    ghost use Rattle.eql_columns.specs.declared.answers.Known.{Known};

    ghost Value = { List Known };

    ghost view = { λ a. a.known };

    ghost invariant = { λ a. length a.known ≡ 512 };
}

impl Answers {
    /// No answer is known. The only refusal is want of memory.
    pub(crate) fn none(alloc: Global) -> Result<Answers, Memory>
        ensures { (test : List ℕ → Bool) → IfOk result (AreKnownOf test) }
    {
        let none = Known { key: 0, is: false };
        let known = Series::from_vec(vec![in alloc; none; KNOWN_ANSWERS]?);
        Ok(Answers { known })
    }

    /// What was answered to the labels of a key, where that is still known. Of the key 0 nothing is known.
    pub(crate) fn find(&self, key: u64) -> Option<bool>
        ensures answer { (test : List ℕ → Bool) → AreKnownOf test self.now
            → IfSome result (IsAnswerTo test key) }
        ensures key { IfSome result (λ _. key ≢ 0) }
    {
        let known = *self.known.get(place_of(key));
        if key != 0 && known.key == key {
            Some(known.is)
        } else {
            None
        }
    }

    /// Keeps what is answered to the labels of a key, in the place of what was kept there.
    pub(crate) fn keep(&mut self, key: u64, is: bool)
        ensures { (test : List ℕ → Bool) → AreKnownOf test self.old → IsAnswerTo test key is
            → AreKnownOf test self.new }
    {
        self.known.set(place_of(key), Known { key, is });
    }
}
