//! The published list, which exists in proofs alone, and the one word that its publisher adds by.
ghost use Rattle.std.specs.Prelude.{◌≡◌, ℕ, ◌+◌, ◌<◌, ◌≤◌, ◌^◌, ◌++◌, [], ◌∷◌, length};
ghost use mathlib.Core.List.{IsPrefix};
ghost use Rattle.version_gate.specs.Lists.{Rises, Numbered};
ghost use Rattle.version_gate.specs.Inner.Law.{word_of};
ghost use Rattle.version_gate.specs.Inner.Snapshots.{entry_of};

use crate::entry::{Entry, Snapshot};
use logbook::{Gain, Offer, Opening, Plain, Play, Rule, Seen, Start, Word};
use std::sync::Wait;

/// What always holds of the published list.
pub struct Law;

impl<T> Rule<Entry<T>, u64> for Law {
    ghost use Rattle.std.specs.Prelude.{[]};
    ghost use base.Fml.{ftrue};
    ghost use Rattle.version_gate.specs.Inner.Law.{IsKept};

    ghost holds = { λ cells log. IsKept cells log };

    ghost first = { [] };

    ghost hinted = { λ n log. Unit {0} };

    ghost shows = { λ log. [] };

    ghost keeps = { λ names log. ftrue };

    ghost moves = { λ ask before after answer. Unit {0} };
}

/// The part of the published list that somebody has seen. It has no bytes, and no code can make one
/// up.
pub type Reached<T> = Seen<Entry<T>, u64, Law>;

/// The word that counts the publishes. Its publisher alone has it.
pub type Head<T> = Word<Entry<T>, u64, Law>;

/// Nobody trades anything for an entry.
pub struct Nothing;

impl<T> Gain<Entry<T>, u64> for Nothing {
    ghost use base.Fml.{ftrue};

    ghost after = { λ names about answer. ftrue };
}

/// The step that adds an entry.
pub struct Add;

impl<T> Play<Entry<T>, u64> for Add {
    ghost use Rattle.version_gate.specs.Inner.Law.{Adds};

    ghost then = { Adds };
}

impl<T: Drop> Plain<Snapshot<T>, Entry<T>, u64> for Add {
    ghost use Rattle.std.specs.Prelude.{None};
    ghost use Rattle.version_gate.specs.Inner.Snapshots.{entry_of};

    ghost ask = { entry_of };

    ghost state = { λ snapshot. None };
}

/// The list that begins with the opening.
pub struct Begin;

impl<T: Drop> Opening<Snapshot<T>, Entry<T>> for Begin {
    ghost use Rattle.std.specs.Prelude.{[], ◌∷◌};
    ghost use Rattle.version_gate.specs.Inner.Snapshots.{entry_of};

    ghost log = { λ count opening. entry_of opening ∷ [] };
}

/// A new gate, whose published list is the opening.
pub fn open<T: Drop>(opening: &Snapshot<T>) -> (Reached<T>, Head<T>)
    ensures names { result.0.names ≡ [] }
    ensures list { result.0.log ≡ entry_of opening.now ∷ [] }
    ensures word { result.1 ≡ word_of result.0.book }
{
    let (seen, mut pens) = Seen::open_row::<Snapshot<T>, Begin>(opening, Start::alone(), 1);
    let mut pen = pens.take();
    let head = Word::tracked(0, &mut pen);
    (seen, head)
}

/// Adds an entry to the published list, which was seen whole. Were the list longer, it would wait
/// for ever.
pub fn add_entry<T: Drop, R: Wait>(
    rt: &R,
    head: &Head<T>,
    seen: &mut Reached<T>,
    published: u64,
    next: &Snapshot<T>,
)
    requires word { head.now ≡ word_of seen.old.book }
    requires names { seen.old.names ≡ [] }
    requires counted { length seen.old.log ≡ published + 1 }
    requires room { published + 1 < 2 ^ 64 }
    requires rises { (first : ℕ) × Rises first seen.old.log
        × (next.now.number ≡ first + length seen.old.log) }
    ensures gate { (seen.new.book ≡ seen.old.book) × (seen.new.names ≡ []) }
    ensures list { seen.new.log ≡ seen.old.log ++ entry_of next.now ∷ [] }
{
    let mut offer: Offer<Entry<T>, u64, Law, Nothing> = seen.plain::<Nothing, Snapshot<T>, Add>(
        next,
    );
    let mut pen = seen.no_pen();
    let found = head.compare_exchange::<Add, Nothing>(
        published,
        published + 1,
        seen,
        &mut offer,
        &mut pen,
    );
    if found != published {
        for _ in rt.forever() {}
        unreachable!()
    }
}

/// Of two parts of one published list, the one that ends with the lower number begins the other.
pub fn begins<T>(lower: &Reached<T>, higher: &Reached<T>)
    requires gate { higher.now.book ≡ lower.now.book }
    requires order { (n : ℕ) × (m : ℕ) × Numbered n lower.now.log × Numbered m higher.now.log
        × (n ≤ m) }
    ensures { IsPrefix lower.now.log higher.now.log }
{
    let mut both = lower.again();
    both.learn(higher);
}
