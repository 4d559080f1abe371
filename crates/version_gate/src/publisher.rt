//! The publisher: one version is staged, and then published.
ghost use Rattle.std.specs.Prelude.{◌≡◌, ◌+◌, ◌<◌, ◌^◌, ◌++◌, ◌∷◌, [], length, Ok, Some, None, IsSome, IfSome};
ghost use Rattle.std.specs.Arc.{arc_value};
ghost use Rattle.version_gate.specs.Lists.{Front, Numbered, entry, front};
ghost use Rattle.version_gate.specs.Inner.Lists.{Board};
ghost use Rattle.version_gate.specs.Inner.Law.{word_of};

use crate::entry::Snapshot;
use crate::fault::Memory;
use crate::pass::Note;
use crate::published::{Head, Reached, add_entry};
use crate::rule::{Gates, Show};
use crate::shown::Shown;
use crate::side::Side;
use std::marker::Model;
use std::sync::{Arc, Wait};

/// The writer of a gate's versions.
pub type SideOf<T> = Side<Shown<T>, Gates>;

/// The one that publishes. Contracts see its gate, the published list with the number of its last
/// version, and the version that is staged. It is no `Drop`: end it by `close`.
pub struct Publisher<T: Drop> {
    side: Option<SideOf<T>>,
    head: Head<T>,
    seen: Reached<T>,
    published: u64,
    number: u64,
    staged: Option<Snapshot<T>>,
}

impl<T: Drop> Model for Publisher<T> {
    ghost use Rattle.std.specs.Prelude.{◌≡◌, ◌+◌, [], length, Some, IfSome, option_map};
    ghost use Rattle.version_gate.specs.Lists.{Numbered, front};
    ghost use Rattle.version_gate.specs.Inner.Lists.{Board};
    ghost use Rattle.version_gate.specs.Inner.Law.{word_of};
    ghost use Rattle.version_gate.specs.Inner.Snapshots.{entry_of};

    ghost Value = { Board T };

    ghost view = { λ p. record {
      gate = p.seen.book;
      list = p.seen.log;
      number = p.number;
      staged = option_map entry_of p.staged;
    } };

    ghost invariant = { λ p. (p.side ≡ Some (front p.seen.book p.seen.log))
        × (p.head ≡ word_of p.seen.book)
        × (p.seen.names ≡ []) × (length p.seen.log ≡ p.published + 1)
        × Numbered p.number p.seen.log × IfSome p.staged (λ s. s.number ≡ p.number + 1) };
}

impl<T: Drop> Publisher<T> {
    /// A publisher with an opening alone.
    pub(crate) fn new(side: SideOf<T>, head: Head<T>, seen: Reached<T>, number: u64) -> Publisher<T>
        requires names { seen.names ≡ [] }
        requires word { head ≡ word_of seen.book }
        requires shown { side ≡ front seen.book seen.log }
        requires alone { length seen.log ≡ 1 }
        requires numbered { Numbered number seen.log }
        ensures { result ≡ record {
          gate = seen.book;
          list = seen.log;
          number = number;
          staged = None;
        } }
    {
        Publisher {
            side: Some(side),
            head,
            seen,
            published: 0,
            number,
            staged: None,
        }
    }

    /// Makes a version ready to be published, in place of one that was staged and not published.
    /// Nobody sees it yet. It takes no memory, and is always `Ok`.
    pub fn stage(&mut self, number: u64, next: Arc<T>) -> Result<(), Memory>
        requires next { number ≡ self.old.number + 1 }
        ensures ok { result ≡ Ok tt }
        ensures staged { self.new ≡ record self.old {
          staged = Some (entry number (arc_value next));
        } }
    {
        self.staged = Some(Snapshot {
            number,
            version: next,
        });
        Ok(())
    }

    /// Puts the staged version behind the published list, and shows it to the passes. It may wait
    /// for passes that still read an older one, and tries again while memory is short.
    pub fn publish<R: Wait>(&mut self, rt: &R)
        requires { IsSome self.old.staged }
        ensures { IfSome self.old.staged (λ e. self.new ≡ record {
          gate = self.old.gate;
          list = self.old.list ++ e ∷ [];
          number = e.number;
          staged = None;
        }) }
    {
        let Some(next) = self.staged.take() else {
            unreachable!()
        };
        add_entry(rt, &self.head, &mut self.seen, self.published, &next);
        self.published += 1;
        self.number = next.number;
        show_in(rt, &mut self.side, Shown::new(next, self.seen.again()));
    }

    /// Tells the whole published list to whoever gets the note.
    pub fn tell(&mut self) -> Note<T>
        ensures same { self.new ≡ self.old }
        ensures note { result ≡ front self.old.gate self.old.list }
        ensures number { Numbered self.old.number self.old.list }
    {
        Note::new(self.seen.again(), self.number)
    }

    /// The number of the last published version.
    pub(crate) fn number(&self) -> u64
        ensures { result ≡ self.now.number }
    {
        self.number
    }

    /// Ends the publisher. It may wait for passes that still read. What looks gave stays, and later
    /// looks give none.
    pub fn close<R: Wait>(self, rt: &R) {
        let Publisher {
            side,
            head: _head,
            seen: _seen,
            published: _,
            number: _,
            staged: _staged,
        } = self;
        if let Some(side) = side {
            side.close(rt);
        }
    }
}

// Shows the next version of the same gate.
fn show_in<T: Drop, R: Wait>(rt: &R, side: &mut Option<SideOf<T>>, next: Shown<T>)
    requires { IsSome side.old × IfSome side.old (λ now. now.gate ≡ next.gate) }
    ensures { side.new ≡ Some next }
{
    let Some(now) = side.take() else {
        unreachable!()
    };
    if let Some(left) = side.replace(now.show::<Show, R>(rt, next)) {
        left.close(rt);
    }
}
