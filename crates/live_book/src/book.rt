//! The book: its history, the version in force, who publishes, and the store.
ghost use Rattle.std.specs.Prelude.{◌≡◌, ◌≤◌, ◌<◌, ℕ, false, length, take, drop, IsTrue, IfOk};
ghost use mathlib.Core.List.{IsPrefix};
ghost use Rattle.std.specs.Arc.{arc_value};
ghost use Rattle.version_gate.specs.Lists.{entry, front, EndsIn, Numbered};
ghost use Rattle.live_book.specs.Histories.{IsHistory};
ghost use Rattle.live_book.specs.Published.{IsStateAfter, AreShown};
ghost use Rattle.live_book.specs.Inner.Kept.{IsBook, book_of, Holding};
ghost use Rattle.live_book.specs.Commits.{entry_of, Commits};
ghost use Rattle.live_book.specs.Inner.Inverses.{numbered, KeepsInverse};
ghost use Rattle.live_book.specs.Inner.Drafts.{IsDraftIn};

use crate::commit::{commit_in, commit_noted_in, own_entry, serving};
use crate::kept::Kept;
use crate::parts::Parts;
use crate::published::Published;
use edit_journal::Journal;
use emu_disk::Disk;
use emu_names::{Memory, SessionNo};
use std::alloc::Global;
use std::marker::Model;
use std::sync::{Arc, Wait};
use version_gate::{Note, Pass};
use version_steps::edit_rules::{Act, EditFault, Entries};
use version_steps::{Draft, Dropped};

/// A book: the configuration of its opening, a history of at most 100,000 entries, the version after all of them,
/// the gate that publishes each version, and, if there is one, the journal that holds the codes of that
/// configuration and of the entries. It is no `Drop`: end it by [`Book::into_journal`].
pub struct Book<D: Disk> {
    parts: Parts<D>,
    /// A hint, of which nothing is promised.
    dropped: Dropped,
}

impl<D: Disk> Model for Book<D> {
    ghost use Rattle.live_book.specs.Kept.{BookParts};
    ghost use Rattle.live_book.specs.Inner.Kept.{IsBook, book_of};

    ghost Value = { BookParts D };

    ghost view = { λ b. book_of b.parts };

    ghost invariant = { λ b. IsBook D.may_leave b.parts };
}

impl<D: Disk> Book<D> {
    /// The book of these fields.
    pub fn of(parts: Parts<D>) -> Book<D>
        requires { IsBook D.may_leave parts }
        ensures { result ≡ book_of parts }
    {
        Book {
            parts,
            dropped: Dropped::new(),
        }
    }

    /// Accepts an act of a line of a session, or says why not. `Ok` gives the number of entries then: the
    /// entry is the last of them, stands in the journal, and is published.
    ///
    /// The refusals come in this order, each with the number of entries that stand: `HistoryFull` at 100,000
    /// entries; `Broken` with the first edit of the act that breaks a rule after them, and the rule; `StoreFull` where
    /// there is a journal and the store would pass 268,435,456 bytes; `Disk` where the disk failed in this call. Want
    /// of memory may come in place of each, and before the disk is called. After a refusal the history, the
    /// journal's bodies and what is published are as before. It may wait for passes that read.
    #[tactic(auto, using(crate::proofs::Configs::commits_as))]
    pub fn commit<R: Wait>(
        &mut self,
        rt: &R,
        alloc: Global,
        session: SessionNo,
        line: u32,
        act: &Act,
    ) -> Result<u64, EditFault>
        ensures { Commits D.may_leave D.moment D.left_since D.faults self.old
            (entry_of session line act.now) result self.new }
    {
        match own_entry(alloc, session, line, act) {
            Err(Memory) => Err(EditFault::Memory),
            Ok(entry) => commit_in(rt, alloc, &mut self.parts, entry),
        }
    }

    /// Accepts an act of a line of a session, or says why not, as [`Book::commit`] does, with its refusals. `Ok` also
    /// gives the act that takes this one back over the entries that stood before it, or why there is none. That act is
    /// made behind the test of the rules and before anything is written; want of memory for it leaves all as before.
    pub fn commit_kept<R: Wait>(
        &mut self,
        rt: &R,
        alloc: Global,
        session: SessionNo,
        line: u32,
        act: &Act,
    ) -> Result<Kept, EditFault>
        ensures commits { Commits D.may_leave D.moment D.left_since D.faults self.old
            (entry_of session line act.now) (numbered result) self.new }
        ensures inverse { KeepsInverse self.old.config self.old.history act.now result }
    {
        match own_entry(alloc, session, line, act) {
            Err(Memory) => Err(EditFault::Memory),
            Ok(entry) => {
                commit_noted_in(rt, alloc, &mut self.parts, &mut self.dropped, entry, None)
            }
        }
    }

    /// Accepts the act of a draft, or says why not, as [`Book::commit_kept`] does. What was made ahead is taken where the
    /// configuration under which it was made is still in force, and is made anew else.
    pub(crate) fn commit_draft<R: Wait>(
        &mut self,
        rt: &R,
        alloc: Global,
        draft: Draft,
    ) -> Result<Kept, EditFault>
        requires { IsDraftIn self.old draft.entry draft }
        ensures commits { Commits D.may_leave D.moment D.left_since D.faults self.old draft.entry
            (numbered result) self.new }
        ensures inverse { KeepsInverse self.old.config self.old.history draft.entry.act result }
    {
        let Draft {
            entry,
            number,
            added,
        } = draft;
        let added = serving(&self.parts, number, added);
        commit_noted_in(rt, alloc, &mut self.parts, &mut self.dropped, entry, added)
    }

    /// Whether a bundle that was dropped serves for an act, if the configuration stays. Nothing is promised of it.
    pub(crate) fn has_served(&self, act: &Act) -> bool {
        self.dropped
            .has_for(self.parts.current.version.config(), act)
    }

    /// All entries, in order.
    pub fn history(&self) -> &Entries
        ensures entries { result.now ≡ self.now.history }
        ensures legal { IsHistory self.now.config self.now.history }
        ensures opened { self.now.opened ≤ length self.now.history }
    {
        &self.parts.entries
    }

    /// How many entries there are.
    pub fn number(&self) -> u64
        ensures { result ≡ length self.now.history }
    {
        self.parts.entries.len() as u64
    }

    /// The version in force, which is that after all entries. It is the last one that was published. The only
    /// refusal is want of memory.
    pub fn in_force(&self) -> Result<Arc<Published>, Memory>
        ensures state { IfOk result (λ shown.
            IsStateAfter self.now.config self.now.history (arc_value shown).version) }
        ensures last { IfOk result (λ shown.
            EndsIn self.now.list (entry (length self.now.history) (arc_value shown))) }
    {
        Ok(Arc::try_clone(&self.parts.current)?)
    }

    /// Tells the whole published list to whoever gets the note. It takes no memory. The list is the opening's
    /// version and then that after each entry past the opening, under the number of its entries.
    pub fn tell(&mut self) -> Note<Published>
        ensures same { self.new ≡ self.old }
        ensures note { result ≡ front self.old.gate self.old.list }
        ensures shown { AreShown self.old.config (take self.old.opened self.old.history)
            (drop self.old.opened self.old.history) self.old.list }
        ensures number { Numbered (length self.old.history) self.old.list }
    {
        self.parts.publisher.tell()
    }

    /// Lets a pass learn the published list, and says whether its number is then that of the book. If so, the
    /// pass has the whole list, and every list that it had before begins it; if not, the pass's number is the
    /// greater.
    pub fn catch_up(&mut self, pass: &mut Pass<Published>) -> bool
        requires gate { self.old.gate ≡ pass.old.gate }
        ensures same { self.new ≡ self.old }
        ensures gate { pass.new.gate ≡ pass.old.gate }
        ensures own { IsPrefix pass.old.list pass.new.list }
        ensures whole { IsPrefix self.old.list pass.new.list }
        ensures caught { IsTrue result →
            (pass.new.list ≡ self.old.list) × IsPrefix pass.old.list self.old.list }
        ensures passed { result ≡ false → (k : ℕ) → Numbered k pass.new.list →
            length self.old.history < k }
    {
        version_gate::law::catch_up(&mut self.parts.publisher, pass)
    }

    /// Each image of the store, if there is one, stands for the configuration and the history, or also for
    /// these with one entry in doubt, which may follow them.
    pub fn stands(&self)
        ensures { Holding D.may_leave self.now.config self.now.history self.now.journal }
    {
        let _ = &self.parts;
    }

    /// Ends the book, and gives its journal up. It may wait for passes that read.
    pub fn into_journal<R: Wait>(self, rt: &R) -> Option<Journal<D>>
        ensures journal { result ≡ self.journal }
        ensures kept { Holding D.may_leave self.config self.history result }
    {
        let Book {
            parts,
            dropped: _dropped,
        } = self;
        let Parts {
            opening: _opening,
            current: _current,
            entries: _entries,
            opened: _,
            since: _,
            publisher,
            journal,
        } = parts;
        publisher.close(rt);
        journal
    }
}
