//! A book that several threads edit, one after another.
ghost use Rattle.std.specs.Prelude.{◌≡◌, ◌<◌, ◌≤◌, ℕ, IfSome, None, drop, length, take};
ghost use mathlib.Core.List.{IsPrefix};
ghost use Rattle.live_book.specs.Commits.{Commits, entry_of};
ghost use Rattle.live_book.specs.Inner.Inverses.{KeepsInverse, numbered};
ghost use Rattle.live_book.specs.Inner.Drafts.{IsDraftAt};
ghost use Rattle.version_steps.specs.Inner.Drafts.{IsDraftOf};
ghost use Rattle.live_book.specs.Kept.{KeepsIn};
ghost use Rattle.live_book.specs.Inner.Kept.{Holding};
ghost use Rattle.live_book.specs.Live.{HasGrown, Opened, opening_of};
ghost use Rattle.live_book.specs.Inner.Live.{EditsKept, EditsLive, accepted_behind, all_parts, count_behind, merged, no_opening, one_part, refused_behind, whole_share, without_part};
ghost use Rattle.live_book.specs.Published.{AreShown};
ghost use Rattle.version_gate.specs.Lists.{Numbered as IsNumbered};

use crate::book::Book;
use crate::kept::Kept;
use crate::published::Published;
use emu_disk::Disk;
use emu_names::{Memory, SessionNo};
use std::alloc::Global;
use std::marker::{Brand, Model};
use std::sync::ledger::{self, Blank, Ledger};
use std::sync::{Mutex, MutexGuard, Wait};
use version_gate::Pass;
use version_steps::Draft;
use version_steps::edit_rules::{Act, Edit, EditFault};

/// Which opening it is: the book as it is at the moment at which threads begin to edit it. It is also the ledger of
/// the edits that are accepted. Its members are plain values, which contracts alone see.
pub trait Opening: Ledger {
    /// The opening.
    ghost opened: { Opened };
}

impl Opening for Brand {
    ghost opened = { no_opening };
}

/// A part of the right to say what became of all edits: the edits that were accepted with it, and the answers that
/// the disk failed. It takes no bytes.
#[derive(Drop)]
pub struct Share<K: Opening, N: Ledger> {
    accepted: ledger::Share<K>,
    refused: ledger::Share<N>,
}

impl<K: Opening, N: Ledger> Model for Share<K, N> {
    ghost use Rattle.std.specs.Prelude.{◌≡◌};
    ghost use Rattle.live_book.specs.Inner.Live.{Count};

    ghost Value = { Count };

    ghost view = { λ s. record { parts = s.accepted.parts; accepted = s.accepted.amount; refused = s.refused.amount } };

    ghost invariant = { λ s. s.refused.parts ≡ s.accepted.parts };
}

impl<K: Opening, N: Ledger> Share<K, N> {
    /// Takes one part off, which counts nothing.
    pub fn split(&mut self) -> Share<K, N>
        requires { 1 < self.old.parts }
        ensures new { result ≡ one_part }
        ensures left { self.new ≡ without_part self.old }
    {
        Share {
            accepted: self.accepted.split_off(1, 0),
            refused: self.refused.split_off(1, 0),
        }
    }

    /// Takes another share in.
    pub fn merge(&mut self, other: Share<K, N>)
        ensures { self.new ≡ merged self.old other }
    {
        self.accepted.merge(other.accepted);
        self.refused.merge(other.refused);
    }
}

/// The book behind its lock, with the ledgers of what it answered.
struct Locked<K: Opening, N: Ledger, D: Disk> {
    book: Book<D>,
    accepted: ledger::Book<K>,
    refused: ledger::Book<N>,
}

impl<K: Opening, N: Ledger, D: Disk> Model for Locked<K, N, D> {
    ghost use Rattle.live_book.specs.Live.{HasGrown};
    ghost use Rattle.live_book.specs.Kept.{BookParts};

    ghost Value = { BookParts D };

    ghost view = { λ l. l.book };

    ghost invariant = { λ l. HasGrown D.may_leave D.faults K.opened l.accepted.total l.refused.total l.book };
}

/// A book that several threads edit, one after another. It is no `Drop`: end it by [`Live::settle`].
pub struct Live<K: Opening, N: Ledger, D: Disk> {
    lock: Mutex<Locked<K, N, D>>,
}

/// A book that several threads may edit, and the share of all parts.
pub struct MadeLive<K: Opening, N: Ledger, D: Disk> {
    /// The book.
    pub live: Live<K, N, D>,
    /// The share.
    pub share: Share<K, N>,
}

/// Counts an answer in the ledgers, and in the share of who was answered.
fn count<K: Opening, N: Ledger>(
    accepted: &mut ledger::Book<K>,
    refused: &mut ledger::Book<N>,
    share: &mut Share<K, N>,
    answer: &Result<Kept, EditFault>,
)
    requires { 0 < share.old.parts }
    ensures share { share.new ≡ count_behind share.old (numbered answer.now) }
    ensures accepted { accepted.new.total ≡ accepted_behind accepted.old.total (numbered answer.now) }
    ensures refused { refused.new.total ≡ refused_behind refused.old.total (numbered answer.now) }
{
    match answer {
        Ok(_) => accepted.add(&mut share.accepted, 1),
        Err(EditFault::Disk) => refused.add(&mut share.refused, 1),
        Err(_) => {}
    }
}

/// The number of an answer; what takes the act back is let go of.
fn number_of(made: Result<Kept, EditFault>) -> Result<u64, EditFault>
    ensures { result ≡ numbered made }
{
    match made {
        Ok(kept) => Ok(kept.n),
        Err(fault) => Err(fault),
    }
}

/// The draft of an act over a version, unless memory is wanting.
fn draft_over(
    alloc: Global,
    shown: &Published,
    session: SessionNo,
    line: u32,
    act: &Act,
) -> Option<Draft>
    ensures { IfSome result (IsDraftOf shown.now.version (entry_of session line act.now)) }
{
    match Draft::new(alloc, &shown.version, session, line, act) {
        Ok(draft) => Some(draft),
        Err(Memory) => None,
    }
}

/// The draft of an act over a version that the pass looks at. There is none where the pass sees no version at this
/// moment, or memory is wanting.
fn draft_ahead(
    alloc: Global,
    pass: &mut Pass<Published>,
    session: SessionNo,
    line: u32,
    act: &Act,
) -> Option<Draft>
    ensures gate { pass.new.gate ≡ pass.old.gate }
    ensures own { IsPrefix pass.old.list pass.new.list }
    ensures draft { IfSome result (IsDraftAt pass.new.list (entry_of session line act.now)) }
{
    match pass.look() {
        Ok(seen) => draft_over(alloc, &seen.version, session, line, act),
        Err(_fault) => None,
    }
}

/// The same, unless it is not wanted.
fn draft_unless(
    alloc: Global,
    pass: &mut Pass<Published>,
    has_bundle: bool,
    session: SessionNo,
    line: u32,
    act: &Act,
) -> Option<Draft>
    ensures gate { pass.new.gate ≡ pass.old.gate }
    ensures own { IsPrefix pass.old.list pass.new.list }
    ensures draft { IfSome result (IsDraftAt pass.new.list (entry_of session line act.now)) }
{
    if has_bundle {
        return None;
    }
    draft_ahead(alloc, pass, session, line, act)
}

/// Whether an act is one edit that adds a bundle.
fn adds_bundle(act: &Act) -> bool {
    match act {
        Act::Edits(edits) => match edits.as_slice() {
            [Edit::AddBundle { .. }] => true,
            _ => false,
        },
        Act::Config(_) => false,
    }
}

/// Lets a pass that knows no more than the book learn what is published.
fn learn_all<D: Disk>(book: &mut Book<D>, pass: &mut Pass<Published>)
    requires gate { pass.old.gate ≡ book.old.gate }
    requires seen { (k : ℕ) → IsNumbered k pass.old.list → k ≤ length book.old.history }
    ensures same { book.new ≡ book.old }
    ensures gate { pass.new.gate ≡ pass.old.gate }
    ensures own { IsPrefix pass.old.list pass.new.list }
    ensures whole { pass.new.list ≡ book.old.list }
    ensures number { IsNumbered (length book.old.history) book.old.list }
    ensures shown { AreShown book.old.config (take book.old.opened book.old.history)
        (drop book.old.opened book.old.history) book.old.list }
{
    let _seen = pass.seen();
    pass.learn(book.tell());
}

/// Commits an act, of its draft where there is one, and first lets a pass that knows no more than the book learn what
/// is published.
fn commit_drafted<D: Disk, R: Wait>(
    rt: &R,
    alloc: Global,
    book: &mut Book<D>,
    pass: &mut Pass<Published>,
    draft: Option<Draft>,
    session: SessionNo,
    line: u32,
    act: &Act,
) -> Result<Kept, EditFault>
    requires gate { pass.old.gate ≡ book.old.gate }
    requires seen { (k : ℕ) → IsNumbered k pass.old.list → k ≤ length book.old.history }
    requires draft { IfSome draft (IsDraftAt pass.old.list (entry_of session line act.now)) }
    ensures commits { Commits D.may_leave D.moment D.left_since D.faults book.old
        (entry_of session line act.now) (numbered result) book.new }
    ensures inverse { KeepsInverse book.old.config book.old.history act.now result }
    ensures gate { pass.new.gate ≡ pass.old.gate }
    ensures own { IsPrefix pass.old.list pass.new.list }
    ensures whole { pass.new.list ≡ book.old.list }
    ensures number { IsNumbered (length book.old.history) book.old.list }
{
    learn_all(book, pass);
    match draft {
        Some(draft) => book.commit_draft(rt, alloc, draft),
        None => book.commit_kept(rt, alloc, session, line, act),
    }
}

impl<K: Opening, N: Ledger, D: Disk> Locked<K, N, D> {
    /// Commits an act, of its draft where there is one, and lets the pass learn what is then published.
    fn edit<R: Wait>(
        &mut self,
        rt: &R,
        alloc: Global,
        pass: &mut Pass<Published>,
        share: &mut Share<K, N>,
        draft: Option<Draft>,
        session: SessionNo,
        line: u32,
        act: &Act,
    ) -> Result<Kept, EditFault>
        requires gate { pass.old.gate ≡ K.opened.gate }
        requires part { 0 < share.old.parts }
        requires draft { IfSome draft (IsDraftAt pass.old.list (entry_of session line act.now)) }
        requires seen { (k : ℕ) → IsNumbered k pass.old.list → k ≤ length self.old.history }
        ensures gate { pass.new.gate ≡ pass.old.gate }
        ensures edits { EditsKept K.opened (entry_of session line act.now) pass.old.list pass.new.list result }
        ensures counted { share.new ≡ count_behind share.old (numbered result) }
    {
        let result = commit_drafted(rt, alloc, &mut self.book, pass, draft, session, line, act);
        let _seen = pass.seen();
        count(&mut self.accepted, &mut self.refused, share, &result);
        pass.learn(self.book.tell());
        result
    }
}

impl<K: Opening, N: Ledger, D: Disk> Live<K, N, D> {
    /// Lets several threads edit a book. The book is at the opening that `K` names, and nothing in its journal is in
    /// doubt; `accepted` and `refused` are the new ledgers of `K` and `N`, of 16 parts each.
    pub fn new(book: Book<D>, accepted: Blank, refused: Blank) -> MadeLive<K, N, D>
        requires opening { K.opened ≡ opening_of D.faults book }
        requires sound { KeepsIn D.may_leave book.config book.history None book.journal }
        requires accepted { (accepted.name ≡ K.name) × (accepted.parts ≡ K.parts) × (K.parts ≡ all_parts) }
        requires refused { (refused.name ≡ N.name) × (refused.parts ≡ N.parts) × (N.parts ≡ all_parts) }
        ensures { result.share ≡ whole_share }
    {
        let _entries = book.history();
        let (accepted, accepted_share) = accepted.open();
        let (refused, refused_share) = refused.open();
        MadeLive {
            live: Live {
                lock: Mutex::new(Locked {
                    book,
                    accepted,
                    refused,
                }),
            },
            share: Share {
                accepted: accepted_share,
                refused: refused_share,
            },
        }
    }

    /// Accepts an act of a line of a session, or says why not, as [`Live::edit_kept`] does, and lets go of what takes it
    /// back.
    pub fn edit<R: Wait>(
        &self,
        rt: &R,
        alloc: Global,
        pass: &mut Pass<Published>,
        share: &mut Share<K, N>,
        session: SessionNo,
        line: u32,
        act: &Act,
    ) -> Result<u64, EditFault>
        requires gate { pass.old.gate ≡ K.opened.gate }
        requires part { 0 < share.old.parts }
        ensures gate { pass.new.gate ≡ pass.old.gate }
        ensures edits { EditsLive K.opened (entry_of session line act.now) pass.old.list pass.new.list result }
        ensures counted { share.new ≡ count_behind share.old result }
    {
        number_of(self.edit_kept(rt, alloc, pass, share, session, line, act))
    }

    /// Accepts an act of a line of a session, or says why not, as [`Book::commit_kept`] does, when the lock is free. The
    /// answer is right for the entries that stood at that moment, and what takes the act back is made over them. The
    /// pass is one of the book's gate, and has then seen the number in the answer or more. What depends on the
    /// configuration alone is made before it waits for the lock, and made anew under it where another configuration has
    /// come into force.
    /// Where the pass has seen more than the book has, it lets go and tries again: it keeps its promise if it returns.
    pub fn edit_kept<R: Wait>(
        &self,
        rt: &R,
        alloc: Global,
        pass: &mut Pass<Published>,
        share: &mut Share<K, N>,
        session: SessionNo,
        line: u32,
        act: &Act,
    ) -> Result<Kept, EditFault>
        requires gate { pass.old.gate ≡ K.opened.gate }
        requires part { 0 < share.old.parts }
        ensures gate { pass.new.gate ≡ pass.old.gate }
        ensures edits { EditsKept K.opened (entry_of session line act.now) pass.old.list pass.new.list result }
        ensures counted { share.new ≡ count_behind share.old (numbered result) }
    {
        let has_bundle = self.has_bundle_for(rt, act);
        let draft = draft_unless(alloc, pass, has_bundle, session, line, act);
        let _seen = pass.seen();
        self.edit_drafted(rt, alloc, pass, share, draft, session, line, act)
    }

    /// Whether the book has a bundle that was dropped and serves for an act that adds it. It asks for the lock for such
    /// an act alone. Nothing is promised of it: what it says saves a draft.
    fn has_bundle_for<R: Wait>(&self, rt: &R, act: &Act) -> bool {
        if !adds_bundle(act) {
            return false;
        }
        let guard = self.lock.lock(rt);
        let has = guard.book.has_served(act);
        MutexGuard::unlock(guard);
        has
    }

    /// The same, of the act's draft where there is one, which is kept for the next try.
    fn edit_drafted<R: Wait>(
        &self,
        rt: &R,
        alloc: Global,
        pass: &mut Pass<Published>,
        share: &mut Share<K, N>,
        draft: Option<Draft>,
        session: SessionNo,
        line: u32,
        act: &Act,
    ) -> Result<Kept, EditFault>
        requires gate { pass.old.gate ≡ K.opened.gate }
        requires part { 0 < share.old.parts }
        requires draft { IfSome draft (IsDraftAt pass.old.list (entry_of session line act.now)) }
        ensures gate { pass.new.gate ≡ pass.old.gate }
        ensures edits { EditsKept K.opened (entry_of session line act.now) pass.old.list pass.new.list result }
        ensures counted { share.new ≡ count_behind share.old (numbered result) }
    {
        for _ in rt.forever() {
            let mut guard = self.lock.lock(rt);
            if pass.seen() <= guard.book.number() {
                let result = guard.edit(rt, alloc, pass, share, draft, session, line, act);
                MutexGuard::unlock(guard);
                return result;
            }
            MutexGuard::unlock(guard);
        }
        unreachable!()
    }

    /// Ends the edits of several threads, with the shares of all of them, and hands the book back. As many entries came
    /// as edits were accepted; the disk's count rose once or more for each answer that it failed; and without such an
    /// answer nothing in the journal is in doubt.
    pub fn settle(self, all: Share<K, N>) -> Book<D>
        requires whole { (all.parts ≡ K.parts) × (N.parts ≡ K.parts) }
        ensures { HasGrown D.may_leave D.faults K.opened all.accepted all.refused result }
    {
        let Live { lock } = self;
        let Locked {
            book,
            mut accepted,
            mut refused,
        } = lock.into_inner();
        let Share {
            accepted: mut accepted_share,
            refused: mut refused_share,
        } = all;
        accepted.audit(&mut accepted_share);
        refused.audit(&mut refused_share);
        book
    }
}
