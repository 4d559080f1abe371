//! A new book, of a configuration and of no entries.
ghost use Rattle.std.specs.Prelude.{◌≡◌, ◌≤◌, [], ℕ, true, None, Some, IfOk, IfErr, OnOk, OnErr};
ghost use Rattle.emu_names.specs.Count.{HasCause};
ghost use Rattle.db_config.specs.declared.parts.ConfigParts.{ConfigParts};
ghost use Rattle.edit_journal.specs.Held.{Holds, LeavesIn, count_in};
ghost use Rattle.live_book.specs.edit_code.Codes.{head_code, IsHeadCode};
ghost use Rattle.live_book.specs.Histories.{HeadPassesLimit};
ghost use Rattle.live_book.specs.Kept.{Keeps, KeepsIn, CrashLeaves, faults_in};
ghost use Rattle.live_book.specs.Commits.{has_journal};
ghost use Rattle.book_opening.specs.Opens.{IsEmptyOrLost, IsHeadTooMuch, IsNoBookFor, DuringNew, DuringNoBook, LeavesNew};
ghost use Rattle.book_opening.specs.Inner.Opens.{AreAtFront, IsEmpty, IsNew};
ghost use Rattle.live_book.specs.Inner.Prepared.{IsTest};
ghost use Rattle.book_opening.specs.Inner.Prepared.{IsHeadFrameOf, IsFirstShown, IsBegun, ForBegun};

use crate::fault::OpenFault;
use db_config::Config;
use edit_journal::{Frame, Journal, JournalFault};
use emu_disk::{Disk, Failed};
use emu_names::limits::STORE_BYTES;
use emu_names::{Memory, Shared};
use live_book::edit_code::{head_len, write_head};
use live_book::{Book, Parts, Published};
use std::alloc::Global;
use std::sync::{Arc, Wait};
use version_gate::{Made, Passes, Publisher, new_gate};
use version_tree::Version;
use version_tree::edit_rules::Entries;

/// A new book, with the passes of its gate, of which there is at least one.
pub struct MadeBook<D: Disk> {
    pub book: Book<D>,
    pub passes: Passes<Published>,
}

/// Why no book was made, and the journal, which still has no bodies.
#[derive(Drop)]
pub struct NoBook<D: Disk> {
    pub fault: OpenFault,
    pub journal: Option<Journal<D>>,
}

/// A gate that shows one version, and that version.
pub(crate) struct Shown {
    pub(crate) current: Arc<Published>,
    pub(crate) publisher: Publisher<Published>,
    pub(crate) passes: Passes<Published>,
}

/// A gate whose opening is a version, under the number of its entries.
pub(crate) fn show_first<R: Wait>(
    rt: &R,
    alloc: Global,
    version: Version,
    number: u64,
    readers: u32,
) -> Result<Shown, Memory>
    requires readers { (1 ≤ readers) × (readers ≤ 16) }
    ensures { IfOk result (λ shown. IsFirstShown version number readers shown) }
{
    let opening = Published {
        version,
        last: None,
    };
    let current = Arc::new(alloc, opening)?;
    let first = Arc::try_clone(&current)?;
    match new_gate(rt, alloc, number, first, readers) {
        Ok(made) => {
            let Made { publisher, passes } = made;
            Ok(Shown {
                current,
                publisher,
                passes,
            })
        }
        Err(_) => Err(Memory),
    }
}

/// Whether there is a store, and a configuration would bring it past its limit.
fn is_head_too_much<D: Disk>(journal: &Option<Journal<D>>, config: &Config) -> bool
    requires { IsEmpty D.may_leave journal.now }
    ensures { IsTest result (IsHeadTooMuch (has_journal journal.now) config.now) }
{
    match journal {
        None => false,
        Some(journal) => STORE_BYTES - journal.end() < 6 + head_len(config),
    }
}

/// The frame of a configuration's code, where there is a store.
fn head_frame<D: Disk>(
    alloc: Global,
    journal: &Option<Journal<D>>,
    config: &Config,
) -> Result<Option<Frame>, Memory>
    requires { IsHeadTooMuch (has_journal journal.now) config.now → ⊥ }
    ensures frame { IfOk result (λ frame. IsHeadFrameOf config.now journal.now frame) }
    ensures coded { has_journal journal.now ≡ true
        → OnOk result (IsHeadCode (head_code config.now) config.now) }
{
    match journal {
        None => Ok(None),
        Some(_) => {
            let _len = head_len(config);
            let code = write_head(alloc, config)?;
            Ok(Some(Frame::new(alloc, code.as_slice())?))
        }
    }
}

/// Writes a configuration's frame to an empty journal.
fn append_head<D: Disk>(
    journal: &mut Option<Journal<D>>,
    config: &Config,
    frame: &Option<Frame>,
) -> Result<(), Failed>
    requires frame { IsHeadFrameOf config.now journal.old frame.now }
    requires empty { IsEmpty D.may_leave journal.old }
    requires fits { IsHeadTooMuch (has_journal journal.old) config.now → ⊥ }
    requires coded { has_journal journal.old ≡ true → IsHeadCode (head_code config.now) config.now }
    ensures ok { OnOk result (KeepsIn D.may_leave config.now [] None journal.new) }
    ensures err { OnErr result (IsEmptyOrLost D.may_leave config.now journal.new) }
    ensures left { OnErr result (LeavesNew D.may_leave config.now journal.new) }
    ensures any_moment { CrashLeaves D.moment D.left_since journal.old journal.new (
        DuringNew config.now) }
    ensures cause { HasCause (faults_in D.faults journal.old) (faults_in D.faults journal.new) result }
    ensures stored { has_journal journal.new ≡ has_journal journal.old }
    ensures only { OnErr result (has_journal journal.old ≡ true) }
{
    match journal {
        None => Ok(()),
        Some(journal) => match frame {
            None => unreachable!(),
            Some(frame) => append_config(journal, config, frame),
        },
    }
}

/// Writes a configuration's frame to a journal without bodies.
fn append_config<D: Disk>(
    journal: &mut Journal<D>,
    config: &Config,
    frame: &Frame,
) -> Result<(), Failed>
    requires frame { frame.now ≡ head_code config.now }
    requires empty { Holds D.may_leave [] None journal.old }
    requires fits { HeadPassesLimit config.now → ⊥ }
    requires coded { IsHeadCode (head_code config.now) config.now }
    ensures ok { OnOk result (Keeps D.may_leave config.now [] None journal.new) }
    ensures err { OnErr result (IsEmptyOrLost D.may_leave config.now (Some journal.new)) }
    ensures left { OnErr result (LeavesNew D.may_leave config.now (Some journal.new)) }
    ensures any_moment { LeavesIn D.moment D.left_since journal.old journal.new (
        DuringNew config.now) }
    ensures cause { HasCause (count_in D.faults journal.old) (count_in D.faults journal.new) result }
{
    match journal.append(frame) {
        Ok(()) => Ok(()),
        Err(JournalFault::Disk) => Err(Failed),
        Err(JournalFault::StoreFull) => unreachable!(),
        Err(JournalFault::Damaged(_)) => unreachable!(),
        Err(JournalFault::Memory) => unreachable!(),
    }
}

/// Makes the book of a configuration, without entries, for 1 to 16 readers. It takes all its memory, and
/// then writes the configuration to the journal, if there is one, which has no bodies.
///
/// `StoreFull` comes exactly where there is a journal and the configuration's code has over 268,435,442
/// bytes, before the disk is called; `Disk` only where the disk failed in this call; `Damaged` never. The
/// journal is handed back with a refusal. It may wait for passes that read.
pub fn new_book<D: Disk, R: Wait>(
    rt: &R,
    alloc: Global,
    config: Config,
    journal: Option<Journal<D>>,
    readers: u32,
) -> Result<MadeBook<D>, NoBook<D>>
    requires readers { (1 ≤ readers) × (readers ≤ 16) }
    requires empty { IsEmpty D.may_leave journal }
    ensures made { IfOk result (λ m. IsNew D.may_leave config (has_journal journal) m.book) }
    ensures passes { IfOk result (λ m. AreAtFront readers m.book m.passes) }
    ensures refused { IfErr result (λ e.
        IsNoBookFor D.may_leave D.faults config journal e.fault e.journal) }

    // A crash at any moment leaves the store bare, or with the configuration alone.
    ensures any_moment { IfOk result (λ m. CrashLeaves D.moment D.left_since journal m.book.journal (
        DuringNew config)) }
    ensures any_moment_err { IfErr result (λ e. CrashLeaves D.moment D.left_since journal e.journal (
        DuringNoBook e.fault config)) }
    ensures later { IfOk result (λ m. faults_in D.faults journal ≤ faults_in D.faults m.book.journal) }
    ensures later_err { IfErr result (λ e. faults_in D.faults journal ≤ faults_in D.faults e.journal) }
{
    if is_head_too_much(&journal, &config) {
        return Err(NoBook {
            fault: OpenFault::StoreFull,
            journal,
        });
    }
    match prepare(rt, alloc, &journal, config, readers) {
        Ok(begun) => begin(rt, begun, journal),
        Err(Memory) => Err(NoBook {
            fault: OpenFault::Memory,
            journal,
        }),
    }
}

/// What a new book needs before the disk is called.
struct Begun {
    opening: Shared<Config>,
    frame: Option<Frame>,
    entries: Entries,
    shown: Shown,
}

/// Makes all that a new book needs.
fn prepare<D: Disk, R: Wait>(
    rt: &R,
    alloc: Global,
    journal: &Option<Journal<D>>,
    config: Config,
    readers: u32,
) -> Result<Begun, Memory>
    requires readers { (1 ≤ readers) × (readers ≤ 16) }
    requires fits { IsHeadTooMuch (has_journal journal.now) config → ⊥ }
    ensures { IfOk result (λ begun. IsBegun journal.now config readers begun) }
{
    let frame = head_frame(alloc, journal, &config)?;
    let version = Version::new(alloc, config)?;
    let opening = version.shared_config(alloc)?;
    let shown = show_first(rt, alloc, version, 0, readers)?;
    Ok(Begun {
        opening,
        frame,
        entries: Entries::new(alloc),
        shown,
    })
}

/// Writes the configuration, and makes the book; where the disk fails, ends its publisher.
fn begin<D: Disk, R: Wait>(
    rt: &R,
    begun: Begun,
    journal: Option<Journal<D>>,
) -> Result<MadeBook<D>, NoBook<D>>
    requires empty { IsEmpty D.may_leave journal }
    requires begun { (config : ConfigParts) × (readers : ℕ) × IsBegun journal config readers begun }
    ensures made { ForBegun journal begun (λ config readers. IfOk result (λ m.
        IsNew D.may_leave config (has_journal journal) m.book)) }
    ensures passes { ForBegun journal begun (λ config readers. IfOk result (λ m.
        AreAtFront readers m.book m.passes)) }
    ensures refused { ForBegun journal begun (λ config readers. IfErr result (λ e.
        IsNoBookFor D.may_leave D.faults config journal e.fault e.journal)) }
    ensures any_moment { ForBegun journal begun (λ config readers. IfOk result (λ m.
        CrashLeaves D.moment D.left_since journal m.book.journal (DuringNew config))) }
    ensures any_moment_err { ForBegun journal begun (λ config readers. IfErr result (λ e.
        CrashLeaves D.moment D.left_since journal e.journal (DuringNoBook e.fault config))) }
    ensures later { IfOk result (λ m. faults_in D.faults journal ≤ faults_in D.faults m.book.journal) }
    ensures later_err { IfErr result (λ e. faults_in D.faults journal ≤ faults_in D.faults e.journal) }
{
    let mut journal = journal;
    let Begun {
        opening,
        frame,
        entries,
        shown,
    } = begun;
    let Shown {
        current,
        publisher,
        passes,
    } = shown;
    match append_head(&mut journal, opening.as_ref(), &frame) {
        Ok(()) => {
            let book = Book::of(Parts {
                opening,
                current,
                entries,
                opened: 0,
                since: 0,
                publisher,
                journal,
            });
            Ok(MadeBook { book, passes })
        }
        Err(Failed) => {
            publisher.close(rt);
            Err(NoBook {
                fault: OpenFault::Disk,
                journal,
            })
        }
    }
}
