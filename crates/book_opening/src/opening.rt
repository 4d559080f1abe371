//! A store that is opened: it has a configuration and a history, or it is bare.
ghost use Rattle.std.specs.Prelude.{◌≡◌, ◌≤◌, ◌<◌, List, ℕ, None, length, IfOk, IfErr};
ghost use Rattle.emu_disk.specs.Disk.{LeavesOnly};
ghost use Rattle.edit_journal.specs.Held.{disk_of, texts_of, Holds};
ghost use Rattle.live_book.specs.Kept.{faults_in};
ghost use Rattle.book_opening.specs.Inner.Opens.{IsOpenedAs, IsNoStoreFor, IsWrong, IsWrongIn, LeavesFrom, journal_in};
ghost use Rattle.book_opening.specs.Inner.Prepared.{IsHistoryOf, IsOpenedOver, IsOpenedBook, fault_of};

use crate::fault::OpenFault;
use crate::making::{Shown, show_first};
use crate::replay::{Replayed, replay};
use edit_journal::{Bodies, Journal, JournalFault, NoJournal, Recovered};
use emu_disk::Disk;
use emu_names::Memory;
use live_book::{Book, Parts, Published};
use std::alloc::Global;
use std::sync::Wait;
use version_gate::Passes;

/// A store that was opened.
pub enum Opened<D: Disk> {
    /// It has a configuration: its book, which has the journal, and the passes of the book's gate, at least one.
    Stored {
        book: Book<D>,
        passes: Passes<Published>,
    },
    /// It is bare: its journal, which has no bodies.
    Bare {
        journal: Journal<D>,
    },
}

/// Why a store was not opened, and its disk.
#[derive(Drop)]
pub struct NoStore<D: Disk> {
    pub fault: OpenFault,
    pub disk: D,
}

/// Opens a store for 1 to 16 readers. Its bytes stand for the book's configuration and history, or they are
/// bare. It writes nothing, and nothing is in doubt then.
///
/// `Damaged` comes exactly where they stand for neither, and names the place: where the list of bodies
/// breaks; else the gate of the first body that is no code, whose act breaks a rule, or that would be entry
/// 100,001. `Disk` comes only where the disk failed in this call, `StoreFull` never. The disk is handed back
/// with a refusal. It may wait for passes that read.
pub fn open_store<D: Disk, R: Wait>(
    rt: &R,
    alloc: Global,
    disk: D,
    readers: u32,
) -> Result<Opened<D>, NoStore<D>>
    requires readers { (1 ≤ readers) × (readers ≤ 16) }
    ensures opened { IfOk result (λ o.
        IsOpenedAs D.may_leave (D.reads disk) readers o) }
    ensures refused { IfErr result (λ e. IsNoStoreFor (D.reads disk) D.faults disk e.fault e.disk) }
    ensures any_moment { IfOk result (λ o. LeavesFrom D.moment D.left_since disk
        (journal_in o) (D.may_leave disk)) }
    ensures any_moment_err { IfErr result (λ e.
        LeavesOnly D.moment D.left_since disk e.disk (D.may_leave disk)) }
    ensures later { IfOk result (λ o.
        D.faults disk ≤ faults_in D.faults (journal_in o)) }
    ensures later_err { IfErr result (λ e. D.faults disk ≤ D.faults e.disk) }
{
    match Journal::recover(alloc, disk) {
        Ok(found) => {
            let Recovered { journal, bodies } = found;
            if bodies.len() == 0 {
                Ok(Opened::Bare { journal })
            } else {
                open_bodies(rt, alloc, journal, &bodies, readers)
            }
        }
        Err(refused) => {
            let NoJournal { fault, disk } = refused;
            Err(NoStore {
                fault: fault_of(fault),
                disk,
            })
        }
    }
}

/// The same fault, of a store.
fn fault_of(fault: JournalFault) -> OpenFault
    ensures { result ≡ fault_of fault }
{
    match fault {
        JournalFault::Disk => OpenFault::Disk,
        JournalFault::Damaged(at) => OpenFault::Damaged(at),
        JournalFault::StoreFull => OpenFault::StoreFull,
        JournalFault::Memory => OpenFault::Memory,
    }
}

/// Opens the store of these bodies, of which there is one.
fn open_bodies<D: Disk, R: Wait>(
    rt: &R,
    alloc: Global,
    journal: Journal<D>,
    bodies: &Bodies,
    readers: u32,
) -> Result<Opened<D>, NoStore<D>>
    requires readers { (1 ≤ readers) × (readers ≤ 16) }
    requires some { 0 < length bodies.now }
    requires holds { Holds D.may_leave (texts_of bodies.now) None journal }
    ensures ok { IfOk result (λ o.
        IsOpenedOver D.may_leave (texts_of bodies.now) journal readers o) }
    ensures err { IfErr result (λ e.
        (e.disk ≡ disk_of journal) × IsWrong (IsWrongIn bodies.now) e.fault) }
{
    match replay(alloc, bodies.as_slice()) {
        Err(fault) => Err(NoStore {
            fault,
            disk: journal.into_disk(),
        }),
        Ok(replayed) => open_replayed(rt, alloc, journal, replayed, readers),
    }
}

/// The book of a history that was read.
fn open_replayed<D: Disk, R: Wait>(
    rt: &R,
    alloc: Global,
    journal: Journal<D>,
    replayed: Replayed,
    readers: u32,
) -> Result<Opened<D>, NoStore<D>>
    requires readers { (1 ≤ readers) × (readers ≤ 16) }
    requires kept { (texts : List (List ℕ)) × IsHistoryOf texts replayed
        × Holds D.may_leave texts None journal }
    ensures ok { IfOk result (λ o. IsOpenedBook D.may_leave journal replayed readers o) }
    ensures err { IfErr result (λ e.
        (e.disk ≡ disk_of journal) × (e.fault ≡ OpenFault.Memory)) }
{
    let Replayed {
        opening,
        version,
        entries,
    } = replayed;
    match show_first(rt, alloc, version, entries.len() as u64, readers) {
        Err(Memory) => Err(NoStore {
            fault: OpenFault::Memory,
            disk: journal.into_disk(),
        }),
        Ok(shown) => {
            let Shown {
                current,
                publisher,
                passes,
            } = shown;
            let opened = entries.len();
            let book = Book::of(Parts {
                opening,
                current,
                entries,
                opened,
                since: opened,
                publisher,
                journal: Some(journal),
            });
            Ok(Opened::Stored { book, passes })
        }
    }
}
