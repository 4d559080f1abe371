//! A live run: the sessions of a script at once over one book.
ghost use Rattle.std.specs.Prelude.{◌≡◌, ◌+◌, ◌≤◌, ◌<◌, [], None, All, IfOk, length, map, vec_capacity, vec_len};
ghost use Rattle.live_seats.specs.session_core.InOrder.{ComeInOrder};
ghost use Rattle.live_seats.specs.session_core.Worlds.{Each};
ghost use Rattle.live_seats.specs.live_book.Kept.{KeepsIn};
ghost use Rattle.live_seats.specs.live_book.Live.{opening_of};
ghost use Rattle.live_seats.specs.live_book.Inner.Live.{all_parts};
ghost use Rattle.live_run.specs.Inner.Grouping.{HasRooms};
ghost use Rattle.live_run.specs.Inner.Running.{HaveRoom, IsUnder};
ghost use Rattle.live_run.specs.Inner.Runs.{EndsLive};
ghost use Rattle.live_seats.specs.Inner.Seats.{AreCells, IsAsked};

use crate::ending::leave_all;
use crate::gathering::gather;
use crate::lanes::{LaneRoom, Start, Work, run_lanes};
use crate::places::sit_all;
use crate::room::{LaneLists, RunRoom, make_room};
use emu_disk::Disk;
use emu_io::Gate;
use emu_names::Memory;
use emu_names::limits::SESSIONS;
use live_seats::live_book::{Book, Live, MadeLive, Opening, Published};
use live_seats::session_core::{Lines, Replies};
use live_seats::{Around, Marks, Row};
use std::alloc::Global;
use std::marker::Brand;
use std::sync::ledger::{Blank, Ledger};
use std::sync::{OnceLock, Wait};
use std::thread::Threads;
use version_gate::Passes;

/// What a live run answered.
#[derive(Drop)]
pub struct Ended {
    /// How many entries stood before it.
    pub from: u64,
    /// The replies, grouped by session in rising order; those of a session stand in the order of its lines.
    pub replies: Replies,
    /// A mark of each new entry, in the order of the history.
    pub marks: Marks,
}

/// The end of a live run. It is no `Drop`, since its book is none.
pub struct LiveEnd<D: Disk> {
    /// The book.
    pub book: Book<D>,
    /// What it answered, or want of memory.
    pub ended: Result<Ended, Memory>,
}

/// How many cells a script's lines have: one for each number up to the highest of a line.
fn count_cells(lines: &Lines) -> usize
    ensures { All (λ l. l.line < result) lines.now }
{
    let mut cells = 0;
    for line in lines.as_slice() {
        if cells <= line.line as usize {
            cells = line.line as usize + 1;
        }
    }
    cells
}

/// So many cells in which nothing is noted. The only refusal is want of memory.
fn make_cells(alloc: Global, count: usize) -> Result<Vec<OnceLock<u64>>, Memory>
    ensures { IfOk result (λ cells. vec_len cells ≡ count) }
{
    let mut cells = Vec::with_capacity(alloc, count)?;
    for _at in 0..count {
        cells.push_reserved(OnceLock::new());
    }
    Ok(cells)
}

/// What a run is told, besides its book and its passes.
#[derive(Drop)]
struct Orders<'a, G: Gate> {
    alloc: Global,
    lines: &'a Lines,
    cells: &'a [OnceLock<u64>],
    start: &'a OnceLock<Start>,
    gate: &'a G,
    workers: u32,
}

/// Runs the lanes of a book, in the room that was made for them, and settles the book. `K` names the book as it is, the
/// cells, and the new ledger of the edits that are accepted; `N` names that of the answers that the disk failed.
fn run_in<
    'a,
    R: Threads + Wait + Sync,
    K: Opening + Row + Send + Sync,
    N: Ledger + Send + Sync,
    D: Disk + Send,
    G: Gate + Sync,
>(
    rt: &R,
    orders: Orders<'a, G>,
    book: Book<D>,
    room: RunRoom<'a, K, N>,
    accepted: Blank,
    refused: Blank,
) -> LiveEnd<D>
    requires opening { K.opened ≡ opening_of D.faults book }
    requires sound { KeepsIn D.may_leave book.config book.history None book.journal }
    requires accepted { (accepted.name ≡ K.name) × (accepted.parts ≡ K.parts) × (K.parts ≡ all_parts) }
    requires refused { (refused.name ≡ N.name) × (refused.parts ≡ N.parts) × (N.parts ≡ all_parts) }
    requires cells { AreCells K.cells (map (λ c. c.id) orders.cells.now) }
    requires lines { ComeInOrder [] orders.lines.now }
    requires workers { (1 ≤ orders.workers) × (orders.workers ≤ 8) }
    requires asked { Each (IsAsked (length K.cells)) orders.lines.now }
    requires seats { (vec_len room.places + 1 ≡ room.lists.seats) × (room.lists.seats ≤ 16) }
    requires places { HaveRoom room.lists.seats orders.lines.now room.places.items }
    requires last { room.last ≡ length orders.lines.now }
    requires free { (room.lists.free.items ≡ []) × (room.lists.seats ≤ vec_capacity room.lists.free) }
    requires children { (room.lists.children.items ≡ []) × (room.lists.seats ≤ vec_capacity room.lists.children) }
    requires ended { (room.lists.ended.items ≡ []) × (room.lists.seats ≤ vec_capacity room.lists.ended) }
    requires rests { (room.lists.rests.items ≡ []) × (room.lists.seats ≤ vec_capacity room.lists.rests) }
    requires steps { (room.lists.steps.items ≡ []) × (room.lists.seats ≤ vec_capacity room.lists.steps) }
    requires table { length room.joint.table ≡ length K.cells }
    requires replies { HasRooms orders.lines.now room.joint.replies.queues.items room.joint.replies.joined }
    requires marks { (vec_len room.joint.marks ≡ 0) × (length orders.lines.now ≤ vec_capacity room.joint.marks) }
    ensures { EndsLive D.may_leave D.faults book orders.entry.lines.now result.ended result.book }
{
    let RunRoom {
        places,
        last,
        lists,
        joint,
    } = room;
    let LaneLists {
        seats,
        free,
        children,
        ended,
        rests,
        steps,
    } = lists;
    let _ = book.history();
    let from = book.number();
    let MadeLive { live, mut share } = Live::new(book, accepted, refused);
    let free = sit_all(places, free, &mut share);
    let last = last.sit(share);
    let around = Around::new(
        orders.alloc,
        &live,
        orders.cells,
        orders.gate,
        orders.workers,
    );
    let work = Work {
        around: &around,
        lines: orders.lines,
        start: orders.start,
        room: LaneRoom { children, ended },
        free,
        last,
        seats,
    };
    let done = run_lanes(rt, work);
    let (rests, all) = leave_all(done, rests);
    let book = live.settle(all);
    gather(rt, book, rests, steps, joint, orders.lines, from)
}

/// Makes all that a run needs, and runs its lanes.
fn run_named<
    'a,
    R: Threads + Wait + Sync,
    K: Opening + Row + Send + Sync,
    N: Ledger + Send + Sync,
    D: Disk + Send,
    G: Gate + Sync,
>(
    rt: &R,
    orders: Orders<'a, G>,
    mut book: Book<D>,
    passes: Passes<Published>,
    accepted: Blank,
    refused: Blank,
) -> LiveEnd<D>
    requires some { 0 < length passes }
    requires gates { All (λ p. p.gate ≡ K.opened.gate) passes }
    requires opening { K.opened ≡ opening_of D.faults book }
    requires sound { KeepsIn D.may_leave book.config book.history None book.journal }
    requires accepted { (accepted.name ≡ K.name) × (accepted.parts ≡ K.parts) × (K.parts ≡ all_parts) }
    requires refused { (refused.name ≡ N.name) × (refused.parts ≡ N.parts) × (N.parts ≡ all_parts) }
    requires cells { AreCells K.cells (map (λ c. c.id) orders.cells.now) }
    requires lines { ComeInOrder [] orders.lines.now }
    requires workers { (1 ≤ orders.workers) × (orders.workers ≤ 8) }
    requires under { Each (IsUnder (length orders.cells.now)) orders.lines.now }
    ensures { EndsLive D.may_leave D.faults book orders.entry.lines.now result.ended result.book }
{
    match make_room::<K, N, D>(
        orders.alloc,
        &mut book,
        passes,
        orders.lines,
        orders.cells.len(),
    ) {
        Err(_) => LiveEnd {
            book,
            ended: Err(Memory),
        },
        Ok(room) => run_in(rt, orders, book, room, accepted, refused),
    }
}

/// Runs the sessions of a script at once, each in a lane of the passes; the lanes are threads where threads can be
/// made, and one of them is the caller. The replies are legal beside the book's history, whatever the order in which
/// the lanes got the lock and entered versions. Want of memory comes only before the first line is run. It may wait
/// for its own lanes, and keeps its promise if it returns.
///
/// The passes, of which there is at least one, are of the book's gate; nothing in the book's journal is in doubt; the
/// lines come in order. There are 1 to 8 workers. When a line is answered, the number that its lane has then seen is
/// noted for it, and only then is the gate told. An `after` waits for the line that it names.
pub fn run_live<R: Threads + Wait + Sync, D: Disk + Send, G: Gate + Sync>(
    rt: &R,
    alloc: Global,
    book: Book<D>,
    passes: Passes<Published>,
    lines: &Lines,
    workers: u32,
    gate: &G,
) -> LiveEnd<D>
    requires some { 0 < length passes }
    requires gates { All (λ p. p.gate ≡ book.gate) passes }
    requires sound { KeepsIn D.may_leave book.config book.history None book.journal }
    requires lines { ComeInOrder [] lines.now }
    requires workers { (1 ≤ workers) × (workers ≤ 8) }
    ensures { EndsLive D.may_leave D.faults book lines.now result.ended result.book }
{
    let start = OnceLock::new();
    match make_cells(alloc, count_cells(lines)) {
        Err(_) => LiveEnd {
            book,
            ended: Err(Memory),
        },
        Ok(cells) => run_named::<R, Brand, Brand, D, G>(
            rt,
            Orders {
                alloc,
                lines,
                cells: cells.as_slice(),
                start: &start,
                gate,
                workers,
            },
            book,
            passes,
            Blank::new(u64::from(SESSIONS)),
            Blank::new(u64::from(SESSIONS)),
        ),
    }
}
