//! All that a run makes before its first line: want of memory comes then only.
ghost use Rattle.std.specs.Prelude.{◌≡◌, ◌+◌, ◌<◌, ◌≤◌, [], All, IfOk, length, vec_capacity, vec_len};
ghost use Rattle.live_run.specs.Inner.Grouping.{HasRooms};
ghost use Rattle.live_run.specs.Inner.Running.{HaveRoom};

use crate::ending::Rest;
use crate::grouping::Rooms;
use crate::lanes::Child;
use crate::places::{Place, make_last, make_places};
use emu_disk::Disk;
use emu_names::Memory;
use emu_names::limits::SESSIONS;
use live_seats::live_book::{Book, Opening, Published};
use live_seats::session_core::Lines;
use live_seats::{Answered, Mark, Row, Seat, Table, mark_room};
use std::alloc::Global;
use std::sync::ledger::Ledger;
use version_gate::Passes;

/// Empty lists, with room for what is made of each lane.
#[derive(Drop)]
pub(crate) struct LaneLists<'a, K: Opening + Row, N: Ledger> {
    pub(crate) seats: u32,
    pub(crate) free: Vec<Seat<'a, K, N>>,
    pub(crate) children: Vec<Child<'a, K, N>>,
    pub(crate) ended: Vec<Seat<'a, K, N>>,
    pub(crate) rests: Vec<Rest<'a, K>>,
    pub(crate) steps: Vec<Vec<Answered<'a, K>>>,
}

/// Empty lists with room for so many lanes. The only refusal is want of memory.
fn make_lists<'a, K: Opening + Row, N: Ledger>(
    alloc: Global,
    seats: u32,
) -> Result<LaneLists<'a, K, N>, Memory>
    ensures seats { IfOk result (λ l. l.seats ≡ seats) }
    ensures free { IfOk result (λ l. (l.free.items ≡ []) × (seats ≤ vec_capacity l.free)) }
    ensures children { IfOk result (λ l. (l.children.items ≡ []) × (seats ≤ vec_capacity l.children)) }
    ensures ended { IfOk result (λ l. (l.ended.items ≡ []) × (seats ≤ vec_capacity l.ended)) }
    ensures rests { IfOk result (λ l. (l.rests.items ≡ []) × (seats ≤ vec_capacity l.rests)) }
    ensures steps { IfOk result (λ l. (l.steps.items ≡ []) × (seats ≤ vec_capacity l.steps)) }
{
    let room = seats as usize;
    let free = Vec::with_capacity(alloc, room)?;
    let children = Vec::with_capacity(alloc, room)?;
    let ended = Vec::with_capacity(alloc, room)?;
    let rests = Vec::with_capacity(alloc, room)?;
    let steps = Vec::with_capacity(alloc, room)?;
    Ok(LaneLists {
        seats,
        free,
        children,
        ended,
        rests,
        steps,
    })
}

/// What joins the answers of all lanes: a table of what was noted for lines, and room for replies and marks.
#[derive(Drop)]
pub(crate) struct Joint<'a, K: Opening + Row> {
    pub(crate) table: Table<'a, K>,
    pub(crate) replies: Rooms,
    pub(crate) marks: Vec<Mark>,
}

/// What joins the answers to these lines. The only refusal is want of memory.
fn make_joint<'a, K: Opening + Row>(
    alloc: Global,
    lines: &Lines,
    cells: usize,
) -> Result<Joint<'a, K>, Memory>
    ensures table { IfOk result (λ j. length j.table ≡ cells) }
    ensures replies { IfOk result (λ j. HasRooms lines.now j.replies.queues.items j.replies.joined) }
    ensures marks { IfOk result (λ j. (vec_len j.marks ≡ 0) × (length lines.now ≤ vec_capacity j.marks)) }
{
    let table = Table::new(alloc, cells)?;
    let replies = Rooms::new(alloc, lines)?;
    let marks = mark_room(alloc, lines.len())?;
    Ok(Joint {
        table,
        replies,
        marks,
    })
}

/// How many lanes a run has: as many as there are passes, and no more than the highest session of its lines.
fn count_seats(passes: &Passes<Published>, lines: &Lines) -> u32
    requires { 0 < length passes.now }
    ensures some { 0 < result }
    ensures passes { result ≤ length passes.now }
    ensures few { result ≤ 16 }
{
    let mut seats = 1;
    for line in lines.as_slice() {
        if seats < line.session.0 && line.session.0 <= SESSIONS {
            seats = line.session.0;
        }
    }
    if passes.len() < seats as usize {
        return passes.len() as u32;
    }
    seats
}

/// All that a run makes before its first line.
#[derive(Drop)]
pub(crate) struct RunRoom<'a, K: Opening + Row, N: Ledger> {
    pub(crate) places: Vec<Place<'a, K>>,
    pub(crate) last: Place<'a, K>,
    pub(crate) lists: LaneLists<'a, K, N>,
    pub(crate) joint: Joint<'a, K>,
}

/// Makes all that a run of these lines needs. The passes are of the gate of the book, which is at the opening that `K`
/// names. The only refusal is want of memory, which leaves the book as it was.
pub(crate) fn make_room<'a, K: Opening + Row, N: Ledger, D: Disk>(
    alloc: Global,
    book: &mut Book<D>,
    mut passes: Passes<Published>,
    lines: &Lines,
    cells: usize,
) -> Result<RunRoom<'a, K, N>, Memory>
    requires some { 0 < length passes }
    requires gates { All (λ p. p.gate ≡ K.opened.gate) passes }
    requires opening { (book.old.gate ≡ K.opened.gate) × (book.old.history ≡ K.opened.entries) }
    ensures same { book.new ≡ book.old }
    ensures seats { IfOk result (λ r. (vec_len r.places + 1 ≡ r.lists.seats) × (r.lists.seats ≤ 16)) }
    ensures places { IfOk result (λ r. HaveRoom r.lists.seats lines.now r.places.items) }
    ensures last { IfOk result (λ r. r.last ≡ length lines.now) }
    ensures free { IfOk result (λ r. (r.lists.free.items ≡ []) × (r.lists.seats ≤ vec_capacity r.lists.free)) }
    ensures children { IfOk result (λ r. (r.lists.children.items ≡ [])
        × (r.lists.seats ≤ vec_capacity r.lists.children)) }
    ensures ended { IfOk result (λ r. (r.lists.ended.items ≡ []) × (r.lists.seats ≤ vec_capacity r.lists.ended)) }
    ensures rests { IfOk result (λ r. (r.lists.rests.items ≡ []) × (r.lists.seats ≤ vec_capacity r.lists.rests)) }
    ensures steps { IfOk result (λ r. (r.lists.steps.items ≡ []) × (r.lists.seats ≤ vec_capacity r.lists.steps)) }
    ensures table { IfOk result (λ r. length r.joint.table ≡ cells) }
    ensures replies { IfOk result (λ r. HasRooms lines.now r.joint.replies.queues.items r.joint.replies.joined) }
    ensures marks { IfOk result (λ r. (vec_len r.joint.marks ≡ 0) × (length lines.now ≤ vec_capacity r.joint.marks)) }
{
    let seats = count_seats(&passes, lines);
    let lists = make_lists(alloc, seats)?;
    let joint = make_joint(alloc, lines, cells)?;
    let places = make_places(alloc, book, &mut passes, lines, seats)?;
    let last = make_last(alloc, book, &mut passes, lines)?;
    Ok(RunRoom {
        places,
        last,
        lists,
        joint,
    })
}
