//! Places of lanes, which are made before the first line is run: want of memory comes then only.
ghost use Rattle.std.specs.Prelude.{◌≡◌, ◌+◌, ◌<◌, ◌≤◌, [], All, IfOk, length, map, vec_capacity, vec_len};
ghost use Rattle.live_seats.specs.session_core.Worlds.{Each};
ghost use Rattle.live_run.specs.Inner.Running.{HasSeen, HaveRoom, IsFresh};

use emu_disk::Disk;
use emu_names::Memory;
use live_seats::live_book::{Book, Opening, Published, Share};
use live_seats::session_core::{KeptActs, Lines, Slots};
use live_seats::{Answered, Lane, Look, Row, Seat};
use std::alloc::Global;
use std::marker::Model;
use std::sync::ledger::Ledger;
use version_gate::{Pass, Passes};

/// A seat without its share: a pass, the looks of its sessions, of which none is open, room for what takes changes
/// back, and room for lines. Contracts see for how many lines there is room.
#[derive(Drop)]
pub(crate) struct Place<'a, K: Opening + Row> {
    pass: Pass<Published>,
    looks: Slots<Look<'a>>,
    kept: KeptActs,
    steps: Vec<Answered<'a, K>>,
}

impl<'a, K: Opening + Row> Model for Place<'a, K> {
    ghost use Rattle.std.specs.Prelude.{◌≡◌, ℕ, [], None, length, replicate, vec_capacity};
    ghost use Rattle.live_seats.specs.session_core.Steps.{session_places};
    ghost use Rattle.live_run.specs.Inner.Running.{HasSeen};

    ghost Value = { ℕ };

    ghost view = { λ p. vec_capacity p.steps };

    ghost invariant = { λ p. (p.pass.gate ≡ K.opened.gate) × HasSeen (length K.opened.entries) p.pass.list
        × (p.looks ≡ replicate session_places None) × (p.kept.acts ≡ []) × (p.steps.items ≡ []) };
}

impl<'a, K: Opening + Row> Place<'a, K> {
    /// A place with room for so many lines, of which so many ask for a change. The only refusal is want of memory.
    fn new(
        alloc: Global,
        pass: Pass<Published>,
        lines: usize,
        changes: usize,
    ) -> Result<Place<'a, K>, Memory>
        requires gate { pass.gate ≡ K.opened.gate }
        requires seen { HasSeen (length K.opened.entries) pass.list }
        ensures { IfOk result (λ place. place ≡ lines) }
    {
        let looks = Slots::new(alloc)?;
        let kept = KeptActs::with_room(alloc, changes)?;
        let steps = Vec::with_capacity(alloc, lines)?;
        Ok(Place {
            pass,
            looks,
            kept,
            steps,
        })
    }

    /// The seat that has this share.
    pub(crate) fn sit<N: Ledger>(self, share: Share<K, N>) -> Seat<'a, K, N>
        requires share { (0 < share.parts) × (share.accepted ≡ 0) × (share.refused ≡ 0) }
        ensures steps { result.steps ≡ [] }
        ensures room { result.room ≡ self.entry }
        ensures parts { result.count.parts ≡ share.parts }
    {
        let Place {
            pass,
            looks,
            kept,
            steps,
        } = self;
        Seat::new(pass, share, looks, kept, steps)
    }
}

/// Lets a pass learn what a book has published, so that it has seen all entries of the book.
fn teach<D: Disk>(book: &mut Book<D>, pass: &mut Pass<Published>)
    requires gate { book.old.gate ≡ pass.old.gate }
    ensures same { book.new ≡ book.old }
    ensures gate { pass.new.gate ≡ pass.old.gate }
    ensures seen { HasSeen (length book.old.history) pass.new.list }
{
    pass.learn(book.tell());
    let _ = pass.seen();
}

/// A place whose pass has seen all entries of a book, with room for so many lines, of which so many ask for a change.
/// The only refusal is want of memory.
fn make_place<'a, K: Opening + Row, D: Disk>(
    alloc: Global,
    book: &mut Book<D>,
    mut pass: Pass<Published>,
    lines: usize,
    changes: usize,
) -> Result<Place<'a, K>, Memory>
    requires gate { pass.gate ≡ K.opened.gate }
    requires opening { (book.old.gate ≡ K.opened.gate) × (book.old.history ≡ K.opened.entries) }
    ensures same { book.new ≡ book.old }
    ensures room { IfOk result (λ place. place ≡ lines) }
{
    teach(book, &mut pass);
    Place::new(alloc, pass, lines, changes)
}

/// The last of passes of one gate, of which there is one.
fn take_pass<K: Opening>(passes: &mut Passes<Published>) -> Pass<Published>
    requires some { 0 < length passes.old }
    requires gates { All (λ p. p.gate ≡ K.opened.gate) passes.old }
    ensures gate { result.gate ≡ K.opened.gate }
    ensures gates { All (λ p. p.gate ≡ K.opened.gate) passes.new }
    ensures len { length passes.new + 1 ≡ length passes.old }
{
    match passes.pop() {
        Some(pass) => pass,
        None => unreachable!(),
    }
}

/// Places for all lanes but the last one, in falling order, with room for the lines of each. The only refusal is want
/// of memory.
pub(crate) fn make_places<'a, K: Opening + Row, D: Disk>(
    alloc: Global,
    book: &mut Book<D>,
    passes: &mut Passes<Published>,
    lines: &Lines,
    seats: u32,
) -> Result<Vec<Place<'a, K>>, Memory>
    requires some { (0 < seats) × (seats ≤ length passes.old) }
    requires gates { All (λ p. p.gate ≡ K.opened.gate) passes.old }
    requires opening { (book.old.gate ≡ K.opened.gate) × (book.old.history ≡ K.opened.entries) }
    ensures same { book.new ≡ book.old }
    ensures gates { All (λ p. p.gate ≡ K.opened.gate) passes.new }
    ensures left { IfOk result (λ places. 0 < length passes.new) }
    ensures len { IfOk result (λ places. vec_len places + 1 ≡ seats) }
    ensures room { IfOk result (λ places. HaveRoom seats lines.now places.items) }
{
    let mut places = Vec::with_capacity(alloc, seats as usize)?;
    for at in 1..seats {
        let lane = Lane::Seat {
            seats,
            seat: seats - 1 - at,
        };
        let pass = take_pass::<K>(passes);
        let count = lane.count(lines);
        let place = make_place(alloc, book, pass, count, lane.count_changes(lines))?;
        places.push_reserved(place);
    }
    Ok(places)
}

/// The place of the last lane, with room for all lines. The only refusal is want of memory.
pub(crate) fn make_last<'a, K: Opening + Row, D: Disk>(
    alloc: Global,
    book: &mut Book<D>,
    passes: &mut Passes<Published>,
    lines: &Lines,
) -> Result<Place<'a, K>, Memory>
    requires some { 0 < length passes.old }
    requires gates { All (λ p. p.gate ≡ K.opened.gate) passes.old }
    requires opening { (book.old.gate ≡ K.opened.gate) × (book.old.history ≡ K.opened.entries) }
    ensures same { book.new ≡ book.old }
    ensures room { IfOk result (λ place. place ≡ length lines.now) }
{
    let pass = take_pass::<K>(passes);
    let all = Lane::Rest { seats: 1, made: 0 };
    make_place(alloc, book, pass, lines.len(), all.count_changes(lines))
}

/// The seats of places, in their order, each with one part of a share.
pub(crate) fn sit_all<'a, K: Opening + Row, N: Ledger>(
    places: Vec<Place<'a, K>>,
    mut seats: Vec<Seat<'a, K, N>>,
    share: &mut Share<K, N>,
) -> Vec<Seat<'a, K, N>>
    requires share { vec_len places < share.old.parts }
    requires room { (seats.items ≡ []) × (vec_len places ≤ vec_capacity seats) }
    ensures rooms { map (λ s. s.room) result.items ≡ places.entry.items }
    ensures fresh { Each IsFresh result.items }
    ensures len { vec_len result ≡ vec_len places.entry }
    ensures parts { share.new.parts + vec_len places.entry ≡ share.old.parts }
    ensures counts { (share.new.accepted ≡ share.old.accepted) × (share.new.refused ≡ share.old.refused) }
{
    for place in places {
        seats.push_reserved(place.sit(share.split()));
    }
    seats
}
