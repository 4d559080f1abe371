//! The end of a run: the shares are put together, and when the book is settled each pass learns all that was published.
ghost use Rattle.std.specs.Prelude.{◌≡◌, ◌+◌, ◌<◌, ◌≤◌, [], map, vec_capacity, vec_len};
ghost use mathlib.Core.List.{IsPrefix};
ghost use Rattle.live_seats.specs.session_core.Legal.{disk_replies, replies_in};
ghost use Rattle.live_seats.specs.session_core.Worlds.{Each};
ghost use Rattle.live_seats.specs.live_laws.Lanes.{accepts, turns_of};
ghost use Rattle.live_run.specs.Inner.Running.{HasEnded, accepts_in, parts_of, refuses_in, with_seat};

use emu_disk::Disk;
use live_seats::live_book::{Book, Opening, Published, Share};
use live_seats::{Answered, Row, Seat, SeatEnd};
use std::marker::Model;
use std::sync::Wait;
use std::sync::ledger::Ledger;
use version_gate::Pass;

/// What is left of a seat that has given its share back: its pass, and the lines that it answered.
#[derive(Drop)]
pub(crate) struct Rest<'a, K: Opening + Row> {
    pass: Pass<Published>,
    steps: Vec<Answered<'a, K>>,
}

impl<'a, K: Opening + Row> Model for Rest<'a, K> {
    ghost use Rattle.std.specs.Prelude.{◌≡◌};
    ghost use Rattle.std.specs.Coded.{codes};
    ghost use Rattle.eql_resolve.specs.Inner.Codes.{tree_code};
    ghost use Rattle.live_run.specs.Inner.Running.{IsRest, RestParts, rest_of};

    ghost Value = { RestParts };

    ghost coded = { Prim.hlevel (codes, tree_code) };

    ghost view = { λ r. rest_of r.pass.list r.steps.items };

    ghost invariant = { λ r. (r.pass.gate ≡ K.opened.gate) × IsRest K.opened (rest_of r.pass.list r.steps.items) };
}

/// Takes a seat's share in, and gives what is left of the seat.
fn leave<'a, K: Opening + Row, N: Ledger>(
    seat: Seat<'a, K, N>,
    all: &mut Share<K, N>,
) -> Rest<'a, K>
    ensures steps { result.steps ≡ seat.entry.steps }
    ensures all { all.new ≡ with_seat all.old seat.entry }
{
    let SeatEnd { pass, share, steps } = seat.into_parts();
    all.merge(share);
    Rest { pass, steps }
}

/// Puts the shares of all seats together, and gives what is left of them, in their order.
pub(crate) fn leave_all<'a, K: Opening + Row, N: Ledger>(
    mut seats: Vec<Seat<'a, K, N>>,
    mut rests: Vec<Rest<'a, K>>,
) -> (Vec<Rest<'a, K>>, Share<K, N>)
    requires some { 0 < vec_len seats }
    requires room { (rests.items ≡ []) × (vec_len seats ≤ vec_capacity rests) }
    ensures steps { map (λ r. r.steps) result.0.items ≡ map (λ s. s.steps) seats.entry.items }
    ensures len { vec_len result.0 ≡ vec_len seats.entry }
    ensures parts { result.1.parts ≡ parts_of seats.entry.items }
    ensures accepted { result.1.accepted ≡ accepts_in (map (λ s. s.steps) seats.entry.items) }
    ensures refused { result.1.refused ≡ refuses_in (map (λ s. s.steps) seats.entry.items) }
{
    let (last, mut all) = leave_first(seats.take_last());
    for seat in seats {
        rests.push_reserved(leave(seat, &mut all));
    }
    rests.push_reserved(last);
    (rests, all)
}

/// What is left of a seat, and its share.
fn leave_first<'a, K: Opening + Row, N: Ledger>(seat: Seat<'a, K, N>) -> (Rest<'a, K>, Share<K, N>)
    ensures steps { result.0.steps ≡ seat.entry.steps }
    ensures parts { result.1.parts ≡ seat.entry.count.parts }
    ensures accepted { result.1.accepted ≡ accepts (turns_of seat.entry.steps) }
    ensures refused { result.1.refused ≡ disk_replies (replies_in (turns_of seat.entry.steps)) }
{
    let SeatEnd { pass, share, steps } = seat.into_parts();
    (Rest { pass, steps }, share)
}

/// Lets a pass learn all that a book has published. It tries until the pass has learnt it: it keeps its promise if it
/// returns.
fn learn_all<R: Wait, D: Disk>(rt: &R, book: &mut Book<D>, pass: &mut Pass<Published>)
    requires gate { book.old.gate ≡ pass.old.gate }
    ensures same { book.new ≡ book.old }
    ensures begins { IsPrefix pass.old.list book.old.list }
{
    for _ in rt.forever() {
        if book.catch_up(pass) {
            return;
        }
    }
    unreachable!()
}

/// Lets the pass of a seat learn all that was published, and gives the lines that the seat answered.
fn finish<'a, R: Wait, K: Opening + Row, D: Disk>(
    rt: &R,
    book: &mut Book<D>,
    rest: Rest<'a, K>,
) -> Vec<Answered<'a, K>>
    requires gate { book.old.gate ≡ K.opened.gate }
    ensures same { book.new ≡ book.old }
    ensures steps { result.items ≡ rest.entry.steps }
    ensures ended { HasEnded K.opened book.old.list result.items }
{
    let Rest { mut pass, steps } = rest;
    learn_all(rt, book, &mut pass);
    steps
}

/// Lets the passes of all seats learn all that was published, and gives the lines that each seat answered, in their order.
pub(crate) fn finish_all<'a, R: Wait, K: Opening + Row, D: Disk>(
    rt: &R,
    book: &mut Book<D>,
    rests: Vec<Rest<'a, K>>,
    mut lanes: Vec<Vec<Answered<'a, K>>>,
) -> Vec<Vec<Answered<'a, K>>>
    requires gate { book.old.gate ≡ K.opened.gate }
    requires room { (lanes.items ≡ []) × (vec_len rests ≤ vec_capacity lanes) }
    ensures same { book.new ≡ book.old }
    ensures steps { map (λ v. v.items) result.items ≡ map (λ r. r.steps) rests.entry.items }
    ensures ended { Each (HasEnded K.opened book.old.list) (map (λ v. v.items) result.items) }
{
    for rest in rests {
        lanes.push_reserved(finish(rt, book, rest));
    }
    lanes
}
