//! The lanes of a run: threads of their own, and the caller.
ghost use Rattle.std.specs.Prelude.{◌≡◌, ℕ, get_or, ◌+◌, ◌<◌, ◌≤◌, [], length, map, vec_len, vec_capacity};
ghost use Rattle.live_seats.specs.session_core.Legal.{lines_in};
ghost use Rattle.live_seats.specs.session_core.Worlds.{Each};
ghost use Rattle.live_seats.specs.live_laws.Lanes.{turns_of};
ghost use Rattle.std.specs.Thread.{IsSend, IsSync};
ghost use Rattle.live_seats.specs.Inner.Seats.{IsAsked, lines_of};
ghost use Rattle.live_seats.specs.declared.lane.Lane.TheVariants as lane_kinds;
ghost use Rattle.live_run.specs.Inner.Running.{AreFree, AreIdle, HasTaken, HaveLanes, IsThread, IsFree, parts_of, thread_lines};

use emu_disk::Disk;
use emu_io::Gate;
use live_seats::live_book::Opening;
use live_seats::session_core::Lines;
use live_seats::{Around, Lane, Row, Seat};
use std::sync::ledger::Ledger;
use std::sync::{OnceLock, OnceToken, Wait};
use std::thread;
use std::thread::{Promise, PromisedHandle, Threads};

/// How many threads were made, one for each of the first seats.
#[derive(Drop)]
pub(crate) struct Start {
    made: u32,
}

/// Tells how many threads were made.
fn tell_start<'a, R: Wait>(rt: &R, start: &'a OnceLock<Start>, made: u32) -> OnceToken<'a, Start>
    ensures of { result.of ≡ start.now.id }
    ensures made { result.value.made ≡ made }
{
    for _ in rt.forever() {
        if let Ok(token) = start.set(rt, Start { made }) {
            return token;
        }
    }
    unreachable!()
}

/// Waits until it is told how many threads were made.
fn hear_start<'a, R: Wait>(rt: &R, start: &'a OnceLock<Start>) -> OnceToken<'a, Start>
    ensures { result.of ≡ start.now.id }
{
    for _ in rt.forever() {
        start.wait(rt);
        if let Some(token) = start.witness() {
            return token;
        }
    }
    unreachable!()
}

/// A seat whose thread has ended, with what shows how many threads were made.
#[derive(Drop)]
pub(crate) struct Ran<'a, K: Opening + Row, N: Ledger> {
    seat: Seat<'a, K, N>,
    token: OnceToken<'a, Start>,
}

/// What the thread of a seat promises: it has answered the lines of the seat, where it is one of the threads that
/// were made.
#[derive(Clone, Copy)]
pub(crate) struct LaneOf<'a> {
    lines: &'a Lines,
    start: &'a OnceLock<Start>,
    seats: u32,
    seat: u32,
}

impl<'a, K: Opening + Row, N: Ledger> Promise<Ran<'a, K, N>> for LaneOf<'a> {
    ghost kept_by = { λ p r. (r.token.of ≡ p.start.now.id)
        × HasTaken (thread_lines p.seats p.seat r.token.value.made p.lines.now) r.seat };
}

/// What a thread of a seat gives back when it is joined.
pub(crate) type Child<'a, K, N> = PromisedHandle<Ran<'a, K, N>, LaneOf<'a>>;

/// A seat with the lane whose lines it is to answer.
#[derive(Drop)]
struct Job<'a, 'l, K: Opening + Row, N: Ledger, D: Disk, G: Gate> {
    around: &'l Around<'a, 'l, K, N, D, G>,
    lane: LaneOf<'a>,
    seat: Seat<'a, K, N>,
}

/// Waits until it is told how many threads were made, and answers the lines of a seat, if it is one of them.
fn run_job<'a, R: Threads + Wait + Sync, K: Opening + Row, N: Ledger, D: Disk, G: Gate + Sync>(
    rt: &R,
    job: Job<'a, '_, K, N, D, G>,
) -> Ran<'a, K, N>
    requires free { IsFree (lane_kinds.Seat job.lane.seats job.lane.seat) job.lane.lines.now job.seat }
    requires asked { Each (IsAsked (length K.cells)) job.lane.lines.now }
    ensures of { result.token.of ≡ job.entry.lane.start.now.id }
    ensures taken { HasTaken (thread_lines job.entry.lane.seats job.entry.lane.seat result.token.value.made
        job.entry.lane.lines.now) result.seat }
{
    let Job {
        around,
        lane,
        mut seat,
    } = job;
    let token = hear_start(rt, lane.start);
    if lane.seat < lane.start.value(&token).made {
        seat.take_lines(
            rt,
            around,
            lane.lines,
            Lane::Seat {
                seats: lane.seats,
                seat: lane.seat,
            },
        );
        return Ran { seat, token };
    }
    Ran { seat, token }
}

/// Calls a closure in this thread.
fn call_here<F: FnOnce() -> T, T>(f: F) -> T
    requires { F.pre f }
    ensures { F.post f result }
{
    f()
}

/// Lists with room for what a run makes.
#[derive(Drop)]
pub(crate) struct LaneRoom<'a, K: Opening + Row, N: Ledger> {
    pub(crate) children: Vec<Child<'a, K, N>>,
    pub(crate) ended: Vec<Seat<'a, K, N>>,
}

/// Ends the lanes: joins the threads.
fn end_lanes<'a, R: Threads + Wait + Sync, K: Opening + Row, N: Ledger>(
    rt: &R,
    children: Vec<Child<'a, K, N>>,
    token: OnceToken<'a, Start>,
    seats: u32,
    lines: &'a Lines,
    last: Seat<'a, K, N>,
    idle: Vec<Seat<'a, K, N>>,
    ended: Vec<Seat<'a, K, N>>,
) -> Vec<Seat<'a, K, N>>
    requires made { (token.value.made ≡ vec_len children) × (vec_len children + 1 + vec_len idle ≡ seats) }
    requires children { (k : ℕ) (d : _) → k < vec_len children
        → IsThread token.of seats lines.now k (get_or children.items k d).promise }
    requires last { lines_in (turns_of last.steps) ≡ lines_of (lane_kinds.Rest seats (vec_len children)) lines.now }
    requires idle { AreIdle idle.items }
    requires ended { (ended.items ≡ []) × (seats ≤ vec_capacity ended) }
    ensures run { HaveLanes seats lines.now (map (λ s. s.steps) result.items) }
    ensures parts { parts_of result.items + 1 ≡ seats + last.entry.count.parts }
{
    let mut ended = ended;
    for child in children {
        let Ran {
            seat,
            token: theirs,
        } = child.join(rt);
        theirs.agrees(&token);
        ended.push_reserved(seat);
    }
    ended.push_reserved(last);
    for seat in idle {
        ended.push_reserved(seat);
    }
    ended
}

/// What the lanes of a run work on.
#[derive(Drop)]
pub(crate) struct Work<'a, 'l, K: Opening + Row, N: Ledger, D: Disk, G: Gate> {
    pub(crate) around: &'l Around<'a, 'l, K, N, D, G>,
    pub(crate) lines: &'a Lines,
    pub(crate) start: &'a OnceLock<Start>,
    pub(crate) room: LaneRoom<'a, K, N>,
    pub(crate) free: Vec<Seat<'a, K, N>>,
    pub(crate) last: Seat<'a, K, N>,
    pub(crate) seats: u32,
}

/// Runs the lanes of a script.
pub(crate) fn run_lanes<
    'a,
    'l,
    R: Threads + Wait + Sync,
    K: Opening + Row + Send + Sync,
    N: Ledger + Send + Sync,
    D: Disk + Send,
    G: Gate + Sync,
>(rt: &'l R, work: Work<'a, 'l, K, N, D, G>) -> Vec<Seat<'a, K, N>>
    requires count { (vec_len work.free < 16) × (work.seats ≡ vec_len work.free + 1) }
    requires free { AreFree work.seats work.lines.now work.free.items }
    requires last { (work.last.steps ≡ []) × (length work.lines.now ≤ work.last.room) }
    requires children { (work.room.children.items ≡ []) × (vec_len work.free ≤ vec_capacity work.room.children) }
    requires ended { (work.room.ended.items ≡ []) × (vec_len work.free < vec_capacity work.room.ended) }
    requires asked { Each (IsAsked (length K.cells)) work.lines.now }
    ensures run { HaveLanes work.entry.seats work.entry.lines.now (map (λ s. s.steps) result.items) }
    ensures parts { parts_of result.items + 1 ≡ work.entry.seats + work.entry.last.count.parts }
{
    thread::scope(
        thread::scope_env(),
        rt,
        move |scope| -> Vec<Seat<'_, K, N>>
            requires bounds { IsSync R.row × IsSend K.row × IsSync K.row × IsSend N.row × IsSync N.row × IsSend D.row
                × IsSync G.row }
            requires count { (vec_len work.free < 16) × (work.seats ≡ vec_len work.free + 1) }
            requires free { AreFree work.seats work.lines.now work.free.items }
            requires last { (work.last.steps ≡ []) × (length work.lines.now ≤ work.last.room) }
            requires children { (work.room.children.items ≡ [])
                × (vec_len work.free ≤ vec_capacity work.room.children) }
            requires ended { (work.room.ended.items ≡ []) × (vec_len work.free < vec_capacity work.room.ended) }
            requires asked { Each (IsAsked (length K.cells)) work.lines.now }
            ensures run { HaveLanes work.entry.seats work.entry.lines.now (map (λ s. s.steps) result.items) }
            ensures parts { parts_of result.items + 1 ≡ work.entry.seats + work.entry.last.count.parts }
        {
            let whole = work;
            let Work {
                around,
                lines,
                start,
                room,
                mut free,
                mut last,
                seats,
            } = whole;
            let LaneRoom {
                mut children,
                ended,
            } = room;
            let mut made = 0;
            while let Some(seat) = free.pop() {
                let lane = LaneOf {
                    lines,
                    start,
                    seats,
                    seat: made,
                };
                let job = Job { around, lane, seat };
                let run = move || -> Ran<'_, K, N>
                    requires free { IsFree (lane_kinds.Seat job.lane.seats job.lane.seat) job.lane.lines.now job.seat }
                    requires asked { Each (IsAsked (length K.cells)) job.lane.lines.now }
                    ensures of { result.token.of ≡ job.entry.lane.start.now.id }
                    ensures taken { HasTaken (thread_lines job.entry.lane.seats job.entry.lane.seat
                        result.token.value.made job.entry.lane.lines.now) result.seat }
                { run_job(rt, job) };
                match scope.spawn_with(lane, run) {
                    Ok(child) => {
                        children.push_reserved(child);
                        made += 1;
                    }
                    Err(refused) => {
                        let token = tell_start(rt, start, made);
                        let ran = call_here(refused.value);
                        ran.token.agrees(&token);
                        free.push_reserved(ran.seat);
                        last.take_lines(rt, around, lines, Lane::Rest { seats, made });
                        return end_lanes(rt, children, token, seats, lines, last, free, ended);
                    }
                }
            }
            let token = tell_start(rt, start, made);
            last.take_lines(rt, around, lines, Lane::Rest { seats, made });
            end_lanes(rt, children, token, seats, lines, last, free, ended)
        },
    )
}
