//! A seat: a pass, a share, the looks that are open in its sessions, what takes back the changes that it accepted, and
//! the lines that it answered.
ghost use Rattle.std.specs.Prelude.{◌≡◌, ℕ, ◌<◌, ◌≤◌, [], length, replicate, vec_capacity, None};
ghost use Rattle.version_gate.specs.Lists.{Numbered};
ghost use Rattle.live_laws.specs.Lanes.{turns_of};
ghost use Rattle.query_workers.specs.session_core.Legal.{lines_in};
ghost use Rattle.query_workers.specs.session_core.Steps.{session_places};
ghost use Rattle.query_workers.specs.session_core.Worlds.{Each};
ghost use Rattle.live_seats.specs.Inner.Seats.{IsAsked, IsBehindLine, IsSeat, lines_of};

use crate::answered::Answered;
use crate::around::Around;
use crate::lane::Lane;
use crate::line::take_line;
use crate::looks::Look;
use crate::notes::Row;
use emu_disk::Disk;
use emu_io::Gate;
use live_book::{Opening, Published, Share};
use query_workers::session_core::{KeptActs, Line, Lines, Slots};
use std::marker::Model;
use std::sync::Wait;
use std::sync::ledger::Ledger;
use std::thread::Threads;
use version_gate::Pass;

/// A pass, a share, the looks that are open in some sessions, what takes back the changes that these made, and their
/// lines that were answered.
#[derive(Drop)]
pub struct Seat<'a, K: Opening + Row, N: Ledger> {
    pass: Pass<Published>,
    share: Share<K, N>,
    looks: Slots<Look<'a>>,
    kept: KeptActs,
    steps: Vec<Answered<'a, K>>,
}

impl<'a, K: Opening + Row, N: Ledger> Model for Seat<'a, K, N> {
    ghost use Rattle.std.specs.Prelude.{◌≡◌, ◌-◌, vec_capacity, vec_len};
    ghost use Rattle.std.specs.Coded.{codes};
    ghost use Rattle.eql_resolve.specs.Inner.Codes.{tree_code};
    ghost use Rattle.live_seats.specs.Inner.Seats.{IsSeat, SeatParts, seat_of};

    ghost Value = { SeatParts };

    ghost coded = { Prim.hlevel (codes, tree_code) };

    ghost view = { λ s. seat_of s.pass.list s.share s.looks s.kept.acts s.steps.items
        (vec_capacity s.steps - vec_len s.steps) };

    ghost invariant = { λ s. (s.pass.gate ≡ K.opened.gate) × IsSeat K.opened
        (seat_of s.pass.list s.share s.looks s.kept.acts s.steps.items (vec_capacity s.steps - vec_len s.steps)) };
}

/// The parts of a seat whose lines are answered.
#[derive(Drop)]
pub struct SeatEnd<'a, K: Opening + Row, N: Ledger> {
    /// The pass.
    pub pass: Pass<Published>,
    /// What its lines were answered, counted.
    pub share: Share<K, N>,
    /// Its lines with their replies.
    pub steps: Vec<Answered<'a, K>>,
}

impl<'a, K: Opening + Row, N: Ledger> Seat<'a, K, N> {
    /// A seat that has answered no line.
    pub fn new(
        pass: Pass<Published>,
        share: Share<K, N>,
        looks: Slots<Look<'a>>,
        kept: KeptActs,
        steps: Vec<Answered<'a, K>>,
    ) -> Seat<'a, K, N>
        requires gate { pass.gate ≡ K.opened.gate }
        requires seen { (k : ℕ) × Numbered k pass.list × (length K.opened.entries ≤ k) }
        requires share { (0 < share.parts) × (share.accepted ≡ 0) × (share.refused ≡ 0) }
        requires looks { looks ≡ replicate session_places None }
        requires kept { kept.acts ≡ [] }
        requires steps { steps.items ≡ [] }
        ensures steps { result.steps ≡ [] }
        ensures room { result.room ≡ vec_capacity steps.entry }
        ensures count { result.count ≡ share }
        ensures list { result.list ≡ pass.list }
    {
        Seat {
            pass,
            share,
            looks,
            kept,
            steps,
        }
    }

    /// Answers one line, for which there is room.
    fn take<R: Threads + Wait + Sync, D: Disk, G: Gate + Sync>(
        &mut self,
        rt: &R,
        around: &Around<'a, '_, K, N, D, G>,
        line: &'a Line,
    )
        requires room { 0 < self.old.room }
        requires asked { IsAsked (length K.cells) line.now }
        ensures { IsBehindLine self.old line.entry.now self.new }
    {
        let answered = take_line(
            rt,
            around,
            &mut self.pass,
            &mut self.share,
            &mut self.looks,
            &mut self.kept,
            line,
        );
        let _seen = self.pass.seen();
        self.steps.push_reserved(answered);
    }

    /// Answers the lines of a lane, in their order.
    pub fn take_lines<R: Threads + Wait + Sync, D: Disk, G: Gate + Sync>(
        &mut self,
        rt: &R,
        around: &Around<'a, '_, K, N, D, G>,
        lines: &'a Lines,
        lane: Lane,
    )
        requires begun { self.old.steps ≡ [] }
        requires room { length (lines_of lane lines.now) ≤ self.old.room }
        requires asked { Each (IsAsked (length K.cells)) lines.now }
        ensures lines { lines_in (turns_of self.new.steps) ≡ lines_of lane lines.entry.now }
        ensures parts { self.new.count.parts ≡ self.old.count.parts }
    {
        for line in lines.as_slice() {
            if lane.takes(line) {
                self.take(rt, around, line);
            }
        }
    }

    /// The parts of a seat.
    pub fn into_parts(self) -> SeatEnd<'a, K, N>
        ensures list { result.pass.list ≡ self.entry.list }
        ensures gate { result.pass.gate ≡ K.opened.gate }
        ensures share { result.share ≡ self.entry.count }
        ensures steps { result.steps.items ≡ self.entry.steps }
        ensures kept { IsSeat K.opened self.entry }
    {
        let Seat {
            pass,
            share,
            looks: _,
            kept: _,
            steps,
        } = self;
        SeatEnd { pass, share, steps }
    }
}
