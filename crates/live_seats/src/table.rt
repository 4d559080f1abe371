//! The numbers that all lanes noted for lines, in one table.
ghost use Rattle.std.specs.Prelude.{◌≡◌, ◌<◌, None, Some, true, false, length, map, replicate, IfOk, IfSome};
ghost use Rattle.query_workers.specs.session_core.Legal.{lines_in};
ghost use Rattle.query_workers.specs.session_core.Steps.{put_slot, slot};
ghost use Rattle.query_workers.specs.session_core.Worlds.{Each};
ghost use Rattle.live_laws.specs.Lanes.{Agrees, all_steps, all_turns, turns_of};
ghost use Rattle.live_seats.specs.Inner.Notes.{IsTold, Note, noted_in};
ghost use Rattle.live_seats.specs.Inner.Seats.{IsAsked};
ghost use Rattle.live_seats.specs.Inner.Tables.{KeepsTelling, TellsStep};

use crate::answered::Answered;
use crate::notes::{Row, Told};
use emu_names::Memory;
use std::alloc::Global;
use std::marker::Model;

/// What lanes noted for the lines of a row, for each line that one told.
#[derive(Drop)]
pub struct Table<'a, K: Row> {
    told: Vec<Option<Told<'a, K>>>,
}

impl<'a, K: Row> Model for Table<'a, K> {
    ghost use Rattle.std.specs.Prelude.{ℕ, List, Option, map};
    ghost use Rattle.std.specs.Option.{option_map};
    ghost use Rattle.live_seats.specs.Inner.Notes.{noted_of};
    ghost use Rattle.live_seats.specs.Inner.Tables.{AreInPlace};

    ghost Value = { List (Option ℕ) };

    ghost view = { λ t. map (option_map noted_of) t.told.items };

    ghost invariant = { λ t. AreInPlace 0 t.told.items };
}

impl<'a, K: Row> Table<'a, K> {
    /// A table for so many lines, that tells of none. The only refusal is want of memory.
    pub fn new(alloc: Global, cells: usize) -> Result<Table<'a, K>, Memory>
        ensures { IfOk result (λ table. table ≡ replicate cells None) }
    {
        let mut told = Vec::with_capacity(alloc, cells)?;
        for _cell in 0..cells {
            told.push(None)?;
        }
        Ok(Table { told })
    }

    /// Whether the table tells of a line, and then it agrees with what another lane knows of it.
    fn knows(&self, told: &Told<'a, K>) -> bool
        requires { told.now.line < length self.now }
        ensures known { result ≡ true → IsTold self.now told.now }
        ensures unknown { result ≡ false → slot self.now told.now.line ≡ None }
    {
        match &self.told[told.line() as usize] {
            Some(there) => {
                there.agree(told);
                true
            }
            None => false,
        }
    }

    /// Puts down what was noted for a line.
    fn put(&mut self, told: &Told<'a, K>)
        requires { told.now.line < length self.old }
        ensures { self.new ≡ put_slot self.old told.now.line (Some told.now.noted) }
    {
        self.told[told.line() as usize] = Some(told.again());
    }

    /// Tells one number more. Where another lane told of its line already, the two agree.
    pub(crate) fn add(&mut self, told: &Told<'a, K>)
        requires { told.now.line < length self.old }
        ensures told { IsTold self.new told.now }
        ensures keeps { KeepsTelling self.old self.new }
    {
        if !self.knows(told) {
            self.put(told);
        }
    }

    /// Tells what was heard, where something was.
    fn add_heard(&mut self, heard: Option<&Told<'a, K>>)
        requires { IfSome heard (λ t. t.now.line < length self.old) }
        ensures told { IfSome heard.entry (λ t. IsTold self.new t.now) }
        ensures keeps { KeepsTelling self.old self.new }
    {
        match heard {
            Some(told) => self.add(told),
            None => {}
        }
    }

    /// Tells what was noted for a line that was answered, and what was heard of the line that it names.
    fn add_answered(&mut self, answered: &Answered<'a, K>)
        requires { IsAsked (length self.old) answered.now.turn.line }
        ensures told { TellsStep self.new answered.now }
        ensures keeps { KeepsTelling self.old self.new }
    {
        self.add(answered.told());
        self.add_heard(answered.heard());
    }

    /// Tells what a lane noted and heard.
    fn add_lane(&mut self, steps: &[Answered<'a, K>])
        requires { Each (IsAsked (length self.old)) (lines_in (turns_of steps.now)) }
        ensures told { Each (TellsStep self.new) steps.now }
        ensures keeps { KeepsTelling self.old self.new }
    {
        for answered in steps {
            self.add_answered(answered);
        }
    }

    /// Tells what all lanes noted and heard. They agree: of each line there is one number.
    pub fn add_lanes(&mut self, lanes: &[Vec<Answered<'a, K>>])
        requires { Each (IsAsked (length self.old)) (lines_in (all_turns (map (λ v. v.items) lanes.now))) }
        ensures { Each (Agrees (noted_in self.new)) (all_steps (map (λ v. v.items) lanes.now)) }
    {
        for steps in lanes {
            self.add_lane(steps.as_slice());
        }
    }
}
