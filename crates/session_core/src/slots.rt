//! The places of the sessions, where their open looks and their queries under way are held.
ghost use Rattle.session_core.specs.Steps.{put_slot, session_places, slot};
ghost use Rattle.std.specs.Prelude.{◌≡◌, ◌<◌, None, IfOk, length, replicate};

use crate::line::Ask;
use edit_undo::edit_rules::Database;
use emu_names::Memory;
use emu_names::limits::SESSIONS;
use std::alloc::Global;
use std::marker::Model;

/// A query that holds a state, and the line that it came from.
#[derive(Drop)]
pub struct Held {
    /// The number of the line.
    pub line: u32,
    /// The number of edits of the state.
    pub n: u64,
    /// The query.
    pub ask: Ask,
    /// The database of the state.
    pub database: Database,
}

/// A place for each session of a script, and one for the program itself, which is 0. At each there may stand
/// a value.
#[derive(Drop)]
pub struct Slots<T> {
    list: Vec<Option<T>>,
}

impl<T> Model for Slots<T> {
    ghost use Rattle.std.specs.Prelude.{List, Option};

    ghost Value = { List (Option T) };

    ghost view = { λ s. s.list.items };
}

/// How many places there are.
const SESSION_PLACES: usize = SESSIONS as usize + 1;

impl<T: Drop> Slots<T> {
    /// The places, with nothing there. The only refusal is want of memory.
    pub fn new(alloc: Global) -> Result<Slots<T>, Memory>
        ensures { IfOk result (λ slots. slots ≡ replicate session_places None) }
    {
        let mut list = Vec::with_capacity(alloc, SESSION_PLACES)?;
        for _place in 0..SESSION_PLACES {
            list.push(None)?;
        }
        Ok(Slots { list })
    }

    /// What stands at a place.
    pub fn get(&self, place: usize) -> &Option<T>
        requires { place < length self.now }
        ensures { result.now ≡ slot self.now place }
    {
        &self.list[place]
    }

    /// Puts this at a place, and lets go of what stood there.
    pub fn put(&mut self, place: usize, value: Option<T>)
        requires { place < length self.old }
        ensures { self.new ≡ put_slot self.old place value }
    {
        self.list[place] = value;
    }

    /// Takes what stands at a place.
    pub fn take(&mut self, place: usize) -> Option<T>
        requires { place < length self.old }
        ensures taken { result ≡ slot self.old place }
        ensures left { self.new ≡ put_slot self.old place None }
    {
        self.list[place].take()
    }
}
