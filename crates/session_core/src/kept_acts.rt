//! What takes back the accepted changes of a run, kept for its `undo` lines.
ghost use Rattle.std.specs.Prelude.{◌≡◌, ◌<◌, ◌≤◌, ◌+◌, ◌∷◌, ◌++◌, true, [], All, IfOk, OnErr, OnOk, option_copied};
ghost use Rattle.session_core.specs.Undos.{is_kept_of, kept_act, latest_of};
ghost use Rattle.session_core.specs.Inner.Rising.{AreRising};

use edit_undo::NoUndo;
use edit_undo::edit_rules::Act;
use emu_names::{Memory, SessionNo};
use std::alloc::Global;
use std::marker::Model;

/// What takes back an accepted change of a line.
#[derive(Drop)]
pub struct KeptAct {
    /// The session of the line.
    pub session: SessionNo,
    /// The number of the line.
    pub line: u32,
    /// The act that takes the change back, or why there is none.
    pub inverse: Result<Act, NoUndo>,
}

impl KeptAct {
    /// Whether it is of this line of this session.
    fn is_of(&self, session: SessionNo, line: u32) -> bool
        ensures { result ≡ is_kept_of session.0 line self.now }
    {
        self.session.0 == session.0 && self.line == line
    }
}

/// Whether this line is above all that are kept, where their lines rise: the last of them is asked.
fn is_above(list: &[KeptAct], line: u32) -> bool
    requires { AreRising list.now }
    ensures { result ≡ true → All (λ kept. kept.line < line) list.now }
{
    match list.last() {
        Some(last) => last.line < line,
        None => true,
    }
}

/// What takes back the change of this line of this session, where the lines rise: it is searched for by halves.
fn find_risen(list: &[KeptAct], session: SessionNo, line: u32) -> Option<&Result<Act, NoUndo>>
    requires { AreRising list.now }
    ensures { option_copied result ≡ latest_of session.0 line list.now }
{
    let place = list.partition_point(|kept| kept.line < line);
    match list.get(place) {
        Some(kept) if kept.is_of(session, line) => Some(&kept.inverse),
        _ => None,
    }
}

/// What takes back the change of this line of this session, in any order of the lines: of several, the last one.
fn find_back(list: &[KeptAct], session: SessionNo, line: u32) -> Option<&Result<Act, NoUndo>>
    ensures { option_copied result ≡ latest_of session.0 line list.now }
{
    let mut place = list.len();
    while place > 0 {
        place -= 1;
        let kept = &list[place];
        if kept.is_of(session, line) {
            return Some(&kept.inverse);
        }
    }
    None
}

/// What takes back the accepted changes of a run, in the order of the history. Room for one more is made before
/// the change is committed, so that what is accepted is kept without asking for memory.
#[derive(Drop)]
pub struct KeptActs {
    list: Vec<KeptAct>,
    /// Whether each line is greater than the ones before it, as those of a run are.
    rising: bool,
}

impl Model for KeptActs {
    ghost use Rattle.std.specs.Prelude.{◌-◌, vec_capacity, vec_len};
    ghost use Rattle.session_core.specs.Inner.Room.{KeptParts};
    ghost use Rattle.session_core.specs.Inner.Rising.{RiseWhere};

    ghost Value = { KeptParts };

    ghost view = { λ k. record { acts = k.list.items; room = vec_capacity k.list - vec_len k.list } };

    ghost invariant = { λ k. RiseWhere k.rising k.list.items };
}

impl KeptActs {
    /// Nothing kept yet, and no room.
    pub fn new(alloc: Global) -> KeptActs
        ensures { result.acts ≡ [] }
    {
        KeptActs {
            list: Vec::new(alloc),
            rising: true,
        }
    }

    /// Nothing kept yet, and room for so many. The only refusal is want of memory.
    pub fn with_room(alloc: Global, room: usize) -> Result<KeptActs, Memory>
        ensures acts { IfOk result (λ kept. kept.acts ≡ []) }
        ensures room { IfOk result (λ kept. room ≤ kept.room) }
    {
        let list = Vec::with_capacity(alloc, room)?;
        Ok(KeptActs { list, rising: true })
    }

    /// Makes room for one more. The only refusal is want of memory; what is kept stays in any case.
    pub fn make_room(&mut self) -> Result<(), Memory>
        ensures acts { self.new.acts ≡ self.old.acts }
        ensures room { OnOk result (0 < self.new.room) }
        ensures err { OnErr result (self.new ≡ self.old) }
    {
        self.list.reserve(1)?;
        Ok(())
    }

    /// Keeps what takes back the change of a line, in room that was made for it.
    pub fn keep(&mut self, session: SessionNo, line: u32, inverse: Result<Act, NoUndo>)
        requires room { 0 < self.old.room }
        ensures acts { self.new.acts ≡ self.old.acts ++ kept_act session line inverse ∷ [] }
        ensures room { self.new.room + 1 ≡ self.old.room }
    {
        let rising = self.rising && is_above(&self.list, line);
        self.list.push_reserved(KeptAct {
            session,
            line,
            inverse,
        });
        self.rising = rising;
    }

    /// What takes back the change of this line of this session, where it was accepted: of several, the last one.
    pub fn find(&self, session: SessionNo, line: u32) -> Option<&Result<Act, NoUndo>>
        ensures { option_copied result ≡ latest_of session.0 line self.now.acts }
    {
        if self.rising {
            find_risen(&self.list, session, line)
        } else {
            find_back(&self.list, session, line)
        }
    }
}
