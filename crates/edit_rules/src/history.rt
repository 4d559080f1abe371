//! What a history keeps of the acts that were accepted: the word of each, and the line that it came from.
ghost use Rattle.std.specs.Prelude.{◌≡◌, ◌<◌, ◌++◌, ◌∷◌, [], length, take, slice_get, OnOk, OnErr, Some};
ghost use Rattle.edit_rules.specs.Words.{act_word};

use crate::acts::{Act, Entry};
use crate::words::act_word;
use emu_names::{Memory, Series, SessionNo};
use std::alloc::Global;
use std::marker::Model;
use std::snapshot::Snapshot;

/// What a history keeps of an entry, which contracts see as the entry. The act itself has no bytes here.
#[derive(Drop)]
pub struct Noted {
    session: SessionNo,
    line: u32,
    word: &'static str,
    act: Snapshot<Act>,
}

impl Model for Noted {
    ghost use Rattle.std.specs.Prelude.{◌≡◌};
    ghost use Rattle.edit_rules.specs.declared.acts.Entry.{Entry};
    ghost use Rattle.edit_rules.specs.Words.{act_word};

    ghost Value = { Entry };

    ghost view = { λ n. record { session = n.session; line = n.line; act = n.act.value } };

    ghost invariant = { λ n. n.word.now ≡ act_word n.act.value };
}

impl Noted {
    /// What is kept of an entry.
    fn of(entry: &Entry) -> Noted
        ensures { result ≡ entry.now }
    {
        Noted {
            session: entry.session,
            line: entry.line,
            word: act_word(&entry.act),
            act: Snapshot::of(&entry.act),
        }
    }

    /// The session; 0 stands for a command of the program.
    pub fn session(&self) -> SessionNo
        ensures { result ≡ self.now.session }
    {
        self.session
    }

    /// The line, counted from 1; 0 where there is none.
    pub fn line(&self) -> u32
        ensures { result ≡ self.now.line }
    {
        self.line
    }

    /// The word of the act.
    pub fn word(&self) -> &'static str
        ensures { result.now ≡ act_word self.now.act }
    {
        self.word
    }
}

/// A history: the accepted acts, in order, which contracts see as their entries. Of an act it keeps the word; what
/// the act added stands in the database that it made.
#[derive(Drop)]
pub struct Entries {
    noted: Series<Noted>,
}

impl Model for Entries {
    ghost use Rattle.std.specs.Prelude.{List};
    ghost use Rattle.edit_rules.specs.declared.acts.Entry.{Entry};

    ghost Value = { List Entry };

    ghost view = { λ e. e.noted };
}

impl Entries {
    /// The history of no act. It grows by `alloc`.
    pub fn new(alloc: Global) -> Entries
        ensures { result ≡ [] }
    {
        Entries {
            noted: Series::new(alloc),
        }
    }

    /// Puts an entry last. The only refusal is want of memory, which changes nothing.
    pub fn push(&mut self, entry: &Entry) -> Result<(), Memory>
        ensures ok { OnOk result (self.new ≡ self.old ++ entry.now ∷ []) }
        ensures err { OnErr result (self.new ≡ self.old) }
    {
        self.noted.push(Noted::of(entry))
    }

    /// How many entries there are.
    pub fn len(&self) -> usize
        ensures { result ≡ length self.now }
    {
        self.noted.len()
    }

    /// The entry at a place, counted from 0.
    pub fn get(&self, place: usize) -> &Noted
        requires { place < length self.now }
        ensures { slice_get self.now place ≡ Some result.now }
    {
        self.noted.get(place)
    }

    /// All entries, in order.
    pub fn as_slice(&self) -> &[Noted]
        ensures { result.now ≡ self.now }
    {
        self.noted.as_slice()
    }

    /// Lets all entries but the first `len` go.
    pub fn truncate(&mut self, len: usize)
        ensures { self.new ≡ take len self.old }
    {
        self.noted.truncate(len);
    }
}
