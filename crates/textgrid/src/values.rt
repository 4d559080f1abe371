//! The values of a TextGrid's text, with their places.
ghost use Rattle.std.specs.Prelude.{◌≡◌, ◌++◌, ◌∷◌, [], OnOk, OnErr, MatchOption};

use emu_names::{Memory, Text};
use sample_time::Decimal;
use std::alloc::Global;
use std::collections::VecDeque;
use std::marker::Model;

/// A value of a text. (Praat manual, "TextGrid file formats": what is no value is not read.)
#[derive(Drop)]
pub enum Value {
    /// A number that stands by itself.
    Number(Decimal),
    /// A text between quotes, without them, and with one quote for each two in it.
    Quoted(Text),
    /// A flag between angle brackets, and whether it is `<exists>`.
    Flag(bool),
}

/// A value, with the byte of the text at which it begins.
#[derive(Drop)]
pub struct Placed {
    pub at: u64,
    pub value: Value,
}

/// The values that are left to be read, in their order.
#[derive(Drop)]
pub struct Values {
    left: VecDeque<Placed>,
}

impl Model for Values {
    ghost use Rattle.std.specs.Prelude.{List};
    ghost use Rattle.textgrid.specs.declared.values.Placed.{Placed};

    ghost Value = { List Placed };

    ghost view = { λ v. v.left.items };
}

impl Values {
    /// No values.
    pub fn new(alloc: Global) -> Values
        ensures { result ≡ [] }
    {
        Values {
            left: VecDeque::new(alloc),
        }
    }

    /// Puts a value last. The only refusal is want of memory, which changes nothing.
    pub fn push(&mut self, placed: Placed) -> Result<(), Memory>
        ensures ok { OnOk result (self.new ≡ self.old ++ placed ∷ []) }
        ensures err { OnErr result (self.new ≡ self.old) }
    {
        self.left.push_back(placed)?;
        Ok(())
    }

    /// Takes the first value out.
    pub fn pop(&mut self) -> Option<Placed>
        ensures { MatchOption result ((self.old ≡ []) × (self.new ≡ []))
            (λ first. self.old ≡ first ∷ self.new) }
    {
        self.left.pop_front()
    }
}
