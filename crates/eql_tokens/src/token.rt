//! The tokens of an EQL text.
ghost use Rattle.std.specs.Prelude.{◌≡◌, ◌++◌, ◌∷◌, [], OnOk, OnErr};

use emu_names::{Memory, Text};
use std::alloc::Global;
use std::marker::Model;

/// A sign between two sides.
#[derive(Clone, Copy, Debug, PartialEq, Eq)]
pub enum Sign {
    /// `==` or `=`
    Is,
    /// `!=`
    IsNot,
    /// `=~`
    Like,
    /// `!~`
    NotLike,
    /// `<`
    Lt,
    /// `<=`
    Le,
    /// `>`
    Gt,
    /// `>=`
    Ge,
}

/// A token of a text.
#[derive(Debug, Drop)]
pub enum Token {
    /// `[`
    Open,
    /// `]`
    Close,
    /// `(`
    LeftParen,
    /// `)`
    RightParen,
    /// `,`
    Comma,
    /// `&`
    And,
    /// `|`
    Or,
    /// `^`
    Above,
    /// `->`
    Arrow,
    /// `#`
    Hash,
    /// A sign between two sides.
    Sign(Sign),
    /// A word: bare, or between single quotes, without them.
    Word { bare: bool, text: Text },
    /// What no query has: a lone `!`, or a quote that is not closed.
    Wrong,
}

/// A token with the place in bytes at which it begins.
#[derive(Debug, Drop)]
pub struct Placed {
    pub at: u32,
    pub token: Token,
}

/// The tokens of a text in their order, which contracts see as that list.
#[derive(Debug, Drop)]
pub struct Tokens {
    list: Vec<Placed>,
}

impl Model for Tokens {
    ghost use Rattle.std.specs.Prelude.{List};
    ghost use Rattle.eql_tokens.specs.declared.token.Placed.{Placed};

    ghost Value = { List Placed };

    ghost view = { λ t. t.list.items };
}

impl Tokens {
    /// No tokens.
    pub fn new(alloc: Global) -> Tokens
        ensures { result ≡ [] }
    {
        Tokens {
            list: Vec::new(alloc),
        }
    }

    /// One token more at the end. The only refusal is want of memory, which changes nothing.
    pub fn push(&mut self, placed: Placed) -> Result<(), Memory>
        ensures ok { OnOk result (self.new ≡ self.old ++ placed ∷ []) }
        ensures err { OnErr result (self.new ≡ self.old) }
    {
        self.list.push(placed)?;
        Ok(())
    }

    /// The tokens.
    pub fn as_slice(&self) -> &[Placed]
        ensures { result.now ≡ self.now }
    {
        self.list.as_slice()
    }
}
