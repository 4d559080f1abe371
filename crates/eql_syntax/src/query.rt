//! Queries as they are spelled, and why a text spells none.
ghost use Rattle.std.specs.Prelude.{◌≡◌, ◌<◌, ◌++◌, ◌∷◌, [], length, slice_get, Some, IfOk, OnOk, OnErr};
ghost use Rattle.eql_syntax.specs.Inner.Tree.{tree_of};

use emu_names::{Memory, Text};
use eql_tokens::Words;
use std::alloc::Global;
use std::marker::Model;
use thiserror::Error;

/// How a label test compares: with the labels themselves, or with patterns.
#[derive(Clone, Copy, Debug, PartialEq, Eq)]
pub enum Op {
    /// `==`: the label is among those given.
    Is,
    /// `!=`: it is not.
    IsNot,
    /// `=~`: one of the patterns matches the label.
    Like,
    /// `!~`: none does.
    NotLike,
}

impl Op {
    /// The same operator again.
    pub fn copy(&self) -> Op
        ensures { result ≡ self.now }
    {
        *self
    }
}

/// How a count compares with a number.
#[derive(Clone, Copy, Debug, PartialEq, Eq)]
pub enum Compare {
    /// `==`
    Eq,
    /// `!=`
    Ne,
    /// `<`
    Lt,
    /// `<=`
    Le,
    /// `>`
    Gt,
    /// `>=`
    Ge,
}

impl Compare {
    /// The same comparison again.
    pub fn copy(&self) -> Compare
        ensures { result ≡ self.now }
    {
        *self
    }
}

/// Where an item stands among those of its level below an item of another.
#[derive(Clone, Copy, Debug, PartialEq, Eq)]
pub enum Place {
    /// It is the first.
    Start,
    /// It is neither the first nor the last.
    Medial,
    /// It is the last.
    End,
}

impl Place {
    /// The same place again.
    pub fn copy(&self) -> Place
        ensures { result ≡ self.now }
    {
        *self
    }
}

/// One condition of a conjunction. `marked` says that a `#` stands before it.
#[derive(Debug, Drop)]
pub enum Term {
    /// A test of a label, as `Phonetic == a|b`.
    Test {
        marked: bool,
        name: Text,
        op: Op,
        labels: Words,
    },
    /// A test of a place, as `Start(Word, Phonetic) == 1`.
    Place {
        marked: bool,
        place: Place,
        upper: Text,
        lower: Text,
        wanted: bool,
    },
    /// A test of a number of items, as `Num(Word, Phonetic) >= 3`.
    Num {
        marked: bool,
        upper: Text,
        lower: Text,
        compare: Compare,
        number: u32,
    },
}

impl Term {
    /// The same condition again. The only refusal is want of memory.
    pub fn copy(&self, alloc: Global) -> Result<Term, Memory>
        ensures { IfOk result (λ made. made ≡ self.now) }
    {
        match self {
            Term::Test {
                marked,
                name,
                op,
                labels,
            } => Ok(Term::Test {
                marked: *marked,
                name: name.copy(alloc)?,
                op: *op,
                labels: labels.copy(alloc)?,
            }),
            Term::Place {
                marked,
                place,
                upper,
                lower,
                wanted,
            } => Ok(Term::Place {
                marked: *marked,
                place: *place,
                upper: upper.copy(alloc)?,
                lower: lower.copy(alloc)?,
                wanted: *wanted,
            }),
            Term::Num {
                marked,
                upper,
                lower,
                compare,
                number,
            } => Ok(Term::Num {
                marked: *marked,
                upper: upper.copy(alloc)?,
                lower: lower.copy(alloc)?,
                compare: *compare,
                number: *number,
            }),
        }
    }
}

/// A list of conditions, which contracts see as that list.
#[derive(Debug, Drop)]
pub struct Terms {
    list: Vec<Term>,
}

impl Model for Terms {
    ghost use Rattle.std.specs.Prelude.{List};
    ghost use Rattle.eql_syntax.specs.declared.query.Term.{Term};

    ghost Value = { List Term };

    ghost view = { λ t. t.list.items };
}

impl Terms {
    /// No conditions.
    pub fn new(alloc: Global) -> Terms
        ensures { result ≡ [] }
    {
        Terms {
            list: Vec::new(alloc),
        }
    }

    /// How many conditions there are.
    pub fn len(&self) -> usize
        ensures { result ≡ length self.now }
    {
        self.list.len()
    }

    /// The condition at a place, counted from 0.
    pub fn get(&self, place: usize) -> &Term
        requires { place < length self.now }
        ensures { slice_get self.now place ≡ Some result.now }
    {
        &self.list[place]
    }

    /// Puts a condition last. The only refusal is want of memory, which changes nothing.
    pub fn push(&mut self, term: Term) -> Result<(), Memory>
        ensures ok { OnOk result (self.new ≡ self.old ++ term ∷ []) }
        ensures err { OnErr result (self.new ≡ self.old) }
    {
        self.list.push(term)?;
        Ok(())
    }

    /// The conditions and one more.
    pub fn with(self, term: Term) -> Result<Terms, Memory>
        ensures { IfOk result (λ terms. terms ≡ self ++ term ∷ []) }
    {
        let mut terms = self;
        match terms.push(term) {
            Ok(()) => Ok(terms),
            Err(memory) => {
                drop(terms);
                Err(memory)
            }
        }
    }

    /// The conditions.
    pub fn as_slice(&self) -> &[Term]
        ensures { result.now ≡ self.now }
    {
        self.list.as_slice()
    }

    /// The same conditions again. The only refusal is want of memory.
    pub fn copy(&self, alloc: Global) -> Result<Terms, Memory>
        ensures { IfOk result (λ made. made ≡ self.now) }
    {
        let list = copied_terms(alloc, self.list.as_slice())?;
        Ok(Terms { list })
    }
}

/// The same conditions again.
fn copied_terms(alloc: Global, terms: &[Term]) -> Result<Vec<Term>, Memory>
    ensures { IfOk result (λ made. made.items ≡ terms.now) }
{
    let mut made = Vec::new(alloc);
    for term in terms {
        made.push(term.copy(alloc)?)?;
    }
    Ok(made)
}

/// A query.
#[derive(Debug, Drop)]
pub enum Query {
    /// Items that meet all conditions.
    Terms(Terms),
    /// The second follows the first at once.
    Sequence(Box<Query>, Box<Query>),
    /// One of the two dominates the other.
    Dominance(Box<Query>, Box<Query>),
}

impl Query {
    /// The same query again. The only refusal is want of memory.
    pub fn copy(&self, alloc: Global) -> Result<Query, Memory>
        ensures { IfOk result (λ made. tree_of made ≡ tree_of self.now) }
    {
        match self {
            Query::Terms(terms) => Ok(Query::Terms(terms.copy(alloc)?)),
            Query::Sequence(left, right) => {
                let left = Box::new(alloc, left.copy(alloc)?)?;
                let right = Box::new(alloc, right.copy(alloc)?)?;
                Ok(Query::Sequence(left, right))
            }
            Query::Dominance(left, right) => {
                let left = Box::new(alloc, left.copy(alloc)?)?;
                let right = Box::new(alloc, right.copy(alloc)?)?;
                Ok(Query::Dominance(left, right))
            }
        }
    }
}

/// Why a text is no query. Places count the bytes of the text from 0.
#[derive(Clone, Copy, Debug, PartialEq, Eq, Error)]
pub enum QueryFault {
    /// Rule 26: the text has more bytes than a query may have.
    #[error("the query is too long")]
    TextTooLong,
    /// Rule 27: no query begins with the text up to and with the token at this place.
    #[error("the query has a fault at byte {0}")]
    Syntax(u32),
    /// Rule 28: at this place a bracket is opened inside as many as may be open at once.
    #[error("a bracket too many is opened at byte {0}")]
    TooDeep(u32),
    /// Rule 29: at this place a second mark stands.
    #[error("a second mark stands at byte {0}")]
    TwoMarks(u32),
    /// Rule 44: memory ran out.
    #[error("out of memory")]
    Memory,
}

impl QueryFault {
    /// The same fault again.
    pub fn copy(&self) -> QueryFault
        ensures { result ≡ self.now }
    {
        *self
    }
}

impl From<Memory> for QueryFault {
    ghost use Rattle.eql_syntax.specs.declared.query.QueryFault.TheVariants.{Memory as OutOfMemory};

    ghost from_gives = { λ _ e. e ≡ OutOfMemory };

    fn from(_error: Memory) -> QueryFault {
        QueryFault::Memory
    }
}
