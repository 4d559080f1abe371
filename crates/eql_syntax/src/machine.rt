//! A reader of tokens, one after another.
ghost use Rattle.std.specs.Prelude.{◌≡◌, ℕ, [], ◌∷◌, ◌++◌, IfOk, MatchOption, None, Some};
ghost use Rattle.eql_syntax.specs.Tree.{Conjunction};
ghost use Rattle.eql_syntax.specs.Inner.Tree.{tree_of};
ghost use Rattle.eql_syntax.specs.Words.{op_of, compare_of, place_of, is_count, bit_of, number_of};
ghost use Rattle.eql_syntax.specs.Inner.Machine.{function_of, after, after_terms, first_of, tested, called, placed, compared, counted};
ghost use Rattle.eql_syntax.specs.Inner.Machine.{Beginning, Marked, Named, Tested, Labelled, Parted, Called, Upper, Split, Lower, Sided, Asked, Counted};
ghost use Rattle.eql_syntax.specs.Inner.View.{function_view, bracket_view, spot_view, stack, Moves, Steps};

use crate::query::{Compare, Op, Place, Query, Term, Terms};
use crate::words::{bit_of, compare_of, function_of, number_of, op_of};
use emu_names::{Memory, Text};
use eql_tokens::{Sign, Token, Words};
use std::alloc::Global;

/// A function with two names.
#[derive(Clone, Copy)]
pub enum Function {
    /// A test of a place.
    Placing(Place),
    /// A number of items.
    Counting,
}

/// A bracket that is open.
#[derive(Drop)]
pub enum Bracket {
    /// Nothing is read in it.
    Opened,
    /// The left side of a sequence is read.
    Before(Query),
    /// The left side of a dominance is read.
    Over(Query),
}

/// Where in the grammar the reader is, with what it has read of the present condition.
#[derive(Drop)]
pub enum Spot {
    Beginning,
    Another(Terms),
    Marked(Terms),
    Named(Terms, bool, bool, Text),
    Tested(Terms, bool, Text, Op),
    Labelled(Terms, bool, Text, Op, Words),
    Parted(Terms, bool, Text, Op, Words),
    Called(Terms, bool, Function),
    Upper(Terms, bool, Function, Text),
    Split(Terms, bool, Function, Text),
    Lower(Terms, bool, Function, Text, Text),
    Sided(Terms, bool, Function, Text, Text),
    Asked(Terms, bool, Place, Text, Text),
    Counted(Terms, bool, Text, Text, Compare),
    Ended(Terms),
    Closed(Query),
}

/// The open brackets, the innermost last, and the spot in it.
#[derive(Drop)]
pub struct State {
    pub brackets: Vec<Bracket>,
    pub spot: Spot,
}

/// One bracket more is open.
#[tactic(auto, using(crate::proofs::Stack::stack_more))]
fn push(brackets: Vec<Bracket>, bracket: Bracket) -> Result<Vec<Bracket>, Memory>
    ensures { IfOk result (λ bs. stack bs.items ≡ bracket_view bracket ∷ stack brackets.items) }
{
    let mut brackets = brackets;
    brackets.push(bracket)?;
    Ok(brackets)
}

/// The innermost bracket, and the others.
#[tactic(auto, using(crate::proofs::Stack::stack_more))]
pub fn pop(brackets: Vec<Bracket>) -> Option<(Bracket, Vec<Bracket>)>
    ensures { MatchOption result (stack brackets.items ≡ [])
        (λ r. stack brackets.items ≡ bracket_view r.0 ∷ stack r.1.items) }
{
    let mut brackets = brackets;
    let last = brackets.pop()?;
    Some((last, brackets))
}

/// Behind a whole query.
fn after(
    alloc: Global,
    brackets: Vec<Bracket>,
    query: Query,
    token: &Token,
) -> Result<Option<State>, Memory>
    ensures { Moves result (after (stack brackets.items) (tree_of query) token.now) }
{
    let Some((bracket, outer)) = pop(brackets) else {
        return Ok(None);
    };
    match bracket {
        Bracket::Opened => opened(outer, query, token),
        Bracket::Before(left) => match token {
            Token::Close => {
                let both = Query::Sequence(Box::new(alloc, left)?, Box::new(alloc, query)?);
                Ok(Some(State {
                    brackets: outer,
                    spot: Spot::Closed(both),
                }))
            }
            _ => Ok(None),
        },
        Bracket::Over(left) => match token {
            Token::Close => {
                let both = Query::Dominance(Box::new(alloc, left)?, Box::new(alloc, query)?);
                Ok(Some(State {
                    brackets: outer,
                    spot: Spot::Closed(both),
                }))
            }
            _ => Ok(None),
        },
    }
}

/// Behind the first query in a bracket, of which `outer` are those round it.
fn opened(outer: Vec<Bracket>, query: Query, token: &Token) -> Result<Option<State>, Memory>
    ensures { let opened = bracket_view Bracket.Opened ∷ stack outer.items in
        Moves result (after opened (tree_of query) token.now) }
{
    match token {
        Token::Arrow => {
            let brackets = push(outer, Bracket::Before(query))?;
            Ok(Some(State {
                brackets,
                spot: Spot::Beginning,
            }))
        }
        Token::Above => {
            let brackets = push(outer, Bracket::Over(query))?;
            Ok(Some(State {
                brackets,
                spot: Spot::Beginning,
            }))
        }
        Token::Close => Ok(Some(State {
            brackets: outer,
            spot: Spot::Closed(query),
        })),
        _ => Ok(None),
    }
}

/// Behind a whole condition.
fn after_terms(
    alloc: Global,
    brackets: Vec<Bracket>,
    terms: Terms,
    token: &Token,
) -> Result<Option<State>, Memory>
    ensures { Moves result (after_terms (stack brackets.items) terms token.now) }
{
    match token {
        Token::And => Ok(Some(State {
            brackets,
            spot: Spot::Another(terms),
        })),
        _ => after(alloc, brackets, Query::Terms(terms), token),
    }
}

/// The first token of a condition.
fn first_of(
    alloc: Global,
    brackets: Vec<Bracket>,
    terms: Terms,
    token: &Token,
) -> Result<Option<State>, Memory>
    ensures { Moves result (first_of (stack brackets.items) terms token.now) }
{
    match token {
        Token::Hash => Ok(Some(State {
            brackets,
            spot: Spot::Marked(terms),
        })),
        Token::Word { bare, text } => {
            let name = text.copy(alloc)?;
            Ok(Some(State {
                brackets,
                spot: Spot::Named(terms, false, *bare, name),
            }))
        }
        _ => Ok(None),
    }
}

/// Behind the word that begins a condition.
fn named(
    alloc: Global,
    brackets: Vec<Bracket>,
    terms: Terms,
    marked: bool,
    bare: bool,
    name: Text,
    token: &Token,
) -> Result<Option<State>, Memory>
    ensures { Steps result brackets.items (Named terms marked bare name) token.now }
{
    match token {
        Token::Sign(sign) => match op_of(*sign) {
            Some(op) => Ok(Some(State {
                brackets,
                spot: Spot::Tested(terms, marked, name, op),
            })),
            None => Ok(None),
        },
        Token::LeftParen => match function_of(bare, name.as_str()) {
            Some(function) => Ok(Some(State {
                brackets,
                spot: Spot::Called(terms, marked, function),
            })),
            None => Ok(None),
        },
        _ => Ok(None),
    }
}

/// Behind an operator: a first label.
fn tested(
    alloc: Global,
    brackets: Vec<Bracket>,
    terms: Terms,
    marked: bool,
    name: Text,
    op: Op,
    token: &Token,
) -> Result<Option<State>, Memory>
    ensures { Steps result brackets.items (Tested terms marked name op) token.now }
{
    match token {
        Token::Word { bare, text } => {
            let _bare = *bare;
            let labels = Words::new(alloc).with(text.copy(alloc)?)?;
            Ok(Some(State {
                brackets,
                spot: Spot::Labelled(terms, marked, name, op, labels),
            }))
        }
        _ => Ok(None),
    }
}

/// Behind a label: more labels, or the end of the condition.
fn labelled(
    alloc: Global,
    brackets: Vec<Bracket>,
    terms: Terms,
    marked: bool,
    name: Text,
    op: Op,
    labels: Words,
    token: &Token,
) -> Result<Option<State>, Memory>
    ensures { Steps result brackets.items (Labelled terms marked name op labels) token.now }
{
    match token {
        Token::Or => Ok(Some(State {
            brackets,
            spot: Spot::Parted(terms, marked, name, op, labels),
        })),
        _ => {
            let terms = terms.with(Term::Test {
                marked,
                name,
                op,
                labels,
            })?;
            after_terms(alloc, brackets, terms, token)
        }
    }
}

/// Behind a `|`: one label more.
fn parted(
    alloc: Global,
    brackets: Vec<Bracket>,
    terms: Terms,
    marked: bool,
    name: Text,
    op: Op,
    labels: Words,
    token: &Token,
) -> Result<Option<State>, Memory>
    ensures { Steps result brackets.items (Parted terms marked name op labels) token.now }
{
    match token {
        Token::Word { bare, text } => {
            let _bare = *bare;
            let labels = labels.with(text.copy(alloc)?)?;
            Ok(Some(State {
                brackets,
                spot: Spot::Labelled(terms, marked, name, op, labels),
            }))
        }
        _ => Ok(None),
    }
}

/// Behind the two names of a function and their brackets: the sign.
fn sided(
    brackets: Vec<Bracket>,
    terms: Terms,
    marked: bool,
    function: Function,
    upper: Text,
    lower: Text,
    token: &Token,
) -> Result<Option<State>, Memory>
    ensures { let spot = Sided terms marked (function_view function) upper lower in
        Steps result brackets.items spot token.now }
{
    match function {
        Function::Placing(place) => match token {
            Token::Sign(Sign::Is) => Ok(Some(State {
                brackets,
                spot: Spot::Asked(terms, marked, place, upper, lower),
            })),
            _ => Ok(None),
        },
        Function::Counting => match token {
            Token::Sign(sign) => match compare_of(*sign) {
                Some(compare) => Ok(Some(State {
                    brackets,
                    spot: Spot::Counted(terms, marked, upper, lower, compare),
                })),
                None => Ok(None),
            },
            _ => Ok(None),
        },
    }
}

/// Behind the sign of a test of a place: what is wanted.
fn asked(
    brackets: Vec<Bracket>,
    terms: Terms,
    marked: bool,
    place: Place,
    upper: Text,
    lower: Text,
    token: &Token,
) -> Result<Option<State>, Memory>
    ensures { Steps result brackets.items (Asked terms marked place upper lower) token.now }
{
    match token {
        Token::Word { bare: true, text } => match bit_of(text.as_str()) {
            Some(wanted) => {
                let terms = terms.with(Term::Place {
                    marked,
                    place,
                    upper,
                    lower,
                    wanted,
                })?;
                Ok(Some(State {
                    brackets,
                    spot: Spot::Ended(terms),
                }))
            }
            None => Ok(None),
        },
        _ => Ok(None),
    }
}

/// Behind the comparison of a number: its digits.
fn counted(
    brackets: Vec<Bracket>,
    terms: Terms,
    marked: bool,
    upper: Text,
    lower: Text,
    compare: Compare,
    token: &Token,
) -> Result<Option<State>, Memory>
    ensures { Steps result brackets.items (Counted terms marked upper lower compare) token.now }
{
    match token {
        Token::Word { bare: true, text } => match number_of(text.as_str()) {
            Some(number) => {
                let terms = terms.with(Term::Num {
                    marked,
                    upper,
                    lower,
                    compare,
                    number,
                })?;
                Ok(Some(State {
                    brackets,
                    spot: Spot::Ended(terms),
                }))
            }
            None => Ok(None),
        },
        _ => Ok(None),
    }
}

/// Behind a mark, or where a name is wanted of a function: a word.
fn marked(
    alloc: Global,
    brackets: Vec<Bracket>,
    terms: Terms,
    token: &Token,
) -> Result<Option<State>, Memory>
    ensures { Steps result brackets.items (Marked terms) token.now }
{
    match token {
        Token::Word { bare, text } => {
            let name = text.copy(alloc)?;
            Ok(Some(State {
                brackets,
                spot: Spot::Named(terms, true, *bare, name),
            }))
        }
        _ => Ok(None),
    }
}

/// Behind a function's bracket: its first name.
fn called(
    alloc: Global,
    brackets: Vec<Bracket>,
    terms: Terms,
    marked: bool,
    function: Function,
    token: &Token,
) -> Result<Option<State>, Memory>
    ensures { Steps result brackets.items (Called terms marked (function_view function)) token.now }
{
    match token {
        Token::Word { bare, text } => {
            let _bare = *bare;
            let upper = text.copy(alloc)?;
            Ok(Some(State {
                brackets,
                spot: Spot::Upper(terms, marked, function, upper),
            }))
        }
        _ => Ok(None),
    }
}

/// Behind a function's comma: its second name.
fn split(
    alloc: Global,
    brackets: Vec<Bracket>,
    terms: Terms,
    marked: bool,
    function: Function,
    upper: Text,
    token: &Token,
) -> Result<Option<State>, Memory>
    ensures { let spot = Split terms marked (function_view function) upper in
        Steps result brackets.items spot token.now }
{
    match token {
        Token::Word { bare, text } => {
            let _bare = *bare;
            let lower = text.copy(alloc)?;
            Ok(Some(State {
                brackets,
                spot: Spot::Lower(terms, marked, function, upper, lower),
            }))
        }
        _ => Ok(None),
    }
}

/// Where a query begins: a bracket, or a condition.
fn beginning(alloc: Global, brackets: Vec<Bracket>, token: &Token) -> Result<Option<State>, Memory>
    ensures { Steps result brackets.items Beginning token.now }
{
    match token {
        Token::Open => {
            let brackets = push(brackets, Bracket::Opened)?;
            Ok(Some(State {
                brackets,
                spot: Spot::Beginning,
            }))
        }
        _ => first_of(alloc, brackets, Terms::new(alloc), token),
    }
}

/// Behind the first name of a function: the comma.
fn upper(
    brackets: Vec<Bracket>,
    terms: Terms,
    marked: bool,
    function: Function,
    upper: Text,
    token: &Token,
) -> Result<Option<State>, Memory>
    ensures { let spot = Upper terms marked (function_view function) upper in
        Steps result brackets.items spot token.now }
{
    match token {
        Token::Comma => Ok(Some(State {
            brackets,
            spot: Spot::Split(terms, marked, function, upper),
        })),
        _ => Ok(None),
    }
}

/// Behind the second name of a function: the bracket.
fn lower(
    brackets: Vec<Bracket>,
    terms: Terms,
    marked: bool,
    function: Function,
    upper: Text,
    lower: Text,
    token: &Token,
) -> Result<Option<State>, Memory>
    ensures { let spot = Lower terms marked (function_view function) upper lower in
        Steps result brackets.items spot token.now }
{
    match token {
        Token::RightParen => Ok(Some(State {
            brackets,
            spot: Spot::Sided(terms, marked, function, upper, lower),
        })),
        _ => Ok(None),
    }
}

/// The state behind one token more, where some query goes on with it.
pub fn step(
    alloc: Global,
    brackets: Vec<Bracket>,
    spot: Spot,
    token: &Token,
) -> Result<Option<State>, Memory>
    ensures { Steps result brackets.items (spot_view spot) token.now }
{
    match spot {
        Spot::Beginning => beginning(alloc, brackets, token),
        Spot::Another(terms) => first_of(alloc, brackets, terms, token),
        Spot::Marked(terms) => marked(alloc, brackets, terms, token),
        Spot::Named(terms, mark, bare, name) => named(
            alloc, brackets, terms, mark, bare, name, token,
        ),
        Spot::Tested(terms, mark, name, op) => tested(
            alloc, brackets, terms, mark, name, op, token,
        ),
        Spot::Labelled(terms, mark, name, op, labels) => labelled(
            alloc, brackets, terms, mark, name, op, labels, token,
        ),
        Spot::Parted(terms, mark, name, op, labels) => parted(
            alloc, brackets, terms, mark, name, op, labels, token,
        ),
        Spot::Called(terms, mark, function) => called(
            alloc, brackets, terms, mark, function, token,
        ),
        Spot::Upper(terms, mark, function, first) => upper(
            brackets, terms, mark, function, first, token,
        ),
        Spot::Split(terms, mark, function, first) => split(
            alloc, brackets, terms, mark, function, first, token,
        ),
        Spot::Lower(terms, mark, function, first, second) => lower(
            brackets, terms, mark, function, first, second, token,
        ),
        Spot::Sided(terms, mark, function, first, second) => sided(
            brackets, terms, mark, function, first, second, token,
        ),
        Spot::Asked(terms, mark, place, first, second) => asked(
            brackets, terms, mark, place, first, second, token,
        ),
        Spot::Counted(terms, mark, first, second, compare) => counted(
            brackets, terms, mark, first, second, compare, token,
        ),
        Spot::Ended(terms) => after_terms(alloc, brackets, terms, token),
        Spot::Closed(query) => after(alloc, brackets, query, token),
    }
}
