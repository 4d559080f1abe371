//! The query of a text, or its first fault.
ghost use Rattle.std.specs.Prelude.{◌≡◌, ◌≢◌, ℕ, ◌+◌, ◌<◌, ◌≤◌, ◌^◌, true, length, IfOk, IfErr, Ok, Err};
ghost use Rattle.eql_syntax.specs.Fault.{fits, depth_step, mark_step};
ghost use Rattle.eql_syntax.specs.Tree.{Tree};
ghost use Rattle.eql_syntax.specs.Inner.Tree.{tree_of};
ghost use Rattle.eql_tokens.specs.Tokens.{tokens_of};
ghost use Rattle.eql_syntax.specs.Inner.Machine.{ended_at};
ghost use Rattle.eql_syntax.specs.Inner.Reading.{limit_at, taken, query_or, finished, reads, read};
ghost use Rattle.eql_syntax.specs.Answer.{IsQuery, IsFault};
ghost use Rattle.eql_syntax.specs.Inner.View.{spot_view, reading_view, Takes, Gives};

use crate::machine::{Bracket, Spot, State, pop, step};
use crate::query::{Query, QueryFault, Term};
use emu_names::Memory;
use emu_names::limits::{OPEN_BRACKETS, QUERY_BYTES};
use eql_tokens::{Placed, Token, read_tokens};
use std::alloc::Global;

/// The state of the reader, how many brackets are open, and whether a mark stands.
#[derive(Drop)]
pub struct Reading {
    pub brackets: Vec<Bracket>,
    pub spot: Spot,
    pub depth: u32,
    pub marked: bool,
}

/// Whether the token keeps the limits, with so many brackets open and a mark or none before it.
fn fits(depth: u32, marked: bool, token: &Token) -> bool
    ensures { result ≡ fits depth marked token.now }
{
    match token {
        Token::Open => (depth as usize) < OPEN_BRACKETS,
        Token::Hash => !marked,
        _ => true,
    }
}

/// The limit that the token breaks.
fn limit_at(token: &Token, at: u32) -> QueryFault
    ensures { result ≡ limit_at token.now at }
{
    match token {
        Token::Open => QueryFault::TooDeep(at),
        _ => QueryFault::TwoMarks(at),
    }
}

/// How many brackets are open behind the token.
fn depth_behind(depth: u32, token: &Token) -> u32
    requires { depth ≤ OPEN_BRACKETS }
    ensures { result ≡ depth_step depth token.now }
{
    match token {
        Token::Open => depth + 1,
        Token::Close => depth.saturating_sub(1),
        _ => depth,
    }
}

/// Whether a mark stands behind the token.
fn mark_behind(marked: bool, token: &Token) -> bool
    ensures { result ≡ mark_step marked token.now }
{
    match token {
        Token::Hash => true,
        _ => marked,
    }
}

/// The reading behind one token more, or the fault at it.
#[tactic(auto, unfolding(crate::specs::Inner::Reading::taken))]
fn take(alloc: Global, reading: Reading, placed: &Placed) -> Result<Reading, QueryFault>
    requires { reading.depth ≤ OPEN_BRACKETS }
    ensures value { Takes result (taken (reading_view reading) placed.now.token placed.now.at) }
    ensures depth { IfOk result (λ next. next.depth ≤ OPEN_BRACKETS) }
{
    let fitting = fits(reading.depth, reading.marked, &placed.token);
    let depth = depth_behind(reading.depth, &placed.token);
    let marked = mark_behind(reading.marked, &placed.token);
    match step(alloc, reading.brackets, reading.spot, &placed.token)? {
        Some(State { brackets, spot }) => {
            if fitting {
                Ok(Reading {
                    brackets,
                    spot,
                    depth,
                    marked,
                })
            } else {
                Err(limit_at(&placed.token, placed.at))
            }
        }
        None => Err(QueryFault::Syntax(placed.at)),
    }
}

/// The query that ends at the spot, or the fault at the text's end.
fn ended(spot: Spot, length: u32) -> Result<Query, QueryFault>
    ensures { Gives result (query_or (ended_at (spot_view spot)) length) }
{
    match spot {
        Spot::Labelled(terms, marked, name, op, labels) => {
            let terms = terms.with(Term::Test {
                marked,
                name,
                op,
                labels,
            })?;
            Ok(Query::Terms(terms))
        }
        Spot::Ended(terms) => Ok(Query::Terms(terms)),
        Spot::Closed(query) => Ok(query),
        Spot::Beginning => Err(QueryFault::Syntax(length)),
        Spot::Another(_terms) | Spot::Marked(_terms) => Err(QueryFault::Syntax(length)),
        Spot::Named(_terms, _mark, _bare, _name) => Err(QueryFault::Syntax(length)),
        Spot::Tested(_terms, _mark, _name, _op) => Err(QueryFault::Syntax(length)),
        Spot::Parted(_terms, _mark, _name, _op, _labels) => Err(QueryFault::Syntax(length)),
        Spot::Called(_terms, _mark, _function) => Err(QueryFault::Syntax(length)),
        Spot::Upper(_terms, _mark, _function, _upper)
        | Spot::Split(_terms, _mark, _function, _upper) => Err(QueryFault::Syntax(length)),
        Spot::Lower(_terms, _mark, _function, _upper, _lower)
        | Spot::Sided(_terms, _mark, _function, _upper, _lower) => Err(QueryFault::Syntax(length)),
        Spot::Asked(_terms, _mark, _place, _upper, _lower) => Err(QueryFault::Syntax(length)),
        Spot::Counted(_terms, _mark, _upper, _lower, _compare) => Err(QueryFault::Syntax(length)),
    }
}

/// The query at the end of the tokens of a text of this length, or the fault there.
fn finish(reading: Reading, length: u32) -> Result<Query, QueryFault>
    ensures { Gives result (finished (reading_view reading) length) }
{
    let Reading {
        brackets,
        spot,
        depth: _depth,
        marked: _marked,
    } = reading;
    match pop(brackets) {
        Some((_bracket, _others)) => Err(QueryFault::Syntax(length)),
        None => ended(spot, length),
    }
}

/// The query of the tokens of a text of this length, or the first fault.
fn read_all(alloc: Global, tokens: &[Placed], length: u32) -> Result<Query, QueryFault>
    ensures { Gives result (read tokens.now length) }
{
    let mut reading = Reading {
        brackets: Vec::new(alloc),
        spot: Spot::Beginning,
        depth: 0,
        marked: false,
    };
    for placed in tokens {
        match take(alloc, reading, placed) {
            Ok(next) => reading = next,
            Err(fault) => return Err(fault),
        }
    }
    finish(reading, length)
}

/// The query of a text that is not too long, or its first fault.
fn read_short(alloc: Global, text: &str) -> Result<Query, QueryFault>
    requires { length text.now ≤ QUERY_BYTES }
    ensures { Gives result (read (tokens_of text.now) (length text.now)) }
{
    let tokens = read_tokens(alloc, text)?;
    read_all(alloc, tokens.as_slice(), text.len() as u32)
}

/// The query that the text is. (EMU-SDMS Manual, "The EMU Query Language version 2".)
///
/// A text of over `QUERY_BYTES` bytes is `TextTooLong`. Else the first token from the left is refused
/// which no query goes on with (`Syntax`, at the text's length where it ends too early), which opens
/// a bracket inside `OPEN_BRACKETS` others (`TooDeep`), or which is a second mark (`TwoMarks`); tested
/// in this order. Places count bytes from 0.
pub fn read_query(alloc: Global, text: &str) -> Result<Query, QueryFault>
    ensures found { IfOk result (λ q. IsQuery text.now (tree_of q)) }
    ensures only { (q : Tree) → IsQuery text.now q → Gives result (Ok q) }
    ensures fault { IfErr result (λ e. e ≢ QueryFault.Memory → IsFault text.now e) }
    ensures told { (e : QueryFault) → IsFault text.now e → Gives result (Err e) }
{
    if text.len() > QUERY_BYTES {
        return Err(QueryFault::TextTooLong);
    }
    read_short(alloc, text)
}
