//! A query whose patterns are compiled.
ghost use Rattle.std.specs.Prelude.{◌≡◌, ◌≤◌, true, length, IfOk, IfErr, OnOk};
ghost use Rattle.emu_names.specs.Count.{RoseBy};
ghost use Rattle.emu_names.specs.declared.limits.TheConstants.{QUERY_BYTES};
ghost use Rattle.std.specs.List.{list_all};
ghost use Rattle.label_match.specs.Pattern.{are_patterns};
ghost use Rattle.eql_syntax.specs.declared.query.QueryFault.{QueryFault};
ghost use Rattle.eql_syntax.specs.Tree.{Tree};
ghost use Rattle.eql_syntax.specs.Inner.Tree.{tree_of};
ghost use Rattle.eql_syntax.specs.Answer.{IsQuery, IsFault};
ghost use Rattle.eql_resolve.specs.Prepared.{patterns_of};
ghost use Rattle.eql_resolve.specs.Made.{IsMade, times_too_large};
ghost use Rattle.eql_resolve.specs.Inner.Prepare.{IsPatternFault, Prepares, PreparesQuery, PreparesFault};

use crate::compile::compile_query;
use crate::faults::PrepareFault;
use emu_names::Memory;
use eql_syntax::{Query, QueryFault, read_query};
use label_match::{Pattern, PatternMaker};
use std::alloc::Global;
use std::marker::Model;

/// A query and its compiled patterns, which are the labels of its tests by `=~` and `!~` in the order of
/// the text. Contracts see the query and the texts of the patterns.
#[derive(Drop)]
pub struct Prepared {
    query: Query,
    patterns: Vec<Pattern>,
}

impl Model for Prepared {
    ghost use Rattle.std.specs.Prelude.{◌≡◌};
    ghost use Rattle.eql_syntax.specs.Inner.Tree.{tree_of};
    ghost use Rattle.eql_resolve.specs.Prepared.{PreparedParts, patterns_of};
    ghost use Rattle.eql_resolve.specs.Inner.Codes.{prepared_code};

    ghost Value = { PreparedParts };

    ghost coded = { prepared_code };

    ghost view = { λ p. record { query = tree_of p.query; patterns = p.patterns.items } };

    ghost invariant = { λ p. p.patterns.items ≡ patterns_of (tree_of p.query) };
}

impl Prepared {
    /// The query.
    pub fn query(&self) -> &Query
        ensures { tree_of result.now ≡ self.now.query }
    {
        &self.query
    }

    /// The compiled patterns, in the order of the text.
    pub fn patterns(&self) -> &[Pattern]
        ensures texts { result.now ≡ self.now.patterns }
        ensures labels { self.now.patterns ≡ patterns_of self.now.query }
    {
        self.patterns.as_slice()
    }
}

/// A query with its patterns compiled, or why the first that the maker refuses was refused.
fn with_patterns<P: PatternMaker>(
    alloc: Global,
    maker: &mut P,
    query: Query,
) -> Result<Prepared, PrepareFault>
    requires { length (patterns_of (tree_of query)) ≤ QUERY_BYTES }
    ensures query { IfOk result (λ prepared. prepared.query ≡ tree_of query) }
    ensures patterns { IfOk result (λ prepared. prepared.patterns ≡ patterns_of (tree_of query)) }
    ensures read { OnOk result (list_all are_patterns (patterns_of (tree_of query)) ≡ true) }
    ensures fault { IfErr result (IsPatternFault (patterns_of (tree_of query))
        (P.refusals maker.old) (P.refusals maker.new)) }
    ensures later { P.refusals maker.old ≤ P.refusals maker.new }
{
    match compile_query(alloc, maker, &query) {
        Ok(patterns) => Ok(Prepared { query, patterns }),
        Err(fault) => Err(fault),
    }
}

/// The query of a text with its patterns compiled, each once and in the order of the text.
///
/// The fault of the text comes first, else that of the first pattern which the maker refuses:
/// `BadPattern` is the first that is no pattern of labels, `PatternTooLarge` comes only where the
/// maker's refusals rose in this call.
#[tactic(auto, using(crate::proofs::Makings::prepares, crate::proofs::Makings::rose_for))]
pub fn prepare<P: PatternMaker>(
    alloc: Global,
    maker: &mut P,
    text: &str,
) -> Result<Prepared, PrepareFault>
    ensures made { Prepares text.now result }
    ensures rose { RoseBy (times_too_large result) (P.refusals maker.old) (P.refusals maker.new) }
    ensures only { (q : Tree) → IsQuery text.now q
        → PreparesQuery q (P.refusals maker.old) (P.refusals maker.new) result }
    ensures told { (fault : QueryFault) → IsFault text.now fault → PreparesFault fault result }
    ensures later { P.refusals maker.old ≤ P.refusals maker.new }
{
    match read_query(alloc, text) {
        Ok(query) => with_patterns(alloc, maker, query),
        Err(QueryFault::Memory) => Err(PrepareFault::Memory),
        Err(fault) => Err(PrepareFault::Query(fault)),
    }
}

/// What is made of a text: its query with its patterns compiled, or the fault of the text or of a
/// pattern, as `prepare` tells them. The only refusal is want of memory, which is no fault of the text.
pub fn made_of<P: PatternMaker>(
    alloc: Global,
    maker: &mut P,
    text: &str,
) -> Result<Result<Prepared, PrepareFault>, Memory>
    ensures made { IfOk result (λ made. IsMade text.now made) }
    ensures rose { IfOk result (λ made. RoseBy (times_too_large made)
        (P.refusals maker.old) (P.refusals maker.new)) }
    ensures later { P.refusals maker.old ≤ P.refusals maker.new }
{
    match prepare(alloc, maker, text) {
        Ok(prepared) => Ok(Ok(prepared)),
        Err(PrepareFault::Memory) => Err(Memory),
        Err(fault) => Ok(Err(fault)),
    }
}
