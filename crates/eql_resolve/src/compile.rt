//! The patterns of a query, compiled.
ghost use Rattle.std.specs.Prelude.{◌≡◌, ◌≤◌, ◌++◌, true, IfOk, IfErr, OnOk, length};
ghost use Rattle.std.specs.List.{list_all};
ghost use Rattle.emu_names.specs.declared.limits.TheConstants.{QUERY_BYTES};
ghost use Rattle.label_match.specs.Pattern.{are_patterns};
ghost use Rattle.eql_syntax.specs.Inner.Tree.{tree_of};
ghost use Rattle.eql_resolve.specs.Prepared.{patterns_under, term_patterns, terms_patterns, patterns_of};
ghost use Rattle.eql_resolve.specs.Inner.Prepare.{IsPatternFault, refusal};

use crate::faults::PrepareFault;
use emu_names::{Memory, Text};
use eql_syntax::{Op, Query, Term, Words};
use label_match::{Pattern, PatternFault, PatternMaker};
use std::alloc::Global;

/// Puts these words last.
fn put_words(alloc: Global, words: &[Text], texts: &mut Words) -> Result<(), Memory>
    ensures { OnOk result (texts.new ≡ texts.old ++ words.now) }
{
    for word in words {
        texts.push(word.copy(alloc)?)?;
    }
    Ok(())
}

/// Puts the patterns of a test last.
fn put_under(alloc: Global, op: Op, labels: &Words, texts: &mut Words) -> Result<(), Memory>
    ensures { OnOk result (texts.new ≡ texts.old ++ patterns_under op labels.now) }
{
    match op {
        Op::Is | Op::IsNot => Ok(()),
        Op::Like | Op::NotLike => put_words(alloc, labels.as_slice(), texts),
    }
}

/// Puts the patterns of a condition last.
fn put_term(alloc: Global, term: &Term, texts: &mut Words) -> Result<(), Memory>
    ensures { OnOk result (texts.new ≡ texts.old ++ term_patterns term.now) }
{
    match term {
        Term::Test { op, labels, .. } => put_under(alloc, *op, labels, texts),
        Term::Place { .. } => Ok(()),
        Term::Num { .. } => Ok(()),
    }
}

/// Puts the patterns of the conditions last.
fn put_terms(alloc: Global, terms: &[Term], texts: &mut Words) -> Result<(), Memory>
    ensures { OnOk result (texts.new ≡ texts.old ++ terms_patterns terms.now) }
{
    for term in terms {
        put_term(alloc, term, texts)?;
    }
    Ok(())
}

/// Puts the patterns of a query last, in the order of the text.
fn put_query(alloc: Global, query: &Query, texts: &mut Words) -> Result<(), Memory>
    ensures { OnOk result (texts.new ≡ texts.old ++ patterns_of (tree_of query.now)) }
{
    match query {
        Query::Terms(terms) => put_terms(alloc, terms.as_slice(), texts),
        Query::Sequence(left, right) => {
            put_query(alloc, left, texts)?;
            put_query(alloc, right, texts)
        }
        Query::Dominance(left, right) => {
            put_query(alloc, left, texts)?;
            put_query(alloc, right, texts)
        }
    }
}

/// The texts of the patterns of a query, in the order of the text.
fn pattern_texts(alloc: Global, query: &Query) -> Result<Words, Memory>
    ensures { IfOk result (λ texts. texts ≡ patterns_of (tree_of query.now)) }
{
    let mut texts = Words::new(alloc);
    match put_query(alloc, query, &mut texts) {
        Ok(()) => Ok(texts),
        Err(fault) => Err(fault),
    }
}

/// What a maker's refusal of the pattern of this number is.
fn refused(fault: PatternFault, number: u32) -> PrepareFault
    ensures { result ≡ refusal fault number }
{
    match fault {
        PatternFault::Syntax => PrepareFault::BadPattern(number),
        PatternFault::Size => PrepareFault::PatternTooLarge(number),
        PatternFault::Memory => PrepareFault::Memory,
    }
}

/// The patterns of these texts, each compiled once and in order, or why the first was refused.
fn compile_texts<P: PatternMaker>(
    alloc: Global,
    maker: &mut P,
    texts: &[Text],
) -> Result<Vec<Pattern>, PrepareFault>
    requires { length texts.now ≤ QUERY_BYTES }
    ensures texts { IfOk result (λ patterns. patterns.items ≡ texts.now) }
    ensures read { OnOk result (list_all are_patterns texts.now ≡ true) }
    ensures fault { IfErr result
        (IsPatternFault texts.now (P.refusals maker.old) (P.refusals maker.new)) }
    ensures later { P.refusals maker.old ≤ P.refusals maker.new }
{
    let mut patterns = Vec::new(alloc);
    for text in texts {
        match maker.compile(alloc, text.as_str()) {
            Ok(pattern) => patterns.push(pattern)?,
            Err(fault) => return Err(refused(fault, patterns.len() as u32)),
        }
    }
    Ok(patterns)
}

/// The compiled patterns of a query of which there are few, or why the first was refused.
pub(crate) fn compile_query<P: PatternMaker>(
    alloc: Global,
    maker: &mut P,
    query: &Query,
) -> Result<Vec<Pattern>, PrepareFault>
    requires { length (patterns_of (tree_of query.now)) ≤ QUERY_BYTES }
    ensures texts { IfOk result (λ patterns. patterns.items ≡ patterns_of (tree_of query.now)) }
    ensures read { OnOk result (list_all are_patterns (patterns_of (tree_of query.now)) ≡ true) }
    ensures fault { IfErr result (IsPatternFault (patterns_of (tree_of query.now))
        (P.refusals maker.old) (P.refusals maker.new)) }
    ensures later { P.refusals maker.old ≤ P.refusals maker.new }
{
    match pattern_texts(alloc, query) {
        Ok(texts) => compile_texts(alloc, maker, texts.as_slice()),
        Err(_) => Err(PrepareFault::Memory),
    }
}
