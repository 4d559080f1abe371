//! Texts of queries with the patterns that are compiled of them, or with why they are refused.

use eql_resolve::PrepareFault::{BadPattern, PatternTooLarge, Query};
use eql_resolve::{PrepareFault, prepare};
use eql_syntax::QueryFault::{Syntax, TwoMarks};
use label_match::{ListMaker, Pattern, PatternMaker, RegexMaker};
use std::alloc::{AllocError, Global};
use std::process::Abort;
use std::test::Fail;

/// A text, the one call of the maker that is refused, counted from 1, and the number of patterns.
type Row = (&'static str, u64, Result<usize, PrepareFault>);

static ROWS: [Row; 15] = [
    ("[Phonetic =~ '[Vm]']", 9, Ok(1)),
    ("[Phonetic == a|b -> X !~ c]", 9, Ok(1)),
    ("[Phonetic == a|b -> X != c]", 1, Ok(0)),
    ("[Phonetic =~ a|b -> X !~ c]", 4, Ok(3)),
    ("[Phonetic == a -> [X =~ d ^ Y !~ e|f]]", 9, Ok(3)),
    ("Phonetic =~ '('", 9, Err(BadPattern(0))),
    (
        "[Phonetic == V & Phonetic =~ '(' & Phonetic =~ ')']",
        9,
        Err(BadPattern(0)),
    ),
    (
        "[Phonetic == '(' & Phonetic =~ a|b & Phonetic !~ ')']",
        9,
        Err(BadPattern(2)),
    ),
    ("[Phonetic =~ '[Vm]']", 1, Err(PatternTooLarge(0))),
    ("[Phonetic =~ a|b -> X !~ c]", 3, Err(PatternTooLarge(2))),
    ("[Phonetic =~ '(' -> X =~ a]", 2, Err(BadPattern(0))),
    ("[Phonetic =~ a -> X =~ '(']", 1, Err(PatternTooLarge(0))),
    ("[Phonetic =~ '(' -> ", 1, Err(Query(Syntax(20)))),
    ("", 9, Err(Query(Syntax(0)))),
    ("[#A =~ '(' -> #B == b]", 9, Err(Query(TwoMarks(14)))),
];

/// How many patterns the text is prepared to.
fn pattern_count<P: PatternMaker>(
    alloc: Global,
    maker: &mut P,
    text: &str,
) -> Result<usize, PrepareFault> {
    let prepared = prepare(alloc, maker, text)?;
    let count = prepared.patterns().len();
    drop(prepared);
    Ok(count)
}

/// The same answer, with a copy of its fault.
fn copied(answer: Result<usize, PrepareFault>) -> Result<usize, PrepareFault> {
    match answer {
        Ok(count) => Ok(count),
        Err(fault) => Err(fault.copy()),
    }
}

/// Prepares a text, and compares the number of patterns.
fn expect_count<P: PatternMaker>(
    rt: &impl Abort,
    alloc: Global,
    maker: &mut P,
    text: &str,
    wanted: Result<usize, PrepareFault>,
) {
    let found = copied(pattern_count(alloc, maker, text));
    assert_eq!(rt; found, wanted, "{text}");
}

/// Prepares the text of a row by a maker that refuses one call, and compares the number of patterns.
fn check(rt: &impl Abort, alloc: Global, row: &Row) -> Result<(), AllocError> {
    let mut maker = ListMaker::new(Vec::from_slice(alloc, &[row.1])?);
    expect_count(rt, alloc, &mut maker, row.0, row.2);
    Ok(())
}

#[test]
fn texts_are_prepared_or_refused(rt: HostRuntime) -> Result<(), Fail> {
    for row in &ROWS {
        check(&rt, rt.alloc(), row)?;
    }
    Ok(())
}

/// Whether these are the texts of the patterns.
fn has_texts(patterns: &[Pattern], wanted: &[&str]) -> bool {
    if patterns.len() != wanted.len() {
        return false;
    }
    for (pattern, text) in patterns.iter().zip(wanted) {
        if pattern.as_str() != *text {
            return false;
        }
    }
    true
}

/// Whether these are the texts of the patterns of a text's query.
fn are_patterns_of(alloc: Global, text: &str, wanted: &[&str]) -> Result<bool, PrepareFault> {
    let mut maker = RegexMaker::new();
    let prepared = prepare(alloc, &mut maker, text)?;
    let has = has_texts(prepared.patterns(), wanted);
    drop(prepared);
    Ok(has)
}

#[test]
fn patterns_stand_in_the_order_of_the_text(rt: HostRuntime) {
    let text = "[[A =~ a & B !~ b|c] -> [[C == d ^ D =~ e] ^ E !~ f & F =~ '']]";
    let found = are_patterns_of(rt.alloc(), text, &["a", "b", "c", "e", "f", ""]);
    assert_eq!(rt; found, Ok(true));
}

/// A test for one pattern of so many groups in one another.
fn grouped(alloc: Global, count: usize) -> Result<String, AllocError> {
    let mut text = String::new(alloc);
    text.push_str("A =~ '")?;
    for _ in 0..count {
        text.push('(')?;
    }
    text.push('a')?;
    for _ in 0..count {
        text.push(')')?;
    }
    text.push('\'')?;
    Ok(text)
}

/// How many groups a test has, and the number of patterns. 2,044 groups fill the 4,096 bytes of a text;
/// patterns are nested 250 deep at most.
type Groups = (usize, Result<usize, PrepareFault>);

static GROUPS: [Groups; 3] = [(0, Ok(1)), (100, Ok(1)), (2044, Err(BadPattern(0)))];

/// Prepares a test of so many groups, and compares the number of patterns.
fn check_groups(rt: &impl Abort, alloc: Global, row: &Groups) -> Result<(), AllocError> {
    let text = grouped(alloc, row.0)?;
    let mut maker = RegexMaker::new();
    expect_count(rt, alloc, &mut maker, text.as_str(), row.1);
    Ok(())
}

#[test]
fn groups_in_one_another_have_a_limit(rt: HostRuntime) -> Result<(), Fail> {
    for row in &GROUPS {
        check_groups(&rt, rt.alloc(), row)?;
    }
    Ok(())
}
