//! Texts that are made to hurt a reader, long ones, deep ones and names of signs, worked by hand from the
//! grammar and the limits: 4,096 bytes and 32 open brackets.

use crate::queries::{check_fault, check_prints};
use eql_syntax::QueryFault::{Syntax, TextTooLong, TooDeep, TwoMarks};
use eql_syntax::{Query, QueryFault, Term, read_query};
use std::alloc::{AllocError, Global};
use std::process::Abort;
use std::test::Fail;

/// What is repeated before the middle, how often, the middle, and what is repeated as often behind it;
/// and the fault, where the text is refused.
type Row = (
    &'static str,
    usize,
    &'static str,
    &'static str,
    Option<QueryFault>,
);

static ROWS: [Row; 32] = [
    // brackets
    ("[", 4096, "", "", Some(TooDeep(32))),
    ("[", 4097, "", "", Some(TextTooLong)),
    ("[", 32, "A == a", "]", None),
    ("[", 33, "A == a", "]", Some(TooDeep(32))),
    ("[", 32, "A == a", "", Some(Syntax(38))),
    ("]", 4096, "", "", Some(Syntax(0))),
    ("[ ", 33, "", "", Some(TooDeep(64))),
    // sequences and dominances in one another, on the right and on the left
    ("[A == a -> ", 32, "A == a", "]", None),
    ("[A == a ^ ", 33, "A == a", "]", Some(TooDeep(320))),
    ("[", 32, "A == a", " ^ B == b]", None),
    ("[", 33, "A == a", " -> B == b]", Some(TooDeep(32))),
    // a `[` too many is no query there either
    ("A == a & [", 33, "", "", Some(Syntax(9))),
    // quotes: an empty name, and a second one where an operator is wanted
    ("'", 1, "", "", Some(Syntax(0))),
    ("'", 4096, "", "", Some(Syntax(2))),
    ("'", 1, "A == a", "", Some(Syntax(0))),
    ("' ' ", 1024, "", "", Some(Syntax(4))),
    // marks
    ("#", 4096, "", "", Some(Syntax(1))),
    ("#A == a & ", 2, "", "", Some(TwoMarks(10))),
    ("#A == a & ", 409, "", "", Some(TwoMarks(10))),
    // the length of the text, whatever it says
    (" ", 4090, "A == a", "", None),
    (" ", 4091, "A == a", "", Some(TextTooLong)),
    (" ", 4096, "", "", Some(Syntax(4096))),
    ("\0", 4096, "", "", Some(Syntax(4096))),
    ("é", 2048, "", "", Some(Syntax(4096))),
    ("é", 2049, "", "", Some(TextTooLong)),
    // many conditions and many labels
    ("A == a & ", 454, "A == a", "", None),
    ("A == a & ", 455, "", "", Some(Syntax(4095))),
    ("", 2045, "A == a", "|a", None),
    ("", 2046, "A == a", "|a", Some(TextTooLong)),
    // signs without words
    ("!", 4096, "", "", Some(Syntax(0))),
    ("=", 4096, "", "", Some(Syntax(0))),
    ("->", 2048, "", "", Some(Syntax(0))),
];

/// Puts a piece behind a text so many times.
fn push_times(text: &mut String, piece: &str, count: usize) -> Result<(), AllocError> {
    for _ in 0..count {
        text.push_str(piece)?;
    }
    Ok(())
}

/// Puts the three parts of a row's text behind a text.
fn push_parts(
    text: &mut String,
    before: &str,
    count: usize,
    middle: &str,
    behind: &str,
) -> Result<(), AllocError> {
    push_times(text, before, count)?;
    text.push_str(middle)?;
    push_times(text, behind, count)
}

/// The text of a row.
fn text_of(
    alloc: Global,
    before: &str,
    count: usize,
    middle: &str,
    behind: &str,
) -> Result<String, AllocError> {
    let mut text = String::new(alloc);
    push_parts(&mut text, before, count, middle, behind)?;
    Ok(text)
}

/// Makes the text of a row, and compares its fault.
fn check(rt: &impl Abort, alloc: Global, row: &Row) -> Result<(), AllocError> {
    let text = text_of(alloc, row.0, row.1, row.2, row.3)?;
    check_fault(rt, alloc, text.as_str(), row.4);
    Ok(())
}

#[test]
fn hostile_texts_are_read_or_refused(rt: HostRuntime) -> Result<(), Fail> {
    for row in &ROWS {
        check(&rt, rt.alloc(), row)?;
    }
    Ok(())
}

/// Names and labels that are read as they stand between quotes.
static NAMES: [&str; 21] = [
    "",
    " ",
    "\t",
    "\r",
    "\n",
    "\0",
    "\"",
    "[ ] ( ) , & | ^ # -> == = != =~ !~ < <= > >=",
    "Start(A, B) == 1",
    "Num",
    "TRUE",
    "1",
    "//",
    "/*",
    "%s",
    "é",
    "☃",
    "\u{10ffff}",
    "\u{feff}",
    "\u{301}",
    "\u{200b}",
];

/// The same, with a space between each two.
static SIGNS: &str = "[ ] ( ) , & | ^ # -> - > < == = != ! =~ !~ ~ <= >= \\";

/// The text of a test of this name for this label.
fn test_of(alloc: Global, name: &str) -> Result<String, AllocError> {
    format!(in alloc; "'{name}' == '{name}'")
}

/// Makes the text of a test of this name for this label, and compares its prints.
fn check_name(rt: &impl Abort, alloc: Global, name: &str) -> Result<(), Fail> {
    let text = test_of(alloc, name)?;
    check_prints(rt, alloc, text.as_str(), text.as_str())
}

#[test]
fn names_of_signs_stand_in_quotes(rt: HostRuntime) -> Result<(), Fail> {
    for &name in &NAMES {
        check_name(&rt, rt.alloc(), name)?;
    }
    for name in SIGNS.split(' ') {
        check_name(&rt, rt.alloc(), name)?;
    }
    Ok(())
}

/// How many labels the first test of the query has.
fn label_count(query: &Query) -> usize {
    match query {
        Query::Terms(terms) if terms.len() > 0 => match terms.get(0) {
            Term::Test { labels, .. } => labels.len(),
            _ => 0,
        },
        _ => 0,
    }
}

/// How many labels the first test of a text's query has.
fn label_count_of(alloc: Global, text: &str) -> Result<usize, QueryFault> {
    let query = read_query(alloc, text)?;
    Ok(label_count(&query))
}

/// Compares the length of a text in bytes, and how many labels the first test of its query has.
fn check_labels(rt: &impl Abort, alloc: Global, text: &str, bytes: usize, labels: usize) {
    let found = label_count_of(alloc, text);
    assert_eq!(rt; (text.len(), found), (bytes, Ok(labels)));
}

/// How many labels are put behind the first one, how many bytes the text has then, and how many labels.
static LABELS: [(usize, usize, usize); 3] = [(0, 6, 1), (99, 204, 100), (2045, 4096, 2046)];

/// Makes the text of a test with so many labels more, and compares.
fn check_more(
    rt: &impl Abort,
    alloc: Global,
    more: usize,
    bytes: usize,
    labels: usize,
) -> Result<(), AllocError> {
    let text = text_of(alloc, "", more, "A == a", "|a")?;
    check_labels(rt, alloc, text.as_str(), bytes, labels);
    Ok(())
}

#[test]
fn a_test_has_many_labels(rt: HostRuntime) -> Result<(), Fail> {
    for &(more, bytes, labels) in &LABELS {
        check_more(&rt, rt.alloc(), more, bytes, labels)?;
    }
    Ok(())
}

/// A test for one pattern, in quotes.
fn like(alloc: Global, pattern: &str) -> Result<String, AllocError> {
    format!(in alloc; "A =~ '{pattern}'")
}

/// Makes the text of a test for a pattern, and compares.
fn check_like(
    rt: &impl Abort,
    alloc: Global,
    pattern: &str,
    bytes: usize,
) -> Result<(), AllocError> {
    let text = like(alloc, pattern)?;
    check_labels(rt, alloc, text.as_str(), bytes, 1);
    Ok(())
}

#[test]
fn a_pattern_fills_the_text(rt: HostRuntime) -> Result<(), Fail> {
    let groups = text_of(rt.alloc(), "(", 2044, "a", ")")?;
    check_like(&rt, rt.alloc(), groups.as_str(), 4096)?;
    Ok(())
}
