//! Questions that go to threads, and patterns that threads share.

use eql_syntax::{Query, read_query};
use label_match::{Pattern, PatternFault, PatternMaker, RegexMaker};
use std::alloc::Global;
use std::test::Fail;
use std::thread;

/// A query and its patterns, as a question has them.
#[derive(Drop)]
struct Question {
    query: Query,
    patterns: Vec<Pattern>,
}

/// The pattern of a text.
fn pattern_of(alloc: Global, text: &str) -> Result<Pattern, PatternFault> {
    let mut maker = RegexMaker::new();
    maker.compile(alloc, text)
}

/// The list of the one pattern of a text.
fn patterns_of(alloc: Global, text: &str) -> Result<Vec<Pattern>, Fail> {
    let pattern = pattern_of(alloc, text)?;
    let mut patterns = Vec::new(alloc);
    patterns.push(pattern)?;
    Ok(patterns)
}

/// The question of a text of a query and of one of a pattern.
fn make_question(alloc: Global, text: &str, pattern: &str) -> Result<Question, Fail> {
    let patterns = patterns_of(alloc, pattern)?;
    let query = read_query(alloc, text)?;
    Ok(Question { query, patterns })
}

/// Whether each pattern of the question matches the label. No answer is want of memory.
fn all_match(alloc: Global, question: &Question, label: &str) -> Option<bool> {
    let Query::Terms(_) = &question.query else {
        return None;
    };
    for pattern in question.patterns.as_slice() {
        if !pattern.matches(alloc, label).ok()? {
            return Some(false);
        }
    }
    Some(true)
}

#[test]
fn questions_go_to_a_thread(rt: HostRuntime) -> Result<(), Fail> {
    let alloc = rt.alloc();
    let sent = make_question(alloc, "[Phonetic =~ '[Vm]']", "[Vm]")?;
    let child = thread::spawn(&rt, move || all_match(alloc, &sent, "V"))?;
    assert!(rt; child.join(&rt) == Some(true));
    Ok(())
}

#[test]
fn threads_share_a_question(rt: HostRuntime) -> Result<(), Fail> {
    let alloc = rt.alloc();
    let shared = make_question(alloc, "[Phonetic =~ '[Vm]']", "[Vm]")?;
    let (here, there) = thread::join(
        &rt,
        || all_match(alloc, &shared, "m"),
        || all_match(alloc, &shared, "Vm"),
    );
    assert!(rt; (here, there) == (Some(true), Some(false)));
    Ok(())
}
