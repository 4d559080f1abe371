//! What no clause says: which patterns match which labels, and that calls succeed with memory.
use label_match::{ListMaker, Memory, Pattern, PatternFault, PatternMaker, RegexMaker};
use std::alloc::Global;
use std::process::Abort;
use std::test::Fail;

/// What a pattern does with a label, or that its text is no pattern.
#[derive(Clone, Copy, Debug, PartialEq, Eq)]
enum Says {
    Yes,
    No,
    Refused,
}

use Says::{No, Refused, Yes};

static ROWS: [(&str, &str, Says); 48] = [
    ("m", "m", Yes),
    // the whole label
    ("a", "ab", No),
    ("a", "ba", No),
    ("a|b", "ab", No),
    ("a|b", "a", Yes),
    ("a|b", "b", Yes),
    // the empty label and the empty text
    (".*", "", Yes),
    ("", "", Yes),
    ("", "a", No),
    ("a", "", No),
    // anchors of the text's own
    ("^a$|b", "a", Yes),
    ("^a$|b", "b", Yes),
    ("^a$|b", "ab", No),
    ("a$b", "ab", No),
    // alternation inside groups
    ("(a|ab)c", "abc", Yes),
    ("x(?:a|b)y|z", "xby", Yes),
    ("x(?:a|b)y|z", "xb", No),
    ("x(?:a|b)y|z", "yz", No),
    ("a|ab|abc", "abc", Yes),
    ("(?:a|b)+", "abba", Yes),
    ("a*?", "aaa", Yes),
    // classes, and labels of more than one byte a character
    ("[Vm]", "V", Yes),
    ("[Vm]", "Vm", No),
    ("[\u{e9}-\u{fc}]", "\u{f6}", Yes),
    ("[\u{e9}-\u{fc}]", "\u{fd}", No),
    ("[^a]", "\u{e9}", Yes),
    (".", "\u{2603}", Yes),
    ("..", "\u{e9}", No),
    ("\\w+", "\u{e9}\u{f6}", Yes),
    // flags reach no further than the text
    ("(?i)A", "a", Yes),
    ("(?i)A", "ab", No),
    (".", "\n", No),
    ("(?s).", "\n", Yes),
    ("(?m)^a$", "a\nb", No),
    ("(?m)a$", "a", Yes),
    ("a\n", "a", No),
    // a comment that takes the closing bracket with it, and one that ends before
    ("(?x)a # b", "a", Refused),
    ("(?x)a # b\n", "a", Yes),
    ("(?x) a b ", "ab", Yes),
    // no patterns by themselves, though some are when they are set
    ("(", "(", Refused),
    (")", ")", Refused),
    ("[", "[", Refused),
    ("a)|(?:b", "a", Refused),
    ("a\\", "a", Refused),
    ("*", "", Refused),
    ("a{2,1}", "aa", Refused),
    ("(?<n>a)(?<n>b)", "ab", Refused),
    ("\\(", "(", Yes),
];

/// Whether a pattern matches a label.
fn said(alloc: Global, pattern: &Pattern, label: &str) -> Result<bool, PatternFault> {
    match pattern.matches(alloc, label) {
        Ok(found) => Ok(found),
        Err(_) => Err(PatternFault::Memory),
    }
}

/// Whether the pattern of `text` matches `label`, or why there is none.
fn tried<P: PatternMaker>(
    maker: &mut P,
    alloc: Global,
    text: &str,
    label: &str,
) -> Result<bool, PatternFault> {
    match maker.compile(alloc, text) {
        Ok(pattern) => said(alloc, &pattern, label),
        Err(fault) => Err(fault.copy()),
    }
}

fn answer(alloc: Global, text: &str, label: &str) -> Result<Says, PatternFault> {
    match tried(&mut RegexMaker::new(), alloc, text, label) {
        Ok(true) => Ok(Yes),
        Ok(false) => Ok(No),
        Err(PatternFault::Syntax) => Ok(Refused),
        Err(fault) => Err(fault),
    }
}

#[test]
fn patterns_match_whole_labels(rt: HostRuntime) -> Result<(), Fail> {
    for &(text, label, wanted) in &ROWS {
        assert_eq!(rt; answer(rt.alloc(), text, label)?, wanted, "{text}");
    }
    Ok(())
}

/// A text, whether its pattern matches the label, and the refusals that are counted then.
type Call = (&'static str, Result<bool, PatternFault>, u64);

static REFUSALS: [Call; 4] = [
    ("(?:a{1000}){1000}", Err(PatternFault::Size), 1),
    ("(", Err(PatternFault::Syntax), 1),
    ("a", Ok(true), 1),
    ("a{4294967295}", Err(PatternFault::Size), 2),
];

#[test]
fn refusals_are_counted(rt: HostRuntime) {
    let mut maker = RegexMaker::new();
    for &(text, wanted, refusals) in &REFUSALS {
        let found = tried(&mut maker, rt.alloc(), text, "a");
        assert_eq!(rt; (found, maker.refusals()), (wanted, refusals), "{text}");
    }
}

static LISTED: [Call; 5] = [
    ("[Vm]", Err(PatternFault::Size), 1),
    ("[Vm]", Ok(true), 1),
    (")", Err(PatternFault::Syntax), 1),
    ("(", Err(PatternFault::Size), 2),
    ("v", Ok(false), 2),
];

/// Compares the calls of a maker.
fn expect_listed(rt: &impl Abort, alloc: Global, maker: &mut ListMaker) {
    for &(text, wanted, refusals) in &LISTED {
        let found = tried(maker, alloc, text, "V");
        assert_eq!(rt; (found, maker.refusals()), (wanted, refusals), "{text}");
    }
}

#[test]
fn listed_calls_are_refused(rt: HostRuntime) -> Result<(), Fail> {
    let mut maker = ListMaker::new(Vec::from_slice(rt.alloc(), &[1, 4])?);
    expect_listed(&rt, rt.alloc(), &mut maker);
    Ok(())
}

/// The label at a place of a list that says `V`, `Vm`, `V`, `m`, `V`, `Vm` again and again.
fn label_at(place: u32) -> &'static str {
    if place % 2 == 0 {
        "V"
    } else if place % 3 == 0 {
        "m"
    } else {
        "Vm"
    }
}

/// How many of the first `count` labels of that list the pattern matches, asked by one search.
fn matched(alloc: Global, pattern: &Pattern, count: u32) -> Result<u32, Memory> {
    let mut matching = pattern.matcher(alloc)?;
    let mut found: u32 = 0;
    for place in 0..count {
        let more = u32::from(matching.matches(label_at(place)));
        found = found.saturating_add(more);
    }
    Ok(found)
}

/// How many of so many labels the pattern of a text matches.
fn matched_by(alloc: Global, text: &str, count: u32) -> Result<u32, Fail> {
    let pattern = RegexMaker::new().compile(alloc, text)?;
    Ok(matched(alloc, &pattern, count)?)
}

#[test]
fn one_search_asks_many_labels(rt: HostRuntime) -> Result<(), Fail> {
    let found = matched_by(rt.alloc(), "[Vm]", 200_000)?;
    assert_eq!(rt; found, 133_333);
    Ok(())
}
