//! What no clause says: that calls succeed where memory is ample, and the printed words.
use emu_names::{
    Broken, BundleKey, Fault, ItemId, LevelKind, LinkKind, Memory, Name, NameFault, SessionNo,
    Text, What, is_name,
};
use std::alloc::{AllocError, Global};
use std::collections::BTreeSet;
use std::process::Abort;
use std::test::Fail;

/// A piece of text, how often it stands in a row, and whether the whole is a name.
static NAMES: [(&str, usize, bool); 13] = [
    ("", 1, false),
    ("a", 1, true),
    (" ", 1, true),
    ("msajc003", 1, true),
    ("caf\u{e9}", 1, true),
    ("a\u{1f}", 1, false),
    ("\n", 1, false),
    ("\u{7f}", 1, false),
    ("\u{80}", 1, true),
    ("a", 255, true),
    ("a", 256, false),
    ("\u{e9}", 127, true),
    ("\u{e9}", 128, false),
];

/// A text, this many times.
fn repeated(alloc: Global, piece: &str, count: usize) -> Result<String, AllocError> {
    let mut text = String::new(alloc);
    for _ in 0..count {
        text.push_str(piece)?;
    }
    Ok(text)
}

/// Whether the name of a text and its copy have just this text.
fn is_kept(alloc: Global, text: &str) -> Result<bool, NameFault> {
    let name = Name::new(alloc, text)?;
    let copied = name.copy(alloc)?;
    Ok(name.as_str() == text && copied == name)
}

/// Whether a piece of text, so many times in a row, is a name, and whether a name of it is kept.
fn answers(
    alloc: Global,
    piece: &str,
    count: usize,
) -> Result<(bool, Result<bool, NameFault>), AllocError> {
    let text = repeated(alloc, piece, count)?;
    let kept = match is_kept(alloc, text.as_str()) {
        Ok(kept) => Ok(kept),
        Err(fault) => Err(fault.copy()),
    };
    Ok((is_name(text.as_str()), kept))
}

#[test]
fn names_are_clean_and_have_a_limit(rt: HostRuntime) -> Result<(), Fail> {
    for &(piece, count, good) in &NAMES {
        let found = answers(rt.alloc(), piece, count)?;
        let wanted = if good {
            (true, Ok(true))
        } else {
            (false, Err(NameFault::BadName))
        };
        assert_eq!(rt; found, wanted, "{count} {piece}");
    }
    Ok(())
}

fn key(alloc: Global, names: (&str, &str)) -> Result<BundleKey, NameFault> {
    Ok(BundleKey {
        session: Name::new(alloc, names.0)?,
        bundle: Name::new(alloc, names.1)?,
    })
}

/// Session and bundle of keys that rise.
static KEYS: [(&str, &str); 7] = [
    ("0", "z"),
    ("A", "b"),
    ("a", "a"),
    ("a", "ab"),
    ("a", "b"),
    ("ab", "a"),
    ("b", "a"),
];

/// Whether a key stands before another, of which a copy is the same.
fn are_in_order(
    alloc: Global,
    earlier: (&str, &str),
    later: (&str, &str),
) -> Result<bool, NameFault> {
    let before = key(alloc, earlier)?;
    let next = key(alloc, later)?;
    let copied = next.copy(alloc)?;
    Ok(before < next && copied == next)
}

#[test]
fn keys_are_in_order(rt: HostRuntime) -> Result<(), Fail> {
    let mut earlier = KEYS[0];
    for &later in &KEYS[1..] {
        let rises = are_in_order(rt.alloc(), earlier, later)?;
        assert!(rt; rises, "{later:?}");
        earlier = later;
    }
    Ok(())
}

/// Numbers in no order, and the same ones in order, each once.
static NUMBERS: [u32; 4] = [9, 2, 10, 2];

static IN_ORDER: [u32; 3] = [2, 9, 10];

/// The set of some ids.
fn set_of(alloc: Global, numbers: &[u32]) -> Result<BTreeSet<ItemId>, AllocError> {
    let mut ids = BTreeSet::new(alloc);
    for &number in numbers {
        ids.insert(ItemId(number))?;
    }
    Ok(ids)
}

/// Whether a set has these ids, in this order.
fn are(ids: &BTreeSet<ItemId>, numbers: &[u32]) -> bool {
    ids.len() == numbers.len()
        && ids
            .iter()
            .zip(numbers)
            .all(|(id, number)| id.copy().0 == *number)
}

#[test]
fn ids_are_in_order(rt: HostRuntime) -> Result<(), Fail> {
    let ids = set_of(rt.alloc(), &NUMBERS)?;
    assert!(rt; are(&ids, &IN_ORDER));
    Ok(())
}

#[test]
fn plain_values_are_copied(rt: HostRuntime) {
    let rises = SessionNo(2).copy() < SessionNo(16);
    let level = LevelKind::Event.copy() == LevelKind::Event;
    let link = LinkKind::OneToMany.copy() == LinkKind::OneToMany;
    assert!(rt; rises && level && link);
}

/// The numbers of the rules, and their words.
static RULES: [(u8, &str); 30] = [
    (1, "BundleTaken"),
    (2, "NoBundle"),
    (3, "TooMany"),
    (4, "RateOut"),
    (5, "NoLevel"),
    (6, "TwoLevels"),
    (7, "LevelKind"),
    (8, "NoAttribute"),
    (9, "TwoLabels"),
    (10, "LabelTooLong"),
    (11, "IllegalLabel"),
    (12, "IdTaken"),
    (13, "NoItem"),
    (14, "PositionOut"),
    (15, "TimeKind"),
    (16, "TimeOut"),
    (17, "Overlap"),
    (18, "NotRising"),
    (19, "NoNeighbour"),
    (20, "CutOut"),
    (21, "NoLinkDefinition"),
    (22, "LinkExists"),
    (23, "NoLink"),
    (24, "OneParent"),
    (25, "OneChild"),
    (53, "DoubleName"),
    (54, "UnknownLevel"),
    (55, "DoubleLink"),
    (56, "LevelCycle"),
    (57, "NothingToLink"),
];

/// The rule with a name, of this number.
fn named(number: u8, name: Text) -> Broken {
    match number {
        5 => Broken::NoLevel(name),
        6 => Broken::TwoLevels(name),
        7 => Broken::LevelKind(name),
        8 => Broken::NoAttribute(name),
        9 => Broken::TwoLabels(name),
        53 => Broken::DoubleName(name),
        _ => Broken::UnknownLevel(name),
    }
}

/// The rule without a name, of this number.
fn unnamed(number: u8, id: ItemId) -> Broken {
    match number {
        1 => Broken::BundleTaken,
        2 => Broken::NoBundle,
        3 => Broken::TooMany(What::AllItems),
        4 => Broken::RateOut,
        10 => Broken::LabelTooLong,
        11 => Broken::IllegalLabel,
        12 => Broken::IdTaken(id),
        13 => Broken::NoItem(id),
        14 => Broken::PositionOut,
        15 => Broken::TimeKind,
        16 => Broken::TimeOut,
        17 => Broken::Overlap(id),
        18 => Broken::NotRising(id),
        19 => Broken::NoNeighbour(id),
        20 => Broken::CutOut,
        21 => Broken::NoLinkDefinition,
        22 => Broken::LinkExists,
        23 => Broken::NoLink,
        24 => Broken::OneParent(id),
        25 => Broken::OneChild(id),
        55 => Broken::DoubleLink,
        56 => Broken::LevelCycle,
        _ => Broken::NothingToLink,
    }
}

/// The rule of this number.
fn rule_of(alloc: Global, number: u8) -> Result<Broken, Memory> {
    if (5..=9).contains(&number) || (53..=54).contains(&number) {
        Ok(named(number, Text::new(alloc, "Phonetic")?))
    } else {
        Ok(unnamed(number, ItemId(7)))
    }
}

/// Whether a copy of a fault is the same.
fn is_copied(alloc: Global, fault: &Fault) -> Result<bool, Memory> {
    let copied = fault.copy(alloc)?;
    Ok(copied == *fault)
}

/// Compares a rule's number and word, and a copy of it as a fault.
fn expect_rule(rt: &impl Abort, alloc: Global, rule: Broken, number: u8, word: &str) {
    let told = (rule.number(), rule.word());
    let fault = Fault::Broken(rule);
    let copied = is_copied(alloc, &fault);
    drop(fault);
    assert_eq!(rt; (told, copied), ((number, word), Ok(true)));
}

#[test]
fn rules_have_numbers_and_words(rt: HostRuntime) -> Result<(), Fail> {
    for &(number, word) in &RULES {
        let rule = rule_of(rt.alloc(), number)?;
        expect_rule(&rt, rt.alloc(), rule, number, word);
    }
    Ok(())
}

/// What is counted, with its word.
static COUNTED: [(What, &str); 7] = [
    (What::Bundles, "Bundles"),
    (What::BundleItems, "BundleItems"),
    (What::AllItems, "AllItems"),
    (What::BundleLinks, "BundleLinks"),
    (What::Levels, "Levels"),
    (What::Attributes, "Attributes"),
    (What::LinkDefinitions, "LinkDefinitions"),
];

#[test]
fn counted_things_have_words(rt: HostRuntime) {
    for &(what, word) in &COUNTED {
        assert_eq!(rt; what.copy().word(), word);
    }
}
