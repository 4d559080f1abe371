//! One JSON value, and what each call makes of its parts.
use json_view::{Shape, TextViews, View, ViewFault, Wanted};
use serde_json::Value;
use std::alloc::{AllocError, Global};
use std::process::Abort;
use std::test::Fail;

const TEXT: &str = r#"{
    "a": [{"b": "x"}, null, {"b": 7}],
    "twice": 1, "twice": 2,
    "nothing": null,
    "text": "hi", "empty": "",
    "texts": ["x", "", "y"], "mixed": ["x", 3, null], "none": [],
    "numbers": [0, 7, 8, 9223372036854775808, 18446744073709551615, 18446744073709551616,
        1.0, 1e3, -0, -1, "1", null, true]
}"#;

/// The fault's text, or `ok`.
fn told<T: Drop>(alloc: Global, answer: Result<T, ViewFault>) -> Result<String, AllocError> {
    match answer {
        Ok(_) => String::from_str(alloc, "ok"),
        Err(fault) => format!(in alloc; "{fault}"),
    }
}

/// The text, or the fault's text.
fn text_told(alloc: Global, answer: Result<&str, ViewFault>) -> Result<String, AllocError> {
    match answer {
        Ok(text) => format!(in alloc; "<{text}>"),
        Err(fault) => format!(in alloc; "{fault}"),
    }
}

/// The number, or the fault's text.
fn whole_told(alloc: Global, answer: Result<u64, ViewFault>) -> Result<String, AllocError> {
    match answer {
        Ok(number) => format!(in alloc; "{number}"),
        Err(fault) => format!(in alloc; "{fault}"),
    }
}

/// How many texts there are, and each of them.
fn texts_shown(alloc: Global, texts: &TextViews) -> Result<String, AllocError> {
    let mut shown = format!(in alloc; "{}", texts.len())?;
    for place in 0..texts.len() {
        shown.push('|')?;
        shown.push_str(texts.get(place))?;
    }
    Ok(shown)
}

/// The texts, or the fault's text.
fn texts_told(alloc: Global, view: &View) -> Result<String, AllocError> {
    match view.texts() {
        Ok(texts) if texts.is_empty() => String::from_str(alloc, "none"),
        Ok(texts) => texts_shown(alloc, &texts),
        Err(fault) => format!(in alloc; "{fault}"),
    }
}

/// Whether the member is there, or the fault's text.
fn optional_told(alloc: Global, view: &View, name: &str) -> Result<String, AllocError> {
    match view.optional(name) {
        Ok(member) => String::from_str(
            alloc,
            if member.is_some() {
                "there"
            } else {
                "not there"
            },
        ),
        Err(fault) => format!(in alloc; "{fault}"),
    }
}

/// What is asked of a view.
#[derive(Clone, Copy)]
enum Call {
    Text,
    Object,
    Length,
    Texts,
    Whole(u64),
    Optional(&'static str),
    Member(&'static str, Wanted),
    Refuse(Wanted),
}

use Call::{Length, Member, Object, Optional, Refuse, Text, Texts, Whole};

/// A call's answer as a text.
fn answer(alloc: Global, view: &View, call: Call) -> Result<String, AllocError> {
    match call {
        Text => text_told(alloc, view.text()),
        Object => told(alloc, view.object()),
        Length => told(alloc, view.list_len()),
        Texts => texts_told(alloc, view),
        Whole(most) => whole_told(alloc, view.whole(most)),
        Optional(name) => optional_told(alloc, view, name),
        Member(name, wanted) => told(alloc, view.member(name, wanted)),
        Refuse(wanted) => told(alloc, Err::<(), ViewFault>(view.refuse(wanted))),
    }
}

/// Calls, and what is told of their answers.
type Row = (Call, &'static str);

static OF_ROOT: [Row; 7] = [
    (Object, "ok"),
    (Text, "$: text wanted"),
    (Length, "$: list wanted"),
    (Optional("text"), "there"),
    (Optional("gone"), "not there"),
    (Optional("nothing"), "not there"),
    (Optional(""), "not there"),
];

const OF_TEXT: [Row; 5] = [
    (Text, "<hi>"),
    (Optional("b"), "$.text: object wanted"),
    (Object, "$.text: object wanted"),
    (Member("b", Wanted::Name), "$.text.b: name wanted"),
    (Length, "$.text: list wanted"),
];

/// Members of the root, and what is asked of each. Of two members of one name the last one counts.
static MEMBERS: [(&str, &[Row]); 6] = [
    ("text", &OF_TEXT),
    ("twice", &[(Whole(9), "2")]),
    ("mixed", &[(Texts, "$.mixed[1]: text wanted")]),
    ("texts", &[(Texts, "3|x||y")]),
    ("empty", &[(Texts, "1|")]),
    ("none", &[(Texts, "none")]),
];

static OF_LIST: [Row; 1] = [(Texts, "$.a[0]: text wanted")];

static OF_NULL: [Row; 3] = [
    (Text, "$.a[1]: text wanted"),
    (Member("b", Wanted::Text), "$.a[1].b: text wanted"),
    (Optional("b"), "$.a[1]: object wanted"),
];

static OF_NUMBER: [Row; 4] = [
    (Text, "$.a[2].b: text wanted"),
    (Whole(6), "$.a[2].b: whole number wanted"),
    (Whole(7), "7"),
    (Texts, "$.a[2].b: list wanted"),
];

/// Asks a view, and compares.
fn expect_all(rt: &impl Abort, alloc: Global, view: &View, rows: &[Row]) -> Result<(), Fail> {
    for &(call, wanted) in rows {
        let text = answer(alloc, view, call)?;
        assert_eq!(rt; text.as_str(), wanted);
    }
    Ok(())
}

/// Asks a member.
fn expect_of_member(
    rt: &impl Abort,
    alloc: Global,
    view: &View,
    name: &str,
    rows: &[Row],
) -> Result<(), Fail> {
    let member = view.member(name, Wanted::Text)?;
    expect_all(rt, alloc, &member, rows)
}

/// The element at this place of a list of three.
fn element<'v>(rt: &impl Abort, list: &'v View, place: usize) -> Result<View<'v>, ViewFault> {
    let count = list.list_len()?;
    assert!(rt; count == 3 && place < count);
    list.at(place)
}

/// Asks a list and its elements.
fn expect_of_list(rt: &impl Abort, alloc: Global, list: &View) -> Result<(), Fail> {
    let null = element(rt, list, 1)?;
    expect_all(rt, alloc, &null, &OF_NULL)?;
    expect_all(rt, alloc, list, &OF_LIST)
}

/// Asks the number in a list.
fn expect_of_number(rt: &impl Abort, alloc: Global, list: &View) -> Result<(), Fail> {
    let object = element(rt, list, 2)?;
    expect_of_member(rt, alloc, &object, "b", &OF_NUMBER)
}

/// Asks the member that is a list.
fn expect_of_lists(rt: &impl Abort, alloc: Global, root: &View) -> Result<(), Fail> {
    let list = root.member("a", Wanted::List)?;
    expect_of_list(rt, alloc, &list)?;
    expect_of_number(rt, alloc, &list)
}

/// Asks the root and its members.
fn expect_of_root(rt: &impl Abort, alloc: Global, root: &View) -> Result<(), Fail> {
    expect_all(rt, alloc, root, &OF_ROOT)?;
    for &(name, rows) in &MEMBERS {
        expect_of_member(rt, alloc, root, name, rows)?;
    }
    expect_of_lists(rt, alloc, root)
}

/// The forms, each with its word.
static FORMS: [(Wanted, &str); 8] = [
    (Wanted::Object, "object"),
    (Wanted::List, "list"),
    (Wanted::FilledList, "non-empty list"),
    (Wanted::Text, "text"),
    (Wanted::Whole, "whole number"),
    (Wanted::Name, "name"),
    (Wanted::Kind, "kind"),
    (Wanted::Session, "session"),
];

/// What is told of a form: of the root, of a member that is not there, and of one that is null.
fn form_told(alloc: Global, root: &View, wanted: Wanted) -> Result<String, AllocError> {
    let refused = answer(alloc, root, Refuse(wanted))?;
    let gone = answer(alloc, root, Member("gone", wanted))?;
    let null = answer(alloc, root, Member("nothing", wanted))?;
    format!(in alloc; "{refused}, {gone}, {null}")
}

/// Compares what is told of a form with its word.
fn expect_form(
    rt: &impl Abort,
    alloc: Global,
    root: &View,
    row: &(Wanted, &str),
) -> Result<(), AllocError> {
    let (form, word) = *row;
    let told = form_told(alloc, root, form)?;
    let wanted = format!(in alloc;
        "$: {word} wanted, $.gone: {word} wanted, $.nothing: {word} wanted"
    )?;
    assert_eq!(rt; (form.word(), told.as_str()), (word, wanted.as_str()));
    Ok(())
}

/// Compares what is told of each form.
fn expect_forms(rt: &impl Abort, alloc: Global, root: &View) -> Result<(), AllocError> {
    for row in &FORMS {
        expect_form(rt, alloc, root, row)?;
    }
    Ok(())
}

/// Whether a shape's copy has the root's path and the form `Kind`.
fn is_copied(alloc: Global, shape: &Shape) -> Result<bool, AllocError> {
    let copy = shape.copy(alloc)?;
    let path = copy.path.copy(alloc)?;
    Ok(path.as_str() == "$" && copy.wanted == Wanted::Kind)
}

/// Copies a refusal of the root.
fn expect_copies(rt: &impl Abort, alloc: Global, root: &View) -> Result<(), Fail> {
    match root.refuse(Wanted::Kind) {
        ViewFault::Shape(shape) => assert!(rt; is_copied(alloc, &shape)?),
        ViewFault::Memory => assert!(rt; false, "memory ran out"),
    }
    Ok(())
}

/// The most that a number may be, and the first numbers that are read then; no other one is.
static WHOLES: [(u64, &[u64]); 3] = [
    (u64::MAX, &[0, 7, 8, 9223372036854775808, u64::MAX]),
    (7, &[0, 7]),
    (0, &[0]),
];

/// Compares the whole numbers of a list.
fn expect_wholes(rt: &impl Abort, numbers: &View, most: u64, wants: &[u64]) -> Result<(), Fail> {
    let count = numbers.list_len()?;
    assert_eq!(rt; count, 13);
    for place in 0..count {
        let found = numbers.at(place)?.whole(most).ok();
        assert_eq!(rt; found, wants.get(place).copied(), "{place} to {most}");
    }
    Ok(())
}

/// Compares the whole numbers of the list of numbers.
fn expect_numbers(rt: &impl Abort, root: &View) -> Result<(), Fail> {
    let numbers = root.member("numbers", Wanted::List)?;
    for &(most, wants) in &WHOLES {
        expect_wholes(rt, &numbers, most, wants)?;
    }
    Ok(())
}

/// All that is asked of the root and its members.
fn expect_parts(rt: &impl Abort, alloc: Global, root: &View) -> Result<(), Fail> {
    expect_of_root(rt, alloc, root)?;
    expect_forms(rt, alloc, root)?;
    expect_copies(rt, alloc, root)?;
    expect_numbers(rt, root)
}

/// All that is asked of the views of a value.
fn expect_views(rt: &impl Abort, alloc: Global, value: &Value) -> Result<(), Fail> {
    let root = View::root(alloc, value)?;
    expect_parts(rt, alloc, &root)
}

#[test]
fn views_of_a_value(rt: HostRuntime) -> Result<(), Fail> {
    let value = Value::from_str(rt.alloc(), TEXT)?;
    expect_views(&rt, rt.alloc(), &value)
}
