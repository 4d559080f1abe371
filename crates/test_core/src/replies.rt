//! What no clause says: the printed bytes, and that the calls succeed where memory is ample.
use crate::made::row;
use emu_names::{Broken, Memory, SessionNo, Text, What};
use eql_resolve::AskFault;
use eql_rows::{Row, SegmentList};
use reply_texts::print_reply;
use segment_list::Listing;
use session_core::{Answer, Refusal, Reply};
use std::alloc::Global;
use std::process::Abort;
use std::test::Fail;

fn reply(line: u32, n: Option<u64>, answer: Answer) -> Reply {
    Reply {
        line,
        session: SessionNo(1),
        n,
        answer,
    }
}

fn expect_reply(rt: &impl Abort, alloc: Global, reply: Reply, wanted: &str) -> Result<(), Fail> {
    let printed = print_reply(alloc, &reply);
    drop(reply);
    let text = printed?;
    assert_eq!(rt; text.as_str(), wanted);
    Ok(())
}

/// The list of one row.
fn list_of(alloc: Global, row: Row) -> Result<SegmentList, Memory> {
    let mut rows = SegmentList::new(alloc);
    rows.push(row)?;
    Ok(rows)
}

/// The answer of one row.
fn segments(alloc: Global, row: Row) -> Result<Answer, Memory> {
    let rows = list_of(alloc, row)?;
    let listed = Listing::of(alloc, &rows);
    drop(rows);
    Ok(Answer::Segments(listed?))
}

/// A row without times, whose names and labels have escapes.
fn timeless(alloc: Global) -> Result<Row, Memory> {
    let mut timeless = row(alloc, "s1", "b\"\\", "a\"\\\n\u{1f}\u{e9}\u{1f600}")?;
    timeless.start = None;
    timeless.end = None;
    timeless.sample_start = None;
    timeless.sample_end = None;
    Ok(timeless)
}

const TIMED: &str =
    "{\"line\":3,\"n\":1,\"segments\":[{\"attribute\":\"Phonetic\",\"bundle\":\"b1\",\"end\":340175,\"endItem\":2,\"endPos\":1,\"labels\":\"m\",\"level\":\"Phonetic\",\"sampleEnd\":6803,\"sampleRate\":20000,\"sampleStart\":5139,\"session\":\"s1\",\"start\":256925,\"startItem\":2,\"startPos\":1}]}\n";

const TIMELESS: &str =
    "{\"line\":4,\"n\":18446744073709551615,\"segments\":[{\"attribute\":\"Phonetic\",\"bundle\":\"b\\\"\\\\\",\"end\":null,\"endItem\":2,\"endPos\":1,\"labels\":\"a\\\"\\\\\\n\\u001f\u{e9}\u{1f600}\",\"level\":\"Phonetic\",\"sampleEnd\":null,\"sampleRate\":20000,\"sampleStart\":null,\"session\":\"s1\",\"start\":null,\"startItem\":2,\"startPos\":1}]}\n";

#[test]
fn rows_in_order(rt: HostRuntime) -> Result<(), Fail> {
    let alloc = rt.alloc();
    let timed = segments(alloc, row(alloc, "s1", "b1", "m")?)?;
    expect_reply(&rt, alloc, reply(3, Some(1), timed), TIMED)?;
    let timeless = segments(alloc, timeless(alloc)?)?;
    expect_reply(&rt, alloc, reply(4, Some(u64::MAX), timeless), TIMELESS)
}

/// A refusal that no script with its output comes to, or whose name has escapes.
#[derive(Clone, Copy)]
enum Why {
    Memory,
    UnknownName,
    TooManyBundles,
    TooManyEdits,
}

/// The refusal that a row names.
fn refusal(alloc: Global, why: Why) -> Result<Refusal, Memory> {
    Ok(match why {
        Why::Memory => Refusal::Memory,
        Why::UnknownName => { Refusal::Resolve(AskFault::UnknownName(Text::new(alloc, "a\"b\n")?)) }
        Why::TooManyBundles => {
            Refusal::Rule {
                rule: Broken::TooMany(What::Bundles),
                place: Some(3),
            }
        }
        Why::TooManyEdits => Refusal::TooManyEdits,
    })
}

/// The number of edits in a reply, its refusal, and its text.
static REFUSALS: [(Option<u64>, Why, &str); 4] = [
    (
        None,
        Why::Memory,
        "{\"line\":7,\"refused\":{\"rule\":\"Memory\"}}\n",
    ),
    (
        Some(1),
        Why::UnknownName,
        "{\"line\":7,\"n\":1,\"refused\":{\"name\":\"a\\\"b\\n\",\"rule\":\"UnknownName\"}}\n",
    ),
    (
        Some(9),
        Why::TooManyBundles,
        "{\"line\":7,\"n\":9,\"refused\":{\"place\":3,\"rule\":\"TooMany\",\"what\":\"Bundles\"}}\n",
    ),
    (
        None,
        Why::TooManyEdits,
        "{\"line\":7,\"refused\":{\"rule\":\"TooManyEdits\"}}\n",
    ),
];

#[test]
fn refusals(rt: HostRuntime) -> Result<(), Fail> {
    for &(n, why, wanted) in &REFUSALS {
        let answer = Answer::Refused(refusal(rt.alloc(), why)?);
        expect_reply(&rt, rt.alloc(), reply(7, n, answer), wanted)?;
    }
    Ok(())
}
