//! Live runs: their replies session by session, and gates that hold a line until another came.
use crate::scripts::{BUNDLE, CONFIG, Ran, run_on};
use emu_disk::MemoryDisk;
use emu_io::{Gate, Hold, HoldGate, LineMoment, Moment, OpenGate};
use std::alloc::Global;
use std::process::Abort;
use std::sync::Wait;
use std::test::Fail;
use std::thread::Threads;

/// The label of item 2 becomes n, by session 2.
const RELABEL: &str =
    "{\"s\":2,\"do\":\"set_label\",\"session\":\"s1\",\"bundle\":\"b1\",\"id\":2,\"attribute\":\"Phonetic\",\"value\":\"n\"}";

/// A look of session 1 at m, which another session waits for; it is finished after that session's edit.
pub const HELD: [&str; 8] = [
    CONFIG,
    BUNDLE,
    "{\"s\":1,\"do\":\"look\",\"eql\":\"[Phonetic == m]\"}",
    "{\"s\":2,\"do\":\"after\",\"line\":3}",
    RELABEL,
    "{\"s\":1,\"do\":\"finish\"}",
    "{\"s\":1,\"do\":\"after\",\"line\":5}",
    "{\"s\":1,\"do\":\"query\",\"eql\":\"[Phonetic == m]\"}",
];

/// What that script is answered, whichever of the two gates holds it.
pub const HELD_OUTPUT: [&str; 11] = [
    "{\"line\":1,\"n\":0,\"ok\":\"config\"}",
    "{\"line\":2,\"n\":1,\"ok\":\"add_bundle\"}",
    "{\"line\":3,\"n\":1,\"ok\":\"look\"}",
    "{\"line\":6,\"n\":1,\"segments\":[{\"attribute\":\"Phonetic\",\"bundle\":\"b1\",\"end\":340175,\"endItem\":2,\"endPos\":1,\"labels\":\"m\",\"level\":\"Phonetic\",\"sampleEnd\":6803,\"sampleRate\":20000,\"sampleStart\":5139,\"session\":\"s1\",\"start\":256925,\"startItem\":2,\"startPos\":1}]}",
    "{\"line\":7,\"n\":2,\"ok\":\"after\"}",
    "{\"line\":8,\"n\":2,\"segments\":[]}",
    "{\"line\":4,\"n\":1,\"ok\":\"after\"}",
    "{\"line\":5,\"n\":2,\"ok\":\"set_label\"}",
    "{\"from\":0}",
    "{\"at\":1,\"line\":2,\"s\":1}",
    "{\"at\":2,\"line\":5,\"s\":2}",
];

/// How often a script is run.
const TIMES: u32 = 200;

/// A moment at which a line has its reply.
const fn answered(line: u32) -> LineMoment {
    LineMoment {
        line,
        moment: Moment::Answered,
    }
}

/// A moment at which a line's query is about to look at the first bundle.
const fn piece(line: u32) -> LineMoment {
    LineMoment {
        line,
        moment: Moment::Piece(0),
    }
}

/// Runs the sessions of a script at once, behind a gate.
fn run<R: Threads + Wait + Sync, G: Gate + Sync>(
    rt: &R,
    alloc: Global,
    lines: &[&str],
    gate: &G,
) -> Result<Ran, Fail> {
    let disk = MemoryDisk::new(alloc, &[])?;
    run_on(rt, alloc, &["live"], lines, &[], disk, gate)
}

/// Whether the held script has the output that is wanted behind a gate, which sees all its moments and does not give up.
fn is_held<R: Threads + Wait + Sync>(rt: &R, alloc: Global, gate: &HoldGate) -> Result<bool, Fail> {
    let ran = run(rt, alloc, &HELD, gate)?;
    let good = ran.gave(0, &HELD_OUTPUT);
    drop(ran);
    Ok(good && gate.saw_all() && !gate.gave_up())
}

/// Runs the held script behind a gate of these holds, and compares.
fn expect_held<R: Abort + Threads + Wait + Sync>(
    rt: &R,
    alloc: Global,
    holds: &[Hold],
) -> Result<(), Fail> {
    let gate = HoldGate::new(alloc, holds)?;
    let held = is_held(rt, alloc, &gate);
    drop(gate);
    let good = held?;
    assert!(rt; good);
    Ok(())
}

#[test]
fn a_look_is_finished_behind_anothers_edit(rt: HostRuntime) -> Result<(), Fail> {
    let holds = [Hold {
        first: answered(3),
        second: answered(5),
    }];
    for _ in 0..TIMES {
        expect_held(&rt, rt.alloc(), &holds)?;
    }
    Ok(())
}

#[test]
fn an_edit_comes_while_a_look_is_answered(rt: HostRuntime) -> Result<(), Fail> {
    let holds = [
        Hold {
            first: answered(4),
            second: piece(6),
        },
        Hold {
            first: piece(6),
            second: answered(5),
        },
    ];
    for _ in 0..TIMES {
        expect_held(&rt, rt.alloc(), &holds)?;
    }
    Ok(())
}

/// A look of session 1, beside an edit of session 2 that names no line.
const FREE: [&str; 7] = [
    CONFIG,
    BUNDLE,
    "{\"s\":1,\"do\":\"look\",\"eql\":\"[Phonetic == m]\"}",
    RELABEL,
    "{\"s\":1,\"do\":\"finish\"}",
    "{\"s\":1,\"do\":\"query\",\"eql\":\"[Phonetic == m]\"}",
    "{\"s\":1,\"do\":\"finish\"}",
];

/// The outputs that the free script may have: the look and the query see one entry or two, the query no fewer than the
/// look, and two only where the edit was accepted.
static FREE_OUTPUTS: [&[&str]; 4] = [
    &[
        "{\"line\":1,\"n\":0,\"ok\":\"config\"}",
        "{\"line\":2,\"n\":1,\"ok\":\"add_bundle\"}",
        "{\"line\":3,\"n\":1,\"ok\":\"look\"}",
        "{\"line\":5,\"n\":1,\"segments\":[{\"attribute\":\"Phonetic\",\"bundle\":\"b1\",\"end\":340175,\"endItem\":2,\"endPos\":1,\"labels\":\"m\",\"level\":\"Phonetic\",\"sampleEnd\":6803,\"sampleRate\":20000,\"sampleStart\":5139,\"session\":\"s1\",\"start\":256925,\"startItem\":2,\"startPos\":1}]}",
        "{\"line\":6,\"n\":1,\"segments\":[{\"attribute\":\"Phonetic\",\"bundle\":\"b1\",\"end\":340175,\"endItem\":2,\"endPos\":1,\"labels\":\"m\",\"level\":\"Phonetic\",\"sampleEnd\":6803,\"sampleRate\":20000,\"sampleStart\":5139,\"session\":\"s1\",\"start\":256925,\"startItem\":2,\"startPos\":1}]}",
        "{\"line\":7,\"refused\":{\"rule\":\"NoLook\"}}",
        "{\"line\":4,\"n\":0,\"refused\":{\"rule\":\"NoBundle\"}}",
        "{\"from\":0}",
        "{\"at\":1,\"line\":2,\"s\":1}",
    ],
    &[
        "{\"line\":1,\"n\":0,\"ok\":\"config\"}",
        "{\"line\":2,\"n\":1,\"ok\":\"add_bundle\"}",
        "{\"line\":3,\"n\":1,\"ok\":\"look\"}",
        "{\"line\":5,\"n\":1,\"segments\":[{\"attribute\":\"Phonetic\",\"bundle\":\"b1\",\"end\":340175,\"endItem\":2,\"endPos\":1,\"labels\":\"m\",\"level\":\"Phonetic\",\"sampleEnd\":6803,\"sampleRate\":20000,\"sampleStart\":5139,\"session\":\"s1\",\"start\":256925,\"startItem\":2,\"startPos\":1}]}",
        "{\"line\":6,\"n\":1,\"segments\":[{\"attribute\":\"Phonetic\",\"bundle\":\"b1\",\"end\":340175,\"endItem\":2,\"endPos\":1,\"labels\":\"m\",\"level\":\"Phonetic\",\"sampleEnd\":6803,\"sampleRate\":20000,\"sampleStart\":5139,\"session\":\"s1\",\"start\":256925,\"startItem\":2,\"startPos\":1}]}",
        "{\"line\":7,\"refused\":{\"rule\":\"NoLook\"}}",
        "{\"line\":4,\"n\":2,\"ok\":\"set_label\"}",
        "{\"from\":0}",
        "{\"at\":1,\"line\":2,\"s\":1}",
        "{\"at\":2,\"line\":4,\"s\":2}",
    ],
    &[
        "{\"line\":1,\"n\":0,\"ok\":\"config\"}",
        "{\"line\":2,\"n\":1,\"ok\":\"add_bundle\"}",
        "{\"line\":3,\"n\":1,\"ok\":\"look\"}",
        "{\"line\":5,\"n\":1,\"segments\":[{\"attribute\":\"Phonetic\",\"bundle\":\"b1\",\"end\":340175,\"endItem\":2,\"endPos\":1,\"labels\":\"m\",\"level\":\"Phonetic\",\"sampleEnd\":6803,\"sampleRate\":20000,\"sampleStart\":5139,\"session\":\"s1\",\"start\":256925,\"startItem\":2,\"startPos\":1}]}",
        "{\"line\":6,\"n\":2,\"segments\":[]}",
        "{\"line\":7,\"refused\":{\"rule\":\"NoLook\"}}",
        "{\"line\":4,\"n\":2,\"ok\":\"set_label\"}",
        "{\"from\":0}",
        "{\"at\":1,\"line\":2,\"s\":1}",
        "{\"at\":2,\"line\":4,\"s\":2}",
    ],
    &[
        "{\"line\":1,\"n\":0,\"ok\":\"config\"}",
        "{\"line\":2,\"n\":1,\"ok\":\"add_bundle\"}",
        "{\"line\":3,\"n\":2,\"ok\":\"look\"}",
        "{\"line\":5,\"n\":2,\"segments\":[]}",
        "{\"line\":6,\"n\":2,\"segments\":[]}",
        "{\"line\":7,\"refused\":{\"rule\":\"NoLook\"}}",
        "{\"line\":4,\"n\":2,\"ok\":\"set_label\"}",
        "{\"from\":0}",
        "{\"at\":1,\"line\":2,\"s\":1}",
        "{\"at\":2,\"line\":4,\"s\":2}",
    ],
];

/// Whether a run gave one of the outputs that the free script may have.
fn is_free(ran: &Ran) -> bool {
    FREE_OUTPUTS.iter().any(|lines| ran.gave(0, lines))
}

#[test]
fn an_edit_that_names_no_line_comes_when_it_likes(rt: HostRuntime) -> Result<(), Fail> {
    for _ in 0..TIMES {
        let ran = run(&rt, rt.alloc(), &FREE, &OpenGate)?;
        let good = is_free(&ran);
        drop(ran);
        assert!(rt; good);
    }
    Ok(())
}
