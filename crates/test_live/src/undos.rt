//! Four sessions that edit one bundle at once and take their edits back. Whatever order their lines come in, the replies
//! and the state have to be those of the history that the run writes.
use crate::scripts::{BUNDLE, CONFIG, Ran, run_on};
use emu_disk::MemoryDisk;
use emu_io::{Gate, Hold, HoldGate, LineMoment, Moment, OpenGate};
use std::alloc::Global;
use std::process::Abort;
use std::str;
use std::sync::Wait;
use std::test::Fail;
use std::thread::Threads;

/// How many lines each session has.
const EACH: u32 = 9;

/// Each session gives item 1 a label of its own, splits item 2, and takes back the split and then the label; all that
/// twice. Then it asks for the label. One split alone may stand, since all give the new item the same id.
const SESSIONS: [&str; 36] = [
    r#"{"s":1,"do":"set_label","session":"s1","bundle":"b1","id":1,"attribute":"Phonetic","value":"a"}"#,
    r#"{"s":1,"do":"split","session":"s1","bundle":"b1","id":2,"newId":3,"sampleStart":6000}"#,
    r#"{"s":1,"do":"undo","line":2}"#,
    r#"{"s":1,"do":"undo","line":1}"#,
    r#"{"s":1,"do":"set_label","session":"s1","bundle":"b1","id":1,"attribute":"Phonetic","value":"a"}"#,
    r#"{"s":1,"do":"split","session":"s1","bundle":"b1","id":2,"newId":3,"sampleStart":6000}"#,
    r#"{"s":1,"do":"undo","line":6}"#,
    r#"{"s":1,"do":"undo","line":5}"#,
    r#"{"s":1,"do":"query","eql":"Phonetic =~ '[Va-d]'"}"#,
    r#"{"s":2,"do":"set_label","session":"s1","bundle":"b1","id":1,"attribute":"Phonetic","value":"b"}"#,
    r#"{"s":2,"do":"split","session":"s1","bundle":"b1","id":2,"newId":3,"sampleStart":6000}"#,
    r#"{"s":2,"do":"undo","line":11}"#,
    r#"{"s":2,"do":"undo","line":10}"#,
    r#"{"s":2,"do":"set_label","session":"s1","bundle":"b1","id":1,"attribute":"Phonetic","value":"b"}"#,
    r#"{"s":2,"do":"split","session":"s1","bundle":"b1","id":2,"newId":3,"sampleStart":6000}"#,
    r#"{"s":2,"do":"undo","line":15}"#,
    r#"{"s":2,"do":"undo","line":14}"#,
    r#"{"s":2,"do":"query","eql":"Phonetic =~ '[Va-d]'"}"#,
    r#"{"s":3,"do":"set_label","session":"s1","bundle":"b1","id":1,"attribute":"Phonetic","value":"c"}"#,
    r#"{"s":3,"do":"split","session":"s1","bundle":"b1","id":2,"newId":3,"sampleStart":6000}"#,
    r#"{"s":3,"do":"undo","line":20}"#,
    r#"{"s":3,"do":"undo","line":19}"#,
    r#"{"s":3,"do":"set_label","session":"s1","bundle":"b1","id":1,"attribute":"Phonetic","value":"c"}"#,
    r#"{"s":3,"do":"split","session":"s1","bundle":"b1","id":2,"newId":3,"sampleStart":6000}"#,
    r#"{"s":3,"do":"undo","line":24}"#,
    r#"{"s":3,"do":"undo","line":23}"#,
    r#"{"s":3,"do":"query","eql":"Phonetic =~ '[Va-d]'"}"#,
    r#"{"s":4,"do":"set_label","session":"s1","bundle":"b1","id":1,"attribute":"Phonetic","value":"d"}"#,
    r#"{"s":4,"do":"split","session":"s1","bundle":"b1","id":2,"newId":3,"sampleStart":6000}"#,
    r#"{"s":4,"do":"undo","line":29}"#,
    r#"{"s":4,"do":"undo","line":28}"#,
    r#"{"s":4,"do":"set_label","session":"s1","bundle":"b1","id":1,"attribute":"Phonetic","value":"d"}"#,
    r#"{"s":4,"do":"split","session":"s1","bundle":"b1","id":2,"newId":3,"sampleStart":6000}"#,
    r#"{"s":4,"do":"undo","line":33}"#,
    r#"{"s":4,"do":"undo","line":32}"#,
    r#"{"s":4,"do":"query","eql":"Phonetic =~ '[Va-d]'"}"#,
];

/// What a reply may be.
#[derive(Clone, Copy, PartialEq, Eq)]
enum Kind {
    Accepted,
    /// The split is refused, since another session's stands.
    IdTaken,
    /// There is nothing to take back, since the split was refused.
    NotAccepted,
    Rows,
}

/// The lines of a session whose replies may be so, each as its place among four lines, or 4 for the last line. `#` is a
/// number below 100, and `@` one letter.
static REPLIES: [(u32, Kind, &str); 7] = [
    (0, Kind::Accepted, r##"{"line":#,"n":#,"ok":"set_label"}"##),
    (1, Kind::Accepted, r##"{"line":#,"n":#,"ok":"split"}"##),
    (
        1,
        Kind::IdTaken,
        r##"{"line":#,"n":#,"refused":{"id":3,"rule":"IdTaken"}}"##,
    ),
    (2, Kind::Accepted, r##"{"line":#,"n":#,"ok":"undo"}"##),
    (
        2,
        Kind::NotAccepted,
        r##"{"line":#,"refused":{"rule":"NotAccepted"}}"##,
    ),
    (3, Kind::Accepted, r##"{"line":#,"n":#,"ok":"undo"}"##),
    (
        4,
        Kind::Rows,
        r##"{"line":#,"n":#,"segments":[{"attribute":"Phonetic","bundle":"b1","end":256925,"endItem":1,"endPos":0,"labels":"@","level":"Phonetic","sampleEnd":5138,"sampleRate":20000,"sampleStart":3749,"session":"s1","start":187425,"startItem":1,"startPos":0}]}"##,
    ),
];

const MARK: &str = r##"{"at":#,"line":#,"s":#}"##;

/// What `ask` writes over the store that the run leaves.
const ASKED: &str =
    r##"{"n":#,"segments":[{"attribute":"Phonetic","bundle":"b1","end":256925,"endItem":1,"endPos":0,"labels":"@","level":"Phonetic","sampleEnd":5138,"sampleRate":20000,"sampleStart":3749,"session":"s1","start":187425,"startItem":1,"startPos":0}]}"##;

/// What a digit counts.
fn digit(sign: u8) -> u32 {
    u32::from(sign.saturating_sub(b'0'))
}

/// A number of one or two digits at the front of a text, and what stands behind it.
fn number(text: &[u8]) -> Option<(u32, &[u8])> {
    match text {
        [ten, one, rest @ ..] if ten.is_ascii_digit() && one.is_ascii_digit() => {
            let tens = digit(*ten).saturating_mul(10);
            Some((tens.saturating_add(digit(*one)), rest))
        }
        [one, rest @ ..] if one.is_ascii_digit() => Some((digit(*one), rest)),
        _ => None,
    }
}

/// What stands at the front of a text for a sign of a form, 0 for one that stands for itself, and what is behind it.
fn taken(text: &[u8], sign: u8) -> Option<(u32, &[u8])> {
    match text {
        _ if sign == b'#' => number(text),
        [letter, rest @ ..] if sign == b'@' => Some((u32::from(*letter), rest)),
        [same, rest @ ..] if *same == sign => Some((0, rest)),
        _ => None,
    }
}

/// The first three numbers and letters of a text of this form, 0 where it has fewer.
fn found(text: &str, form: &str) -> Option<(u32, u32, u32)> {
    let mut rest = text.as_bytes();
    let mut all = [0, 0, 0];
    let mut count: usize = 0;
    for &sign in form.as_bytes() {
        let (one, behind) = taken(rest, sign)?;
        rest = behind;
        if (sign == b'#' || sign == b'@')
            && let Some(place) = all.get_mut(count)
        {
            *place = one;
            count = count.saturating_add(1);
        }
    }
    let [first, second, third] = all;
    if rest.is_empty() {
        Some((first, second, third))
    } else {
        None
    }
}

/// The state behind some entries of the history: how many there are, the line of the last one, the label of item 1, what
/// that was before each session set it, and whether item 2 is split.
#[derive(Clone, Copy)]
struct State {
    at: u32,
    line: u32,
    label: u32,
    before: [u32; 4],
    split: bool,
}

/// The state before the sessions: the bundle is the only entry, and item 1 has the label V.
const START: State = State {
    at: 1,
    line: 0,
    label: 86,
    before: [0, 0, 0, 0],
    split: false,
};

impl State {
    /// Adds the entry of a line. One that is not the next one leaves a number that none has.
    fn take(&mut self, at: u32, line: u32, session: u32) {
        let next = at == self.at.saturating_add(1) && session == line.div_ceil(EACH);
        self.at = if next { at } else { u32::MAX };
        self.line = line;
        let kept = self.before.get_mut(session.saturating_sub(1) as usize);
        match line.saturating_sub(1) % EACH % 4 {
            0 => {
                if let Some(before) = kept {
                    *before = self.label;
                }
                self.label = session.saturating_add(96);
            }
            1 => self.split = true,
            2 => self.split = false,
            _ => self.label = kept.copied().unwrap_or(0),
        }
    }
}

/// The state behind the entries up to this one, by the marks of a run.
fn state_behind(marks: &str, last: u32) -> State {
    let mut state = START;
    for line in marks.split('\n') {
        if let Some((at, line, session)) = found(line, MARK)
            && at <= last
        {
            state.take(at, line, session);
        }
    }
    state
}

/// What was told so far: the number of the session's last reply, whether that refused a split, and how many lines of all
/// sessions were accepted.
#[derive(Clone, Copy)]
struct Told {
    n: u32,
    refused: bool,
    accepted: u32,
}

/// What is told behind a reply of this kind to a line, if the history allows it there.
fn told_by(marks: &str, told: Told, line: u32, kind: Kind, n: u32, label: u32) -> Option<Told> {
    let seen = state_behind(marks, n);
    let right = match kind {
        Kind::Accepted => seen.line == line && n > told.n && !told.refused,
        Kind::IdTaken => seen.split && n >= told.n,
        Kind::NotAccepted => told.refused,
        Kind::Rows => seen.label == label && n >= told.n,
    };
    if !right || seen.at != n {
        return None;
    }
    Some(Told {
        n,
        refused: kind == Kind::IdTaken,
        accepted: told
            .accepted
            .saturating_add(u32::from(kind == Kind::Accepted)),
    })
}

/// What is told behind the reply to a line, if that is one that there may be.
fn told_behind(marks: &str, told: Told, line: u32, reply: &str) -> Option<Told> {
    let place = line.saturating_sub(1) % EACH;
    let turn = if place < 8 { place % 4 } else { 4 };
    for &(of, kind, form) in &REPLIES {
        if of == turn
            && let Some((named, given, label)) = found(reply, form)
            && named == line
        {
            let n = if kind == Kind::NotAccepted {
                told.n
            } else {
                given
            };
            return told_by(marks, told, line, kind, n, label);
        }
    }
    None
}

/// How many lines were accepted, if all replies of a run are such that there may be beside its marks.
fn accepted(replies: &str, marks: &str) -> Option<u32> {
    let mut told = Told {
        n: 1,
        refused: false,
        accepted: 0,
    };
    let mut line: u32 = 0;
    for reply in replies.split('\n') {
        if line < 36 {
            if line % EACH == 0 {
                told.n = 1;
            }
            line = line.saturating_add(1);
            told = told_behind(marks, told, line, reply)?;
        }
    }
    Some(told.accepted)
}

/// Whether the replies of a run, its marks, and what is asked of the store behind it belong to one history.
fn is_legal(output: &str, asked: &str) -> bool {
    let Some((replies, marks)) = output.split_once("{\"from\":1}\n") else {
        return false;
    };
    let (Some(count), Some((n, label, _))) = (accepted(replies, marks), found(asked, ASKED)) else {
        return false;
    };
    let end = state_behind(marks, 99);
    let lines = (replies.split('\n').count(), marks.split('\n').count());
    lines == (37, (count as usize).saturating_add(1))
        && (end.at, end.split) == (n, false)
        && (n, label) == (count.saturating_add(1), end.label)
}

/// Whether a run and what is asked of its store belong to one history.
fn belong(ran: &Ran, asked: &Ran) -> bool {
    match (
        str::from_utf8(ran.sink.bytes()),
        str::from_utf8(asked.sink.bytes()),
    ) {
        (Ok(output), Ok(text)) => {
            ran.status == 0 && asked.status == 0 && is_legal(output, text.trim_end())
        }
        _ => false,
    }
}

/// Runs words over the store of these bytes.
fn run<R: Threads + Wait + Sync, G: Gate + Sync>(
    rt: &R,
    alloc: Global,
    words: &[&str],
    lines: &[&str],
    store: &[u8],
    gate: &G,
) -> Result<Ran, Fail> {
    let disk = MemoryDisk::new(alloc, store)?;
    run_on(rt, alloc, words, lines, &[], disk, gate)
}

const LIVE: [&str; 2] = ["live", "--store"];

const ASK: [&str; 2] = ["ask", "Phonetic =~ '[Va-d]'"];

/// A hold of a line's reply until another line has one.
const fn hold(first: u32, second: u32) -> Hold {
    Hold {
        first: LineMoment {
            line: first,
            moment: Moment::Answered,
        },
        second: LineMoment {
            line: second,
            moment: Moment::Answered,
        },
    }
}

/// Runs the sessions at once over a store that has the bundle. None goes on behind its first line before the next one has
/// begun, so that all are there at once.
fn run_sessions<R: Abort + Threads + Wait + Sync>(
    rt: &R,
    alloc: Global,
    store: &[u8],
) -> Result<Ran, Fail> {
    let holds = [hold(1, 10), hold(10, 19), hold(19, 28)];
    let gate = HoldGate::new(alloc, &holds)?;
    let ran = run(rt, alloc, &LIVE, &SESSIONS, store, &gate);
    let held = gate.saw_all() && !gate.gave_up();
    drop(gate);
    assert!(rt; held);
    ran
}

/// Asks what a run left, and compares.
fn is_told<R: Threads + Wait + Sync>(rt: &R, alloc: Global, ran: &Ran) -> Result<bool, Fail> {
    let asked = run(rt, alloc, &ASK, &[], ran.disk.bytes(), &OpenGate)?;
    let good = belong(ran, &asked);
    drop(asked);
    Ok(good)
}

/// Runs the sessions, asks what they leave, and compares.
fn expect_legal<R: Abort + Threads + Wait + Sync>(
    rt: &R,
    alloc: Global,
    store: &[u8],
) -> Result<(), Fail> {
    let ran = run_sessions(rt, alloc, store)?;
    let told = is_told(rt, alloc, &ran);
    drop(ran);
    let good = told?;
    assert!(rt; good);
    Ok(())
}

/// How often the sessions are run.
const TIMES: u32 = 200;

/// Runs the sessions many times over a store that has the bundle.
fn expect_all<R: Abort + Threads + Wait + Sync>(
    rt: &R,
    alloc: Global,
    store: &[u8],
) -> Result<(), Fail> {
    for _ in 0..TIMES {
        expect_legal(rt, alloc, store)?;
    }
    Ok(())
}

#[test]
fn sessions_edit_and_undo_one_bundle_at_once(rt: HostRuntime) -> Result<(), Fail> {
    let store = run(&rt, rt.alloc(), &LIVE, &[CONFIG, BUNDLE], &[], &OpenGate)?;
    let compared = expect_all(&rt, rt.alloc(), store.disk.bytes());
    drop(store);
    compared
}
