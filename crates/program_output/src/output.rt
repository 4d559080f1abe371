//! Replies and the entries of a live run, written.
ghost use Rattle.std.specs.Prelude.{◌≡◌, ◌≤◌, ◌++◌, false, IfErr, OnErr, OnOk};
ghost use Rattle.std.specs.Io.KnownBytes.{Appends};
ghost use Rattle.emu_names.specs.Count.{Rose};
ghost use Rattle.emu_io.specs.Fronts.{WritesFront};
ghost use Rattle.script_lines.specs.session_core.declared.line.Answer.TheVariants.{Segments};
ghost use Rattle.script_lines.specs.session_core.segment_list.Inner.Pieces.{row_texts};
ghost use Rattle.store_texts.specs.reply_texts.Inner.Rows.{after_rows};
ghost use Rattle.store_texts.specs.reply_texts.Texts.{reply_text};
ghost use Rattle.program_output.specs.Texts.{config_reply, from_text, mark_text};
ghost use Rattle.program_output.specs.Inner.Written.{EndHasCause, WritesText};

use crate::ended::Ended;
use emu_io::{Failed, Sink, write_all};
use emu_names::{SessionNo, Text};
use script_lines::session_core::segment_list::Listing;
use script_lines::session_core::{Answer, Command, Reply};
use std::alloc::Global;
use store_texts::reply_texts::{after_rows, print_before_rows, print_reply};
use store_texts::{print_from, print_mark};

/// The most rows that a reply has which is written as one text, of about 64 kB.
const ROWS_AT_ONCE: usize = 256;

/// Writes a text.
pub(crate) fn write_text<K: Sink>(out: &mut K, text: &Text) -> Result<(), Ended>
    ensures output { WritesText result (K.written out.old) (K.written out.new) text.now }
    ensures cause { IfErr result (λ end. EndHasCause end (K.faults out.old) (K.faults out.new)) }
    ensures later { K.faults out.old ≤ K.faults out.new }
{
    match write_all(out, text.as_str().as_bytes()) {
        Ok(()) => Ok(()),
        Err(_) => Err(Ended::Write),
    }
}

/// Writes a reply as one text.
fn write_whole<K: Sink>(alloc: Global, out: &mut K, reply: &Reply) -> Result<(), Ended>
    ensures output { WritesText result (K.written out.old) (K.written out.new)
        (reply_text reply.now) }
    ensures cause { IfErr result (λ end. EndHasCause end (K.faults out.old) (K.faults out.new)) }
    ensures later { K.faults out.old ≤ K.faults out.new }
{
    match print_reply(alloc, reply) {
        Ok(text) => write_text(out, &text),
        Err(_) => Err(Ended::Memory),
    }
}

/// Writes what stands before rows, the rows part by part, and what stands behind them.
fn write_around<K: Sink>(out: &mut K, before: &str, rows: &Listing) -> Result<(), Failed>
    ensures ok { OnOk result (Appends (K.written out.old) (K.written out.new)
        (before.now ++ (row_texts false rows.now ++ after_rows))) }
    ensures front { WritesFront (K.written out.old) (K.written out.new)
        (before.now ++ (row_texts false rows.now ++ after_rows)) }
    ensures failed { OnErr result (Rose (K.faults out.old) (K.faults out.new)) }
    ensures later { K.faults out.old ≤ K.faults out.new }
{
    write_all(out, before.as_bytes())?;
    rows.write_to(out)?;
    write_all(out, after_rows().as_bytes())
}

/// Writes a reply that lists these rows, part by part, so that their text is not held twice.
fn write_listed<K: Sink>(
    alloc: Global,
    out: &mut K,
    reply: &Reply,
    rows: &Listing,
) -> Result<(), Ended>
    requires { reply.now.answer ≡ Segments rows.now }
    ensures output { WritesText result (K.written out.old) (K.written out.new)
        (reply_text reply.now) }
    ensures cause { IfErr result (λ end. EndHasCause end (K.faults out.old) (K.faults out.new)) }
    ensures later { K.faults out.old ≤ K.faults out.new }
{
    match print_before_rows(alloc, reply) {
        Ok(before) => match write_around(out, before.as_str(), rows) {
            Ok(()) => Ok(()),
            Err(_) => Err(Ended::Write),
        },
        Err(_) => Err(Ended::Memory),
    }
}

/// Writes a reply: one with many rows part by part, any other as one text.
pub fn write_reply<K: Sink>(alloc: Global, out: &mut K, reply: &Reply) -> Result<(), Ended>
    ensures output { WritesText result (K.written out.old) (K.written out.new)
        (reply_text reply.now) }
    ensures cause { IfErr result (λ end. EndHasCause end (K.faults out.old) (K.faults out.new)) }
    ensures later { K.faults out.old ≤ K.faults out.new }
{
    match &reply.answer {
        Answer::Segments(rows) if rows.len() > ROWS_AT_ONCE => {
            write_listed(alloc, out, reply, rows)
        }
        _ => write_whole(alloc, out, reply),
    }
}

/// Writes the reply to the line of the configuration.
pub fn write_config<K: Sink>(alloc: Global, out: &mut K) -> Result<(), Ended>
    ensures output { WritesText result (K.written out.old) (K.written out.new)
        (reply_text config_reply) }
    ensures cause { IfErr result (λ end. EndHasCause end (K.faults out.old) (K.faults out.new)) }
    ensures later { K.faults out.old ≤ K.faults out.new }
{
    let reply = Reply {
        line: 1,
        session: SessionNo(0),
        n: Some(0),
        answer: Answer::Done(Command::Config),
    };
    write_reply(alloc, out, &reply)
}

/// Writes how many entries stood before a live run.
pub fn write_from<K: Sink>(alloc: Global, from: u64, out: &mut K) -> Result<(), Ended>
    ensures output { WritesText result (K.written out.old) (K.written out.new) (from_text from) }
    ensures cause { IfErr result (λ end. EndHasCause end (K.faults out.old) (K.faults out.new)) }
    ensures later { K.faults out.old ≤ K.faults out.new }
{
    match print_from(alloc, from) {
        Ok(text) => write_text(out, &text),
        Err(_) => Err(Ended::Memory),
    }
}

/// Writes the line of a new entry of a live run: its number, and the line and the session of its request.
pub fn write_mark<K: Sink>(
    alloc: Global,
    out: &mut K,
    at: u64,
    line: u32,
    session: SessionNo,
) -> Result<(), Ended>
    ensures output { WritesText result (K.written out.old) (K.written out.new)
        (mark_text at line session.0) }
    ensures cause { IfErr result (λ end. EndHasCause end (K.faults out.old) (K.faults out.new)) }
    ensures later { K.faults out.old ≤ K.faults out.new }
{
    match print_mark(alloc, at, line, session) {
        Ok(text) => write_text(out, &text),
        Err(_) => Err(Ended::Memory),
    }
}
