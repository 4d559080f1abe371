//! What a live run was answered, written when its sessions have ended.
ghost use Rattle.std.specs.Prelude.{◌≤◌, IfErr};
ghost use Rattle.std.specs.List.{flat_map};
ghost use Rattle.program_output.specs.reply_texts.Texts.{reply_text};
ghost use Rattle.program_output.specs.Inner.Written.{EndHasCause, WritesTexts};
ghost use Rattle.script_runs.specs.LiveTexts.{ended_text, entries_text, given_text, live_text, text_of_mark};
ghost use Rattle.script_runs.specs.Inner.LiveTexts.{AnswersLive};

use emu_io::Sink;
use emu_names::Memory;
use live_run::{Ended as LiveEnded, Marks, Replies};
use program_output::{Ended, Status, write_config, write_from, write_mark, write_reply};
use std::alloc::Global;

/// Writes the reply of the configuration, where the script gave one.
fn write_given<K: Sink>(alloc: Global, given: bool, out: &mut K) -> Result<(), Ended>
    ensures output { WritesTexts result (K.written out.old) (K.written out.new) (given_text given) }
    ensures cause { IfErr result (λ end. EndHasCause end (K.faults out.old) (K.faults out.new)) }
    ensures later { K.faults out.old ≤ K.faults out.new }
{
    if given {
        write_config(alloc, out)
    } else {
        Ok(())
    }
}

/// Writes the replies, one after another.
fn write_replies<K: Sink>(alloc: Global, replies: &Replies, out: &mut K) -> Result<(), Ended>
    ensures output { WritesTexts result (K.written out.old) (K.written out.new)
        (flat_map reply_text replies.now) }
    ensures cause { IfErr result (λ end. EndHasCause end (K.faults out.old) (K.faults out.new)) }
    ensures later { K.faults out.old ≤ K.faults out.new }
{
    for reply in replies.as_slice() {
        match write_reply(alloc, out, reply) {
            Ok(()) => {}
            Err(end) => return Err(end),
        }
    }
    Ok(())
}

/// Writes the lines of the new entries, one after another.
fn write_marks<K: Sink>(alloc: Global, marks: &Marks, out: &mut K) -> Result<(), Ended>
    ensures output { WritesTexts result (K.written out.old) (K.written out.new)
        (flat_map text_of_mark marks.now) }
    ensures cause { IfErr result (λ end. EndHasCause end (K.faults out.old) (K.faults out.new)) }
    ensures later { K.faults out.old ≤ K.faults out.new }
{
    for place in 0..marks.len() {
        let mark = marks.get(place);
        match write_mark(alloc, out, mark.at, mark.line, mark.session) {
            Ok(()) => {}
            Err(end) => return Err(end),
        }
    }
    Ok(())
}

/// Writes how many entries stood before a live run, and the lines of the new ones.
fn write_entries<K: Sink>(alloc: Global, ended: &LiveEnded, out: &mut K) -> Result<(), Ended>
    ensures output { WritesTexts result (K.written out.old) (K.written out.new) (entries_text ended.now) }
    ensures cause { IfErr result (λ end. EndHasCause end (K.faults out.old) (K.faults out.new)) }
    ensures later { K.faults out.old ≤ K.faults out.new }
{
    match write_from(alloc, ended.from, out) {
        Ok(()) => {}
        Err(end) => return Err(end),
    }
    write_marks(alloc, &ended.marks, out)
}

/// Writes the replies of a live run, and what is written of its entries.
fn write_ended<K: Sink>(alloc: Global, ended: &LiveEnded, out: &mut K) -> Result<(), Ended>
    ensures output { WritesTexts result (K.written out.old) (K.written out.new) (ended_text ended.now) }
    ensures cause { IfErr result (λ end. EndHasCause end (K.faults out.old) (K.faults out.new)) }
    ensures later { K.faults out.old ≤ K.faults out.new }
{
    match write_replies(alloc, &ended.replies, out) {
        Ok(()) => {}
        Err(end) => return Err(end),
    }
    write_entries(alloc, ended, out)
}

/// Writes what a live run was answered: the reply of the configuration, where the script gave one, the replies, how
/// many entries stood before it, and the lines of the new ones.
fn write_answers<K: Sink>(
    alloc: Global,
    given: bool,
    ended: &LiveEnded,
    out: &mut K,
) -> Result<(), Ended>
    ensures output { WritesTexts result (K.written out.old) (K.written out.new)
        (live_text given ended.now) }
    ensures cause { IfErr result (λ end. EndHasCause end (K.faults out.old) (K.faults out.new)) }
    ensures later { K.faults out.old ≤ K.faults out.new }
{
    match write_given(alloc, given, out) {
        Ok(()) => {}
        Err(end) => return Err(end),
    }
    write_ended(alloc, ended, out)
}

/// Writes what a live run was answered, if its lines were run, and says how it ends.
pub fn answer<K: Sink>(
    alloc: Global,
    given: bool,
    ended: &Result<LiveEnded, Memory>,
    out: &mut K,
) -> Status
    ensures { AnswersLive ended.now given result (K.written out.old) (K.written out.new)
        (K.faults out.old) (K.faults out.new) }
{
    match ended {
        Ok(ended) => match write_answers(alloc, given, ended, out) {
            Ok(()) => Status::Fine,
            Err(Ended::Write) => Status::Write,
            Err(_) => Status::Memory,
        },
        Err(_) => Status::Memory,
    }
}
