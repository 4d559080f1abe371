//! One line of a script.
ghost use Rattle.std.specs.Prelude.{◌≡◌, ◌≢◌, Bool, IfOk, IfErr, None, Some};
ghost use Rattle.serde_json.specs.View.{view};
ghost use Rattle.json_view.specs.Paths.{root_path};
ghost use Rattle.json_view.specs.Seen.{seen};
ghost use Rattle.json_view.specs.Inner.Seen.{seen_at};
ghost use Rattle.script_lines.specs.Inner.Faults.{Reads};
ghost use Rattle.script_lines.specs.Values.{is_space, is_blank, json_of, word_of_line};
ghost use Rattle.script_lines.specs.Made.{eql_told, eql_in};
ghost use Rattle.script_lines.specs.Lines.{json_line, line_in, config_line, placed_line, value_line};
ghost use Rattle.script_lines.specs.Inner.Lines.{ReadsMade, IsReadAs};

use crate::commands::command_named;
use crate::faults::{LineFault, ReadLine};
use crate::forms::{session_at, word_of_line};
use crate::line_set::LineSet;
use crate::place::Place;
use crate::questions::{asking_line, question_command};
use crate::requests::members_of;
use config_json::read_config;
use json_view::{View, Wanted};
use label_match::PatternMaker;
use serde_json::Value;
use session_core::Line;
use std::alloc::Global;
use std::str;

fn is_space(byte: u8) -> bool
    ensures { result ≡ is_space byte }
{
    byte == b' ' || byte == b'\t' || byte == b'\n' || byte == b'\r'
}

fn is_blank(line: &[u8]) -> bool
    ensures { result ≡ is_blank line.now }
{
    line.iter().all(|byte| is_space(*byte))
}

// The JSON value that a line is.
#[tactic(auto, using(crate::proofs::Json::json_text, crate::proofs::Json::no_text))]
fn json_of(alloc: Global, line: &[u8]) -> Result<Value, LineFault>
    ensures value { IfOk result (λ v. json_of line.now ≡ Some (view v)) }
    ensures none { IfErr result (λ e. e ≢ LineFault.Memory → json_of line.now ≡ None) }
    ensures fault { IfErr result (λ e. e ≢ LineFault.Memory → e ≡ LineFault.NotJson) }
{
    let Ok(text) = str::from_utf8(line) else {
        return Err(LineFault::NotJson);
    };
    match Value::from_str(alloc, text) {
        Ok(value) => Ok(value),
        Err(error) => {
            if error.is_memory() {
                return Err(LineFault::Memory);
            }
            Err(LineFault::NotJson)
        }
    }
}

// A request, once the line's word is known: the command, the session, the members.
#[tactic(auto, unfolding(crate::specs::Lines::line_in))]
fn line_in(alloc: Global, place: &Place, word: &str, view: &View) -> Result<ReadLine, LineFault>
    ensures { Reads result (line_in place.now.number place.now.earlier.now word.now
        (seen_at view.now)) }
{
    let Some(command) = command_named(word) else {
        return Err(LineFault::NoSuchCommand);
    };
    let session = session_at(view)?;
    let request = members_of(alloc, command, place.earlier, session, view)?;
    Ok(ReadLine::Request(Line {
        line: place.number,
        session,
        command,
        request,
    }))
}

// The line of the configuration.
#[tactic(auto, unfolding(crate::specs::Lines::config_line))]
fn config_line(alloc: Global, view: &View) -> Result<ReadLine, LineFault>
    ensures { Reads result (config_line (seen_at view.now)) }
{
    let member = view.member("config", Wanted::Object)?;
    let config = read_config(alloc, &member)?;
    Ok(ReadLine::Config(config))
}

// The configuration stands where it is wanted, and nowhere else.
fn placed_line(
    alloc: Global,
    place: &Place,
    is_config: bool,
    word: &str,
    view: &View,
) -> Result<ReadLine, LineFault>
    ensures { Reads result (placed_line place.now.wants_config is_config place.now.number
        place.now.earlier.now word.now (seen_at view.now)) }
{
    match (place.wants_config, is_config) {
        (true, true) => config_line(alloc, view),
        (false, false) => line_in(alloc, place, word, view),
        _ => Err(LineFault::ConfigPlace),
    }
}

// The request of a JSON value; the query of a question is prepared.
#[tactic(auto, unfolding(crate::specs::Lines::value_line))]
fn value_line<P: PatternMaker>(
    alloc: Global,
    place: &Place,
    view: &View,
    maker: &mut P,
) -> Result<ReadLine, LineFault>
    ensures { ReadsMade result (eql_told (word_of_line (seen_at view.now)) (seen_at view.now))
        (λ made. value_line place.now.number place.now.wants_config place.now.earlier.now made
        (seen_at view.now)) (P.refusals maker.old) (P.refusals maker.new) }
{
    let word = word_of_line(view)?;
    match question_command(word) {
        Some(command) => asking_line(alloc, place, command, view, maker),
        None => placed_line(alloc, place, word == "config", word, view),
    }
}

// The request of a line that is not blank.
fn json_line<P: PatternMaker>(
    alloc: Global,
    place: &Place,
    line: &[u8],
    maker: &mut P,
) -> Result<ReadLine, LineFault>
    ensures { ReadsMade result (eql_in (json_of line.now)) (λ made. json_line place.now.number
        place.now.wants_config place.now.earlier.now made (json_of line.now))
        (P.refusals maker.old) (P.refusals maker.new) }
{
    let value = json_of(alloc, line)?;
    let view = View::root(alloc, &value)?;
    value_line(alloc, place, &view, maker)
}

/// The request of a line of a script, or the first fault, or want of memory. `number` is the line's,
/// counted from 1; `wants_config` says that the configuration has to stand here; `earlier` are the
/// request lines before it.
///
/// The query of a `query` or a `look` whose members are read well is prepared by the maker of patterns,
/// wherever the line stands. A fault of the query's text or of a pattern is no fault of the line: the
/// request brings it.
#[tactic(auto, unfolding(crate::specs::Lines::request_of, crate::specs::Made::eql_of))]
pub fn read_line<P: PatternMaker>(
    alloc: Global,
    bytes: &[u8],
    number: u32,
    wants_config: bool,
    earlier: &LineSet,
    maker: &mut P,
) -> Result<ReadLine, LineFault>
    ensures read { IsReadAs result bytes.now number wants_config earlier.now
        (P.refusals maker.old) (P.refusals maker.new) }
{
    if is_blank(bytes) {
        if wants_config {
            return Err(LineFault::ConfigPlace);
        }
        return Ok(ReadLine::Blank);
    }
    let place = Place {
        number,
        wants_config,
        earlier,
    };
    json_line(alloc, &place, bytes, maker)
}
