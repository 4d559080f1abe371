//! The lines that ask a question: `query` and `look`.
ghost use Rattle.std.specs.Prelude.{◌≡◌, Ok, Some};
ghost use Rattle.json_view.specs.Inner.Gives.{Gives};
ghost use Rattle.json_view.specs.Inner.Seen.{seen_at};
ghost use Rattle.script_lines.specs.Inner.Faults.{misread};
ghost use Rattle.script_lines.specs.Lines.{asking_line, question_request};
ghost use Rattle.script_lines.specs.Inner.Lines.{ReadsMade};
ghost use Rattle.script_lines.specs.Made.{eql_read};
ghost use Rattle.script_lines.specs.Questions.{question_command, question_at, time_name_at};

use crate::faults::{LineFault, ReadLine};
use crate::forms::{owned, session_at, text_member};
use crate::place::Place;
use crate::requeries::requery_at;
use emu_names::{SessionNo, Text};
use eql_resolve::made_of;
use json_view::{View, ViewFault};
use label_match::PatternMaker;
use session_core::requery::Requery;
use session_core::{Ask, Command, Line, Request};
use std::alloc::Global;

// A question before its query is prepared.
#[derive(Drop)]
struct Question {
    session: SessionNo,
    // The text of the query.
    eql: Text,
    // The name of the level of the times, where it is given.
    time: Option<Text>,
    // Where the results are carried, where they are.
    requery: Option<Requery>,
}

/// The command of a question's word.
pub(crate) fn question_command(word: &str) -> Option<Command>
    ensures { result ≡ question_command word.now }
{
    match word {
        "query" => Some(Command::Query),
        "look" => Some(Command::Look),
        _ => None,
    }
}

// The member `time`, which has to be a text where it is there.
#[tactic(auto, unfolding(crate::specs::Questions::time_name_at))]
fn time_name_at(alloc: Global, view: &View) -> Result<Option<Text>, ViewFault>
    ensures { Gives (λ t. t) result (time_name_at (seen_at view.now)) }
{
    match view.optional_text("time")? {
        Some(text) => Ok(Some(owned(alloc, text)?)),
        None => Ok(None),
    }
}

// The members of a question.
#[tactic(auto, unfolding(crate::specs::Questions::question_at))]
fn question_at(alloc: Global, view: &View) -> Result<Question, ViewFault>
    ensures { Gives (λ q. record {
      session = q.session;
      eql = q.eql;
      time = q.time;
      requery = q.requery;
    }) result (question_at (seen_at view.now)) }
{
    let session = session_at(view)?;
    let eql = text_member(alloc, view, "eql")?;
    let time = time_name_at(alloc, view)?;
    let requery = requery_at(alloc, view)?;
    Ok(Question {
        session,
        eql,
        time,
        requery,
    })
}

// What a question asks for.
fn question_request(command: Command, ask: Ask) -> Request
    ensures { result ≡ question_request command ask }
{
    match command {
        Command::Look => Request::Look(ask),
        _ => Request::Query(ask),
    }
}

// The line of a question. Its query is prepared wherever the line stands.
fn asked_line<P: PatternMaker>(
    alloc: Global,
    place: &Place,
    command: Command,
    question: Question,
    maker: &mut P,
) -> Result<ReadLine, LineFault>
    ensures { ReadsMade result (Some question.eql) (λ made. asking_line place.now.wants_config
        place.now.number command made
        (Ok (record {
          session = question.session;
          eql = question.eql;
          time = question.time;
          requery = question.requery;
        })))
        (P.refusals maker.old) (P.refusals maker.new) }
{
    let Ok(prepared) = made_of(alloc, maker, question.eql.as_str()) else {
        return Err(LineFault::Memory);
    };
    if place.wants_config {
        return Err(LineFault::ConfigPlace);
    }
    let ask = Ask {
        prepared,
        time: question.time,
        requery: question.requery,
    };
    Ok(ReadLine::Request(Line {
        line: place.number,
        session: question.session,
        command,
        request: question_request(command, ask),
    }))
}

// The fault of a question's members, as that of the line.
fn misread(wants_config: bool, fault: ViewFault) -> LineFault
    ensures { result ≡ misread wants_config fault }
{
    match fault {
        ViewFault::Memory => LineFault::Memory,
        ViewFault::Shape(_) if wants_config => LineFault::ConfigPlace,
        ViewFault::Shape(shape) => LineFault::Shape(shape),
    }
}

/// The line of a question, which is misplaced where the configuration has to stand.
pub(crate) fn asking_line<P: PatternMaker>(
    alloc: Global,
    place: &Place,
    command: Command,
    view: &View,
    maker: &mut P,
) -> Result<ReadLine, LineFault>
    ensures { ReadsMade result (eql_read (question_at (seen_at view.now))) (λ made. asking_line
        place.now.wants_config place.now.number command made (question_at (seen_at view.now)))
        (P.refusals maker.old) (P.refusals maker.new) }
{
    match question_at(alloc, view) {
        Ok(question) => asked_line(alloc, place, command, question, maker),
        Err(fault) => Err(misread(place.wants_config, fault)),
    }
}
