//! The members of a request, by its command.
ghost use Rattle.json_view.specs.Inner.Seen.{seen_at};
ghost use Rattle.script_lines.specs.Inner.Faults.{Reads};
ghost use Rattle.script_lines.specs.Lines.{after_request, members_of, undo_request};

use crate::additions::{attribute_request, definition_request, level_request};
use crate::edits::{bundle_request, drop_request, times_request};
use crate::faults::LineFault;
use crate::forms::whole_member;
use crate::grids::textgrid_request;
use crate::line_set::LineSet;
use crate::lists::{edits_request, one_request};
use emu_names::SessionNo;
use emu_names::limits::TOP_ID;
use json_view::View;
use session_core::{Command, Request};
use std::alloc::Global;

// `after`: the number of an earlier request line.
#[tactic(auto, unfolding(crate::specs::Lines::after_request))]
fn after_request(view: &View, earlier: &LineSet) -> Result<Request, LineFault>
    ensures { Reads result (after_request earlier.now (seen_at view.now)) }
{
    let line = whole_member(view, "line", TOP_ID)? as u32;
    if !earlier.contains(line) {
        return Err(LineFault::BadAfter);
    }
    Ok(Request::After(line))
}

// `undo`: the number of an earlier line of its session that asked for a change.
#[tactic(auto, unfolding(crate::specs::Lines::undo_request))]
fn undo_request(view: &View, earlier: &LineSet, session: SessionNo) -> Result<Request, LineFault>
    ensures { Reads result (undo_request earlier.now session.0 (seen_at view.now)) }
{
    let line = whole_member(view, "line", TOP_ID)? as u32;
    if !earlier.has_change(session, line) {
        return Err(LineFault::BadUndo);
    }
    Ok(Request::Undo(line))
}

/// What the members of a request of this session ask for, or the first fault.
pub(crate) fn members_of(
    alloc: Global,
    command: Command,
    earlier: &LineSet,
    session: SessionNo,
    view: &View,
) -> Result<Request, LineFault>
    ensures { Reads result (members_of command earlier.now session.0 (seen_at view.now)) }
{
    match command {
        Command::AddBundle => Ok(bundle_request(alloc, view)?),
        Command::AddTextgrid => Ok(textgrid_request(alloc, view)?),
        Command::DropBundle => Ok(drop_request(alloc, view)?),
        Command::AddItem
        | Command::RemoveItem
        | Command::SetLabel
        | Command::SetSegment
        | Command::MoveBoundary
        | Command::SetPoint
        | Command::Split
        | Command::Merge
        | Command::AddLink
        | Command::RemoveLink => one_request(alloc, command, view),
        Command::LinkTimes => Ok(times_request(alloc, view)?),
        Command::Edits => edits_request(alloc, view),
        Command::AddLevel => level_request(alloc, view),
        Command::AddAttribute => attribute_request(alloc, view),
        Command::AddLinkDefinition => definition_request(alloc, view),
        Command::Finish => Ok(Request::Finish),
        Command::After => after_request(view, earlier),
        Command::Undo => undo_request(view, earlier, session),
        Command::Query | Command::Look | Command::Config => Err(LineFault::NoSuchCommand),
    }
}
