//! The requests for edits of a bundle that is there: one alone, and lists.
ghost use Rattle.std.specs.Prelude.{◌≡◌, ◌≤◌, IfOk, length, true};
ghost use Rattle.emu_names.specs.declared.limits.TheConstants.{LIST_EDITS as MOST};
ghost use Rattle.json_view.specs.Inner.Gives.{Gives};
ghost use Rattle.json_view.specs.Inner.Seen.{seen_at};
ghost use Rattle.json_view.specs.Parts.{list_in};
ghost use Rattle.script_lines.specs.Inner.Faults.{Reads};
ghost use Rattle.script_lines.specs.Acts.{edit_of, edits_at, edits_request, listed_edit, listed_edits, may_be_listed, one_request};

use crate::commands::command_named;
use crate::edits::{asks, asks_alone, link_edit, unlink_edit};
use crate::faults::LineFault;
use crate::forms::{key_at, word_of_line};
use crate::items::{
    boundary_edit, item_edit, label_edit, merge_edit, point_edit, remove_edit, segment_edit,
    split_edit,
};
use edit_rules::{Act, Edit, Edits};
use emu_names::BundleKey;
use emu_names::limits::LIST_EDITS;
use json_view::{View, ViewFault, Wanted};
use session_core::{Command, Request};
use std::alloc::Global;

/// The edit of a command, by the members beside the key of its bundle. A command whose edits stand alone is none.
fn edit_of(alloc: Global, command: Command, key: BundleKey, view: &View) -> Result<Edit, LineFault>
    ensures { Reads result (edit_of command key (seen_at view.now)) }
{
    match command {
        Command::AddItem => Ok(item_edit(alloc, key, view)?),
        Command::RemoveItem => Ok(remove_edit(key, view)?),
        Command::SetLabel => Ok(label_edit(alloc, key, view)?),
        Command::SetSegment => Ok(segment_edit(key, view)?),
        Command::MoveBoundary => Ok(boundary_edit(key, view)?),
        Command::SetPoint => Ok(point_edit(key, view)?),
        Command::Split => Ok(split_edit(key, view)?),
        Command::Merge => Ok(merge_edit(key, view)?),
        Command::AddLink => Ok(link_edit(key, view)?),
        Command::RemoveLink => Ok(unlink_edit(key, view)?),
        _ => Err(LineFault::NoSuchCommand),
    }
}

/// One edit of a bundle that is there, alone: the names of the session and the bundle, and the edit's members.
#[tactic(auto, unfolding(crate::specs::Acts::one_request))]
pub(crate) fn one_request(
    alloc: Global,
    command: Command,
    view: &View,
) -> Result<Request, LineFault>
    ensures { Reads result (one_request command (seen_at view.now)) }
{
    let key = key_at(alloc, view)?;
    let edit = edit_of(alloc, command, key, view)?;
    Ok(asks_alone(alloc, edit)?)
}

// Whether a list may have so many edits.
fn may_be_listed(count: usize) -> bool
    ensures test { result ≡ may_be_listed count }
    ensures some { result ≡ true → 1 ≤ count }
    ensures few { result ≡ true → count ≤ MOST }
{
    1 <= count && count <= LIST_EDITS
}

// The number of elements of a list of edits.
#[tactic(auto, using(crate::proofs::Listed::listed_read, crate::proofs::Listed::unlisted_read), unfolding(crate::specs::Acts::edits_at))]
fn edit_count(view: &View) -> Result<usize, ViewFault>
    ensures list { Gives (λ _. list_in (seen_at view.now).value) result (edits_at (seen_at view.now)) }
    ensures count { IfOk result (λ n. n ≡ length (list_in (seen_at view.now).value)) }
    ensures some { IfOk result (λ n. 1 ≤ n) }
    ensures few { IfOk result (λ n. n ≤ MOST) }
{
    match view.list_len() {
        Ok(count) => {
            if !may_be_listed(count) {
                return Err(view.refuse(Wanted::FilledList));
            }
            Ok(count)
        }
        Err(ViewFault::Shape(_)) => Err(view.refuse(Wanted::FilledList)),
        Err(ViewFault::Memory) => Err(ViewFault::Memory),
    }
}

/// An edit of a list: an object whose `do` is its word, with its members.
#[tactic(auto, unfolding(crate::specs::Acts::listed_edit))]
fn listed_edit(alloc: Global, key: &BundleKey, view: &View) -> Result<Edit, LineFault>
    ensures { Reads result (listed_edit key.now (seen_at view.now)) }
{
    let word = word_of_line(view)?;
    let Some(command) = command_named(word) else {
        return Err(LineFault::NoSuchCommand);
    };
    let key = key.copy(alloc)?;
    edit_of(alloc, command, key, view)
}

/// The edits of a list, which has to have 1 to 65,536 of them.
#[tactic(auto, using(json_view::proofs::Each::each_steps), unfolding(crate::specs::Acts::listed_edits))]
fn listed_edits(alloc: Global, key: &BundleKey, view: &View) -> Result<Edits, LineFault>
    ensures { Reads result (listed_edits key.now (seen_at view.now)) }
{
    let count = edit_count(view)?;
    let head = view.at(0)?;
    let first = listed_edit(alloc, key, &head)?;
    let mut edits = Edits::one(alloc, first)?;
    for place in 1..count {
        let part = view.at(place)?;
        match listed_edit(alloc, key, &part) {
            Ok(edit) => edits.push(edit)?,
            Err(fault) => return Err(fault),
        }
    }
    Ok(edits)
}

/// `edits`: the names of the session and the bundle, and the list of edits.
#[tactic(auto, unfolding(crate::specs::Acts::edits_request))]
pub(crate) fn edits_request(alloc: Global, view: &View) -> Result<Request, LineFault>
    ensures { Reads result (edits_request (seen_at view.now)) }
{
    let key = key_at(alloc, view)?;
    let member = view.member("edits", Wanted::FilledList)?;
    let edits = listed_edits(alloc, &key, &member)?;
    Ok(asks(Act::Edits(edits)))
}
