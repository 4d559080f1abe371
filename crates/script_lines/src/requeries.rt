//! The member `requery` of a question.
ghost use Rattle.json_view.specs.Inner.Gives.{Gives};
ghost use Rattle.json_view.specs.Inner.Seen.{seen_at};
ghost use Rattle.script_lines.specs.Requeries.{along_at, count_at, count_in, end_at, end_in, far_at, requery_at, requery_in};

use crate::forms::owned;
use emu_names::limits::BUNDLE_ITEMS;
use json_view::{View, ViewFault, Wanted};
use session_core::requery::Requery;
use std::alloc::Global;

/// Results are moved by at most so many items, and reach at most as many: no level has more.
const MOST_ITEMS: u64 = BUNDLE_ITEMS as u64;

// Whether a move begins at the last item of a result, by its word.
#[tactic(auto, unfolding(crate::specs::Requeries::end_in, json_view::specs::Parts::text_at))]
fn end_in(view: &View) -> Result<bool, ViewFault>
    ensures { Gives (λ b. b) result (end_in (seen_at view.now)) }
{
    match view.text() {
        Ok("START") => Ok(false),
        Ok("END") => Ok(true),
        Ok(_) => Err(view.refuse(Wanted::Kind)),
        Err(ViewFault::Shape(_)) => Err(view.refuse(Wanted::Kind)),
        Err(ViewFault::Memory) => Err(ViewFault::Memory),
    }
}

// The member `ref`: whether a move begins at the last item of a result.
#[tactic(auto, unfolding(crate::specs::Requeries::end_at))]
fn end_at(view: &View) -> Result<bool, ViewFault>
    ensures { Gives (λ b. b) result (end_at (seen_at view.now)) }
{
    match view.optional("ref")? {
        Some(part) => end_in(&part),
        None => Ok(false),
    }
}

// A member that says how far a move goes, in items.
#[tactic(auto, unfolding(crate::specs::Requeries::far_at))]
fn far_at(view: &View, name: &str) -> Result<u32, ViewFault>
    ensures { Gives (λ n. n) result (far_at name.now (seen_at view.now)) }
{
    match view.optional(name)? {
        Some(part) => Ok(part.whole(MOST_ITEMS)? as u32),
        None => Ok(0),
    }
}

// A number of items, of which there is one at least.
#[tactic(auto, unfolding(crate::specs::Requeries::count_in))]
fn count_in(view: &View) -> Result<u32, ViewFault>
    ensures { Gives (λ n. n) result (count_in (seen_at view.now)) }
{
    let count = view.whole(MOST_ITEMS)?;
    if count < 1 {
        return Err(view.refuse(Wanted::Whole));
    }
    Ok(count as u32)
}

// The member `length`: how many items are reached.
#[tactic(auto, unfolding(crate::specs::Requeries::count_at))]
fn count_at(view: &View) -> Result<u32, ViewFault>
    ensures { Gives (λ n. n) result (count_at (seen_at view.now)) }
{
    match view.optional("length")? {
        Some(part) => count_in(&part),
        None => Ok(1),
    }
}

// A move along the level.
#[tactic(auto, unfolding(crate::specs::Requeries::along_at))]
fn along_at(view: &View) -> Result<Requery, ViewFault>
    ensures { Gives (λ r. r) result (along_at (seen_at view.now)) }
{
    let from_end = end_at(view)?;
    let right = far_at(view, "right")?;
    let left = far_at(view, "left")?;
    let length = count_at(view)?;
    Ok(Requery::Along {
        from_end,
        right,
        left,
        length,
    })
}

// An object that says where results are carried: to the level or the attribute of its member `level`, or else
// along their level.
#[tactic(auto, unfolding(crate::specs::Requeries::requery_in))]
fn requery_in(alloc: Global, view: &View) -> Result<Requery, ViewFault>
    ensures { Gives (λ r. r) result (requery_in (seen_at view.now)) }
{
    match view.optional_text("level")? {
        Some(name) => Ok(Requery::Level(owned(alloc, name)?)),
        None => along_at(view),
    }
}

/// The member `requery`, which says where results are carried, where it is there.
#[tactic(auto, unfolding(crate::specs::Requeries::requery_at))]
pub(crate) fn requery_at(alloc: Global, view: &View) -> Result<Option<Requery>, ViewFault>
    ensures { Gives (λ r. r) result (requery_at (seen_at view.now)) }
{
    match view.optional("requery")? {
        Some(part) => Ok(Some(requery_in(alloc, &part)?)),
        None => Ok(None),
    }
}
