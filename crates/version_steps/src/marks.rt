//! Which levels of a bundle edits may change, as marks in a row.
ghost use Rattle.std.specs.Prelude.{◌≡◌, ◌<◌, ℕ, true, false, get_or, length, replicate, IfOk};
ghost use Rattle.version_steps.specs.Inner.Steps.{AreMarked, IsMarked, level_called, level_with, touched};

use bundle_state::Bundle;
use db_config::Config;
use edit_rules::Edit;
use emu_names::{ItemId, Memory, Text};
use lane_bits::BitRow;
use std::alloc::Global;

/// The number of the level on which an item stands, or the number of levels where it stands on none.
fn level_with(bundle: &Bundle, id: ItemId) -> usize
    ensures { result ≡ level_with bundle.now.levels id }
{
    match bundle.place(id) {
        Some((level, _position)) => level,
        None => bundle.level_count(),
    }
}

/// The number of the level of this name, or the number of levels where there is none.
fn level_called(config: &Config, name: &Text) -> usize
    ensures { result ≡ level_called config.now.levels name.now }
{
    match config.level_named(name.as_str()) {
        Some(level) => level,
        None => config.parts().levels.len(),
    }
}

/// The number of the one level whose items an edit may change in a bundle, or the number of levels where it
/// changes none.
fn touched(config: &Config, bundle: &Bundle, edit: &Edit) -> usize
    ensures { result ≡ touched config.now bundle.now.levels edit.now }
{
    match edit {
        Edit::AddItem { level, .. } | Edit::PutItem { level, .. } => level_called(config, level),
        Edit::RemoveItem { id, .. }
        | Edit::SetLabel { id, .. }
        | Edit::PutLabel { id, .. }
        | Edit::SetSegment { id, .. }
        | Edit::MoveBoundary { id, .. }
        | Edit::SetPoint { id, .. }
        | Edit::Split { id, .. }
        | Edit::Merge { id, .. } => level_with(bundle, *id),
        Edit::AddBundle { .. }
        | Edit::DropBundle { .. }
        | Edit::AddLink { .. }
        | Edit::RemoveLink { .. }
        | Edit::PutLink { .. }
        | Edit::LinkTimes { .. } => bundle.level_count(),
    }
}

/// A row of bits, none of which is set. The only refusal is want of memory.
pub(crate) fn unmarked(alloc: Global, count: usize) -> Result<BitRow, Memory>
    ensures { IfOk result (λ row. row ≡ replicate count false) }
{
    match BitRow::new(alloc, count) {
        Ok(row) => Ok(row),
        Err(_) => Err(Memory),
    }
}

/// Marks a level in a row, if the row has a bit for it.
#[tactic(auto, using(crate::proofs::Marking::mark_here, crate::proofs::Marking::mark_others, crate::proofs::Marking::mark_count, crate::proofs::Marking::mark_beyond))]
pub(crate) fn mark(row: &mut BitRow, level: usize)
    ensures count { length row.new ≡ length row.old }
    ensures here { level < length row.old → get_or row.new level false ≡ true }
    ensures others { (k : ℕ) → get_or row.old k false ≡ true → get_or row.new k false ≡ true }
{
    if level < row.len() {
        row.set(level, true);
    }
}

/// A row with a bit for each level of a bundle, in which the levels that edits of it may change are marked. The
/// only refusal is want of memory.
#[tactic(auto, using(crate::proofs::Touching::none_marked, crate::proofs::Touching::marks_whole))]
pub(crate) fn touched_by(
    alloc: Global,
    config: &Config,
    bundle: &Bundle,
    edits: &[Edit],
) -> Result<BitRow, Memory>
    ensures { IfOk result (λ row. AreMarked config.now bundle.now.levels edits.now row) }
{
    let mut row = unmarked(alloc, bundle.level_count())?;
    'edits: for edit in edits {
        let level = touched(config, bundle, edit);
        mark(&mut row, level);
    }
    Ok(row)
}
