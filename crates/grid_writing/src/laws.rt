//! Laws of what is written.
ghost use Rattle.std.specs.Prelude.{◌≡◌, ◌≤◌, ℕ, List, IsTrue, Ok};
ghost use Rattle.std.specs.Str.{IsUtf8};
ghost use Rattle.level_items.specs.declared.items.Item.{Item as ItemOf};
ghost use Rattle.level_items.specs.Levels.{Level as LevelOf, KeepsLevelRule};
ghost use Rattle.db_config.specs.declared.parts.ConfigParts.{ConfigParts};
ghost use Rattle.db_config.specs.Valid.{is_valid};
ghost use Rattle.bundle_state.specs.Bundle.{BundleParts};
ghost use Rattle.bundle_state.specs.Valid.{KeepsBundleRules};
ghost use Rattle.grid_writing.specs.declared.entries.Entry.{Entry as EntryOf};
ghost use Rattle.grid_writing.specs.Back.{ComesBack, IsFilledLevel};
ghost use Rattle.grid_writing.specs.Filled.{IsFilled};
ghost use Rattle.grid_writing.specs.Levels.{reach_of};
ghost use Rattle.grid_writing.specs.Written.{written};

use sample_time::times_read_back;
use textgrid::grids_are_written_out;

/// A law: the filled list of a SEGMENT level that is over by the end leaves no sample out, takes none twice,
/// has the items' own times and first labels where its fillers are dropped, and has no two fillers side by
/// side; and it is the only such list.
#[tactic(auto, using(crate::proofs::Fitting::level_is_filled, crate::proofs::Fillers::filled_is_only))]
pub fn filled_leaves_none_out()
    ensures is { (end : ℕ) (level : LevelOf) → KeepsLevelRule level
        → reach_of level.kind level.items ≤ end → IsFilledLevel end level }
    ensures only { (end : ℕ) (items : List ItemOf) (a b : List EntryOf)
        → IsFilled end items a → IsFilled end items b → a ≡ b }
{}

/// A law: the text that a bundle is written as is read as a grid, which gives levels of the same names, kinds
/// and order, with the same times and labels; fillers apart these are the bundle's own.
pub fn written_comes_back()
    ensures { (config : ConfigParts) (bundle : BundleParts) (text : List ℕ)
        → IsTrue (is_valid config) → KeepsBundleRules bundle → IsUtf8 text
        → written config bundle ≡ Ok text → ComesBack config bundle text }
{
    times_read_back();
    grids_are_written_out();
}
