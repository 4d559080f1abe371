//! The columns of a level as indexed bundles share them, where that level has not changed.
ghost use Rattle.std.specs.Prelude.{◌≡◌, IfOk, OnOk};
ghost use Rattle.level_items.specs.Levels.{KeepsLevelRule};
ghost use Rattle.bundle_index.specs.Inner.Numbered.{HasGrown};
ghost use Rattle.bundle_index.specs.Inner.Columns.{AreColumnsOf};

use crate::columns::{LevelColumns, columns_of};
use crate::labels::Labels;
use emu_names::Memory;
use level_items::LevelList;
use std::alloc::Global;
use std::marker::Model;
use std::sync::Arc;

/// The columns of a level, which are kept as long as they have an owner, on whatever thread. Contracts see
/// the columns themselves.
#[derive(Drop)]
pub struct SharedColumns {
    inside: Arc<LevelColumns>,
}

impl Model for SharedColumns {
    ghost use Rattle.bundle_index.specs.declared.columns.LevelColumns.{LevelColumns};

    ghost Value = { LevelColumns };

    ghost view = { λ s. s.inside.value };
}

impl SharedColumns {
    /// These columns, with one owner. The only refusal is want of memory.
    fn new(alloc: Global, columns: LevelColumns) -> Result<SharedColumns, Memory>
        ensures { IfOk result (λ made. made ≡ columns) }
    {
        let inside = Arc::new(alloc, columns)?;
        Ok(SharedColumns { inside })
    }

    /// The columns of a level. The numbers of labels in `near` are tried first, of which nothing is promised. The only
    /// refusal is want of memory, or of a number for a label.
    pub fn of_level(
        alloc: Global,
        level: &LevelList,
        near: Option<&LevelColumns>,
        labels: &mut Labels,
    ) -> Result<SharedColumns, Memory>
        requires { KeepsLevelRule level.now }
        ensures columns { IfOk result (λ columns. AreColumnsOf labels.new level.now columns) }
        ensures grown { OnOk result (HasGrown labels.old labels.new) }
    {
        let columns = columns_of(alloc, level, near, labels)?;
        SharedColumns::new(alloc, columns)
    }

    /// The columns.
    pub fn as_ref(&self) -> &LevelColumns
        ensures { result.now ≡ self.now }
    {
        self.inside.as_ref()
    }

    /// The same columns, with one owner more. The only refusal is want of memory.
    pub fn copy(&self) -> Result<SharedColumns, Memory>
        ensures { IfOk result (λ made. made ≡ self.now) }
    {
        let inside = self.inside.clone()?;
        Ok(SharedColumns { inside })
    }
}
