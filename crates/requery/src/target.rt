//! Where a requery leads.
ghost use Rattle.std.specs.Prelude.{◌≡◌};
ghost use Rattle.requery.specs.Target.{level_reached};

use db_config::AttributePlace;
use emu_names::{Memory, PlainData, Text};
use std::alloc::Global;

/// Where a requery leads, as it is asked for.
#[derive(Drop)]
pub enum Requery {
    /// To the level or the attribute of this name.
    Level(Text),
    /// Along the level of the results: to the stretch of `length` items that begins `right` items behind a
    /// result's first item, or behind its last one, and `left` items before that.
    Along {
        from_end: bool,
        right: u32,
        left: u32,
        length: u32,
    },
}

impl PlainData for Requery {
    fn copy(&self, alloc: Global) -> Result<Requery, Memory> {
        match self {
            Requery::Level(name) => Ok(Requery::Level(name.copy(alloc)?)),
            Requery::Along {
                from_end,
                right,
                left,
                length,
            } => Ok(Requery::Along {
                from_end: *from_end,
                right: *right,
                left: *left,
                length: *length,
            }),
        }
    }
}

/// How far along their level results are moved, in items.
#[derive(Clone, Copy, Debug, PartialEq, Eq)]
pub struct Shift {
    /// Whether it begins at the last item of a result, and not at the first one.
    pub from_end: bool,
    /// How far to the right.
    pub right: u32,
    /// How far to the left.
    pub left: u32,
    /// How many items the new stretch has.
    pub length: u32,
}

/// Where a requery leads, with its name replaced.
#[derive(Clone, Copy, Debug, PartialEq, Eq)]
pub enum Target {
    /// To the level of this attribute, which is shown.
    Level(AttributePlace),
    /// Along the level of the results.
    Along(Shift),
}

impl Target {
    /// The level that is reached from results on a level.
    pub(crate) fn level_from(&self, level: usize) -> usize
        ensures { result ≡ level_reached level self.now }
    {
        match self {
            Target::Level(place) => place.level,
            Target::Along(_) => level,
        }
    }
}
