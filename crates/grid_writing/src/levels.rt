//! The levels of a bundle that are written: those with times.
ghost use Rattle.std.specs.Prelude.{◌≡◌, ◌≤◌, ◌++◌, [], All, IfOk, OnOk};
ghost use Rattle.emu_names.specs.declared.limits.TheConstants.{SAMPLES};
ghost use Rattle.bundle_state.specs.Built.{FitsConfig};
ghost use Rattle.grid_writing.specs.Levels.{end_of, entries_of, reach, reach_of, time_level, time_levels, where_timed};
ghost use Rattle.grid_writing.specs.Inner.Within.{IsItemInTime};

use crate::entries::{Entry, entries_of, filled, last_sample};
use bundle_state::Bundle;
use db_config::{Config, LevelDef};
use emu_names::{LevelKind, Memory, Name, Series};
use level_items::{Item, LevelList};
use std::alloc::Global;

/// A level with times, as it is written.
#[derive(Drop)]
pub struct TimeLevel {
    /// Its name.
    pub name: Name,
    /// Whether it has segments; else it has events.
    pub segments: bool,
    /// What stands on its tier.
    pub entries: Series<Entry>,
}

/// One past the last sample of any of these items; 0 where there is none.
fn reach(items: &[Item]) -> u64
    requires { All IsItemInTime items.now }
    ensures value { result ≡ reach items.now }
    ensures within { result ≤ SAMPLES }
{
    let mut end = 0;
    for item in items {
        end = u64::max(last_sample(item.time) + 1, end);
    }
    end
}

/// One past the last sample of any item of a level with times; 0 of an ITEM level.
fn reach_of(kind: LevelKind, list: &LevelList) -> u64
    ensures value { result ≡ reach_of kind list.now.items }
    ensures within { result ≤ SAMPLES }
{
    // Asked for what it promises: each item ends in time.
    let _count = list.len();
    match kind {
        LevelKind::Item => 0,
        LevelKind::Segment | LevelKind::Event => reach(list.as_slice()),
    }
}

/// The end of the grid: one past the last sample of any item of a level with times, and 1 where there is
/// none.
pub fn end_of(config: &Config, bundle: &Bundle) -> u64
    requires { FitsConfig config.now bundle.now }
    ensures value { result ≡ end_of bundle.now.levels }
    ensures within { result ≤ SAMPLES }
{
    let mut end = 1;
    for level in 0..config.level_count() {
        end = u64::max(reach_of(config.kind(level), bundle.level(level)), end);
    }
    end
}

/// The entries of a level, by its kind. The only refusal is want of memory.
fn level_entries(
    alloc: Global,
    end: u64,
    kind: LevelKind,
    list: &LevelList,
) -> Result<Series<Entry>, Memory>
    requires kind { list.now.kind ≡ kind }
    requires reach { reach_of kind list.now.items ≤ end }
    requires end { end ≤ SAMPLES }
    ensures { IfOk result (λ made. made ≡ entries_of kind end list.now.items) }
{
    // Asked for what it promises: segments lie apart.
    let _count = list.len();
    match kind {
        LevelKind::Segment => filled(alloc, end, list.as_slice()),
        LevelKind::Event => entries_of(alloc, list.as_slice()),
        LevelKind::Item => Ok(Series::new(alloc)),
    }
}

/// Puts a level behind others, where its kind has times. The only refusal is want of memory.
fn put_level(
    alloc: Global,
    made: &mut Vec<TimeLevel>,
    end: u64,
    def: &LevelDef,
    list: &LevelList,
) -> Result<(), Memory>
    requires kind { list.now.kind ≡ def.now.kind }
    requires reach { reach_of list.now.kind list.now.items ≤ end }
    requires end { end ≤ SAMPLES }
    ensures { let level = time_level end def.now.name list.now
        in OnOk result (made.new.items ≡ made.old.items ++ where_timed list.now.kind level []) }
{
    let segments = match def.kind {
        LevelKind::Segment => true,
        LevelKind::Event => false,
        LevelKind::Item => return Ok(()),
    };
    let name = def.name.copy(alloc)?;
    let entries = level_entries(alloc, end, def.kind, list)?;
    made.push(TimeLevel {
        name,
        segments,
        entries,
    })?;
    Ok(())
}

/// The levels with times, in the order of the configuration, up to the end of the grid. The only refusal is
/// want of memory.
pub fn time_levels(
    alloc: Global,
    config: &Config,
    bundle: &Bundle,
    end: u64,
) -> Result<Vec<TimeLevel>, Memory>
    requires fits { FitsConfig config.now bundle.now }
    requires end { end ≡ end_of bundle.now.levels }
    requires within { end ≤ SAMPLES }
    ensures { IfOk result
        (λ made. made.items ≡ time_levels end config.now.levels bundle.now.levels) }
{
    let defs = config.parts().levels.as_slice();
    let mut made = Vec::new(alloc);
    for place in 0..defs.len() {
        put_level(alloc, &mut made, end, &defs[place], bundle.level(place))?;
    }
    Ok(made)
}
