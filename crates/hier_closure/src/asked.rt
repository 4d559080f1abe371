//! The rows of the items of a level that are asked for.
ghost use Rattle.std.specs.Prelude.{◌≡◌, ◌<◌, true, All, length, map, IfOk};
ghost use Rattle.std.specs.List.{list_any};
ghost use Rattle.hier_closure.specs.Dominance.{closure_of, ids_at, is_or_dominates};
ghost use Rattle.hier_closure.specs.Inner.Asked.{AgreeWhere};
ghost use Rattle.hier_closure.specs.Inner.Linked.{AreLinkedIn};
ghost use Rattle.hier_closure.specs.Inner.Ranks.{IsUnder, AreMadeBelow};
ghost use Rattle.hier_closure.specs.Inner.Stands.{AreStandsIn, IsReady, stand_id};

use crate::children::joined_row;
use crate::closure::Closure;
use crate::levels::Rows;
use crate::linked::{LinkedLevels, unset_row};
use crate::stands::{LevelStands, Stand};
use bundle_state::Bundle;
use db_config::Config;
use emu_names::{Memory, PlainData, Series};
use lane_bits::{BitRow, SpanRow};
use std::alloc::Global;

/// The row of the items at some places and of those that they dominate, where it is asked for; else a row of its
/// length. The only refusal is want of memory.
fn row_where(
    alloc: Global,
    config: &Config,
    bundle: &Bundle,
    lower: usize,
    table: &[Closure],
    stands: &[Stand],
    is_asked: bool,
) -> Result<SpanRow, Memory>
    requires under { IsUnder config.now bundle.now }
    requires lower { lower < length bundle.now.levels }
    requires ready { All (IsReady bundle.now lower table.now) stands.now }
    ensures wide { IfOk result (λ row. length row ≡ length (ids_at bundle.now.levels lower)) }
    ensures asked { IfOk result (λ row. is_asked ≡ true → row
        ≡ map (λ b. list_any (is_or_dominates bundle.now.links b) (map (stand_id bundle.now) stands.now))
        (ids_at bundle.now.levels lower)) }
{
    if is_asked {
        joined_row(alloc, config, bundle, lower, table, stands)
    } else {
        unset_row(alloc, bundle.level(lower).len())
    }
}

/// The rows of a level, those that are asked for; else rows of their length. The only refusal is want of memory.
fn rows_where(
    alloc: Global,
    config: &Config,
    bundle: &Bundle,
    stands: &[LevelStands],
    lower: usize,
    table: &[Closure],
    level: usize,
    asked: &BitRow,
) -> Result<Rows, Memory>
    requires under { IsUnder config.now bundle.now }
    requires stands { AreStandsIn bundle.now stands.now }
    requires lower { lower < length bundle.now.levels }
    requires level { level < length bundle.now.levels }
    requires made { AreMadeBelow bundle.now lower table.now level }
    requires asked { length asked.now ≡ length (ids_at bundle.now.levels level) }
    ensures { IfOk result (λ rows. AgreeWhere asked.now (closure_of bundle.now lower level) rows) }
{
    let count = asked.len();
    let own = &stands[level];
    let mut rows = Series::from_vec(Vec::with_capacity(alloc, count)?);
    for position in 0..count {
        let children = own.of_item(position);
        let is_asked = asked.get(position);
        let row = row_where(alloc, config, bundle, lower, table, children, is_asked)?;
        rows.push(row)?;
    }
    Ok(rows)
}

/// The rows of a level, those that are asked for. They are shared with the rows of the bundle's links, where no
/// level lies between it and the lower one and theirs are among them, and made else. The only refusal is want of
/// memory.
pub(crate) fn closure_where(
    alloc: Global,
    config: &Config,
    bundle: &Bundle,
    all: &[LinkedLevels],
    stands: &[LevelStands],
    lower: usize,
    table: &[Closure],
    level: usize,
    asked: &BitRow,
) -> Result<Closure, Memory>
    requires under { IsUnder config.now bundle.now }
    requires kept { AreLinkedIn bundle.now all.now }
    requires stands { AreStandsIn bundle.now stands.now }
    requires lower { lower < length bundle.now.levels }
    requires level { level < length bundle.now.levels }
    requires made { AreMadeBelow bundle.now lower table.now level }
    requires asked { length asked.now ≡ length (ids_at bundle.now.levels level) }
    ensures { IfOk result (λ made. AgreeWhere asked.now (closure_of bundle.now lower level) made) }
{
    if let Some(closure) = Closure::kept_at(config, all, level, lower) {
        return closure.copy(alloc);
    }
    let rows = rows_where(alloc, config, bundle, stands, lower, table, level, asked)?;
    Closure::of(alloc, rows)
}
