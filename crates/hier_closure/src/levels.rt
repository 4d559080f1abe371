//! The rows of the levels between two levels, from the lower one upwards.
ghost use Rattle.std.specs.Prelude.{◌≡◌, ◌<◌, ◌+◌, length, IfOk, OnOk};
ghost use Rattle.hier_closure.specs.Dominance.{closure_of};
ghost use Rattle.hier_closure.specs.Inner.Linked.{AreLinkedIn};
ghost use Rattle.hier_closure.specs.Inner.Ranks.{IsUnder, AreMadeBelow, AreMadeTo};
ghost use Rattle.hier_closure.specs.Inner.Stands.{AreStandsIn};

use crate::children::joined_row;
use crate::closure::Closure;
use crate::linked::LinkedLevels;
use crate::ranks::{any_between, is_between, rank_of};
use crate::stands::LevelStands;
use bundle_state::Bundle;
use db_config::Config;
use emu_names::{Memory, PlainData, Series};
use lane_bits::SpanRow;
use std::alloc::Global;

/// One row for each item of a level.
pub(crate) type Rows = Series<SpanRow>;

/// The rows of a level. The only refusal is want of memory.
fn level_rows(
    alloc: Global,
    config: &Config,
    bundle: &Bundle,
    stands: &[LevelStands],
    lower: usize,
    table: &[Closure],
    level: usize,
) -> Result<Rows, Memory>
    requires under { IsUnder config.now bundle.now }
    requires stands { AreStandsIn bundle.now stands.now }
    requires lower { lower < length bundle.now.levels }
    requires level { level < length bundle.now.levels }
    requires made { AreMadeBelow bundle.now lower table.now level }
    ensures { IfOk result (λ rows. rows ≡ closure_of bundle.now lower level) }
{
    let count = bundle.level(level).len();
    let own = &stands[level];
    let mut rows = Series::from_vec(Vec::with_capacity(alloc, count)?);
    for position in 0..count {
        let children = own.of_item(position);
        let row = joined_row(alloc, config, bundle, lower, table, children)?;
        rows.push(row)?;
    }
    Ok(rows)
}

/// The rows of a level. They are shared with the rows of the bundle's links, where no level lies between it and
/// the lower one and theirs are among them, and made else. The only refusal is want of memory.
pub(crate) fn level_closure(
    alloc: Global,
    config: &Config,
    bundle: &Bundle,
    all: &[LinkedLevels],
    stands: &[LevelStands],
    lower: usize,
    table: &[Closure],
    level: usize,
) -> Result<Closure, Memory>
    requires under { IsUnder config.now bundle.now }
    requires kept { AreLinkedIn bundle.now all.now }
    requires stands { AreStandsIn bundle.now stands.now }
    requires lower { lower < length bundle.now.levels }
    requires level { level < length bundle.now.levels }
    requires made { AreMadeBelow bundle.now lower table.now level }
    ensures { IfOk result (λ made. made ≡ closure_of bundle.now lower level) }
{
    if let Some(closure) = Closure::kept_at(config, all, level, lower) {
        return closure.copy(alloc);
    }
    let rows = level_rows(alloc, config, bundle, stands, lower, table, level)?;
    Closure::of(alloc, rows)
}

/// Puts the rows of a level into the table, if it has the rank and lies between the two levels.
fn add_level(
    alloc: Global,
    config: &Config,
    bundle: &Bundle,
    all: &[LinkedLevels],
    stands: &[LevelStands],
    between: (usize, usize),
    table: &mut Vec<Closure>,
    rank: usize,
    level: usize,
) -> Result<(), Memory>
    requires under { IsUnder config.now bundle.now }
    requires kept { AreLinkedIn bundle.now all.now }
    requires stands { AreStandsIn bundle.now stands.now }
    requires upper { between.0 < length bundle.now.levels }
    requires lower { between.1 < length bundle.now.levels }
    requires level { level < length bundle.now.levels }
    requires count { length table.old.items ≡ length bundle.now.levels }
    requires made { AreMadeTo bundle.now between.0 between.1 rank level table.old.items }
    ensures count { OnOk result (length table.new.items ≡ length bundle.now.levels) }
    ensures made { OnOk result
        (AreMadeTo bundle.now between.0 between.1 rank (level + 1) table.new.items) }
{
    let (upper, lower) = between;
    if !is_between(config, upper, lower, level) {
        return Ok(());
    }
    if rank_of(config, level) != rank {
        return Ok(());
    }
    let closure = level_closure(
        alloc,
        config,
        bundle,
        all,
        stands,
        lower,
        table.as_slice(),
        level,
    )?;
    table[level] = closure;
    Ok(())
}

/// Puts the rows of all levels of a rank between the two levels into the table.
fn add_rank(
    alloc: Global,
    config: &Config,
    bundle: &Bundle,
    all: &[LinkedLevels],
    stands: &[LevelStands],
    between: (usize, usize),
    table: &mut Vec<Closure>,
    rank: usize,
) -> Result<(), Memory>
    requires under { IsUnder config.now bundle.now }
    requires kept { AreLinkedIn bundle.now all.now }
    requires stands { AreStandsIn bundle.now stands.now }
    requires upper { between.0 < length bundle.now.levels }
    requires lower { between.1 < length bundle.now.levels }
    requires count { length table.old.items ≡ length bundle.now.levels }
    requires made { AreMadeTo bundle.now between.0 between.1 rank 0 table.old.items }
    ensures count { OnOk result (length table.new.items ≡ length bundle.now.levels) }
    ensures made { OnOk result
        (AreMadeTo bundle.now between.0 between.1 (rank + 1) 0 table.new.items) }
{
    for level in 0..bundle.level_count() {
        add_level(
            alloc, config, bundle, all, stands, between, table, rank, level,
        )?;
    }
    Ok(())
}

/// A table without rows, whose entries take no block of memory. The only refusal is want of memory.
fn empty_table(alloc: Global, count: usize) -> Result<Vec<Closure>, Memory>
    ensures { IfOk result (λ table. length table.items ≡ count) }
{
    let mut table = Vec::with_capacity(alloc, count)?;
    for _ in 0..count {
        table.push(Closure::none(alloc)?)?;
    }
    Ok(table)
}

/// The rows of all levels between two levels; none, where there is no such level. Those that are among the
/// rows of the bundle's links are shared with them. The only refusal is want of memory.
pub(crate) fn rows_between(
    alloc: Global,
    config: &Config,
    bundle: &Bundle,
    all: &[LinkedLevels],
    stands: &[LevelStands],
    upper: usize,
    lower: usize,
) -> Result<Vec<Closure>, Memory>
    requires under { IsUnder config.now bundle.now }
    requires kept { AreLinkedIn bundle.now all.now }
    requires stands { AreStandsIn bundle.now stands.now }
    requires upper { upper < length bundle.now.levels }
    requires lower { lower < length bundle.now.levels }
    ensures { IfOk result (λ table. AreMadeBelow bundle.now lower table.items upper) }
{
    if !any_between(config, upper, lower) {
        return Ok(Vec::new(alloc));
    }
    let mut table = empty_table(alloc, bundle.level_count())?;
    for rank in 0..rank_of(config, upper) {
        add_rank(
            alloc,
            config,
            bundle,
            all,
            stands,
            (upper, lower),
            &mut table,
            rank,
        )?;
    }
    Ok(table)
}
