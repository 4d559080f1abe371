//! Which items of a level dominate which items of a lower one.
ghost use Rattle.std.specs.Prelude.{◌≡◌, ◌<◌, [], length, slice_get, IfOk, IfSome, Some};
ghost use Rattle.bundle_state.specs.Bundle.{BundleParts};
ghost use Rattle.bundle_state.specs.Built.{FitsConfig};
ghost use Rattle.hier_closure.specs.Dominance.{closure_of, ids_at};
ghost use Rattle.hier_closure.specs.Inner.Asked.{AgreeWhere};
ghost use Rattle.hier_closure.specs.Inner.Linked.{AreLinkedIn};
ghost use Rattle.hier_closure.specs.Inner.Stands.{AreStandsIn};

use crate::asked::closure_where;
use crate::held::Held;
use crate::levels::{Rows, level_closure, rows_between};
use crate::linked::{LinkedLevels, rows_at, unset_row};
use crate::ranks::any_between;
use crate::stands::{LevelStands, stands_in};
use bundle_state::Bundle;
use db_config::Config;
use emu_names::{Memory, PlainData, Shared};
use lane_bits::{BitRow, SpanRow};
use std::alloc::Global;
use std::marker::Model;

/// Which items of an upper level of a bundle dominate which items of a lower one (EMU-SDMS Manual, "The
/// EMU Query Language (EQL)"), which contracts see as one row of bits for each upper item. Copies share the
/// rows.
#[derive(Drop)]
pub struct Closure {
    held: Held,
}

impl Model for Closure {
    ghost use Rattle.std.specs.Prelude.{List, Bool};
    ghost use Rattle.hier_closure.specs.Inner.Held.{rows_in};

    ghost Value = { List (List Bool) };

    ghost view = { λ c. rows_in c.held };
}

impl Closure {
    /// The rows of dominance between two levels of a bundle, which has the levels and the link
    /// definitions of the configuration: bit j of row i says whether item i of the upper level
    /// dominates item j of the lower one. The only refusal is want of memory.
    pub fn between(
        alloc: Global,
        config: &Config,
        bundle: &Bundle,
        upper: usize,
        lower: usize,
    ) -> Result<Closure, Memory>
        requires fits { FitsConfig config.now bundle.now }
        requires upper { upper < length bundle.now.levels }
        requires lower { lower < length bundle.now.levels }
        ensures { IfOk result (λ made. made ≡ closure_of bundle.now lower upper) }
    {
        let stands = stands_in(alloc, bundle)?;
        Closure::placed(
            alloc,
            config,
            bundle,
            stands.as_ref().as_slice(),
            upper,
            lower,
        )
    }

    /// The same rows of dominance, by the places of the items that the items of the bundle link to. The only
    /// refusal is want of memory.
    pub fn placed(
        alloc: Global,
        config: &Config,
        bundle: &Bundle,
        stands: &[LevelStands],
        upper: usize,
        lower: usize,
    ) -> Result<Closure, Memory>
        requires fits { FitsConfig config.now bundle.now }
        requires upper { upper < length bundle.now.levels }
        requires lower { lower < length bundle.now.levels }
        requires stands { AreStandsIn bundle.now stands.now }
        ensures { IfOk result (λ made. made ≡ closure_of bundle.now lower upper) }
    {
        Closure::kept(alloc, config, bundle, &[], stands, upper, lower)
    }

    /// No rows, which take no block of memory. The only refusal is want of memory.
    pub(crate) fn none(alloc: Global) -> Result<Closure, Memory>
        ensures { IfOk result (λ made. made ≡ []) }
    {
        let row = unset_row(alloc, 0)?;
        Ok(Closure {
            held: Held::Alike(0, row),
        })
    }

    /// These rows. The only refusal is want of memory.
    pub(crate) fn of(alloc: Global, rows: Rows) -> Result<Closure, Memory>
        ensures { IfOk result (λ made. made ≡ rows) }
    {
        let rows = Shared::new(alloc, rows)?;
        Ok(Closure {
            held: Held::Each(rows),
        })
    }

    /// The rows of dominance between two levels of a bundle, which has the levels and the link definitions of
    /// the configuration, where no level lies between the two and theirs are among the rows of its links.
    pub fn kept_at<'a>(
        config: &Config,
        all: &'a [LinkedLevels],
        upper: usize,
        lower: usize,
    ) -> Option<&'a Closure>
        requires upper { upper < length config.now.levels }
        requires lower { lower < length config.now.levels }
        ensures { IfSome result (λ made. (bundle : BundleParts) → FitsConfig config.now bundle
            → AreLinkedIn bundle all.now → made.now ≡ closure_of bundle lower upper) }
    {
        if any_between(config, upper, lower) {
            return None;
        }
        rows_at(all, upper, lower)
    }

    /// The same rows of dominance. They are shared with the rows of the bundle's links, where no level lies
    /// between the two and theirs are among them, and made else. The only refusal is want of memory.
    pub fn kept(
        alloc: Global,
        config: &Config,
        bundle: &Bundle,
        all: &[LinkedLevels],
        stands: &[LevelStands],
        upper: usize,
        lower: usize,
    ) -> Result<Closure, Memory>
        requires fits { FitsConfig config.now bundle.now }
        requires upper { upper < length bundle.now.levels }
        requires lower { lower < length bundle.now.levels }
        requires kept { AreLinkedIn bundle.now all.now }
        requires stands { AreStandsIn bundle.now stands.now }
        ensures { IfOk result (λ made. made ≡ closure_of bundle.now lower upper) }
    {
        let _parts = config.parts();
        let _items = bundle.item_count();
        if !config.is_above(upper, lower) {
            let held = Held::unset(alloc, bundle, upper, lower)?;
            return Ok(Closure { held });
        }
        let table = rows_between(alloc, config, bundle, all, stands, upper, lower)?;
        level_closure(
            alloc,
            config,
            bundle,
            all,
            stands,
            lower,
            table.as_slice(),
            upper,
        )
    }

    /// The same rows of dominance for the items of the upper level that are asked for. Of the row of another
    /// item nothing is promised but its length. The only refusal is want of memory.
    pub fn kept_where(
        alloc: Global,
        config: &Config,
        bundle: &Bundle,
        all: &[LinkedLevels],
        stands: &[LevelStands],
        upper: usize,
        lower: usize,
        asked: &BitRow,
    ) -> Result<Closure, Memory>
        requires fits { FitsConfig config.now bundle.now }
        requires upper { upper < length bundle.now.levels }
        requires lower { lower < length bundle.now.levels }
        requires kept { AreLinkedIn bundle.now all.now }
        requires stands { AreStandsIn bundle.now stands.now }
        requires asked { length asked.now ≡ length (ids_at bundle.now.levels upper) }
        ensures { IfOk result (λ made. AgreeWhere asked.now (closure_of bundle.now lower upper) made) }
    {
        let _parts = config.parts();
        let _items = bundle.item_count();
        if !config.is_above(upper, lower) {
            let held = Held::unset(alloc, bundle, upper, lower)?;
            return Ok(Closure { held });
        }
        let between = rows_between(alloc, config, bundle, all, stands, upper, lower)?;
        let table = between.as_slice();
        closure_where(
            alloc, config, bundle, all, stands, lower, table, upper, asked,
        )
    }

    /// The row of an item of the upper level, by its position.
    pub fn row(&self, position: usize) -> &SpanRow
        requires { position < length self.now }
        ensures { slice_get self.now position ≡ Some result.now }
    {
        self.held.row(position)
    }
}

impl PlainData for Closure {
    fn copy(&self, alloc: Global) -> Result<Closure, Memory> {
        let held = self.held.copy(alloc)?;
        Ok(Closure { held })
    }
}
