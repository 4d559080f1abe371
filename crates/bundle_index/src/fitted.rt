//! An indexed bundle under a configuration that has more parts than its own.
ghost use Rattle.std.specs.Prelude.{◌≡◌, ◌+◌, ◌<◌, length, false, IfOk};
ghost use Rattle.bundle_state.specs.Fitted.{CanFit, fitted};
ghost use Rattle.bundle_index.specs.Inner.Fitted.{AreWide, attributes_at};

use crate::Indexed;
use crate::indexed::row_of;
use bundle_state::Bundle;
use db_config::Config;
use emu_names::Memory;
use lane_bits::BitRow;
use std::alloc::Global;

/// Whether a level has other attributes than the level of its number in a bundle before, or is none of that one.
#[tactic(auto, using(crate::proofs::Widening::alike_at))]
fn is_wider(old: &Bundle, new: &Bundle, level: usize) -> bool
    requires { level < length new.now.levels }
    ensures { result ≡ false → attributes_at new.now.levels level ≡ attributes_at old.now.levels level }
{
    if level >= old.level_count() {
        return true;
    }
    old.level(level).attributes() != new.level(level).attributes()
}

/// Marks a level in a row with a bit for each level, where it is wider than before.
#[tactic(auto, using(crate::proofs::Widening::marked_here, crate::proofs::Widening::marked_before))]
fn mark_wider(row: &mut BitRow, old: &Bundle, new: &Bundle, level: usize)
    requires level { level < length new.now.levels }
    requires count { length row.old ≡ length new.now.levels }
    requires wide { AreWide old.now.levels new.now.levels row.old level }
    ensures count { length row.new ≡ length row.old }
    ensures wide { AreWide old.now.levels new.now.levels row.new (level + 1) }
{
    if is_wider(old, new, level) {
        row.set(level, true);
    }
}

/// A row with a bit for each level of a bundle, in which those are marked that have other attributes than in a
/// bundle before, or that are new. The only refusal is want of memory.
#[tactic(auto, using(crate::proofs::Widening::none_wide))]
fn wider_levels(alloc: Global, old: &Bundle, new: &Bundle) -> Result<BitRow, Memory>
    ensures { IfOk result (λ row. AreWide old.now.levels new.now.levels row (length new.now.levels)) }
{
    let mut row = row_of(alloc, new.level_count())?;
    for level in 0..new.level_count() {
        mark_wider(&mut row, old, new, level);
    }
    Ok(row)
}

impl Indexed {
    /// The bundle, made to fit a configuration that begins with its own, with its columns: those of the levels that get
    /// attributes, or are new, are made anew, and all others are shared. The only refusal is want of memory.
    #[tactic(auto, using(crate::proofs::Widening::same_but_wider))]
    pub fn fit(&self, alloc: Global, config: &Config) -> Result<Indexed, Memory>
        requires { CanFit config.now self.now.bundle }
        ensures { IfOk result (λ made. made.bundle ≡ fitted config.now self.now.bundle) }
    {
        let _items = self.bundle().item_count();
        let bundle = self.bundle().fit(alloc, config)?;
        let row = wider_levels(alloc, self.bundle(), &bundle)?;
        self.changed_on(alloc, bundle, &row)
    }
}
