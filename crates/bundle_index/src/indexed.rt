//! A bundle with its columns.
ghost use Rattle.std.specs.Prelude.{◌≡◌, ◌≢◌, ◌<◌, ℕ, List, true, false, get_or, length, map, replicate, IfOk, IfSome, OnOk, Some, position};
ghost use Rattle.std.specs.List.{slice_get};
ghost use Rattle.std.specs.Str.{bytes_eq};
ghost use Rattle.lane_bits.specs.Inner.Row.{is_between};
ghost use Rattle.bundle_state.specs.Built.{FitsConfig};
ghost use Rattle.hier_closure.specs.Dominance.{closure_of};
ghost use Rattle.hier_closure.specs.Inner.Asked.{AgreeWhere};
ghost use Rattle.bundle_index.specs.Inner.Numbered.{AreNumbered, HasGrown, IsColumnOf};
ghost use Rattle.bundle_index.specs.Inner.Index.{IsTimed, attributes_on, has_label, starts_within};
ghost use Rattle.level_items.specs.Levels.{Level, items_at, label_of};
ghost use Rattle.bundle_index.specs.Inner.Columns.{AreColumnsBut, AreColumnsFor, AreColumnsOf, AreKeptOf, AreOtherwiseSame, AreSameBut, ends_of, starts_of};
ghost use Rattle.bundle_index.specs.Inner.Keys.{AreKeysOf, IsKeyOf};

use crate::columns::LevelColumns;
use crate::labels::Labels;
use crate::shared::SharedColumns;
use crate::short_keys::ShortKeys;
use bundle_state::Bundle;
use db_config::Config;
use emu_names::{Memory, Series};
use hier_closure::{
    BundleStands, Closure, LinkedLevels, are_alike, linked_levels, relinked_levels, stands_again,
    stands_in,
};
use lane_bits::{BitRow, eq_lanes, range_lanes};
use std::alloc::Global;
use std::marker::Model;

/// The most labels that are kept when a level changes.
const KEPT_LABELS: usize = 4_194_304;

/// A bundle with its labels and times in columns, which contracts see as the bundle and the list of its
/// distinct labels.
///
/// It always keeps for each attribute of each level the column of the numbers of its items' labels, where
/// the number of a label is its place in the list, and for each SEGMENT and EVENT level the columns of its
/// items' first and last samples. For each two levels between which a link leads it also keeps which items of the
/// upper one link to which items of the lower one, unless the items of the two are linked so far apart that this
/// would take too much room; it keeps for each item the places of the items that it links to; and of at most 64
/// labels it keeps keys, by which a short label is found without a look at the labels.
#[derive(Drop)]
pub struct Indexed {
    bundle: Bundle,
    labels: Labels,
    keys: ShortKeys,
    columns: Series<SharedColumns>,
    linked: Series<LinkedLevels>,
    stands: BundleStands,
}

impl Model for Indexed {
    ghost use Rattle.bundle_index.specs.Index.{IndexParts};

    ghost Value = { IndexParts };

    ghost use Rattle.bundle_index.specs.Inner.Columns.{AreKeptOf};

    ghost view = { λ x. record { bundle = x.bundle; labels = x.labels } };

    ghost invariant = { λ x. AreKeptOf x.bundle x.labels x.keys x.columns x.linked x.stands };
}

impl Indexed {
    /// The bundle with its columns. The only refusal is want of memory, or of a number for a label:
    /// there are numbers for 4,294,967,295 labels.
    pub fn new(alloc: Global, bundle: Bundle) -> Result<Indexed, Memory>
        ensures { IfOk result (λ made. made.bundle ≡ bundle) }
    {
        match kept_beside(alloc, &bundle) {
            Ok(kept) => Ok(Indexed::of(bundle, kept)),
            Err(fault) => Err(fault),
        }
    }

    /// The bundle, whose levels are those of this one but for one level, with its columns. The columns of
    /// that level are made anew, and all others are shared, as by [`Indexed::changed_on`].
    #[tactic(auto, using(crate::proofs::Asked::same_but_one))]
    pub fn changed(&self, alloc: Global, bundle: Bundle, level: usize) -> Result<Indexed, Memory>
        requires { AreOtherwiseSame self.now.bundle.levels bundle.levels level }
        ensures { IfOk result (λ made. made.bundle ≡ bundle) }
    {
        let marked = one_mark(alloc, bundle.level_count(), level)?;
        self.changed_on(alloc, bundle, &marked)
    }

    /// The bundle, whose levels are those of this one but for the marked ones, with its columns. The columns of
    /// the marked levels are made anew, and all others are shared; so are the rows of links, where neither the
    /// links nor the ids of those levels have changed. The only refusal is want of memory, or of a number for a
    /// label.
    ///
    /// The labels of this one keep their numbers, unless there are more than 4,194,304 labels then, many
    /// of which no item may have any longer: all columns are made anew in that case.
    pub fn changed_on(
        &self,
        alloc: Global,
        bundle: Bundle,
        marked: &BitRow,
    ) -> Result<Indexed, Memory>
        requires { AreSameBut marked.now self.now.bundle.levels bundle.levels }
        ensures { IfOk result (λ made. made.bundle ≡ bundle) }
    {
        match self.changed_beside(alloc, &bundle, marked) {
            Ok(kept) => Ok(Indexed::of(bundle, kept)),
            Err(fault) => Err(fault),
        }
    }

    /// A bundle with what is kept beside it.
    fn of(bundle: Bundle, kept: Kept) -> Indexed
        requires { AreKeptOf bundle kept.labels kept.keys kept.columns kept.linked kept.stands }
        ensures { result.bundle ≡ bundle }
    {
        let Kept {
            labels,
            keys,
            columns,
            linked,
            stands,
        } = kept;
        Indexed {
            bundle,
            labels,
            keys,
            columns,
            linked,
            stands,
        }
    }

    /// What is kept beside a bundle whose levels are those of this one but for the marked ones. The only refusal
    /// is want of memory, or of a number for a label.
    fn changed_beside(
        &self,
        alloc: Global,
        bundle: &Bundle,
        marked: &BitRow,
    ) -> Result<Kept, Memory>
        requires { AreSameBut marked.now self.now.bundle.levels bundle.now.levels }
        ensures { IfOk result (λ kept.
            AreKeptOf bundle.now kept.labels kept.keys kept.columns kept.linked kept.stands) }
    {
        let mut labels = self.labels.copy()?;
        let columns = changed_columns(alloc, &self.columns, bundle, marked, &mut labels)?;
        if labels.len() > KEPT_LABELS {
            return kept_beside(alloc, bundle);
        }
        let alike = are_alike(&self.bundle, bundle, marked);
        let linked = relinked_levels(alloc, &self.bundle, &self.linked, bundle, marked, alike)?;
        let stands = stands_again(alloc, &self.bundle, &self.stands, bundle, marked, alike)?;
        keyed(alloc, labels, columns, linked, stands)
    }

    /// The bundle.
    pub fn bundle(&self) -> &Bundle
        ensures { result.now ≡ self.now.bundle }
    {
        &self.bundle
    }

    /// The place of a label in the list of labels, `None` exactly where it is not there. Whoever asks may
    /// rely on it that the labels are distinct.
    pub fn label_number(&self, label: &str) -> Option<u32>
        ensures number { result ≡ position (bytes_eq label.now) self.now.labels }
        ensures rule { AreNumbered self.now.labels }
    {
        if self.keys.can_tell(label) {
            let _labels = self.labels.len();
            self.keys.find(label)
        } else {
            self.labels.find(label)
        }
    }

    /// The key of the label of a number: labels of the same key that is not 0 are the same, in whatever bundles they
    /// are. It is 0 where the label has more than seven bytes, or where the bundle keeps no keys.
    pub fn label_key(&self, number: u32) -> u64
        ensures { (label : List ℕ) → slice_get self.now.labels number ≡ Some label
            → result ≢ 0 → IsKeyOf label result }
    {
        self.keys.at(number as usize)
    }

    /// The numbers of the items' labels for an attribute of a level, one for each item in order.
    pub fn column(&self, level: usize, attribute: usize) -> &[u32]
        requires level { level < length self.now.bundle.levels }
        requires attribute { attribute < attributes_on self.now.bundle level }
        ensures { IsColumnOf self.now.labels result.now
            (map (label_of attribute) (items_at self.now.bundle.levels level)) }
    {
        let labels = &self.columns.get(level).as_ref().labels;
        if attribute < labels.len() {
            labels.get(attribute).as_slice()
        } else {
            &[]
        }
    }

    /// The first samples of the items of a SEGMENT or EVENT level, in order.
    pub fn starts(&self, level: usize) -> &[u64]
        requires level { level < length self.now.bundle.levels }
        requires timed { IsTimed self.now.bundle level }
        ensures { result.now ≡ starts_of (items_at self.now.bundle.levels level) }
    {
        self.columns.get(level).as_ref().starts.as_slice()
    }

    /// The last samples of the items of a SEGMENT or EVENT level, in order.
    pub fn ends(&self, level: usize) -> &[u64]
        requires level { level < length self.now.bundle.levels }
        requires timed { IsTimed self.now.bundle level }
        ensures { result.now ≡ ends_of (items_at self.now.bundle.levels level) }
    {
        self.columns.get(level).as_ref().ends.as_slice()
    }

    /// The rows of dominance between two levels of the bundle, which has the levels and the link definitions
    /// of the configuration: bit j of row i says whether item i of the upper level dominates item j of the
    /// lower one. The only refusal is want of memory.
    pub fn closure(
        &self,
        alloc: Global,
        config: &Config,
        upper: usize,
        lower: usize,
    ) -> Result<Closure, Memory>
        requires fits { FitsConfig config.now self.now.bundle }
        requires upper { upper < length self.now.bundle.levels }
        requires lower { lower < length self.now.bundle.levels }
        ensures { IfOk result (λ made. made ≡ closure_of self.now.bundle lower upper) }
    {
        let linked = self.linked.as_slice();
        let stands = self.stands.as_ref().as_slice();
        Closure::kept(alloc, config, &self.bundle, linked, stands, upper, lower)
    }

    /// The same rows of dominance for the items of the upper level that are asked for. Of the row of another item
    /// nothing is promised but its length. The only refusal is want of memory.
    pub fn closure_where(
        &self,
        alloc: Global,
        config: &Config,
        upper: usize,
        lower: usize,
        asked: &BitRow,
    ) -> Result<Closure, Memory>
        requires fits { FitsConfig config.now self.now.bundle }
        requires upper { upper < length self.now.bundle.levels }
        requires lower { lower < length self.now.bundle.levels }
        requires asked { length asked.now ≡ length (items_at self.now.bundle.levels upper) }
        ensures { IfOk result (λ made.
            AgreeWhere asked.now (closure_of self.now.bundle lower upper) made) }
    {
        let linked = self.linked.as_slice();
        let stands = self.stands.as_ref().as_slice();
        Closure::kept_where(
            alloc,
            config,
            &self.bundle,
            linked,
            stands,
            upper,
            lower,
            asked,
        )
    }

    /// The rows of dominance between two levels where the bundle keeps them, that is where no level lies between
    /// the two and a link leads from the upper one to the lower one; none where items of the two are linked so far
    /// apart that the rows would take too much room.
    pub fn kept_closure(&self, config: &Config, upper: usize, lower: usize) -> Option<&Closure>
        requires fits { FitsConfig config.now self.now.bundle }
        requires upper { upper < length self.now.bundle.levels }
        requires lower { lower < length self.now.bundle.levels }
        ensures { IfSome result (λ rows. rows.now ≡ closure_of self.now.bundle lower upper) }
    {
        Closure::kept_at(config, self.linked.as_slice(), upper, lower)
    }

    /// For each item of a level, in order, whether this is its label for an attribute. The only refusal is
    /// want of memory.
    pub fn label_bits(
        &self,
        alloc: Global,
        level: usize,
        attribute: usize,
        label: &str,
    ) -> Result<BitRow, Memory>
        requires level { level < length self.now.bundle.levels }
        requires attribute { attribute < attributes_on self.now.bundle level }
        ensures { IfOk result (λ row.
            row ≡ map (has_label attribute label.now) (items_at self.now.bundle.levels level)) }
    {
        let mut row = row_of(alloc, self.column(level, attribute).len())?;
        self.set_label_bits(level, attribute, label, &mut row);
        Ok(row)
    }

    /// Sets the bits of the items of a level whose label for an attribute this is, in a row with one bit for each
    /// item, of which none is set.
    pub fn set_label_bits(&self, level: usize, attribute: usize, label: &str, row: &mut BitRow)
        requires level { level < length self.now.bundle.levels }
        requires attribute { attribute < attributes_on self.now.bundle level }
        requires unset { row.old ≡ replicate (length (items_at self.now.bundle.levels level)) false }
        ensures { row.new ≡ map (has_label attribute label.now) (items_at self.now.bundle.levels level) }
    {
        let _levels = self.columns.len();
        match self.label_number(label) {
            Some(number) => eq_lanes(self.column(level, attribute), number, row),
            None => {}
        }
    }

    /// For each item of a SEGMENT or EVENT level, in order, whether it starts or lies from sample `low` to
    /// sample `high`. The only refusal is want of memory.
    pub fn within(&self, alloc: Global, level: usize, low: u64, high: u64) -> Result<BitRow, Memory>
        requires level { level < length self.now.bundle.levels }
        requires timed { IsTimed self.now.bundle level }
        ensures { IfOk result (λ row.
            row ≡ map (starts_within low high) (items_at self.now.bundle.levels level)) }
    {
        row_of_range(alloc, self.starts(level), low, high)
    }
}

/// What is kept beside a bundle: its labels and their keys, the columns of its levels, the rows of its links, and the
/// places of the items that its items link to.
#[derive(Drop)]
struct Kept {
    labels: Labels,
    keys: ShortKeys,
    columns: Series<SharedColumns>,
    linked: Series<LinkedLevels>,
    stands: BundleStands,
}

/// The labels, columns, rows of links and places, with the keys of the labels. The only refusal is want of memory.
fn keyed(
    alloc: Global,
    labels: Labels,
    columns: Series<SharedColumns>,
    linked: Series<LinkedLevels>,
    stands: BundleStands,
) -> Result<Kept, Memory>
    ensures labels { IfOk result (λ kept. kept.labels ≡ labels) }
    ensures columns { IfOk result (λ kept. kept.columns ≡ columns) }
    ensures linked { IfOk result (λ kept. kept.linked ≡ linked) }
    ensures stands { IfOk result (λ kept. kept.stands ≡ stands) }
    ensures keys { IfOk result (λ kept. AreKeysOf labels kept.keys) }
{
    match ShortKeys::of(alloc, &labels) {
        Ok(keys) => Ok(Kept {
            labels,
            keys,
            columns,
            linked,
            stands,
        }),
        Err(fault) => Err(fault),
    }
}

/// What is kept beside a bundle. The only refusal is want of memory, or of a number for a label.
fn kept_beside(alloc: Global, bundle: &Bundle) -> Result<Kept, Memory>
    ensures { IfOk result (λ kept.
        AreKeptOf bundle.now kept.labels kept.keys kept.columns kept.linked kept.stands) }
{
    let linked = linked_levels(alloc, bundle)?;
    let stands = stands_in(alloc, bundle)?;
    let mut labels = Labels::new(alloc)?;
    let columns = all_columns(alloc, bundle, &mut labels)?;
    keyed(alloc, labels, columns, linked, stands)
}

/// The columns of all levels. The only refusal is want of memory, or of a number for a label.
fn all_columns(
    alloc: Global,
    bundle: &Bundle,
    labels: &mut Labels,
) -> Result<Series<SharedColumns>, Memory>
    ensures { IfOk result (λ all. AreColumnsFor labels.new bundle.now.levels all) }
{
    let mut all = Series::new(alloc);
    for level in 0..bundle.level_count() {
        let columns = SharedColumns::of_level(alloc, bundle.level(level), None, labels)?;
        all.push(columns)?;
    }
    Ok(all)
}

/// A row with a bit for each level, of which that of this level is set, if there is one. The only refusal is want
/// of memory.
#[tactic(auto, using(crate::proofs::Asked::mark_set))]
fn one_mark(alloc: Global, count: usize, level: usize) -> Result<BitRow, Memory>
    ensures { IfOk result (λ marked. level < count → get_or marked level false ≡ true) }
{
    let mut marked = row_of(alloc, count)?;
    if level < count {
        marked.set(level, true);
    }
    Ok(marked)
}

/// Whether a level is marked.
#[tactic(auto, using(crate::proofs::Asked::mark_told, crate::proofs::Asked::mark_past))]
fn is_marked(marked: &BitRow, level: usize) -> bool
    ensures { result ≡ get_or marked.now level false }
{
    level < marked.len() && marked.get(level)
}

/// The columns at a place, if there are so many.
fn columns_at(all: &Series<SharedColumns>, place: usize) -> Option<&LevelColumns> {
    if place < all.len() {
        Some(all.get(place).as_ref())
    } else {
        None
    }
}

/// The columns of a level: made anew where it is marked, else those that were there. The only refusal is want of
/// memory, or of a number for a label.
#[tactic(auto, using(crate::proofs::Asked::still_there, crate::proofs::Asked::still, crate::proofs::Asked::grown_self))]
fn changed_level(
    alloc: Global,
    old: &Series<SharedColumns>,
    bundle: &Bundle,
    level: usize,
    marked: &BitRow,
    labels: &mut Labels,
) -> Result<SharedColumns, Memory>
    requires level { level < length bundle.now.levels }
    requires same { AreColumnsBut labels.old bundle.now.levels marked.now old.now }
    ensures columns { IfOk result (λ columns. (own : Level) → slice_get bundle.now.levels level ≡ Some own
        → AreColumnsOf labels.new own columns) }
    ensures grown { OnOk result (HasGrown labels.old labels.new) }
{
    if is_marked(marked, level) {
        SharedColumns::of_level(alloc, bundle.level(level), columns_at(old, level), labels)
    } else {
        old.get(level).copy()
    }
}

/// The columns of all levels: those of the marked levels made anew, all others shared. The only refusal is want of
/// memory, or of a number for a label.
fn changed_columns(
    alloc: Global,
    old: &Series<SharedColumns>,
    bundle: &Bundle,
    marked: &BitRow,
    labels: &mut Labels,
) -> Result<Series<SharedColumns>, Memory>
    requires { AreColumnsBut labels.old bundle.now.levels marked.now old.now }
    ensures { IfOk result (λ all. AreColumnsFor labels.new bundle.now.levels all) }
{
    let mut all = Series::new(alloc);
    for level in 0..bundle.level_count() {
        let columns = changed_level(alloc, old, bundle, level, marked, labels)?;
        all.push(columns)?;
    }
    Ok(all)
}

/// A row of bits, none of which is set. The only refusal is want of memory.
pub(crate) fn row_of(alloc: Global, len: usize) -> Result<BitRow, Memory>
    ensures { IfOk result (λ row. row ≡ replicate len false) }
{
    match BitRow::new(alloc, len) {
        Ok(row) => Ok(row),
        Err(_) => Err(Memory),
    }
}

/// Which numbers of the column are from `low` to `high`. The only refusal is want of memory.
fn row_of_range(alloc: Global, column: &[u64], low: u64, high: u64) -> Result<BitRow, Memory>
    ensures { IfOk result (λ row. row ≡ map (is_between low high) column.now) }
{
    let mut row = row_of(alloc, column.len())?;
    range_lanes(column, low, high, &mut row);
    Ok(row)
}
