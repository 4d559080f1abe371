//! The sets of tuples that the two sides of a sequence or a dominance make. For each tuple of one side
//! only those of the other side are tried that begin where it can reach.
ghost use Rattle.std.specs.Prelude.{◌≡◌, ◌<◌, [], ◌∷◌, All, length, true, false, Err, OnOk};
ghost use Rattle.std.specs.List.{flat_map};
ghost use Rattle.std.specs.Option.{option_or};
ghost use Rattle.bundle_state.specs.Built.{FitsConfig};
ghost use Rattle.hier_closure.specs.Dominance.{ids_at};
ghost use Rattle.eql_tuples.specs.Sets.{put_all, is_over};
ghost use Rattle.eql_tuples.specs.Inner.Sets.{GivesSet};
ghost use Rattle.eql_tuples.specs.Tuples.{follows, both, left_with, pairs_with, joined};
ghost use Rattle.eql_model.specs.Covers.{one_covers};
ghost use Rattle.eql_model.specs.Meaning.{LieOn};
ghost use Rattle.eql_match.specs.Inner.Ways.{joins, makes, covering_pairs, covered_pairs, IsOne, IsOther, ReachesAll, Rise};

use crate::reach::reach;
use crate::runs::begun_within;
use bundle_index::Indexed;
use db_config::Config;
use emu_names::Series;
use eql_tuples::{Gathered, MatchFault, Tuple, Tuples};
use hier_closure::Closure;
use std::alloc::Global;

/// How a tuple is joined with others.
#[derive(Drop)]
pub(crate) enum Way {
    /// The other one begins where the tuple ends.
    Behind,
    /// The tuple, on the left side, covers the other one, by these rows of its level.
    Covers(Closure),
    /// The tuple, on the right side, covers the other one, by these rows of its level.
    CoversLeft(Closure),
}

/// Whether the right tuple begins where the left one ends.
fn follows(left: Tuple, right: Tuple) -> bool
    ensures { result ≡ follows left right }
{
    left.last < right.first && right.first - left.last == 1
}

/// The mark of either of two tuples.
fn mark_of(left: Tuple, right: Tuple) -> Option<u32>
    ensures { result ≡ option_or left.mark right.mark }
{
    match left.mark {
        Some(mark) => Some(mark),
        None => right.mark,
    }
}

/// The stretch of two tuples that follow each other, with the mark of either.
fn both(left: Tuple, right: Tuple) -> Tuple
    ensures { result ≡ both left right }
{
    Tuple {
        first: left.first,
        last: right.last,
        mark: mark_of(left, right),
    }
}

/// The stretch of the left tuple, with the mark of either.
fn left_with(left: Tuple, right: Tuple) -> Tuple
    ensures { result ≡ left_with left right }
{
    Tuple {
        first: left.first,
        last: left.last,
        mark: mark_of(left, right),
    }
}

impl Way {
    /// Whether a tuple is joined with another.
    fn joins(&self, one: Tuple, other: Tuple) -> bool
        requires one { IsOne self.now one }
        requires other { IsOther self.now other }
        ensures { result ≡ joins self.now one other }
    {
        match self {
            Way::Behind => follows(one, other),
            Way::Covers(rows) => eql_model::bits_cover(rows, one, other),
            Way::CoversLeft(rows) => eql_model::bits_cover(rows, one, other),
        }
    }

    /// What a tuple and another make.
    fn makes(&self, one: Tuple, other: Tuple) -> Tuple
        ensures { result ≡ makes self.now one other }
    {
        match self {
            Way::Behind => both(one, other),
            Way::Covers(_) => left_with(one, other),
            Way::CoversLeft(_) => left_with(other, one),
        }
    }

    /// From which position to before which one all tuples begin that a tuple is joined with.
    fn reach(&self, one: Tuple) -> (usize, usize)
        requires { IsOne self.now one }
        ensures { ReachesAll self.now one result }
    {
        match self {
            Way::Behind => (one.last as usize + 1, one.last as usize + 2),
            Way::Covers(rows) => reach(rows, one),
            Way::CoversLeft(rows) => reach(rows, one),
        }
    }
}

/// Puts in what a tuple makes with another, where it is joined with it.
fn put_pair(gathered: &mut Gathered, way: &Way, one: Tuple, other: Tuple) -> Result<(), MatchFault>
    requires room { is_over gathered.old ≡ false }
    requires one { IsOne way.now one }
    requires other { IsOther way.now other }
    ensures ok { OnOk result (gathered.new
        ≡ put_all gathered.old (pairs_with (joins way.now) (makes way.now) (other ∷ []) one)) }
    ensures fits { OnOk result (is_over gathered.new ≡ false) }
    ensures over { result ≡ Err MatchFault.TooManyTuples → is_over (put_all gathered.old
        (pairs_with (joins way.now) (makes way.now) (other ∷ []) one)) ≡ true }
{
    if !way.joins(one, other) {
        return Ok(());
    }
    gathered.put(way.makes(one, other))
}

/// Puts in what a tuple makes with each of some others that it is joined with.
fn put_each(
    gathered: &mut Gathered,
    way: &Way,
    one: Tuple,
    others: &[Tuple],
) -> Result<(), MatchFault>
    requires room { is_over gathered.old ≡ false }
    requires one { IsOne way.now one }
    requires others { All (IsOther way.now) others.now }
    ensures ok { OnOk result (gathered.new
        ≡ put_all gathered.old (pairs_with (joins way.now) (makes way.now) others.now one)) }
    ensures fits { OnOk result (is_over gathered.new ≡ false) }
    ensures over { result ≡ Err MatchFault.TooManyTuples → is_over (put_all gathered.old
        (pairs_with (joins way.now) (makes way.now) others.now one)) ≡ true }
{
    for other in others {
        match put_pair(gathered, way, one, *other) {
            Ok(()) => {}
            Err(fault) => return Err(fault),
        }
    }
    Ok(())
}

/// Puts in what a tuple makes with each of some others in order that it is joined with: those that begin
/// where it cannot reach are passed over.
fn put_reached(
    gathered: &mut Gathered,
    way: &Way,
    one: Tuple,
    others: &[Tuple],
) -> Result<(), MatchFault>
    requires room { is_over gathered.old ≡ false }
    requires one { IsOne way.now one }
    requires others { All (IsOther way.now) others.now }
    requires rise { Rise others.now }
    ensures ok { OnOk result (gathered.new
        ≡ put_all gathered.old (pairs_with (joins way.now) (makes way.now) others.now one)) }
    ensures fits { OnOk result (is_over gathered.new ≡ false) }
    ensures over { result ≡ Err MatchFault.TooManyTuples → is_over (put_all gathered.old
        (pairs_with (joins way.now) (makes way.now) others.now one)) ≡ true }
{
    let near = begun_within(others, way.reach(one));
    put_each(gathered, way, one, near)
}

/// Puts in what any of some tuples makes with any of some others in order that it is joined with.
fn put_pairs(
    gathered: &mut Gathered,
    way: &Way,
    ones: &[Tuple],
    others: &[Tuple],
) -> Result<(), MatchFault>
    requires room { is_over gathered.old ≡ false }
    requires ones { All (IsOne way.now) ones.now }
    requires others { All (IsOther way.now) others.now }
    requires rise { Rise others.now }
    ensures ok { OnOk result (gathered.new ≡ put_all gathered.old
        (flat_map (pairs_with (joins way.now) (makes way.now) others.now) ones.now)) }
    ensures fits { OnOk result (is_over gathered.new ≡ false) }
    ensures over { result ≡ Err MatchFault.TooManyTuples → is_over (put_all gathered.old
        (flat_map (pairs_with (joins way.now) (makes way.now) others.now) ones.now)) ≡ true }
{
    for one in ones {
        match put_reached(gathered, way, *one, others) {
            Ok(()) => {}
            Err(fault) => return Err(fault),
        }
    }
    Ok(())
}

/// The tuples of a set, in order.
fn listed(gathered: Gathered) -> Result<Tuples, MatchFault>
    requires { is_over gathered ≡ false }
    ensures { GivesSet result gathered }
{
    match gathered.into_listed() {
        Ok(made) => Ok(made),
        Err(_) => Err(MatchFault::Memory),
    }
}

/// The set of the stretches of each two tuples that follow each other. The right ones are in order.
/// `TooManyTuples` comes exactly where the set has over 1,000,000 tuples.
pub(crate) fn sequence(
    alloc: Global,
    lefts: &[Tuple],
    rights: &[Tuple],
) -> Result<Tuples, MatchFault>
    requires { Rise rights.now }
    ensures { GivesSet result (joined follows both lefts.now rights.now) }
{
    let mut gathered = Gathered::new(alloc);
    match put_pairs(&mut gathered, &Way::Behind, lefts, rights) {
        Ok(()) => listed(gathered),
        Err(fault) => Err(fault),
    }
}

/// Puts in the left one of each two tuples of which the left one covers the right one. None does where no
/// path of definitions leads down to the right level.
fn put_covering(
    alloc: Global,
    config: &Config,
    indexed: &Indexed,
    levels: (usize, usize),
    gathered: &mut Gathered,
    lefts: &[Tuple],
    rights: &[Tuple],
) -> Result<(), MatchFault>
    requires fits { FitsConfig config.now indexed.now.bundle }
    requires left { levels.0 < length indexed.now.bundle.levels }
    requires right { levels.1 < length indexed.now.bundle.levels }
    requires room { is_over gathered.old ≡ false }
    requires lefts { LieOn indexed.now.bundle.levels levels.0 lefts.now }
    requires rights { LieOn indexed.now.bundle.levels levels.1 rights.now }
    requires rise { Rise rights.now }
    ensures ok { OnOk result (gathered.new
        ≡ put_all gathered.old (covering_pairs indexed.now.bundle levels lefts.now rights.now)) }
    ensures fits { OnOk result (is_over gathered.new ≡ false) }
    ensures over { result ≡ Err MatchFault.TooManyTuples → is_over (put_all gathered.old
        (covering_pairs indexed.now.bundle levels lefts.now rights.now)) ≡ true }
{
    let _items = indexed.bundle().item_count();
    if !config.is_above(levels.0, levels.1) {
        return Ok(());
    }
    match indexed.closure(alloc, config, levels.0, levels.1) {
        Ok(rows) => put_pairs(gathered, &Way::Covers(rows), lefts, rights),
        Err(_) => Err(MatchFault::Memory),
    }
}

/// Puts in the left one of each two tuples of which the right one covers the left one. None does where no
/// path of definitions leads down to the left level.
fn put_covered(
    alloc: Global,
    config: &Config,
    indexed: &Indexed,
    levels: (usize, usize),
    gathered: &mut Gathered,
    lefts: &[Tuple],
    rights: &[Tuple],
) -> Result<(), MatchFault>
    requires fits { FitsConfig config.now indexed.now.bundle }
    requires left { levels.0 < length indexed.now.bundle.levels }
    requires right { levels.1 < length indexed.now.bundle.levels }
    requires room { is_over gathered.old ≡ false }
    requires lefts { LieOn indexed.now.bundle.levels levels.0 lefts.now }
    requires rights { LieOn indexed.now.bundle.levels levels.1 rights.now }
    requires rise { Rise lefts.now }
    ensures ok { OnOk result (gathered.new
        ≡ put_all gathered.old (covered_pairs indexed.now.bundle levels lefts.now rights.now)) }
    ensures fits { OnOk result (is_over gathered.new ≡ false) }
    ensures over { result ≡ Err MatchFault.TooManyTuples → is_over (put_all gathered.old
        (covered_pairs indexed.now.bundle levels lefts.now rights.now)) ≡ true }
{
    let _items = indexed.bundle().item_count();
    if !config.is_above(levels.1, levels.0) {
        return Ok(());
    }
    match indexed.closure(alloc, config, levels.1, levels.0) {
        Ok(rows) => put_pairs(gathered, &Way::CoversLeft(rows), rights, lefts),
        Err(_) => Err(MatchFault::Memory),
    }
}

/// The set of the left one of each two tuples of which one covers the other, with the mark of either.
/// The tuples lie on these two levels and are in order. `TooManyTuples` comes exactly where the set has
/// over 1,000,000 tuples.
pub(crate) fn dominance(
    alloc: Global,
    config: &Config,
    indexed: &Indexed,
    levels: (usize, usize),
    lefts: &[Tuple],
    rights: &[Tuple],
) -> Result<Tuples, MatchFault>
    requires fits { FitsConfig config.now indexed.now.bundle }
    requires left { levels.0 < length indexed.now.bundle.levels }
    requires right { levels.1 < length indexed.now.bundle.levels }
    requires lefts { LieOn indexed.now.bundle.levels levels.0 lefts.now }
    requires rights { LieOn indexed.now.bundle.levels levels.1 rights.now }
    requires lefts_rise { Rise lefts.now }
    requires rights_rise { Rise rights.now }
    ensures { GivesSet result (joined (one_covers indexed.now.bundle.links (ids_at indexed.now.bundle.levels levels.0)
        (ids_at indexed.now.bundle.levels levels.1)) left_with lefts.now rights.now) }
{
    if lefts.is_empty() || rights.is_empty() {
        return Ok(Series::new(alloc));
    }
    let mut gathered = Gathered::new(alloc);
    match put_covering(alloc, config, indexed, levels, &mut gathered, lefts, rights) {
        Ok(()) => {}
        Err(fault) => return Err(fault),
    }
    match put_covered(alloc, config, indexed, levels, &mut gathered, lefts, rights) {
        Ok(()) => {}
        Err(fault) => return Err(fault),
    }
    listed(gathered)
}
