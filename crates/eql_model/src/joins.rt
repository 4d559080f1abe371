//! The tuples of a sequence and of a dominance, from those of its two sides.
ghost use Rattle.std.specs.Prelude.{◌≡◌, ◌<◌, [], ◌∷◌, length, get_or, true, false, Err, OnOk, All};
ghost use Rattle.std.specs.List.{flat_map};
ghost use Rattle.std.specs.Option.{option_or};
ghost use Rattle.eql_tuples.specs.Sets.{put_all, is_over};
ghost use Rattle.eql_tuples.specs.Inner.Sets.{GivesSet};
ghost use Rattle.eql_tuples.specs.Tuples.{fits_in, follows, joined, pairs_with};
ghost use Rattle.eql_model.specs.Inner.Joins.{bit_at, is_under, bits_cover, goes_with, makes, AreWide, IsOnLeft, IsOnRight};

use eql_tuples::{Gathered, MatchFault, Tuple, Tuples};
use hier_closure::Closure;
use std::alloc::Global;

/// How two sets of tuples are joined.
#[derive(Drop)]
pub(crate) enum Join {
    /// The right tuple begins where the left one ends.
    Sequence,
    /// One of the two covers the other. The rows say which items of the left level dominate which of
    /// the right one, and the other way round.
    Dominance { down: Closure, up: Closure },
}

/// The bit at a place of a row.
pub fn bit_at(rows: &Closure, row: usize, place: usize) -> bool
    requires row { row < length rows.now }
    requires place { place < length (get_or rows.now row []) }
    ensures { result ≡ bit_at rows.now row place }
{
    rows.row(row).get(place)
}

/// Whether some row of the upper stretch has the bit of a place.
pub(crate) fn is_under(rows: &Closure, upper: Tuple, place: usize) -> bool
    requires upper { fits_in (length rows.now) upper ≡ true }
    requires place { All (λ row. place < length row) rows.now }
    ensures { result ≡ is_under rows.now upper place }
{
    for row in upper.first as usize..upper.last as usize + 1 {
        if bit_at(rows, row, place) {
            return true;
        }
    }
    false
}

/// Whether each place of the lower stretch has its bit in some row of the upper one.
pub fn bits_cover(rows: &Closure, upper: Tuple, lower: Tuple) -> bool
    requires upper { fits_in (length rows.now) upper ≡ true }
    requires lower { All (λ row. fits_in (length row) lower ≡ true) rows.now }
    ensures { result ≡ bits_cover rows.now upper lower }
{
    for place in lower.first as usize..lower.last as usize + 1 {
        if !is_under(rows, upper, place) {
            return false;
        }
    }
    true
}

/// Whether the right tuple begins where the left one ends.
fn follows(left: Tuple, right: Tuple) -> bool
    ensures { result ≡ follows left right }
{
    left.last < right.first && right.first - left.last == 1
}

/// The mark of either of two tuples.
fn mark_of(left: Tuple, right: Tuple) -> Option<u32>
    ensures { result ≡ option_or left.mark right.mark }
{
    match left.mark {
        Some(mark) => Some(mark),
        None => right.mark,
    }
}

impl Join {
    /// Whether two tuples go with each other.
    fn goes_with(&self, left: Tuple, right: Tuple) -> bool
        requires wide { AreWide self.now }
        requires left { IsOnLeft self.now left }
        requires right { IsOnRight self.now right }
        ensures { result ≡ goes_with self.now left right }
    {
        match self {
            Join::Sequence => follows(left, right),
            Join::Dominance { down, up } => {
                bits_cover(down, left, right) || bits_cover(up, right, left)
            }
        }
    }

    /// What two tuples make.
    fn makes(&self, left: Tuple, right: Tuple) -> Tuple
        ensures { result ≡ makes self.now left right }
    {
        let mark = mark_of(left, right);
        match self {
            Join::Sequence => Tuple {
                first: left.first,
                last: right.last,
                mark,
            },
            Join::Dominance { .. } => Tuple {
                first: left.first,
                last: left.last,
                mark,
            },
        }
    }
}

/// Puts in what two tuples make, where they go with each other.
fn gather_pair(
    gathered: &mut Gathered,
    join: &Join,
    left: Tuple,
    right: Tuple,
) -> Result<(), MatchFault>
    requires room { is_over gathered.old ≡ false }
    requires wide { AreWide join.now }
    requires left { IsOnLeft join.now left }
    requires right { IsOnRight join.now right }
    ensures ok { OnOk result (gathered.new
        ≡ put_all gathered.old (pairs_with (goes_with join.now) (makes join.now) (right ∷ []) left)) }
    ensures fits { OnOk result (is_over gathered.new ≡ false) }
    ensures over { result ≡ Err MatchFault.TooManyTuples → is_over (put_all gathered.old
        (pairs_with (goes_with join.now) (makes join.now) (right ∷ []) left)) ≡ true }
{
    if !join.goes_with(left, right) {
        return Ok(());
    }
    gathered.put(join.makes(left, right))
}

/// Puts in what a left tuple makes with each right one that it goes with.
fn gather_with(
    gathered: &mut Gathered,
    join: &Join,
    left: Tuple,
    rights: &[Tuple],
) -> Result<(), MatchFault>
    requires room { is_over gathered.old ≡ false }
    requires wide { AreWide join.now }
    requires left { IsOnLeft join.now left }
    requires right { All (IsOnRight join.now) rights.now }
    ensures ok { OnOk result (gathered.new
        ≡ put_all gathered.old (pairs_with (goes_with join.now) (makes join.now) rights.now left)) }
    ensures fits { OnOk result (is_over gathered.new ≡ false) }
    ensures over { result ≡ Err MatchFault.TooManyTuples → is_over (put_all gathered.old
        (pairs_with (goes_with join.now) (makes join.now) rights.now left)) ≡ true }
{
    for right in rights {
        match gather_pair(gathered, join, left, *right) {
            Ok(()) => {}
            Err(fault) => return Err(fault),
        }
    }
    Ok(())
}

/// Puts in what any two tuples make that go with each other.
fn gather_all(
    gathered: &mut Gathered,
    join: &Join,
    lefts: &[Tuple],
    rights: &[Tuple],
) -> Result<(), MatchFault>
    requires room { is_over gathered.old ≡ false }
    requires wide { AreWide join.now }
    requires left { All (IsOnLeft join.now) lefts.now }
    requires right { All (IsOnRight join.now) rights.now }
    ensures ok { OnOk result (gathered.new ≡ put_all gathered.old
        (flat_map (pairs_with (goes_with join.now) (makes join.now) rights.now) lefts.now)) }
    ensures fits { OnOk result (is_over gathered.new ≡ false) }
    ensures over { result ≡ Err MatchFault.TooManyTuples → is_over (put_all gathered.old
        (flat_map (pairs_with (goes_with join.now) (makes join.now) rights.now) lefts.now)) ≡ true }
{
    for left in lefts {
        match gather_with(gathered, join, *left, rights) {
            Ok(()) => {}
            Err(fault) => return Err(fault),
        }
    }
    Ok(())
}

/// The set of what any two tuples make that go with each other. `TooManyTuples` comes exactly where it
/// has over 1,000,000 tuples.
pub(crate) fn joined(
    alloc: Global,
    join: &Join,
    lefts: &[Tuple],
    rights: &[Tuple],
) -> Result<Tuples, MatchFault>
    requires wide { AreWide join.now }
    requires left { All (IsOnLeft join.now) lefts.now }
    requires right { All (IsOnRight join.now) rights.now }
    ensures { GivesSet result (joined (goes_with join.now) (makes join.now) lefts.now rights.now) }
{
    let mut gathered = Gathered::new(alloc);
    match gather_all(&mut gathered, join, lefts, rights) {
        Ok(()) => {}
        Err(fault) => return Err(fault),
    }
    match gathered.into_listed() {
        Ok(made) => Ok(made),
        Err(_) => Err(MatchFault::Memory),
    }
}
