//! From which item to which one of another level the kin of the items of a level reach.
ghost use Rattle.std.specs.Prelude.{◌≡◌, ◌≤◌, length, map, All, IfOk};
ghost use Rattle.emu_names.specs.declared.limits.TheConstants.{BUNDLE_ITEMS};
ghost use Rattle.eql_tuples.specs.Shown.{bare};
ghost use Rattle.requery.specs.Inner.Ways.{AreKinStretches, AreWidened, AreWidenedBy, row_stretch, union};

use emu_names::Memory;
use eql_tuples::Tuple;
use hier_closure::Closure;
use lane_bits::SpanRow;
use std::alloc::Global;

/// A stretch without a mark.
fn bare(first: u32, last: u32) -> Tuple
    ensures { result ≡ bare first last }
{
    Tuple {
        first,
        last,
        mark: None,
    }
}

/// The least stretch round two stretches, of which either may be missing.
pub(crate) fn union(one: Option<Tuple>, other: Option<Tuple>) -> Option<Tuple>
    ensures { result ≡ union one other }
{
    let Some(near) = one else {
        return other;
    };
    match other {
        Some(far) => Some(bare(near.first.min(far.first), near.last.max(far.last))),
        None => one,
    }
}

/// The stretch from the first bit of a row to its last.
fn row_stretch(row: &SpanRow) -> Option<Tuple>
    requires { length row.now ≤ BUNDLE_ITEMS }
    ensures { result ≡ row_stretch row.now }
{
    match row.first() {
        Some(first) => match row.last() {
            Some(last) => Some(bare(first as u32, last as u32)),
            None => None,
        },
        None => None,
    }
}

/// Widens by a position the stretch of each item whose bit is set in a row.
fn widen_by(stretches: &mut [Option<Tuple>], row: &SpanRow, at: u32)
    requires { length row.now ≡ length stretches.old }
    ensures { AreWidened row.now at stretches.old stretches.new }
{
    let mut from = 0;
    while let Some(place) = row.next(from) {
        stretches[place] = union(stretches[place], Some(bare(at, at)));
        from = place + 1;
    }
}

/// The stretch of the items that each item dominates. The only refusal is want of memory.
fn stretches_below(
    alloc: Global,
    down: &Closure,
    count: usize,
) -> Result<Vec<Option<Tuple>>, Memory>
    requires count { count ≡ length down.now }
    requires few { All (λ row. length row ≤ BUNDLE_ITEMS) down.now }
    ensures { IfOk result (λ made. made.items ≡ map row_stretch down.now) }
{
    let mut made = Vec::with_capacity(alloc, count)?;
    for item in 0..count {
        made.push(row_stretch(down.row(item)))?;
    }
    Ok(made)
}

/// Widens the stretches by the items that dominate each item.
fn widen_above(stretches: &mut [Option<Tuple>], up: &Closure, width: u32)
    requires width { width ≡ length up.now }
    requires wide { All (λ row. length row ≡ length stretches.old) up.now }
    ensures { AreWidenedBy up.now width stretches.old stretches.new }
{
    for at in 0..width {
        widen_by(stretches, up.row(at as usize), at);
    }
}

/// For each item of a level the stretch of its kin on another one: of the items that it dominates, by the
/// rows `down`, and of those that dominate it, by the rows `up`. The only refusal is want of memory.
pub(crate) fn kin_stretches(
    alloc: Global,
    down: &Closure,
    up: &Closure,
    count: usize,
    width: usize,
) -> Result<Vec<Option<Tuple>>, Memory>
    requires count { count ≡ length down.now }
    requires width { width ≡ length up.now }
    requires few { width ≤ BUNDLE_ITEMS }
    requires down { All (λ row. length row ≡ width) down.now }
    requires up { All (λ row. length row ≡ count) up.now }
    ensures { IfOk result (λ made. AreKinStretches down.now up.now made.items) }
{
    let mut stretches = stretches_below(alloc, down, count)?;
    widen_above(stretches.as_mut_slice(), up, width as u32);
    Ok(stretches)
}
