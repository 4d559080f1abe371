//! Rows of bits of which only a stretch is held, worked from the places that are set.
ghost use Rattle.std.specs.Prelude.{◌≡◌, length, IfOk, OnOk};

use lane_bits::{BitRow, Memory, SpanRow};
use std::alloc::Global;
use std::test::Fail;

/// How many bits are set, the first of them, the first behind a place, the last, and whether two rows met.
type Told = (usize, Option<usize>, Option<usize>, Option<usize>, bool);

/// How long a row is, the place of the bit of one row, those of the two of another, the place behind which is looked,
/// and what the two rows joined tell.
static ROWS: [(usize, usize, usize, usize, usize, Told); 10] = [
    (1, 0, 0, 0, 0, (1, Some(0), Some(0), Some(0), true)),
    (64, 63, 0, 62, 1, (3, Some(0), Some(62), Some(63), false)),
    (65, 64, 1, 64, 65, (2, Some(1), None, Some(64), true)),
    (
        128,
        127,
        0,
        64,
        65,
        (3, Some(0), Some(127), Some(127), false),
    ),
    (
        1000,
        500,
        940,
        20,
        21,
        (3, Some(20), Some(500), Some(940), false),
    ),
    (
        1000,
        999,
        0,
        998,
        0,
        (3, Some(0), Some(0), Some(999), false),
    ),
    (
        1000,
        400,
        401,
        400,
        401,
        (2, Some(400), Some(401), Some(401), true),
    ),
    (
        70_000,
        60_063,
        60_000,
        60_064,
        60_001,
        (3, Some(60_000), Some(60_063), Some(60_064), false),
    ),
    (
        70_000,
        60_064,
        60_127,
        60_000,
        60_128,
        (3, Some(60_000), None, Some(60_127), false),
    ),
    (
        70_000,
        69_999,
        0,
        0,
        1,
        (2, Some(0), Some(69_999), Some(69_999), false),
    ),
];

/// Sets the bit at a place, if there is one.
fn put(alloc: Global, row: &mut SpanRow, at: usize) -> Result<(), Memory>
    ensures { OnOk result (length row.new ≡ length row.old) }
{
    if at < row.len() {
        row.set(alloc, at)
    } else {
        Ok(())
    }
}

/// A row with two bits.
fn with_two(alloc: Global, len: usize, one: usize, other: usize) -> Result<SpanRow, Memory>
    ensures { IfOk result (λ row. length row ≡ len) }
{
    let mut row = SpanRow::new(alloc, len)?;
    put(alloc, &mut row, one)?;
    put(alloc, &mut row, other)?;
    Ok(row)
}

/// Whether two rows meet, the other one with all its places.
fn meets_of(alloc: Global, row: &SpanRow, other: &SpanRow) -> Result<bool, Memory>
    requires { length row.now ≡ length other.now }
{
    let mut bits = BitRow::new(alloc, other.len())?;
    other.join_into(&mut bits);
    let meets = row.meets(&bits);
    drop(bits);
    Ok(meets)
}

/// What a row tells that is joined with another.
fn told_with(alloc: Global, row: &mut SpanRow, other: &SpanRow, from: usize) -> Result<Told, Memory>
    requires { length row.old ≡ length other.now }
{
    let meets = meets_of(alloc, row, other)?;
    row.join(alloc, other)?;
    Ok((row.count(), row.first(), row.next(from), row.last(), meets))
}

/// What a row tells that is joined with one of two bits.
fn told_beside(
    alloc: Global,
    row: &mut SpanRow,
    two: (usize, usize),
    from: usize,
) -> Result<Told, Memory> {
    let other = with_two(alloc, row.len(), two.0, two.1)?;
    let told = told_with(alloc, row, &other, from);
    drop(other);
    told
}

/// What a row of one bit tells that is joined with one of two.
fn told_of(
    alloc: Global,
    len: usize,
    one: usize,
    two: (usize, usize),
    from: usize,
) -> Result<Told, Memory> {
    let mut row = with_two(alloc, len, one, one)?;
    let told = told_beside(alloc, &mut row, two, from);
    drop(row);
    told
}

#[test]
fn spans_of_all_lengths(rt: HostRuntime) -> Result<(), Fail> {
    for &(len, one, two, three, from, wanted) in &ROWS {
        let found = told_of(rt.alloc(), len, one, (two, three), from)?;
        assert!(rt; found == wanted, "{len}: {one}, {two}, {three}");
    }
    Ok(())
}

/// How many bits a row has when that at a place is cleared, and whether the bit is set then.
fn cleared(row: &mut SpanRow, at: usize) -> (usize, bool) {
    if at < row.len() {
        row.clear(at);
        (row.count(), row.get(at))
    } else {
        (row.count(), false)
    }
}

/// The same of a row with two bits.
fn cleared_of(alloc: Global, len: usize, one: usize, two: usize) -> Result<(usize, bool), Memory> {
    let mut row = with_two(alloc, len, one, two)?;
    let found = cleared(&mut row, two);
    drop(row);
    Ok(found)
}

#[test]
fn a_bit_is_cleared(rt: HostRuntime) -> Result<(), Fail> {
    for &(len, one, two, _, _, _) in &ROWS {
        let found = cleared_of(rt.alloc(), len, one, two)?;
        assert!(rt;
            found == ((one != two) as usize, false),
            "{len}: {one}, {two}"
        );
    }
    Ok(())
}
