//! Rows of bits at lengths round those of words and vectors, worked from what each place is set to.
ghost use Rattle.std.specs.Prelude.{◌≡◌, length, IfOk};

use lane_bits::{BitRow, Memory, and_into, eq_lanes, or_into, range_lanes};
use std::alloc::Global;
use std::test::Fail;

/// Of the places below a length: how many are even, can be divided by 3, by both, by either, and lie
/// from 4 to 60, with the first and the last of these.
type Counts = (
    usize,
    usize,
    usize,
    usize,
    usize,
    Option<usize>,
    Option<usize>,
);

static ROWS: [(usize, Counts); 10] = [
    (0, (0, 0, 0, 0, 0, None, None)),
    (1, (1, 1, 1, 1, 0, None, None)),
    (7, (4, 3, 2, 5, 3, Some(4), Some(6))),
    (8, (4, 3, 2, 5, 4, Some(4), Some(7))),
    (9, (5, 3, 2, 6, 5, Some(4), Some(8))),
    (63, (32, 21, 11, 42, 57, Some(4), Some(60))),
    (64, (32, 22, 11, 43, 57, Some(4), Some(60))),
    (65, (33, 22, 11, 44, 57, Some(4), Some(60))),
    (128, (64, 43, 22, 85, 57, Some(4), Some(60))),
    (1000, (500, 334, 167, 667, 57, Some(4), Some(60))),
];

/// The row in which the places of the fives of a column are set, of 5 at even places and 6 at others.
fn evens(alloc: Global, len: usize) -> Result<BitRow, Memory>
    ensures { IfOk result (λ row. length row ≡ len) }
{
    let mut column: Vec<u32> = Vec::new(alloc);
    for at in 0..len {
        column.push(if at % 2 == 0 { 5 } else { 6 })?;
    }
    let mut row = BitRow::new(alloc, column.len())?;
    eq_lanes(column.as_slice(), 5, &mut row);
    Ok(row)
}

/// The row in which the places of the numbers from 40 to 600 of a column are set, of tens.
fn tens(alloc: Global, len: usize) -> Result<BitRow, Memory>
    ensures { IfOk result (λ row. length row ≡ len) }
{
    let mut column: Vec<u64> = Vec::new(alloc);
    for at in 0..len as u64 {
        column.push(at.saturating_mul(10))?;
    }
    let mut row = BitRow::new(alloc, column.len())?;
    range_lanes(column.as_slice(), 40, 600, &mut row);
    Ok(row)
}

/// The row in which every third place is set, by itself.
fn threes(alloc: Global, len: usize) -> Result<BitRow, Memory>
    ensures { IfOk result (λ row. length row ≡ len) }
{
    let mut row = BitRow::new(alloc, len)?;
    for at in 0..row.len() {
        row.set(at, at % 3 == 0);
    }
    Ok(row)
}

/// How many places two rows have both, and how many one of them has.
fn joined(alloc: Global, evens: &BitRow, threes: &BitRow) -> Result<(usize, usize), Memory>
    requires { length evens.now ≡ length threes.now }
{
    let mut row = evens.copy(alloc)?;
    and_into(&mut row, threes);
    let both = row.count();
    drop(row);
    let mut row = evens.copy(alloc)?;
    or_into(&mut row, threes);
    let either = row.count();
    drop(row);
    Ok((both, either))
}

/// How many tens there are, the first and the last of them.
fn tens_of(alloc: Global, len: usize) -> Result<(usize, Option<usize>, Option<usize>), Memory> {
    let row = tens(alloc, len)?;
    let told = (row.count(), row.first(), row.last());
    drop(row);
    Ok(told)
}

/// What the rows of a length say, of which these are two.
fn counts_of(alloc: Global, len: usize, evens: &BitRow, threes: &BitRow) -> Result<Counts, Memory>
    requires { length evens.now ≡ length threes.now }
{
    let (both, either) = joined(alloc, evens, threes)?;
    let (count, first, last) = tens_of(alloc, len)?;
    Ok((
        evens.count(),
        threes.count(),
        both,
        either,
        count,
        first,
        last,
    ))
}

/// The same, of which this is one.
fn counts_with(alloc: Global, len: usize, evens: &BitRow) -> Result<Counts, Memory>
    requires { length evens.now ≡ len }
{
    let threes = threes(alloc, len)?;
    let told = counts_of(alloc, len, evens, &threes);
    drop(threes);
    told
}

/// What the rows of a length say.
fn counts(alloc: Global, len: usize) -> Result<Counts, Memory> {
    let evens = evens(alloc, len)?;
    let told = counts_with(alloc, len, &evens);
    drop(evens);
    told
}

#[test]
fn rows_of_all_lengths(rt: HostRuntime) -> Result<(), Fail> {
    for &(len, wanted) in &ROWS {
        let found = counts(rt.alloc(), len)?;
        assert!(rt; found == wanted, "{len}");
    }
    Ok(())
}

/// How many of the places below a length are not as the place itself says.
fn wrong_places(row: &BitRow, step: usize) -> usize {
    let mut wrong: usize = 0;
    for at in 0..row.len() {
        if row.get(at) != at.is_multiple_of(step) {
            wrong = wrong.saturating_add(1);
        }
    }
    wrong
}

#[test]
fn each_place_by_itself(rt: HostRuntime) -> Result<(), Fail> {
    for &(len, _) in &ROWS {
        let two = wrong_places(&evens(rt.alloc(), len)?, 2);
        let three = wrong_places(&threes(rt.alloc(), len)?, 3);
        assert!(rt; two == 0 && three == 0, "{len}");
    }
    Ok(())
}

#[test]
fn no_number_lies_between_crossed_ends(rt: HostRuntime) -> Result<(), Fail> {
    let column = Vec::from_array(rt.alloc(), [1u64, 2, 3])?;
    let mut row = BitRow::new(rt.alloc(), column.len())?;
    range_lanes(column.as_slice(), 3, 1, &mut row);
    assert!(rt; row.count() == 0 && row.first() == None && row.last() == None);
    Ok(())
}
