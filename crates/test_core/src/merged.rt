//! The rows of several bundles as one list, where the parts come in no order.
ghost use Rattle.std.specs.Prelude.{◌≡◌, true};
ghost use Rattle.segment_list.specs.Inner.Merged.{AreApart};

use crate::made::{key, row};
use emu_names::Memory;
use eql_rows::SegmentList;
use segment_list::{Part, Parts, merge_in_order};
use std::alloc::Global;
use std::process::Abort;
use std::test::Fail;

/// The session and the bundle of each part, and the labels of its rows.
static PARTS: [(&str, &str, &[&str]); 3] = [
    ("s1", "c", &["c1", "c2"]),
    ("s2", "a", &["a1"]),
    ("s1", "b", &["b1"]),
];

/// The labels of all rows by session, and then by bundle.
static MERGED: [&str; 4] = ["b1", "c1", "c2", "a1"];

/// A row with each of these labels.
fn rows(
    alloc: Global,
    session: &str,
    bundle: &str,
    labels: &[&str],
) -> Result<SegmentList, Memory> {
    let mut rows = SegmentList::new(alloc);
    for &labels in labels {
        rows.push(row(alloc, session, bundle, labels)?)?;
    }
    Ok(rows)
}

/// The part of a bundle.
fn part(alloc: Global, session: &str, bundle: &str, labels: &[&str]) -> Result<Part, Fail> {
    let key = key(alloc, session, bundle)?;
    let rows = rows(alloc, session, bundle, labels)?;
    Ok(Part { key, rows })
}

/// The parts of the table.
fn parts(alloc: Global) -> Result<Parts, Fail> {
    let mut parts = Parts::new(alloc);
    for &(session, bundle, labels) in &PARTS {
        parts.push(part(alloc, session, bundle, labels)?)?;
    }
    Ok(parts)
}

/// Whether these are the parts of three bundles.
#[tactic(auto, using(crate::proofs::Apart::apart_three))]
fn are_three(parts: &Parts) -> bool
    ensures { result ≡ true → AreApart parts.now }
{
    if parts.len() != 3 {
        return false;
    }
    let first = &parts.get(0).key;
    let second = &parts.get(1).key;
    let third = &parts.get(2).key;
    first.cmp(second).is_ne() && first.cmp(third).is_ne() && second.cmp(third).is_ne()
}

/// Compares the labels of the rows.
fn expect_rows(rt: &impl Abort, rows: &SegmentList) {
    assert_eq!(rt; rows.len(), MERGED.len());
    for (row, &wanted) in rows.as_slice().iter().zip(&MERGED) {
        assert_eq!(rt; row.labels.as_str(), wanted);
    }
}

#[test]
fn parts_are_merged_in_the_order_of_their_keys(rt: HostRuntime) -> Result<(), Fail> {
    let parts = parts(rt.alloc())?;
    assert!(rt; !parts.is_empty() && are_three(&parts));
    let rows = merge_in_order(rt.alloc(), parts)?;
    expect_rows(&rt, &rows);
    drop(rows);
    Ok(())
}
