//! Rows of many bundles as one segment list.
ghost use Rattle.std.specs.Prelude.{IfOk};
ghost use Rattle.segment_list.specs.Merged.{IsMergeOf};
ghost use Rattle.segment_list.specs.Inner.Merged.{AreApart};

use crate::parts::Parts;
use emu_names::{Memory, Series};
use eql_rows::SegmentList;
use std::alloc::Global;

/// The rows of all parts, one part after another in the order of their bundles' keys: by session, and
/// then by bundle. No bundle has two parts. The only refusal is want of memory.
pub fn merge_in_order(alloc: Global, parts: Parts) -> Result<SegmentList, Memory>
    requires { AreApart parts }
    ensures { IfOk result (λ rows. IsMergeOf parts rows) }
{
    let mut ordered = parts;
    ordered.sort()?;
    let mut rows = ordered.into_rows_backwards(alloc)?;
    rows.reverse();
    Ok(Series::from_vec(rows))
}
