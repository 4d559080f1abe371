//! Edits in the reverse order.
ghost use Rattle.std.specs.Prelude.{◌≡◌, ◌++◌, reverse, IfOk, OnOk};

use bundle_edits::Edit;
use emu_names::{Memory, Series};
use std::alloc::Global;

/// Puts edits last, the last one first. The only refusal is want of memory.
#[tactic(auto, using(crate::proofs::Joins::last_first, crate::proofs::Joins::shorter, crate::proofs::Joins::none_left))]
pub(crate) fn put_reversed(made: &mut Series<Edit>, group: Series<Edit>) -> Result<(), Memory>
    ensures { OnOk result (made.new ≡ made.old ++ reverse group) }
{
    let mut rest = group;
    while !rest.is_empty() {
        let last = rest.len() - 1;
        made.push(rest.remove(last))?;
    }
    Ok(())
}

/// These edits, the last one first. The only refusal is want of memory.
pub(crate) fn reversed(alloc: Global, group: Series<Edit>) -> Result<Series<Edit>, Memory>
    ensures { IfOk result (λ made. made ≡ reverse group) }
{
    let mut made = Series::new(alloc);
    put_reversed(&mut made, group)?;
    Ok(made)
}
