//! Lists in which some elements have come into the place of others.
ghost use Rattle.std.specs.Prelude.{◌≡◌, ◌≤◌, ◌++◌, length, take, drop, IfOk, OnOk};

use emu_names::{Memory, PlainData, Series};
use std::alloc::Global;

/// Puts copies of the elements last. The only refusal is want of memory.
fn append<T: PlainData>(alloc: Global, made: &mut Series<T>, items: &[T]) -> Result<(), Memory>
    ensures { OnOk result (made.new ≡ made.old ++ items.now) }
{
    for item in items {
        made.push(item.copy(alloc)?)?;
    }
    Ok(())
}

/// The elements of one list, and those of another one behind them. The only refusal is want of memory.
pub(crate) fn joined<T: PlainData>(
    alloc: Global,
    first: &[T],
    second: &[T],
) -> Result<Series<T>, Memory>
    ensures { IfOk result (λ made. made ≡ first.now ++ second.now) }
{
    let mut made = Series::new(alloc);
    append(alloc, &mut made, first)?;
    append(alloc, &mut made, second)?;
    Ok(made)
}

/// The list with the new elements in the place of those from `from` to before `to`. The only refusal is
/// want of memory.
pub(crate) fn spliced<T: PlainData>(
    alloc: Global,
    list: &[T],
    from: usize,
    to: usize,
    new: &[T],
) -> Result<Series<T>, Memory>
    requires ordered { from ≤ to }
    requires within { to ≤ length list.now }
    ensures { IfOk result (λ made.
        made ≡ take from list.now ++ (new.now ++ drop to list.now)) }
{
    let mut made = joined(alloc, &list[..from], new)?;
    append(alloc, &mut made, &list[to..])?;
    Ok(made)
}
