//! The version of the present, which a pass looks at.
ghost use Rattle.std.specs.Prelude.{◌≡◌, ℕ, List, IfOk, IfSome};
ghost use Rattle.std.specs.Arc.{arc_value};
ghost use mathlib.Core.List.{IsPrefix};
ghost use Rattle.version_gate.specs.declared.entry.Entry.{Entry as Numbered};
ghost use Rattle.version_gate.specs.Lists.{entry, EndsIn, Numbered as IsNumbered};
ghost use Rattle.live_book.specs.declared.published.Published.{Published};
ghost use Rattle.live_book.specs.Published.{IsStateAfter};

use emu_disk::Disk;
use emu_names::Memory;
use live_book::{Book, Published};
use std::sync::{Arc, Wait};
use version_gate::{LookFault, Pass, Snapshot};

/// Looks once: the version of a number, if that is the one that the pass gives. The only refusal is want of
/// memory.
fn look_once(pass: &mut Pass<Published>, number: u64) -> Result<Option<Arc<Published>>, Memory>
    ensures gate { pass.new.gate ≡ pass.old.gate }
    ensures holds { IsPrefix pass.old.list pass.new.list }
    ensures shown { (list : List (Numbered Published)) → IsPrefix list pass.old.list → IsNumbered number list
        → IfOk result (λ found. IfSome found (λ version. EndsIn list (entry number (arc_value version)))) }
{
    match pass.look() {
        Ok(
            Snapshot {
                number: seen,
                version,
            },
        ) => {
            if seen == number {
                Ok(Some(version))
            } else {
                Ok(None)
            }
        }
        Err(LookFault::NoEntry) => Ok(None),
        Err(LookFault::Memory) => Err(Memory),
    }
}

/// The version after all entries of a book, which a pass of its gate looks at. The pass learns first how many
/// entries there are, and it looks again until it finds that version: so it may never return, but what it
/// returns is over all entries. The only refusal is want of memory.
pub(crate) fn look_at<D: Disk, R: Wait>(
    rt: &R,
    book: &mut Book<D>,
    pass: &mut Pass<Published>,
) -> Result<Arc<Published>, Memory>
    requires { pass.old.gate ≡ book.old.gate }
    ensures same { book.new ≡ book.old }
    ensures gate { pass.new.gate ≡ pass.old.gate }
    ensures state { IfOk result (λ shown.
        IsStateAfter book.old.config book.old.history (arc_value shown).version) }
{
    let number = book.number();
    pass.learn(book.tell());
    for _ in rt.forever() {
        if let Some(shown) = look_once(pass, number)? {
            return Ok(shown);
        }
    }
    unreachable!()
}
