//! What stands at the place of a gate.
ghost use Rattle.std.specs.Prelude.{◌≤◌, length};
ghost use Rattle.edit_journal.specs.Inner.Recovery.{Stood};
ghost use Rattle.edit_journal.specs.Store.{limit};

/// What stands where a gate should stand.
#[derive(Clone, Copy)]
pub(crate) enum Next<'a> {
    /// A closed gate, which ends the list.
    Closed,
    /// No gate, or an open one with a length that is cut, is 0 or passes the end.
    Damaged,
    /// An open gate with a body, and what is behind that.
    Open(&'a [u8], &'a [u8]),
}

/// Reads on from the place of a gate.
pub(crate) fn next_at(rest: &[u8]) -> Next<'_>
    requires { length rest.now ≤ limit }
    ensures { Stood rest.now result }
{
    match rest {
        [] => Next::Damaged,
        [1, a, b, c, d, more @ ..] => {
            let size = u32::from_be_bytes([*a, *b, *c, *d]) as usize;
            if size == 0 || size > more.len() {
                Next::Damaged
            } else {
                Next::Open(&more[..size], &more[size..])
            }
        }
        [1, ..] => Next::Damaged,
        _ => Next::Closed,
    }
}
