//! Numbers that are noted for lines, each once, and that other threads hear.
ghost use Rattle.std.specs.Prelude.{◌≡◌, ◌<◌, ℕ, List, [], length, map};
ghost use Rattle.live_seats.specs.Inner.Notes.{note};
ghost use Rattle.live_seats.specs.Inner.Seats.{AreCells};

use std::marker::{Brand, Model, PhantomData};
use std::sync::{OnceLock, OnceToken, Wait};

/// Which row of cells it is, one for each line's number. Its member is plain data, which contracts alone see.
pub trait Row {
    /// The names of the cells, in order.
    ghost cells: { List ℕ };
}

impl Row for Brand {
    ghost cells = { [] };
}

/// What shows that a number was noted for a line of a row. It holds the line's number alone.
#[derive(Drop)]
pub(crate) struct Told<'a, K: Row> {
    token: OnceToken<'a, u64>,
    line: u32,
    of: PhantomData<K>,
}

impl<'a, K: Row> Model for Told<'a, K> {
    ghost use Rattle.std.specs.Prelude.{◌≡◌, get_or};
    ghost use Rattle.live_seats.specs.Inner.Notes.{Note, note};

    ghost Value = { Note };

    ghost view = { λ t. note t.line t.token.value };

    ghost invariant = { λ t. t.token.of ≡ get_or K.cells t.line 0 };
}

/// Notes a number for a line. Each line has its number noted once.
pub(crate) fn tell<'a, R: Wait, K: Row>(
    rt: &R,
    cells: &'a [OnceLock<u64>],
    line: u32,
    noted: u64,
) -> Told<'a, K>
    requires cells { AreCells K.cells (map (λ c. c.id) cells.now) }
    requires there { line < length cells.now }
    ensures { result ≡ note line noted }
{
    let cell = &cells[line as usize];
    for _ in rt.forever() {
        if let Ok(token) = cell.set(rt, noted) {
            return Told {
                token,
                line,
                of: PhantomData,
            };
        }
    }
    unreachable!()
}

/// Waits until a number is noted for a line, and hears it.
pub(crate) fn hear<'a, R: Wait, K: Row>(
    rt: &R,
    cells: &'a [OnceLock<u64>],
    line: u32,
) -> (Told<'a, K>, u64)
    requires cells { AreCells K.cells (map (λ c. c.id) cells.now) }
    requires there { line < length cells.now }
    ensures told { result.0.line ≡ line }
    ensures number { result.0.noted ≡ result.1 }
{
    let cell = &cells[line as usize];
    for _ in rt.forever() {
        cell.wait(rt);
        if let Some(token) = cell.witness() {
            let noted = *cell.value(&token);
            let told = Told {
                token,
                line,
                of: PhantomData,
            };
            return (told, noted);
        }
    }
    unreachable!()
}

impl<'a, K: Row> Told<'a, K> {
    /// The same once more.
    pub(crate) fn again(&self) -> Told<'a, K>
        ensures { result ≡ self.now }
    {
        Told {
            token: self.token.again(),
            line: self.line,
            of: PhantomData,
        }
    }

    /// What two threads know of one line agrees.
    pub(crate) fn agree(&self, other: &Told<'a, K>)
        requires { self.now.line ≡ other.now.line }
        ensures { self.now.noted ≡ other.now.noted }
    {
        self.token.agrees(&other.token);
    }

    /// The line.
    pub(crate) fn line(&self) -> u32
        ensures { result ≡ self.now.line }
    {
        self.line
    }
}
