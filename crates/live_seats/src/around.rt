//! What the lanes of a run have in common.
ghost use Rattle.std.specs.Prelude.{◌≡◌, ◌≤◌, map};
ghost use Rattle.live_seats.specs.Inner.Seats.{AreCells};

use crate::notes::Row;
use emu_disk::Disk;
use emu_io::Gate;
use live_book::{Live, Opening};
use std::alloc::Global;
use std::marker::PhantomData;
use std::sync::OnceLock;
use std::sync::ledger::Ledger;

/// What the lanes of a run have in common: memory, the book, the cells of the numbers that are noted for lines, who is
/// told of moments, and how many threads a query may have.
#[derive(Drop)]
pub struct Around<'a, 'l, K: Opening + Row, N: Ledger, D: Disk, G: Gate> {
    pub(crate) alloc: Global,
    pub(crate) live: &'l Live<K, N, D>,
    pub(crate) cells: &'a [OnceLock<u64>],
    pub(crate) gate: &'l G,
    pub(crate) workers: u32,
    ghost row: { AreCells K.cells (map (λ c. c.id) cells.now) },
    ghost some: { 1 ≤ workers },
    ghost most: { workers ≤ 8 },
}

impl<'a, 'l, K: Opening + Row, N: Ledger, D: Disk, G: Gate> Around<'a, 'l, K, N, D, G> {
    /// What the lanes of a run have in common. The cells are those that `K` names, and there are 1 to 8 workers.
    pub fn new(
        alloc: Global,
        live: &'l Live<K, N, D>,
        cells: &'a [OnceLock<u64>],
        gate: &'l G,
        workers: u32,
    ) -> Around<'a, 'l, K, N, D, G>
        requires cells { AreCells K.cells (map (λ c. c.id) cells.now) }
        requires workers { (1 ≤ workers) × (workers ≤ 8) }
    {
        Around {
            alloc,
            live,
            cells,
            gate,
            workers,
        }
    }
}
