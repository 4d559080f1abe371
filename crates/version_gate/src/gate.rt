//! Making a gate: its publisher, and its passes.
ghost use Rattle.std.specs.Prelude.{◌≡◌, ◌<◌, ◌≤◌, [], ◌∷◌, length, drop, All, None, IfOk};
ghost use Rattle.std.specs.Arc.{arc_value};
ghost use Rattle.left_right.specs.Sides.{view as seat_view};
ghost use Rattle.version_gate.specs.Lists.{Front, Numbered, entry, front};
ghost use Rattle.version_gate.specs.Inner.Lists.{Board};
ghost use Rattle.version_gate.specs.Inner.Seats.{Knows};
ghost use Rattle.version_gate.specs.Inner.Snapshots.{entry_of};

use crate::entry::Snapshot;
use crate::fault::Memory;
use crate::pass::{Pass, SeatOf};
use crate::passes::Passes;
use crate::published::{Reached, open};
use crate::publisher::Publisher;
use crate::rule::{Copies, Gates, Known, Takes, Teach};
use crate::shown::Shown;
use crate::side::Side;
use left_right::writer::Writer;
use std::alloc::{AllocError, Global};
use std::sync::{Arc, Wait};

/// A new gate.
pub struct Made<T: Drop> {
    pub publisher: Publisher<T>,
    pub passes: Passes<T>,
}

/// Makes a gate whose published list is the opening, under the number given, for 1 to 16 readers.
/// It gives at least one pass and at most as many as there are readers. It may wait, since a
/// refusal may have to end the writer.
pub fn new_gate<T: Drop, R: Wait>(
    rt: &R,
    alloc: Global,
    number: u64,
    opening: Arc<T>,
    readers: u32,
) -> Result<Made<T>, Memory>
    requires readers { (1 ≤ readers) × (readers ≤ 16) }
    ensures list { IfOk result (λ m. m.publisher.list ≡ entry number (arc_value opening) ∷ []) }
    ensures number { IfOk result (λ m. m.publisher.number ≡ number) }
    ensures staged { IfOk result (λ m. m.publisher.staged ≡ None) }
    ensures passes { IfOk result (λ m.
        All (λ p. p ≡ front m.publisher.gate m.publisher.list) m.passes) }
    ensures count { IfOk result (λ m. (0 < length m.passes) × (length m.passes ≤ readers)) }
{
    let first = Snapshot {
        number,
        version: opening,
    };
    let (seen, head) = open(&first);
    let mut writer = show_first(rt, alloc, Shown::new(first, seen.again()), readers)?;
    let passes = take_seats(alloc, &mut writer, &seen, number, readers);
    if passes.len() == 0 {
        let _shown = writer.take(rt);
        return Err(Memory);
    }
    Ok(Made {
        publisher: Publisher::new(Side::over(writer), head, seen, number),
        passes,
    })
}

type WriterOf<T> = Writer<Shown<T>, Shown<T>, Known, Gates>;

// A writer that shows the opening, and knows the gate.
fn show_first<T: Drop, R: Wait>(
    rt: &R,
    alloc: Global,
    opening: Shown<T>,
    readers: u32,
) -> Result<WriterOf<T>, Memory>
    requires readers { (1 ≤ readers) × (readers ≤ 16) }
    ensures shown { IfOk result (λ w. w.desk.shown.value ≡ opening) }
    ensures pending { IfOk result (λ w. drop w.behind w.log.items ≡ []) }
    ensures knows { IfOk result (λ w. Knows opening.gate (seat_view w.desk.place)) }
{
    let second = opening.copy()?;
    let next = opening.copy()?;
    let mut writer: WriterOf<T> = Writer::new(alloc, opening, second, readers as usize)?;
    match writer.append(next) {
        Ok(()) => teach(rt, writer),
        Err(_) => {
            let _shown = writer.take(rt);
            Err(Memory)
        }
    }
}

// Shows the opening once more, by which the writer learns its gate.
fn teach<T: Drop, R: Wait>(rt: &R, writer: WriterOf<T>) -> Result<WriterOf<T>, Memory>
    requires { drop writer.behind writer.log.items ≡ writer.desk.shown.value ∷ [] }
    ensures shown { IfOk result (λ w. w.desk.shown.value ≡ writer.desk.shown.value) }
    ensures pending { IfOk result (λ w. drop w.behind w.log.items ≡ []) }
    ensures knows { IfOk result (λ w. Knows writer.desk.shown.value.gate (seat_view w.desk.place)) }
{
    match writer.publish_as::<Teach, R>(rt) {
        (writer, Ok(())) => Ok(writer),
        (writer, Err(_)) => {
            let _shown = writer.take(rt);
            Err(Memory)
        }
    }
}

// As many passes as there are places and memory for.
fn take_seats<T: Drop>(
    alloc: Global,
    writer: &mut WriterOf<T>,
    seen: &Reached<T>,
    number: u64,
    readers: u32,
) -> Passes<T>
    requires names { seen.now.names ≡ [] }
    requires knows { Knows seen.now.book (seat_view writer.old.desk.place) }
    requires numbered { Numbered number seen.now.log }
    ensures passes { All (λ p. p ≡ front seen.now.book seen.now.log) result }
    ensures count { length result ≤ readers }
    ensures shown { writer.new.desk.shown.value ≡ writer.old.desk.shown.value }
    ensures pending { drop writer.new.behind writer.new.log.items
        ≡ drop writer.old.behind writer.old.log.items }
{
    let mut passes = Passes::new(alloc);
    for _ in 0..readers {
        let Ok(seat) = take_seat(writer) else {
            break;
        };
        if passes.push(Pass::new(seat, seen.again(), number)).is_err() {
            break;
        }
    }
    passes
}

// A place at the copies, which is told what the writer knows.
fn take_seat<T: Drop>(writer: &mut WriterOf<T>) -> Result<SeatOf<T>, AllocError>
    ensures seat { IfOk result (λ r. seat_view r.place ≡ seat_view writer.old.desk.place) }
    ensures knows { seat_view writer.new.desk.place ≡ seat_view writer.old.desk.place }
    ensures shown { writer.new.desk.shown ≡ writer.old.desk.shown }
    ensures log { writer.new.log ≡ writer.old.log }
    ensures behind { writer.new.behind ≡ writer.old.behind }
{
    let mut seat = writer.factory().reader()?;
    seat.learn::<Takes>(writer.tell::<Copies>());
    Ok(seat)
}
