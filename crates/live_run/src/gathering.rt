//! What the lanes of a run answered, joined to its end.
ghost use Rattle.std.specs.Prelude.{◌≡◌, ◌≤◌, [], Ok, length, map, vec_capacity, vec_len};
ghost use Rattle.live_seats.specs.session_core.InOrder.{ComeInOrder};
ghost use Rattle.live_seats.specs.session_core.Worlds.{Each};
ghost use Rattle.live_seats.specs.live_book.Live.{HasGrown};
ghost use Rattle.live_run.specs.Inner.Grouping.{HasRooms};
ghost use Rattle.live_run.specs.Inner.Running.{EndsOver, HaveLanes, accepts_in, refuses_in};
ghost use Rattle.live_seats.specs.Inner.Seats.{IsAsked};

use crate::ending::{Rest, finish_all};
use crate::room::Joint;
use crate::run::{Ended, LiveEnd};
use emu_disk::Disk;
use live_seats::live_book::{Book, Opening};
use live_seats::session_core::Lines;
use live_seats::{Answered, Row, marks_of};
use std::sync::Wait;

/// Lets the passes of all seats learn what was published, and joins what the seats answered. The book has grown by
/// what their shares count since the opening that `K` names. It waits for no other thread, and tries until each pass has
/// learnt: it keeps its promise if it returns.
pub(crate) fn gather<'a, R: Wait, K: Opening + Row, D: Disk>(
    rt: &R,
    mut book: Book<D>,
    rests: Vec<Rest<'a, K>>,
    room: Vec<Vec<Answered<'a, K>>>,
    joint: Joint<'a, K>,
    lines: &Lines,
    from: u64,
) -> LiveEnd<D>
    requires grown { HasGrown D.may_leave D.faults K.opened (accepts_in (map (λ r. r.steps) rests.items))
        (refuses_in (map (λ r. r.steps) rests.items)) book }
    requires lanes { HaveLanes (vec_len rests) lines.now (map (λ r. r.steps) rests.items) }
    requires room { (room.items ≡ []) × (vec_len rests ≤ vec_capacity room) }
    requires lines { ComeInOrder [] lines.now }
    requires asked { Each (IsAsked (length joint.table)) lines.now }
    requires replies { HasRooms lines.now joint.replies.queues.items joint.replies.joined }
    requires marks { (vec_len joint.marks ≡ 0) × (length lines.now ≤ vec_capacity joint.marks) }
    requires from { (from ≡ length K.opened.entries) × (K.opened.from ≤ length K.opened.entries) }
    ensures { EndsOver D.may_leave D.faults K.opened lines.now result.ended result.book }
{
    let lanes = finish_all(rt, &mut book, rests, room);
    let _ = book.tell();
    let _ = book.history();
    let Joint {
        mut table,
        replies,
        marks,
    } = joint;
    table.add_lanes(lanes.as_slice());
    let replies = replies.group(lanes);
    let marks = marks_of(marks, book.history(), from as usize);
    LiveEnd {
        book,
        ended: Ok(Ended {
            from,
            replies,
            marks,
        }),
    }
}
