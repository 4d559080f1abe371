//! The marks of the entries that came in a run.
ghost use Rattle.std.specs.Prelude.{◌≡◌, ◌≤◌, ◌+◌, ◌-◌, drop, length, IfOk, vec_capacity, vec_len};
ghost use Rattle.live_seats.specs.Marks.{marks_from};

use edit_undo::edit_rules::Entries;
use emu_names::{Memory, Series, SessionNo};
use std::alloc::Global;

/// Where an entry stands in the history, and the line that it came from.
#[derive(Drop)]
pub struct Mark {
    /// Its place in the whole history, counted from 1.
    pub at: u64,
    /// The number of its line.
    pub line: u32,
    /// The session of its line.
    pub session: SessionNo,
}

/// Marks, in the order of the history.
pub type Marks = Series<Mark>;

/// Room for so many marks. The only refusal is want of memory.
pub fn mark_room(alloc: Global, marks: usize) -> Result<Vec<Mark>, Memory>
    ensures { IfOk result (λ room. (vec_len room ≡ 0) × (marks ≤ vec_capacity room)) }
{
    let room = Vec::with_capacity(alloc, marks)?;
    Ok(room)
}

/// A mark of each entry of a history past the first `from`, in room that was made for them.
pub fn marks_of(room: Vec<Mark>, history: &Entries, from: usize) -> Marks
    requires empty { vec_len room ≡ 0 }
    requires room { length history.now - from ≤ vec_capacity room }
    ensures { result ≡ marks_from (from + 1) (drop from history.now) }
{
    let mut marks = room;
    for place in from..history.len() {
        let entry = history.get(place);
        marks.push_reserved(Mark {
            at: place as u64 + 1,
            line: entry.line(),
            session: entry.session(),
        });
    }
    Series::from_vec(marks)
}
