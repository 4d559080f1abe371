//! Replies of all lanes, session by session.
ghost use Rattle.std.specs.Prelude.{◌≡◌, ◌+◌, ◌<◌, ◌≤◌, [], ◌∷◌, ◌++◌, flat_map, length, map, IfOk};
ghost use Rattle.live_seats.specs.session_core.Legal.{IsNamed, lines_in, lines_of_session, replies_in};
ghost use Rattle.live_seats.specs.session_core.Worlds.{Each};
ghost use Rattle.live_seats.specs.live_laws.Lanes.{all_turns, grouped, turns_of};
ghost use Rattle.live_seats.specs.session_core.Steps.{session_places};
ghost use Rattle.live_run.specs.Runs.{AreGrouped};
ghost use Rattle.live_run.specs.Inner.Grouping.{AreWithin, HasPlace, HasRooms, HaveRooms, IsPlaced, appended, empty_queue, pushed, queued_from};

use emu_names::limits::SESSIONS;
use emu_names::{Memory, Series};
use live_seats::session_core::{Lines, Replies, Reply};
use live_seats::{Answered, Row};
use std::alloc::Global;
use std::marker::Model;

/// Replies in the room that was made for them.
#[derive(Drop)]
pub(crate) struct Queue {
    list: Vec<Reply>,
}

impl Model for Queue {
    ghost use Rattle.std.specs.Prelude.{vec_capacity};
    ghost use Rattle.live_run.specs.Inner.Grouping.{QueueParts};

    ghost Value = { QueueParts };

    ghost view = { λ q. record { replies = q.list.items; capacity = vec_capacity q.list } };
}

impl Queue {
    /// Room for so many replies. The only refusal is want of memory.
    fn new(alloc: Global, capacity: usize) -> Result<Queue, Memory>
        ensures { IfOk result (λ queue. queue ≡ empty_queue capacity) }
    {
        let list = Vec::with_capacity(alloc, capacity)?;
        Ok(Queue { list })
    }

    /// Puts a reply last.
    fn push(&mut self, reply: Reply)
        requires { length self.old.replies < self.old.capacity }
        ensures { self.new ≡ pushed self.old reply }
    {
        self.list.push_reserved(reply);
    }

    /// Puts the replies of another queue last.
    fn append(&mut self, other: Queue)
        requires { length self.old.replies + length other.replies ≤ self.old.capacity }
        ensures { self.new ≡ appended self.old other.replies }
    {
        for reply in other.list {
            self.list.push_reserved(reply);
        }
    }
}

/// Room for the replies to the lines of a script: of each session, and of all.
#[derive(Drop)]
pub(crate) struct Rooms {
    queues: Vec<Queue>,
    joined: Queue,
}

/// How many lines are of a session.
fn count_lines(lines: &Lines, session: u32) -> usize
    ensures { result ≡ length (lines_of_session session lines.now) }
{
    let mut count = 0;
    for line in lines.as_slice() {
        if line.session.0 == session {
            count += 1;
        }
    }
    count
}

/// Room for the replies of each session.
fn make_queues(alloc: Global, lines: &Lines) -> Result<Vec<Queue>, Memory>
    ensures { IfOk result (λ queues. (length queues.items ≡ session_places) × HaveRooms 0 lines.now queues.items) }
{
    let mut queues = Vec::with_capacity(alloc, SESSION_PLACES)?;
    for session in 0..SESSIONS + 1 {
        let queue = Queue::new(alloc, count_lines(lines, session))?;
        queues.push(queue)?;
    }
    Ok(queues)
}

/// How many places there are.
const SESSION_PLACES: usize = SESSIONS as usize + 1;

/// Puts a reply into the queue of its session.
fn put(queues: &mut Vec<Queue>, reply: Reply)
    requires place { reply.session.0 < length queues.old.items }
    requires room { AreWithin (queued_from 0 (reply ∷ []) queues.old.items) }
    ensures { queues.new.items ≡ queued_from 0 (reply ∷ []) queues.old.items }
{
    let place = reply.session.0 as usize;
    queues[place].push(reply);
}

/// Puts the replies of a lane into the queues of their sessions.
fn put_lane<'a, K: Row>(queues: &mut Vec<Queue>, steps: Vec<Answered<'a, K>>)
    requires places { length queues.old.items ≡ session_places }
    requires placed { Each HasPlace (replies_in (turns_of steps.items)) }
    requires room { AreWithin (queued_from 0 (replies_in (turns_of steps.items)) queues.old.items) }
    ensures { queues.new.items ≡ queued_from 0 (replies_in (turns_of steps.entry.items)) queues.old.items }
{
    for answered in steps {
        put(queues, answered.into_reply());
    }
}

/// All queues, one after another.
fn join(queues: Vec<Queue>, joined: Queue) -> Replies
    requires { length (joined.replies ++ flat_map (λ q. q.replies) queues.items) ≤ joined.capacity }
    ensures { result ≡ joined.replies ++ flat_map (λ q. q.replies) queues.items }
{
    let mut all = joined;
    for queue in queues {
        all.append(queue);
    }
    Series::from_vec(all.list)
}

impl Rooms {
    /// Room for the replies to these lines. The only refusal is want of memory.
    pub(crate) fn new(alloc: Global, lines: &Lines) -> Result<Rooms, Memory>
        ensures { IfOk result (λ rooms. HasRooms lines.now rooms.queues.items rooms.joined) }
    {
        let queues = make_queues(alloc, lines)?;
        let joined = Queue::new(alloc, lines.len())?;
        Ok(Rooms { queues, joined })
    }

    /// The replies of all lanes, session by session; those of a session stay in their order.
    pub(crate) fn group<'a, K: Row>(self, lanes: Vec<Vec<Answered<'a, K>>>) -> Replies
        requires room { HasRooms (lines_in (all_turns (map (λ v. v.items) lanes.items))) self.queues.items self.joined }
        requires named { Each IsNamed (all_turns (map (λ v. v.items) lanes.items)) }
        requires placed { Each IsPlaced (all_turns (map (λ v. v.items) lanes.items)) }
        ensures replies { result ≡ replies_in (grouped (all_turns (map (λ v. v.items) lanes.entry.items))) }
        ensures order { AreGrouped result }
    {
        let Rooms { queues, joined } = self;
        let mut filled = queues;
        for steps in lanes {
            put_lane(&mut filled, steps);
        }
        join(filled, joined)
    }
}
