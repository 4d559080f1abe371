//! Which lines a lane answers.
ghost use Rattle.std.specs.Prelude.{◌≡◌, ◌%◌, length};
ghost use Rattle.query_workers.specs.session_core.Legal.{makes_entry};
ghost use Rattle.live_seats.specs.Inner.Seats.{changes_of, lines_of, takes};

use query_workers::session_core::{Line, Lines, Request};

/// Which lines a lane answers.
#[derive(Clone, Copy)]
pub enum Lane {
    /// Those of the sessions of a seat: a session's number leaves the seat's when it is divided by the number of seats.
    Seat {
        /// How many seats there are.
        seats: u32,
        /// The seat, counted from 0.
        seat: u32,
    },
    /// Those of all sessions whose seat has no thread.
    Rest {
        /// How many seats there are.
        seats: u32,
        /// How many of the first seats have a thread.
        made: u32,
    },
}

/// What is left of a number when it is divided by this one, or the number itself where this one is 0.
fn left(number: u32, by: u32) -> u32
    ensures { result ≡ number % by }
{
    if by == 0 { number } else { number % by }
}

/// Whether a request asks for a change that may be accepted.
fn asks_change(request: &Request) -> bool
    ensures { result ≡ makes_entry request.now }
{
    match request {
        Request::Edit(Ok(_)) | Request::Undo(_) => true,
        _ => false,
    }
}

impl Lane {
    /// Whether a line is one of the lane.
    pub fn takes(&self, line: &Line) -> bool
        ensures { result ≡ takes self.now line.now }
    {
        match self {
            Lane::Seat { seats, seat } => left(line.session.0, *seats) == *seat,
            Lane::Rest { seats, made } => *made <= left(line.session.0, *seats),
        }
    }

    /// How many of these lines are of the lane.
    pub fn count(&self, lines: &Lines) -> usize
        ensures { result ≡ length (lines_of self.now lines.now) }
    {
        let mut count = 0;
        for line in lines.as_slice() {
            if self.takes(line) {
                count += 1;
            }
        }
        count
    }

    /// How many of these lines are of the lane and ask for a change.
    pub fn count_changes(&self, lines: &Lines) -> usize
        ensures { result ≡ length (changes_of self.now lines.now) }
    {
        let mut count = 0;
        for line in lines.as_slice() {
            if self.takes(line) && asks_change(&line.request) {
                count += 1;
            }
        }
        count
    }
}
