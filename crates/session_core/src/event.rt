//! The four events that the core's runs are made of.
use crate::line::{Command, Line};
use emu_names::SessionNo;
use std::collections::VecDeque;

/// A step of the core.
#[derive(Drop)]
pub enum Event {
    /// An edit is tried.
    Edit {
        /// Its line.
        line: Line,
    },
    /// The present state is looked at: by a `look`, by the start of a `query`, or by an `after`.
    Look {
        /// Its line.
        line: Line,
    },
    /// The next bundle of the session's open look or query is worked out.
    Piece {
        /// The session.
        session: SessionNo,
    },
    /// The session's open look, or its query under way, is answered.
    Finish {
        /// The number of the line that asks for the answer.
        line: u32,
        /// The session.
        session: SessionNo,
        /// `Finish` or `Query`.
        command: Command,
    },
}

/// Events, in order.
pub type Events = VecDeque<Event>;
