//! The pure core of the database: a history of edits, the state that it stands for, and the
//! replies that sessions get.
#![tactic(auto)]

mod event;
mod head;
mod kept_acts;
mod law;
mod line;
mod queries;
mod slots;

pub use event::{Event, Events};
pub use head::{
    Head, commit_reply, memory_reply, or_memory, refuse_grid, refuse_rule, refuse_undo,
};
pub use kept_acts::{KeptAct, KeptActs};
pub use law::{
    a_run_in_order_has_one_reading, an_example_is_legal, every_core_run_is_legal,
    every_run_is_legal, in_order_is_legal, wrong_replies_are_not_legal,
};
pub use line::{Answer, Ask, Command, Line, Lines, Refusal, Replies, Reply, Request};
pub use queries::{answer_listed, lacks_memory, refuse_text};
pub use requery;
pub use segment_list;
pub use slots::{Held, Slots};
