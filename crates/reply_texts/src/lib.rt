//! The texts of replies, and what a refusal says in a reply and in a last line.
#![tactic(auto)]

mod members;
mod print;
mod refusals;
mod replies;

pub use members::{put_text, put_whole};
pub use print::{after_rows, print_before_rows, print_reply, print_value};
pub use refusals::{put_config, put_grid, put_name, put_refusal, put_shape};
pub use session_core;
