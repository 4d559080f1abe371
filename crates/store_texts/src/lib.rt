//! The commands on a store: what `history`, `config`, `export`, `textgrid` and `ask` write, and the last lines of
//! refusals.
#![tactic(auto)]

mod ask;
mod causes;
mod config;
mod export;
mod faults;
mod history;
mod print;
mod segments;
mod values;

pub use ask::ask_text;
pub use config::config_text;
pub use edit_rules;
pub use export::{export_text, textgrid_text};
pub use faults::{CommandFault, FileFault, Refused};
pub use history::history_text;
pub use print::{print_damaged, print_done, print_from, print_mark, print_refused};
pub use reply_texts;
pub use reply_texts::session_core;
