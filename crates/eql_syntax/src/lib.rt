//! EQL, the query language of emuDB: the query that the tokens of a text spell, and the text of a
//! query. (EMU-SDMS Manual, "The EMU Query Language version 2".)
#![tactic(auto)]

mod crossing;
mod laws;
mod machine;
mod print;
mod query;
mod reader;
mod words;

pub use crossing::queries_cross_threads;
pub use eql_tokens::Words;
pub use laws::{
    brackets_are_closed, brackets_change_nothing, brackets_hold_one_or_two, queries_stand_anywhere,
};
pub use print::print_query;
pub use query::{Compare, Op, Place, Query, QueryFault, Term, Terms};
pub use reader::read_query;
