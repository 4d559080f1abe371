//! The tokens of an EQL text, with the places at which they begin, and lists of its words. (EMU-SDMS
//! Manual, "The EMU Query Language version 2".)
#![tactic(auto)]

mod lexer;
mod token;
mod word_list;

pub use lexer::read_tokens;
pub use token::{Placed, Sign, Token, Tokens};
pub use word_list::Words;
