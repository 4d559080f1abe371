//! The codes of the values of which entries and heads are made: numbers, counts, texts, keys, annotations and the
//! parts of a configuration.
#![tactic(auto)]

mod annots;
mod coded;
mod counts;
mod heads;
mod lists;
mod made_head;
mod plain;
mod raw_head;
mod raw_key;

pub use coded::{Coded, Readable, put_both, put_three, size_of_both, size_of_three};
pub use counts::read_count;
pub use made_head::{attribute_in, config_in, level_in};
pub use raw_head::{RawAttribute, RawLevel, RawParts};
pub use raw_key::{RawKey, key_in, key_is};
