//! A configuration read from a JSON value (EMU-SDMS Manual, "The emuDB format": `_DBconfig.json`), or its
//! first fault; and the text of a configuration.
#![tactic(auto)]

mod faults;
mod forms;
mod laws;
mod link_defs;
mod named;
mod print;
mod read;
mod read_parts;
mod values;

pub use faults::{ConfigFault, ConfigWhat};
pub use laws::printed_is_read;
pub use named::NamedLink;
pub use print::print_config;
pub use read::read_config;
pub use read_parts::{attribute_in, level_in, link_in};
