//! Configurations of databases: levels, attributes and link definitions, valid by their type (EMU-SDMS
//! Manual, "The emuDB format": `_DBconfig.json`).
#![tactic(auto)]

mod attributes;
mod config;
mod faults;
mod groups;
mod laws;
mod made;
mod names;
mod parts;
mod paths;
mod places;
mod rules;

pub use attributes::{AttributeDef, AttributeDefs};
pub use config::Config;
pub use faults::PartsFault;
pub use groups::{GroupDef, GroupDefs, GroupValues};
pub use laws::{above_is_by_paths, cycles_are_found, doubles_are_found};
pub use made::{attribute_is, level_is};
pub use names::{all_names, double_name, double_of_level, is_among};
pub use parts::{AttributePlace, ConfigParts, LevelDef, LevelDefs, LinkDef, LinkDefs, TrackNames};
pub use places::level_named;
pub use rules::{are_apart, has_levels};
