//! The parts of a configuration as they are read, in which link definitions name their levels.
use db_config::{GroupDefs, LevelDefs, TrackNames};
use emu_names::{LinkKind, Name, Series, Text};

/// A link definition by the names of its levels.
#[derive(Drop)]
pub struct NamedLink {
    /// Its type.
    pub kind: LinkKind,
    /// The name of the upper level (`superlevelName`).
    pub upper: Text,
    /// The name of the lower level (`sublevelName`).
    pub lower: Text,
}

/// Link definitions by the names of their levels, in order.
pub(crate) type NamedLinks = Series<NamedLink>;

/// The parts of a configuration that are read before its levels.
#[derive(Drop)]
pub(crate) struct NamedHead {
    pub(crate) name: Name,
    pub(crate) uuid: Text,
    pub(crate) extension: Text,
    pub(crate) tracks: TrackNames,
}

/// The levels of a configuration, and the parts that are read behind them.
#[derive(Drop)]
pub(crate) struct NamedLists {
    pub(crate) levels: LevelDefs,
    pub(crate) links: NamedLinks,
    pub(crate) groups: GroupDefs,
}

/// The parts of a configuration, before its rules are tested.
#[derive(Drop)]
pub(crate) struct NamedParts {
    pub(crate) name: Name,
    pub(crate) uuid: Text,
    pub(crate) extension: Text,
    pub(crate) tracks: TrackNames,
    pub(crate) levels: LevelDefs,
    pub(crate) links: NamedLinks,
    pub(crate) groups: GroupDefs,
}
