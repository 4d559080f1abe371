//! The parts of a configuration, as plain data.
ghost use Rattle.std.specs.Prelude.{◌≡◌, IfOk};

use crate::attributes::AttributeDefs;
use crate::groups::GroupDefs;
use emu_names::{LevelKind, LinkKind, Memory, Name, PlainData, Series, Text};
use std::alloc::Global;

/// A level (EMU-SDMS Manual, "The emuDB format": `levelDefinitions`).
#[derive(Drop)]
pub struct LevelDef {
    /// Its name.
    pub name: Name,
    /// Its type.
    pub kind: LevelKind,
    /// Its attributes.
    pub attributes: AttributeDefs,
}

/// A link definition (EMU-SDMS Manual, "The emuDB format": `linkDefinitions`).
#[derive(Clone, Copy, Debug, PartialEq, Eq)]
pub struct LinkDef {
    /// Its type.
    pub kind: LinkKind,
    /// The number of the upper level (`superlevelName`), counted from 0.
    pub upper: u32,
    /// The number of the lower level (`sublevelName`), counted from 0.
    pub lower: u32,
}

/// Where an attribute stands.
#[derive(Clone, Copy, Debug, PartialEq, Eq)]
pub struct AttributePlace {
    /// The number of its level, counted from 0.
    pub level: usize,
    /// Its place among the level's attributes, counted from 0.
    pub attribute: usize,
}

/// Names of tracks, in order.
pub type TrackNames = Series<Text>;

/// Levels, in order.
pub type LevelDefs = Series<LevelDef>;

/// Link definitions, in order.
pub type LinkDefs = Series<LinkDef>;

/// The parts of a configuration (EMU-SDMS Manual, "The emuDB format": `_DBconfig.json`).
#[derive(Drop)]
pub struct ConfigParts {
    /// The database's name.
    pub name: Name,
    /// `UUID`, or the empty text.
    pub uuid: Text,
    /// `mediafileExtension`, or the empty text.
    pub extension: Text,
    /// The names of the tracks (`ssffTrackDefinitions`), which are kept and never opened.
    pub tracks: TrackNames,
    /// The levels.
    pub levels: LevelDefs,
    /// The label groups of the database (`labelGroups`).
    pub groups: GroupDefs,
    /// The link definitions.
    pub links: LinkDefs,
}

impl LevelDef {
    /// The same level again. The only refusal is want of memory.
    pub fn copy(&self, alloc: Global) -> Result<LevelDef, Memory>
        ensures { IfOk result (λ made. made ≡ self.now) }
    {
        let name = self.name.copy(alloc)?;
        let attributes = self.attributes.copy(alloc)?;
        Ok(LevelDef {
            name,
            kind: self.kind,
            attributes,
        })
    }
}

impl LinkDef {
    /// The same definition again.
    pub fn copy(&self) -> LinkDef
        ensures { result ≡ self.now }
    {
        *self
    }
}

impl AttributePlace {
    /// The same place again.
    pub fn copy(&self) -> AttributePlace
        ensures { result ≡ self.now }
    {
        *self
    }
}

impl ConfigParts {
    /// The same parts again. The only refusal is want of memory.
    pub fn copy(&self, alloc: Global) -> Result<ConfigParts, Memory>
        ensures { IfOk result (λ made. made ≡ self.now) }
    {
        let name = self.name.copy(alloc)?;
        let uuid = self.uuid.copy(alloc)?;
        let extension = self.extension.copy(alloc)?;
        let tracks = self.tracks.copy(alloc)?;
        let links = self.links.copy(alloc)?;
        let groups = self.groups.copy(alloc)?;
        let levels = self.levels.copy(alloc)?;
        Ok(ConfigParts {
            name,
            uuid,
            extension,
            tracks,
            levels,
            groups,
            links,
        })
    }
}

impl PlainData for LevelDef {
    fn copy(&self, alloc: Global) -> Result<LevelDef, Memory> {
        LevelDef::copy(self, alloc)
    }
}

impl PlainData for LinkDef {
    fn copy(&self, _alloc: Global) -> Result<LinkDef, Memory> {
        Ok(*self)
    }
}

impl PlainData for ConfigParts {
    fn copy(&self, alloc: Global) -> Result<ConfigParts, Memory> {
        ConfigParts::copy(self, alloc)
    }
}
