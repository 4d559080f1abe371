//! The configuration of a database, valid by its type.
ghost use Rattle.std.specs.Prelude.{◌≡◌, ◌<◌, ℕ, IsTrue, IsSome, IfOk, IfSome, length, true, false, Some, option_map, option_and_then};
ghost use Rattle.std.specs.List.{slice_get, position};
ghost use Rattle.db_config.specs.Valid.{is_config, is_valid, keeps_rules};
ghost use Rattle.db_config.specs.Above.{is_above, leads_round};
ghost use Rattle.db_config.specs.Inner.Kept.{IsKept};
ghost use Rattle.db_config.specs.Lookups.{level_named, attribute_named, name_place, attribute_at, is_legal_for, group_values, leads};

use crate::faults::PartsFault;
use crate::groups::GroupValues;
use crate::made::parts_are;
use crate::parts::{AttributePlace, ConfigParts};
use crate::paths::{Rows, entry, leads_round, rows_of};
use crate::places::{attribute_named, definition_leading, level_named, name_place, values_named};
use crate::rules::keeps_rules;
use emu_names::{LevelKind, LinkKind, Memory, PlainData};
use std::alloc::Global;
use std::marker::Model;

/// The configuration of a database (EMU-SDMS Manual, "The emuDB format": `_DBconfig.json`), which
/// contracts see as its parts.
///
/// It always keeps the rules of configurations: the limits on levels, link definitions, tracks,
/// attributes, label groups and texts; no two levels or attributes share a name, but a level with one of
/// its own attributes; every link definition names levels that are there, no two have the same two
/// levels, and no path of them leads from a level to itself.
#[derive(Drop)]
pub struct Config {
    parts: ConfigParts,
    above: Rows,
}

impl Model for Config {
    ghost use Rattle.db_config.specs.declared.parts.ConfigParts.{ConfigParts};

    ghost Value = { ConfigParts };

    ghost use Rattle.db_config.specs.Inner.Kept.{IsKept};

    ghost view = { λ c. c.parts };

    ghost invariant = { λ c. IsKept c.parts c.above };
}

impl Config {
    /// The configuration of these parts. `NotValid` comes exactly where they break a rule of
    /// configurations.
    pub fn new(alloc: Global, parts: ConfigParts) -> Result<Config, PartsFault>
        ensures config { IfOk result (λ c. c ≡ parts) }
        ensures valid { IfOk result (λ c. IsTrue (is_valid parts)) }
        ensures not_valid { result ≡ Err PartsFault.NotValid → is_valid parts ≡ false }
    {
        match valid_rows(alloc, &parts) {
            Ok(above) => Ok(Config { parts, above }),
            Err(fault) => Err(fault),
        }
    }

    /// The configuration of parts that keep all other rules. `NotValid` comes exactly where a path of
    /// link definitions leads from a level to itself.
    pub fn from_kept(alloc: Global, parts: ConfigParts) -> Result<Config, PartsFault>
        requires { keeps_rules parts ≡ true }
        ensures config { IfOk result (λ c. c ≡ parts) }
        ensures valid { IfOk result (λ c. leads_round parts.links ≡ false) }
        ensures not_valid { result ≡ Err PartsFault.NotValid → leads_round parts.links ≡ true }
    {
        match kept_rows(alloc, &parts) {
            Ok(above) => Ok(Config { parts, above }),
            Err(fault) => Err(fault),
        }
    }

    /// The configuration of parts that keep all rules. The only refusal is want of memory.
    pub fn from_valid(alloc: Global, parts: ConfigParts) -> Result<Config, Memory>
        requires { is_valid parts ≡ true }
        ensures { IfOk result (λ c. c ≡ parts) }
    {
        match valid_above(alloc, &parts) {
            Ok(above) => Ok(Config { parts, above }),
            Err(fault) => Err(fault),
        }
    }

    /// The parts. Whoever asks may rely on the rules of configurations.
    pub fn parts(&self) -> &ConfigParts
        ensures parts { result.now ≡ self.now }
        ensures valid { IsTrue (is_valid self.now) }
        ensures config { IsTrue (is_config self.now) }
    {
        &self.parts
    }

    /// How many levels there are.
    pub fn level_count(&self) -> usize
        ensures { result ≡ length self.now.levels }
    {
        self.parts.levels.len()
    }

    /// The type of a level.
    pub fn kind(&self, level: usize) -> LevelKind
        requires { level < length self.now.levels }
        ensures { option_map (λ d. d.kind) (slice_get self.now.levels level) ≡ Some result }
    {
        self.parts.levels.get(level).kind
    }

    /// The number of the level of this name.
    pub fn level_named(&self, name: &str) -> Option<usize>
        ensures named { result ≡ level_named name.now self.now.levels }
        ensures within { IfSome result (λ level. level < length self.now.levels) }
    {
        level_named(self.parts.levels.as_slice(), name)
    }

    /// What a name stands for: an attribute, else a level, which stands for its first attribute.
    pub fn name_place(&self, name: &str) -> Option<AttributePlace>
        ensures place { result ≡ name_place name.now self.now.levels }
        ensures there { IfSome result (λ place. IsSome (attribute_at place self.now.levels)) }
    {
        name_place(self.parts.levels.as_slice(), name)
    }

    /// The place of the attribute of this name among those of a level.
    pub fn attribute_in(&self, level: usize, name: &str) -> Option<usize>
        requires { level < length self.now.levels }
        ensures { result ≡ option_and_then (λ d. attribute_named name.now d.attributes)
            (slice_get self.now.levels level) }
    {
        attribute_named(self.parts.levels.get(level).attributes.as_slice(), name)
    }

    /// How many attributes a level has.
    pub fn attribute_count(&self, level: usize) -> usize
        requires { level < length self.now.levels }
        ensures { option_map (λ d. length d.attributes) (slice_get self.now.levels level)
            ≡ Some result }
    {
        self.parts.levels.get(level).attributes.len()
    }

    /// Whether edits may set this label: it is empty, or the attribute lists no legal labels, or it is
    /// among them.
    pub fn is_legal(&self, place: AttributePlace, label: &str) -> bool
        requires { IsSome (attribute_at place self.now.levels) }
        ensures { option_map (is_legal_for label.now) (attribute_at place self.now.levels)
            ≡ Some result }
    {
        self.parts
            .levels
            .get(place.level)
            .attributes
            .get(place.attribute)
            .is_legal(label)
    }

    /// The values of the label group that a name stands for at an attribute, whose own groups come
    /// before those of the database. Of groups with one name in a list the first counts.
    pub fn group(&self, place: AttributePlace, name: &str) -> Option<&GroupValues>
        requires { IsSome (attribute_at place self.now.levels) }
        ensures { Some (option_map (λ v. v.now) result)
            ≡ option_map (λ a. group_values name.now a.groups self.now.groups)
            (attribute_at place self.now.levels) }
    {
        let def = self
            .parts
            .levels
            .get(place.level)
            .attributes
            .get(place.attribute);
        match values_named(def.groups.as_slice(), name) {
            Some(values) => Some(values),
            None => values_named(self.parts.groups.as_slice(), name),
        }
    }

    /// The number of the link definition that leads from the one level to the other.
    pub fn link_definition(&self, upper: usize, lower: usize) -> Option<u32>
        ensures { result ≡ position (leads upper lower) self.now.links }
    {
        let place = definition_leading(self.parts.links.as_slice(), upper, lower)?;
        Some(place as u32)
    }

    /// The type of a link definition.
    pub fn link_kind(&self, definition: u32) -> LinkKind
        requires { definition < length self.now.links }
        ensures { option_map (λ d. d.kind) (slice_get self.now.links definition) ≡ Some result }
    {
        self.parts.links.get(definition as usize).kind
    }

    /// Whether a path of one or more link definitions leads from the one level down to the other.
    pub fn is_above(&self, upper: usize, lower: usize) -> bool
        requires upper { upper < length self.now.levels }
        requires lower { lower < length self.now.levels }
        ensures { result ≡ is_above self.now.links upper lower }
    {
        entry(
            &self.above,
            self.parts.links.as_slice(),
            self.parts.levels.len(),
            upper,
            lower,
        )
    }

    /// The same configuration again. The only refusal is want of memory.
    pub fn copy(&self, alloc: Global) -> Result<Config, Memory>
        ensures { IfOk result (λ made. made ≡ self.now) }
    {
        let count = self.parts.levels.len();
        let above = rows_of(alloc, self.parts.links.as_slice(), count)?;
        let parts = self.parts.copy(alloc)?;
        Ok(Config { parts, above })
    }
}

/// Which level is above which in parts that keep all rules. The only refusal is want of memory.
fn valid_above(alloc: Global, parts: &ConfigParts) -> Result<Rows, Memory>
    requires { is_valid parts.now ≡ true }
    ensures { IfOk result (λ rows. IsKept parts.now rows) }
{
    parts_are(parts);
    rows_of(alloc, parts.links.as_slice(), parts.levels.len())
}

/// Which level is above which in parts that keep all other rules. `NotValid` comes exactly where a path
/// of link definitions leads from a level to itself.
fn kept_rows(alloc: Global, parts: &ConfigParts) -> Result<Rows, PartsFault>
    requires { keeps_rules parts.now ≡ true }
    ensures rows { IfOk result (λ rows. IsKept parts.now rows) }
    ensures valid { IfOk result (λ _. leads_round parts.now.links ≡ false) }
    ensures not_valid { result ≡ Err PartsFault.NotValid → leads_round parts.now.links ≡ true }
{
    parts_are(parts);
    let count = parts.levels.len();
    let above = rows_of(alloc, parts.links.as_slice(), count)?;
    if leads_round(&above, parts.links.as_slice(), count) {
        return Err(PartsFault::NotValid);
    }
    Ok(above)
}

/// Which level is above which in these parts. `NotValid` comes exactly where they break a rule of
/// configurations.
fn valid_rows(alloc: Global, parts: &ConfigParts) -> Result<Rows, PartsFault>
    ensures rows { IfOk result (λ rows. IsKept parts.now rows) }
    ensures not_valid { result ≡ Err PartsFault.NotValid → is_valid parts.now ≡ false }
{
    if keeps_rules(alloc, parts)? {
        kept_rows(alloc, parts)
    } else {
        Err(PartsFault::NotValid)
    }
}

impl PlainData for Config {
    fn copy(&self, alloc: Global) -> Result<Config, Memory> {
        Config::copy(self, alloc)
    }
}
