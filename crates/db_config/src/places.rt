//! What names stand for: levels, attributes and label groups.
ghost use Rattle.std.specs.Prelude.{◌≡◌, ◌<◌, IsSome, IfSome, option_map, length};
ghost use Rattle.std.specs.List.{position};
ghost use Rattle.db_config.specs.declared.parts.AttributePlace.{AttributePlace as Place};
ghost use Rattle.db_config.specs.Lookups.{level_named, attribute_named, attribute_from, attribute_at, name_place, place_of, values_named, leads};

use crate::attributes::AttributeDef;
use crate::groups::{GroupDef, GroupValues};
use crate::parts::{AttributePlace, LevelDef, LinkDef};

/// The number of the first level of this name.
pub fn level_named(levels: &[LevelDef], name: &str) -> Option<usize>
    ensures named { result ≡ level_named name.now levels.now }
    ensures within { IfSome result (λ level. level < length levels.now) }
{
    levels.iter().position(|def| def.name.as_str() == name)
}

/// The place of the attribute of this name.
pub(crate) fn attribute_named(defs: &[AttributeDef], name: &str) -> Option<usize>
    ensures named { result ≡ attribute_named name.now defs.now }
    ensures within { IfSome result (λ place. place < length defs.now) }
{
    defs.iter().position(|def| def.name.as_str() == name)
}

/// The first attribute of this name, on any of the levels.
fn attribute_anywhere(levels: &[LevelDef], name: &str) -> Option<AttributePlace>
    ensures place { result ≡ attribute_from 0 name.now levels.now }
    ensures there { IfSome result (λ place. IsSome (attribute_at place levels.now)) }
{
    for level in 0..levels.len() {
        if let Some(attribute) = attribute_named(levels[level].attributes.as_slice(), name) {
            return Some(AttributePlace { level, attribute });
        }
    }
    None
}

/// The place of the first attribute of a level.
fn first_of_level(levels: &[LevelDef], level: usize) -> AttributePlace
    requires { level < length levels.now }
    ensures place { result ≡ place_of level 0 }
    ensures there { IsSome (attribute_at result levels.now) }
{
    let _count = levels[level].attributes.len();
    AttributePlace {
        level,
        attribute: 0,
    }
}

/// What a name stands for: an attribute, else a level, which stands for its first attribute.
pub(crate) fn name_place(levels: &[LevelDef], name: &str) -> Option<AttributePlace>
    ensures place { result ≡ name_place name.now levels.now }
    ensures there { IfSome result (λ place. IsSome (attribute_at place levels.now)) }
{
    if let Some(place) = attribute_anywhere(levels, name) {
        return Some(place);
    }
    let level = level_named(levels, name)?;
    Some(first_of_level(levels, level))
}

/// The values of the first label group of this name.
pub(crate) fn values_named<'a>(groups: &'a [GroupDef], name: &str) -> Option<&'a GroupValues>
    ensures { option_map (λ v. v.now) result ≡ values_named name.now groups.now }
{
    for group in groups {
        if group.name.as_str() == name {
            return Some(&group.values);
        }
    }
    None
}

/// The place of the definition that leads from the one level to the other.
pub(crate) fn definition_leading(links: &[LinkDef], upper: usize, lower: usize) -> Option<usize>
    ensures { result ≡ position (leads upper lower) links.now }
{
    links.iter().position(|def| def.upper as usize == upper && def.lower as usize == lower)
}
