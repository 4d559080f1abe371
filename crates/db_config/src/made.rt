//! What the types of the parts of a configuration keep: names are names, and lists have their lengths.
ghost use Rattle.std.specs.Prelude.{◌≡◌, true};
ghost use Rattle.std.specs.List.{list_all};
ghost use Rattle.db_config.specs.Made.{are_attributes, are_groups, is_attribute, is_group, is_legal_list, is_level, is_made};

use crate::attributes::{AttributeDef, AttributeDefs};
use crate::groups::{GroupDef, GroupDefs, GroupValues};
use crate::parts::{ConfigParts, LevelDef};

/// A label group has few enough values.
fn group_is(def: &GroupDef)
    ensures { is_group def.now ≡ true }
{
    let _count = def.values.len();
}

/// Each of the label groups has few enough values.
fn each_group(defs: &[GroupDef])
    ensures { list_all is_group defs.now ≡ true }
{
    for def in defs {
        group_is(def);
    }
}

/// Label groups are few enough, and each of them has few enough values.
fn groups_are(defs: &GroupDefs)
    ensures { are_groups defs.now ≡ true }
{
    let _count = defs.len();
    each_group(defs.as_slice());
}

/// Legal labels are few enough, where there are some.
fn legal_is(legal: &Option<GroupValues>)
    ensures { is_legal_list legal.now ≡ true }
{
    if let Some(values) = legal {
        let _count = values.len();
    }
}

/// An attribute has a name, and its lists are short enough: its type keeps that. It changes nothing.
pub fn attribute_is(def: &AttributeDef)
    ensures { is_attribute def.now ≡ true }
{
    let _name = def.name.as_str();
    legal_is(&def.legal);
    groups_are(&def.groups);
}

/// Each of the attributes is one.
fn each_attribute(defs: &[AttributeDef])
    ensures { list_all is_attribute defs.now ≡ true }
{
    for def in defs {
        attribute_is(def);
    }
}

/// There are some attributes, and few enough, and each of them is one.
fn attributes_are(defs: &AttributeDefs)
    ensures { are_attributes defs.now ≡ true }
{
    let _count = defs.len();
    each_attribute(defs.as_slice());
}

/// A level has a name, and attributes, which are such: its type keeps that. It changes nothing.
pub fn level_is(def: &LevelDef)
    ensures { is_level def.now ≡ true }
{
    let _name = def.name.as_str();
    attributes_are(&def.attributes);
}

/// Each of the levels is one.
fn each_level(defs: &[LevelDef])
    ensures { list_all is_level defs.now ≡ true }
{
    for def in defs {
        level_is(def);
    }
}

/// The names of parts are names, and their lists have their lengths.
pub(crate) fn parts_are(parts: &ConfigParts)
    ensures { is_made parts.now ≡ true }
{
    let _name = parts.name.as_str();
    each_level(parts.levels.as_slice());
    groups_are(&parts.groups);
}
