//! The names that rows show.
ghost use Rattle.std.specs.Prelude.{◌≡◌, ◌<◌, IfOk};
ghost use Rattle.eql_rows.specs.Inner.Names.{AreNames};
ghost use Rattle.eql_rows.specs.Rows.{attribute_name, kind_of, level_name};

use crate::span::Span;
use bundle_state::Bundle;
use db_config::Config;
use emu_names::{LevelKind, Memory, Text};
use std::alloc::Global;

/// The name of a level; empty where there is no such level.
pub fn level_name(config: &Config, level: usize) -> &str
    ensures { result.now ≡ level_name config.now level }
{
    match config.parts().levels.as_slice().get(level) {
        Some(def) => def.name.as_str(),
        None => "",
    }
}

/// The name of an attribute of a level; empty where there is no such attribute.
pub fn attribute_name(config: &Config, level: usize, attribute: usize) -> &str
    ensures { result.now ≡ attribute_name config.now level attribute }
{
    match config.parts().levels.as_slice().get(level) {
        Some(def) => match def.attributes.as_slice().get(attribute) {
            Some(def) => def.name.as_str(),
            None => "",
        },
        None => "",
    }
}

/// The type of a level; ITEM where there is no such level.
pub fn kind_of(config: &Config, level: usize) -> LevelKind
    ensures { result ≡ kind_of config.now level }
{
    match config.parts().levels.as_slice().get(level) {
        Some(def) => def.kind,
        None => LevelKind::Item,
    }
}

/// The names that rows of results on a level show: of the session, the bundle, the level and one of the level's
/// attributes, by its number.
#[derive(Drop)]
pub struct RowNames {
    /// The session.
    pub session: Text,
    /// The bundle.
    pub bundle: Text,
    /// The level.
    pub level: Text,
    /// The attribute.
    pub attribute: Text,
    /// The place of the attribute among those of the level, counted from 0.
    pub number: u32,
}

/// A name as a text, which shares the bytes of a text that says the same, as the first attribute of a level has the
/// level's name for the most part. The only refusal is want of memory.
fn text_like(alloc: Global, text: &Text, name: &str) -> Result<Text, Memory>
    ensures { IfOk result (λ made. made ≡ name.now) }
{
    if text.as_str() == name {
        text.copy(alloc)
    } else {
        Text::new(alloc, name)
    }
}

/// The names of rows of results on a level, with that of the level's attribute of this number, counted from 0. The
/// only refusal is want of memory.
///
/// Those of the session and of the bundle share the bundle's bytes. Those of the level and of the attribute do not
/// share the configuration's: several threads that make rows would count their owners at one place.
pub fn names_of(
    alloc: Global,
    config: &Config,
    bundle: &Bundle,
    level: usize,
    number: u32,
) -> Result<RowNames, Memory>
    ensures { IfOk result (AreNames config.now bundle.now level) }
{
    let session = bundle.key().session.to_text()?;
    let name = bundle.key().bundle.to_text()?;
    let level_text = Text::new(alloc, level_name(config, level))?;
    let attribute = text_like(
        alloc,
        &level_text,
        attribute_name(config, level, number as usize),
    )?;
    Ok(RowNames {
        session,
        bundle: name,
        level: level_text,
        attribute,
        number,
    })
}

/// The name of the attribute that a result shows. It shares its bytes with the one that is there, where it is that
/// one. The only refusal is want of memory.
pub(crate) fn attribute_of(
    alloc: Global,
    config: &Config,
    names: &RowNames,
    span: Span,
) -> Result<Text, Memory>
    requires { names.now.attribute ≡ attribute_name config.now span.level names.now.number }
    ensures { IfOk result (λ made. made ≡ attribute_name config.now span.level span.attribute) }
{
    if span.attribute == names.number {
        names.attribute.copy(alloc)
    } else {
        let name = attribute_name(config, span.level as usize, span.attribute as usize);
        Text::new(alloc, name)
    }
}
