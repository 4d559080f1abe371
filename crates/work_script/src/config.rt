//! The configuration of the script of work.
ghost use Rattle.std.specs.Prelude.{◌≡◌, true, IfOk};
ghost use Rattle.emu_names.specs.Name.{is_name};
ghost use Rattle.work_script.specs.Script.{level_of, work_config};

use db_config::{
    AttributeDef, AttributeDefs, Config, ConfigParts, GroupDefs, LevelDef, LevelDefs, LinkDef,
    LinkDefs, PartsFault,
};
use emu_names::{LevelKind, LinkKind, Memory, Name, NameFault, Series, Text};
use std::alloc::Global;

/// The name of this text, which is one. The only refusal is want of memory.
pub(crate) fn name_of(alloc: Global, text: &str) -> Result<Name, Memory>
    requires { is_name text.now ≡ true }
    ensures { IfOk result (λ made. made ≡ text.now) }
{
    match Name::new(alloc, text) {
        Ok(name) => Ok(name),
        Err(NameFault::Memory) => Err(Memory),
        Err(NameFault::BadName) => unreachable!(),
    }
}

/// A level with one attribute of its name. The only refusal is want of memory.
fn level_of(alloc: Global, name: &str, kind: LevelKind) -> Result<LevelDef, Memory>
    requires { is_name name.now ≡ true }
    ensures { IfOk result (λ made. made ≡ level_of name.now kind) }
{
    let attribute = AttributeDef {
        name: name_of(alloc, name)?,
        legal: None,
        groups: GroupDefs::new(alloc),
    };
    Ok(LevelDef {
        name: name_of(alloc, name)?,
        kind,
        attributes: AttributeDefs::one(alloc, attribute)?,
    })
}

/// The levels: the words above the segments. The only refusal is want of memory.
fn levels(alloc: Global) -> Result<LevelDefs, Memory>
    ensures { IfOk result (λ made. made ≡ work_config.levels) }
{
    let mut levels = Series::new(alloc);
    levels.push(level_of(alloc, "Word", LevelKind::Item)?)?;
    levels.push(level_of(alloc, "Phonetic", LevelKind::Segment)?)?;
    Ok(levels)
}

/// The link definition from words to segments. The only refusal is want of memory.
fn links(alloc: Global) -> Result<LinkDefs, Memory>
    ensures { IfOk result (λ made. made ≡ work_config.links) }
{
    let mut links = Series::new(alloc);
    links.push(LinkDef {
        kind: LinkKind::OneToMany,
        upper: 0,
        lower: 1,
    })?;
    Ok(links)
}

/// The parts of the configuration. The only refusal is want of memory.
fn parts(alloc: Global) -> Result<ConfigParts, Memory>
    ensures { IfOk result (λ made. made ≡ work_config) }
{
    Ok(ConfigParts {
        name: name_of(alloc, "work")?,
        uuid: Text::new(alloc, "")?,
        extension: Text::new(alloc, "")?,
        tracks: Series::new(alloc),
        levels: levels(alloc)?,
        groups: GroupDefs::new(alloc),
        links: links(alloc)?,
    })
}

/// The configuration: the ITEM level Word above the SEGMENT level Phonetic, by ONE_TO_MANY. The only refusal is
/// want of memory.
pub(crate) fn work_config(alloc: Global) -> Result<Config, Memory>
    ensures { IfOk result (λ made. made ≡ work_config) }
{
    match Config::new(alloc, parts(alloc)?) {
        Ok(config) => Ok(config),
        Err(PartsFault::Memory) => Err(Memory),
        Err(PartsFault::NotValid) => unreachable!(),
    }
}
