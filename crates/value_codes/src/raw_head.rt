//! The parts of a configuration as they are read, before its names are names and its lists are known to be short
//! enough. Contracts see the parts of the configuration.
ghost use Rattle.std.specs.Prelude.{◌≡◌};
ghost use Rattle.byte_forms.specs.Forms.{Form};
ghost use Rattle.byte_forms.specs.Inner.Reading.{Gives};
ghost use Rattle.value_codes.specs.Heads.{attribute_form, group_form, head_form, level_def_form, link_def_form};

use crate::coded::Readable;
use byte_forms::{ReadFault, Rest};
use db_config::{LinkDef, LinkDefs, TrackNames};
use emu_names::{LevelKind, Series, Text};
use std::alloc::Global;
use std::marker::Model;

/// Any number of texts.
pub(crate) type RawTexts = Series<Text>;

/// A label group with any number of values.
#[derive(Drop)]
pub(crate) struct RawGroup {
    pub(crate) name: Text,
    pub(crate) values: RawTexts,
}

impl Model for RawGroup {
    ghost use Rattle.db_config.specs.declared.groups.GroupDef.{GroupDef};

    ghost Value = { GroupDef };

    ghost view = { λ g. record { name = g.name; values = g.values } };
}

/// An attribute whose name need not be one, with any number of label groups.
#[derive(Drop)]
pub struct RawAttribute {
    pub(crate) name: Text,
    pub(crate) legal: Option<RawTexts>,
    pub(crate) groups: Series<RawGroup>,
}

impl Model for RawAttribute {
    ghost use Rattle.db_config.specs.declared.attributes.AttributeDef.{AttributeDef};

    ghost Value = { AttributeDef };

    ghost view = { λ a. record { name = a.name; legal = a.legal; groups = a.groups } };
}

/// A level whose name need not be one, with any number of attributes.
#[derive(Drop)]
pub struct RawLevel {
    pub(crate) name: Text,
    pub(crate) kind: LevelKind,
    pub(crate) attributes: Series<RawAttribute>,
}

impl Model for RawLevel {
    ghost use Rattle.db_config.specs.declared.parts.LevelDef.{LevelDef};

    ghost Value = { LevelDef };

    ghost view = { λ l. record { name = l.name; kind = l.kind; attributes = l.attributes } };
}

/// A configuration whose names need not be names, with lists of any length.
#[derive(Drop)]
pub struct RawParts {
    pub(crate) name: Text,
    pub(crate) uuid: Text,
    pub(crate) extension: Text,
    pub(crate) tracks: TrackNames,
    pub(crate) levels: Series<RawLevel>,
    pub(crate) groups: Series<RawGroup>,
    pub(crate) links: LinkDefs,
}

impl Model for RawParts {
    ghost use Rattle.db_config.specs.declared.parts.ConfigParts.{ConfigParts};

    ghost Value = { ConfigParts };

    ghost view = { λ c. record {
      name = c.name;
      uuid = c.uuid;
      extension = c.extension;
      tracks = c.tracks;
      levels = c.levels;
      groups = c.groups;
      links = c.links;
    } };
}

impl Readable for RawGroup {
    ghost form = { group_form };

    #[tactic(auto, unfolding(crate::specs::Heads::group_form, byte_forms::specs::Parts::shaped))]
    fn read(alloc: Global, from: &mut Rest<'_>) -> Result<RawGroup, ReadFault> {
        let (name, values) = Readable::read(alloc, from)?;
        Ok(RawGroup { name, values })
    }
}

impl Readable for RawAttribute {
    ghost form = { attribute_form };

    #[tactic(auto, unfolding(crate::specs::Heads::attribute_form, byte_forms::specs::Parts::shaped))]
    fn read(alloc: Global, from: &mut Rest<'_>) -> Result<RawAttribute, ReadFault> {
        let (name, (legal, groups)) = Readable::read(alloc, from)?;
        Ok(RawAttribute {
            name,
            legal,
            groups,
        })
    }
}

impl Readable for RawLevel {
    ghost form = { level_def_form };

    #[tactic(auto, unfolding(crate::specs::Heads::level_def_form, byte_forms::specs::Parts::shaped))]
    fn read(alloc: Global, from: &mut Rest<'_>) -> Result<RawLevel, ReadFault> {
        let (name, (kind, attributes)) = Readable::read(alloc, from)?;
        Ok(RawLevel {
            name,
            kind,
            attributes,
        })
    }
}

impl Readable for LinkDef {
    ghost form = { link_def_form };

    #[tactic(auto, unfolding(crate::specs::Heads::link_def_form, byte_forms::specs::Parts::shaped))]
    fn read(alloc: Global, from: &mut Rest<'_>) -> Result<LinkDef, ReadFault> {
        let (kind, (upper, lower)) = Readable::read(alloc, from)?;
        Ok(LinkDef { kind, upper, lower })
    }
}

impl Readable for RawParts {
    ghost form = { head_form };

    #[tactic(auto, unfolding(crate::specs::Heads::head_form, crate::specs::Heads::parts_form, byte_forms::specs::Parts::led, byte_forms::specs::Parts::shaped))]
    fn read(alloc: Global, from: &mut Rest<'_>) -> Result<RawParts, ReadFault> {
        from.read_byte_is(0)?;
        let (name, (uuid, (extension, (tracks, (levels, (groups, links)))))) = Readable::read(
            alloc, from,
        )?;
        Ok(RawParts {
            name,
            uuid,
            extension,
            tracks,
            levels,
            groups,
            links,
        })
    }
}
