//! The codes of configurations: how many bytes they have, and how they are written.
ghost use Rattle.std.specs.Prelude.{◌≡◌, ◌<◌, ◌^◌, ◌++◌, length, min, OnOk};
ghost use Rattle.byte_forms.specs.Forms.{Form};
ghost use Rattle.byte_forms.specs.Lists.{list_of};
ghost use Rattle.byte_forms.specs.Utf8.{text_form};
ghost use Rattle.value_codes.specs.Heads.{attribute_form, group_form, head_form, level_def_form, link_def_form};

use crate::coded::{Coded, put_both, put_three, size_of_both, size_of_three};
use crate::lists::{list_size, put_list};
use byte_forms::{CODE_LIMIT, CodeBytes};
use db_config::{
    AttributeDef, AttributeDefs, ConfigParts, GroupDef, GroupDefs, GroupValues, LevelDef, LinkDef,
};
use emu_names::Memory;

impl Coded for GroupValues {
    ghost form = { list_of text_form };

    fn size(&self) -> u64 {
        list_size(self.as_slice())
    }

    fn put(&self, out: &mut CodeBytes) -> Result<(), Memory> {
        put_list(self.as_slice(), out)
    }
}

impl Coded for GroupDef {
    ghost form = { group_form };

    #[tactic(auto, unfolding(crate::specs::Heads::group_form, byte_forms::specs::Parts::shaped))]
    fn size(&self) -> u64 {
        size_of_both(&self.name, &self.values)
    }

    #[tactic(auto, unfolding(crate::specs::Heads::group_form, byte_forms::specs::Parts::shaped))]
    fn put(&self, out: &mut CodeBytes) -> Result<(), Memory> {
        put_both(&self.name, &self.values, out)
    }
}

impl Coded for GroupDefs {
    ghost form = { list_of group_form };

    fn size(&self) -> u64 {
        list_size(self.as_slice())
    }

    fn put(&self, out: &mut CodeBytes) -> Result<(), Memory> {
        put_list(self.as_slice(), out)
    }
}

impl Coded for AttributeDef {
    ghost form = { attribute_form };

    #[tactic(auto, unfolding(crate::specs::Heads::attribute_form, byte_forms::specs::Parts::shaped))]
    fn size(&self) -> u64 {
        size_of_three(&self.name, &self.legal, &self.groups)
    }

    #[tactic(auto, unfolding(crate::specs::Heads::attribute_form, byte_forms::specs::Parts::shaped))]
    fn put(&self, out: &mut CodeBytes) -> Result<(), Memory> {
        put_three(&self.name, &self.legal, &self.groups, out)
    }
}

impl Coded for AttributeDefs {
    ghost form = { list_of attribute_form };

    fn size(&self) -> u64 {
        list_size(self.as_slice())
    }

    fn put(&self, out: &mut CodeBytes) -> Result<(), Memory> {
        put_list(self.as_slice(), out)
    }
}

impl Coded for LevelDef {
    ghost form = { level_def_form };

    #[tactic(auto, unfolding(crate::specs::Heads::level_def_form, byte_forms::specs::Parts::shaped))]
    fn size(&self) -> u64 {
        size_of_three(&self.name, &self.kind, &self.attributes)
    }

    #[tactic(auto, unfolding(crate::specs::Heads::level_def_form, byte_forms::specs::Parts::shaped))]
    fn put(&self, out: &mut CodeBytes) -> Result<(), Memory> {
        put_three(&self.name, &self.kind, &self.attributes, out)
    }
}

impl Coded for LinkDef {
    ghost form = { link_def_form };

    #[tactic(auto, unfolding(crate::specs::Heads::link_def_form, byte_forms::specs::Parts::shaped))]
    fn size(&self) -> u64 {
        size_of_three(&self.kind, &self.upper, &self.lower)
    }

    #[tactic(auto, unfolding(crate::specs::Heads::link_def_form, byte_forms::specs::Parts::shaped))]
    fn put(&self, out: &mut CodeBytes) -> Result<(), Memory> {
        put_three(&self.kind, &self.upper, &self.lower, out)
    }
}

impl Coded for ConfigParts {
    ghost form = { head_form };

    #[tactic(auto, unfolding(crate::specs::Heads::head_form, crate::specs::Heads::parts_form, byte_forms::specs::Parts::shaped, byte_forms::specs::Parts::led, byte_forms::specs::Parts::byte_in, byte_forms::specs::Parts::pair))]
    fn size(&self) -> u64 {
        let texts = size_of_three(&self.name, &self.uuid, &self.extension);
        let lists = size_of_three(&self.levels, &self.groups, &self.links);
        (1 + texts + self.tracks.size() + lists).min(CODE_LIMIT)
    }

    #[tactic(auto, unfolding(crate::specs::Heads::head_form, crate::specs::Heads::parts_form, byte_forms::specs::Parts::shaped, byte_forms::specs::Parts::led, byte_forms::specs::Parts::byte_in, byte_forms::specs::Parts::pair))]
    fn put(&self, out: &mut CodeBytes) -> Result<(), Memory> {
        out.put_byte(0)?;
        put_three(&self.name, &self.uuid, &self.extension, out)?;
        self.tracks.put(out)?;
        put_three(&self.levels, &self.groups, &self.links, out)
    }
}
