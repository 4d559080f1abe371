//! The codes of annotations.
ghost use Rattle.std.specs.Prelude.{◌≡◌, ◌<◌, ◌^◌, ◌++◌, length, min, OnOk};
ghost use Rattle.byte_forms.specs.Forms.{Form};
ghost use Rattle.byte_forms.specs.Inner.Reading.{Gives};
ghost use Rattle.value_codes.specs.Annots.{annot_form, item_form, label_form, level_form, link_form};

use crate::coded::{Coded, Readable, put_both, put_three, size_of_both, size_of_three};
use byte_forms::{CODE_LIMIT, CodeBytes, ReadFault, Rest};
use emu_names::Memory;
use level_items::{Annot, AnnotItem, AnnotLabel, AnnotLevel, AnnotLink};
use std::alloc::Global;

impl Coded for AnnotLabel {
    ghost form = { label_form };

    #[tactic(auto, unfolding(crate::specs::Annots::label_form, byte_forms::specs::Parts::shaped))]
    fn size(&self) -> u64 {
        size_of_both(&self.name, &self.value)
    }

    #[tactic(auto, unfolding(crate::specs::Annots::label_form, byte_forms::specs::Parts::shaped))]
    fn put(&self, out: &mut CodeBytes) -> Result<(), Memory> {
        put_both(&self.name, &self.value, out)
    }
}

impl Readable for AnnotLabel {
    ghost form = { label_form };

    #[tactic(auto, unfolding(crate::specs::Annots::label_form, byte_forms::specs::Parts::shaped))]
    fn read(alloc: Global, from: &mut Rest<'_>) -> Result<AnnotLabel, ReadFault> {
        let (name, value) = Readable::read(alloc, from)?;
        Ok(AnnotLabel { name, value })
    }
}

impl Coded for AnnotItem {
    ghost form = { item_form };

    #[tactic(auto, unfolding(crate::specs::Annots::item_form, byte_forms::specs::Parts::shaped))]
    fn size(&self) -> u64 {
        size_of_three(&self.id, &self.time, &self.labels)
    }

    #[tactic(auto, unfolding(crate::specs::Annots::item_form, byte_forms::specs::Parts::shaped))]
    fn put(&self, out: &mut CodeBytes) -> Result<(), Memory> {
        put_three(&self.id, &self.time, &self.labels, out)
    }
}

impl Readable for AnnotItem {
    ghost form = { item_form };

    #[tactic(auto, unfolding(crate::specs::Annots::item_form, byte_forms::specs::Parts::shaped))]
    fn read(alloc: Global, from: &mut Rest<'_>) -> Result<AnnotItem, ReadFault> {
        let (id, (time, labels)) = Readable::read(alloc, from)?;
        Ok(AnnotItem { id, time, labels })
    }
}

impl Coded for AnnotLevel {
    ghost form = { level_form };

    #[tactic(auto, unfolding(crate::specs::Annots::level_form, byte_forms::specs::Parts::shaped))]
    fn size(&self) -> u64 {
        size_of_three(&self.name, &self.kind, &self.items)
    }

    #[tactic(auto, unfolding(crate::specs::Annots::level_form, byte_forms::specs::Parts::shaped))]
    fn put(&self, out: &mut CodeBytes) -> Result<(), Memory> {
        put_three(&self.name, &self.kind, &self.items, out)
    }
}

impl Readable for AnnotLevel {
    ghost form = { level_form };

    #[tactic(auto, unfolding(crate::specs::Annots::level_form, byte_forms::specs::Parts::shaped))]
    fn read(alloc: Global, from: &mut Rest<'_>) -> Result<AnnotLevel, ReadFault> {
        let (name, (kind, items)) = Readable::read(alloc, from)?;
        Ok(AnnotLevel { name, kind, items })
    }
}

impl Coded for AnnotLink {
    ghost form = { link_form };

    #[tactic(auto, unfolding(crate::specs::Annots::link_form, byte_forms::specs::Parts::shaped))]
    fn size(&self) -> u64 {
        size_of_both(&self.from, &self.to)
    }

    #[tactic(auto, unfolding(crate::specs::Annots::link_form, byte_forms::specs::Parts::shaped))]
    fn put(&self, out: &mut CodeBytes) -> Result<(), Memory> {
        put_both(&self.from, &self.to, out)
    }
}

impl Readable for AnnotLink {
    ghost form = { link_form };

    #[tactic(auto, unfolding(crate::specs::Annots::link_form, byte_forms::specs::Parts::shaped))]
    fn read(alloc: Global, from: &mut Rest<'_>) -> Result<AnnotLink, ReadFault> {
        let (upper, lower) = Readable::read(alloc, from)?;
        Ok(AnnotLink {
            from: upper,
            to: lower,
        })
    }
}

impl Coded for Annot {
    ghost form = { annot_form };

    #[tactic(auto, unfolding(crate::specs::Annots::annot_form, byte_forms::specs::Parts::shaped, byte_forms::specs::Parts::pair))]
    fn size(&self) -> u64 {
        let lists = size_of_both(&self.levels, &self.links);
        (self.annotates.size() + self.rate.size() + lists).min(CODE_LIMIT)
    }

    #[tactic(auto, unfolding(crate::specs::Annots::annot_form, byte_forms::specs::Parts::shaped, byte_forms::specs::Parts::pair))]
    fn put(&self, out: &mut CodeBytes) -> Result<(), Memory> {
        put_both(&self.annotates, &self.rate, out)?;
        put_both(&self.levels, &self.links, out)
    }
}

impl Readable for Annot {
    ghost form = { annot_form };

    #[tactic(auto, unfolding(crate::specs::Annots::annot_form, byte_forms::specs::Parts::shaped))]
    fn read(alloc: Global, from: &mut Rest<'_>) -> Result<Annot, ReadFault> {
        let (annotates, (rate, (levels, links))) = Readable::read(alloc, from)?;
        Ok(Annot {
            annotates,
            rate,
            levels,
            links,
        })
    }
}
