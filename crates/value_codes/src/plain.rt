//! The codes of numbers, texts, names, ids, keys and kinds.
ghost use Rattle.std.specs.Prelude.{◌≡◌, ◌<◌, ◌^◌, ◌++◌, length, min, OnOk};
ghost use Rattle.byte_forms.specs.Forms.{Form};
ghost use Rattle.byte_forms.specs.Parts.{u32_form, u64_form};
ghost use Rattle.byte_forms.specs.Inner.Reading.{Gives};
ghost use Rattle.byte_forms.specs.Utf8.{text_form};
ghost use Rattle.value_codes.specs.Annots.{id_form, key_form, level_kind_form, level_kind_at, session_form, time_form};
ghost use Rattle.value_codes.specs.Heads.{link_kind_form, link_kind_at};

use crate::coded::{Coded, Readable, put_both, size_of_both};
use byte_forms::{CODE_LIMIT, CodeBytes, ReadFault, Rest, text_size};
use emu_names::{BundleKey, ItemId, LevelKind, LinkKind, Memory, Name, SessionNo, Text};
use level_items::Time;
use std::alloc::Global;

impl Coded for u32 {
    ghost form = { u32_form };

    #[tactic(auto, unfolding(byte_forms::specs::Parts::u32_form))]
    fn size(&self) -> u64 {
        let _value = *self;
        4
    }

    fn put(&self, out: &mut CodeBytes) -> Result<(), Memory> {
        out.put_u32(*self)
    }
}

impl Readable for u32 {
    ghost form = { u32_form };

    fn read(_alloc: Global, from: &mut Rest<'_>) -> Result<u32, ReadFault> {
        from.read_u32()
    }
}

impl Coded for u64 {
    ghost form = { u64_form };

    #[tactic(auto, unfolding(byte_forms::specs::Parts::u64_form))]
    fn size(&self) -> u64 {
        let _value = *self;
        8
    }

    fn put(&self, out: &mut CodeBytes) -> Result<(), Memory> {
        out.put_u64(*self)
    }
}

impl Readable for u64 {
    ghost form = { u64_form };

    fn read(_alloc: Global, from: &mut Rest<'_>) -> Result<u64, ReadFault> {
        from.read_u64()
    }
}

impl Coded for Text {
    ghost form = { text_form };

    fn size(&self) -> u64 {
        text_size(self.as_str())
    }

    fn put(&self, out: &mut CodeBytes) -> Result<(), Memory> {
        out.put_text(self.as_str())
    }
}

impl Readable for Text {
    ghost form = { text_form };

    fn read(alloc: Global, from: &mut Rest<'_>) -> Result<Text, ReadFault> {
        from.read_text(alloc)
    }
}

impl Coded for Name {
    ghost form = { text_form };

    fn size(&self) -> u64 {
        text_size(self.as_str())
    }

    fn put(&self, out: &mut CodeBytes) -> Result<(), Memory> {
        out.put_text(self.as_str())
    }
}

impl Coded for ItemId {
    ghost form = { id_form };

    #[tactic(auto, unfolding(crate::specs::Annots::id_form, byte_forms::specs::Parts::shaped))]
    fn size(&self) -> u64 {
        self.0.size()
    }

    #[tactic(auto, unfolding(crate::specs::Annots::id_form, byte_forms::specs::Parts::shaped))]
    fn put(&self, out: &mut CodeBytes) -> Result<(), Memory> {
        out.put_u32(self.0)
    }
}

impl Readable for ItemId {
    ghost form = { id_form };

    #[tactic(auto, unfolding(crate::specs::Annots::id_form, byte_forms::specs::Parts::shaped))]
    fn read(_alloc: Global, from: &mut Rest<'_>) -> Result<ItemId, ReadFault> {
        let number = from.read_u32()?;
        Ok(ItemId(number))
    }
}

impl Coded for SessionNo {
    ghost form = { session_form };

    #[tactic(auto, unfolding(crate::specs::Annots::session_form, byte_forms::specs::Parts::shaped))]
    fn size(&self) -> u64 {
        self.0.size()
    }

    #[tactic(auto, unfolding(crate::specs::Annots::session_form, byte_forms::specs::Parts::shaped))]
    fn put(&self, out: &mut CodeBytes) -> Result<(), Memory> {
        out.put_u32(self.0)
    }
}

impl Readable for SessionNo {
    ghost form = { session_form };

    #[tactic(auto, unfolding(crate::specs::Annots::session_form, byte_forms::specs::Parts::shaped))]
    fn read(_alloc: Global, from: &mut Rest<'_>) -> Result<SessionNo, ReadFault> {
        let number = from.read_u32()?;
        Ok(SessionNo(number))
    }
}

impl Coded for BundleKey {
    ghost form = { key_form };

    #[tactic(auto, unfolding(crate::specs::Annots::key_form, byte_forms::specs::Parts::shaped))]
    fn size(&self) -> u64 {
        size_of_both(&self.session, &self.bundle)
    }

    #[tactic(auto, unfolding(crate::specs::Annots::key_form, byte_forms::specs::Parts::shaped))]
    fn put(&self, out: &mut CodeBytes) -> Result<(), Memory> {
        put_both(&self.session, &self.bundle, out)
    }
}

/// The kind of levels at a place among the kinds.
#[tactic(auto, using(crate::proofs::KindPlaces::last_level_kind))]
fn level_kind_at(place: u8) -> LevelKind
    ensures { result ≡ level_kind_at place }
{
    match place {
        0 => LevelKind::Item,
        1 => LevelKind::Segment,
        _ => LevelKind::Event,
    }
}

impl Coded for LevelKind {
    ghost form = { level_kind_form };

    #[tactic(auto, unfolding(crate::specs::Annots::level_kind_form, byte_forms::specs::Parts::led, byte_forms::specs::Parts::byte_in, byte_forms::specs::Parts::just))]
    fn size(&self) -> u64 {
        match self {
            LevelKind::Item | LevelKind::Segment | LevelKind::Event => 1,
        }
    }

    #[tactic(auto, unfolding(crate::specs::Annots::level_kind_form, byte_forms::specs::Parts::led, byte_forms::specs::Parts::byte_in, byte_forms::specs::Parts::just))]
    fn put(&self, out: &mut CodeBytes) -> Result<(), Memory> {
        match self {
            LevelKind::Item => out.put_byte(0),
            LevelKind::Segment => out.put_byte(1),
            LevelKind::Event => out.put_byte(2),
        }
    }
}

impl Readable for LevelKind {
    ghost form = { level_kind_form };

    #[tactic(auto, unfolding(crate::specs::Annots::level_kind_form, byte_forms::specs::Parts::led, byte_forms::specs::Parts::just))]
    fn read(_alloc: Global, from: &mut Rest<'_>) -> Result<LevelKind, ReadFault> {
        let place = from.read_byte_below(3)?;
        Ok(level_kind_at(place))
    }
}

/// The kind of link definitions at a place among the kinds.
#[tactic(auto, using(crate::proofs::KindPlaces::last_link_kind))]
fn link_kind_at(place: u8) -> LinkKind
    ensures { result ≡ link_kind_at place }
{
    match place {
        0 => LinkKind::OneToOne,
        1 => LinkKind::OneToMany,
        _ => LinkKind::ManyToMany,
    }
}

impl Coded for LinkKind {
    ghost form = { link_kind_form };

    #[tactic(auto, unfolding(crate::specs::Heads::link_kind_form, byte_forms::specs::Parts::led, byte_forms::specs::Parts::byte_in, byte_forms::specs::Parts::just))]
    fn size(&self) -> u64 {
        match self {
            LinkKind::OneToOne | LinkKind::OneToMany | LinkKind::ManyToMany => 1,
        }
    }

    #[tactic(auto, unfolding(crate::specs::Heads::link_kind_form, byte_forms::specs::Parts::led, byte_forms::specs::Parts::byte_in, byte_forms::specs::Parts::just))]
    fn put(&self, out: &mut CodeBytes) -> Result<(), Memory> {
        match self {
            LinkKind::OneToOne => out.put_byte(0),
            LinkKind::OneToMany => out.put_byte(1),
            LinkKind::ManyToMany => out.put_byte(2),
        }
    }
}

impl Readable for LinkKind {
    ghost form = { link_kind_form };

    #[tactic(auto, unfolding(crate::specs::Heads::link_kind_form, byte_forms::specs::Parts::led, byte_forms::specs::Parts::just))]
    fn read(_alloc: Global, from: &mut Rest<'_>) -> Result<LinkKind, ReadFault> {
        let place = from.read_byte_below(3)?;
        Ok(link_kind_at(place))
    }
}

impl Coded for Time {
    ghost form = { time_form };

    #[tactic(auto, unfolding(crate::specs::Annots::time_form, byte_forms::specs::Parts::led, byte_forms::specs::Parts::byte_in, byte_forms::specs::Parts::just, byte_forms::specs::Parts::imaged))]
    fn size(&self) -> u64 {
        match self {
            Time::NoTime => 1,
            Time::Span { start, dur } => (1 + size_of_both(start, dur)).min(CODE_LIMIT),
            Time::Point { at } => (1 + at.size()).min(CODE_LIMIT),
        }
    }

    #[tactic(auto, unfolding(crate::specs::Annots::time_form, byte_forms::specs::Parts::led, byte_forms::specs::Parts::byte_in, byte_forms::specs::Parts::just, byte_forms::specs::Parts::imaged))]
    fn put(&self, out: &mut CodeBytes) -> Result<(), Memory> {
        match self {
            Time::NoTime => out.put_byte(0),
            Time::Span { start, dur } => {
                out.put_byte(1)?;
                put_both(start, dur, out)
            }
            Time::Point { at } => {
                out.put_byte(2)?;
                at.put(out)
            }
        }
    }
}

impl Readable for Time {
    ghost form = { time_form };

    #[tactic(auto, unfolding(crate::specs::Annots::time_form, byte_forms::specs::Parts::led, byte_forms::specs::Parts::just, byte_forms::specs::Parts::imaged))]
    fn read(alloc: Global, from: &mut Rest<'_>) -> Result<Time, ReadFault> {
        let tag = from.read_byte_below(3)?;
        if tag == 0 {
            return Ok(Time::NoTime);
        }
        if tag == 1 {
            let (start, dur) = <(u64, u64)>::read(alloc, from)?;
            return Ok(Time::Span { start, dur });
        }
        let at = from.read_u64()?;
        Ok(Time::Point { at })
    }
}
