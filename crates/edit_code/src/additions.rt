//! The codes of additions to the configuration: how many bytes they have, how they are written, and how they are read.
ghost use Rattle.std.specs.Prelude.{◌≡◌, ◌<◌, ◌^◌, ◌++◌, length, min, IfOk, OnOk};
ghost use Rattle.db_config.specs.Made.{is_attribute, is_level};
ghost use Rattle.edit_rules.specs.declared.acts.ConfigEdit.TheVariants as edits;
ghost use Rattle.edit_code.specs.declared.kinds.Addition.TheVariants as additions;
ghost use Rattle.edit_code.specs.Additions.{addition_at, addition_form, addition_of};
ghost use Rattle.edit_code.specs.Inner.Reading.{GivesIf, IsMadeAs};
ghost use Rattle.edit_code.specs.Names.{is_addition};

use crate::kinds::Addition;
use crate::tags::{Tag, read_tag};
use byte_forms::{CODE_LIMIT, CodeBytes, ReadFault, Rest};
use edit_rules::ConfigEdit;
use emu_names::{LinkKind, Memory, Text};
use std::alloc::Global;
use value_codes::{
    Coded, RawAttribute, RawLevel, Readable, attribute_in, level_in, put_both, put_three,
    size_of_both, size_of_three,
};

/// What is added.
fn addition_of(edit: &ConfigEdit) -> Addition
    ensures { result ≡ addition_of edit.now }
{
    match edit {
        ConfigEdit::AddLevel { .. } => Addition::Level,
        ConfigEdit::AddAttribute { .. } => Addition::Attribute,
        ConfigEdit::AddLinkDefinition { .. } => Addition::Link,
    }
}

/// How many bytes the addition has behind its number, or 2^32 where it has as many or more. It takes no memory.
#[tactic(auto, unfolding(byte_forms::specs::Parts::imaged))]
fn parts_size(edit: &ConfigEdit) -> u64
    ensures len { result ≡ min (2 ^ 32) (length ((addition_at (addition_of edit.now)).code edit.now)) }
    ensures some { 0 < result }
    ensures fits { result < 2 ^ 32 → (addition_at (addition_of edit.now)).fits edit.now }
{
    match edit {
        ConfigEdit::AddLevel { level } => level.size(),
        ConfigEdit::AddAttribute { level, attribute } => size_of_both(level, attribute),
        ConfigEdit::AddLinkDefinition { kind, upper, lower } => size_of_three(kind, upper, lower),
    }
}

/// Writes the addition behind its number. The only refusal is want of memory.
#[tactic(auto, unfolding(byte_forms::specs::Parts::imaged))]
fn put_parts(edit: &ConfigEdit, out: &mut CodeBytes) -> Result<(), Memory>
    ensures { OnOk result (out.new ≡ out.old ++ (addition_at (addition_of edit.now)).code edit.now) }
{
    match edit {
        ConfigEdit::AddLevel { level } => level.put(out),
        ConfigEdit::AddAttribute { level, attribute } => put_both(level, attribute, out),
        ConfigEdit::AddLinkDefinition { kind, upper, lower } => put_three(kind, upper, lower, out),
    }
}

/// How many bytes the code of an addition has, or 2^32 where it has as many or more. It takes no memory.
#[tactic(auto, using(crate::proofs::KindLaws::addition_fits), unfolding(crate::specs::Additions::addition_form, crate::specs::Tags::tag_form, byte_forms::specs::Parts::led))]
pub(crate) fn addition_size(edit: &ConfigEdit) -> u64
    ensures len { result ≡ min (2 ^ 32) (length (addition_form.code edit.now)) }
    ensures some { 0 < result }
    ensures fits { result < 2 ^ 32 → addition_form.fits edit.now }
{
    (1 + parts_size(edit)).min(CODE_LIMIT)
}

/// Writes an addition. The only refusal is want of memory.
#[tactic(auto, unfolding(crate::specs::Additions::addition_form, crate::specs::Tags::tag_form, byte_forms::specs::Parts::led, byte_forms::specs::Parts::byte_in))]
pub(crate) fn put_addition(edit: &ConfigEdit, out: &mut CodeBytes) -> Result<(), Memory>
    ensures { OnOk result (out.new ≡ out.old ++ addition_form.code edit.now) }
{
    out.put_byte(addition_of(edit).number())?;
    put_parts(edit, out)
}

/// The addition of a level that was read. It is none where its name is none or its lists are too short or too long.
fn level_made(alloc: Global, raw: &RawLevel) -> Result<Option<ConfigEdit>, Memory>
    ensures { IfOk result (λ made. IsMadeAs is_level edits.AddLevel raw.now made) }
{
    match level_in(alloc, raw)? {
        Some(level) => Ok(Some(ConfigEdit::AddLevel { level })),
        None => Ok(None),
    }
}

/// Reads a level that is added.
fn read_level(alloc: Global, from: &mut Rest<'_>) -> Result<Option<ConfigEdit>, ReadFault>
    ensures { GivesIf is_addition result from.new ((addition_at additions.Level).read from.old) }
{
    let raw = RawLevel::read(alloc, from)?;
    let made = level_made(alloc, &raw)?;
    Ok(made)
}

/// The addition of an attribute that was read. It is none where its name is none or its lists are too long.
fn attribute_made(
    alloc: Global,
    level: Text,
    raw: &RawAttribute,
) -> Result<Option<ConfigEdit>, Memory>
    ensures { IfOk result (λ made. IsMadeAs is_attribute (λ def. edits.AddAttribute level def) raw.now made) }
{
    match attribute_in(alloc, raw)? {
        Some(attribute) => Ok(Some(ConfigEdit::AddAttribute { level, attribute })),
        None => Ok(None),
    }
}

/// Reads the name of a level and an attribute that is added.
fn read_attribute(alloc: Global, from: &mut Rest<'_>) -> Result<Option<ConfigEdit>, ReadFault>
    ensures { GivesIf is_addition result from.new ((addition_at additions.Attribute).read from.old) }
{
    let level = Text::read(alloc, from)?;
    let raw = RawAttribute::read(alloc, from)?;
    let made = attribute_made(alloc, level, &raw)?;
    Ok(made)
}

/// Reads the type of a link definition that is added, and the names of its levels.
#[tactic(auto, unfolding(byte_forms::specs::Parts::imaged))]
fn read_link(alloc: Global, from: &mut Rest<'_>) -> Result<Option<ConfigEdit>, ReadFault>
    ensures { GivesIf is_addition result from.new ((addition_at additions.Link).read from.old) }
{
    let (kind, (upper, lower)) = <(LinkKind, (Text, Text))>::read(alloc, from)?;
    Ok(Some(ConfigEdit::AddLinkDefinition { kind, upper, lower }))
}

/// Reads what stands behind the number of an addition.
fn read_parts(
    alloc: Global,
    addition: Addition,
    from: &mut Rest<'_>,
) -> Result<Option<ConfigEdit>, ReadFault>
    ensures { GivesIf is_addition result from.new ((addition_at addition).read from.old) }
{
    match addition {
        Addition::Level => read_level(alloc, from),
        Addition::Attribute => read_attribute(alloc, from),
        Addition::Link => read_link(alloc, from),
    }
}

/// Reads an addition. It is none where what is added breaks the rules of such parts by themselves.
#[tactic(auto, unfolding(crate::specs::Additions::addition_form, byte_forms::specs::Parts::led))]
pub(crate) fn read_addition(
    alloc: Global,
    from: &mut Rest<'_>,
) -> Result<Option<ConfigEdit>, ReadFault>
    ensures { GivesIf is_addition result from.new (addition_form.read from.old) }
{
    let addition: Addition = read_tag(from)?;
    read_parts(alloc, addition, from)
}
