//! The codes of edits: how many bytes they have, how they are written, and how they are read.
ghost use Rattle.std.specs.Prelude.{◌≡◌, ◌<◌, ◌^◌, ◌++◌, length, min, true, IfOk, OnOk};
ghost use Rattle.bundle_edits.specs.Edits.{key_of};
ghost use Rattle.edit_rules.specs.Inner.Acts.{is_edit_of, is_inner};
ghost use Rattle.byte_forms.specs.Inner.Reading.{Gives};
ghost use Rattle.edit_code.specs.Edits.{edit_form, inner_form, told_form};
ghost use Rattle.edit_code.specs.Fields.{edit_of, fields_form, fields_of, kind_of};
ghost use Rattle.edit_code.specs.Kinds.{inner_kinds, kind_number};
ghost use Rattle.edit_code.specs.Inner.Reading.{or_left};
ghost use Rattle.edit_code.specs.Tags.{kind_at, tag_form};

use crate::fields::{Fields, read_fields};
use crate::kinds::Kind;
use crate::tags::{Tag, read_tag};
use byte_forms::{CODE_LIMIT, CodeBytes, ReadFault, Rest};
use edit_rules::Edit;
use emu_names::{BundleKey, Memory};
use std::alloc::Global;
use value_codes::{Coded, put_both, put_three, size_of_both, size_of_three};

/// The kind of an edit.
fn kind_of(edit: &Edit) -> Kind
    ensures { result ≡ kind_of (fields_of edit.now) }
{
    match edit {
        Edit::AddBundle { .. } => Kind::AddBundle,
        Edit::DropBundle { .. } => Kind::DropBundle,
        Edit::AddItem { .. } => Kind::AddItem,
        Edit::RemoveItem { .. } => Kind::RemoveItem,
        Edit::SetLabel { .. } => Kind::SetLabel,
        Edit::SetSegment { .. } => Kind::SetSegment,
        Edit::MoveBoundary { .. } => Kind::MoveBoundary,
        Edit::SetPoint { .. } => Kind::SetPoint,
        Edit::Split { .. } => Kind::Split,
        Edit::Merge { .. } => Kind::Merge,
        Edit::AddLink { .. } => Kind::AddLink,
        Edit::RemoveLink { .. } => Kind::RemoveLink,
        Edit::LinkTimes { .. } => Kind::LinkTimes,
        Edit::PutItem { .. } => Kind::PutItem,
        Edit::PutLabel { .. } => Kind::PutLabel,
        Edit::PutLink { .. } => Kind::PutLink,
    }
}

/// How many bytes the fields behind the key have, or 2^32 where they have as many or more.
#[tactic(auto, unfolding(byte_forms::specs::Parts::imaged, byte_forms::specs::Parts::just))]
fn fields_size(edit: &Edit) -> u64
    ensures len { result
        ≡ min (2 ^ 32) (length ((fields_form (kind_of (fields_of edit.now))).code (fields_of edit.now))) }
    ensures fits { result < 2 ^ 32 → (fields_form (kind_of (fields_of edit.now))).fits (fields_of edit.now) }
{
    match edit {
        Edit::AddBundle { annot, .. } => annot.size(),
        Edit::DropBundle { .. } => 0,
        Edit::AddItem {
            level,
            position,
            item,
            ..
        }
        | Edit::PutItem {
            level,
            position,
            item,
            ..
        } => size_of_three(level, position, item),
        Edit::RemoveItem { id, .. } | Edit::Merge { id, .. } => id.size(),
        Edit::SetLabel {
            id,
            attribute,
            label,
            ..
        }
        | Edit::PutLabel {
            id,
            attribute,
            label,
            ..
        } => size_of_three(id, attribute, label),
        Edit::SetSegment { id, start, dur, .. } => size_of_three(id, start, dur),
        Edit::MoveBoundary { id, start, .. } => size_of_both(id, start),
        Edit::SetPoint { id, at, .. } => size_of_both(id, at),
        Edit::Split {
            id,
            new_id,
            start,
            ..
        } => size_of_three(id, new_id, start),
        Edit::AddLink { from, to, .. } | Edit::RemoveLink { from, to, .. } => size_of_both(
            from, to,
        ),
        Edit::LinkTimes { upper, lower, .. } => size_of_both(upper, lower),
        Edit::PutLink {
            from,
            to,
            place,
            ..
        } => size_of_three(from, to, place),
    }
}

/// Writes the fields behind the key. The only refusal is want of memory.
#[tactic(auto, unfolding(byte_forms::specs::Parts::imaged, byte_forms::specs::Parts::just))]
fn put_fields(edit: &Edit, out: &mut CodeBytes) -> Result<(), Memory>
    ensures { OnOk result
        (out.new ≡ out.old ++ (fields_form (kind_of (fields_of edit.now))).code (fields_of edit.now)) }
{
    match edit {
        Edit::AddBundle { annot, .. } => annot.put(out),
        Edit::DropBundle { .. } => Ok(()),
        Edit::AddItem {
            level,
            position,
            item,
            ..
        }
        | Edit::PutItem {
            level,
            position,
            item,
            ..
        } => put_three(level, position, item, out),
        Edit::RemoveItem { id, .. } | Edit::Merge { id, .. } => id.put(out),
        Edit::SetLabel {
            id,
            attribute,
            label,
            ..
        }
        | Edit::PutLabel {
            id,
            attribute,
            label,
            ..
        } => put_three(id, attribute, label, out),
        Edit::SetSegment { id, start, dur, .. } => put_three(id, start, dur, out),
        Edit::MoveBoundary { id, start, .. } => put_both(id, start, out),
        Edit::SetPoint { id, at, .. } => put_both(id, at, out),
        Edit::Split {
            id,
            new_id,
            start,
            ..
        } => put_three(id, new_id, start, out),
        Edit::AddLink { from, to, .. } | Edit::RemoveLink { from, to, .. } => put_both(
            from, to, out,
        ),
        Edit::LinkTimes { upper, lower, .. } => put_both(upper, lower, out),
        Edit::PutLink {
            from,
            to,
            place,
            ..
        } => put_three(from, to, place, out),
    }
}

/// How many bytes the code of an edit alone has, or 2^32 where it has as many or more. It takes no memory.
#[tactic(auto, using(crate::proofs::KindLaws::kind_fits), unfolding(crate::specs::Edits::edit_form, crate::specs::Edits::keyed_form, crate::specs::Tags::tag_form, byte_forms::specs::Parts::led, byte_forms::specs::Parts::shaped, byte_forms::specs::Parts::pair))]
pub(crate) fn edit_size(edit: &Edit) -> u64
    ensures len { result ≡ min (2 ^ 32) (length (edit_form.code edit.now)) }
    ensures some { 0 < result }
    ensures fits { result < 2 ^ 32 → edit_form.fits edit.now }
{
    (1 + edit.key().size() + fields_size(edit)).min(CODE_LIMIT)
}

/// Writes an edit alone. The only refusal is want of memory.
#[tactic(auto, unfolding(crate::specs::Edits::edit_form, crate::specs::Edits::keyed_form, crate::specs::Tags::tag_form, byte_forms::specs::Parts::led, byte_forms::specs::Parts::byte_in, byte_forms::specs::Parts::shaped, byte_forms::specs::Parts::pair))]
pub(crate) fn put_edit(edit: &Edit, out: &mut CodeBytes) -> Result<(), Memory>
    ensures { OnOk result (out.new ≡ out.old ++ edit_form.code edit.now) }
{
    out.put_byte(kind_of(edit).number())?;
    edit.key().put(out)?;
    put_fields(edit, out)
}

/// How many bytes the code of an edit of a list has, or 2^32 where it has as many or more. It takes no memory.
#[tactic(auto, using(crate::proofs::KindLaws::inner_fits), unfolding(crate::specs::Edits::told_form, crate::specs::Tags::tag_form, byte_forms::specs::Parts::led))]
pub(crate) fn told_size(edit: &Edit) -> u64
    requires { is_inner edit.now ≡ true }
    ensures len { result ≡ min (2 ^ 32) (length (told_form.code (fields_of edit.now))) }
    ensures some { 0 < result }
    ensures fits { result < 2 ^ 32 → told_form.fits (fields_of edit.now) }
{
    (1 + fields_size(edit)).min(CODE_LIMIT)
}

/// Writes an edit of a list, without its key. The only refusal is want of memory.
#[tactic(auto, unfolding(crate::specs::Edits::told_form, crate::specs::Tags::tag_form, byte_forms::specs::Parts::led, byte_forms::specs::Parts::byte_in))]
pub(crate) fn put_told(edit: &Edit, out: &mut CodeBytes) -> Result<(), Memory>
    ensures { OnOk result (out.new ≡ out.old ++ told_form.code (fields_of edit.now)) }
{
    out.put_byte(kind_of(edit).number())?;
    put_fields(edit, out)
}

/// The edit of a key and what stands behind it.
pub(crate) fn edit_of(key: BundleKey, fields: Fields) -> Edit
    ensures { result ≡ edit_of key fields }
{
    match fields {
        Fields::AddBundle { annot } => Edit::AddBundle { key, annot },
        Fields::DropBundle => Edit::DropBundle { key },
        Fields::AddItem {
            level,
            position,
            item,
        } => Edit::AddItem {
            key,
            level,
            position,
            item,
        },
        Fields::RemoveItem { id } => Edit::RemoveItem { key, id },
        Fields::SetLabel {
            id,
            attribute,
            label,
        } => Edit::SetLabel {
            key,
            id,
            attribute,
            label,
        },
        Fields::SetSegment { id, start, dur } => Edit::SetSegment {
            key,
            id,
            start,
            dur,
        },
        Fields::MoveBoundary { id, start } => Edit::MoveBoundary { key, id, start },
        Fields::SetPoint { id, at } => Edit::SetPoint { key, id, at },
        Fields::Split { id, new_id, start } => Edit::Split {
            key,
            id,
            new_id,
            start,
        },
        Fields::Merge { id } => Edit::Merge { key, id },
        Fields::AddLink { from, to } => Edit::AddLink { key, from, to },
        Fields::RemoveLink { from, to } => Edit::RemoveLink { key, from, to },
        Fields::LinkTimes { upper, lower } => Edit::LinkTimes { key, upper, lower },
        Fields::PutItem {
            level,
            position,
            item,
        } => Edit::PutItem {
            key,
            level,
            position,
            item,
        },
        Fields::PutLabel {
            id,
            attribute,
            label,
        } => Edit::PutLabel {
            key,
            id,
            attribute,
            label,
        },
        Fields::PutLink { from, to, place } => Edit::PutLink {
            key,
            from,
            to,
            place,
        },
    }
}

/// The kind, if its edits may stand beside others, or how many bytes are left from it.
fn inner_or(kind: Kind, left: usize) -> Result<Kind, ReadFault>
    ensures { result ≡ or_left left (kind_at inner_kinds kind_number (kind_number kind)) }
{
    match kind {
        Kind::AddBundle | Kind::DropBundle | Kind::LinkTimes => Err(ReadFault::Left(left)),
        _ => Ok(kind),
    }
}

/// Reads the byte of a kind of edits that may stand beside others.
fn read_inner_kind(from: &mut Rest<'_>) -> Result<Kind, ReadFault>
    ensures { Gives result from.new ((tag_form inner_kinds kind_number).read from.old) }
{
    let left = from.len();
    match read_tag(from) {
        Ok(kind) => inner_or(kind, left),
        Err(fault) => Err(fault),
    }
}

/// Reads the fields of an edit that may stand beside others, behind its number.
#[tactic(auto, unfolding(crate::specs::Edits::told_form, byte_forms::specs::Parts::led))]
pub(crate) fn read_told(alloc: Global, from: &mut Rest<'_>) -> Result<Fields, ReadFault>
    ensures { Gives result from.new (told_form.read from.old) }
{
    let kind = read_inner_kind(from)?;
    read_fields(alloc, kind, from)
}

/// Reads an edit of the bundle of a key that may stand beside others.
#[tactic(auto, unfolding(crate::specs::Edits::inner_form, byte_forms::specs::Parts::imaged))]
pub(crate) fn read_inner(
    alloc: Global,
    key: &BundleKey,
    from: &mut Rest<'_>,
) -> Result<Edit, ReadFault>
    ensures edit { Gives result from.new ((inner_form key.now).read from.old) }
    ensures inner { IfOk result (λ edit. is_edit_of key.now edit ≡ true) }
{
    let fields = read_told(alloc, from)?;
    let key = key.copy(alloc)?;
    Ok(edit_of(key, fields))
}
