//! The codes of lists of edits of one bundle: how many bytes they have, how they are written, and how they are read.
ghost use Rattle.std.specs.Prelude.{◌≡◌, ◌≤◌, ◌<◌, ◌^◌, ◌++◌, length, min, true, OnOk};
ghost use Rattle.std.specs.List.{list_all};
ghost use Rattle.emu_names.specs.declared.limits.TheConstants.{LIST_EDITS};
ghost use Rattle.emu_names.specs.declared.names.BundleKey.{BundleKey as Key};
ghost use Rattle.edit_rules.specs.Inner.Acts.{is_edit_of};
ghost use Rattle.byte_forms.specs.Inner.Reading.{Gives};
ghost use Rattle.byte_forms.specs.Lists.{items_code, list_of, times};
ghost use Rattle.edit_code.specs.Edits.{first_key, inner_form, several_form};
ghost use Rattle.edit_code.specs.Inner.Reading.{GivesIf, Skips};
ghost use Rattle.value_codes.specs.Names.{is_key};

use crate::edits::{put_told, read_inner, read_told, told_size};
use byte_forms::{CODE_LIMIT, CodeBytes, ReadFault, Rest};
use edit_rules::{Edit, Edits};
use emu_names::{BundleKey, Memory};
use std::alloc::Global;
use value_codes::{Coded, RawKey, Readable, key_in, read_count};

/// How many bytes the count and the edits of a list have, or 2^32 where they have as many or more. It takes no memory.
fn inner_size(edits: &[Edit]) -> u64
    requires { list_all (is_edit_of (first_key edits.now)) edits.now ≡ true }
    ensures len { result ≡ min (2 ^ 32) (length ((list_of (inner_form (first_key edits.now))).code edits.now)) }
    ensures some { 0 < result }
    ensures fits { result < 2 ^ 32 → (list_of (inner_form (first_key edits.now))).fits edits.now }
{
    let mut size = 4u64;
    for edit in edits {
        size = (size + told_size(edit)).min(CODE_LIMIT);
    }
    size
}

/// Writes the edits of a list one behind another, without their key. The only refusal is want of memory.
fn put_inner(edits: &[Edit], out: &mut CodeBytes) -> Result<(), Memory>
    ensures { OnOk result (out.new ≡ out.old ++ items_code (inner_form (first_key edits.now)) edits.now) }
{
    for edit in edits {
        put_told(edit, out)?;
    }
    Ok(())
}

/// How many bytes the code of two or more edits has, or 2^32 where it has as many or more. It takes no memory.
pub(crate) fn several_size(key: &BundleKey, edits: &[Edit]) -> u64
    requires key { key.now ≡ first_key edits.now }
    requires several { 2 ≤ length edits.now }
    requires few { length edits.now ≤ LIST_EDITS }
    requires together { list_all (is_edit_of (first_key edits.now)) edits.now ≡ true }
    ensures len { result ≡ min (2 ^ 32) (length (several_form.code edits.now)) }
    ensures some { 0 < result }
    ensures fits { result < 2 ^ 32 → several_form.fits edits.now }
{
    (key.size() + inner_size(edits)).min(CODE_LIMIT)
}

/// Writes two or more edits. The only refusal is want of memory.
#[tactic(auto, unfolding(crate::specs::Edits::several_form, value_codes::specs::Counts::count_form, byte_forms::specs::Lists::times, byte_forms::specs::Parts::led, byte_forms::specs::Parts::u32_form))]
pub(crate) fn put_several(
    key: &BundleKey,
    edits: &[Edit],
    out: &mut CodeBytes,
) -> Result<(), Memory>
    requires { key.now ≡ first_key edits.now }
    ensures { OnOk result (out.new ≡ out.old ++ several_form.code edits.now) }
{
    key.put(out)?;
    out.put_count(edits.len())?;
    put_inner(edits, out)
}

/// Reads so many edits of the bundle of a key.
fn read_edits(
    alloc: Global,
    key: &BundleKey,
    count: u32,
    from: &mut Rest<'_>,
) -> Result<Edits, ReadFault>
    requires some { 1 ≤ count }
    requires few { count ≤ LIST_EDITS }
    ensures { Gives result from.new ((times (inner_form key.now) count).read from.old) }
{
    let first = read_inner(alloc, key, from)?;
    let mut edits = Edits::one(alloc, first)?;
    for _place in 1..count {
        match read_inner(alloc, key, from) {
            Ok(edit) => edits.push(edit)?,
            Err(fault) => return Err(fault),
        }
    }
    Ok(edits)
}

/// Passes over so many edits, since their key is none.
fn skip_edits(alloc: Global, count: u32, from: &mut Rest<'_>) -> Result<(), ReadFault>
    ensures { (key : Key) → Skips result from.new ((times (inner_form key) count).read from.old) }
{
    for _place in 0..count {
        read_told(alloc, from)?;
    }
    Ok(())
}

/// Reads two or more edits. They are none where their key is none.
pub(crate) fn read_several(alloc: Global, from: &mut Rest<'_>) -> Result<Option<Edits>, ReadFault>
    ensures { GivesIf (λ edits. is_key (first_key edits)) result from.new (several_form.read from.old) }
{
    let raw = RawKey::read(alloc, from)?;
    let count = read_count(from)?;
    match key_in(alloc, &raw)? {
        Some(key) => {
            let edits = read_edits(alloc, &key, count, from)?;
            Ok(Some(edits))
        }
        None => {
            skip_edits(alloc, count, from)?;
            Ok(None)
        }
    }
}
