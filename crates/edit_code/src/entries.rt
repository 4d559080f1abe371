//! The codes of acts and entries: how many bytes they have, how they are written, and how they are read.
ghost use Rattle.std.specs.Prelude.{◌≡◌, ◌<◌, ◌^◌, ◌++◌, length, min, true, IfOk, OnOk};
ghost use Rattle.edit_code.specs.declared.kinds.Body.TheVariants as bodies;
ghost use Rattle.edit_code.specs.Edits.{act_form, body_form, body_of, entry_form};
ghost use Rattle.edit_code.specs.Fields.{edit_of};
ghost use Rattle.edit_code.specs.Inner.Acts.{ActFits, act_code};
ghost use Rattle.edit_code.specs.Inner.Reading.{GivesIf, IsMadeOne};
ghost use Rattle.edit_code.specs.Names.{is_act, is_entry};

use crate::additions::{addition_size, put_addition, read_addition};
use crate::edits::{edit_of, edit_size, put_edit};
use crate::fields::{Fields, read_fields};
use crate::kinds::{Body, Kind};
use crate::lists::{put_several, read_several, several_size};
use crate::tags::{Tag, read_tag};
use byte_forms::{CODE_LIMIT, CodeBytes, ReadFault, Rest};
use edit_rules::{Act, Edits, Entry};
use emu_names::{Memory, SessionNo};
use std::alloc::Global;
use value_codes::{Coded, RawKey, Readable, key_in};

/// The body that a list of edits has.
fn body_of_edits(edits: &Edits) -> Body
    ensures { result ≡ body_of (Act.Edits edits.now) }
{
    if edits.len() == 1 {
        return Body::One;
    }
    Body::Several
}

/// The body that an act has.
fn body_of(act: &Act) -> Body
    ensures { result ≡ body_of act.now }
{
    match act {
        Act::Edits(edits) => body_of_edits(edits),
        Act::Config(_) => Body::Config,
    }
}

/// How many bytes a list of edits has behind its first byte, or 2^32 where it has as many or more.
fn edits_size(edits: &Edits) -> u64
    ensures len { result ≡ min (2 ^ 32) (length (act_code (Act.Edits edits.now))) }
    ensures some { 0 < result }
    ensures fits { result < 2 ^ 32 → ActFits (Act.Edits edits.now) }
{
    if edits.len() == 1 {
        return edit_size(edits.get(0));
    }
    several_size(edits.get(0).key(), edits.as_slice())
}

/// Writes a list of edits behind its first byte. The only refusal is want of memory.
fn put_edits(edits: &Edits, out: &mut CodeBytes) -> Result<(), Memory>
    ensures { OnOk result (out.new ≡ out.old ++ act_code (Act.Edits edits.now)) }
{
    if edits.len() == 1 {
        return put_edit(edits.get(0), out);
    }
    put_several(edits.get(0).key(), edits.as_slice(), out)
}

/// How many bytes an act has behind the first byte of its entry, or 2^32 where it has as many or more.
#[tactic(auto, unfolding(byte_forms::specs::Parts::imaged))]
fn act_size(act: &Act) -> u64
    ensures len { result ≡ min (2 ^ 32) (length (act_code act.now)) }
    ensures some { 0 < result }
    ensures fits { result < 2 ^ 32 → ActFits act.now }
{
    match act {
        Act::Edits(edits) => edits_size(edits),
        Act::Config(edit) => addition_size(edit),
    }
}

/// Writes an act behind the first byte of its entry. The only refusal is want of memory.
#[tactic(auto, unfolding(byte_forms::specs::Parts::imaged))]
fn put_act(act: &Act, out: &mut CodeBytes) -> Result<(), Memory>
    ensures { OnOk result (out.new ≡ out.old ++ act_code act.now) }
{
    match act {
        Act::Edits(edits) => put_edits(edits, out),
        Act::Config(edit) => put_addition(edit, out),
    }
}

/// How many bytes the code of an entry has, or 2^32 where it has as many or more. It takes no memory.
#[tactic(auto, using(crate::proofs::KindLaws::body_fits), unfolding(crate::specs::Edits::entry_form, crate::specs::Edits::body_form, crate::specs::Tags::tag_form, byte_forms::specs::Parts::led, byte_forms::specs::Parts::shaped, byte_forms::specs::Parts::pair))]
pub(crate) fn entry_size(entry: &Entry) -> u64
    ensures len { result ≡ min (2 ^ 32) (length (entry_form.code entry.now)) }
    ensures fits { result < 2 ^ 32 → entry_form.fits entry.now }
{
    (1 + entry.session.size() + entry.line.size() + act_size(&entry.act)).min(CODE_LIMIT)
}

/// Writes an entry. The only refusal is want of memory.
#[tactic(auto, unfolding(crate::specs::Edits::entry_form, crate::specs::Edits::body_form, crate::specs::Tags::tag_form, byte_forms::specs::Parts::led, byte_forms::specs::Parts::byte_in, byte_forms::specs::Parts::shaped, byte_forms::specs::Parts::pair))]
pub(crate) fn put_entry(entry: &Entry, out: &mut CodeBytes) -> Result<(), Memory>
    ensures { OnOk result (out.new ≡ out.old ++ entry_form.code entry.now) }
{
    out.put_byte(body_of(&entry.act).number())?;
    entry.session.put(out)?;
    entry.line.put(out)?;
    put_act(&entry.act, out)
}

/// The one edit of a key and fields that were read. It is none where the key is none.
fn one_in(alloc: Global, raw: &RawKey, fields: Fields) -> Result<Option<Act>, Memory>
    ensures { IfOk result (λ made. IsMadeOne raw.now fields made) }
{
    match key_in(alloc, raw)? {
        Some(key) => {
            let edits = Edits::one(alloc, edit_of(key, fields))?;
            Ok(Some(Act::Edits(edits)))
        }
        None => Ok(None),
    }
}

/// Reads one edit. It is none where its key is none.
fn read_one(alloc: Global, from: &mut Rest<'_>) -> Result<Option<Act>, ReadFault>
    ensures { GivesIf is_act result from.new ((act_form bodies.One).read from.old) }
{
    let kind: Kind = read_tag(from)?;
    let raw = RawKey::read(alloc, from)?;
    let fields = read_fields(alloc, kind, from)?;
    let made = one_in(alloc, &raw, fields)?;
    Ok(made)
}

/// Reads two or more edits. They are none where their key is none.
fn read_list(alloc: Global, from: &mut Rest<'_>) -> Result<Option<Act>, ReadFault>
    ensures { GivesIf is_act result from.new ((act_form bodies.Several).read from.old) }
{
    match read_several(alloc, from)? {
        Some(edits) => Ok(Some(Act::Edits(edits))),
        None => Ok(None),
    }
}

/// Reads an addition to the configuration. It is none where what is added is none.
fn read_config(alloc: Global, from: &mut Rest<'_>) -> Result<Option<Act>, ReadFault>
    ensures { GivesIf is_act result from.new ((act_form bodies.Config).read from.old) }
{
    match read_addition(alloc, from)? {
        Some(edit) => Ok(Some(Act::Config(edit))),
        None => Ok(None),
    }
}

/// Reads the act of a body.
fn read_act(alloc: Global, body: Body, from: &mut Rest<'_>) -> Result<Option<Act>, ReadFault>
    ensures { GivesIf is_act result from.new ((act_form body).read from.old) }
{
    match body {
        Body::One => read_one(alloc, from),
        Body::Several => read_list(alloc, from),
        Body::Config => read_config(alloc, from),
    }
}

/// Reads an entry behind its first byte. It is none where its act is none.
fn read_body(alloc: Global, body: Body, from: &mut Rest<'_>) -> Result<Option<Entry>, ReadFault>
    ensures { GivesIf is_entry result from.new ((body_form body).read from.old) }
{
    let session = SessionNo::read(alloc, from)?;
    let line = u32::read(alloc, from)?;
    match read_act(alloc, body, from)? {
        Some(act) => Ok(Some(Entry { session, line, act })),
        None => Ok(None),
    }
}

/// Reads an entry. It is none where a name in it is none, or what it adds to the configuration.
#[tactic(auto, unfolding(crate::specs::Edits::entry_form, byte_forms::specs::Parts::led))]
pub(crate) fn read_raw(alloc: Global, from: &mut Rest<'_>) -> Result<Option<Entry>, ReadFault>
    ensures { GivesIf is_entry result from.new (entry_form.read from.old) }
{
    let body: Body = read_tag(from)?;
    read_body(alloc, body, from)
}
