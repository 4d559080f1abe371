//! The key of a bundle as it is read, before its parts are names.
ghost use Rattle.std.specs.Prelude.{◌≡◌, true, IfOk};
ghost use Rattle.byte_forms.specs.Forms.{Form};
ghost use Rattle.byte_forms.specs.Inner.Reading.{Gives};
ghost use Rattle.emu_names.specs.Name.{is_name};
ghost use Rattle.value_codes.specs.Annots.{key_form};
ghost use Rattle.value_codes.specs.Names.{is_key};
ghost use Rattle.value_codes.specs.Inner.Names.{if_so};

use crate::coded::Readable;
use byte_forms::{ReadFault, Rest};
use emu_names::{BundleKey, Memory, Name, NameFault, Text};
use std::alloc::Global;
use std::marker::Model;

/// Two texts that are a key where both are names. Contracts see the key.
#[derive(Drop)]
pub struct RawKey {
    session: Text,
    bundle: Text,
}

impl Model for RawKey {
    ghost use Rattle.emu_names.specs.declared.names.BundleKey.{BundleKey};

    ghost Value = { BundleKey };

    ghost view = { λ k. record { session = k.session; bundle = k.bundle } };
}

impl Readable for RawKey {
    ghost form = { key_form };

    #[tactic(auto, unfolding(crate::specs::Annots::key_form, byte_forms::specs::Parts::shaped))]
    fn read(alloc: Global, from: &mut Rest<'_>) -> Result<RawKey, ReadFault> {
        let (session, bundle) = Readable::read(alloc, from)?;
        Ok(RawKey { session, bundle })
    }
}

/// The name that a text is, if it is one. The only refusal is want of memory.
pub(crate) fn name_in(alloc: Global, text: &Text) -> Result<Option<Name>, Memory>
    ensures { IfOk result (λ made. made ≡ if_so is_name text.now) }
{
    match Name::new(alloc, text.as_str()) {
        Ok(name) => Ok(Some(name)),
        Err(NameFault::BadName) => Ok(None),
        Err(NameFault::Memory) => Err(Memory),
    }
}

/// The key, if both parts are names. The only refusal is want of memory.
pub fn key_in(alloc: Global, raw: &RawKey) -> Result<Option<BundleKey>, Memory>
    ensures { IfOk result (λ made. made ≡ if_so is_key raw.now) }
{
    let Some(session) = name_in(alloc, &raw.session)? else {
        return Ok(None);
    };
    let Some(bundle) = name_in(alloc, &raw.bundle)? else {
        return Ok(None);
    };
    Ok(Some(BundleKey { session, bundle }))
}

/// Both parts of a key are names: its type keeps that. It changes nothing.
pub fn key_is(key: &BundleKey)
    ensures { is_key key.now ≡ true }
{
    let _session = key.session.as_str();
    let _bundle = key.bundle.as_str();
}
