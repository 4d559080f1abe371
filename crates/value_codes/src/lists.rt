//! The codes of lists, and of values that may be there.
ghost use Rattle.std.specs.Prelude.{◌≡◌, ◌<◌, ◌^◌, ◌++◌, length, min, OnOk};
ghost use Rattle.byte_forms.specs.Forms.{Form};
ghost use Rattle.byte_forms.specs.Lists.{items_at, items_code, list_of};
ghost use Rattle.byte_forms.specs.Parts.{option_of};
ghost use Rattle.byte_forms.specs.Inner.Reading.{Gives};

use crate::coded::{Coded, Readable};
use byte_forms::{CODE_LIMIT, CodeBytes, ReadFault, Rest};
use emu_names::{Memory, Series};
use std::alloc::Global;

/// How many bytes the code of a list has, or 2^32 where it has as many or more.
#[tactic(auto, unfolding(byte_forms::specs::Lists::list_of, byte_forms::specs::Lists::times, byte_forms::specs::Parts::led, byte_forms::specs::Parts::u32_form))]
pub(crate) fn list_size<T: Coded>(items: &[T]) -> u64
    ensures len { result ≡ min (2 ^ 32) (length ((list_of T.form).code items.now)) }
    ensures some { 0 < result }
    ensures fits { result < 2 ^ 32 → (list_of T.form).fits items.now }
{
    let mut size = 4u64;
    for item in items {
        size = (size + item.size()).min(CODE_LIMIT);
    }
    size
}

/// Writes a list: how many elements there are, and the elements. The only refusal is want of memory.
#[tactic(auto, unfolding(byte_forms::specs::Lists::list_of, byte_forms::specs::Lists::times, byte_forms::specs::Parts::led))]
pub(crate) fn put_list<T: Coded>(items: &[T], out: &mut CodeBytes) -> Result<(), Memory>
    ensures { OnOk result (out.new ≡ out.old ++ (list_of T.form).code items.now) }
{
    out.put_count(items.len())?;
    put_items(items, out)
}

/// Writes elements one behind another. The only refusal is want of memory.
fn put_items<T: Coded>(items: &[T], out: &mut CodeBytes) -> Result<(), Memory>
    ensures { OnOk result (out.new ≡ out.old ++ items_code T.form items.now) }
{
    for item in items {
        item.put(out)?;
    }
    Ok(())
}

/// Reads so many elements. Their list grows with them, since the bytes may end before.
fn read_items<T: Readable>(
    alloc: Global,
    count: u32,
    from: &mut Rest<'_>,
) -> Result<Series<T>, ReadFault>
    ensures { Gives result from.new (items_at T.form count from.old) }
{
    let mut items = Series::new(alloc);
    for _place in 0..count {
        match T::read(alloc, from) {
            Ok(item) => items.push(item)?,
            Err(fault) => return Err(fault),
        }
    }
    Ok(items)
}

impl<T: Coded> Coded for Series<T> {
    ghost form = { list_of T.form };

    fn size(&self) -> u64 {
        list_size(self.as_slice())
    }

    fn put(&self, out: &mut CodeBytes) -> Result<(), Memory> {
        put_list(self.as_slice(), out)
    }
}

impl<T: Readable> Readable for Series<T> {
    ghost form = { list_of T.form };

    #[tactic(auto, unfolding(byte_forms::specs::Lists::list_of, byte_forms::specs::Lists::times, byte_forms::specs::Parts::led))]
    fn read(alloc: Global, from: &mut Rest<'_>) -> Result<Series<T>, ReadFault> {
        let count = from.read_u32()?;
        read_items(alloc, count, from)
    }
}

impl<T: Coded> Coded for Option<T> {
    ghost form = { option_of T.form };

    #[tactic(auto, unfolding(byte_forms::specs::Parts::option_of, byte_forms::specs::Parts::led, byte_forms::specs::Parts::byte_in, byte_forms::specs::Parts::just, byte_forms::specs::Parts::imaged))]
    fn size(&self) -> u64 {
        match self {
            None => 1,
            Some(value) => (1 + value.size()).min(CODE_LIMIT),
        }
    }

    #[tactic(auto, unfolding(byte_forms::specs::Parts::option_of, byte_forms::specs::Parts::led, byte_forms::specs::Parts::byte_in, byte_forms::specs::Parts::just, byte_forms::specs::Parts::imaged))]
    fn put(&self, out: &mut CodeBytes) -> Result<(), Memory> {
        match self {
            None => out.put_byte(0),
            Some(value) => {
                out.put_byte(1)?;
                value.put(out)
            }
        }
    }
}

impl<T: Readable> Readable for Option<T> {
    ghost form = { option_of T.form };

    #[tactic(auto, unfolding(byte_forms::specs::Parts::option_of, byte_forms::specs::Parts::led, byte_forms::specs::Parts::just, byte_forms::specs::Parts::imaged))]
    fn read(alloc: Global, from: &mut Rest<'_>) -> Result<Option<T>, ReadFault> {
        let there = from.read_byte_below(2)?;
        if there == 0 {
            return Ok(None);
        }
        let value = T::read(alloc, from)?;
        Ok(Some(value))
    }
}
