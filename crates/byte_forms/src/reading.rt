//! How numbers and texts are read from their bytes.
ghost use Rattle.std.specs.Prelude.{◌≡◌, ◌<◌, ◌≤◌, length, take, IfOk, IsUtf8, MatchOption};
ghost use Rattle.byte_forms.specs.Parts.{u32_form, u64_form, byte_below, byte_from_to, byte_is};
ghost use Rattle.byte_forms.specs.Inner.Reading.{Gives};
ghost use Rattle.byte_forms.specs.Utf8.{text_form, utf8_form};

use crate::rest::{ReadFault, Rest};
use crate::utf8::left_at_fault;
use emu_names::Text;
use std::alloc::Global;
use std::str;

/// The text of the first bytes, where there are so many and they are UTF-8.
fn text_in(bytes: &[u8], len: usize) -> Option<&str>
    ensures { MatchOption result
        (len ≤ length bytes.now → IsUtf8 (take len bytes.now) → ⊥)
        (λ text. (len ≤ length bytes.now) × (text.now ≡ take len bytes.now) × IsUtf8 (take len bytes.now)) }
{
    if bytes.len() < len {
        return None;
    }
    match str::from_utf8(&bytes[..len]) {
        Ok(text) => Some(text),
        Err(_) => None,
    }
}

impl Rest<'_> {
    /// Reads a byte that is below `count`.
    #[tactic(auto, unfolding(crate::specs::Parts::byte_in))]
    pub fn read_byte_below(&mut self, count: u8) -> Result<u8, ReadFault>
        ensures byte { Gives result self.new ((byte_below count).read self.old) }
        ensures below { IfOk result (λ byte. byte < count) }
    {
        match self.bytes {
            [byte, rest @ ..] => {
                let byte = *byte;
                if byte < count {
                    self.bytes = rest;
                    return Ok(byte);
                }
                Err(ReadFault::Left(self.bytes.len()))
            }
            [] => Err(ReadFault::Left(0)),
        }
    }

    /// Reads a byte that is `low` to `high`.
    #[tactic(auto, unfolding(crate::specs::Parts::byte_in))]
    pub fn read_byte_from_to(&mut self, low: u8, high: u8) -> Result<u8, ReadFault>
        ensures byte { Gives result self.new ((byte_from_to low high).read self.old) }
        ensures least { IfOk result (λ byte. low ≤ byte) }
        ensures most { IfOk result (λ byte. byte ≤ high) }
    {
        match self.bytes {
            [byte, rest @ ..] => {
                let byte = *byte;
                if low <= byte && byte <= high {
                    self.bytes = rest;
                    return Ok(byte);
                }
                Err(ReadFault::Left(self.bytes.len()))
            }
            [] => Err(ReadFault::Left(0)),
        }
    }

    /// Reads this byte.
    #[tactic(auto, unfolding(crate::specs::Parts::byte_in))]
    pub fn read_byte_is(&mut self, wanted: u8) -> Result<u8, ReadFault>
        ensures byte { Gives result self.new ((byte_is wanted).read self.old) }
        ensures same { IfOk result (λ byte. byte ≡ wanted) }
    {
        match self.bytes {
            [byte, rest @ ..] => {
                let byte = *byte;
                if byte == wanted {
                    self.bytes = rest;
                    return Ok(byte);
                }
                Err(ReadFault::Left(self.bytes.len()))
            }
            [] => Err(ReadFault::Left(0)),
        }
    }

    /// Reads a number of four bytes, the highest first.
    #[tactic(auto, unfolding(crate::specs::Parts::u32_form))]
    pub fn read_u32(&mut self) -> Result<u32, ReadFault>
        ensures { Gives result self.new (u32_form.read self.old) }
    {
        match self.bytes {
            [a, b, c, d, rest @ ..] => {
                let number = u32::from_be_bytes([*a, *b, *c, *d]);
                self.bytes = rest;
                Ok(number)
            }
            _ => Err(ReadFault::Left(0)),
        }
    }

    /// Reads a number of eight bytes, the highest first.
    #[tactic(auto, unfolding(crate::specs::Parts::u64_form))]
    pub fn read_u64(&mut self) -> Result<u64, ReadFault>
        ensures { Gives result self.new (u64_form.read self.old) }
    {
        match self.bytes {
            [a, b, c, d, e, f, g, h, rest @ ..] => {
                let number = u64::from_be_bytes([*a, *b, *c, *d, *e, *f, *g, *h]);
                self.bytes = rest;
                Ok(number)
            }
            _ => Err(ReadFault::Left(0)),
        }
    }

    /// Reads a text of so many bytes.
    fn read_utf8(&mut self, alloc: Global, len: usize) -> Result<Text, ReadFault>
        ensures { Gives result self.new ((utf8_form len).read self.old) }
    {
        match text_in(self.bytes, len) {
            Some(text) => {
                let text = Text::new(alloc, text)?;
                self.bytes = &self.bytes[len..];
                Ok(text)
            }
            None => Err(ReadFault::Left(left_at_fault(self.bytes, len))),
        }
    }

    /// Reads a text: its length in bytes, and its bytes.
    #[tactic(auto, unfolding(crate::specs::Utf8::text_form, crate::specs::Parts::led))]
    pub fn read_text(&mut self, alloc: Global) -> Result<Text, ReadFault>
        ensures { Gives result self.new (text_form.read self.old) }
    {
        let len = self.read_u32()?;
        self.read_utf8(alloc, len as usize)
    }
}
