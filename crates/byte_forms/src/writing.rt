//! Numbers and texts as bytes, and how many bytes those are.
ghost use Rattle.std.specs.Prelude.{◌≡◌, ◌<◌, ◌^◌, ◌++◌, length, min, OnOk};
ghost use Rattle.byte_forms.specs.Parts.{u32_form, u64_form, byte_below};
ghost use Rattle.byte_forms.specs.Utf8.{text_form};

use crate::bytes::CodeBytes;
use emu_names::Memory;

/// The number of bytes that is said of a code that has as many or more, or of none: 2^32.
pub const CODE_LIMIT: u64 = 4_294_967_296;

impl CodeBytes {
    /// Writes a byte. The only refusal is want of memory.
    #[tactic(auto, unfolding(crate::specs::Parts::byte_in))]
    pub fn put_byte(&mut self, byte: u8) -> Result<(), Memory>
        ensures { OnOk result (self.new ≡ self.old ++ (byte_below 256).code byte) }
    {
        self.extend(&[byte])
    }

    /// Writes a number in four bytes, the highest first. The only refusal is want of memory.
    #[tactic(auto, unfolding(crate::specs::Parts::u32_form))]
    pub fn put_u32(&mut self, number: u32) -> Result<(), Memory>
        ensures { OnOk result (self.new ≡ self.old ++ u32_form.code number) }
    {
        self.extend(&number.to_be_bytes())
    }

    /// Writes a number in eight bytes, the highest first. The only refusal is want of memory.
    #[tactic(auto, unfolding(crate::specs::Parts::u64_form))]
    pub fn put_u64(&mut self, number: u64) -> Result<(), Memory>
        ensures { OnOk result (self.new ≡ self.old ++ u64_form.code number) }
    {
        self.extend(&number.to_be_bytes())
    }

    /// Writes how many there are in four bytes, the highest first: of 2^32 or more only what is left over. The only
    /// refusal is want of memory.
    #[tactic(auto, unfolding(crate::specs::Parts::u32_form))]
    pub fn put_count(&mut self, count: usize) -> Result<(), Memory>
        ensures { OnOk result (self.new ≡ self.old ++ u32_form.code count) }
    {
        self.extend(&(count as u64).to_be_bytes()[4..])
    }

    /// Writes a text: its length in bytes, and its bytes. The only refusal is want of memory.
    #[tactic(auto, unfolding(crate::specs::Utf8::text_form, crate::specs::Utf8::utf8_form, crate::specs::Parts::led))]
    pub fn put_text(&mut self, text: &str) -> Result<(), Memory>
        ensures { OnOk result (self.new ≡ self.old ++ text_form.code text.now) }
    {
        let text = text.as_bytes();
        self.put_count(text.len())?;
        self.extend(text)
    }
}

/// How many bytes the code of a text has, or 2^32 where it has as many or more.
#[tactic(auto, unfolding(crate::specs::Utf8::text_form, crate::specs::Utf8::utf8_form, crate::specs::Parts::led, crate::specs::Parts::u32_form))]
pub fn text_size(text: &str) -> u64
    ensures len { result ≡ min (2 ^ 32) (length (text_form.code text.now)) }
    ensures some { 0 < result }
    ensures fits { result < 2 ^ 32 → text_form.fits text.now }
{
    let text = text.as_bytes();
    (4 + text.len() as u64).min(CODE_LIMIT)
}
