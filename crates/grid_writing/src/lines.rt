//! Lines of a TextGrid.
ghost use Rattle.std.specs.Prelude.{◌≡◌, ◌≤◌, ◌++◌, ℕ, List, length, IfOk, OnOk, string_bytes, codes};
ghost use Rattle.std.specs.Fmt.{decimal};
ghost use Rattle.emu_names.specs.declared.limits.TheConstants.{SAMPLES, TOP_RATE};
ghost use Rattle.sample_time.specs.Printed.{time_text};
ghost use Rattle.textgrid.specs.Inner.Quoted.{is_unquoted, quoted_len};
ghost use Rattle.grid_writing.specs.Layout.{doubled, line};

use emu_names::Memory;
use sample_time::print_time;
use std::alloc::{AllocError, Global};

/// Whether the byte is no quote.
fn is_unquoted(byte: u8) -> bool
    ensures { result ≡ is_unquoted byte }
{
    byte != b'"'
}

/// How many bytes stand before the next quote.
fn quoted_len(text: &[u8]) -> usize
    ensures value { result ≡ quoted_len text.now }
    ensures within { result ≤ length text.now }
{
    text.iter().take_while(|byte| is_unquoted(**byte)).count()
}

/// The text with each quote twice. The only refusal is want of memory.
fn doubled(alloc: Global, text: &str) -> Result<String, AllocError>
    ensures { IfOk result (λ made. string_bytes made ≡ doubled text.now) }
{
    let mut made = String::new(alloc);
    let mut rest = text;
    loop {
        let len = quoted_len(rest.as_bytes());
        if len == rest.len() {
            made.push_str(rest)?;
            return Ok(made);
        }
        let (front, back) = rest.split_at(len + 1);
        made.push_str(front)?;
        made.push('"')?;
        rest = back;
    }
}

/// Puts what leads, a value and what ends it behind a text. The only refusal is want of memory.
pub fn put_line(made: &mut String, lead: &str, value: &str, end: &str) -> Result<(), Memory>
    ensures { OnOk result ((rest : List ℕ) → string_bytes made.new ++ rest
        ≡ string_bytes made.old ++ line lead.now value.now end.now rest) }
{
    made.push_str(lead)?;
    made.push_str(value)?;
    made.push_str(end)?;
    Ok(())
}

/// Puts the time of a sample behind a text. The only refusal is want of memory.
pub fn put_time(
    alloc: Global,
    made: &mut String,
    lead: &str,
    sample: u64,
    rate: u32,
    end: &str,
) -> Result<(), Memory>
    requires in_range { sample ≤ SAMPLES }
    requires rate_above { 1 ≤ rate }
    requires rate_below { rate ≤ TOP_RATE }
    ensures { OnOk result ((rest : List ℕ) → string_bytes made.new ++ rest
        ≡ string_bytes made.old ++ line lead.now (time_text sample rate) end.now rest) }
{
    let time = print_time(alloc, sample, rate)?;
    put_line(made, lead, time.as_str(), end)
}

/// Puts a number behind a text. The only refusal is want of memory.
pub fn put_count(
    alloc: Global,
    made: &mut String,
    lead: &str,
    count: usize,
    end: &str,
) -> Result<(), Memory>
    ensures { OnOk result ((rest : List ℕ) → string_bytes made.new ++ rest
        ≡ string_bytes made.old ++ line lead.now (decimal count) end.now rest) }
{
    let number = format!(in alloc; "{}", count)?;
    put_line(made, lead, number.as_str(), end)
}

/// Puts a text between quotes behind a text, of which the first quote belongs to what leads. The only
/// refusal is want of memory.
pub fn put_text(alloc: Global, made: &mut String, lead: &str, text: &str) -> Result<(), Memory>
    ensures { OnOk result ((rest : List ℕ) → string_bytes made.new ++ rest
        ≡ string_bytes made.old ++ line lead.now (doubled text.now) (codes "\"\n") rest) }
{
    let quoted = doubled(alloc, text)?;
    put_line(made, lead, quoted.as_str(), "\"\n")
}
