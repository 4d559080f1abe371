//! The line of a segment list.
ghost use Rattle.std.specs.Prelude.{◌≡◌, ◌++◌, IfOk, OnOk, string_bytes};
ghost use Rattle.store_texts.specs.Inner.Head.{head_text};
ghost use Rattle.store_texts.specs.Texts.{segments_text};

use emu_names::{Memory, Text};
use itoa::Buffer;
use segment_list::{Listing, print_rows};
use std::alloc::Global;

/// Writes what stands before the rows. The only refusal is want of memory.
fn push_head(out: &mut String, n: u64) -> Result<(), Memory>
    ensures { OnOk result (string_bytes out.new ≡ string_bytes out.old ++ head_text n) }
{
    out.push_str("{\"n\":")?;
    let mut digits = Buffer::new();
    out.push_str(digits.format(n))?;
    out.push_str(",\"segments\":")?;
    Ok(())
}

/// The line of a segment list over a state to which `n` edits led. The only refusal is want of memory.
pub(crate) fn segments_line(alloc: Global, n: u64, rows: &Listing) -> Result<Text, Memory>
    ensures { IfOk result (λ text. text ≡ segments_text n rows.now) }
{
    let rows = print_rows(alloc, rows)?;
    let mut out = String::new(alloc);
    push_head(&mut out, n)?;
    out.push_str(rows.as_str())?;
    out.push_str("}\n")?;
    Text::from_string(out)
}
