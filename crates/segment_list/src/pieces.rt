//! Numbers and texts as they stand in JSON, written behind a text (RFC 8259, sections 6 and 7).
ghost use Rattle.std.specs.Prelude.{◌≡◌, ◌++◌, ◌∷◌, [], ℕ, List, OnOk, IsTrue, string_bytes};
ghost use Rattle.std.specs.List.{list_all};
ghost use Rattle.json.specs.Print.{escape, quoted};
ghost use Rattle.segment_list.specs.Inner.Pieces.{is_plain};

use emu_names::Memory;
use serde_json::json;
use std::alloc::Global;

/// Whether a byte stands for itself in a JSON text.
fn is_plain(byte: u8) -> bool
    ensures { result ≡ is_plain byte }
{
    byte >= 32 && byte != b'"' && byte != b'\\'
}

/// Whether each byte stands for itself in a JSON text.
fn are_plain(bytes: &[u8]) -> bool
    ensures { result ≡ list_all is_plain bytes.now }
{
    bytes.iter().all(|byte| is_plain(*byte))
}

/// What stands behind the quote that a text begins with.
fn behind_quote(text: &str) -> &str
    ensures { (rest : List ℕ) → text.now ≡ 34 ∷ rest → result.now ≡ rest }
{
    match text.strip_prefix('"') {
        Some(rest) => rest,
        None => text,
    }
}

/// What stands before the quote that a text ends with.
fn before_quote(text: &str) -> &str
    ensures { (front : List ℕ) → text.now ≡ front ++ 34 ∷ [] → result.now ≡ front }
{
    match text.strip_suffix('"') {
        Some(front) => front,
        None => text,
    }
}

/// Writes a text with escapes. The only refusal is want of memory.
fn push_escaped(out: &mut String, alloc: Global, text: &str) -> Result<(), Memory>
    ensures { OnOk result (string_bytes out.new ≡ string_bytes out.old ++ escape text.now) }
{
    let value = json!(in alloc; text)?;
    let quoted = value.to_string(alloc)?;
    let within = before_quote(behind_quote(quoted.as_str()));
    out.push_str(within)?;
    Ok(())
}

/// Writes a text whose bytes stand for themselves. The only refusal is want of memory.
fn push_plain(out: &mut String, text: &str) -> Result<(), Memory>
    requires { IsTrue (list_all is_plain text.now) }
    ensures { OnOk result (string_bytes out.new ≡ string_bytes out.old ++ escape text.now) }
{
    out.push_str(text)?;
    Ok(())
}

/// Writes a text as it stands between quotes, with escapes where it needs some. The only refusal is want of memory.
pub(crate) fn push_within(out: &mut String, alloc: Global, text: &str) -> Result<(), Memory>
    ensures { OnOk result (string_bytes out.new ≡ string_bytes out.old ++ escape text.now) }
{
    if are_plain(text.as_bytes()) {
        push_plain(out, text)
    } else {
        push_escaped(out, alloc, text)
    }
}

/// Writes a text in quotes, with escapes where it needs some. The only refusal is want of memory.
pub(crate) fn push_quoted(out: &mut String, alloc: Global, text: &str) -> Result<(), Memory>
    ensures { OnOk result (string_bytes out.new ≡ string_bytes out.old ++ quoted text.now) }
{
    out.push_str("\"")?;
    push_within(out, alloc, text)?;
    out.push_str("\"")?;
    Ok(())
}
