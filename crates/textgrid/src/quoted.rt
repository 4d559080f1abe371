//! Texts between quotes, in which two quotes stand for one.
ghost use Rattle.std.specs.Prelude.{◌≡◌, ◌≤◌, ◌<◌, ◌+◌, IfOk, IfSome, MatchOption, None, Some, true, false, length, string_bytes};
ghost use Rattle.textgrid.specs.Quoted.{quoted};
ghost use Rattle.textgrid.specs.Inner.Quoted.{is_unquoted, quoted_len};
ghost use Rattle.textgrid.specs.Values.{front};

use crate::scan::front;
use emu_names::Memory;
use std::alloc::Global;

/// Whether the byte is no quote.
fn is_unquoted(byte: u8) -> bool
    ensures { result ≡ is_unquoted byte }
{
    byte != b'"'
}

/// How many bytes stand before the next quote.
fn quoted_len(text: &[u8]) -> usize
    ensures value { result ≡ quoted_len text.now }
    ensures within { result ≤ length text.now }
{
    text.iter().take_while(|byte| is_unquoted(**byte)).count()
}

/// The text that stands behind its first quote, and how many bytes it takes there with its last one;
/// `None` where it does not end.
pub fn quoted_text(alloc: Global, behind: &str) -> Result<Option<(String, usize)>, Memory>
    ensures value { IfOk result (λ found. MatchOption found (quoted behind.now false ≡ None)
        (λ r. quoted behind.now false ≡ Some (string_bytes r.0, r.1))) }
    ensures within { IfOk result (λ found. IfSome found (λ r. r.1 ≤ length behind.now)) }
{
    let mut made = String::new(alloc);
    let mut rest = behind;
    let mut at = 0;
    loop {
        let len = quoted_len(rest.as_bytes());
        if len == rest.len() {
            return Ok(None);
        }
        let (piece, quote) = rest.split_at(len);
        let (_, after) = quote.split_at(1);
        made.push_str(piece)?;
        at += len + 1;
        if front(after.as_bytes()) != b'"' {
            return Ok(Some((made, at)));
        }
        made.push('"')?;
        let (_, next) = after.split_at(1);
        at += 1;
        rest = next;
    }
}
