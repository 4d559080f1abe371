//! The text that the bytes of a file are: UTF-8, with or without a mark, or UTF-16 with one.
ghost use Rattle.std.specs.Prelude.{◌≡◌, ◌≢◌, ◌≤◌, ◌<◌, ◌*◌, IfOk, IfErr, IfSome, MatchOption, None, Some, Ok, Err, length, encode_utf8, string_bytes, string_len};
ghost use Rattle.textgrid.specs.Inner.Told.{TellsFault};
ghost use Rattle.textgrid.specs.Encodings.{mark_of, unit, pair_at, char_at, utf8_of, utf16_of};

use crate::fault::GridFault;
use emu_names::Memory;
use std::alloc::Global;

/// How a text is encoded.
#[derive(Clone, Copy)]
pub enum Encoding {
    Utf8,
    Utf16BigEndian,
    Utf16LittleEndian,
}

/// The encoding that the first bytes tell, and how many of them are its mark.
pub fn encoding_of(bytes: &[u8]) -> (Encoding, usize)
    ensures value { result ≡ mark_of bytes.now }
    ensures within { result.1 ≤ length bytes.now }
    ensures short { result.1 ≤ 3 }
{
    if bytes.starts_with(&[0xFE, 0xFF]) {
        (Encoding::Utf16BigEndian, 2)
    } else if bytes.starts_with(&[0xFF, 0xFE]) {
        (Encoding::Utf16LittleEndian, 2)
    } else if bytes.starts_with(&[0xEF, 0xBB, 0xBF]) {
        (Encoding::Utf8, 3)
    } else {
        (Encoding::Utf8, 0)
    }
}

/// The text of bytes in UTF-8, behind a mark of so many bytes.
pub fn utf8_text(bytes: &[u8], mark: usize) -> Result<&str, GridFault>
    requires { mark ≤ 3 }
    ensures ok { IfOk result (λ text. utf8_of bytes.now mark ≡ Ok text.now) }
    ensures size { IfOk result (λ text. length text.now ≡ length bytes.now) }
    ensures err { IfErr result (λ fault. utf8_of bytes.now mark ≡ Err fault) }
{
    match str::from_utf8(bytes) {
        Ok(text) => Ok(text),
        Err(error) => Err(GridFault::BadEncoding((mark + error.valid_up_to()) as u64)),
    }
}

/// The unit of two bytes.
fn unit(big: bool, first: u8, second: u8) -> u32
    ensures value { result ≡ unit big first second }
    ensures below { result < 65536 }
{
    if big {
        first as u32 * 256 + second as u32
    } else {
        second as u32 * 256 + first as u32
    }
}

/// The character of a pair of surrogates.
fn pair(first: u32, second: u32) -> Option<char>
    ensures { result ≡ pair_at first second }
{
    if 0xD800 <= first && first < 0xDC00 && 0xDC00 <= second && second < 0xE000 {
        char::from_u32(0x1_0000 + (first - 0xD800) * 0x400 + (second - 0xDC00))
    } else {
        None
    }
}

/// The character at the front of a text in UTF-16, and how many bytes it takes; `None` of a surrogate
/// without a partner and of a half unit.
fn utf16_char(big: bool, bytes: &[u8]) -> Option<(char, usize)>
    ensures value { let told = char_at big bytes.now
        in MatchOption result (told ≡ None) (λ r. told ≡ Some (r.0, r.1)) }
    ensures within { IfSome result (λ r. r.1 ≤ length bytes.now) }
    ensures some { IfSome result (λ r. 0 < r.1) }
    ensures size { IfSome result (λ r. 2 * length (encode_utf8 r.0) ≤ 3 * r.1) }
{
    let [a, b, after @ ..] = bytes else {
        return None;
    };
    let first = unit(big, *a, *b);
    if let [c, d, ..] = after {
        if let Some(whole) = pair(first, unit(big, *c, *d)) {
            return Some((whole, 4));
        }
    }
    let alone = char::from_u32(first)?;
    Some((alone, 2))
}

/// The text of bytes in UTF-16, behind a mark of two bytes.
pub fn utf16_text(alloc: Global, big: bool, bytes: &[u8]) -> Result<String, GridFault>
    ensures ok { IfOk result (λ text. utf16_of big bytes.now ≡ Ok (string_bytes text)) }
    ensures err { TellsFault result (utf16_of big bytes.now) }
    ensures size { IfOk result (λ text. 2 * string_len text ≤ 3 * length bytes.now) }
{
    let mut text = String::new(alloc);
    let mut rest = bytes;
    let mut at: u64 = 2;
    while !rest.is_empty() {
        let Some((found, len)) = utf16_char(big, rest) else {
            return Err(GridFault::BadEncoding(at));
        };
        if let Err(_) = text.push(found) {
            return Err(GridFault::Memory);
        }
        let (_, after) = rest.split_at(len);
        at += len as u64;
        rest = after;
    }
    Ok(text)
}
