//! The values that stand in a text.
ghost use Rattle.std.specs.Prelude.{◌≡◌, ◌≢◌, ◌≤◌, ◌<◌, ◌+◌, IfOk, IfErr, Ok, Err, List, Result, All, false, length, drop};
ghost use Rattle.textgrid.specs.Inner.Told.{TellsFault};
ghost use Rattle.textgrid.specs.Quoted.{quoted};
ghost use Rattle.textgrid.specs.declared.values.Placed.{Placed as PlacedValue};
ghost use Rattle.textgrid.specs.Inner.Short.{IsShortPlaced, IsShortPiece};
ghost use Rattle.textgrid.specs.Values.{front, is_space, is_inside, in_comment, in_flag, comment_len, flag_len, word_len, flag_at, word_at, piece_at, text_piece, values_from, values_of, found};
ghost use Rattle.textgrid.specs.Inner.Values.{joined};

use crate::fault::GridFault;
use crate::quoted::quoted_text;
use crate::values::{Placed, Value, Values};
use emu_names::{Memory, Text};
use sample_time::{NumberFault, read_decimal};
use std::alloc::Global;

/// What stands at a place of a text.
#[derive(Drop)]
pub enum Piece {
    /// White space, a comment, or a word that is no number.
    Passed,
    /// A value.
    Found(Value),
    /// A text that does not end.
    OpenText,
    /// A number with too many digits.
    LongNumber,
}

/// The first byte, 0 of an empty text.
pub fn front(text: &[u8]) -> u8
    ensures { result ≡ front text.now }
{
    match text {
        [] => 0,
        [byte, ..] => *byte,
    }
}

/// Whether the byte is a space, a tab, a line feed or a carriage return.
fn is_space(byte: u8) -> bool
    ensures { result ≡ is_space byte }
{
    byte == b' ' || byte == b'\t' || byte == b'\n' || byte == b'\r'
}

/// Whether a comment goes on with the byte.
fn in_comment(byte: u8) -> bool
    ensures { result ≡ in_comment byte }
{
    byte != b'\n'
}

/// Whether a flag goes on with the byte.
fn in_flag(byte: u8) -> bool
    ensures { result ≡ in_flag byte }
{
    !is_space(byte) && byte != b'>'
}

/// Whether a word goes on with the byte.
fn is_inside(byte: u8) -> bool
    ensures { result ≡ is_inside byte }
{
    !is_space(byte) && byte != b'"'
}

/// How many bytes a comment takes at the front.
fn comment_len(text: &[u8]) -> usize
    ensures value { result ≡ comment_len text.now }
    ensures within { result ≤ length text.now }
{
    text.iter().take_while(|byte| in_comment(**byte)).count()
}

/// How many bytes a flag takes at the front, up to its end.
fn flag_len(text: &[u8]) -> usize
    ensures value { result ≡ flag_len text.now }
    ensures within { result ≤ length text.now }
{
    text.iter().take_while(|byte| in_flag(**byte)).count()
}

/// How many bytes a word takes at the front.
fn word_len(text: &[u8]) -> usize
    ensures value { result ≡ word_len text.now }
    ensures within { result ≤ length text.now }
{
    text.iter().take_while(|byte| is_inside(**byte)).count()
}

/// The word at the front, behind its first byte, which it has in any case.
#[tactic(auto, unfolding(crate::specs::Values::word_at))]
fn word(text: &[u8]) -> (Piece, usize)
    requires { 0 < length text.now }
    ensures value { result ≡ word_at text.now }
    ensures short { IsShortPiece result.0 }
    ensures some { 0 < result.1 }
    ensures within { result.1 ≤ length text.now }
{
    let len = word_len(&text[1..]) + 1;
    match read_decimal(&text[..len]) {
        Ok(number) => (Piece::Found(Value::Number(number)), len),
        Err(NumberFault::NotANumber) => (Piece::Passed, len),
        Err(NumberFault::TooManyDigits) => (Piece::LongNumber, len),
    }
}

/// The flag at the front, which begins with `<`, or the word where it does not end.
#[tactic(auto, unfolding(crate::specs::Values::flag_at))]
fn flag_or_word(text: &[u8]) -> (Piece, usize)
    requires { 0 < length text.now }
    ensures value { result ≡ flag_at text.now }
    ensures short { IsShortPiece result.0 }
    ensures some { 0 < result.1 }
    ensures within { result.1 ≤ length text.now }
{
    let inner = &text[1..];
    let len = flag_len(inner);
    if front(&inner[len..]) == b'>' {
        let exists = &inner[..len] == b"exists".as_slice();
        return (Piece::Found(Value::Flag(exists)), len + 2);
    }
    word(text)
}

/// The text behind a quote.
fn quoted_piece(alloc: Global, behind: &str) -> Result<(Piece, usize), Memory>
    ensures value { IfOk result (λ piece. piece ≡ text_piece (quoted behind.now false)) }
    ensures short { IfOk result (λ piece. IsShortPiece piece.0) }
    ensures some { IfOk result (λ piece. 0 < piece.1) }
    ensures within { IfOk result (λ piece. piece.1 ≤ length behind.now + 1) }
{
    match quoted_text(alloc, behind)? {
        None => Ok((Piece::OpenText, 1)),
        Some((text, len)) => {
            let text = Text::new(alloc, text.as_str())?;
            Ok((Piece::Found(Value::Quoted(text)), len + 1))
        }
    }
}

/// What stands at a place, and how many bytes it takes.
#[tactic(auto, unfolding(crate::specs::Values::piece_at))]
fn piece_of(alloc: Global, text: &str, at: usize) -> Result<(Piece, usize), Memory>
    requires { at < length text.now }
    ensures value { IfOk result (λ piece. piece ≡ piece_at (drop at text.now)) }
    ensures short { IfOk result (λ piece. IsShortPiece piece.0) }
    ensures some { IfOk result (λ piece. 0 < piece.1) }
    ensures within { IfOk result (λ piece. at + piece.1 ≤ length text.now) }
{
    let bytes = &text.as_bytes()[at..];
    let first = front(bytes);
    if is_space(first) {
        Ok((Piece::Passed, 1))
    } else if first == b'!' {
        Ok((Piece::Passed, comment_len(&bytes[1..]) + 1))
    } else if first == b'"' {
        quoted_piece(alloc, &text[at + 1..])
    } else if first == b'<' {
        Ok(flag_or_word(bytes))
    } else {
        Ok(word(bytes))
    }
}

/// Puts what stands at a place behind the values, if it is one.
fn keep(values: &mut Values, piece: Piece, at: u64) -> Result<(), GridFault>
    requires before { All IsShortPlaced values.old }
    requires piece { IsShortPiece piece }
    ensures ok { IfOk result (λ _. (rest : Result (List Placed) GridFault)
        → joined values.old (found piece at rest) ≡ joined values.new rest) }
    ensures err { IfErr result (λ fault. fault ≢ GridFault.Memory
        → (rest : Result (List Placed) GridFault) → found piece at rest ≡ Err fault) }
    ensures short { IfOk result (λ _. All IsShortPlaced values.new) }
    ensures few { IfOk result (λ _. length values.new ≤ length values.old + 1) }
{
    match piece {
        Piece::Passed => Ok(()),
        Piece::Found(value) => {
            values.push(Placed { at, value })?;
            Ok(())
        }
        Piece::OpenText => Err(GridFault::BadText(at)),
        Piece::LongNumber => Err(GridFault::TooManyDigits(at)),
    }
}

/// The values of the text, or its first fault.
#[tactic(auto, unfolding(crate::specs::Values::values_of))]
pub fn read_values(alloc: Global, text: &str) -> Result<Values, GridFault>
    ensures ok { IfOk result (λ values. values_of text.now ≡ Ok values) }
    ensures err { TellsFault result (values_of text.now) }
    ensures short { IfOk result (All IsShortPlaced) }
    ensures few { IfOk result (λ values. length values ≤ length text.now) }
{
    let mut values = Values::new(alloc);
    let mut at = 0;
    while at < text.len() {
        let (piece, len) = piece_of(alloc, text, at)?;
        keep(&mut values, piece, at as u64)?;
        at += len;
    }
    Ok(values)
}
