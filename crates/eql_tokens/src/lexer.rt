//! The token at the front of a text.
ghost use Rattle.std.specs.Prelude.{◌≡◌, ℕ, ◌+◌, ◌<◌, ◌≤◌, length, drop, slice_index, IfOk, IfSome, MatchOption, None, Some, true, false, [], ◌∷◌, ◌++◌, ◌^◌};
ghost use Rattle.std.specs.Str.{IsCharBoundary};
ghost use Rattle.eql_tokens.specs.Tokens.{is_space, is_mark, is_arrow, ends_word, word_len, symbol, quoted_len, is_unquoted, quoted, bare, token_at, front, tokens_from, tokens_of};
ghost use Rattle.eql_tokens.specs.Inner.Tokens.{IsToken};

use crate::token::{Placed, Sign, Token, Tokens};
use emu_names::{Memory, Text};
use std::alloc::Global;

/// Whether the byte is a space, a tab, a line feed or a carriage return.
pub fn is_space(byte: u8) -> bool
    ensures { result ≡ is_space byte }
{
    byte == b' ' || byte == b'\t' || byte == b'\n' || byte == b'\r'
}

/// Whether the byte is one of the characters that no bare word has.
fn is_mark(byte: u8) -> bool
    ensures { result ≡ is_mark byte }
{
    matches!(
        byte,
        b'[' | b']'
            | b'('
            | b')'
            | b','
            | b'&'
            | b'|'
            | b'^'
            | b'#'
            | b'\''
            | b'='
            | b'!'
            | b'<'
            | b'>'
    )
}

/// Whether a bare word ends before the byte, with `next` behind it.
fn ends_word(byte: u8, next: u8) -> bool
    ensures { result ≡ ends_word byte next }
{
    is_space(byte) || is_mark(byte) || (byte == b'-' && next == b'>')
}

/// The first byte, 0 of an empty text.
fn front(text: &[u8]) -> u8
    ensures { result ≡ front text.now }
{
    match text {
        [] => 0,
        [byte, ..] => *byte,
    }
}

/// How many bytes at the front belong to a bare word.
fn word_len(text: &[u8]) -> usize
    ensures value { result ≡ word_len text.now }
    ensures within { result ≤ length text.now }
{
    let mut len = 0;
    let mut rest = text;
    while let [byte, after @ ..] = rest {
        if ends_word(*byte, front(after)) {
            return len;
        }
        len += 1;
        rest = after;
    }
    len
}

/// Whether the byte is no quote.
fn is_unquoted(byte: u8) -> bool
    ensures { result ≡ is_unquoted byte }
{
    byte != b'\''
}

/// How many bytes stand before the next quote.
fn quoted_len(text: &[u8]) -> usize
    ensures value { result ≡ quoted_len text.now }
    ensures within { result ≤ length text.now }
{
    text.iter().take_while(|byte| is_unquoted(**byte)).count()
}

/// The symbol at the front, by the first byte and the one behind it, and its length.
fn symbol(byte: u8, next: u8) -> Option<(Token, usize)>
    ensures { let there = symbol byte next in
        MatchOption result (there ≡ None) (λ found. there ≡ Some (found.0, found.1)) }
{
    match byte {
        b'[' => Some((Token::Open, 1)),
        b']' => Some((Token::Close, 1)),
        b'(' => Some((Token::LeftParen, 1)),
        b')' => Some((Token::RightParen, 1)),
        b',' => Some((Token::Comma, 1)),
        b'&' => Some((Token::And, 1)),
        b'|' => Some((Token::Or, 1)),
        b'^' => Some((Token::Above, 1)),
        b'#' => Some((Token::Hash, 1)),
        b'-' if next == b'>' => Some((Token::Arrow, 2)),
        b'=' if next == b'=' => Some((Token::Sign(Sign::Is), 2)),
        b'=' if next == b'~' => Some((Token::Sign(Sign::Like), 2)),
        b'=' => Some((Token::Sign(Sign::Is), 1)),
        b'!' if next == b'=' => Some((Token::Sign(Sign::IsNot), 2)),
        b'!' if next == b'~' => Some((Token::Sign(Sign::NotLike), 2)),
        b'!' => Some((Token::Wrong, 1)),
        b'<' if next == b'=' => Some((Token::Sign(Sign::Le), 2)),
        b'<' => Some((Token::Sign(Sign::Lt), 1)),
        b'>' if next == b'=' => Some((Token::Sign(Sign::Ge), 2)),
        b'>' => Some((Token::Sign(Sign::Gt), 1)),
        _ => None,
    }
}

/// The quoted word at the front, and the length that it takes with its quotes; where it is not
/// closed, what no query has.
#[tactic(auto, using(crate::proofs::Cuts::quote_cut, crate::proofs::Cuts::behind_quote, crate::proofs::Cuts::whole_cut), unfolding(crate::specs::Tokens::quoted))]
fn quoted_word(alloc: Global, text: &str) -> Result<(Token, usize), Memory>
    requires { front text.now ≡ 39 }
    ensures value { IfOk result (λ found. IsToken (quoted (drop 1 text.now)) found.0 found.1) }
    ensures cut { IfOk result (λ found. IsCharBoundary text.now found.1) }
{
    let inner = &text[1..];
    let len = quoted_len(inner.as_bytes());
    if len == inner.len() {
        return Ok((Token::Wrong, len + 1));
    }
    let word = Text::new(alloc, &inner[..len])?;
    Ok((
        Token::Word {
            bare: false,
            text: word,
        },
        len + 2,
    ))
}

/// The bare word at the front, and its length.
#[tactic(auto, unfolding(crate::specs::Tokens::bare))]
fn bare_word(alloc: Global, text: &str) -> Result<(Token, usize), Memory>
    requires { 0 < length text.now }
    ensures value { let there = bare (front text.now) (drop 1 text.now) in
        IfOk result (λ found. IsToken there found.0 found.1) }
    ensures cut { IfOk result (λ found. IsCharBoundary text.now found.1) }
{
    let len = word_len(&text.as_bytes()[1..]) + 1;
    let word = Text::new(alloc, &text[..len])?;
    Ok((
        Token::Word {
            bare: true,
            text: word,
        },
        len,
    ))
}

/// The token at the front of a text that begins with no white space, and its length.
#[tactic(auto, unfolding(crate::specs::Tokens::token_at))]
fn token(alloc: Global, text: &str) -> Result<(Token, usize), Memory>
    requires { 0 < length text.now }
    ensures value { let there = token_at (front text.now) (drop 1 text.now) in
        IfOk result (λ found. IsToken there found.0 found.1) }
    ensures cut { IfOk result (λ found. IsCharBoundary text.now found.1) }
{
    let bytes = text.as_bytes();
    let first = front(bytes);
    if let Some(found) = symbol(first, front(&bytes[1..])) {
        return Ok(found);
    }
    if first == b'\'' {
        quoted_word(alloc, text)
    } else {
        bare_word(alloc, text)
    }
}

/// Takes what stands at the front: white space, or a token, which is put behind the others. Gives
/// the length of what it took.
#[tactic(auto, using(crate::proofs::Cuts::space_cut, crate::proofs::Behind::token_len))]
fn take_front(alloc: Global, tokens: &mut Tokens, at: u32, text: &str) -> Result<usize, Memory>
    requires { 0 < length text.now }
    ensures next { IfOk result (λ len. tokens.old ++ tokens_from text.now 0 at
        ≡ tokens.new ++ tokens_from (drop len text.now) 0 (at + len)) }
    ensures some { IfOk result (λ len. 0 < len) }
    ensures cut { IfOk result (λ len. IsCharBoundary text.now len) }
{
    if is_space(front(text.as_bytes())) {
        return Ok(1);
    }
    let (token, len) = token(alloc, text)?;
    tokens.push(Placed { at, token })?;
    Ok(len)
}

/// The tokens of the text, in their order. The only refusal is want of memory.
#[tactic(auto, unfolding(crate::specs::Tokens::tokens_of))]
pub fn read_tokens(alloc: Global, text: &str) -> Result<Tokens, Memory>
    requires { length text.now < 2 ^ 32 }
    ensures { IfOk result (λ tokens. tokens ≡ tokens_of text.now) }
{
    let mut tokens = Tokens::new(alloc);
    let mut rest = text;
    let mut at: u32 = 0;
    while !rest.is_empty() {
        let len = take_front(alloc, &mut tokens, at, rest)?;
        let (_, after) = rest.split_at(len);
        at += len as u32;
        rest = after;
    }
    Ok(tokens)
}
