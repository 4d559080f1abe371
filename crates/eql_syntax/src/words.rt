//! What single words and signs stand for.
ghost use Rattle.std.specs.Prelude.{◌≡◌, ℕ, MatchOption, None, Some, codes};
ghost use Rattle.std.specs.Option.{option_map};
ghost use Rattle.std.specs.Str.{all_ascii_digits};
ghost use Rattle.eql_syntax.specs.Words.{op_of, compare_of, place_of, is_count, bit_of, number_of};
ghost use Rattle.eql_syntax.specs.Inner.Machine.{function_of};
ghost use Rattle.eql_syntax.specs.Inner.View.{function_view};

use crate::machine::Function;
use crate::query::{Compare, Op, Place};
use eql_tokens::Sign;

/// The operator of a label test.
pub fn op_of(sign: Sign) -> Option<Op>
    ensures { result ≡ op_of sign }
{
    match sign {
        Sign::Is => Some(Op::Is),
        Sign::IsNot => Some(Op::IsNot),
        Sign::Like => Some(Op::Like),
        Sign::NotLike => Some(Op::NotLike),
        _ => None,
    }
}

/// The comparison of a number.
pub fn compare_of(sign: Sign) -> Option<Compare>
    ensures { result ≡ compare_of sign }
{
    match sign {
        Sign::Is => Some(Compare::Eq),
        Sign::IsNot => Some(Compare::Ne),
        Sign::Lt => Some(Compare::Lt),
        Sign::Le => Some(Compare::Le),
        Sign::Gt => Some(Compare::Gt),
        Sign::Ge => Some(Compare::Ge),
        _ => None,
    }
}

/// The function that tests a place.
fn place_of(word: &str) -> Option<Place>
    ensures { result ≡ place_of word.now }
{
    if word == "Start" {
        Some(Place::Start)
    } else if word == "Medial" {
        Some(Place::Medial)
    } else if word == "End" {
        Some(Place::End)
    } else {
        None
    }
}

/// The function of a word, which has to be bare.
pub fn function_of(bare: bool, word: &str) -> Option<Function>
    ensures { option_map function_view result ≡ function_of bare word.now }
{
    if !bare {
        return None;
    }
    match place_of(word) {
        Some(place) => Some(Function::Placing(place)),
        None => {
            if word == "Num" {
                Some(Function::Counting)
            } else {
                None
            }
        }
    }
}

/// What is wanted of a place.
pub fn bit_of(word: &str) -> Option<bool>
    ensures { result ≡ bit_of word.now }
{
    if word == "1" || word == "TRUE" || word == "T" {
        Some(true)
    } else if word == "0" || word == "FALSE" || word == "F" {
        Some(false)
    } else {
        None
    }
}

/// Whether the text is digits alone.
fn all_digits(text: &[u8]) -> bool
    ensures { result ≡ all_ascii_digits text.now }
{
    let mut rest = text;
    while let [byte, after @ ..] = rest {
        if !byte.is_ascii_digit() {
            return false;
        }
        rest = after;
    }
    true
}

/// The number of 1 to 9 digits.
#[tactic(auto, using(crate::proofs::Numbers::parsed))]
pub fn number_of(word: &str) -> Option<u32>
    ensures { result ≡ number_of word.now }
{
    let len = word.len();
    if len < 1 || len > 9 || !all_digits(word.as_bytes()) {
        return None;
    }
    match word.parse::<u32>() {
        Ok(number) => Some(number),
        Err(_) => None,
    }
}
