//! Decimals as a text spells them, exact.

ghost use Rattle.std.specs.Prelude.{◌≡◌, ◌≢◌, ℕ, ◌+◌, ◌^◌, ◌<◌, ◌≤◌, length, Some, Err, if◌then◌else◌, pos, neg_ℤ, ◌+ℤ◌, ◌≤ℤ◌, List, Result, IfOk};
ghost use Rattle.std.specs.Str.Parse.{AllDigits, digits_value};
ghost use Rattle.sample_time.specs.Reading.{decimal_of, value_of, with_exponent};
ghost use Rattle.sample_time.specs.Inner.Reading.{text_of};
ghost use Rattle.sample_time.specs.Spelling.{DecimalText, power_of};
ghost use Rattle.sample_time.specs.Inner.Spelling.{Spells, IsReading};

use crate::reading::{Parts, power_size, read_parts};
use crate::significand::{Significand, with_digits};
use thiserror::Error;

/// A text of so many bytes or more is not taken as a decimal.
const MANY_BYTES: usize = 1 << 30;

/// An exact decimal: `digits * 10^exponent`, below zero where `negative` is set and `digits` is not
/// 0. (Praat manual, "TextGrid file formats": the numbers of a TextGrid, in seconds.)
#[derive(Clone, Copy, Debug, PartialEq, Eq)]
pub struct Decimal {
    /// Whether a minus stands before the number.
    pub negative: bool,
    /// The number's digits as a whole number.
    pub digits: u128,
    /// The power of ten that the digits are multiplied by.
    pub exponent: i32,
}

/// Why a text is not taken as a decimal.
#[derive(Clone, Copy, Debug, PartialEq, Eq, Error)]
pub enum NumberFault {
    /// The text is no decimal at all.
    #[error("not a number")]
    NotANumber,
    /// The text is a decimal, but with more than 20 digits once leading and trailing zeros are
    /// dropped, with an exponent past 9,999 in size, or of 2^30 bytes or more.
    #[error("a number with too many digits")]
    TooManyDigits,
}

/// The exponent with its sign.
fn signed(power: u16, shrinks: bool) -> i32
    ensures value { result ≡ (if shrinks then neg_ℤ (pos power) else pos power) }
    ensures low { neg_ℤ (pos 65535) ≤ℤ result }
    ensures high { result ≤ℤ pos 65535 }
{
    if shrinks {
        -(power as i32)
    } else {
        power as i32
    }
}

/// The exponent that belongs to digits with so many zeros behind them, of which `power` is the size
/// that is written.
fn exponent(parts: &Parts<'_>, power: u16, zeros: usize) -> i32
    requires power { power ≡ digits_value 10 parts.now.power.now }
    requires fraction { length parts.now.fraction.now < 2 ^ 30 }
    requires zeros { zeros < 2 ^ 30 }
    ensures { result ≡ power_of (text_of parts.now) +ℤ pos zeros }
{
    let written = signed(power, parts.shrinks);
    written - parts.fraction.len() as i32 + zeros as i32
}

/// The decimal with these digits and the exponent that belongs to them.
#[tactic(auto, unfolding(crate::specs::Reading::with_exponent))]
fn scaled(parts: &Parts<'_>, power: u16, significand: Significand) -> Decimal
    requires power { power ≡ digits_value 10 parts.now.power.now }
    requires fraction { length parts.now.fraction.now < 2 ^ 30 }
    requires zeros { significand.zeros < 2 ^ 30 }
    ensures { result ≡ with_exponent (text_of parts.now) significand }
{
    if significand.digits == 0 {
        return Decimal {
            negative: false,
            digits: 0,
            exponent: 0,
        };
    }
    Decimal {
        negative: parts.negative,
        digits: significand.digits,
        exponent: exponent(parts, power, significand.zeros),
    }
}

/// The decimal with these parts, in a text of so many bytes.
#[tactic(auto, unfolding(crate::specs::Reading::value_of))]
fn value(parts: &Parts<'_>, bytes: usize) -> Result<Decimal, NumberFault>
    requires within { length parts.now.whole.now + length parts.now.fraction.now ≤ bytes }
    requires digits { AllDigits 10 parts.now.whole.now × AllDigits 10 parts.now.fraction.now
        × AllDigits 10 parts.now.power.now }
    ensures { result ≡ value_of bytes (text_of parts.now) }
{
    if bytes >= MANY_BYTES {
        return Err(NumberFault::TooManyDigits);
    }
    let power = power_size(parts.power).ok_or(NumberFault::TooManyDigits)?;
    let whole = with_digits(Significand::ZERO, parts.whole).ok_or(NumberFault::TooManyDigits)?;
    let significand = with_digits(whole, parts.fraction).ok_or(NumberFault::TooManyDigits)?;
    Ok(scaled(parts, power, significand))
}

/// The decimal that the text is: an optional sign, digits, optionally a point and digits, and
/// optionally `e` or `E` with an optional sign and digits. (Praat manual, "TextGrid file formats".)
///
/// The value has one form: trailing zeros of the digits are part of the exponent, the digits are
/// below 10^20, and zero is plainly `0 * 10^0` and not negative. Every other text is `NotANumber`.
/// `TooManyDigits` is a decimal with more than 20 digits once leading and trailing zeros are
/// dropped, with a written exponent past 9,999 in size, or of 2^30 bytes or more.
#[tactic(auto, unfolding(crate::specs::Reading::decimal_of, crate::specs::Reading::value_at))]
pub fn read_decimal(text: &[u8]) -> Result<Decimal, NumberFault>
    ensures answer { result ≡ decimal_of text.now }

    // A text that is spelled by the parts of a decimal has their reading, and every other text has
    // none.
    ensures reading { (parts : DecimalText) → Spells text.now parts
        → IsReading (length text.now) parts result }
    ensures spelled { result ≢ Err NumberFault.NotANumber
        → (parts : DecimalText) × Spells text.now parts }
    ensures below { IfOk result (λ value. value.digits < 10 ^ 20) }
{
    match read_parts(text) {
        Some(parts) => value(&parts, text.len()),
        None => Err(NumberFault::NotANumber),
    }
}

/// A law: the parts that spell a text and their reading are the only ones, so what `read_decimal`
/// answers comes exactly where its contract says.
#[tactic(auto, using(crate::proofs::Unique::one_reading))]
pub fn decimals_have_one_reading()
    ensures spelling { (text : List ℕ) (p q : DecimalText) → Spells text p → Spells text q → p ≡ q }
    ensures reading { (bytes : ℕ) (parts : DecimalText) (a b : Result Decimal NumberFault)
        → IsReading bytes parts a → IsReading bytes parts b → a ≡ b }
{}
