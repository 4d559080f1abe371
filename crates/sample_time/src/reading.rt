//! The parts of a decimal in its text.

ghost use Rattle.std.specs.Prelude.{◌≡◌, ℕ, ◌+◌, ◌≤◌, ◌<◌, Bool, None, Some, MatchOption, IfSome, length};
ghost use Rattle.std.specs.Option.{option_copied, SomeIff};
ghost use Rattle.std.specs.Str.Parse.{AllDigits, digits_value};
ghost use Rattle.sample_time.specs.Reading.{has_minus, after_sign, digit_count, numeral_at, fraction_at, after_fraction, power_at, parts_at};
ghost use Rattle.sample_time.specs.Inner.Reading.{text_of};

/// The parts of the text of a decimal. A part that is missing has no digit and no minus.
#[derive(Clone, Copy)]
pub struct Parts<'a> {
    /// Whether a minus stands before the number.
    pub negative: bool,
    /// The digits before the point.
    pub whole: &'a [u8],
    /// The digits behind the point.
    pub fraction: &'a [u8],
    /// Whether a minus stands before the exponent.
    pub shrinks: bool,
    /// The digits of the exponent.
    pub power: &'a [u8],
}

/// Whether a minus stands first.
fn has_minus(text: &[u8]) -> bool
    ensures { result ≡ has_minus text.now }
{
    match text {
        [b'-', ..] => true,
        _ => false,
    }
}

/// What follows a sign that may stand first.
fn after_sign(text: &[u8]) -> &[u8]
    ensures { result.now ≡ after_sign text.now }
{
    match text {
        [b'+' | b'-', rest @ ..] => rest,
        _ => text,
    }
}

/// How many digits the text begins with.
fn digit_count(text: &[u8]) -> usize
    ensures value { result ≡ digit_count text.now }
    ensures within { result ≤ length text.now }
{
    text.iter().take_while(|b| b.is_ascii_digit()).count()
}

/// The digits that the text begins with, of which there has to be one.
#[tactic(auto, using(crate::proofs::Digits::all_digits_taken), unfolding(crate::specs::Reading::numeral_at))]
fn numeral(text: &[u8]) -> Option<&[u8]>
    ensures value { option_copied result ≡ numeral_at text.now }
    ensures within { IfSome result (λ digits. length digits.now ≤ length text.now) }
    ensures digits { IfSome result (λ digits. AllDigits 10 digits.now) }
{
    let count = digit_count(text);
    if count == 0 {
        None
    } else {
        Some(&text[..count])
    }
}

/// The digits behind a point that may stand first; `None` where the point has no digit behind it.
#[tactic(auto, unfolding(crate::specs::Reading::fraction_at))]
fn fraction(text: &[u8]) -> Option<&[u8]>
    ensures value { option_copied result ≡ fraction_at text.now }
    ensures within { IfSome result (λ digits. length digits.now ≤ length text.now) }
    ensures digits { IfSome result (λ digits. AllDigits 10 digits.now) }
{
    match text {
        [b'.', rest @ ..] => numeral(rest),
        _ => Some(&[]),
    }
}

/// What follows a point that may stand first, and its digits.
#[tactic(auto, unfolding(crate::specs::Reading::after_fraction))]
fn after_fraction(text: &[u8]) -> &[u8]
    ensures { result.now ≡ after_fraction text.now }
{
    match text {
        [b'.', rest @ ..] => &rest[digit_count(rest)..],
        _ => text,
    }
}

/// The sign and the digits of the exponent that the whole text is, and none of an empty text.
#[tactic(auto, using(crate::proofs::Digits::all_digits), unfolding(crate::specs::Reading::power_at))]
fn power(text: &[u8]) -> Option<(bool, &[u8])>
    ensures value { MatchOption result (power_at text.now ≡ None)
        (λ p. power_at text.now ≡ Some (p.0, p.1.now)) }
    ensures digits { IfSome result (λ p. AllDigits 10 p.1.now) }
{
    match text {
        [] => Some((false, &[])),
        [b'e' | b'E', signed @ ..] => {
            let digits = after_sign(signed);
            if !digits.is_empty() && digit_count(digits) == digits.len() {
                Some((has_minus(signed), digits))
            } else {
                None
            }
        }
        _ => None,
    }
}

/// The parts of the text, where it is a decimal.
#[tactic(auto, unfolding(crate::specs::Reading::parts_at, crate::specs::Reading::parts_behind, crate::specs::Reading::with_power))]
pub fn read_parts(text: &[u8]) -> Option<Parts<'_>>
    ensures value { MatchOption result (parts_at text.now ≡ None)
        (λ p. parts_at text.now ≡ Some (text_of p)) }
    ensures within { IfSome result
        (λ p. length p.whole.now + length p.fraction.now ≤ length text.now) }
    ensures digits { IfSome result (λ p. AllDigits 10 p.whole.now
        × AllDigits 10 p.fraction.now × AllDigits 10 p.power.now) }
{
    let unsigned = after_sign(text);
    let whole = numeral(unsigned)?;
    let rest = &unsigned[whole.len()..];
    let fraction = fraction(rest)?;
    let (shrinks, power) = power(after_fraction(rest))?;
    Some(Parts {
        negative: has_minus(text),
        whole,
        fraction,
        shrinks,
        power,
    })
}

/// The greatest size of a written exponent.
const MOST_POWER: u32 = 9999;

/// The size of the exponent with these digits, where it is at most 9,999.
#[tactic(auto, using(crate::proofs::Digits::digit_range, crate::proofs::Digits::digit_value_is, crate::proofs::Digits::after_ge))]
pub fn power_size(digits: &[u8]) -> Option<u16>
    requires { AllDigits 10 digits.now }
    ensures { SomeIff result (digits_value 10 digits.now ≤ 9999) (digits_value 10 digits.now) }
{
    let mut size = 0;
    for digit in digits {
        size = size * 10 + (*digit - b'0') as u32;
        if size > MOST_POWER {
            return None;
        }
    }
    Some(size as u16)
}
