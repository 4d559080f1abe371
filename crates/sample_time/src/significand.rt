//! The digits of a decimal without its leading and trailing zeros.

ghost use Rattle.std.specs.Prelude.{◌≡◌, ℕ, ◌+◌, ◌*◌, ◌^◌, ◌<◌, ◌≤◌, length, IfSome};
ghost use Rattle.std.specs.Option.{SomeIff};
ghost use Rattle.std.specs.Str.Parse.{AllDigits};
ghost use Rattle.sample_time.specs.Reading.{push_digit, push_all};

/// Digits of 10^20 or more are those with more than 20 digits.
const MANY_DIGITS: u128 = 100_000_000_000_000_000_000;

/// A whole number: `digits`, which ends in no zero, and `zeros` zeros behind them. The number 0 is
/// `digits` 0 with no zeros.
#[derive(Clone, Copy)]
pub struct Significand {
    pub digits: u128,
    pub zeros: usize,
}

impl Significand {
    /// The number 0.
    pub const ZERO: Significand = Significand {
        digits: 0,
        zeros: 0,
    };
}

/// `digits` with `places` zeros behind them, where that fits 128 bits.
fn shifted(digits: u128, places: usize) -> Option<u128>
    requires { digits < 10 ^ 20 }
    ensures { SomeIff result (digits * 10 ^ places < 2 ^ 128) (digits * 10 ^ places) }
{
    if digits == 0 {
        return Some(0);
    }
    if places > 38 {
        return None;
    }
    digits.checked_mul(10u128.pow(places as u32))
}

/// The number with one digit more at its end; `None` where more than 20 digits remain of it.
#[tactic(auto, unfolding(crate::specs::Reading::push_digit))]
fn with_digit(number: Significand, digit: u8) -> Option<Significand>
    requires below { number.digits < 10 ^ 20 }
    requires room { number.zeros < 2 ^ 62 }
    requires digit { digit < 10 }
    ensures value { result ≡ push_digit number digit }
    ensures below { IfSome result (λ s. s.digits < 10 ^ 20) }
    ensures zeros { IfSome result (λ s. s.zeros ≤ number.zeros + 1) }
{
    if digit == 0 {
        let zeros = if number.digits == 0 {
            number.zeros
        } else {
            number.zeros + 1
        };
        return Some(Significand {
            digits: number.digits,
            zeros,
        });
    }
    let digits = shifted(number.digits, number.zeros + 1)?;
    if digits >= MANY_DIGITS {
        return None;
    }
    let digits = digits + digit as u128;
    if digits < MANY_DIGITS {
        Some(Significand { digits, zeros: 0 })
    } else {
        None
    }
}

/// The number with more digits at its end; `None` where more than 20 digits remain of it.
#[tactic(auto, using(crate::proofs::Digits::digit_range, crate::proofs::Digits::digit_value_is), unfolding(crate::specs::Reading::push_all))]
pub fn with_digits(number: Significand, digits: &[u8]) -> Option<Significand>
    requires below { number.digits < 10 ^ 20 }
    requires room { number.zeros + length digits.now < 2 ^ 62 }
    requires digits { AllDigits 10 digits.now }
    ensures value { result ≡ push_all digits.now number }
    ensures below { IfSome result (λ s. s.digits < 10 ^ 20) }
    ensures zeros { IfSome result (λ s. s.zeros ≤ number.zeros + length digits.now) }
{
    let mut so_far = number;
    for digit in digits {
        so_far = with_digit(so_far, *digit - b'0')?;
    }
    Some(so_far)
}
