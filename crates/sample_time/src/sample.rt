//! Samples at exact times.

ghost use Rattle.std.specs.Prelude.{◌≡◌, ℕ, ◌+◌, ◌*◌, ◌/◌, ◌^◌, ◌<◌, ◌≤◌, IfOk};
ghost use Rattle.std.specs.Option.{SomeIff};
ghost use Rattle.std.specs.Int.{div_ceil};
ghost use Rattle.emu_names.specs.declared.limits.TheConstants.{SAMPLES, TOP_RATE};
ghost use Rattle.sample_time.specs.Sample.{is_negative, first_sample, nearest_sample};
ghost use Rattle.sample_time.specs.Inner.Sample.{IsFirstSample, IsNearestSample};

use crate::decimal::Decimal;
use emu_names::limits::SAMPLES;
use thiserror::Error;

/// Why a time has no sample.
#[derive(Clone, Copy, Debug, PartialEq, Eq, Error)]
pub enum TimeFault {
    /// The time is below 0.
    #[error("a time below 0")]
    NegativeTime,
    /// The time is past the samples that an annotation may name.
    #[error("a time past the last sample")]
    TimeTooLarge,
}

/// Whether the time is below 0; zero is not, whatever its sign.
fn is_below_zero(time: &Decimal) -> bool
    ensures { result ≡ is_negative time.now }
{
    time.negative && time.digits > 0
}

/// `count * 10^places`, where that is at most 2^40.
fn multiplied(count: u128, places: u32) -> Option<u64>
    requires { count < 10 ^ 26 }
    ensures { SomeIff result (count * 10 ^ places ≤ SAMPLES) (count * 10 ^ places) }
{
    if count == 0 {
        return Some(0);
    }
    if places > 12 {
        return None;
    }
    let product = count * 10u128.pow(places);
    if product <= SAMPLES as u128 {
        Some(product as u64)
    } else {
        None
    }
}

/// `count / 10^places`, rounded up, where that is at most 2^40.
fn divided_up(count: u128, places: u32) -> Option<u64>
    requires { count < 10 ^ 26 }
    ensures { let quotient = div_ceil count (10 ^ places)
        in SomeIff result (quotient ≤ SAMPLES) quotient }
{
    if places > 26 {
        return Some(if count == 0 { 0 } else { 1 });
    }
    let quotient = count.div_ceil(10u128.pow(places));
    if quotient <= SAMPLES as u128 {
        Some(quotient as u64)
    } else {
        None
    }
}

/// `count / 10^places + 1/2`, rounded down, where that is below 2^40.
fn divided_nearest(count: u128, places: u32) -> Option<u64>
    requires { count < 10 ^ 26 }
    ensures { let quotient = (2 * count + 10 ^ places) / (2 * 10 ^ places)
        in SomeIff result (quotient < SAMPLES) quotient }
{
    if places > 26 {
        return Some(0);
    }
    let power = 10u128.pow(places);
    let quotient = (2 * count + power) / (2 * power);
    if quotient < SAMPLES as u128 {
        Some(quotient as u64)
    } else {
        None
    }
}

/// The first sample at or behind the time, `ceil(time * rate)`. `rate` is in samples a second.
///
/// Refused are a time below 0 (`NegativeTime`), and one whose sample would be past 2^40
/// (`TimeTooLarge`). (Praat manual, "TextGrid file formats": `xmin` and `xmax` of an interval.)
pub fn first_sample_from(time: &Decimal, rate: u32) -> Result<u64, TimeFault>
    requires digits { time.now.digits < 10 ^ 20 }
    requires rate_above { 1 ≤ rate }
    requires rate_below { rate ≤ TOP_RATE }
    ensures answer { result ≡ first_sample time.now rate }
    ensures between { IfOk result (IsFirstSample time.now rate) }
{
    if is_below_zero(time) {
        return Err(TimeFault::NegativeTime);
    }
    let count = time.digits * rate as u128;
    let places = time.exponent.unsigned_abs();
    let sample = if time.exponent < 0 {
        divided_up(count, places)
    } else {
        multiplied(count, places)
    };
    sample.ok_or(TimeFault::TimeTooLarge)
}

/// The sample nearest to the time, and of two the later, `floor(time * rate + 1/2)`. `rate` is in
/// samples a second.
///
/// Refused are a time below 0 (`NegativeTime`), and one whose sample would be 2^40 or more
/// (`TimeTooLarge`). (Praat manual, "TextGrid file formats": `number` of a point.)
pub fn nearest_sample(time: &Decimal, rate: u32) -> Result<u64, TimeFault>
    requires digits { time.now.digits < 10 ^ 20 }
    requires rate_above { 1 ≤ rate }
    requires rate_below { rate ≤ TOP_RATE }
    ensures answer { result ≡ nearest_sample time.now rate }
    ensures between { IfOk result (IsNearestSample time.now rate) }
{
    if is_below_zero(time) {
        return Err(TimeFault::NegativeTime);
    }
    let count = time.digits * rate as u128;
    let places = time.exponent.unsigned_abs();
    let sample = if time.exponent < 0 {
        divided_nearest(count, places)
    } else {
        multiplied(count, places).filter(|sample| *sample < SAMPLES)
    };
    sample.ok_or(TimeFault::TimeTooLarge)
}
