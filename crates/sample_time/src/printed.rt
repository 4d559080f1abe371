//! Times of samples, as texts.

ghost use Rattle.std.specs.Prelude.{◌≡◌, ◌≤◌, IfOk, string_bytes};
ghost use Rattle.emu_names.specs.declared.limits.TheConstants.{SAMPLES, TOP_RATE};
ghost use Rattle.sample_time.specs.Printed.{eight_digits, time_text};
ghost use Rattle.sample_time.specs.Inner.Printed.{CountsReadBack, TimesReadBack};

use emu_names::{Memory, Text};
use std::alloc::{AllocError, Global};

/// The last eight decimal digits of a number.
fn eight_digits(alloc: Global, n: u128) -> Result<String, AllocError>
    ensures { IfOk result (λ text. string_bytes text ≡ eight_digits n) }
{
    format!(in alloc;
        "{}{}{}{}{}{}{}{}",
        n / 10_000_000 % 10,
        n / 1_000_000 % 10,
        n / 100_000 % 10,
        n / 10_000 % 10,
        n / 1_000 % 10,
        n / 100 % 10,
        n / 10 % 10,
        n % 10
    )
}

/// The time of a sample in seconds, rounded down to eight decimals, all of which are written:
/// `floor(sample * 10^8 / rate)` hundred-millionths. `rate` is in samples a second. The only refusal is
/// want of memory. (Praat manual, "TextGrid file formats": `xmin`, `xmax` and `number`.)
///
/// The text has at most 20 significant digits, so it is read as a decimal, and the sample of that time
/// at the same rate is the one that was printed (`times_read_back`).
#[tactic(auto, unfolding(crate::specs::Printed::time_text))]
pub fn print_time(alloc: Global, sample: u64, rate: u32) -> Result<Text, Memory>
    requires in_range { sample ≤ SAMPLES }
    requires rate_above { 1 ≤ rate }
    requires rate_below { rate ≤ TOP_RATE }
    ensures { IfOk result (λ text. text ≡ time_text sample rate) }
{
    let ticks = sample as u128 * 100_000_000 / rate as u128;
    let fraction = eight_digits(alloc, ticks)?;
    let text = format!(in alloc; "{}.{}", ticks / 100_000_000, fraction)?;
    Text::from_string(text)
}

/// A law: the text of the time of a sample is read as a decimal, from which `first_sample_from` gives
/// that sample, and `nearest_sample` too where it is below 2^40; and the text of a whole number is read
/// as that number.
pub fn times_read_back()
    ensures times { TimesReadBack }
    ensures counts { CountsReadBack }
{}
