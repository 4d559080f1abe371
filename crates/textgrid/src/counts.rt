//! Whole numbers from 0 to 65,536: a TextGrid has one before its tiers, and one before the entries of each.
ghost use Rattle.emu_names.specs.declared.limits.TheConstants.{GRID_ENTRIES};
ghost use Rattle.std.specs.Prelude.{◌≡◌, ◌≤◌, ◌*◌, ◌/◌, ◌%◌, ◌^◌, IfSome};
ghost use Rattle.std.specs.Option.{SomeIff};
ghost use Rattle.textgrid.specs.Counts.{count_of};

use emu_names::limits::GRID_ENTRIES;
use sample_time::Decimal;

/// The most tiers of a grid, and the most entries of a tier.
const MOST: u128 = GRID_ENTRIES as u128;

/// `digits * 10^places`, where that is at most 65,536.
fn multiplied(digits: u128, places: u32) -> Option<u32>
    ensures { SomeIff result (digits * 10 ^ places ≤ GRID_ENTRIES) (digits * 10 ^ places) }
{
    if digits == 0 {
        return Some(0);
    }
    if digits > MOST || places > 4 {
        return None;
    }
    let product = digits * 10u128.pow(places);
    if product <= MOST {
        Some(product as u32)
    } else {
        None
    }
}

/// `digits / 10^places`, where that is whole and at most 65,536.
fn divided(digits: u128, places: u32) -> Option<u32>
    ensures { let quotient = digits / 10 ^ places
        in SomeIff result ((digits % 10 ^ places ≡ 0) × (quotient ≤ GRID_ENTRIES)) quotient }
{
    if digits == 0 {
        return Some(0);
    }
    if places > 38 {
        return None;
    }
    let power = 10u128.pow(places);
    if digits % power == 0 && digits / power <= MOST {
        Some((digits / power) as u32)
    } else {
        None
    }
}

/// The whole number that the decimal is, where it is one from 0 to 65,536.
pub fn count_of(number: &Decimal) -> Option<u32>
    ensures value { result ≡ count_of number.now }
    ensures within { IfSome result (λ n. n ≤ GRID_ENTRIES) }
{
    if number.negative && number.digits > 0 {
        None
    } else if number.exponent < 0 {
        divided(number.digits, number.exponent.unsigned_abs())
    } else {
        multiplied(number.digits, number.exponent.unsigned_abs())
    }
}
