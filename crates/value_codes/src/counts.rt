//! How many edits a list has, as it is read: each byte within the bounds that those before it leave.
ghost use Rattle.std.specs.Prelude.{◌≡◌, ◌≤◌, ◌<◌, IfOk};
ghost use Rattle.emu_names.specs.declared.limits.TheConstants.{LIST_EDITS};
ghost use Rattle.byte_forms.specs.Inner.Reading.{Gives};
ghost use Rattle.value_codes.specs.Counts.{count_at, count_form};

use byte_forms::{ReadFault, Rest};

/// The least that the last byte of a count below 65,536 may be, behind this one.
fn least_behind(front: u8) -> u8
    ensures none { front ≡ 0 → result ≡ 2 }
    ensures some { (front ≡ 0 → ⊥) → result ≡ 0 }
{
    if front == 0 {
        return 2;
    }
    0
}

/// Reads the last byte of a count below 65,536, behind the one that makes `front` of those before it.
fn read_last(front: u8, from: &mut Rest<'_>) -> Result<u32, ReadFault>
    ensures { Gives result from.new (count_at 1 front from.old) }
{
    match from.read_byte_from_to(least_behind(front), 255) {
        Ok(last) => Ok(front as u32 * 256 + last as u32),
        Err(fault) => Err(fault),
    }
}

/// Reads the last two bytes of a count below 65,536.
fn read_third(from: &mut Rest<'_>) -> Result<u32, ReadFault>
    ensures { Gives result from.new (count_at 2 0 from.old) }
{
    match from.read_byte_from_to(0, 255) {
        Ok(front) => read_last(front, from),
        Err(fault) => Err(fault),
    }
}

/// Reads the last byte of the count 65,536.
fn read_last_zero(from: &mut Rest<'_>) -> Result<u32, ReadFault>
    ensures { Gives result from.new (count_at 1 256 from.old) }
{
    match from.read_byte_is(0) {
        Ok(_zero) => Ok(65_536),
        Err(fault) => Err(fault),
    }
}

/// Reads the last two bytes of the count 65,536.
fn read_third_zero(from: &mut Rest<'_>) -> Result<u32, ReadFault>
    ensures { Gives result from.new (count_at 2 1 from.old) }
{
    match from.read_byte_is(0) {
        Ok(_zero) => read_last_zero(from),
        Err(fault) => Err(fault),
    }
}

/// Reads what stands behind the second byte of a count.
fn read_behind(second: u8, from: &mut Rest<'_>) -> Result<u32, ReadFault>
    requires { second < 2 }
    ensures { Gives result from.new (count_at 2 second from.old) }
{
    match second {
        0 => read_third(from),
        _ => read_third_zero(from),
    }
}

/// Reads the last three bytes of a count.
fn read_second(from: &mut Rest<'_>) -> Result<u32, ReadFault>
    ensures { Gives result from.new (count_at 3 0 from.old) }
{
    match from.read_byte_below(2) {
        Ok(second) => read_behind(second, from),
        Err(fault) => Err(fault),
    }
}

/// Reads a count of edits.
fn read_first(from: &mut Rest<'_>) -> Result<u32, ReadFault>
    ensures { Gives result from.new (count_form.read from.old) }
{
    match from.read_byte_is(0) {
        Ok(_zero) => read_second(from),
        Err(fault) => Err(fault),
    }
}

/// Reads how many edits a list has, 2 to 65,536. A byte with which no such count goes on is where it stops.
pub fn read_count(from: &mut Rest<'_>) -> Result<u32, ReadFault>
    ensures count { Gives result from.new (count_form.read from.old) }
    ensures some { IfOk result (λ n. 2 ≤ n) }
    ensures few { IfOk result (λ n. n ≤ LIST_EDITS) }
{
    read_first(from)
}
