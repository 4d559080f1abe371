//! Where a text that is not UTF-8 goes wrong (The Unicode Standard, table 3-7).
ghost use Rattle.std.specs.Prelude.{◌≡◌, ◌≤◌, length, take, Err, IsUtf8};
ghost use Rattle.byte_forms.specs.Utf8.{asked, may_stand, then_asked, utf8_form};

/// The bytes from `low` to `high`, both included.
#[derive(Clone, Copy, Debug, PartialEq, Eq)]
pub(crate) struct Range {
    low: u8,
    high: u8,
}

/// A byte that goes on with a character, where the first one leaves it free.
const ANY_MORE: Range = Range {
    low: 0x80,
    high: 0xbf,
};

/// The ranges of the bytes that a first byte of a character asks for.
fn asked(first: u8) -> &'static [Range]
    ensures { result.now ≡ asked first }
{
    match first {
        0..0x80 => &[],
        0x80..0xe0 => &[ANY_MORE],
        0xe0 => &[
            Range {
                low: 0xa0,
                high: 0xbf,
            },
            ANY_MORE,
        ],
        0xe1..0xed => &[ANY_MORE, ANY_MORE],
        0xed => &[
            Range {
                low: 0x80,
                high: 0x9f,
            },
            ANY_MORE,
        ],
        0xee..0xf0 => &[ANY_MORE, ANY_MORE],
        0xf0 => &[
            Range {
                low: 0x90,
                high: 0xbf,
            },
            ANY_MORE,
            ANY_MORE,
        ],
        0xf1..0xf4 => &[ANY_MORE, ANY_MORE, ANY_MORE],
        _ => &[
            Range {
                low: 0x80,
                high: 0x8f,
            },
            ANY_MORE,
            ANY_MORE,
        ],
    }
}

/// Whether a byte may stand where these ranges are asked for and so many bytes follow it.
fn may_stand(ranges: &[Range], after: usize, byte: u8) -> bool
    ensures { result ≡ may_stand ranges.now after byte }
{
    match ranges {
        [range, ..] => range.low <= byte && byte <= range.high,
        [] => (byte < 0x80 || (0xc2 <= byte && byte <= 0xf4)) && asked(byte).len() <= after,
    }
}

/// The ranges that are asked for behind a byte.
fn then_asked(ranges: &'static [Range], byte: u8) -> &'static [Range]
    ensures { result.now ≡ then_asked ranges.now byte }
{
    match ranges {
        [_, more @ ..] => more,
        [] => asked(byte),
    }
}

/// How many bytes are left from the first one that cannot stand in a text of so many bytes, or 0 where all of them
/// can and there are too few.
pub(crate) fn left_at_fault(bytes: &[u8], len: usize) -> usize
    requires { len ≤ length bytes.now → IsUtf8 (take len bytes.now) → ⊥ }
    ensures { (utf8_form len).read bytes.now ≡ Err result }
{
    let mut ranges: &'static [Range] = &[];
    for place in 0..len {
        if bytes.len() <= place {
            return 0;
        }
        let byte = bytes[place];
        if !may_stand(ranges, len - place - 1, byte) {
            return bytes.len() - place;
        }
        ranges = then_asked(ranges, byte);
    }
    0
}
