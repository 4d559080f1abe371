//! The numbers of a command line.
ghost use Rattle.std.specs.Prelude.{◌≡◌, ◌≤◌, IfSome};
ghost use Rattle.std.specs.Str.{all_ascii_digits};
ghost use Rattle.cli_words.specs.Numbers.{is_number, number_in, number_of};

/// Whether the text is digits alone.
fn all_digits(text: &[u8]) -> bool
    ensures { result ≡ all_ascii_digits text.now }
{
    let mut rest = text;
    while let [byte, after @ ..] = rest {
        if !byte.is_ascii_digit() {
            return false;
        }
        rest = after;
    }
    true
}

/// Whether the text is decimal digits without a leading zero, or `0`.
fn is_number(text: &str) -> bool
    ensures { result ≡ is_number text.now }
{
    let bytes = text.as_bytes();
    all_digits(bytes) && (bytes.len() == 1 || (1 < bytes.len() && bytes[0] != b'0'))
}

/// The number of the text, where it is one and below 2^64.
pub(crate) fn number_of(text: &str) -> Option<u64>
    ensures { result ≡ number_of text.now }
{
    if !is_number(text) {
        return None;
    }
    text.parse::<u64>().ok()
}

/// The number of the text, where it is one from `low` to `high`.
pub(crate) fn number_in(text: &str, low: u64, high: u64) -> Option<u64>
    ensures value { result ≡ number_in low high text.now }
    ensures top { IfSome result (λ number. number ≤ high) }
{
    match number_of(text) {
        Some(number) if low <= number && number <= high => Some(number),
        _ => None,
    }
}
