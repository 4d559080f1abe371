//! The lines of a script, one after another.
ghost use Rattle.std.specs.Prelude.{◌≡◌, ◌<◌, ◌≤◌, ◌∷◌, [], length, MatchOption};
ghost use Rattle.script_runs.specs.Cuts.{cut};
ghost use Rattle.script_runs.specs.Inner.Cuts.{line_len};

use memchr::memchr;

/// How many bytes come before the first line feed, or how many there are.
#[tactic(auto, using(crate::proofs::LineEnds::feed_at, crate::proofs::LineEnds::no_feed))]
fn line_len(bytes: &[u8]) -> usize
    ensures value { result ≡ line_len bytes.now }
    ensures bound { result ≤ length bytes.now }
{
    match memchr(b'\n', bytes) {
        Some(len) => len,
        None => bytes.len(),
    }
}

/// The first line of these bytes without its line feed, and the bytes behind it. There is none at
/// the end, nor where a last line has no line feed and the script goes on `past` these bytes.
pub(crate) fn next_line(past: bool, bytes: &[u8]) -> Option<(&[u8], &[u8])>
    ensures lines { MatchOption result (cut past bytes.now ≡ []) (λ next. cut past bytes.now ≡
        next.0.now ∷ cut past next.1.now) }
    ensures shorter { MatchOption result (0 ≤ length bytes.now)
        (λ next. length next.1.now < length bytes.now) }
{
    if bytes.is_empty() {
        return None;
    }
    let len = line_len(bytes);
    if len < bytes.len() {
        let (line, rest) = bytes.split_at(len);
        let (_feed, after) = rest.split_at(1);
        return Some((line, after));
    }
    if past {
        return None;
    }
    Some((bytes, &[]))
}
