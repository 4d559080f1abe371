//! A short text of ASCII characters, which is written from its end to its beginning, as the digits of numbers are.
ghost use Rattle.std.specs.Prelude.{◌≡◌, ◌≤◌, ◌+◌, ◌++◌, [], length, IsAscii, decimal};
ghost use Rattle.segment_list.specs.Inner.Pieces.{number_or_null};

use itoa::write_digits;
use std::marker::Model;
use std::str;

/// The bytes of the longest text: three numbers of twenty digits, and the names of members between them.
const ROOM: usize = 96;

/// A text of ASCII characters that is being written, which contracts see as the text.
#[derive(Drop)]
pub(crate) struct Backwards {
    bytes: [u8; ROOM],
    at: usize,
}

impl Model for Backwards {
    ghost use Rattle.std.specs.Prelude.{List, ℕ, drop};
    ghost use Rattle.segment_list.specs.Inner.Pieces.{IsWritten};

    ghost Value = { List ℕ };

    ghost view = { λ b. drop b.at b.bytes };

    ghost invariant = { λ b. IsWritten b.bytes b.at };
}

impl Backwards {
    /// The text of no character.
    #[inline(always)]
    pub(crate) fn new() -> Backwards
        ensures text { result ≡ [] }
        ensures room { length result ≡ 0 }
    {
        Backwards {
            bytes: [0; ROOM],
            at: ROOM,
        }
    }

    /// Puts a text in front.
    #[inline(always)]
    pub(crate) fn put(&mut self, text: &str)
        requires ascii { IsAscii text.now }
        requires room { length text.now + length self.old ≤ 96 }
        ensures text { self.new ≡ text.now ++ self.old }
        ensures room { length self.new ≡ length text.now + length self.old }
    {
        let from = self.at - text.len();
        self.bytes[from..self.at].copy_from_slice(text.as_bytes());
        self.at = from;
    }

    /// Puts a number in front.
    #[inline(always)]
    pub(crate) fn put_number(&mut self, n: u64)
        requires { 20 + length self.old ≤ 96 }
        ensures text { self.new ≡ decimal n ++ self.old }
        ensures room { length self.new ≤ 20 + length self.old }
    {
        self.at = write_digits(n, &mut self.bytes, self.at);
    }

    /// Puts a number in front, or `null` where there is none.
    #[inline(always)]
    pub(crate) fn put_or_null(&mut self, n: Option<u64>)
        requires { 20 + length self.old ≤ 96 }
        ensures text { self.new ≡ number_or_null n ++ self.old }
        ensures room { length self.new ≤ 20 + length self.old }
    {
        match n {
            Some(n) => self.put_number(n),
            None => self.put("null"),
        }
    }

    /// The text.
    #[inline(always)]
    pub(crate) fn as_str(&self) -> &str
        ensures { result.now ≡ self.now }
    {
        unsafe { str::from_utf8_unchecked(&self.bytes[self.at..]) }
    }
}
