//! Why bytes hold no TextGrid, or a TextGrid gives no annotation.
ghost use Rattle.std.specs.Prelude.{◌≡◌};
ghost use Rattle.textgrid.specs.Words.{word_of};

use emu_names::Memory;
use thiserror::Error;

/// What a TextGrid has to have at a place.
#[derive(Clone, Copy, Debug, PartialEq, Eq)]
pub enum GridWhat {
    /// The text `ooTextFile` or `ooTextFile short`, or behind it the text `TextGrid`.
    Header,
    /// A number.
    Number,
    /// A text between quotes.
    Text,
    /// The flag `<exists>`.
    Flag,
    /// A whole number from 0 to 65,536.
    Count,
    /// The text `IntervalTier` or `TextTier`.
    TierClass,
    /// Nothing more.
    End,
}

impl GridWhat {
    /// The same again.
    pub fn copy(&self) -> GridWhat
        ensures { result ≡ self.now }
    {
        *self
    }

    /// The word that a reply has for it, as `TierClass`.
    pub fn word(&self) -> &'static str
        ensures { result.now ≡ word_of self.now }
    {
        match self {
            GridWhat::Header => "Header",
            GridWhat::Number => "Number",
            GridWhat::Text => "Text",
            GridWhat::Flag => "Flag",
            GridWhat::Count => "Count",
            GridWhat::TierClass => "TierClass",
            GridWhat::End => "End",
        }
    }
}

/// Why bytes hold no TextGrid, or a TextGrid gives no annotation. Tiers and entries are counted from 1.
#[derive(Clone, Copy, Debug, PartialEq, Eq, Error)]
pub enum GridFault {
    /// Rule 45: at this byte of the file, counted from 0 with its mark, begins the first unit or
    /// sequence that is not well formed.
    #[error("not UTF-8 or UTF-16 at byte {0}")]
    BadEncoding(u64),
    /// Rule 46: the quote at this byte of the text begins a text that does not end.
    #[error("the text at byte {0} does not end")]
    BadText(u64),
    /// Rule 47: the number at this byte of the text has too many digits.
    #[error("too many digits at byte {0}")]
    TooManyDigits(u64),
    /// Rule 48: at this byte of the text stands a value that a TextGrid does not have there; or the
    /// text ends there too early.
    #[error("not what a TextGrid has at byte {at}")]
    Expected {
        /// The byte of the text in UTF-8, counted from 0 without its mark.
        at: u64,
        /// What a TextGrid has there.
        what: GridWhat,
    },
    /// Rule 49: a time of the entry is below 0.
    #[error("a time below 0 in entry {entry} of tier {tier}")]
    NegativeTime {
        /// The tier.
        tier: u32,
        /// The entry of the tier.
        entry: u32,
    },
    /// Rule 50: a time of the entry is past the last sample that an annotation may have.
    #[error("a time past the last sample in entry {entry} of tier {tier}")]
    TimeTooLarge {
        /// The tier.
        tier: u32,
        /// The entry of the tier.
        entry: u32,
    },
    /// Rule 51: the interval has no sample.
    #[error("no sample in entry {entry} of tier {tier}")]
    EmptyInterval {
        /// The tier.
        tier: u32,
        /// The entry of the tier.
        entry: u32,
    },
    /// Rule 44: memory ran out.
    #[error("out of memory")]
    Memory,
}

impl GridFault {
    /// The same fault again.
    pub fn copy(&self) -> GridFault
        ensures { result ≡ self.now }
    {
        *self
    }
}

impl From<Memory> for GridFault {
    ghost use Rattle.textgrid.specs.declared.fault.GridFault.TheVariants.{Memory as OutOfMemory};

    ghost from_gives = { λ _ e. e ≡ OutOfMemory };

    fn from(_error: Memory) -> GridFault {
        GridFault::Memory
    }
}
