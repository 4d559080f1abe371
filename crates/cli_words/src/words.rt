//! What a command line asks for, and why words are none.
ghost use Rattle.std.specs.Prelude.{◌≡◌};

use emu_names::{Memory, Text};
use thiserror::Error;

/// The most workers of a live run. The fewest is 1.
pub const WORKERS: u64 = 8;

/// How many workers a live run has where the words name no number.
pub const WORKERS_UNASKED: u32 = 4;

/// What a command line asks for.
#[derive(Debug, Drop)]
pub enum Words {
    /// `run [--store]`: the script, in its order.
    Run {
        /// Whether the run has a store.
        store: bool,
    },
    /// `live [--store] [--workers N]`: the sessions of the script at once.
    Live {
        /// Whether the run has a store.
        store: bool,
        /// How many workers answer a query: 1 to 8, and 4 where no number is named.
        workers: u32,
    },
    /// `ask EQL [--time LEVEL]`: one query of the store.
    Ask {
        /// The text of the query.
        eql: Text,
        /// The name of the level of the times, where it is given.
        time: Option<Text>,
    },
    /// `load NAME`: a database folder, into the store.
    Load {
        /// The database's name.
        name: Text,
    },
    /// `import SESSION BUNDLE RATE FILE`: a bundle from a TextGrid, into the store.
    Import {
        /// The session's name.
        session: Text,
        /// The bundle's name.
        bundle: Text,
        /// The sample rate in samples a second: 1 to 1,000,000.
        rate: u32,
        /// The file's path.
        file: Text,
    },
    /// `export SESSION BUNDLE`: the annotation of a bundle of the store.
    Export {
        /// The session's name.
        session: Text,
        /// The bundle's name.
        bundle: Text,
    },
    /// `textgrid SESSION BUNDLE`: a bundle of the store as a TextGrid.
    TextGrid {
        /// The session's name.
        session: Text,
        /// The bundle's name.
        bundle: Text,
    },
    /// `history`: the entries of the store.
    History,
    /// `config`: the configuration of the store.
    Config,
    /// `work NUMBER BUNDLES`: the script of a number.
    Work {
        /// The number.
        number: u64,
        /// How many bundles the script has: 1 to 10,000.
        bundles: u32,
    },
}

/// Why words are not read.
#[derive(Clone, Copy, Debug, PartialEq, Eq, Error)]
pub enum WordsFault {
    /// The words are no command line.
    #[error("the words are no command line")]
    Usage,
    /// Memory ran out.
    #[error("out of memory")]
    Memory,
}

impl From<Memory> for WordsFault {
    ghost use Rattle.std.specs.Prelude.{◌≡◌};
    ghost use Rattle.cli_words.specs.declared.words.WordsFault.TheVariants.{Memory as OutOfMemory};

    ghost from_gives = { λ _ e. e ≡ OutOfMemory };

    fn from(_error: Memory) -> WordsFault {
        WordsFault::Memory
    }
}
