//! The limits of the database, each of which stands here once.

/// The most bytes of a name.
pub const NAME_BYTES: usize = 255;

/// The most levels of a configuration.
pub const LEVELS: usize = 64;

/// The most link definitions of a configuration.
pub const LINK_DEFINITIONS: usize = 64;

/// The most attributes of a level.
pub const ATTRIBUTES: usize = 16;

/// The most label groups of one list, in a configuration or at an attribute.
pub const LABEL_GROUPS: usize = 256;

/// The most texts of one list of a configuration: legal labels, or the values of a label group.
pub const LIST_TEXTS: usize = 4_096;

/// The most names of tracks of a configuration.
pub const TRACKS: usize = 1_024;

/// The most bundles of the database.
pub const BUNDLES: usize = 10_000;

/// The most items of one bundle.
pub const BUNDLE_ITEMS: usize = 65_536;

/// The most items of all bundles together.
pub const ALL_ITEMS: usize = 2_000_000;

/// The most links of one bundle.
pub const BUNDLE_LINKS: usize = 262_144;

/// The most bytes of a label.
pub const LABEL_BYTES: usize = 4_096;

/// The highest sample rate, in samples a second. The lowest is 1.
pub const TOP_RATE: u64 = 1_000_000;

/// The number of samples that items may name: 2^40. The last one is this number less 1.
pub const SAMPLES: u64 = 1_099_511_627_776;

/// The highest id of an item, position on a level or number of a line that is read: 2^32 - 1.
pub const TOP_ID: u64 = 4_294_967_295;

/// The highest sample, duration or sample rate that is read: 2^63 - 1. Past the number of samples, or
/// past the highest rate, an edit is refused by its rule.
pub const TOP_WHOLE: u64 = 9_223_372_036_854_775_807;

/// The most bytes of the text of a query.
pub const QUERY_BYTES: usize = 4_096;

/// The most brackets of a query that are open at once.
pub const OPEN_BRACKETS: usize = 32;

/// The most tuples of a part of a query in one bundle.
pub const TUPLES: usize = 1_000_000;

/// The most edits of one list of edits, which are accepted or refused as one.
pub const LIST_EDITS: usize = 65_536;

/// The most edits of a history.
pub const HISTORY_EDITS: usize = 100_000;

/// The most bytes of a store.
pub const STORE_BYTES: u64 = 268_435_456;

/// The highest number of a session. The lowest is 1.
pub const SESSIONS: u32 = 16;

/// The most bytes of a line of a script, without its line feed.
pub const LINE_BYTES: usize = 16_777_216;

/// The most lines of a script.
pub const SCRIPT_LINES: u32 = 200_000;

/// The most bytes of a script, with its line feeds.
pub const SCRIPT_BYTES: usize = 268_435_456;

/// The most tiers of a TextGrid, and the most entries of a tier.
pub const GRID_ENTRIES: usize = 65_536;
