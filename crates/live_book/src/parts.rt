//! The fields of a book.

use crate::published::Published;
use db_config::Config;
use edit_journal::Journal;
use emu_disk::Disk;
use emu_names::Shared;
use std::sync::Arc;
use version_gate::Publisher;
use version_steps::edit_rules::Entries;

/// The fields of a book. It is no `Drop`, since its publisher is none.
pub struct Parts<D: Disk> {
    /// The configuration of the opening, which the store's head holds.
    pub opening: Shared<Config>,
    /// The version in force, after all entries.
    pub current: Arc<Published>,
    /// All entries.
    pub entries: Entries,
    /// How many of them stood when the book was made.
    pub opened: usize,
    /// After how many of them the configuration in force was surely there: each version after so many or more has it.
    pub since: usize,
    /// Who publishes the versions.
    pub publisher: Publisher<Published>,
    /// The store, if there is one.
    pub journal: Option<Journal<D>>,
}
