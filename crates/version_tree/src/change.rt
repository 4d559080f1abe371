//! A change of pages, before it is made.

use bundle_index::Indexed;
use emu_names::{Series, Shared};

/// Bundles that come into the place of some pages.
#[derive(Drop)]
pub(crate) struct Change {
    /// The place of the first page that goes.
    pub(crate) from: usize,
    /// The place behind the last page that goes.
    pub(crate) to: usize,
    /// The bundles that come.
    pub(crate) bundles: Series<Shared<Indexed>>,
}
