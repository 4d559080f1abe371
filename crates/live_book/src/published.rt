//! What a book publishes.

use version_steps::edit_rules::Entry;
use version_steps::version_tree::Version;

/// A version of the database, and the last entry before it. The opening's version has none, so the
/// published list tells the entries past the opening.
#[derive(Drop)]
pub struct Published {
    /// The version.
    pub version: Version,
    /// The last entry before it, if that is past the opening.
    pub last: Option<Entry>,
}
