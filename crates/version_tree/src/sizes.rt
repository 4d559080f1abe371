//! How many bundles pages have.

/// The most bundles of a page.
pub const PAGE: usize = 128;

/// The most bundles that two pages are joined at, and the bundles of the first page where one is cut.
pub const HALF: usize = 64;
