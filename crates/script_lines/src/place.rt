//! Where a line stands in its script.
use crate::line_set::LineSet;

/// Where a line stands in its script.
#[derive(Drop)]
pub(crate) struct Place<'a> {
    /// The line's number, counted from 1.
    pub(crate) number: u32,
    /// Whether the configuration has to stand here.
    pub(crate) wants_config: bool,
    /// The request lines before it.
    pub(crate) earlier: &'a LineSet,
}
