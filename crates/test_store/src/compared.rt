//! What was found beside what is wanted. A test calls these in the place of an assertion of its own, so that each of its functions is soon
//! proved.
use std::fmt::Debug;
use std::process::Abort;

/// Compares two values.
pub(crate) fn same<T: Copy + Debug + PartialEq>(rt: &impl Abort, found: T, wanted: T) {
    assert_eq!(rt; found, wanted);
}

/// Compares two texts, of which a row speaks.
pub(crate) fn same_text(rt: &impl Abort, row: &str, found: &str, wanted: &str) {
    assert_eq!(rt; found, wanted, "{row}");
}
