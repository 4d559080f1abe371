//! What threads may be given, and what they may share.

use crate::asked::Asked;
use crate::prepared::Prepared;

/// What may be sent to a thread and shared by threads.
fn crosses<T: Send + Sync>() {}

/// A prepared query may be sent to a thread, and threads may share one.
pub fn prepared_cross_threads() {
    crosses::<Prepared>();
}

/// A query that was resolved may be sent to a thread, and threads may share one.
pub fn asked_cross_threads<'a>() {
    crosses::<Asked<'a>>();
}
