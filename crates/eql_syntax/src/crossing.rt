//! What threads may be given, and what they may share.

use crate::query::Query;

/// What may be sent to a thread and shared by threads.
fn crosses<T: Send + Sync>() {}

/// A query may be sent to a thread, and threads may share one.
pub fn queries_cross_threads() {
    crosses::<Query>();
}
