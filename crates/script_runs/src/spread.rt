//! Over what a live run is spread.

/// Over what a live run is spread. Whatever it is, the run keeps the same promise.
#[derive(Clone, Copy, Debug, PartialEq, Eq)]
pub struct Spread {
    /// Over how many passes its sessions look at the state, 1 to 16. Where there are fewer than sessions, these share
    /// them.
    pub readers: u32,
    /// How many workers a query has, 1 to 8.
    pub workers: u32,
}
