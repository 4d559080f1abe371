//! The program in order, by its words: scripts at their limits, reads and writes that fail, and runs and commands over a store: a disk
//! and a folder of which calls fail, a disk that stops, bytes that are no store.
#![tactic(auto)]

#[cfg(test)]
mod commands;
#[cfg(test)]
mod limits;
#[cfg(test)]
mod outside;
#[cfg(test)]
mod patterns;
#[cfg(test)]
mod runs;
#[cfg(test)]
mod stores;
