//! Tests of the lowest crates: names, streams, lists, JSON views, times, command lines.
#![tactic(auto)]

#[cfg(test)]
mod lists;
#[cfg(test)]
mod names;
#[cfg(test)]
mod streams;
#[cfg(test)]
mod times;
#[cfg(test)]
mod views;
#[cfg(test)]
mod words;
