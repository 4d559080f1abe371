//! Tests of the core, of databases and of the printed replies, with what is known from outside.
#![tactic(auto)]

#[cfg(test)]
mod cores;
#[cfg(test)]
mod counts;
#[cfg(test)]
mod databases;
#[cfg(test)]
mod made;
#[cfg(test)]
mod merged;
#[cfg(test)]
mod replies;
