//! Tests of queries and patterns: what is read, and what is asked of a database.
#![tactic(auto)]

#[cfg(test)]
mod asked;
#[cfg(test)]
mod hostile;
#[cfg(test)]
mod made;
#[cfg(test)]
mod patterns;
#[cfg(test)]
mod prepared;
#[cfg(test)]
mod queries;
#[cfg(test)]
mod threads;
