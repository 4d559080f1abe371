//! Rows of bits, and queries whose results were worked out apart from the code, asked of both evaluators.
#![tactic(auto)]

#[cfg(test)]
mod lanes;
#[cfg(test)]
mod made;
#[cfg(test)]
mod results;
#[cfg(test)]
mod spans;
#[cfg(test)]
mod wide;
