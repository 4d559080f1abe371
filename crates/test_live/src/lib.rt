//! Live runs of the whole program, with the output that is known from outside.
#![tactic(auto)]

#[cfg(test)]
mod changes;
#[cfg(test)]
mod lanes;
#[cfg(test)]
mod live;
#[cfg(test)]
mod scripts;
#[cfg(test)]
mod stores;
#[cfg(test)]
mod undos;
#[cfg(test)]
mod workers;
