//! Tests of disks, folders, journals, gates and versions, with faults, stops and the images that a crash may leave.
#![tactic(auto)]

#[cfg(test)]
mod compared;
#[cfg(test)]
mod disks;
#[cfg(test)]
mod folders;
#[cfg(test)]
mod gates;
#[cfg(test)]
mod journals;
#[cfg(test)]
mod versions;
