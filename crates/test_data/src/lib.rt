//! Tests of levels, links, configurations, annotations and TextGrids, worked by hand from their formats and rules.
#![tactic(auto)]

#[cfg(test)]
mod annot_printing;
#[cfg(test)]
mod compared;
#[cfg(test)]
mod config_names;
#[cfg(test)]
mod grid_files;
#[cfg(test)]
mod grid_told;
#[cfg(test)]
mod grid_written;
#[cfg(test)]
mod levels;
#[cfg(test)]
mod links;
#[cfg(test)]
mod reading;
