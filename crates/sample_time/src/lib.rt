//! Times of an annotation: samples of exact decimals of seconds, and seconds and whole microseconds of
//! samples.
#![tactic(auto)]

mod decimal;
mod micros;
mod printed;
mod reading;
mod sample;
mod significand;

pub use decimal::{Decimal, NumberFault, decimals_have_one_reading, read_decimal};
pub use micros::{micros_of_end, micros_of_point, micros_of_start};
pub use printed::{print_time, times_read_back};
pub use sample::{TimeFault, first_sample_from, nearest_sample};
