//! Whole microseconds of samples.

ghost use Rattle.std.specs.Prelude.{◌≡◌, ◌<◌, ◌≤◌};
ghost use Rattle.emu_names.specs.declared.limits.TheConstants.{SAMPLES, TOP_RATE};
ghost use Rattle.sample_time.specs.Micros.{micros_of_start, micros_of_end, micros_of_point};

/// The time in whole microseconds, rounded down, at which the segment that begins with the sample
/// `start` begins: half a sample before it, and 0 at sample 0. `rate` is in samples a second.
/// (EMU-SDMS Manual, "The emuDB format": `sampleStart`.)
pub fn micros_of_start(start: u64, rate: u32) -> u64
    requires in_range { start < SAMPLES }
    requires rate_above { 1 ≤ rate }
    requires rate_below { rate ≤ TOP_RATE }
    ensures { result ≡ micros_of_start start rate }
{
    if start == 0 {
        0
    } else {
        (2 * start - 1) * 1_000_000 / (2 * rate as u64)
    }
}

/// The time in whole microseconds, rounded down, at which the segment that ends with the sample
/// `last` ends: half a sample behind it. `rate` is in samples a second.
/// (EMU-SDMS Manual, "The emuDB format": `sampleStart` and `sampleDur`.)
pub fn micros_of_end(last: u64, rate: u32) -> u64
    requires in_range { last < SAMPLES }
    requires rate_above { 1 ≤ rate }
    requires rate_below { rate ≤ TOP_RATE }
    ensures { result ≡ micros_of_end last rate }
{
    (2 * last + 1) * 1_000_000 / (2 * rate as u64)
}

/// The time in whole microseconds, rounded down, of the event at the sample `at`. `rate` is in
/// samples a second. (EMU-SDMS Manual, "The emuDB format": `samplePoint`.)
pub fn micros_of_point(at: u64, rate: u32) -> u64
    requires in_range { at < SAMPLES }
    requires rate_above { 1 ≤ rate }
    requires rate_below { rate ≤ TOP_RATE }
    ensures { result ≡ micros_of_point at rate }
{
    at * 1_000_000 / rate as u64
}
