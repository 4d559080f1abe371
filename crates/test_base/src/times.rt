//! Values worked by exact fractions outside this program (Python's `fractions`), where a reader through
//! binary floating-point numbers goes wrong.

use sample_time::NumberFault::{NotANumber, TooManyDigits};
use sample_time::TimeFault::{NegativeTime, TimeTooLarge};
use sample_time::{
    NumberFault, TimeFault, first_sample_from, micros_of_end, micros_of_point, micros_of_start,
    nearest_sample, print_time, read_decimal,
};
use std::test::Fail;

const LARGE: Result<u64, TimeFault> = Err(TimeTooLarge);

static SAMPLES: [(&str, u32, Result<u64, TimeFault>, Result<u64, TimeFault>); 54] = [
    ("0", 1, Ok(0), Ok(0)),
    ("0", 1000000, Ok(0), Ok(0)),
    ("-0.0", 44100, Ok(0), Ok(0)),
    ("0.201", 20000, Ok(4020), Ok(4020)),
    ("0.187425", 20000, Ok(3749), Ok(3749)),
    ("0.256925", 20000, Ok(5139), Ok(5139)),
    ("0.340175", 20000, Ok(6804), Ok(6804)),
    ("5.5511151231257827e-17", 20000, Ok(1), Ok(0)),
    ("5.5511151231257827e-17", 1, Ok(1), Ok(0)),
    ("0.5", 3, Ok(2), Ok(2)),
    ("0.5", 1, Ok(1), Ok(1)),
    ("0.49999999999999999999", 1, Ok(1), Ok(0)),
    ("0.50000000000000000001", 1, Ok(1), Ok(1)),
    ("1", 3, Ok(3), Ok(3)),
    ("0.1", 16000, Ok(1600), Ok(1600)),
    ("0.1", 44100, Ok(4410), Ok(4410)),
    ("0.1", 3, Ok(1), Ok(0)),
    ("0.3", 44100, Ok(13230), Ok(13230)),
    ("0.7", 1000000, Ok(700000), Ok(700000)),
    ("2.675", 20000, Ok(53500), Ok(53500)),
    ("1e-9999", 1000000, Ok(1), Ok(0)),
    ("1e-30", 1000000, Ok(1), Ok(0)),
    ("1e-26", 1, Ok(1), Ok(0)),
    ("1e-27", 1000000, Ok(1), Ok(0)),
    ("99999999999999999999e-26", 1000000, Ok(1), Ok(1)),
    (
        "99999999999999999999e-20",
        1000000,
        Ok(1000000),
        Ok(1000000),
    ),
    ("99999999999999999999e-21", 1, Ok(1), Ok(0)),
    ("0.00005", 20000, Ok(1), Ok(1)),
    ("0.000025", 20000, Ok(1), Ok(1)),
    ("0.0000249999", 20000, Ok(1), Ok(0)),
    ("0.0000250001", 20000, Ok(1), Ok(1)),
    ("0.00001", 44100, Ok(1), Ok(0)),
    ("1099511627776", 1, Ok(1099511627776), LARGE),
    ("1099511627776.0000001", 1, LARGE, LARGE),
    ("1099511627775.5", 1, Ok(1099511627776), LARGE),
    (
        "1099511627775.4999999",
        1,
        Ok(1099511627776),
        Ok(1099511627775),
    ),
    ("1099511627775", 1, Ok(1099511627775), Ok(1099511627775)),
    ("1099511.627776", 1000000, Ok(1099511627776), LARGE),
    ("1099511.6277755", 1000000, Ok(1099511627776), LARGE),
    (
        "1099511.6277754999",
        1000000,
        Ok(1099511627776),
        Ok(1099511627775),
    ),
    ("68719476.736", 16000, Ok(1099511627776), LARGE),
    ("68719476.73600001", 16000, LARGE, LARGE),
    ("1e12", 1, Ok(1000000000000), Ok(1000000000000)),
    ("2e12", 1, LARGE, LARGE),
    ("1.1e12", 1, LARGE, LARGE),
    ("1e13", 1, LARGE, LARGE),
    ("1e9999", 1, LARGE, LARGE),
    ("1e12", 1000000, LARGE, LARGE),
    ("-1e-9999", 1, Err(NegativeTime), Err(NegativeTime)),
    ("-0.5", 16000, Err(NegativeTime), Err(NegativeTime)),
    ("3600", 44100, Ok(158760000), Ok(158760000)),
    ("0.0226757369614512", 44100, Ok(1000), Ok(1000)),
    ("0.02267573696145125", 44100, Ok(1001), Ok(1000)),
    ("12345.678901234567", 44100, Ok(544444440), Ok(544444440)),
];

#[test]
fn samples_of_times(rt: HostRuntime) -> Result<(), Fail> {
    for &(text, rate, first, nearest) in &SAMPLES {
        assert!(rt; 1 <= rate && rate <= 1_000_000);
        let time = read_decimal(text.as_bytes())?;
        let found = (first_sample_from(&time, rate), nearest_sample(&time, rate));
        assert_eq!(rt; found, (first, nearest), "{text}, rate {rate}");
    }
    Ok(())
}

static DECIMALS: [(&str, bool, u128, i32); 20] = [
    ("7", false, 7, 0),
    ("-7", true, 7, 0),
    ("+7", false, 7, 0),
    ("007", false, 7, 0),
    ("70", false, 7, 1),
    ("700e-2", false, 7, 0),
    ("0.070", false, 7, -2),
    ("-0.0", false, 0, 0),
    ("0e5", false, 0, 0),
    ("-0e-9999", false, 0, 0),
    ("1e0009999", false, 1, 9999),
    ("1e-0009999", false, 1, -9999),
    ("123456789012345678900", false, 1234567890123456789, 2),
    ("00012345678901234567890.000", false, 1234567890123456789, 1),
    ("1.5E3", false, 15, 2),
    ("1.5e+3", false, 15, 2),
    ("1.5e-3", false, 15, -4),
    ("-12.50", true, 125, -1),
    ("10000000000000000000000000000000", false, 1, 31),
    ("0.00000000000000000000000000000001", false, 1, -32),
];

#[test]
fn decimals_in_one_form(rt: HostRuntime) -> Result<(), Fail> {
    for &(text, negative, digits, exponent) in &DECIMALS {
        let value = read_decimal(text.as_bytes())?;
        let found = (value.negative, value.digits, value.exponent);
        assert_eq!(rt; found, (negative, digits, exponent), "{text}");
    }
    Ok(())
}

/// Texts that are refused, with the fault.
static REFUSED: [(&str, NumberFault); 30] = [
    ("", NotANumber),
    (".5", NotANumber),
    ("5.", NotANumber),
    ("+", NotANumber),
    ("-", NotANumber),
    ("1e", NotANumber),
    ("1e+", NotANumber),
    ("1e5x", NotANumber),
    ("1.5.2", NotANumber),
    ("1 ", NotANumber),
    (" 1", NotANumber),
    ("1,5", NotANumber),
    ("0x10", NotANumber),
    ("inf", NotANumber),
    ("nan", NotANumber),
    ("--1", NotANumber),
    ("+-1", NotANumber),
    ("1e1.5", NotANumber),
    ("1_000", NotANumber),
    ("e5", NotANumber),
    ("1.e5", NotANumber),
    ("12345678901234567890x", NotANumber),
    ("123456789012345678901", TooManyDigits),
    ("1.00000000000000000001", TooManyDigits),
    ("0.123456789012345678901", TooManyDigits),
    ("1e10000", TooManyDigits),
    ("1e-10000", TooManyDigits),
    ("0e10000", TooManyDigits),
    ("1e99999999999999999999", TooManyDigits),
    ("100000000000000000001e-5", TooManyDigits),
];

#[test]
fn texts_that_are_refused(rt: HostRuntime) {
    for &(text, fault) in &REFUSED {
        assert_eq!(rt; read_decimal(text.as_bytes()), Err(fault), "{text}");
    }
}

/// A sample, a rate, and the microseconds of the start, the end and the point.
static MICROS: [(u64, u32, u64, u64, u64); 7] = [
    (0, 20000, 0, 25, 0),
    (3749, 20000, 187425, 187475, 187450),
    (5139, 20000, 256925, 256975, 256950),
    (1, 3, 166666, 500000, 333333),
    (1, 1000000, 0, 1, 1),
    (
        1099511627775,
        1,
        1099511627774500000,
        1099511627775500000,
        1099511627775000000,
    ),
    (
        1099511627775,
        1000000,
        1099511627774,
        1099511627775,
        1099511627775,
    ),
];

#[test]
fn microseconds_of_samples(rt: HostRuntime) {
    for &(sample, rate, start, end, point) in &MICROS {
        assert!(rt; sample < 1 << 40 && 1 <= rate && rate <= 1_000_000);
        let found = (
            micros_of_start(sample, rate),
            micros_of_end(sample, rate),
            micros_of_point(sample, rate),
        );
        assert_eq!(rt; found, (start, end, point), "{sample}, rate {rate}");
    }
}

/// A sample, a rate, and the time that is printed.
static PRINTED: [(u64, u32, &str); 14] = [
    (0, 1, "0.00000000"),
    (1, 3, "0.33333333"),
    (2, 3, "0.66666666"),
    (1, 44100, "0.00002267"),
    (1, 999999, "0.00000100"),
    (1, 1000000, "0.00000100"),
    (999999, 1000000, "0.99999900"),
    (3749, 20000, "0.18745000"),
    (5139, 20000, "0.25695000"),
    (6804, 20000, "0.34020000"),
    (158760000, 44100, "3600.00000000"),
    (1099511627776, 1, "1099511627776.00000000"),
    (1099511627776, 3, "366503875925.33333333"),
    (1099511627776, 1000000, "1099511.62777600"),
];

#[test]
fn times_of_samples(rt: HostRuntime) -> Result<(), Fail> {
    for &(sample, rate, wanted) in &PRINTED {
        assert!(rt; sample <= 1_099_511_627_776 && 1 <= rate && rate <= 1_000_000);
        let text = print_time(rt.alloc(), sample, rate)?;
        let time = read_decimal(wanted.as_bytes())?;
        let found = (text.as_str(), first_sample_from(&time, rate));
        assert_eq!(rt; found, (wanted, Ok(sample)), "{sample}, rate {rate}");
    }
    Ok(())
}
