//! Texts with what each gives, the worked example in every encoding, and its cuts.
ghost use Rattle.std.specs.Prelude.{◌≤◌};

use crate::compared::{at_arrow, same_start, same_text};
use crate::grid_told::told;
use std::alloc::{AllocError, Global};
use std::process::Abort;
use std::test::Fail;

/// What is answered of a file at 20000 samples a second, and behind the arrow its text.
static ROWS: [&str; 30] = [
    r#"BadText 0 <- "a"#,
    "Expected 0 Header <- ",
    r#"Expected 0 Header <- "a""#,
    r#"Expected 0 Header <- "TextGrid""#,
    r#"Expected 13 Header <- "ooTextFile" "textgrid""#,
    r#"Expected 27 Flag <- "ooTextFile" "TextGrid" 0 1"#,
    r#"Expected 28 Flag <- "ooTextFile" "TextGrid" 0 1 <absent> 0"#,
    r#"Expected 43 Count <- "ooTextFile short" "TextGrid" 0 1 <exists> 65537"#,
    r#"Expected 43 Count <- "ooTextFile short" "TextGrid" 0 1 <exists> 0.5"#,
    r#"Expected 43 Count <- "ooTextFile short" "TextGrid" 0 1 <exists> -1"#,
    r#"Expected 48 TierClass <- "ooTextFile short" "TextGrid" 0 1 <exists> 65536"#,
    r#"20000 <- "ooTextFile short" "TextGrid" 0 1 <exists> 0"#,
    r#"20000 <- "ooTextFile short" "TextGrid" 0 1 <exists> -0"#,
    r#"20000 <- "ooTextFile short" "TextGrid" 0 1 <exists> +0.0e5"#,
    r#"Expected 45 End <- "ooTextFile short" "TextGrid" 0 1 <exists> 0 0"#,
    r#"20000 <- "ooTextFile short" "TextGrid" 0 1 <exists> 0 word ! 5 "x""#,
    r#"20000/T SEGMENT 1:0+0:a <- "ooTextFile short" "TextGrid" 0 1 <exists> 1 "IntervalTier" "T" 0 1 10e-1 0 0.00005 "a""#,
    r#"20000/T SEGMENT 1:0+0:say "a" <- "ooTextFile short" "TextGrid" 0 1 <exists> 1 "IntervalTier" "T" 0 1 1 0 0.00005 "say ""a""""#,
    r#"EmptyInterval 1 1 <- "ooTextFile short" "TextGrid" 0 1 <exists> 1 "IntervalTier" "T" 0 1 1 0.1 0.1 "a""#,
    r#"NegativeTime 1 1 <- "ooTextFile short" "TextGrid" 0 1 <exists> 1 "IntervalTier" "T" 0 1 1 -0.1 -0.2 "a""#,
    r#"TimeTooLarge 1 1 <- "ooTextFile short" "TextGrid" 0 1 <exists> 1 "IntervalTier" "T" 0 1 1 0 54975581.38881 "a""#,
    r#"20000/T SEGMENT 1:1+19998: <- "ooTextFile short" "TextGrid" 0 1 <exists> 1 "IntervalTier" "T" 0 1 1 5.5511151231257827e-17 1 """#,
    r#"Expected 45 TierClass <- "ooTextFile short" "TextGrid" 0 1 <exists> 1 "Tier" "T" 0 1 1 0 1 "a""#,
    r#"EmptyInterval 2 2 <- "ooTextFile short" "TextGrid" 0 1 <exists> 2 "TextTier" "T" 0 1 1 0 "a" "IntervalTier" "T" 0 1 2 0 1 "b" 1 0.5 "c""#,
    r#"20000/T EVENT 1:0:a/T SEGMENT 2:0+19999:b 3:20000+9999:c <- "ooTextFile short" "TextGrid" 0 1 <exists> 2 "TextTier" "T" 0 1 1 0 "a" "IntervalTier" "T" 0 1 2 0 1 "b" 1 1.5 "c""#,
    r#"TooManyDigits 45 <- "ooTextFile short" "TextGrid" 0 1 <exists> 1 123456789012345678901"#,
    r#"TooManyDigits 45 <- "ooTextFile short" "TextGrid" 0 1 <exists> 1 1e10000 "open"#,
    r#"BadText 45 <- "ooTextFile short" "TextGrid" 0 1 <exists> 0 "open"#,
    "Expected 7 Header <- <exists",
    r#"Expected 21 Header <- 5<exists>"ooTextFile""#,
];

/// The same at 3 samples a second.
static SLOW: [&str; 2] = [
    r#"3/T EVENT 1:2:a 2:1099511627775: <- "ooTextFile short" "TextGrid" 0 1 <exists> 1 "TextTier" "T" 0 1 2 0.5 "a" 366503875925.16 """#,
    r#"TimeTooLarge 1 1 <- "ooTextFile short" "TextGrid" 0 1 <exists> 1 "TextTier" "T" 0 1 1 366503875925.17 """#,
];

/// Three intervals, of which the first has an empty text.
static EXAMPLE: &str =
    "File type = \"ooTextFile\"\nObject class = \"TextGrid\"\n\nxmin = 0\nxmax = 0.340175\ntiers? <exists>\nsize = 1\nitem []:\n    item [1]:\n        class = \"IntervalTier\"\n        name = \"Phonetic\"\n        xmin = 0\n        xmax = 0.340175\n        intervals: size = 3\n        intervals [1]:\n            xmin = 0\n            xmax = 0.187425\n            text = \"\"\n        intervals [2]:\n            xmin = 0.187425\n            xmax = 0.256925\n            text = \"V\"\n        intervals [3]:\n            xmin = 0.256925\n            xmax = 0.340175\n            text = \"m\"\n";

/// What the example gives at 20000 samples a second.
static ITEMS: &str = "20000/Phonetic SEGMENT 1:0+3748: 2:3749+1389:V 3:5139+1664:m";

/// Bytes of a file, and what is answered of them.
static BYTES: [(&[u8], &str); 11] = [
    (
        b"\xfe\xff\x00\x22\x00\x6f\x00\x6f\x00\x54\x00\x65\x00\x78\x00\x74\x00\x46\x00\x69\x00\x6c\x00\x65\x00\x22\x00\x20\x00\x22\x00\x54\x00\x65\x00\x78\x00\x74\x00\x47\x00\x72\x00\x69\x00\x64\x00\x22\x00\x20\x00\x30\x00\x20\x00\x31\x00\x20\x00\x3c\x00\x65\x00\x78\x00\x69\x00\x73\x00\x74\x00\x73\x00\x3e\x00\x20\x00\x31\x00\x20\x00\x22\x00\x54\x00\x65\x00\x78\x00\x74\x00\x54\x00\x69\x00\x65\x00\x72\x00\x22\x00\x20\x00\x22\x00\xc4\x00\x22\x00\x20\x00\x30\x00\x20\x00\x31\x00\x20\x00\x31\x00\x20\x00\x30\x00\x20\x00\x22\xd8\x34\xdd\x1e\x00\x22",
        "20000/Ä EVENT 1:0:𝄞",
    ),
    (
        b"\xff\xfe\x22\x00\x6f\x00\x6f\x00\x54\x00\x65\x00\x78\x00\x74\x00\x46\x00\x69\x00\x6c\x00\x65\x00\x22\x00\x20\x00\x22\x00\x54\x00\x65\x00\x78\x00\x74\x00\x47\x00\x72\x00\x69\x00\x64\x00\x22\x00\x20\x00\x30\x00\x20\x00\x31\x00\x20\x00\x3c\x00\x65\x00\x78\x00\x69\x00\x73\x00\x74\x00\x73\x00\x3e\x00\x20\x00\x31\x00\x20\x00\x22\x00\x54\x00\x65\x00\x78\x00\x74\x00\x54\x00\x69\x00\x65\x00\x72\x00\x22\x00\x20\x00\x22\x00\xc4\x00\x22\x00\x20\x00\x30\x00\x20\x00\x31\x00\x20\x00\x31\x00\x20\x00\x30\x00\x20\x00\x22\x00\x34\xd8\x1e\xdd\x22\x00",
        "20000/Ä EVENT 1:0:𝄞",
    ),
    (
        b"\xef\xbb\xbf\x22\x6f\x6f\x54\x65\x78\x74\x46\x69\x6c\x65\x22\x20\x22\x54\x65\x78\x74\x47\x72\x69\x64\x22\x20\x30\x20\x31\x20\x3c\x65\x78\x69\x73\x74\x73\x3e\x20\x31\x20\x22\x54\x65\x78\x74\x54\x69\x65\x72\x22\x20\x22\xc3\x84\x22\x20\x30\x20\x31\x20\x31\x20\x30\x20\x22\xf0\x9d\x84\x9e\x22",
        "20000/Ä EVENT 1:0:𝄞",
    ),
    (b"\xfe\xff\x00\x22\x00\x61\x00\x22", "Expected 0 Header"),
    (b"\xff\xfe\x22\x00\x61\x00\x22\x00", "Expected 0 Header"),
    (b"\xfe\xff\x00\x22\x00\x61\x00", "BadEncoding 6"),
    (b"\xfe\xff\x00\x22\xd8\x34\x00", "BadEncoding 4"),
    (b"\xfe\xff\x00\x22\xdc\x00\x00\x22", "BadEncoding 4"),
    (b"\xef\xbb\xbf\x22\xc3\x28", "BadEncoding 4"),
    (b"\x22\xff", "BadEncoding 1"),
    (b"\xef\xbb\xbf\x22", "BadText 0"),
];

/// Reads the bytes of a row at a rate, and compares.
fn expect(
    rt: &impl Abort,
    alloc: Global,
    rate: u32,
    bytes: &[u8],
    row: &str,
    wanted: &str,
) -> Result<(), AllocError>
    requires rate_above { 1 ≤ rate }
    requires rate_below { rate ≤ 1000000 }
{
    let found = told(alloc, rate, bytes)?;
    same_text(rt, row, found.as_str(), wanted);
    Ok(())
}

/// Reads the texts of a table at a rate, and compares.
fn expect_rows(rt: &impl Abort, alloc: Global, rate: u32, rows: &[&str]) -> Result<(), AllocError>
    requires rate_above { 1 ≤ rate }
    requires rate_below { rate ≤ 1000000 }
{
    for row in rows {
        let (wanted, text) = at_arrow(row);
        expect(rt, alloc, rate, text.as_bytes(), text, wanted)?;
    }
    Ok(())
}

#[test]
fn texts(rt: HostRuntime) -> Result<(), Fail> {
    expect_rows(&rt, rt.alloc(), 20_000, &ROWS)?;
    expect_rows(&rt, rt.alloc(), 3, &SLOW)?;
    Ok(())
}

#[test]
fn encodings(rt: HostRuntime) -> Result<(), Fail> {
    for (bytes, answer) in &BYTES {
        expect(&rt, rt.alloc(), 20_000, bytes, "encodings", answer)?;
    }
    Ok(())
}

/// What a cut of the example is answered: the open text does not end, or else what comes next is missed at its end.
fn cut_told(alloc: Global, open: Option<usize>, end: usize) -> Result<String, AllocError> {
    match open {
        Some(quote) => format!(in alloc; "BadText {quote}"),
        None => format!(in alloc; "Expected {end} "),
    }
}

/// Reads a cut of the example, and compares how the answer begins.
fn expect_cut(
    rt: &impl Abort,
    alloc: Global,
    cut: &[u8],
    open: Option<usize>,
) -> Result<(), AllocError> {
    let found = told(alloc, 20_000, cut)?;
    let wanted = cut_told(alloc, open, cut.len())?;
    same_start(rt, found.as_str(), wanted.as_str());
    Ok(())
}

#[test]
fn cuts(rt: HostRuntime) -> Result<(), Fail> {
    let alloc = rt.alloc();
    let example = EXAMPLE.as_bytes();
    let mut open = None;
    for (end, byte) in example.iter().enumerate() {
        if end + 1 < example.len() {
            expect_cut(&rt, alloc, &example[..end], open)?;
        }
        if *byte == b'"' {
            open = if open.is_none() { Some(end) } else { None };
        }
    }
    expect(&rt, alloc, 20_000, example, "the example", ITEMS)?;
    Ok(())
}
