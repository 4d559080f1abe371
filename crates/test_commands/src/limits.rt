//! The limits of a line, of the number of lines and of a script, each at the limit and one past it.
use crate::runs::{CONFIG, CONFIG_DONE, Ran, alone, run_by};
use emu_disk::MemoryDisk;
use emu_io::{Failed, Source};
use label_match::RegexMaker;
use std::alloc::Global;
use std::io::Read;
use std::process::Abort;
use std::sync::Wait;
use std::test::Fail;
use std::thread::Threads;

const WITHIN: &[&str] = &[CONFIG_DONE];

const OVER: &[&str] = &[CONFIG_DONE, "{\"cause\":\"Limit\",\"status\":9}"];

/// How many bytes the line of the configuration has.
const HEAD: u64 = CONFIG.len() as u64;

/// A source that makes its bytes as it is read: the line of the configuration, and then lines of
/// spaces.
#[derive(Drop)]
struct Blanks {
    /// What is left of the configuration.
    head: &'static [u8],
    /// How many bytes follow.
    left: u64,
    /// How many spaces stand in each line.
    width: u64,
    /// How many spaces of the line were made.
    column: u64,
}

impl Source for Blanks {
    ghost use Rattle.std.specs.Prelude.{None};

    ghost left = { λ _. None };

    ghost faults = { λ _. 0 };

    fn read(&mut self, buf: &mut [u8]) -> Result<usize, Failed> {
        if let Ok(count) = self.head.read(buf)
            && count > 0
        {
            return Ok(count);
        }
        let spaces = self.width.saturating_sub(self.column);
        let most = match (self.width, spaces) {
            (0, _) => self.left,
            (_, 0) => 1,
            _ => spaces,
        };
        buf.fill(if spaces == 0 { b'\n' } else { b' ' });
        let count = self.left.min(most).min(buf.len() as u64);
        self.column = if spaces == 0 {
            0
        } else {
            self.column.saturating_add(count)
        };
        self.left -= count;
        Ok(count as usize)
    }
}

/// How many spaces each line behind the configuration has, how many bytes the script, and how its run ends.
type Row = (u64, u64, u8, &'static [&'static str]);

/// Runs the script of a row.
fn run_row<R: Threads + Wait + Sync>(rt: &R, alloc: Global, row: &Row) -> Result<Ran, Fail> {
    let &(width, len, _, _) = row;
    let mut source = Blanks {
        head: CONFIG.as_bytes(),
        left: len.saturating_sub(HEAD),
        width,
        column: width,
    };
    let mut patterns = RegexMaker::new();
    let given = alone(alloc, "run", 0)?;
    let disk = MemoryDisk::new(alloc, &[])?;
    Ok(run_by(rt, alloc, given, &mut source, disk, &mut patterns))
}

/// Whether the script of a row ends as the row says.
fn ends<R: Threads + Wait + Sync>(rt: &R, alloc: Global, row: &Row) -> Result<bool, Fail> {
    let ran = run_row(rt, alloc, row)?;
    let good = ran.gave(row.2, row.3);
    drop(ran);
    Ok(good)
}

/// Runs the scripts of rows, and compares how they end.
fn expect_rows<R: Abort + Threads + Wait + Sync>(
    rt: &R,
    alloc: Global,
    rows: &[Row],
) -> Result<(), Fail> {
    for row in rows {
        let good = ends(rt, alloc, row)?;
        assert!(rt; good, "width {}, {} bytes", row.0, row.1);
    }
    Ok(())
}

static LINES: [Row; 4] = [
    (0, HEAD + 200_000, 0, WITHIN),
    (0, HEAD + 200_001, 9, OVER),
    (16_777_216, HEAD + 1 + 16_777_216, 0, WITHIN),
    (16_777_217, HEAD + 1 + 16_777_217, 9, OVER),
];

#[test]
fn limits_of_lines(rt: HostRuntime) -> Result<(), Fail> {
    expect_rows(&rt, rt.alloc(), &LINES)
}

static SCRIPTS: [Row; 2] = [
    (9_999, 268_435_456, 0, WITHIN),
    (9_999, 268_435_457, 9, OVER),
];

#[test]
fn limit_of_a_script(rt: HostRuntime) -> Result<(), Fail> {
    expect_rows(&rt, rt.alloc(), &SCRIPTS)
}
