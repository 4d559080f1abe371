//! What is answered of a file, in one line of text.
ghost use Rattle.std.specs.Prelude.{◌≤◌};

use emu_names::LevelKind;
use level_items::{Annot, AnnotItem, AnnotLevel, Time};
use std::alloc::{AllocError, Global};
use textgrid::{Grid, GridFault, GridWhat, read_textgrid, to_annot};

/// A word, and a place.
fn place_told(alloc: Global, word: &str, at: u64) -> Result<String, AllocError> {
    format!(in alloc; "{word} {at}")
}

/// A word, and an entry of a tier.
fn entry_told(alloc: Global, word: &str, tier: u32, entry: u32) -> Result<String, AllocError> {
    format!(in alloc; "{word} {tier} {entry}")
}

/// What is missed at a place.
fn missed_told(alloc: Global, at: u64, what: GridWhat) -> Result<String, AllocError> {
    let word = what.word();
    format!(in alloc; "Expected {at} {word}")
}

/// A fault, with its place.
fn fault_told(alloc: Global, fault: GridFault) -> Result<String, AllocError> {
    match fault {
        GridFault::BadEncoding(at) => place_told(alloc, "BadEncoding", at),
        GridFault::BadText(at) => place_told(alloc, "BadText", at),
        GridFault::TooManyDigits(at) => place_told(alloc, "TooManyDigits", at),
        GridFault::Expected { at, what } => missed_told(alloc, at, what.copy()),
        GridFault::NegativeTime { tier, entry } => entry_told(alloc, "NegativeTime", tier, entry),
        GridFault::TimeTooLarge { tier, entry } => entry_told(alloc, "TimeTooLarge", tier, entry),
        GridFault::EmptyInterval { tier, entry } => entry_told(alloc, "EmptyInterval", tier, entry),
        GridFault::Memory => String::from_str(alloc, "Memory"),
    }
}

/// Adds a time to what is told: its samples, with a colon behind them.
fn add_time(told: &mut String, time: &Time) -> Result<(), AllocError> {
    match *time {
        Time::NoTime => Ok(()),
        Time::Span { start, dur } => write!(told, "{start}+{dur}:"),
        Time::Point { at } => write!(told, "{at}:"),
    }
}

/// Adds an item to what is told: its id, its samples and its label.
fn add_item(told: &mut String, item: &AnnotItem) -> Result<(), AllocError> {
    let id = item.id.0;
    write!(told, " {id}:")?;
    add_time(told, &item.time)?;
    for label in item.labels.as_slice() {
        told.push_str(label.value.as_str())?;
    }
    Ok(())
}

/// The word of a kind.
fn kind_told(kind: LevelKind) -> &'static str {
    match kind {
        LevelKind::Item => "ITEM",
        LevelKind::Segment => "SEGMENT",
        LevelKind::Event => "EVENT",
    }
}

/// Adds a level to what is told: its name, its kind and its items.
fn add_level(told: &mut String, level: &AnnotLevel) -> Result<(), AllocError> {
    let name = level.name.as_str();
    let kind = kind_told(level.kind);
    write!(told, "/{name} {kind}")?;
    for item in level.items.as_slice() {
        add_item(told, item)?;
    }
    Ok(())
}

/// Adds an annotation to what is told: its rate and its levels.
fn add_annot(told: &mut String, annot: &Annot) -> Result<(), AllocError> {
    let rate = annot.rate;
    write!(told, "{rate}")?;
    for level in annot.levels.as_slice() {
        add_level(told, level)?;
    }
    Ok(())
}

/// An annotation: its rate and its levels.
fn annot_told(alloc: Global, annot: &Annot) -> Result<String, AllocError> {
    let mut told = String::new(alloc);
    add_annot(&mut told, annot)?;
    Ok(told)
}

/// Whether a copy of a grid is made, which has as many tiers.
fn is_copied(alloc: Global, grid: &Grid) -> bool {
    match grid.copy(alloc) {
        Ok(copied) => copied.tiers.len() == grid.tiers.len(),
        Err(_) => false,
    }
}

/// What is answered of an annotation that was made, or was not.
fn made_told(alloc: Global, made: Result<Annot, GridFault>) -> Result<String, AllocError> {
    match made {
        Err(fault) => fault_told(alloc, fault),
        Ok(annot) => {
            let told = annot_told(alloc, &annot);
            drop(annot);
            told
        }
    }
}

/// What is answered of the bytes of a file at this rate.
pub fn told(alloc: Global, rate: u32, bytes: &[u8]) -> Result<String, AllocError>
    requires rate_above { 1 ≤ rate }
    requires rate_below { rate ≤ 1000000 }
{
    if bytes.len() > u32::MAX as usize {
        return String::from_str(alloc, "too many bytes");
    }
    match read_textgrid(alloc, bytes) {
        Err(fault) => fault_told(alloc, fault.copy()),
        Ok(grid) => {
            let copied = is_copied(alloc, &grid);
            let made = to_annot(alloc, rate, &grid);
            drop(grid);
            if copied {
                made_told(alloc, made)
            } else {
                drop(made);
                String::from_str(alloc, "no copy")
            }
        }
    }
}
