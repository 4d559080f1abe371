//! The text of a grid.
ghost use Rattle.std.specs.Prelude.{◌≡◌, ◌≤◌, ◌++◌, ℕ, List, All, IfOk, OnOk, string_bytes};
ghost use Rattle.emu_names.specs.declared.limits.TheConstants.{SAMPLES, TOP_RATE};
ghost use Rattle.grid_writing.specs.Layout.{class_text, entries_lines, entry_lines, grid_text, interval_lines, point_lines, size_lead, tier_lines, tiers_lines};
ghost use Rattle.grid_writing.specs.Inner.Within.{IsEntryInTime, IsLevelInTime};

use crate::entries::{Entry, last_sample};
use crate::levels::TimeLevel;
use crate::lines::{put_count, put_line, put_text, put_time};
use emu_names::Memory;
use std::alloc::Global;

/// Puts an interval behind a text. The only refusal is want of memory.
fn put_interval(
    alloc: Global,
    made: &mut String,
    rate: u32,
    number: usize,
    entry: &Entry,
) -> Result<(), Memory>
    requires rate_above { 1 ≤ rate }
    requires rate_below { rate ≤ TOP_RATE }
    requires in_time { IsEntryInTime entry.now }
    ensures { OnOk result ((rest : List ℕ) → string_bytes made.new ++ rest
        ≡ string_bytes made.old ++ interval_lines rate number entry.now rest) }
{
    let time = entry.time();
    let first = time.first_sample();
    let end = last_sample(time) + 1;
    put_count(alloc, made, "        intervals [", number, "]:\n")?;
    put_time(alloc, made, "            xmin = ", first, rate, "\n")?;
    put_time(alloc, made, "            xmax = ", end, rate, "\n")?;
    put_text(alloc, made, "            text = \"", entry.label())
}

/// Puts a point behind a text. The only refusal is want of memory.
fn put_point(
    alloc: Global,
    made: &mut String,
    rate: u32,
    number: usize,
    entry: &Entry,
) -> Result<(), Memory>
    requires rate_above { 1 ≤ rate }
    requires rate_below { rate ≤ TOP_RATE }
    requires in_time { IsEntryInTime entry.now }
    ensures { OnOk result ((rest : List ℕ) → string_bytes made.new ++ rest
        ≡ string_bytes made.old ++ point_lines rate number entry.now rest) }
{
    let at = entry.time().first_sample();
    put_count(alloc, made, "        points [", number, "]:\n")?;
    put_time(alloc, made, "            number = ", at, rate, "\n")?;
    put_text(alloc, made, "            mark = \"", entry.label())
}

/// Puts an entry behind a text. The only refusal is want of memory.
fn put_entry(
    alloc: Global,
    made: &mut String,
    segments: bool,
    rate: u32,
    number: usize,
    entry: &Entry,
) -> Result<(), Memory>
    requires rate_above { 1 ≤ rate }
    requires rate_below { rate ≤ TOP_RATE }
    requires in_time { IsEntryInTime entry.now }
    ensures { OnOk result ((rest : List ℕ) → string_bytes made.new ++ rest
        ≡ string_bytes made.old ++ entry_lines segments rate number entry.now rest) }
{
    if segments {
        put_interval(alloc, made, rate, number, entry)
    } else {
        put_point(alloc, made, rate, number, entry)
    }
}

/// Puts the entries of a tier behind a text. The only refusal is want of memory.
fn put_entries(
    alloc: Global,
    made: &mut String,
    segments: bool,
    rate: u32,
    entries: &[Entry],
) -> Result<(), Memory>
    requires rate_above { 1 ≤ rate }
    requires rate_below { rate ≤ TOP_RATE }
    requires in_time { All IsEntryInTime entries.now }
    ensures { OnOk result ((rest : List ℕ) → string_bytes made.new ++ rest
        ≡ string_bytes made.old ++ entries_lines segments rate 0 entries.now rest) }
{
    for (index, entry) in entries.iter().enumerate() {
        put_entry(alloc, made, segments, rate, index + 1, entry)?;
    }
    Ok(())
}

/// The class of a tier.
fn class_text(segments: bool) -> &'static str
    ensures { result.now ≡ class_text segments }
{
    if segments { "IntervalTier" } else { "TextTier" }
}

/// What leads to the number of its entries.
fn size_lead(segments: bool) -> &'static str
    ensures { result.now ≡ size_lead segments }
{
    if segments {
        "        intervals: size = "
    } else {
        "        points: size = "
    }
}

/// Puts a tier behind a text. The only refusal is want of memory.
fn put_tier(
    alloc: Global,
    made: &mut String,
    rate: u32,
    end: u64,
    number: usize,
    level: &TimeLevel,
) -> Result<(), Memory>
    requires rate_above { 1 ≤ rate }
    requires rate_below { rate ≤ TOP_RATE }
    requires end { end ≤ SAMPLES }
    requires in_time { IsLevelInTime level.now }
    ensures { OnOk result ((rest : List ℕ) → string_bytes made.new ++ rest
        ≡ string_bytes made.old ++ tier_lines rate end number level.now rest) }
{
    let entries = level.entries.as_slice();
    put_count(alloc, made, "    item [", number, "]:\n")?;
    put_line(
        made,
        "        class = \"",
        class_text(level.segments),
        "\"\n",
    )?;
    put_text(alloc, made, "        name = \"", level.name.as_str())?;
    put_time(alloc, made, "        xmin = ", 0, rate, "\n")?;
    put_time(alloc, made, "        xmax = ", end, rate, "\n")?;
    put_count(alloc, made, size_lead(level.segments), entries.len(), "\n")?;
    put_entries(alloc, made, level.segments, rate, entries)
}

/// Puts tiers behind a text. The only refusal is want of memory.
fn put_tiers(
    alloc: Global,
    made: &mut String,
    rate: u32,
    end: u64,
    levels: &[TimeLevel],
) -> Result<(), Memory>
    requires rate_above { 1 ≤ rate }
    requires rate_below { rate ≤ TOP_RATE }
    requires end { end ≤ SAMPLES }
    requires in_time { All IsLevelInTime levels.now }
    ensures { OnOk result ((rest : List ℕ) → string_bytes made.new ++ rest
        ≡ string_bytes made.old ++ tiers_lines rate end 0 levels.now rest) }
{
    for (index, level) in levels.iter().enumerate() {
        put_tier(alloc, made, rate, end, index + 1, level)?;
    }
    Ok(())
}

/// The text of a grid of these levels, with this end. The only refusal is want of memory.
#[tactic(auto, unfolding(crate::specs::Layout::grid_text))]
pub fn grid_text(alloc: Global, rate: u32, end: u64, levels: &[TimeLevel]) -> Result<String, Memory>
    requires rate_above { 1 ≤ rate }
    requires rate_below { rate ≤ TOP_RATE }
    requires end { end ≤ SAMPLES }
    requires in_time { All IsLevelInTime levels.now }
    ensures { IfOk result (λ text. string_bytes text ≡ grid_text rate end levels.now) }
{
    let head = "File type = \"ooTextFile\"\nObject class = \"TextGrid\"\n\nxmin = ";
    let mut made = String::new(alloc);
    put_time(alloc, &mut made, head, 0, rate, "\n")?;
    put_time(
        alloc,
        &mut made,
        "xmax = ",
        end,
        rate,
        "\ntiers? <exists>\n",
    )?;
    put_count(alloc, &mut made, "size = ", levels.len(), "\nitem []:\n")?;
    put_tiers(alloc, &mut made, rate, end, levels)?;
    Ok(made)
}
