//! The TextGrid of a bundle.
ghost use Rattle.std.specs.Prelude.{◌≡◌, ◌≤◌, All, IfOk};
ghost use Rattle.std.specs.Option.{option_map};
ghost use Rattle.std.specs.Str.{IsUtf8};
ghost use Rattle.emu_names.specs.declared.limits.TheConstants.{SAMPLES, TOP_RATE};
ghost use Rattle.bundle_state.specs.Built.{FitsConfig};
ghost use Rattle.grid_writing.specs.Back.{ComesBack};
ghost use Rattle.grid_writing.specs.Layout.{grid_text};
ghost use Rattle.grid_writing.specs.Written.{crowded, unless_crowded, written};
ghost use Rattle.grid_writing.specs.Inner.Answers.{Writes};
ghost use Rattle.grid_writing.specs.Inner.Within.{IsLevelInTime};

use crate::laws::written_comes_back;
use crate::levels::{TimeLevel, end_of, time_levels};
use crate::text::grid_text;
use bundle_state::Bundle;
use db_config::Config;
use emu_names::limits::GRID_ENTRIES;
use emu_names::{Memory, Text};
use std::alloc::Global;
use thiserror::Error;

/// Why a bundle is not written as a TextGrid.
#[derive(Debug, Drop, Error)]
pub enum WriteFault {
    /// The tier of the level of this name would have more than 65,536 entries.
    #[error("too many entries on the level {0}")]
    TooManyEntries(Text),
    /// Memory ran out.
    #[error("out of memory")]
    Memory,
}

impl From<Memory> for WriteFault {
    ghost use Rattle.grid_writing.specs.declared.write.WriteFault.TheVariants.{Memory as OutOfMemory};

    ghost from_gives = { λ _ e. e ≡ OutOfMemory };

    fn from(_error: Memory) -> WriteFault {
        WriteFault::Memory
    }
}

/// The first level with too many entries.
fn crowded(levels: &[TimeLevel]) -> Option<&TimeLevel>
    ensures { option_map (λ l. l.now.name) result ≡ crowded levels.now }
{
    let mut rest = levels;
    while let [level, behind @ ..] = rest {
        if GRID_ENTRIES < level.entries.len() {
            return Some(level);
        }
        rest = behind;
    }
    None
}

/// The text of levels, unless one of them has too many entries.
fn text_of(alloc: Global, rate: u32, end: u64, levels: &[TimeLevel]) -> Result<Text, WriteFault>
    requires rate_above { 1 ≤ rate }
    requires rate_below { rate ≤ TOP_RATE }
    requires end { end ≤ SAMPLES }
    requires in_time { All IsLevelInTime levels.now }
    ensures says { Writes result
        (unless_crowded (crowded levels.now) (grid_text rate end levels.now)) }
    ensures utf8 { IfOk result IsUtf8 }
{
    match crowded(levels) {
        Some(level) => {
            let name = Text::new(alloc, level.name.as_str())?;
            Err(WriteFault::TooManyEntries(name))
        }
        None => {
            let text = grid_text(alloc, rate, end, levels)?;
            Ok(Text::from_string(text)?)
        }
    }
}

/// The SEGMENT and EVENT levels of a bundle that fits the configuration, as a TextGrid in the long text
/// form: one tier for each, in the order of the configuration. (Praat manual, "TextGrid file formats".)
///
/// The grid runs from 0 to the time of the sample behind the last one of any item. An interval tier leaves
/// no time out: where the segments of a level do, intervals with an empty text stand. The text of an
/// interval or a point is the label of its level's first attribute. Times have eight decimals. Each line
/// ends with a line feed.
///
/// Read by `read_textgrid` and `to_annot` at the bundle's rate the text gives levels of the same names,
/// kinds and order, with the times and labels that were written.
///
/// `TooManyEntries` comes exactly where a tier would have more than 65,536 entries, and names the first such
/// level. The only other refusal is want of memory.
#[tactic(auto, unfolding(crate::specs::Written::written))]
pub fn write_textgrid(alloc: Global, config: &Config, bundle: &Bundle) -> Result<Text, WriteFault>
    requires { FitsConfig config.now bundle.now }
    ensures text { Writes result (written config.now bundle.now) }
    ensures again { IfOk result (λ text. ComesBack config.now bundle.now text) }
{
    // Asked for what they promise: the configuration is valid, the bundle keeps its rules, and what is
    // written comes back.
    let _parts = config.parts();
    let _count = bundle.item_count();
    written_comes_back();
    let end = end_of(config, bundle);
    let levels = time_levels(alloc, config, bundle, end)?;
    text_of(alloc, bundle.rate(), end, levels.as_slice())
}
