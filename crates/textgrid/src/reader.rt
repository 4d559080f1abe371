//! The grid that the bytes of a file hold.
ghost use Rattle.emu_names.specs.declared.limits.TheConstants.{GRID_ENTRIES};
ghost use Rattle.std.specs.Prelude.{◌≡◌, ◌≢◌, IfOk, IfErr, Ok, Err, ◌*◌, ◌≤◌, length};
ghost use Rattle.textgrid.specs.Inner.Told.{TellsFault};
ghost use Rattle.textgrid.specs.Inner.Levels.{entry_total};
ghost use Rattle.textgrid.specs.Inner.Short.{IsShortGrid};
ghost use Rattle.textgrid.specs.Encodings.{text_behind};
ghost use Rattle.textgrid.specs.Grids.{grid_of_text, grid_of_decoded, grid_of};
ghost use Rattle.textgrid.specs.Inner.Grids.{grid_of_utf16};

use crate::encoding::{Encoding, encoding_of, utf8_text, utf16_text};
use crate::entries::Halt;
use crate::fault::GridFault;
use crate::grid::Grid;
use crate::scan::read_values;
use crate::tiers::grid;
use std::alloc::Global;

/// The grid of a text.
#[tactic(auto, using(crate::proofs::Kept::grid_short, crate::proofs::Kept::grid_tiers, crate::proofs::Kept::grid_entries), unfolding(crate::specs::Grids::grid_of_text))]
fn grid_of_text(alloc: Global, text: &str) -> Result<Grid, GridFault>
    ensures ok { IfOk result (λ grid. grid_of_text text.now ≡ Ok grid) }
    ensures err { TellsFault result (grid_of_text text.now) }
    ensures tiers { IfOk result (λ grid. length grid.tiers ≤ GRID_ENTRIES) }
    ensures entries { IfOk result (λ grid. 2 * entry_total grid.tiers ≤ length text.now) }
    ensures short { IfOk result IsShortGrid }
{
    let mut values = read_values(alloc, text)?;
    match grid(alloc, &mut values) {
        Ok(grid) => Ok(grid),
        Err(Halt::Memory) => Err(GridFault::Memory),
        Err(Halt::Stopped(place, what)) => {
            let at = place.unwrap_or(text.len() as u64);
            Err(GridFault::Expected { at, what })
        }
    }
}

/// The grid of a text in UTF-16.
fn grid_of_utf16(alloc: Global, big: bool, bytes: &[u8]) -> Result<Grid, GridFault>
    ensures ok { IfOk result (λ grid. grid_of_utf16 big bytes.now ≡ Ok grid) }
    ensures err { TellsFault result (grid_of_utf16 big bytes.now) }
    ensures tiers { IfOk result (λ grid. length grid.tiers ≤ GRID_ENTRIES) }
    ensures entries { IfOk result (λ grid. entry_total grid.tiers ≤ length bytes.now) }
    ensures short { IfOk result IsShortGrid }
{
    let text = utf16_text(alloc, big, bytes)?;
    grid_of_text(alloc, text.as_str())
}

/// The grid of the bytes of a file behind their mark.
fn grid_behind(
    alloc: Global,
    encoding: Encoding,
    mark: usize,
    bytes: &[u8],
) -> Result<Grid, GridFault>
    requires { mark ≤ 3 }
    ensures ok { let told = grid_of_decoded (text_behind encoding mark bytes.now)
        in IfOk result (λ grid. told ≡ Ok grid) }
    ensures err { TellsFault result (grid_of_decoded (text_behind encoding mark bytes.now)) }
    ensures tiers { IfOk result (λ grid. length grid.tiers ≤ GRID_ENTRIES) }
    ensures entries { IfOk result (λ grid. entry_total grid.tiers ≤ length bytes.now) }
    ensures short { IfOk result IsShortGrid }
{
    match encoding {
        Encoding::Utf8 => {
            let text = utf8_text(bytes, mark)?;
            grid_of_text(alloc, text)
        }
        Encoding::Utf16BigEndian => grid_of_utf16(alloc, true, bytes),
        Encoding::Utf16LittleEndian => grid_of_utf16(alloc, false, bytes),
    }
}

/// The grid of the bytes of a file, in the long or the short text form. (Praat manual, "TextGrid file
/// formats".)
///
/// The bytes are UTF-16 where they begin with its mark, in either order, and else UTF-8, with or without
/// a mark. In the text, comments and words that are no numbers are passed over; what is left are numbers,
/// texts between quotes and flags.
///
/// Refused are bytes that are not well formed (`BadEncoding`); else the first text that does not end
/// (`BadText`) or number that is too long (`TooManyDigits`); else the first value with which no TextGrid
/// goes on, or the end (`Expected`). `grids_are_written_out` says what that means.
#[tactic(auto, unfolding(crate::specs::Grids::grid_of, crate::specs::Encodings::text_of))]
pub fn read_textgrid(alloc: Global, bytes: &[u8]) -> Result<Grid, GridFault>
    ensures ok { IfOk result (λ grid. grid_of bytes.now ≡ Ok grid) }
    ensures err { TellsFault result (grid_of bytes.now) }

    // A grid that is read can be made an annotation.
    ensures tiers { IfOk result (λ grid. length grid.tiers ≤ GRID_ENTRIES) }
    ensures entries { IfOk result (λ grid. entry_total grid.tiers ≤ length bytes.now) }
    ensures short { IfOk result IsShortGrid }
{
    let (encoding, mark) = encoding_of(bytes);
    grid_behind(alloc, encoding, mark, &bytes[mark..])
}
