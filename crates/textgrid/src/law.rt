//! Laws of the reading of grids.
ghost use Rattle.std.specs.Prelude.{◌≡◌, ℕ, List, Option, Ok, Err, []};
ghost use Rattle.textgrid.specs.declared.fault.GridWhat.{GridWhat as WhatOf};
ghost use Rattle.textgrid.specs.declared.grid.Grid.{Grid as GridOf};
ghost use Rattle.textgrid.specs.declared.values.Placed.{Placed as PlacedOf};
ghost use Rattle.textgrid.specs.Reading.{grid_at};
ghost use Rattle.textgrid.specs.Written.{IsGrid, IsFirstFault};

/// A law: the values of a text are read as a grid exactly where they are that grid written out, in the
/// order of the file and with one of the two first texts; and what is answered of all others is the
/// first value with which no grid written out goes on, or the end, and what would have to stand there.
/// (Praat manual, "TextGrid file formats".)
#[tactic(auto, using(crate::proofs::Grids::read_is_written, crate::proofs::Grids::written_is_read, crate::proofs::Grids::fault_is_first))]
pub fn grids_are_written_out()
    ensures read { (vs rest : List PlacedOf) (grid : GridOf)
        → grid_at vs ≡ Ok (grid, rest) → IsGrid vs grid }
    ensures written { (vs : List PlacedOf) (grid : GridOf)
        → IsGrid vs grid → grid_at vs ≡ Ok (grid, []) }
    ensures fault { (vs : List PlacedOf) (place : Option ℕ) (what : WhatOf)
        → grid_at vs ≡ Err (place, what) → IsFirstFault vs place what }
{}
