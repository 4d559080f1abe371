//! Rows of flags, one flag for each item of a level.
ghost use Rattle.std.specs.Prelude.{◌≡◌};
ghost use Rattle.std.specs.List.{list_all, list_any};
ghost use Rattle.eql_rows.specs.Inner.Flags.{flag_at};

use emu_names::Series;

/// One flag for each item of a level.
pub(crate) type Flags = Series<bool>;

/// The flag at a place; none is set past the row's end.
fn flag_at(row: &Flags, at: usize) -> bool
    ensures { result ≡ flag_at at row.now }
{
    match row.as_slice().get(at) {
        Some(flag) => *flag,
        None => false,
    }
}

/// Whether some row has the flag at a place.
pub(crate) fn any_at(rows: &[Flags], at: usize) -> bool
    ensures { result ≡ list_any (flag_at at) rows.now }
{
    for row in rows {
        if flag_at(row, at) {
            return true;
        }
    }
    false
}

/// Whether all rows have the flag at a place.
pub(crate) fn all_at(rows: &[Flags], at: usize) -> bool
    ensures { result ≡ list_all (flag_at at) rows.now }
{
    for row in rows {
        if !flag_at(row, at) {
            return false;
        }
    }
    true
}
