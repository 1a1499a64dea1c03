//! The hole rows of a kind.
ghost use Rattle.std.specs.Prelude.{◌≡◌, ◌<◌, OnOk, Some, length, slice_get, slice_index_or};
ghost use Rattle.psg_covering.specs.Choices.{IsRowOf};
ghost use Rattle.psg_covering.specs.Fronts.{AreRowsOf, IsNoted};

use psg_grammar::{Definition, HoleRow, Kind, same_kind};
use std::alloc::AllocError;

/// Answers the hole row with the number at the place.
pub(crate) fn row_at<'a>(
    definition: &'a Definition,
    kind: Kind,
    numbers: &[usize],
    place: usize,
) -> &'a HoleRow
    requires rows { AreRowsOf definition.now kind numbers.now }
    requires place { place < length numbers.now }
    ensures { IsRowOf definition.now kind (slice_index_or numbers.now place 0) result.now }
{
    let _ = kind;
    row_of(definition.hole_rows.as_slice(), numbers[place])
}

pub(crate) fn row_of<'a>(rows: &'a [HoleRow], number: usize) -> &'a HoleRow
    requires { number < length rows.now }
    ensures { slice_get rows.now number ≡ Some result.now }
{
    &rows[number]
}

/// Puts the number at the end, if the row is of the kind.
pub(crate) fn note_row(
    numbers: &mut Vec<usize>,
    number: usize,
    row: &HoleRow,
    kind: Kind,
) -> Result<(), AllocError>
    ensures { OnOk result (IsNoted kind number row.now numbers.old.items numbers.new.items) }
{
    if same_kind(row.kind, kind) {
        numbers.push(number)?;
        return Ok(());
    }
    Ok(())
}
