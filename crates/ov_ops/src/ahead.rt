//! Prefetches rows before they are shown. Results are the same without it.

ghost use Rattle.std.specs.Prelude.{◌≡◌, ◌<◌, OnOk, length};

use ov_atoms::Atom;
use ov_base::Text;
use ov_results::ArrayText;
use ov_rows::RowView;
use std::alloc::AllocError;

/// How many rows are prefetched before the first of them is written. Rows lie wherever memory was free when each arrived: a
/// processor fetches several at once if they are read one right after the other, and otherwise waits for each when it is
/// written.
const AHEAD: usize = 64;

/// About how many bytes an atom takes as text, with the name of its column, in addition to the bytes of a string.
const ROOM: usize = 24;

/// The place of the last of these columns in a row. Rows that share their column names have it at the same place.
fn last_place(names: &[Text], row: &RowView<'_>) -> Option<usize> {
    let last = names.last()?;
    let stored = row.row;
    let known = stored.columns.names();
    for place in 0..known.len() {
        if last.as_str() == known[place].as_str() {
            return Some(place);
        }
    }
    None
}

/// How many values these rows have. Reads the rows, but no value.
fn values_in(rows: &[RowView<'_>]) -> usize {
    let mut count: usize = 0;
    for row in rows {
        let stored = row.row;
        count = count.saturating_add(stored.columns.names().len());
    }
    count
}

/// About how many bytes these atoms take as text.
fn room_of(atoms: &[Atom]) -> usize {
    let mut room: usize = 0;
    for atom in atoms {
        let length = match atom {
            Atom::Text(text) => text.as_str().len(),
            _ => 0,
        };
        room = room.saturating_add(ROOM).saturating_add(length);
    }
    room
}

/// About how many bytes the atoms in the sets at this place of these rows take as text.
fn room_at(rows: &[RowView<'_>], place: usize) -> usize {
    let mut room: usize = 0;
    for row in rows {
        let stored = row.row;
        let mut values = stored.columns.values();
        if let Some(datum) = values.nth(place) {
            if let Some(atoms) = datum.atoms() {
                room = room.saturating_add(room_of(atoms));
            }
        }
    }
    room
}

/// Every 64 rows, prefetches the next 64 and reserves about the space for their text. Reads all of their lists first, and
/// then the values: a value can be fetched only once its list is there.
pub(crate) fn look_ahead(
    text: &mut ArrayText,
    names: &[Text],
    rows: &[RowView<'_>],
    at: usize,
) -> Result<(), AllocError>
    requires { at < length rows.now }
    ensures { OnOk result (text.new ≡ text.old) }
{
    if at % AHEAD != 0 {
        return Ok(());
    }
    let Some(place) = last_place(names, &rows[at]) else {
        return Ok(());
    };
    let end = rows.len().min(at.saturating_add(AHEAD));
    let ahead = &rows[at..end];
    if values_in(ahead) == 0 {
        return Ok(());
    }
    text.reserve(room_at(ahead, place))
}
