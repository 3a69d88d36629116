//! All routes get their notes anew. It takes no memory.

ghost use Rattle.std.specs.Prelude.{◌≡◌, ◌<◌, map, All};
ghost use Rattle.rs_adjin.specs.Noting.{with_note, RowsNote, RowNotes, RowsAreOf, NotesAll};
ghost use Rattle.rs_adjin.specs.Table.{IsOfClients};

use crate::notes::Notes;
use crate::numbers::{Numbered, Row};
use crate::routes::Route;
use rs_octets::Prefix;

/// Gives the routes for a prefix their notes.
pub(crate) fn note_routes<N: Notes>(routes: &mut [Route], prefix: &Prefix, notes: &N)
    requires { All (λ r. r.client < N.known notes.now) routes.old }
    ensures { routes.new ≡ map (with_note (λ c m. N.note_by notes.now c prefix.now m)) routes.old }
{
    for route in routes.iter_mut() {
        route.note = notes.note(route.client as usize, prefix, &route.attrs);
    }
}

/// Gives the routes in a row their notes.
fn note_row<N: Notes>(row: &mut Row, notes: &N)
    requires { All (λ r. r.client < N.known notes.now) row.old.routes }
    ensures { RowNotes (N.note_by notes.now) row.old row.new }
{
    if let Some(prefix) = row.prefix.get() {
        row.routes.give_notes(&prefix, notes);
    }
}

/// Gives the routes in all rows their notes.
fn note_rows<N: Notes>(rows: &mut Vec<Row>, notes: &N)
    requires { RowsAreOf (N.known notes.now) rows.old.items }
    ensures { RowsNote (N.note_by notes.now) rows.old.items rows.new.items }
{
    for row in rows.iter_mut() {
        note_row(row, notes);
    }
}

/// Gives all routes their notes.
pub(crate) fn note_all_in<N: Notes>(table: &mut Numbered, notes: &N)
    requires { IsOfClients (N.known notes.now) table.old }
    ensures { NotesAll (N.note_by notes.now) table.old table.new }
{
    note_rows(&mut table.rows, notes);
}
