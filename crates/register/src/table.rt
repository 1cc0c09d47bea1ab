// The ordered table: finding a row by its identifier, and moving rows within lent memory.
ghost use Rattle.std.specs.Prelude.{◌≡◌, ◌<◌, length, nat_le, position};
ghost use Rattle.register.specs.Tables.{found_in, inserted, removed};

use sources::Entry;

// The place of the first row whose identifier is not lower.
fn first_from<E: Entry>(rows: &[E], identifier: u32) -> Option<usize>
    ensures { result ≡ position (λ row. nat_le identifier (E.Entry.identifier row)) rows.now }
{
    rows.iter().position(|row| row.identifier() >= identifier)
}

// The place of the row with an identifier, or as an error the place where it would stand: in both cases after the first rows that have a
// lower one.
pub(crate) fn find<E: Entry>(rows: &[E], identifier: u32) -> Result<usize, usize>
    ensures { result ≡ found_in E.Entry.identifier identifier rows.now }
{
    let place = first_from(rows, identifier).unwrap_or(rows.len());
    if place < rows.len() && rows[place].identifier() == identifier {
        Ok(place)
    } else {
        Err(place)
    }
}

// Puts a row in at a place; those from there on move down by one, over the last.
#[tactic(auto, using(crate::proofs::MoveLaws::moved_down))]
pub(crate) fn insert<T: Copy>(rows: &mut [T], place: usize, row: T)
    requires { place < length rows.old }
    ensures { rows.new ≡ inserted place row rows.old }
{
    let last = rows.len() - 1;
    rows.copy_within(place..last, place + 1);
    rows[place] = row;
}

// Takes out the row at a place: those below it move up by one, and the last place keeps what it holds.
pub(crate) fn remove<T: Copy>(rows: &mut [T], place: usize)
    requires { place < length rows.old }
    ensures { rows.new ≡ removed place rows.old }
{
    let end = rows.len();
    rows.copy_within(place + 1..end, place);
}
