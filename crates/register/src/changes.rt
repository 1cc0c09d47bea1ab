// Changes of the rows, each with what it unsettles.
ghost use Rattle.std.specs.Prelude.{◌≡◌, ◌+◌, ◌-◌, ◌<◌, ◌∷◌, ◌++◌, length, take, drop, Some as Just};
ghost use Rattle.register.specs.Tables.{change_at};
ghost use Rattle.register.specs.Calls.{become};
ghost use Rattle.register.specs.Slots.{slots as slot_kind, with_outcome};

use crate::slot::Slot;
use crate::table::{insert, remove};
use crate::unsettle::{longest_between, unsettle};
use response::Outcome;
use sources::Source;

// Puts a row in at a place; the last place is for the row that comes to stand there.
#[tactic(auto, using(crate::proofs::ChangeLaws::put_in_is))]
pub(crate) fn put_in<S: Source + Copy>(rows: &mut [Slot<S>], place: usize, slot: Slot<S>)
    requires { place < length rows.old }
    ensures { rows.new ≡ become S.Source slot_kind place (slot ∷ drop place (take (length rows.old - 1) rows.old)) (take (length rows.old - 1) rows.old) }
{
    let last = rows.len() - 1;
    let before = longest_between(rows, place, last);
    insert(rows, place, slot);
    unsettle(rows, place, before);
}

// Replaces the row at a place.
pub(crate) fn replace<S: Source + Copy>(rows: &mut [Slot<S>], place: usize, slot: Slot<S>)
    requires { place < length rows.old }
    ensures { rows.new ≡ become S.Source slot_kind place (slot ∷ drop (place + 1) rows.old) rows.old }
{
    let before = longest_between(rows, place, rows.len());
    rows[place] = slot;
    unsettle(rows, place, before);
}

// Takes out the row at a place; the last place keeps what it holds.
#[tactic(auto, using(crate::proofs::ChangeLaws::take_out_is))]
pub(crate) fn take_out<S: Source + Copy>(rows: &mut [Slot<S>], place: usize)
    requires { place < length rows.old }
    ensures { rows.new ≡ become S.Source slot_kind place (drop (place + 1) rows.old) rows.old ++ drop (length rows.old - 1) rows.old }
{
    let last = rows.len() - 1;
    let before = longest_between(rows, place, rows.len());
    remove(rows, place);
    unsettle(&mut rows[..last], place, before);
}

// Stores an outcome with the row at a place.
#[tactic(auto, using(crate::proofs::ChangeLaws::store_is))]
pub(crate) fn store<S: Source + Copy>(rows: &mut [Slot<S>], place: usize, outcome: Outcome)
    requires { place < length rows.old }
    ensures { rows.new ≡ change_at place (with_outcome (Just outcome)) rows.old }
{
    rows[place] = rows[place].settled(outcome);
}
