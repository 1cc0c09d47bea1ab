// The register's calls, on the lent memory and the number of rows in it: the methods of the register hand both to them. Where a call leaves
// the number of rows as it is, it still writes it: a number above the places is read as theirs.
ghost use Rattle.std.specs.Prelude.{◌≡◌, take};
ghost use Rattle.sources.specs.Answers.{answered};
ghost use Rattle.response.specs.Views.{outcome_of};
ghost use Rattle.register.specs.Faults.{fault_number, host_number};
ghost use Rattle.register.specs.Calls.{full};
ghost use Rattle.register.specs.Slots.{lent, accepted, stored, enter_memory, amend_memory, withdraw_memory, settle_memory, look_up_memory, chart_rows, chart_count, list_after};

use crate::changes::{put_in, replace, store, take_out};
use crate::slot::Slot;
use crate::table::find;
use crate::uses::{HostFault, RegisterFault};
use response::{Outcome, Row, check_row, respond};
use sources::{Entry, Source};

// The most rows of a register.
const MOST_ROWS: usize = 256;

// The standing rows: the first ones in memory, by their number.
fn standing<S>(slots: &[Slot<S>], used: usize) -> &[Slot<S>]
    ensures { result.now ≡ take used slots.now }
{
    &slots[..used.min(slots.len())]
}

// Whether there are as many rows as a register or its places can have.
fn is_full(count: usize, places: usize) -> bool
    ensures { result ≡ full places count }
{
    count >= MOST_ROWS || count >= places
}

// Enters a row.
pub(crate) fn enter<S: Source + Copy>(
    slots: &mut [Slot<S>],
    used: &mut usize,
    row: Row<S>,
) -> Result<(), RegisterFault>
    ensures answer { answered fault_number (λ u. u) result ≡ accepted (enter_memory S.Source row (lent slots.old used.old)) }
    ensures memory { lent slots.new used.new ≡ stored (lent slots.old used.old) (enter_memory S.Source row (lent slots.old used.old)) }
{
    check_row(&row)?;
    let rows = standing(slots, *used);
    let count = rows.len();
    let Err(place) = find(rows, row.source.identifier()) else {
        return Err(RegisterFault::Taken);
    };
    if is_full(count, slots.len()) {
        return Err(RegisterFault::Full);
    }
    let slot = Slot { row, outcome: None };
    put_in(&mut slots[..count + 1], place, slot);
    *used = count + 1;
    Ok(())
}

// Replaces the row with the source's identifier.
pub(crate) fn amend<S: Source + Copy>(
    slots: &mut [Slot<S>],
    used: &mut usize,
    amended: Row<S>,
) -> Result<(), RegisterFault>
    ensures answer { answered fault_number (λ u. u) result ≡ accepted (amend_memory S.Source amended (lent slots.old used.old)) }
    ensures memory { lent slots.new used.new ≡ stored (lent slots.old used.old) (amend_memory S.Source amended (lent slots.old used.old)) }
{
    check_row(&amended)?;
    let rows = standing(slots, *used);
    let count = rows.len();
    let Ok(place) = find(rows, amended.source.identifier()) else {
        return Err(RegisterFault::Absent);
    };
    let slot = Slot {
        row: amended,
        outcome: None,
    };
    replace(&mut slots[..count], place, slot);
    *used = count;
    Ok(())
}

// Removes the row with an identifier.
pub(crate) fn withdraw<S: Source + Copy>(
    slots: &mut [Slot<S>],
    used: &mut usize,
    identifier: u32,
) -> Result<(), RegisterFault>
    ensures answer { answered fault_number (λ u. u) result ≡ accepted (withdraw_memory S.Source identifier (lent slots.old used.old)) }
    ensures memory { lent slots.new used.new ≡ stored (lent slots.old used.old) (withdraw_memory S.Source identifier (lent slots.old used.old)) }
{
    let rows = standing(slots, *used);
    let count = rows.len();
    let Ok(place) = find(rows, identifier) else {
        return Err(RegisterFault::Absent);
    };
    take_out(&mut slots[..count], place);
    *used = count - 1;
    Ok(())
}

// Works out and stores the outcome of the row with an identifier.
pub(crate) fn settle<S: Source + Copy>(
    slots: &mut [Slot<S>],
    used: &mut usize,
    identifier: u32,
) -> Result<(), RegisterFault>
    ensures answer { answered fault_number (λ u. u) result ≡ accepted (settle_memory S.Source identifier (lent slots.old used.old)) }
    ensures memory { lent slots.new used.new ≡ stored (lent slots.old used.old) (settle_memory S.Source identifier (lent slots.old used.old)) }
{
    let rows = standing(slots, *used);
    let count = rows.len();
    let Ok(place) = find(rows, identifier) else {
        return Err(RegisterFault::Absent);
    };
    let outcome = respond(rows, place)?;
    store(&mut slots[..count], place, outcome);
    *used = count;
    Ok(())
}

// The stored outcome of the row with an identifier.
pub(crate) fn look_up<S: Source>(
    slots: &[Slot<S>],
    used: usize,
    identifier: u32,
) -> Result<Outcome, RegisterFault>
    ensures { answered fault_number outcome_of result ≡ look_up_memory S.Source identifier (lent slots.now used) }
{
    let rows = standing(slots, used);
    let Ok(place) = find(rows, identifier) else {
        return Err(RegisterFault::Absent);
    };
    rows[place].looked_up()
}

// Writes the bound of each row into a list, in their order; answers how many.
#[tactic(auto, using(crate::proofs::UnsettleLaws::mapped_next))]
pub(crate) fn chart<S: Source>(
    slots: &[Slot<S>],
    used: usize,
    list: &mut [u32],
) -> Result<usize, HostFault>
    ensures answer { answered host_number (λ n. n) result ≡ chart_count (take used slots.now) list.old }
    ensures memory { list.new ≡ list_after list.old (chart_rows (take used slots.now) list.old) }
{
    let rows = standing(slots, used);
    if list.len() < rows.len() {
        return Err(HostFault::ShortList);
    }
    // By index, as nothing is known of what a zip with `iter_mut` writes.
    for (i, slot) in rows.iter().enumerate() {
        list[i] = slot.bound();
    }
    Ok(rows.len())
}
