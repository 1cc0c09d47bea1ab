// Which rows a change unsettles.
ghost use Rattle.std.specs.Prelude.{◌≡◌, ◌-◌, ◌≤◌, map, length, take, drop, None as Nothing};
ghost use Rattle.register.specs.Tables.{longest, unsettle_above as unsettled_above, unsettled_from};
ghost use Rattle.register.specs.Calls.{frame};
ghost use Rattle.register.specs.Slots.{with_outcome, slots as slot_kind};

use crate::slot::Slot;
use response::longest_frame;
use sources::Source;

// Unsettles rows.
#[tactic(auto, using(crate::proofs::UnsettleLaws::changed_next))]
pub(crate) fn unsettle_all<S: Copy>(rows: &mut [Slot<S>])
    ensures { rows.new ≡ map (with_outcome Nothing) rows.old }
{
    for slot in rows.iter_mut() {
        *slot = slot.unsettled();
    }
}

// Unsettles each row above a change whose longest frame below is another, where the rows from the change on had the one longest frame
// before and have the other now.
pub(crate) fn unsettle_above<S: Source + Copy>(above: &mut [Slot<S>], before: u32, after: u32)
    ensures { above.new ≡ unsettled_above (frame S.Source slot_kind) (with_outcome Nothing) above.old before after }
{
    let mut below: u32 = 0;
    // By index: nothing is known of what a reversed `iter_mut` writes.
    for i in (0..above.len()).rev() {
        let slot = above[i];
        above[i] = slot.unsettled_by(below.max(before), below.max(after));
        below = slot.row.source.work(1).max(below);
    }
}

// The longest frame of rows, or 0: that of the analysis, as the register's definitions have it.
#[tactic(auto, using(crate::proofs::Invariant::longest_models))]
fn longest_in<S: Source>(rows: &[Slot<S>]) -> u32
    ensures { result ≡ longest (frame S.Source slot_kind) rows.now }
{
    longest_frame(rows)
}

// The longest frame of the rows from a place up to an end.
pub(crate) fn longest_between<S: Source>(rows: &[Slot<S>], place: usize, end: usize) -> u32
    requires { (place ≤ end) × (end ≤ length rows.now) }
    ensures { result ≡ longest (frame S.Source slot_kind) (take (end - place) (drop place rows.now)) }
{
    longest_in(&rows[place..end])
}

// Unsettles what a change at a place leaves unsettled, where the rows from the place on had the given longest frame before.
pub(crate) fn unsettle<S: Source + Copy>(rows: &mut [Slot<S>], place: usize, before: u32)
    requires { place ≤ length rows.old }
    ensures { rows.new ≡ unsettled_from (frame S.Source slot_kind) (with_outcome Nothing) place before rows.old }
{
    let (above, changed) = rows.split_at_mut(place);
    let after = longest_in(changed);
    unsettle_above(above, before, after);
    unsettle_all(changed);
}
