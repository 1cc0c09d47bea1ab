// A place of the register's memory.
ghost use Rattle.std.specs.Prelude.{◌≡◌, Some as Just, None as Nothing};
ghost use Rattle.sources.specs.Answers.{answered};
ghost use Rattle.response.specs.Views.{outcome_of};
ghost use Rattle.register.specs.Faults.{fault_number};
ghost use Rattle.register.specs.Tables.{unsettle_by};
ghost use Rattle.register.specs.Slots.{with_outcome, bound_shown, slot_shows};

use crate::uses::RegisterFault;
use response::{Listed, Outcome, Row};
use sources::{Entry, Source};

// A row and, where it is settled, its outcome.
#[derive(Clone, Copy)]
pub struct Slot<S> {
    pub row: Row<S>,
    pub outcome: Option<Outcome>,
}

impl<S: Copy> Slot<S> {
    // The row without an outcome.
    pub fn unsettled(self) -> Slot<S>
        ensures { result ≡ with_outcome Nothing self }
    {
        Slot {
            row: self.row,
            outcome: None,
        }
    }

    // The row with an outcome.
    pub fn settled(self, outcome: Outcome) -> Slot<S>
        ensures { result ≡ with_outcome (Just outcome) self }
    {
        Slot {
            row: self.row,
            outcome: Some(outcome),
        }
    }

    // The row above a change, by the longest frame below it before the change and after it: unsettled where they differ.
    pub(crate) fn unsettled_by(self, before: u32, after: u32) -> Slot<S>
        ensures { result ≡ unsettle_by (with_outcome Nothing) before after self }
    {
        if before == after {
            return self;
        }
        self.unsettled()
    }
}

impl<S> Slot<S> {
    // The outcome of the row, if it is settled.
    pub fn shown(&self) -> Option<Outcome>
        ensures { result ≡ self.now.outcome }
    {
        self.outcome
    }

    // What look up answers for the row: its outcome, or that it is unsettled.
    pub(crate) fn looked_up(&self) -> Result<Outcome, RegisterFault>
        ensures { answered fault_number outcome_of result ≡ slot_shows self.now }
    {
        self.shown().ok_or(RegisterFault::Unsettled)
    }

    // The bound that the row shows, and 0 where it shows none.
    pub fn bound(&self) -> u32
        ensures { result ≡ bound_shown self.now }
    {
        let outcome = self.outcome.as_ref();
        outcome.map_or(0, |outcome| outcome.bound())
    }
}

impl<S: Source> Entry for Slot<S> {
    ghost identifier = { λ s. S.Entry.identifier s.row.source };

    fn identifier(&self) -> u32 {
        self.row.source.identifier()
    }
}

impl<S: Source> Listed for Slot<S> {
    type Of = S;

    ghost source = { λ s. s.row.source };

    ghost deadline = { λ s. s.row.deadline };

    fn source(&self) -> &S {
        &self.row.source
    }

    fn deadline(&self) -> u32 {
        self.row.deadline
    }
}
