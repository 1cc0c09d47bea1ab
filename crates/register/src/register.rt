// The register: the rows of one bus, in memory that the caller lends.
ghost use Rattle.std.specs.Prelude.{◌≡◌, take};
ghost use Rattle.sources.specs.Answers.{answered};
ghost use Rattle.response.specs.Views.{outcome_of};
ghost use Rattle.register.specs.Faults.{fault_number, host_number};
ghost use Rattle.register.specs.Slots.{memory_of, opened, accepted, stored, enter_memory, amend_memory, withdraw_memory, settle_memory, look_up_memory, chart_rows, chart_count, list_after};

use crate::calls;
use crate::slot::Slot;
use crate::uses::{HostFault, RegisterFault};
use response::{Outcome, Row};
use sources::Source;

// Rows rise by identifier; places past the last row keep what they hold. The memory is the caller's, so a slice with a number beside it.
#[derive(Drop)]
pub struct Register<'a, S> {
    slots: &'a mut [Slot<S>],
    used: usize,
}

impl<'a, S: Source + Copy> Register<'a, S> {
    // An empty register.
    pub fn open(slots: &'a mut [Slot<S>]) -> Register<'a, S>
        ensures memory { memory_of result ≡ opened slots.old }
        ensures same { result.slots.ghost_name ≡ slots.entry.ghost_name }
    {
        Register { slots, used: 0 }
    }

    // Enters a row. Refused with 21, 22, 23, 24.
    pub fn enter(&mut self, row: Row<S>) -> Result<(), RegisterFault>
        ensures answer { answered fault_number (λ u. u) result ≡ accepted (enter_memory S.Source row (memory_of self.old)) }
        ensures memory { memory_of self.new ≡ stored (memory_of self.old) (enter_memory S.Source row (memory_of self.old)) }
        ensures same { self.new.slots.ghost_name ≡ self.old.slots.ghost_name }
    {
        calls::enter(self.slots, &mut self.used, row)
    }

    // Replaces the row with the source's identifier. Refused with 21, 22, 25.
    pub fn amend(&mut self, row: Row<S>) -> Result<(), RegisterFault>
        ensures answer { answered fault_number (λ u. u) result ≡ accepted (amend_memory S.Source row (memory_of self.old)) }
        ensures memory { memory_of self.new ≡ stored (memory_of self.old) (amend_memory S.Source row (memory_of self.old)) }
        ensures same { self.new.slots.ghost_name ≡ self.old.slots.ghost_name }
    {
        calls::amend(self.slots, &mut self.used, row)
    }

    // Removes a row; lower rows move up one place. Refused with 25.
    pub fn withdraw(&mut self, identifier: u32) -> Result<(), RegisterFault>
        ensures answer { answered fault_number (λ u. u) result ≡ accepted (withdraw_memory S.Source identifier (memory_of self.old)) }
        ensures memory { memory_of self.new ≡ stored (memory_of self.old) (withdraw_memory S.Source identifier (memory_of self.old)) }
        ensures same { self.new.slots.ghost_name ≡ self.old.slots.ghost_name }
    {
        calls::withdraw(self.slots, &mut self.used, identifier)
    }

    // Works out and stores verdict, bound and round count of a row. Refused with 25.
    pub fn settle(&mut self, identifier: u32) -> Result<(), RegisterFault>
        ensures answer { answered fault_number (λ u. u) result ≡ accepted (settle_memory S.Source identifier (memory_of self.old)) }
        ensures memory { memory_of self.new ≡ stored (memory_of self.old) (settle_memory S.Source identifier (memory_of self.old)) }
        ensures same { self.new.slots.ghost_name ≡ self.old.slots.ghost_name }
    {
        calls::settle(self.slots, &mut self.used, identifier)
    }

    // The verdict, bound and round count of a row. Refused with 25, 26.
    pub fn look_up(&self, identifier: u32) -> Result<Outcome, RegisterFault>
        ensures { answered fault_number outcome_of result ≡ look_up_memory S.Source identifier (memory_of self.now) }
    {
        calls::look_up(self.slots, self.used, identifier)
    }

    // Writes one bound a row into a list, by priority, 0 for unsettled rows and for none; answers how many. Refused with 32.
    pub fn chart(&self, list: &mut [u32]) -> Result<usize, HostFault>
        ensures answer { answered host_number (λ n. n) result ≡ chart_count (take self.now.used self.now.slots.now) list.old }
        ensures memory { list.new ≡ list_after list.old (chart_rows (take self.now.used self.now.slots.now) list.old) }
    {
        calls::chart(self.slots, self.used, list)
    }
}
