// Performing a list of uses on a register that was opened for it.
ghost use Rattle.std.specs.Prelude.{◌≡◌, min, map, length, take, drop};
ghost use Rattle.register.specs.Slots.{memory_of, opened, standing};
ghost use Rattle.register.specs.Steps.{reply_of, register_step, memory_step, memory_after};
ghost use Rattle.register.specs.Promises.{Promise};

use crate::register::Register;
use crate::slot::Slot;
use crate::uses::{Answer, Use};
use sources::Source;

impl<'a, S: Source + Copy> Register<'a, S> {
    // Performs one use. It goes by the kind of the use, since uses are a list that the caller lends.
    pub fn apply(&mut self, action: Use<S>) -> Answer
        ensures answer { reply_of result ≡ (register_step S.Source (length self.old.slots.now) (take self.old.used self.old.slots.now) action).reply }
        ensures memory { memory_of self.new ≡ memory_step S.Source (memory_of self.old) action }
        ensures same { self.new.slots.ghost_name ≡ self.old.slots.ghost_name }
    {
        match action {
            Use::Enter(row) => self.enter(row).map(|()| None),
            Use::Amend(row) => self.amend(row).map(|()| None),
            Use::Withdraw(identifier) => self.withdraw(identifier).map(|()| None),
            Use::Settle(identifier) => self.settle(identifier).map(|()| None),
            Use::LookUp(identifier) => self.look_up(identifier).map(Some),
        }
    }
}

// How many uses are performed: all, or as many as there are places for answers.
fn performed(uses: usize, answers: usize) -> usize
    ensures { result ≡ min uses answers }
{
    uses.min(answers)
}

// Opens an empty register over the slots and performs uses in their order, as many as there are places for answers; answers how many.
pub fn perform<S: Source + Copy>(
    slots: &mut [Slot<S>],
    uses: &[Use<S>],
    answers: &mut [Answer],
) -> usize
    ensures count { result ≡ min (length uses.now) (length answers.old) }
    ensures rest { drop result answers.new ≡ drop result answers.old }
    ensures memory { slots.new ≡ (memory_after S.Source (opened slots.old) (take result uses.now)).places }
    ensures promise { Promise S.Source (length slots.old) (take result uses.now) (map reply_of (take result answers.new)) (standing (memory_after S.Source (opened slots.old) (take result uses.now))) }
{
    let mut register = Register::open(slots);
    let count = performed(uses.len(), answers.len());
    // By index, as nothing is known of what a zip with `iter_mut` writes.
    for (i, action) in uses[..count].iter().enumerate() {
        answers[i] = register.apply(*action);
    }
    count
}
