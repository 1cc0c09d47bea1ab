// The cyclic source: a message sent at a period, whose payload size goes round a cycle.
ghost use Rattle.std.specs.Prelude.{◌≡◌, ℕ, ◌+◌, ◌-◌, ◌/◌};
ghost use Rattle.sources.specs.Counts.{count, argument};
ghost use Rattle.sources.specs.Cycles.{cycle_work, cyclic_gap, CyclicTraffic, WholeRounds};
ghost use Rattle.sources.specs.Lengths.{lengths_of};
ghost use Rattle.sources.specs.Values.{cyclic_values};
ghost use Rattle.sources.specs.Faults.{fault_number};
ghost use Rattle.sources.specs.Answers.{answered, cyclic_answer};
ghost use Rattle.sources.specs.CyclicLaws.{cyclic_laws};

use crate::cycle::Cycle;
use crate::fault::RowFault;
use crate::lengths::Lengths;
use crate::payloads::oversized;
use crate::source::{Entry, Source};
use frames::{Format, Identifier};
use std::alloc::AllocError;
use std::marker::PhantomData;

// A cycle of frames with one identifier, which is kept in the format's integer type.
#[derive(Copy)]
pub struct Cyclic<F, I> {
    format: PhantomData<F>,
    identifier: I,
    cycle: Cycle,
}

impl<F: Copy, I: Copy> Clone for Cyclic<F, I> {
    ghost is_clone = { λ c d. d ≡ c };

    ghost is_infallible = { λ c. c ≡ c };

    fn clone(&self) -> Result<Cyclic<F, I>, AllocError> {
        Ok(*self)
    }
}

impl<F: Format<Id = I>, I: Identifier> Cyclic<F, I> {
    // Refused, in this order, with 11 for an identifier above the format's highest, 12 for a period not 100 to 1,000,000, 13 for
    // a payload count not 1 to 32, and 14 for a payload above 8.
    pub fn new(
        _format: F,
        identifier: I,
        period: u32,
        payloads: &[u8],
    ) -> Result<Cyclic<F, I>, RowFault>
        ensures { answered fault_number (cyclic_values I.Identifier.number) result ≡ cyclic_answer F.Format.HIGHEST F.Format.longest (I.Identifier.number identifier) period payloads.now }
    {
        if identifier.number() > F::HIGHEST {
            return Err(RowFault::Identifier);
        }
        if !(100..=1_000_000).contains(&period) {
            return Err(RowFault::Period);
        }
        if !(1..=32).contains(&payloads.len()) {
            return Err(RowFault::PayloadCount);
        }
        if oversized(payloads) {
            return Err(RowFault::Payload);
        }
        Ok(Cyclic {
            format: PhantomData,
            identifier,
            cycle: Cycle::new(period, Lengths::of::<F>(payloads)),
        })
    }
}

impl<F: Format<Id = I>, I: Identifier> Entry for Cyclic<F, I> {
    ghost identifier = { λ c. I.Identifier.number c.identifier };

    fn identifier(&self) -> u32 {
        self.identifier.number()
    }
}

impl<F: Format<Id = I>, I: Identifier> Source for Cyclic<F, I> {
    ghost gap = { λ c. cyclic_gap c.cycle.period };

    ghost work = { λ c. cycle_work (lengths_of c.cycle.lengths) };

    ghost jitter = { λ _. 0 };

    ghost traffic = { λ c. CyclicTraffic (lengths_of c.cycle.lengths) c.cycle.period };

    ghost lawful = { λ c. cyclic_laws (lengths_of c.cycle.lengths) c.cycle.lengths.frames c.cycle.period c.cycle.regular.0 };

    fn gap(&self, q: u32) -> u32 {
        self.cycle.gap(q)
    }

    #[tactic(auto, using(crate::specs::CyclesLemmas::cycle_work_closed))]
    fn work(&self, k: u32) -> u32
        ensures value { result ≡ cycle_work (lengths_of self.now.cycle.lengths) (argument k) }
        ensures rounds { WholeRounds (lengths_of self.now.cycle.lengths) }
    {
        self.cycle.work(k)
    }

    fn jitter(&self) -> u32 {
        0
    }

    #[tactic(auto, using(crate::specs::CyclicLaws::cyclic_count))]
    fn count(&self, x: u32) -> u32
        ensures value { result ≡ count (cyclic_gap self.now.cycle.period) (argument x) }
        ensures closed { result ≡ (argument x + (self.now.cycle.period - 1)) / self.now.cycle.period }
    {
        self.cycle.count(x)
    }
}
