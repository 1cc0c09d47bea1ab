// A source whose instances are queued up to a hold later.
ghost use Rattle.std.specs.Prelude.{◌≡◌, ℕ, ◌+◌};
ghost use Rattle.sources.specs.Holds.{HeldUpTraffic};
ghost use Rattle.sources.specs.Faults.{fault_number};
ghost use Rattle.sources.specs.Answers.{answered, held_up_answer};
ghost use Rattle.sources.specs.Values.{held_up_values};
ghost use Rattle.sources.specs.HoldsLemmas.{held_up_laws};

use crate::fault::RowFault;
use crate::source::{Entry, Source};

#[derive(Clone, Copy)]
pub struct HeldUp<S> {
    below: S,
    hold: u32,
}

impl<S: Source + Drop> HeldUp<S> {
    // The source below with each instance queued 0 to hold later; refused with 16 where the hold is above 1,000,000.
    pub fn new(below: S, hold: u32) -> Result<HeldUp<S>, RowFault>
        ensures { answered fault_number held_up_values result ≡ held_up_answer below hold }
    {
        if hold > 1_000_000 {
            return Err(RowFault::Hold);
        }
        Ok(HeldUp { below, hold })
    }
}

impl<S: Source> Entry for HeldUp<S> {
    ghost identifier = { λ h. S.Entry.identifier h.below };

    fn identifier(&self) -> u32 {
        self.below.identifier()
    }
}

impl<S: Source> Source for HeldUp<S> {
    ghost gap = { λ h. S.Source.gap h.below };

    ghost work = { λ h. S.Source.work h.below };

    ghost jitter = { λ h. S.Source.jitter h.below + h.hold };

    ghost traffic = { λ h. HeldUpTraffic h.hold (S.Source.traffic h.below) };

    ghost lawful = { λ s. held_up_laws s.hold _ (S.Source.lawful s.below) };

    fn gap(&self, q: u32) -> u32 {
        self.below.gap(q)
    }

    fn work(&self, k: u32) -> u32 {
        self.below.work(k)
    }

    fn jitter(&self) -> u32 {
        self.below.jitter().saturating_add(self.hold).min(1_000_001)
    }

    fn count(&self, x: u32) -> u32 {
        self.below.count(x)
    }
}
