// The burst source: a message that comes in bursts of a few frames of one length.
ghost use Rattle.std.specs.Prelude.{◌≡◌, ℕ};
ghost use Rattle.sources.specs.Counts.{count, argument};
ghost use Rattle.sources.specs.Bursts.{burst_gap, burst_work, burst_count, BurstTraffic};
ghost use Rattle.sources.specs.Faults.{fault_number};
ghost use Rattle.sources.specs.Answers.{answered, burst_answer};
ghost use Rattle.sources.specs.Values.{burst_values};
ghost use Rattle.sources.specs.BurstLaws.{burst_laws};

use crate::fault::RowFault;
use crate::payloads::oversized;
use crate::source::{Entry, Source};
use crate::volley::Volley;
use frames::{Format, Identifier};
use std::alloc::AllocError;
use std::marker::PhantomData;

// Volleys of frames with one identifier, which is kept in the format's integer type. No generic source over a cycle or a volley: count
// states a closed form for each.
#[derive(Copy)]
pub struct Burst<F, I> {
    format: PhantomData<F>,
    identifier: I,
    volley: Volley,
}

impl<F: Copy, I: Copy> Clone for Burst<F, I> {
    ghost is_clone = { λ b c. c ≡ b };

    ghost is_infallible = { λ b. b ≡ b };

    fn clone(&self) -> Result<Burst<F, I>, AllocError> {
        Ok(*self)
    }
}

impl<F: Format<Id = I>, I: Identifier> Burst<F, I> {
    // Refused, in this order, with 11 for an identifier above the format's highest, 12 for a period not 100 × size to 1,000,000,
    // 13 for a payload count not 1, 14 for a payload above 8, and 15 for a size not 1 to 16, no spacing, or a period below
    // size × spacing.
    pub fn new(
        _format: F,
        identifier: I,
        period: u32,
        size: u32,
        spacing: u32,
        payloads: &[u8],
    ) -> Result<Burst<F, I>, RowFault>
        ensures { answered fault_number (burst_values I.Identifier.number) result ≡ burst_answer F.Format.HIGHEST F.Format.longest (I.Identifier.number identifier) period size spacing payloads.now }
    {
        if identifier.number() > F::HIGHEST {
            return Err(RowFault::Identifier);
        }
        if u64::from(period) < 100 * u64::from(size) || period > 1_000_000 {
            return Err(RowFault::Period);
        }
        if payloads.len() != 1 {
            return Err(RowFault::PayloadCount);
        }
        if oversized(payloads) {
            return Err(RowFault::Payload);
        }
        let room = u64::from(size) * u64::from(spacing);
        if !(1..=16).contains(&size) || spacing < 1 || u64::from(period) < room {
            return Err(RowFault::Burst);
        }
        Ok(Burst {
            format: PhantomData,
            identifier,
            volley: Volley {
                period,
                size,
                spacing,
                bits: F::longest_frame(payloads[0]),
            },
        })
    }
}

impl<F: Format<Id = I>, I: Identifier> Entry for Burst<F, I> {
    ghost identifier = { λ b. I.Identifier.number b.identifier };

    fn identifier(&self) -> u32 {
        self.identifier.number()
    }
}

impl<F: Format<Id = I>, I: Identifier> Source for Burst<F, I> {
    ghost gap = { λ b. burst_gap b.volley.size b.volley.spacing b.volley.period };

    ghost work = { λ b. burst_work b.volley.bits };

    ghost jitter = { λ _. 0 };

    ghost traffic = { λ b. BurstTraffic b.volley.size b.volley.spacing b.volley.period b.volley.bits };

    ghost lawful = { λ b. burst_laws b.volley.size b.volley.spacing b.volley.period b.volley.numbers b.volley.bits b.volley.frame.0 b.volley.frame.1 };

    fn gap(&self, q: u32) -> u32 {
        self.volley.gap(q)
    }

    fn work(&self, k: u32) -> u32 {
        self.volley.work(k)
    }

    fn jitter(&self) -> u32 {
        0
    }

    #[tactic(auto, using(crate::specs::BurstLaws::burst_count_is))]
    fn count(&self, x: u32) -> u32
        ensures value { result ≡ count (burst_gap self.now.volley.size self.now.volley.spacing self.now.volley.period) (argument x) }
        ensures closed { result ≡ burst_count self.now.volley.size self.now.volley.spacing self.now.volley.period (argument x) }
    {
        self.volley.count(x)
    }
}
