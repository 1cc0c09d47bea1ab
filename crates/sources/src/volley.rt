// The volleys of a burst source: when they come, and how long their frames are.
ghost use Rattle.std.specs.Prelude.{◌≡◌, ℕ, ◌+◌, ◌-◌, ◌*◌, ◌≤◌};
ghost use Rattle.sources.specs.Counts.{argument, gap_answer};
ghost use Rattle.sources.specs.Bursts.{BurstNumbers, burst_gap, burst_work, burst_count};

use crate::limits::{argument, gap_answer};

// Frames of the given bits, each at least the spacing after the one before, and at least a period after the one that is size before.
#[derive(Clone, Copy)]
pub struct Volley {
    pub(crate) period: u32,
    pub(crate) size: u32,
    pub(crate) spacing: u32,
    pub(crate) bits: u32,
    ghost regular: { (1 ≤ period) × (period ≤ 1000000) },
    ghost numbers: { BurstNumbers size spacing period },
    ghost frame: { (1 ≤ bits) × (bits ≤ 160) },
}

impl Volley {
    // The least time from an arrival to the q-th after it.
    pub(crate) fn gap(&self, q: u32) -> u32
        ensures { result ≡ gap_answer (burst_gap self.now.size self.now.spacing self.now.period (argument q)) }
    {
        let q = argument(q);
        let bursts = u64::from(q / self.size) * u64::from(self.period);
        let rest = u64::from(q % self.size) * u64::from(self.spacing);
        gap_answer(bursts + rest)
    }

    // The most bit times that k successive frames take.
    pub(crate) fn work(&self, k: u32) -> u32
        ensures { result ≡ burst_work self.now.bits (argument k) }
    {
        argument(k) * self.bits
    }

    // How many frames can arrive within a time.
    pub(crate) fn count(&self, x: u32) -> u32
        ensures { result ≡ burst_count self.now.size self.now.spacing self.now.period (argument x) }
    {
        if x == 0 {
            return 0;
        }
        let last = argument(x) - 1;
        let bursts = last / self.period;
        let rest = (last % self.period / self.spacing).min(self.size - 1);
        bursts * self.size + rest + 1
    }
}
