// A cycle of frame lengths, one frame each period, with the largest sums of successive ones.
ghost use Rattle.std.specs.Prelude.{◌≡◌, ℕ, ◌+◌, ◌-◌, ◌*◌, ◌/◌, ◌<◌, ◌≤◌, length, slice_index};
ghost use Rattle.sources.specs.Counts.{argument, gap_answer};
ghost use Rattle.sources.specs.Cycles.{cycle_work, cyclic_gap};
ghost use Rattle.sources.specs.Lengths.{lengths_of};

use crate::lengths::Lengths;
use crate::limits::{argument, gap_answer};

// At k up to the number of lengths, most holds the largest sum of k successive ones, going round.
#[derive(Clone, Copy)]
pub struct Cycle {
    period: u32,
    lengths: Lengths,
    most: [u32; 33],
    ghost regular: { (1 ≤ period) × (period ≤ 1000000) },
    ghost sums: { (k : ℕ) → k < length (lengths_of lengths) + 1 → slice_index most k ≡ cycle_work (lengths_of lengths) k },
}

impl Cycle {
    pub(crate) fn new(period: u32, lengths: Lengths) -> Cycle
        requires { (1 ≤ period) × (period ≤ 1000000) }
        ensures { (result.period ≡ period) × (result.lengths ≡ lengths) }
    {
        let most = lengths.largest_runs();
        Cycle {
            period,
            lengths,
            most,
        }
    }

    // The least time from an arrival to the q-th after it.
    pub(crate) fn gap(&self, q: u32) -> u32
        ensures { result ≡ gap_answer (cyclic_gap self.now.period (argument q)) }
    {
        gap_answer(u64::from(argument(q)) * u64::from(self.period))
    }

    // The most bit times that k successive frames take.
    pub(crate) fn work(&self, k: u32) -> u32
        ensures { result ≡ cycle_work (lengths_of self.now.lengths) (argument k) }
    {
        self.largest_sum(argument(k))
    }

    // The largest sum of k successive lengths, going round.
    fn largest_sum(&self, k: u32) -> u32
        requires { k ≤ 2000001 }
        ensures { result ≡ cycle_work (lengths_of self.now.lengths) k }
    {
        let size = self.lengths.as_slice().len();
        let rest = k % size as u32;
        k / size as u32 * self.most[size] + self.most[rest as usize]
    }

    // The number of periods that begin within a time.
    pub(crate) fn count(&self, x: u32) -> u32
        ensures { result ≡ (argument x + (self.now.period - 1)) / self.now.period }
    {
        argument(x).div_ceil(self.period)
    }
}
