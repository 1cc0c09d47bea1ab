// The largest sums of successive frame lengths of a cycle, going round.
ghost use Rattle.std.specs.Prelude.{◌≡◌, ℕ, ◌+◌, ◌*◌, ◌<◌, ◌≤◌, length, slice_index};
ghost use Rattle.sources.specs.Cycles.{run, cycle_work};
ghost use Rattle.sources.specs.Lengths.{lengths_of};

use crate::lengths::Lengths;

impl Lengths {
    // The sums of the first lengths, twice round: at i that of the first i.
    fn running_sums(&self) -> [u32; 65]
        ensures { (i : ℕ) → i < 2 * length (lengths_of self.now) + 1 → slice_index result i ≡ run (lengths_of self.now) 0 i }
    {
        let cycle = self.as_slice();
        let mut sums = [0; 65];
        // By index: the cycle chained with itself and counted, with the sum beside it, would write by an index as well.
        for i in 0..2 * cycle.len() {
            sums[i + 1] = sums[i] + cycle[i % cycle.len()];
        }
        sums
    }

    // The largest sum of k successive lengths, from the running sums.
    fn largest_run(&self, sums: &[u32; 65], k: usize) -> u32
        requires few { k ≤ length (lengths_of self.now) }
        requires summed { (i : ℕ) → i < 2 * length (lengths_of self.now) + 1 → slice_index sums.now i ≡ run (lengths_of self.now) 0 i }
        ensures { result ≡ cycle_work (lengths_of self.now) k }
    {
        let cycle = self.as_slice();
        let mut most = 0;
        // By index: the closure of a chain over the starts is asked to subtract at every p, and so gets no proof.
        for p in 0..cycle.len() {
            most = (sums[p + k] - sums[p]).max(most);
        }
        most
    }

    // The largest sums of 0 to all of the lengths.
    pub(crate) fn largest_runs(&self) -> [u32; 33]
        ensures { (k : ℕ) → k < length (lengths_of self.now) + 1 → slice_index result k ≡ cycle_work (lengths_of self.now) k }
    {
        let sums = self.running_sums();
        let mut most = [0; 33];
        let count = self.as_slice().len();
        for (k, place) in most[..=count].iter_mut().enumerate() {
            *place = self.largest_run(&sums, k);
        }
        most
    }
}
