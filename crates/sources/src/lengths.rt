// The frame lengths of a cycle.
ghost use Rattle.std.specs.Prelude.{◌≡◌, ◌≤◌, false, map, length, take};
ghost use Rattle.sources.specs.Answers.{some_above};
ghost use Rattle.sources.specs.Cycles.{FrameCycle};

use frames::Format;

// One to 32 frame lengths, in the first places. An array with its length beside it: sources are `Copy` and use no heap.
#[derive(Clone, Copy)]
pub struct Lengths {
    size: usize,
    places: [u32; 32],
    ghost few: { (size ≤ 32) × (length (take size places) ≡ size) },
    ghost frames: { FrameCycle (take size places) },
}

impl Lengths {
    // The longest frame for each payload.
    pub(crate) fn of<F: Format>(payloads: &[u8]) -> Lengths
        requires few { (1 ≤ length payloads.now) × (length payloads.now ≤ 32) }
        requires small { some_above 8 payloads.now ≡ false }
        ensures { take result.size result.places ≡ map F.Format.longest payloads.now }
    {
        let mut places = [0; 32];
        // By index, as nothing is known of what a zip with `iter_mut` writes.
        for (i, payload) in payloads.iter().enumerate() {
            places[i] = F::longest_frame(*payload);
        }
        Lengths {
            size: payloads.len(),
            places,
        }
    }

    pub(crate) fn as_slice(&self) -> &[u32]
        ensures { result.now ≡ take self.now.size self.now.places }
    {
        &self.places[..self.size]
    }
}
