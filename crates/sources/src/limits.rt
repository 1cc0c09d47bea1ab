// The limits of what the calls of a source take and answer.
ghost use Rattle.std.specs.Prelude.{◌≡◌};
ghost use Rattle.sources.specs.Counts.{argument, gap_answer};

// The largest argument and the largest answer for a gap.
const LARGEST: u32 = 2_000_001;

// An argument as it is taken.
pub(crate) fn argument(x: u32) -> u32
    ensures { result ≡ argument x }
{
    x.min(LARGEST)
}

// A gap as it is answered.
pub(crate) fn gap_answer(gap: u64) -> u32
    ensures { result ≡ gap_answer gap }
{
    gap.min(u64::from(LARGEST)) as u32
}
