// The two frame formats of a CAN bus: their identifiers, and the longest frame for each payload.
#![tactic(auto)]

ghost use Rattle.std.specs.Prelude.{◌≡◌, map, ℕ, ◌^◌, ◌<◌, ◌≤◌, List};
ghost use Rattle.frames.specs.Frames.{longest_frame, payload_sizes, payload_bytes};
ghost use Rattle.std.proofs.Common.{rules};

// The integer type that holds the identifiers of a format.
pub trait Identifier: Copy {
    ghost number: { Self → ℕ };

    fn number(self) -> u32
        ensures { result ≡ number self };
}

// By hand for each type: what a blanket impl over `Into<u32>` knows is a relation, and clauses need the number.
impl Identifier for u16 {
    ghost number = { λ i. i };

    fn number(self) -> u32 {
        u32::from(self)
    }
}

impl Identifier for u32 {
    ghost number = { λ i. i };

    fn number(self) -> u32 {
        self
    }
}

// A frame format: its highest identifier, the bits that an identifier is kept in, and the nine longest frames,
// for payloads of 0 to 8 bytes.
pub trait Format: Copy {
    type Id: Identifier;

    ghost HIGHEST: { ℕ };

    const HIGHEST: u32;

    ghost WIDTH: { ℕ };

    const WIDTH: u32;

    ghost LENGTHS: { List ℕ };

    const LENGTHS: [u32; 9];

    ghost longest: { ℕ → ℕ };

    // The constants, as calls.
    fn highest_identifier() -> u32
        ensures { result ≡ HIGHEST }
    {
        Self::HIGHEST
    }

    fn identifier_width() -> u32
        ensures { result ≡ WIDTH }
    {
        Self::WIDTH
    }

    fn frame_lengths() -> [u32; 9]
        ensures { result ≡ map longest payload_sizes }
    {
        Self::LENGTHS
    }

    fn longest_frame(payload: u8) -> u32
        ensures { result ≡ longest (payload_bytes payload) }
    {
        let lengths = Self::LENGTHS;
        lengths[payload.min(8) as usize]
    }

    ghost table: { LENGTHS ≡ map longest payload_sizes };

    ghost positive: { (n : ℕ) → 1 ≤ longest n };

    ghost narrow: { HIGHEST < 2 ^ WIDTH };

    ghost small: { (n : ℕ) → n ≤ 8 → longest n ≤ 160 };
}

#[derive(Clone, Copy)]
pub struct Standard;

impl Format for Standard {
    type Id = u16;

    ghost HIGHEST = { 2047 };

    const HIGHEST: u32 = 2047;

    ghost WIDTH = { 16 };

    const WIDTH: u32 = 16;

    ghost LENGTHS = { map (longest_frame 55) payload_sizes };

    const LENGTHS: [u32; 9] = [55, 65, 75, 85, 95, 105, 115, 125, 135];

    ghost longest = { longest_frame 55 };

    ghost table = { Prim.search rules };

    ghost positive = { Prim.search rules };

    ghost narrow = { Prim.search rules };

    ghost small = { Prim.search rules };
}

#[derive(Clone, Copy)]
pub struct Extended;

impl Format for Extended {
    type Id = u32;

    ghost HIGHEST = { 536_870_911 };

    const HIGHEST: u32 = 536_870_911;

    ghost WIDTH = { 32 };

    const WIDTH: u32 = 32;

    ghost LENGTHS = { map (longest_frame 80) payload_sizes };

    const LENGTHS: [u32; 9] = [80, 90, 100, 110, 120, 130, 140, 150, 160];

    ghost longest = { longest_frame 80 };

    ghost table = { Prim.search rules };

    ghost positive = { Prim.search rules };

    ghost narrow = { Prim.search rules };

    ghost small = { Prim.search rules };
}
