// What every source of a bus's messages is and answers.
ghost use Rattle.std.specs.Prelude.{◌≡◌, ℕ};
ghost use Rattle.sources.specs.Streams.{Stream, Laws};
ghost use Rattle.sources.specs.Counts.{count, argument, gap_answer, jitter_answer};

// What has an identifier, by which it is ordered: a lower one has the higher priority. No call changes it.
pub trait Entry {
    ghost identifier: { Self → ℕ };

    fn identifier(&self) -> u32
        ensures { result ≡ identifier self.now };
}

// A source of messages: its meaning is the four ghost members, which keep the laws.
pub trait Source: Entry {
    ghost gap: { Self → ℕ → ℕ };

    ghost work: { Self → ℕ → ℕ };

    ghost jitter: { Self → ℕ };

    ghost traffic: { Self → Stream → Type 0 };

    // The least time from an arrival to the q-th after it.
    fn gap(&self, q: u32) -> u32
        ensures { result ≡ gap_answer (gap self.now (argument q)) };

    // The most bit times that k successive instances take.
    fn work(&self, k: u32) -> u32
        ensures { result ≡ work self.now (argument k) };

    // The longest time from arrival to queueing.
    fn jitter(&self) -> u32
        ensures { result ≡ jitter_answer (jitter self.now) };

    // The largest n with gap(n - 1) below x, and 0 for x = 0.
    fn count(&self, x: u32) -> u32
        ensures { result ≡ count (gap self.now) (argument x) };

    ghost lawful: { (s : Self) → Laws (record { gap = gap s; work = work s; jitter = jitter s; traffic = traffic s }) };
}
