// What stands in a list of rows: a source and its deadline.
ghost use Rattle.std.specs.Prelude.{◌≡◌, ℕ};

use sources::Source;

// A row of a bus, or what holds one.
pub trait Listed {
    type Of: Source;

    ghost source: { Self → Self.Of };

    ghost deadline: { Self → ℕ };

    fn source(&self) -> &Self::Of
        ensures { result.now ≡ source self.now };

    fn deadline(&self) -> u32
        ensures { result ≡ deadline self.now };
}

// A source with its deadline.
#[derive(Clone, Copy)]
pub struct Row<S> {
    pub source: S,
    pub deadline: u32,
}

impl<S: Source> Listed for Row<S> {
    type Of = S;

    ghost source = { λ r. r.source };

    ghost deadline = { λ r. r.deadline };

    fn source(&self) -> &S {
        &self.source
    }

    fn deadline(&self) -> u32 {
        self.deadline
    }
}
