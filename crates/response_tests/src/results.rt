// Rows, and what their analysis came to.
use response::{Outcome, Row, Verdict};

pub fn row<S>(source: S, deadline: u32) -> Row<S> {
    Row { source, deadline }
}

// The verdict, the bound and the round count.
pub fn parts(outcome: Outcome) -> (Verdict, u32, u32) {
    (outcome.verdict(), outcome.bound(), outcome.rounds())
}
