// The one search for a fixed point, for every curve that never falls.
ghost use Rattle.std.specs.Prelude.{◌≡◌, ℕ, ◌≤◌, min};
ghost use Rattle.response.specs.Searches.{NeverFalls, Searches, next_step, fixed_point, FindsLeast, value_of, rounds_of};
ghost use Rattle.response.specs.Views.{found_of, step_of};

use std::ops::ControlFlow;

// The time past which no search goes.
pub const HORIZON: u32 = 1_000_000;

// A curve over time that never falls.
pub trait Curve {
    ghost curve: { Self → ℕ → ℕ };

    // The curve's value at x; one past the horizon is answered as 1,000,001. The curve never falls.
    fn value(&self, x: u32) -> u32
        ensures answer { result ≡ min (curve self.now x) 1000001 }
        ensures rising { NeverFalls (curve self.now) };
}

// Where a search ended, if it did, and how many evaluations it made.
#[derive(Clone, Copy, PartialEq, Eq, Debug)]
pub struct Found {
    pub end: Option<u32>,
    pub rounds: u32,
}

impl Found {
    // Where the search ended, and 0 where it failed.
    pub fn value(&self) -> u32
        ensures { result ≡ value_of (found_of self.now) }
    {
        self.end.unwrap_or(0)
    }

    // How many evaluations the search made.
    pub fn rounds(&self) -> u32
        ensures { result ≡ rounds_of (found_of self.now) }
    {
        self.rounds
    }
}

// The step of a search at a value, from the curve's answer there and the evaluations made: it is over, or it goes on from the answer.
fn next_step(value: u32, answer: u32, rounds: u32) -> ControlFlow<Found, u32>
    ensures { step_of result ≡ next_step value answer rounds }
{
    if answer > HORIZON {
        ControlFlow::Break(Found { end: None, rounds })
    } else if answer == value {
        ControlFlow::Break(Found {
            end: Some(value),
            rounds,
        })
    } else {
        ControlFlow::Continue(answer)
    }
}

// Evaluates the curve at a value, ends where the answer equals the value, and otherwise goes on from the answer; fails where an
// answer passes the horizon.
pub fn search<C: Curve>(on: &C, start: u32) -> Found
    ensures value { found_of result ≡ fixed_point (C.Curve.curve on.now) start }
    ensures steps { Searches (C.Curve.curve on.now) start (found_of result) }
    ensures least { start ≤ C.Curve.curve on.now start → FindsLeast (C.Curve.curve on.now) start (found_of result) }
{
    let mut value = start;
    let mut rounds = 0;
    loop {
        let answer = on.value(value);
        rounds += 1;
        match next_step(value, answer, rounds) {
            ControlFlow::Break(found) => return found,
            ControlFlow::Continue(next) => value = next,
        }
    }
}
