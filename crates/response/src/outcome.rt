// What the analysis answers of a row.
ghost use Rattle.std.specs.Prelude.{◌≡◌, Some};
ghost use Rattle.response.specs.Views.{fault_number, outcome_of, verdict_of};
ghost use Rattle.response.specs.Bounds.{bound_of, response_rounds, verdict};
ghost use Rattle.response.specs.Words.{fault_word, verdict_word};

use std::error::Error;
use std::fmt;

// ok: the bound is at most the deadline. late: it is above. none: there is no bound.
#[derive(Clone, Copy, PartialEq, Eq, Debug)]
pub enum Verdict {
    Ok,
    Late,
    None,
}

impl Verdict {
    // The word for the verdict.
    pub fn word(self) -> &'static str
        ensures { result.now ≡ verdict_word (verdict_of self) }
    {
        match self {
            Verdict::Ok => "ok",
            Verdict::Late => "late",
            Verdict::None => "none",
        }
    }
}

impl fmt::Display for Verdict {
    ghost output = { λ v. Some (verdict_word (verdict_of v)) };

    fn fmt<W: fmt::Write>(&self, f: &mut fmt::Formatter<W>) -> fmt::Result {
        f.write_str(self.word())
    }
}

// The verdict on a row, with its bound, if it has one, and the evaluations that its searches made.
#[derive(Clone, Copy, PartialEq, Eq, Debug)]
pub enum Outcome {
    Ok { bound: u32, rounds: u32 },
    Late { bound: u32, rounds: u32 },
    None { rounds: u32 },
}

impl Outcome {
    pub fn verdict(&self) -> Verdict
        ensures { verdict_of result ≡ verdict (outcome_of self.now) }
    {
        match *self {
            Outcome::Ok { .. } => Verdict::Ok,
            Outcome::Late { .. } => Verdict::Late,
            Outcome::None { .. } => Verdict::None,
        }
    }

    // The bound, and 0 in its place where there is none.
    pub fn bound(&self) -> u32
        ensures { result ≡ bound_of (outcome_of self.now) }
    {
        match *self {
            Outcome::Ok { bound, .. } | Outcome::Late { bound, .. } => bound,
            Outcome::None { .. } => 0,
        }
    }

    // The round count.
    pub fn rounds(&self) -> u32
        ensures { result ≡ response_rounds (outcome_of self.now) }
    {
        match *self {
            Outcome::Ok { rounds, .. } | Outcome::Late { rounds, .. } | Outcome::None { rounds } =>
                rounds,
        }
    }
}

// Why the analysis gave no answer.
#[derive(Clone, Copy, PartialEq, Eq, Debug)]
pub enum ResponseFault {
    Deadline,
    Jitter,
    Row,
}

impl ResponseFault {
    // The refusal's number, by a match: the contract pins each.
    pub fn number(self) -> u8
        ensures { result ≡ fault_number self }
    {
        match self {
            ResponseFault::Deadline => 21,
            ResponseFault::Jitter => 22,
            ResponseFault::Row => 25,
        }
    }
}

impl fmt::Display for ResponseFault {
    ghost output = { λ f. Some (fault_word f) };

    fn fmt<W: fmt::Write>(&self, f: &mut fmt::Formatter<W>) -> fmt::Result {
        f.write_str(match self {
            ResponseFault::Deadline => "a deadline is not 1 to 1,000,000",
            ResponseFault::Jitter => "a jitter is above 1,000,000",
            ResponseFault::Row => "there is no such row",
        })
    }
}

impl Error for ResponseFault {}
