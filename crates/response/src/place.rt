// A row among the rows of a bus, as its analysis sees it.
ghost use Rattle.std.specs.Prelude.{◌≡◌, ℕ, ◌+◌, ◌-◌, ◌<◌, ◌≤◌, max, take, drop, length, slice_get, Some};
ghost use Rattle.response.specs.Searches.{ended, horizon};
ghost use Rattle.response.specs.Bounds.{longest_of, busy_search, judged, judged_at, response};
ghost use Rattle.response.specs.Curves.{models, InRange, held_answer, instances_answer, length_answer, candidate_answer};
ghost use Rattle.response.specs.Views.{outcome_of, seen};

use crate::curves::{Busy, Delay};
use crate::fixed_point::search;
use crate::listed::Listed;
use crate::outcome::Outcome;
use sources::Source;

// The longest frame of the rows, or 0. By `fold`: the proof of `map` and `max` stops at a limit of the search.
#[tactic(auto, using(crate::proofs::AnswerLaws::longest_folded))]
pub fn longest_frame<L: Listed<Of = S>, S: Source>(rows: &[L]) -> u32
    ensures { result ≡ longest_of (models L.Listed S.Source rows.now) }
{
    rows.iter()
        .fold(0, |longest, row| row.source().work(1).max(longest))
}

// The rows above a row, the row itself, and the longest frame below it.
#[derive(Drop)]
pub(crate) struct Place<'a, L> {
    pub(crate) above: &'a [L],
    pub(crate) own: &'a L,
    pub(crate) blocking: u32,
}

impl<'a, L: Listed<Of = S>, S: Source> Place<'a, L> {
    // The place of a row among the rows.
    pub(crate) fn at(rows: &'a [L], place: usize) -> Self
        requires { place < length rows.now }
        ensures above { result.above.now ≡ take place rows.now }
        ensures own { slice_get rows.now place ≡ Some result.own.now }
        ensures blocking { result.blocking ≡ longest_of (models L.Listed S.Source (drop (place + 1) rows.now)) }
    {
        Place {
            above: &rows[..place],
            own: &rows[place],
            blocking: longest_frame(&rows[place + 1..]),
        }
    }

    // How long the bus is held in any case before instance q starts: by a frame below and by the earlier instances.
    fn held(&self, q: u32) -> u32
        requires { self.now.blocking ≤ horizon }
        ensures { result ≡ held_answer (seen L.Listed S.Source self.now) q }
    {
        self.blocking + self.own.source().work(q)
    }

    // How many instances a busy period has that ends at the given time.
    fn instances(&self, end: u32) -> u32
        requires { end ≤ horizon }
        ensures { result ≡ instances_answer (seen L.Listed S.Source self.now) end }
    {
        let source = self.own.source();
        source.count(end + source.jitter())
    }

    // The bit times of instance q at most.
    fn length(&self, q: u32) -> u32
        requires { q ≤ horizon }
        ensures { result ≡ length_answer (seen L.Listed S.Source self.now) q }
    {
        let source = self.own.source();
        source.work(q + 1).saturating_sub(source.work(q))
    }

    // The larger of a bound and the candidate of instance q, which is sent by the given time.
    fn with_candidate(&self, bound: u32, q: u32, sent: u32) -> u32
        requires { (q ≤ horizon) × (sent ≤ horizon) }
        ensures { result ≡ max (candidate_answer (seen L.Listed S.Source self.now) q sent) bound }
    {
        let source = self.own.source();
        (source.jitter() + sent)
            .saturating_sub(source.gap(q))
            .max(bound)
    }

    // A bound against the row's deadline.
    fn against_deadline(&self, bound: u32, rounds: u32) -> Outcome
        ensures { outcome_of result ≡ judged (L.Listed.deadline self.now.own.now) bound rounds }
    {
        if bound <= self.own.deadline() {
            Outcome::Ok { bound, rounds }
        } else {
            Outcome::Late { bound, rounds }
        }
    }

    // Judges the row, whose busy period ends at the given time: the largest candidate of its instances against its deadline.
    fn judge(&self, end: u32, rounds: u32) -> Outcome
        requires ends { busy_search (seen L.Listed S.Source self.now) ≡ ended end rounds }
        requires in_range { InRange (seen L.Listed S.Source self.now) }
        ensures { outcome_of result ≡ judged_at (seen L.Listed S.Source self.now) (L.Listed.deadline self.now.own.now) end rounds }
    {
        let mut bound = 0;
        let mut all_rounds = rounds;
        let mut start = self.blocking;
        for q in 0..self.instances(end) {
            let held = self.held(q);
            let found = search(&Delay { place: self, held }, start);
            all_rounds += found.rounds;
            start = found.value() + self.length(q);
            bound = self.with_candidate(bound, q, start);
        }
        self.against_deadline(bound, all_rounds)
    }

    // The verdict on the row, with its bound and round count.
    pub(crate) fn response(&self) -> Outcome
        requires { InRange (seen L.Listed S.Source self.now) }
        ensures { outcome_of result ≡ response (seen L.Listed S.Source self.now) (L.Listed.deadline self.now.own.now) }
    {
        let first = self.blocking + self.own.source().work(1);
        let found = search(&Busy { place: self }, first);
        match found.end {
            Some(end) => self.judge(end, found.rounds),
            None => Outcome::None {
                rounds: found.rounds,
            },
        }
    }
}
