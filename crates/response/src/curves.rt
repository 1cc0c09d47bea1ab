// The two curves of the analysis: how long a busy period lasts, and how long an instance waits.
ghost use Rattle.std.specs.Prelude.{◌≡◌, ℕ, ◌+◌, min};
ghost use Rattle.sources.specs.Counts.{jitter_answer};
ghost use Rattle.sources.specs.Models.{model};
ghost use Rattle.response.specs.Searches.{horizon};
ghost use Rattle.response.specs.Curves.{models, load_answer, added, loads_answer, busy_answer, delay_answer};
ghost use Rattle.response.specs.Views.{seen};

use crate::fixed_point::{Curve, HORIZON};
use crate::listed::Listed;
use crate::place::Place;
use sources::Source;

// The time within which instances arrive that a source can queue within t.
fn reach<S: Source>(source: &S, t: u32) -> u32
    ensures { result ≡ min t horizon + jitter_answer (S.Source.jitter source.now) }
{
    t.min(HORIZON) + source.jitter()
}

// The most bit times of the instances that a source can queue within t.
fn load<S: Source>(source: &S, t: u32) -> u32
    ensures { result ≡ load_answer (model S.Source source.now) t }
{
    source.work(source.count(reach(source, t)))
}

// A sum with the load of one row more, or none past the horizon, where that load is not worked out.
fn with_load<S: Source>(sum: u32, source: &S, t: u32) -> Option<u32>
    ensures { result ≡ added sum (load_answer (model S.Source source.now) t) }
{
    if sum > HORIZON {
        return None;
    }
    Some(sum.saturating_add(load(source, t)))
}

// What is held already and the loads of the rows within t, or 1,000,001 where that is more.
fn add_loads<L: Listed<Of = S>, S: Source>(held: u32, rows: &[L], t: u32) -> u32
    ensures { result ≡ min (held + loads_answer (models L.Listed S.Source rows.now) t) 1000001 }
{
    rows.iter()
        .try_fold(held, |sum, row| with_load(sum, row.source(), t))
        .map_or(HORIZON + 1, |sum| sum.min(HORIZON + 1))
}

// The busy curve of a row: the most that the bus is held within x from the start of a busy period, by a frame below, by the row itself
// and by the rows above it.
#[derive(Drop)]
pub(crate) struct Busy<'p, 'a, L> {
    pub(crate) place: &'p Place<'a, L>,
}

impl<L: Listed<Of = S>, S: Source> Curve for Busy<'_, '_, L> {
    ghost curve = { λ c. busy_answer (seen L.Listed S.Source c.place.now) };

    fn value(&self, x: u32) -> u32 {
        let place = self.place;
        let held = place.blocking.saturating_add(load(place.own.source(), x));
        add_loads(held, place.above, x)
    }
}

// The delay curve of an instance of a row: the most that the bus is held before it starts if it has not started by x, by what holds it in
// any case and by the rows above.
#[derive(Drop)]
pub(crate) struct Delay<'p, 'a, L> {
    pub(crate) place: &'p Place<'a, L>,
    pub(crate) held: u32,
}

impl<L: Listed<Of = S>, S: Source> Curve for Delay<'_, '_, L> {
    ghost curve = { λ c. delay_answer (seen L.Listed S.Source c.place.now) c.held };

    fn value(&self, x: u32) -> u32 {
        add_loads(self.held, self.place.above, x.saturating_add(1))
    }
}
