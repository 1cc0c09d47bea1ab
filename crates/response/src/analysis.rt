// The analysis of one row among the rows of a bus.
ghost use Rattle.std.specs.Prelude.{◌≡◌, map, length};
ghost use Rattle.sources.specs.Answers.{answered};
ghost use Rattle.sources.specs.Models.{model};
ghost use Rattle.response.specs.Bounds.{place as place_of};
ghost use Rattle.response.specs.Curves.{models};
ghost use Rattle.response.specs.Views.{fault_number, outcome_of};
ghost use Rattle.response.specs.Analysis.{place_answer, row_answer, rows_answer, response_answer, OfResponse, Grounded, GivesLargest, NoRunOutlasts};

use crate::fixed_point::HORIZON;
use crate::listed::Listed;
use crate::outcome::{Outcome, ResponseFault};
use crate::place::Place;
use sources::Source;

// Checks the deadline and the jitter of a row.
pub fn check_row<L: Listed<Of = S>, S: Source>(row: &L) -> Result<(), ResponseFault>
    ensures { answered fault_number (λ u. u) result ≡ row_answer (model S.Source (L.Listed.source row.now)) (L.Listed.deadline row.now) }
{
    if !(1..=HORIZON).contains(&row.deadline()) {
        return Err(ResponseFault::Deadline);
    }
    if row.source().jitter() > HORIZON {
        return Err(ResponseFault::Jitter);
    }
    Ok(())
}

// Checks every deadline and every jitter, row by row.
fn check_rows<L: Listed<Of = S>, S: Source>(rows: &[L]) -> Result<(), ResponseFault>
    ensures { answered fault_number (λ u. u) result ≡ rows_answer (models L.Listed S.Source rows.now) (map L.Listed.deadline rows.now) }
{
    for row in rows {
        check_row(row)?;
    }
    Ok(())
}

// Checks that there is a row at a place.
fn check_place(rows: usize, place: usize) -> Result<(), ResponseFault>
    ensures { answered fault_number (λ u. u) result ≡ place_answer rows place }
{
    if place >= rows {
        return Err(ResponseFault::Row);
    }
    Ok(())
}

// The verdict on the row at a place among the rows, highest priority first, with its bound and round count.
pub fn respond<L: Listed<Of = S>, S: Source>(
    rows: &[L],
    place: usize,
) -> Result<Outcome, ResponseFault>
    ensures answer { answered fault_number outcome_of result ≡ response_answer (models L.Listed S.Source rows.now) (map L.Listed.deadline rows.now) place }
    ensures grounded { OfResponse (Grounded (place_of (models L.Listed S.Source rows.now) place)) (answered fault_number outcome_of result) }
    ensures largest { OfResponse (GivesLargest (place_of (models L.Listed S.Source rows.now) place)) (answered fault_number outcome_of result) }
    ensures holds { OfResponse (NoRunOutlasts (models L.Listed S.Source rows.now) place) (answered fault_number outcome_of result) }
{
    check_place(rows.len(), place)?;
    check_rows(rows)?;
    Ok(Place::at(rows, place).response())
}
