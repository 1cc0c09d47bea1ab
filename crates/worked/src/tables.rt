// Tables whose rows are judged.
use crate::rows::{Message, row};
use response::{Outcome, Row, respond};
use sources::Entry;
use std::io;

// Shows a row and makes it.
fn enter(
    rt: &impl Print,
    identifier: u16,
    period: u32,
    deadline: u32,
    payloads: &[u8],
) -> anyhow::Result<Row<Message>> {
    print!(rt; "  enter {identifier}: period {period}, deadline {deadline}, payloads")?;
    for payload in payloads {
        print!(rt; " {payload}")?;
    }
    println!(rt)?;
    Ok(row(identifier, period, deadline, payloads)?)
}

// Shows the identifier of a row, its bound, its deadline, the verdict and the round count.
fn show_outcome(rt: &impl Print, row: &Row<Message>, outcome: Outcome) -> io::Result<()> {
    let identifier = row.source.identifier();
    let bound = outcome.bound();
    let deadline = row.deadline;
    let verdict = outcome.verdict().word();
    let rounds = outcome.rounds();
    println!(rt; "  {identifier} {bound} {deadline} {verdict} {rounds}")
}

// Judges each row of a table, highest priority first.
fn judge(rt: &impl Print, rows: &[Row<Message>]) -> anyhow::Result<()> {
    println!(rt; "  judge")?;
    for (place, row) in rows.iter().enumerate() {
        show_outcome(rt, row, respond(rows, place)?)?;
    }
    Ok(())
}

fn judge_two_rows(rt: &impl Print) -> anyhow::Result<()> {
    println!(rt; "two rows on a standard bus")?;
    let rows = [
        enter(rt, 16, 160, 235, &[4])?,
        enter(rt, 32, 240, 240, &[1, 8, 0])?,
    ];
    judge(rt, &rows)
}

fn judge_three_rows(rt: &impl Print) -> anyhow::Result<()> {
    println!(rt; "three rows on a standard bus")?;
    let rows = [
        enter(rt, 16, 200, 200, &[2, 4, 1])?,
        enter(rt, 32, 350, 350, &[2])?,
        enter(rt, 48, 1_000, 1_000, &[5])?,
    ];
    judge(rt, &rows)
}

fn judge_full_bus(rt: &impl Print) -> anyhow::Result<()> {
    println!(rt; "one row that fills a standard bus, alone and then above another")?;
    let full = enter(rt, 16, 135, 135, &[8])?;
    judge(rt, &[full])?;
    judge(rt, &[full, enter(rt, 32, 1_000, 1_000, &[0])?])
}

pub fn judge_tables(rt: &impl Print) -> anyhow::Result<()> {
    judge_two_rows(rt)?;
    judge_three_rows(rt)?;
    judge_full_bus(rt)
}
