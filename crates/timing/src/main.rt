// Analyses every row of a table at high load and prints the sum of what was answered. Given a number of turns, it does so that many
// times, each time with other deadlines, and also prints how many nanoseconds the shortest turn took.
#![tactic(auto)]

use anyhow::anyhow;
use frames::Standard;
use response::{Outcome, Row, Verdict, respond};
use sources::Cyclic;
use std::alloc::Global;
use std::env;
use std::time::Instant;

// How many rows the table has.
const ROWS: u16 = 256;

type Message = Cyclic<Standard, u16>;

// Row i of the table: a cycle of one to four payloads, and a period that rises from row to row.
fn row(i: u16, turn: u32) -> anyhow::Result<Row<Message>> {
    let n = u32::from(i);
    let payloads = [0u8, 3, 6, 0].map(|more| ((5 * n + u32::from(more)) % 9) as u8);
    let period = 5_000 + 260 * n;
    Ok(Row {
        source: Cyclic::new(Standard, i, period, &payloads[..1 + i as usize % 4])?,
        deadline: period.saturating_add(turn),
    })
}

fn table(heap: Global, turn: u32) -> anyhow::Result<Vec<Row<Message>>> {
    (0..ROWS).map(|i| row(i, turn)).try_collect(heap)
}

// A number for the verdict, the bound and the round count, added up. The numbers are part of the sum that is compared.
fn total(outcome: Outcome) -> u64 {
    let verdict = match outcome.verdict() {
        Verdict::Ok => 1,
        Verdict::Late => 2,
        Verdict::None => 3,
    };
    verdict + u64::from(outcome.bound()) + u64::from(outcome.rounds())
}

// The totals of all rows, added up.
fn answers(rows: &[Row<Message>]) -> anyhow::Result<u64> {
    let mut sum = 0u64;
    for place in 0..rows.len() {
        let outcome = respond(rows, place).map_err(|_| anyhow!("the analysis refused the table"))?;
        sum = sum.wrapping_add(total(outcome));
    }
    Ok(sum)
}

fn main(rt: HostRuntime) -> anyhow::Result<()> {
    let turns = match env::args(&rt)?.nth(1) {
        Some(word) => word.parse::<u32>()?,
        None => 0,
    };
    let mut sum = answers(&table(rt.alloc(), 0)?)?;
    let mut shortest = None;
    for turn in 0..turns {
        let rows = table(rt.alloc(), turn)?;
        let begin = Instant::now(&rt)?;
        sum = sum.wrapping_add(answers(&rows)?);
        let time = begin.elapsed(&rt)?.as_nanos();
        shortest = Some(shortest.map_or(time, |best: u128| best.min(time)));
    }
    println!(rt; "{sum}")?;
    if let Some(nanos) = shortest {
        println!(rt; "{nanos}")?;
    }
    Ok(())
}
