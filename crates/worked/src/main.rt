// The worked cases: shown of the definitions by one proof, and worked out again by the calls.
#![tactic(auto)]

mod offices;
mod rows;
mod tables;

ghost use Rattle.worked.specs.Cases.{WorkedCases};
ghost use Rattle.worked.specs.Reached.{BothReached};

use frames::{Extended, Standard};
use sources::{Burst, Cyclic, Entry, HeldUp, Source};
use std::io;

// The worked cases hold of the definitions that the contracts cite.
fn cases_hold()
    ensures { WorkedCases }
{}

// Lawful runs of the two rows reach responses of 229 in the upper row and of 230 in the lower, so that some runs are lawful.
fn responses_are_reached()
    ensures { BothReached }
{}

// Shows what a source answers at each number.
fn show_each<F: Fn(u32) -> u32>(
    rt: &impl Print,
    name: &str,
    numbers: &[u32],
    answer: F,
) -> io::Result<()>
    requires { F.IsAlwaysCallable answer }
{
    for number in numbers {
        println!(rt; "  {name}({number}) = {}", answer(*number))?;
    }
    Ok(())
}

fn show_gaps(rt: &impl Print, source: &impl Source, numbers: &[u32]) -> io::Result<()> {
    show_each(rt, "gap", numbers, |q| source.gap(q))?;
    println!(rt; "  jitter = {}", source.jitter())
}

// Says that a source was made.
fn show_made(rt: &impl Print, source: &impl Entry) -> io::Result<()> {
    println!(rt; "  made with identifier {}", source.identifier())
}

fn show_cyclic(rt: &impl Print) -> anyhow::Result<()> {
    println!(rt; "cyclic, standard format: identifier 1, period 200, payloads 2 4 1")?;
    let source = Cyclic::new(Standard, 1, 200, &[2, 4, 1])?;
    show_made(rt, &source)?;
    show_each(rt, "work", &[1, 2, 3, 4], |k| source.work(k))?;
    show_gaps(rt, &source, &[1, 2])?;
    show_each(rt, "count", &[0, 200, 201], |x| source.count(x))?;
    println!(rt; "held up by 50, and by 1,000,000 on top of that")?;
    let held = HeldUp::new(source, 50)?;
    show_made(rt, &held)?;
    show_gaps(rt, &held, &[1])?;
    let longer = HeldUp::new(held, 1_000_000)?;
    show_made(rt, &longer)?;
    show_gaps(rt, &longer, &[1])?;
    Ok(())
}

fn show_burst(rt: &impl Print) -> anyhow::Result<()> {
    println!(rt;
        "burst, extended format: identifier 70000, period 1000, size 3, spacing 10, payload 8"
    )?;
    let source = Burst::new(Extended, 70_000, 1_000, 3, 10, &[8])?;
    show_made(rt, &source)?;
    show_each(rt, "work", &[1, 2], |k| source.work(k))?;
    show_gaps(rt, &source, &[1, 2, 3, 4])?;
    show_each(rt, "count", &[10, 11, 1_000, 1_001], |x| source.count(x))?;
    Ok(())
}

fn show_refusal(rt: &impl Print) -> io::Result<()> {
    println!(rt; "cyclic, standard format: identifier 1, period 99, payloads 2 4 1")?;
    match Cyclic::new(Standard, 1, 99, &[2, 4, 1]) {
        Ok(source) => show_made(rt, &source),
        Err(fault) => println!(rt; "  refused with {}", fault.number()),
    }
}

fn main(rt: HostRuntime) -> anyhow::Result<()> {
    cases_hold();
    responses_are_reached();
    show_cyclic(&rt)?;
    show_burst(&rt)?;
    show_refusal(&rt)?;
    tables::judge_tables(&rt)?;
    offices::play_offices(&rt)
}
