// Two offices that reach the same rows in different orders.
use crate::rows::{Message, row};
use register::{Answer, Slot, Use, perform};
use response::{Outcome, Row};
use sources::{Entry, RowFault, Source};
use std::io;

// The rows of the bus: two upper ones, the bottom one as it is in the end, and as it was before its frame was lengthened.
#[derive(Clone, Copy)]
struct Bus {
    first: Row<Message>,
    second: Row<Message>,
    bottom: Row<Message>,
    shorter: Row<Message>,
}

impl Bus {
    fn new() -> Result<Bus, RowFault> {
        Ok(Bus {
            first: row(16, 200, 200, &[2, 4, 1])?,
            second: row(32, 350, 350, &[2])?,
            bottom: row(48, 1_000, 1_000, &[5])?,
            shorter: row(48, 1_000, 1_000, &[4])?,
        })
    }

    // The rows are entered in one go and settled.
    fn in_one_go(&self) -> [Use<Message>; 9] {
        [
            Use::Enter(self.first),
            Use::Enter(self.second),
            Use::Enter(self.bottom),
            Use::Settle(16),
            Use::Settle(32),
            Use::Settle(48),
            Use::LookUp(16),
            Use::LookUp(32),
            Use::LookUp(48),
        ]
    }

    // The upper rows are settled first, and then the bottom row's frame is lengthened.
    fn lengthened(&self) -> [Use<Message>; 17] {
        [
            Use::Enter(self.first),
            Use::Enter(self.second),
            Use::Enter(self.shorter),
            Use::Settle(16),
            Use::Settle(32),
            Use::LookUp(16),
            Use::LookUp(32),
            Use::Amend(self.bottom),
            Use::LookUp(16),
            Use::LookUp(32),
            Use::LookUp(48),
            Use::Settle(48),
            Use::Settle(32),
            Use::Settle(16),
            Use::LookUp(16),
            Use::LookUp(32),
            Use::LookUp(48),
        ]
    }
}

// Shows a row by its identifier, its deadline and its longest frame.
fn show_row(rt: &impl Print, action: &str, row: &Row<Message>) -> io::Result<()> {
    let identifier = row.source.identifier();
    let deadline = row.deadline;
    let longest = row.source.work(1);
    print!(rt; "  {action} {identifier}, deadline {deadline}, longest frame {longest}: ")
}

fn show_use(rt: &impl Print, action: &Use<Message>) -> io::Result<()> {
    match action {
        Use::Enter(row) => show_row(rt, "enter", row),
        Use::Amend(row) => show_row(rt, "amend", row),
        Use::Withdraw(identifier) => print!(rt; "  withdraw {identifier}: "),
        Use::Settle(identifier) => print!(rt; "  settle {identifier}: "),
        Use::LookUp(identifier) => print!(rt; "  look up {identifier}: "),
    }
}

// Shows the verdict, the bound if there is one, and the round count.
fn show_outcome(rt: &impl Print, outcome: Outcome) -> io::Result<()> {
    let verdict = outcome.verdict().word();
    match outcome {
        Outcome::Ok { bound, rounds } | Outcome::Late { bound, rounds } => println!(rt;
            "{verdict}, bound {bound}, rounds {rounds}"
        ),
        Outcome::None { rounds } => println!(rt; "{verdict}, rounds {rounds}"),
    }
}

fn show_answer(rt: &impl Print, answer: Answer) -> io::Result<()> {
    match answer {
        Ok(None) => println!(rt; "done"),
        Ok(Some(outcome)) => show_outcome(rt, outcome),
        Err(fault) => println!(rt; "refused with {}", fault.number()),
    }
}

// Performs the uses of an office on its memory, and shows each with its answer.
fn play<const N: usize>(
    rt: &impl Print,
    slots: &mut [Slot<Message>],
    uses: &[Use<Message>; N],
) -> io::Result<()> {
    let mut answers = [Ok(None); N];
    perform(slots, uses, &mut answers);
    for (action, answer) in uses.iter().zip(answers) {
        show_use(rt, action)?;
        show_answer(rt, answer)?;
    }
    Ok(())
}

// Shows of each row of one register whether the other shows the same for it.
fn compare(rt: &impl Print, ours: &[Slot<Message>], theirs: &[Slot<Message>]) -> io::Result<()> {
    for our in ours {
        let identifier = our.identifier();
        if let Some(their) = theirs.iter().find(|their| their.identifier() == identifier) {
            let word = if our.shown() == their.shown() {
                "the same"
            } else {
                "different"
            };
            println!(rt; "  {identifier}: {word}")?;
        }
    }
    Ok(())
}

// Plays both offices and compares their registers, both ways.
pub fn play_offices(rt: &impl Print) -> anyhow::Result<()> {
    let bus = Bus::new()?;
    let place = Slot {
        row: bus.first,
        outcome: None,
    };
    let mut ours = [place; 3];
    let mut theirs = [place; 3];
    println!(rt; "office A enters the rows in one go and settles them")?;
    play(rt, &mut ours, &bus.in_one_go())?;
    println!(rt;
        "office B settles the upper rows first and then lengthens the bottom row's frame"
    )?;
    play(rt, &mut theirs, &bus.lengthened())?;
    println!(rt; "what A shows, at B")?;
    compare(rt, &ours, &theirs)?;
    println!(rt; "what B shows, at A")?;
    compare(rt, &theirs, &ours)?;
    Ok(())
}
