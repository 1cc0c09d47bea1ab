// What the analysis refuses, and which refusal comes first.
use crate::results::{parts, row};
use frames::Standard;
use response::{ResponseFault, Row, Verdict, respond};
use sources::{Cyclic, HeldUp, RowFault};
use std::test::Fail;

type HeldUpRow = Row<HeldUp<HeldUp<Cyclic<Standard, u16>>>>;

// A row of the longest period with a jitter of 999,999 and what it is held up beyond that.
fn held_up_row(beyond: u32, deadline: u32) -> Result<HeldUpRow, RowFault> {
    let cyclic = Cyclic::new(Standard, 1, 1_000_000, &[0])?;
    let held = HeldUp::new(cyclic, 999_999)?;
    Ok(row(HeldUp::new(held, beyond)?, deadline))
}

// The number of the refusal, or 0 where the row was analysed: the tests compare these numbers.
fn refusal(rows: &[HeldUpRow], place: usize) -> u8 {
    respond(rows, place).err().map_or(0, ResponseFault::number)
}

#[test]
fn both_ends_of_deadlines_and_jitters(rt: HostRuntime) -> Result<(), Fail> {
    assert_eq!(rt; refusal(&[held_up_row(0, 0)?], 0), 21);
    assert_eq!(rt;
        parts(respond(&[held_up_row(0, 1)?], 0)?),
        (Verdict::Late, 1_000_054, 4)
    );
    assert_eq!(rt;
        parts(respond(&[held_up_row(1, 1_000_000)?], 0)?),
        (Verdict::Late, 1_000_055, 4)
    );
    assert_eq!(rt; refusal(&[held_up_row(1, 1_000_001)?], 0), 21);
    assert_eq!(rt; refusal(&[held_up_row(2, 1)?], 0), 22);
    Ok(())
}

#[test]
fn the_first_refusal_in_order(rt: HostRuntime) -> Result<(), Fail> {
    let fits = held_up_row(0, 1)?;
    let held = held_up_row(2, 1)?;
    let both = held_up_row(2, 0)?;
    assert_eq!(rt;
        parts(respond(&[fits, fits], 1)?),
        (Verdict::Late, 1_000_164, 6)
    );
    assert_eq!(rt; refusal(&[fits, both], 0), 21);
    assert_eq!(rt; refusal(&[held, both], 1), 22);
    assert_eq!(rt; refusal(&[both, held], 2), 25);
    Ok(())
}
