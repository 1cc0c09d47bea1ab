// Rows that are queued later than they arrive.
use crate::results::{parts, row};
use frames::{Extended, Standard};
use response::{Verdict, respond};
use sources::{Burst, Cyclic, HeldUp};
use std::test::Fail;

#[test]
fn extended_frames_that_are_held_up(rt: HostRuntime) -> Result<(), Fail> {
    let first = Cyclic::new(Extended, 1, 400, &[8, 0])?;
    let second = Cyclic::new(Extended, 2, 500, &[1])?;
    let third = Cyclic::new(Extended, 3, 1_000, &[3])?;
    let rows = [
        row(HeldUp::new(first, 500)?, 769),
        row(HeldUp::new(second, 0)?, 600),
        row(HeldUp::new(third, 900)?, 1_500),
    ];
    assert_eq!(rt; parts(respond(&rows, 0)?), (Verdict::Late, 770, 6));
    assert_eq!(rt; parts(respond(&rows, 1)?), (Verdict::Ok, 600, 8));
    assert_eq!(rt; parts(respond(&rows, 2)?), (Verdict::Ok, 1_500, 9));
    Ok(())
}

#[test]
fn bursts_that_are_held_up(rt: HostRuntime) -> Result<(), Fail> {
    let above = Burst::new(Standard, 1, 800, 3, 10, &[2])?;
    let own = Burst::new(Standard, 2, 900, 2, 60, &[6])?;
    let rows = [
        row(HeldUp::new(above, 150)?, 470),
        row(HeldUp::new(own, 300)?, 694),
    ];
    assert_eq!(rt; parts(respond(&rows, 0)?), (Verdict::Ok, 470, 5));
    assert_eq!(rt; parts(respond(&rows, 1)?), (Verdict::Late, 695, 5));
    Ok(())
}
