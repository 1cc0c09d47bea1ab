// Rows that come in bursts.
use crate::results::{parts, row};
use frames::{Extended, Standard};
use response::{Verdict, respond};
use sources::Burst;
use std::test::Fail;

#[test]
fn the_last_of_six_instances_responds_last(rt: HostRuntime) -> Result<(), Fail> {
    let rows = [
        row(Burst::new(Standard, 1, 400, 2, 1, &[8])?, 323),
        row(Burst::new(Standard, 2, 600, 3, 20, &[0])?, 500),
    ];
    assert_eq!(rt; parts(respond(&rows, 0)?), (Verdict::Late, 324, 4));
    assert_eq!(rt; parts(respond(&rows, 1)?), (Verdict::Ok, 500, 15));
    Ok(())
}

#[test]
fn bursts_of_extended_frames(rt: HostRuntime) -> Result<(), Fail> {
    let rows = [
        row(Burst::new(Extended, 70_000, 1_000, 3, 10, &[8])?, 580),
        row(Burst::new(Extended, 70_001, 1_200, 2, 100, &[0])?, 679),
        row(Burst::new(Extended, 70_002, 2_000, 4, 50, &[4])?, 2_000),
    ];
    assert_eq!(rt; parts(respond(&rows, 0)?), (Verdict::Ok, 580, 5));
    assert_eq!(rt; parts(respond(&rows, 1)?), (Verdict::Late, 680, 5));
    assert_eq!(rt; parts(respond(&rows, 2)?), (Verdict::Ok, 1_610, 14));
    Ok(())
}
