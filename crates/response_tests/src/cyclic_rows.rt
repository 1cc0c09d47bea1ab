// Rows that are sent at a period.
use crate::results::{parts, row};
use frames::Standard;
use response::{Row, Verdict, respond};
use sources::{Cyclic, RowFault};
use std::test::Fail;

type CyclicRow = Row<Cyclic<Standard, u16>>;

fn cyclic_row(
    identifier: u16,
    period: u32,
    payloads: &[u8],
    deadline: u32,
) -> Result<CyclicRow, RowFault> {
    let source = Cyclic::new(Standard, identifier, period, payloads)?;
    Ok(row(source, deadline))
}

#[test]
fn a_later_instance_responds_last(rt: HostRuntime) -> Result<(), Fail> {
    let rows = [
        cyclic_row(16, 160, &[4], 235)?,
        cyclic_row(32, 240, &[1, 8, 0], 240)?,
    ];
    assert_eq!(rt; parts(respond(&rows, 0)?), (Verdict::Ok, 230, 6));
    assert_eq!(rt; parts(respond(&rows, 1)?), (Verdict::Late, 245, 12));
    Ok(())
}

#[test]
fn a_bound_equal_to_the_deadline_is_in_time(rt: HostRuntime) -> Result<(), Fail> {
    let first = cyclic_row(1, 200, &[2, 4, 1], 200)?;
    let last = cyclic_row(3, 1_000, &[5], 1_000)?;
    let in_time = [first, cyclic_row(2, 350, &[2], 350)?, last];
    assert_eq!(rt; parts(respond(&in_time, 1)?), (Verdict::Ok, 350, 6));
    let late = [first, cyclic_row(2, 350, &[2], 349)?, last];
    assert_eq!(rt; parts(respond(&late, 1)?), (Verdict::Late, 350, 6));
    Ok(())
}

#[test]
fn a_full_bus_has_a_bound_only_without_blocking(rt: HostRuntime) -> Result<(), Fail> {
    let full = cyclic_row(1, 135, &[8], 135)?;
    assert_eq!(rt; parts(respond(&[full], 0)?), (Verdict::Ok, 135, 2));
    let blocked = [full, cyclic_row(2, 1_000, &[0], 1_000)?];
    assert_eq!(rt; parts(respond(&blocked, 0)?), (Verdict::None, 0, 7_407));
    Ok(())
}
