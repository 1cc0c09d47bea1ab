// Arguments with several faults are refused with the first number of the list.
use crate::results::refusal;
use frames::Standard;
use sources::{Burst, Cyclic};

fn cyclic(identifier: u16, period: u32, payloads: &[u8]) -> u8 {
    refusal(Cyclic::new(Standard, identifier, period, payloads))
}

fn burst(identifier: u16, period: u32, size: u32, spacing: u32, payloads: &[u8]) -> u8 {
    refusal(Burst::new(Standard, identifier, period, size, spacing, payloads))
}

#[test]
fn faults_of_a_cyclic_source(rt: HostRuntime) {
    // All faults at once, and then each line without the first fault of the line above.
    assert_eq!(rt; cyclic(2_048, 99, &[9; 33]), 11);
    assert_eq!(rt; cyclic(2_047, 99, &[9; 33]), 12);
    assert_eq!(rt; cyclic(2_047, 100, &[9; 33]), 13);
    assert_eq!(rt; cyclic(2_047, 100, &[9; 32]), 14);
    assert_eq!(rt; cyclic(2_047, 100, &[8; 32]), 0);
    // The other pairs of faults.
    assert_eq!(rt; cyclic(2_048, 1_000_001, &[8]), 11);
    assert_eq!(rt; cyclic(2_048, 100, &[]), 11);
    assert_eq!(rt; cyclic(2_048, 100, &[9]), 11);
    assert_eq!(rt; cyclic(1, 1_000_001, &[]), 12);
    assert_eq!(rt; cyclic(1, 99, &[9]), 12);
}

#[test]
fn faults_of_a_burst_source(rt: HostRuntime) {
    // All faults at once, and then each line without the first fault of the line above.
    assert_eq!(rt; burst(2_048, 1_000_001, 17, 0, &[9, 9]), 11);
    assert_eq!(rt; burst(2_047, 1_000_001, 17, 0, &[9, 9]), 12);
    assert_eq!(rt; burst(2_047, 1_000_000, 17, 0, &[9, 9]), 13);
    assert_eq!(rt; burst(2_047, 1_000_000, 17, 0, &[9]), 14);
    assert_eq!(rt; burst(2_047, 1_000_000, 17, 0, &[8]), 15);
    assert_eq!(rt; burst(2_047, 1_000_000, 16, 1, &[8]), 0);
    // Every pair of faults.
    assert_eq!(rt; burst(2_048, 1_000_001, 1, 1, &[8]), 11);
    assert_eq!(rt; burst(2_048, 100, 1, 1, &[]), 11);
    assert_eq!(rt; burst(2_048, 100, 1, 1, &[9]), 11);
    assert_eq!(rt; burst(2_048, 100, 0, 1, &[8]), 11);
    assert_eq!(rt; burst(1, 99, 1, 1, &[8, 8]), 12);
    assert_eq!(rt; burst(1, 99, 1, 1, &[9]), 12);
    assert_eq!(rt; burst(1, 1_699, 17, 1, &[8]), 12);
    assert_eq!(rt; burst(1, 100, 1, 1, &[9, 8]), 13);
    assert_eq!(rt; burst(1, 100, 1, 0, &[]), 13);
    assert_eq!(rt; burst(1, 100, 1, 101, &[9]), 14);
}
