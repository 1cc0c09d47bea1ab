// The last value that is accepted and the first that is refused, at both ends of every range.
use crate::results::refusal;
use frames::{Extended, Standard};
use sources::{Burst, Cyclic, HeldUp};
use std::test::Fail;

// The refusals of a cyclic source in the standard and in the extended format.
fn cyclic(period: u32, payloads: &[u8]) -> (u8, u8) {
    (
        refusal(Cyclic::new(Standard, 1, period, payloads)),
        refusal(Cyclic::new(Extended, 1, period, payloads)),
    )
}

// The refusals of a burst source in the standard and in the extended format.
fn burst(period: u32, size: u32, spacing: u32, payloads: &[u8]) -> (u8, u8) {
    (
        refusal(Burst::new(Standard, 1, period, size, spacing, payloads)),
        refusal(Burst::new(Extended, 1, period, size, spacing, payloads)),
    )
}

#[test]
fn identifiers_up_to_the_highest_of_the_format(rt: HostRuntime) {
    for (identifier, number) in [(0, 0), (2_047, 0), (2_048, 11), (65_535, 11)] {
        let cyclic = refusal(Cyclic::new(Standard, identifier, 100, &[8]));
        let burst = refusal(Burst::new(Standard, identifier, 100, 1, 1, &[8]));
        assert_eq!(rt; (cyclic, burst), (number, number), "{identifier}");
    }
    for (identifier, number) in [
        (0, 0),
        (536_870_911, 0),
        (536_870_912, 11),
        (4_294_967_295, 11),
    ] {
        let cyclic = refusal(Cyclic::new(Extended, identifier, 100, &[8]));
        let burst = refusal(Burst::new(Extended, identifier, 100, 1, 1, &[8]));
        assert_eq!(rt; (cyclic, burst), (number, number), "{identifier}");
    }
}

#[test]
fn periods_of_both_sources(rt: HostRuntime) {
    for (period, number) in [
        (0, 12),
        (99, 12),
        (100, 0),
        (1_000_000, 0),
        (1_000_001, 12),
        (4_294_967_295, 12),
    ] {
        assert_eq!(rt; cyclic(period, &[8]), (number, number), "{period}");
    }
    for (size, period, number) in [
        (1, 0, 12),
        (1, 99, 12),
        (1, 100, 0),
        (1, 1_000_000, 0),
        (1, 1_000_001, 12),
        (2, 199, 12),
        (2, 200, 0),
        (16, 1_599, 12),
        (16, 1_600, 0),
        (16, 1_000_000, 0),
        (16, 1_000_001, 12),
        (17, 1_699, 12),
        (4_294_967_295, 4_294_967_295, 12),
    ] {
        assert_eq!(rt; burst(period, size, 1, &[8]), (number, number), "{period}");
    }
}

#[test]
fn payload_counts_and_sizes(rt: HostRuntime) {
    assert_eq!(rt; cyclic(100, &[]), (13, 13));
    assert_eq!(rt; cyclic(100, &[8; 33]), (13, 13));
    assert_eq!(rt; burst(100, 1, 1, &[]), (13, 13));
    assert_eq!(rt; burst(100, 1, 1, &[8, 8]), (13, 13));
    for (payload, number) in [(0, 0), (8, 0), (9, 14), (255, 14)] {
        let mut first = [0; 32];
        first[0] = payload;
        let mut last = [8; 32];
        last[31] = payload;
        assert_eq!(rt; cyclic(100, &[payload]), (number, number), "{payload}");
        assert_eq!(rt; cyclic(100, &first), (number, number), "{payload}");
        assert_eq!(rt; cyclic(100, &last), (number, number), "{payload}");
        assert_eq!(rt; burst(100, 1, 1, &[payload]), (number, number), "{payload}");
    }
}

#[test]
fn sizes_and_spacings_of_a_burst(rt: HostRuntime) {
    for (period, size, spacing, number) in [
        (100_000, 0, 1, 15),
        (0, 0, 1, 15),
        (100_000, 1, 1, 0),
        (100_000, 16, 1, 0),
        (100_000, 17, 1, 15),
        (100_000, 4, 0, 15),
        (100_000, 4, 25_000, 0),
        (100_000, 4, 25_001, 15),
        (99_999, 4, 25_000, 15),
        (100_000, 3, 33_333, 0),
        (100_000, 3, 33_334, 15),
        (1_000_000, 1, 1_000_000, 0),
        (1_000_000, 1, 1_000_001, 15),
        (1_000_000, 16, 4_294_967_295, 15),
    ] {
        assert_eq!(rt;
            burst(period, size, spacing, &[8]),
            (number, number),
            "{spacing}"
        );
    }
}

#[test]
fn holds(rt: HostRuntime) -> Result<(), Fail> {
    for (hold, number) in [(0, 0), (1_000_000, 0), (1_000_001, 16), (4_294_967_295, 16)] {
        let cyclic = Cyclic::new(Standard, 1, 100, &[8])?;
        let burst = Burst::new(Extended, 1, 100, 1, 1, &[8])?;
        let held = HeldUp::new(cyclic, 1_000_000)?;
        assert_eq!(rt; refusal(HeldUp::new(cyclic, hold)), number, "{hold}");
        assert_eq!(rt; refusal(HeldUp::new(burst, hold)), number, "{hold}");
        assert_eq!(rt; refusal(HeldUp::new(held, hold)), number, "{hold}");
    }
    Ok(())
}
