// Answers that were worked out apart: by trying every start of a cycle, and by sending as early as the rules allow.
use frames::{Extended, Standard};
use sources::{Burst, Cyclic, Entry, HeldUp, Source};
use std::test::Fail;

#[test]
fn work_over_several_rounds(rt: HostRuntime) -> Result<(), Fail> {
    let three = Cyclic::new(Standard, 1, 200, &[2, 4, 1])?;
    let five = Cyclic::new(Extended, 1, 200, &[8, 0, 3, 8, 1])?;
    for (k, short, long) in [
        (0, 0, 0),
        (1, 95, 160),
        (2, 170, 270),
        (3, 235, 410),
        (4, 330, 520),
        (5, 405, 600),
        (6, 470, 760),
        (7, 565, 870),
        (8, 640, 1_010),
        (9, 705, 1_120),
        (10, 800, 1_200),
        (11, 875, 1_360),
        (12, 940, 1_470),
        (1_000, 78_350, 120_000),
        (2_000_001, 156_666_745, 240_000_160),
        (2_000_002, 156_666_745, 240_000_160),
        (4_294_967_295, 156_666_745, 240_000_160),
    ] {
        assert_eq!(rt; (three.work(k), five.work(k)), (short, long), "{k}");
    }
    Ok(())
}

#[test]
fn work_of_the_longest_cycle(rt: HostRuntime) -> Result<(), Fail> {
    let mut payloads = [0; 32];
    payloads[0] = 8;
    payloads[15] = 7;
    payloads[31] = 8;
    let standard = Cyclic::new(Standard, 1, 100, &payloads)?;
    let extended = Cyclic::new(Extended, 1, 100, &payloads)?;
    for (k, short, long) in [
        (1, 135, 160),
        (2, 270, 320),
        (3, 325, 400),
        (16, 1_040, 1_440),
        (17, 1_165, 1_590),
        (18, 1_220, 1_670),
        (31, 1_935, 2_710),
        (32, 1_990, 2_790),
        (33, 2_125, 2_950),
        (34, 2_260, 3_110),
        (66, 4_250, 5_900),
        (2_000_001, 124_375_135, 174_375_160),
    ] {
        assert_eq!(rt; (standard.work(k), extended.work(k)), (short, long), "{k}");
    }
    Ok(())
}

#[test]
fn gaps_and_counts_of_a_cyclic_source(rt: HostRuntime) -> Result<(), Fail> {
    let source = Cyclic::new(Standard, 7, 200, &[2, 4, 1])?;
    assert_eq!(rt; (source.identifier(), source.jitter()), (7, 0));
    for (q, gap) in [
        (0, 0),
        (1, 200),
        (2, 400),
        (9_999, 1_999_800),
        (10_000, 2_000_000),
        (10_001, 2_000_001),
        (4_294_967_295, 2_000_001),
    ] {
        assert_eq!(rt; source.gap(q), gap, "{q}");
    }
    for (x, count) in [
        (0, 0),
        (1, 1),
        (199, 1),
        (200, 1),
        (201, 2),
        (400, 2),
        (401, 3),
        (2_000_000, 10_000),
        (2_000_001, 10_001),
        (2_000_002, 10_001),
        (4_294_967_295, 10_001),
    ] {
        assert_eq!(rt; source.count(x), count, "{x}");
    }
    Ok(())
}

#[test]
fn gaps_work_and_counts_of_bursts(rt: HostRuntime) -> Result<(), Fail> {
    let three = Burst::new(Extended, 70_000, 1_000, 3, 10, &[8])?;
    let sixteen = Burst::new(Standard, 9, 1_000_000, 16, 62_500, &[0])?;
    assert_eq!(rt; (three.identifier(), three.jitter()), (70_000, 0));
    for (q, few, many) in [
        (0, 0, 0),
        (1, 10, 62_500),
        (2, 20, 125_000),
        (3, 1_000, 187_500),
        (4, 1_010, 250_000),
        (15, 5_000, 937_500),
        (16, 5_010, 1_000_000),
        (17, 5_020, 1_062_500),
        (31, 10_010, 1_937_500),
        (32, 10_020, 2_000_000),
        (33, 11_000, 2_000_001),
        (6_000, 2_000_000, 2_000_001),
        (6_001, 2_000_001, 2_000_001),
        (4_294_967_295, 2_000_001, 2_000_001),
    ] {
        assert_eq!(rt; (three.gap(q), sixteen.gap(q)), (few, many), "{q}");
    }
    for (k, long, short) in [
        (0, 0, 0),
        (1, 160, 55),
        (2, 320, 110),
        (2_000_001, 320_000_160, 110_000_055),
        (2_000_002, 320_000_160, 110_000_055),
    ] {
        assert_eq!(rt; (three.work(k), sixteen.work(k)), (long, short), "{k}");
    }
    for (x, few, many) in [
        (0, 0, 0),
        (1, 1, 1),
        (10, 1, 1),
        (11, 2, 1),
        (20, 2, 1),
        (21, 3, 1),
        (31, 3, 1),
        (1_000, 3, 1),
        (1_001, 4, 1),
        (1_011, 5, 1),
        (2_000, 6, 1),
        (2_001, 7, 1),
        (62_500, 189, 1),
        (62_501, 189, 2),
        (1_000_000, 3_000, 16),
        (1_000_001, 3_001, 17),
        (1_999_999, 6_000, 32),
        (2_000_000, 6_000, 32),
        (2_000_001, 6_001, 33),
        (2_000_002, 6_001, 33),
        (4_294_967_295, 6_001, 33),
    ] {
        assert_eq!(rt; (three.count(x), sixteen.count(x)), (few, many), "{x}");
    }
    Ok(())
}

#[test]
fn a_source_held_up_three_times(rt: HostRuntime) -> Result<(), Fail> {
    let source = Cyclic::new(Standard, 7, 200, &[2, 4, 1])?;
    for (first, second, third, jitter) in [
        (0, 0, 0, 0),
        (1, 20, 300, 321),
        (0, 1_000_000, 0, 1_000_000),
        (300_000, 300_000, 400_000, 1_000_000),
        (300_000, 300_000, 400_001, 1_000_001),
        (1_000_000, 1, 0, 1_000_001),
        (1_000_000, 1_000_000, 1_000_000, 1_000_001),
    ] {
        let once = HeldUp::new(source, first)?;
        let twice = HeldUp::new(once, second)?;
        let held = HeldUp::new(twice, third)?;
        assert_eq!(rt; held.jitter(), jitter, "{third}");
        assert_eq!(rt; (held.identifier(), held.gap(10_001)), (7, 2_000_001));
        assert_eq!(rt; (held.work(4), held.count(401)), (330, 3));
    }
    Ok(())
}
