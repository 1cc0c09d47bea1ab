// A search of a curve of one's own, which never falls because its number fits one byte.
ghost use Rattle.std.specs.Prelude.{◌-◌, ◌*◌, ◌/◌};

use response::{Curve, search};
use std::test::Fail;

struct Byte {
    number: u8,
}

impl Curve for Byte {
    ghost curve = { λ c x. 1000000 - (c.number / 256) * x };

    fn value(&self, _x: u32) -> u32 {
        let _number = self.number;
        1_000_000
    }
}

// From 0 the curve answers the horizon, and there it answers the same: two evaluations.
#[test]
fn a_curve_of_a_byte_is_searched(rt: HostRuntime) -> Result<(), Fail> {
    let found = search(&Byte { number: 200 }, 0);
    assert_eq!(rt; found.end, Some(1_000_000));
    assert_eq!(rt; found.rounds, 2);
    Ok(())
}
