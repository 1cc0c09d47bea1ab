// What is printed for a fault.
use sources::RowFault;
use std::test::Fail;

#[test]
fn each_fault_has_its_words(rt: HostRuntime) -> Result<(), Fail> {
    for (fault, words) in [
        (
            RowFault::Identifier,
            "the identifier is above the highest of the format",
        ),
        (RowFault::Period, "the period is out of range"),
        (
            RowFault::PayloadCount,
            "there are too few payloads or too many",
        ),
        (RowFault::Payload, "a payload has more than eight bytes"),
        (
            RowFault::Burst,
            "size, spacing and period of the burst do not go together",
        ),
        (RowFault::Hold, "the hold is above 1,000,000"),
    ] {
        assert_eq!(rt; fault.to_string(rt.alloc())?.as_str(), words);
    }
    Ok(())
}
