// What is printed for a verdict and for a fault.
use response::{ResponseFault, Verdict};
use std::test::Fail;

#[test]
fn each_verdict_has_its_word(rt: HostRuntime) -> Result<(), Fail> {
    for (verdict, word) in [
        (Verdict::Ok, "ok"),
        (Verdict::Late, "late"),
        (Verdict::None, "none"),
    ] {
        assert_eq!(rt; verdict.word(), word);
        assert_eq!(rt; verdict.to_string(rt.alloc())?.as_str(), word);
    }
    Ok(())
}

#[test]
fn each_fault_has_its_words(rt: HostRuntime) -> Result<(), Fail> {
    for (fault, words) in [
        (ResponseFault::Deadline, "a deadline is not 1 to 1,000,000"),
        (ResponseFault::Jitter, "a jitter is above 1,000,000"),
        (ResponseFault::Row, "there is no such row"),
    ] {
        assert_eq!(rt; fault.to_string(rt.alloc())?.as_str(), words);
    }
    Ok(())
}
