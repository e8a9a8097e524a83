//! How calls that are listed end, and how a count rises.
use crate::{Count, Outcome, Schedule};
use std::test::Fail;

#[test]
fn calls_end_as_they_are_listed(rt: HostRuntime) -> Result<(), Fail> {
    let mut schedule = Schedule::new(vec![in rt.alloc(); 2, 4, 4]?);
    let mut count = Count::new();
    for expected in ["works", "fails", "works", "stalls", "works"] {
        let found = match schedule.next_outcome() {
            Outcome::Works => "works",
            Outcome::Fails => {
                assert!(rt; count.failed::<u8>().is_err());
                "fails"
            }
            Outcome::Stalls => "stalls",
        };
        assert_eq!(rt; found, expected);
    }
    assert_eq!(rt; count.value(), 1);
    count.raise();
    assert_eq!(rt; count.value(), 2);
    Ok(())
}
