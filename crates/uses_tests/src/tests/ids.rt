//! Identifiers that are given in long runs.
use std::test::Fail;
use uses::ids::Ids;

#[test]
fn long_runs(rt: HostRuntime) -> Result<(), Fail> {
    let mut ids = Ids::new(rt.alloc());
    assert_eq!(rt; ids.alloc_run(1_000_000), Ok(Some(0)));
    assert_eq!(rt; ids.alloc_run(1_000_000), Ok(Some(1_000_000)));
    ids.free_run(5, 70_005);
    assert_eq!(rt; ids.alloc_run(70_000), Ok(Some(5)));
    assert_eq!(rt; ids.alloc_run(70_000), Ok(Some(2_000_000)));
    Ok(())
}

// All identifiers but 0 are free, one too few for the run. It is asked for so often that the test is cut short if each
// identifier is tried.
#[test]
fn a_run_longer_than_what_is_free(rt: HostRuntime) -> Result<(), Fail> {
    let mut ids = Ids::new(rt.alloc());
    assert_eq!(rt; ids.alloc(), Ok(Some(0)));
    for _ in 0..1_000u32 {
        assert_eq!(rt; ids.alloc_run(1_073_741_824), Ok(None));
    }
    Ok(())
}
