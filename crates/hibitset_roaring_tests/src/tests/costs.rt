//! Calls that end where what they count is enough: they are made so often that the test is cut short if they go on.
use super::*;

// How many containers there are.
const CONTAINERS: usize = 128;

// How often a call is made.
const STEPS: usize = 8;

// Every other number, 32,768 runs a container. From the 2,048th on no stream has runs.
#[test]
fn runs_are_counted_up_to_2048(rt: HostRuntime) -> Result<(), Fail> {
    let words = vec![in rt.alloc(); 0x5555_5555_5555_5555usize; 1_024 * CONTAINERS]?;
    let set = BitSet::from_words(rt.alloc(), words.as_slice())?;
    for _ in 0..STEPS {
        assert!(rt; run_optimized_len(&set) == 8 + 8_200 * CONTAINERS);
    }
    Ok(())
}
