//! One request of each kind over the keeper in memory, which refuses each of its calls in turn.
use std::alloc::Global;
use std::test::Fail;
use trials::boxed::begun;
use trials::errands::{ERRANDS, Errand};

// Refuses each call of an errand in turn. Returns the number of calls.
fn calls_of(alloc: Global, errand: Errand) -> Result<u64, Fail> {
    for call in 1..20u64 {
        let office = begun(alloc, 0)?;
        if !errand.is_refused_at(alloc, office.keeper, call)? {
            return Ok(call - 1);
        }
    }
    Err("calls without end".into())
}

#[test]
fn each_call_is_refused_in_turn(rt: HostRuntime) -> Result<(), Fail> {
    let mut refused = 0u64;
    for errand in ERRANDS {
        let calls = calls_of(rt.alloc(), errand)?;
        // At least the query for the key, and the change.
        assert!(rt; calls >= 2, "{errand:?}");
        refused = refused.saturating_add(calls);
    }
    println!(rt; "{refused} refused")?;
    Ok(())
}
