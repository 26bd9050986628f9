// An allocation failure is reported by its name, and a second run succeeds. This shows when one
// allocation is refused; with enough memory the first run succeeds.

use crate::running::{Printed, RING, RING_TEXT, file, run};
use model::WorldFault;
use models::AnyModel;
use program::{ViewFault, seq};
use std::alloc::{AllocError, Global};
use std::fs;
use std::test::Fail;

/// Runs the ring by `seq`. `None` comes if memory ran out.
fn run_ring(alloc: Global, out: &mut Vec<u8>) -> Option<bool> {
    match seq::<AnyModel, _>(alloc, RING, out) {
        Ok(()) => Some(true),
        Err(ViewFault::NoMemory | ViewFault::World(WorldFault::NoMemory)) => None,
        Err(_) => Some(false),
    }
}

#[test]
fn a_run_out_of_memory_prints_nothing(rt: HostRuntime) -> Result<(), Fail> {
    let mut out = Vec::with_capacity(rt.alloc(), 512)?;
    let mut result = run_ring(rt.alloc(), &mut out);
    if result.is_none() {
        assert_eq!(rt; out.len(), 0);
        result = run_ring(rt.alloc(), &mut out);
    }
    assert!(rt; result == Some(true));
    assert_eq!(rt; out.as_slice(), RING_TEXT.as_bytes());
    Ok(())
}

/// Runs a command, and once more if it ran out of memory, reported it and printed nothing.
fn run_again(rt: &HostRuntime, words: &[&str]) -> Result<Printed, AllocError> {
    let outcome = run(rt, words)?;
    if outcome.is(1, "", "timewarp: NoMemory\n")
        || outcome.is(1, "", "timewarp: World NoMemory\n")
    {
        run(rt, words)
    } else {
        Ok(outcome)
    }
}

/// What `check` prints of the ring.
const CHECKED: &str = "ok\nmodel: ring\nlps: 3\nend: 10\nhold: 2\ntokens: 1\n";

#[test]
fn a_command_out_of_memory_reports_it(rt: HostRuntime) -> Result<(), Fail> {
    let path = file(&rt, "timewarp-memory.toml", Some(RING))?;
    assert!(rt; run_again(&rt, &["timewarp", "seq", path.as_str()])?.is(0, RING_TEXT, ""));
    assert!(rt; run_again(&rt, &["timewarp", "check", path.as_str()])?.is(0, CHECKED, ""));
    Ok(fs::remove_file(&rt, path.as_str())?)
}

#[test]
fn a_missing_file_is_reported_after_an_allocation_failure(rt: HostRuntime) -> Result<(), Fail> {
    let outcome = run_again(&rt, &["timewarp", "seq", "timewarp-missing.toml"])?;
    assert!(rt; outcome.is(1, "", "timewarp: File\n"));
    Ok(())
}

#[test]
fn usage_is_printed_after_an_allocation_failure(rt: HostRuntime) -> Result<(), Fail> {
    let outcome = run_again(&rt, &["timewarp", "seq"])?;
    let end = b"For more information, try '--help'.\n";
    assert!(rt; outcome.err.as_slice().ends_with(end.as_slice()));
    assert_eq!(rt; (outcome.status, outcome.out.len()), (2, 0));
    Ok(())
}
