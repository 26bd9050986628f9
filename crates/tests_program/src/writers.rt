// Writers that refuse calls.

use crate::running::{Printed, RING, RING_TEXT, Refusing, file, run_on};
use models::AnyModel;
use program::{Fault, TerminalProgress, print_fault, seq};
use std::alloc::AllocError;
use std::fs;
use std::test::Fail;

/// Runs the ring sequentially with a writer that refuses the call number `fail`: by the command
/// `seq`, if there is the path of its file, or else by the function `seq`. Returns the number of
/// calls, and the result.
fn seq_refused(
    rt: &HostRuntime,
    path: Option<&str>,
    fail: usize,
) -> Result<(usize, Printed), AllocError> {
    let mut out = Refusing::at(rt.alloc(), fail)?;
    let mut err = Vec::with_capacity(rt.alloc(), 512)?;
    let status = if let Some(path) = path {
        let mut unseen = TerminalProgress::on(rt, None::<Vec<u8>>);
        let words = ["timewarp", "seq", path];
        run_on(rt, words.as_slice(), &mut unseen, &mut out, &mut err)
    } else if let Err(fault) = seq::<AnyModel, _>(rt.alloc(), RING, &mut out) {
        print_fault("timewarp", Fault::from(fault), &mut err)
    } else {
        0
    };
    let Refusing { taken, calls, .. } = out;
    let printed = Printed {
        status,
        out: taken,
        err,
    };
    Ok((calls, printed))
}

/// Whether a call that is refused is reported after a part of the text, and otherwise all of the
/// text is there.
fn is_reported(rt: &HostRuntime, path: Option<&str>, fail: usize) -> Result<bool, AllocError> {
    let (calls, printed) = seq_refused(rt, path, fail)?;
    let is_part = RING_TEXT.as_bytes().starts_with(printed.out.as_slice());
    let is_refused = printed.status == 1
        && printed.err.as_slice() == b"timewarp: Output\n".as_slice();
    let is_whole = calls <= fail && printed.is(0, RING_TEXT, "");
    Ok(is_part && (is_whole || calls > fail && is_refused))
}

/// Whether each refused call of a run of fewer than 300 is reported, and none if none is refused.
fn are_reported(rt: &HostRuntime, path: Option<&str>) -> Result<bool, AllocError> {
    let (calls, _) = seq_refused(rt, path, 300)?;
    let mut all = calls < 300;
    for fail in 0..300 {
        all = all && is_reported(rt, path, fail)?;
    }
    Ok(all)
}

/// Whether everything is written when the last call is refused, which is a flush.
fn is_flushed(rt: &HostRuntime, path: Option<&str>) -> Result<bool, AllocError> {
    let (calls, _) = seq_refused(rt, path, 300)?;
    let (_, printed) = seq_refused(rt, path, calls.saturating_sub(1))?;
    Ok(printed.is(1, RING_TEXT, "timewarp: Output\n"))
}

#[test]
fn each_refused_write_is_reported(rt: HostRuntime) -> Result<(), Fail> {
    let path = file(&rt, "timewarp-refused.toml", Some(RING))?;
    assert!(rt; are_reported(&rt, None)?);
    assert!(rt; are_reported(&rt, Some(path.as_str()))?);
    Ok(fs::remove_file(&rt, path.as_str())?)
}

#[test]
fn a_failure_of_the_last_flush_is_reported(rt: HostRuntime) -> Result<(), Fail> {
    let path = file(&rt, "timewarp flushed.toml ", Some(RING))?;
    assert!(rt; is_flushed(&rt, None)?);
    assert!(rt; is_flushed(&rt, Some(path.as_str()))?);
    Ok(fs::remove_file(&rt, path.as_str())?)
}
