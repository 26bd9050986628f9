// What a terminal shows while a disk is verified.

use crate::running::{Printed, RING, Ticking, file, run, run_on};
use program::TerminalProgress;
use std::fs;
use std::io::Write;
use std::test::Fail;

/// Whether a command on the disk of a model prints this, and its terminal shows something that is
/// removed before.
fn is_shown(rt: &HostRuntime, words: &[&str], text: &str) -> bool {
    let clock = Ticking::new(500, 0);
    let mut out = Vec::new(rt.alloc());
    let mut err = Vec::new(rt.alloc());
    let mut terminal = Vec::new(rt.alloc());
    let mut progress = TerminalProgress::on(&clock, Some(&mut terminal));
    let status = run_on(rt, words, &mut progress, &mut out, &mut err);
    let printed = Printed { status, out, err };
    let course = terminal.as_slice();
    let is_removed = course.starts_with(b"\r") && course.ends_with(b"\r\x1b[K");
    printed.is(0, text, "") && is_removed
}

#[test]
fn nothing_is_shown_of_a_verification_once_its_result_is_printed(
    rt: HostRuntime,
) -> Result<(), Fail> {
    let model = file(&rt, "timewarp-verified.toml", Some(RING))?;
    let disk = file(&rt, "timewarp-verified.disk", None)?;
    let (model, disk) = (model.as_str(), disk.as_str());
    let _ = run(&rt, &["timewarp", "new", model, disk, "--sectors", "64"])?;
    let stop = [
        "timewarp",
        "run",
        model,
        disk,
        "--plain",
        "--commit-every",
        "1",
        "--rounds",
        "3",
    ];
    let _ = run(&rt, &stop)?;
    let text = "verified: committed 7 events 3\n";
    assert!(rt; is_shown(&rt, &["timewarp", "verify", model, disk], text));
    // the gate of the header is closed
    fs::OpenOptions::new()
        .write(true)
        .open(&rt, disk)?
        .write_all(b"\0")?;
    let text = "reopened: committed 7 events 3\n";
    assert!(rt; is_shown(&rt, &["timewarp", "reopen", model, disk], text));
    let new = file(&rt, "timewarp-recovered.disk", None)?;
    let new = new.as_str();
    let text = "\
recovered 3 of 3 whole records: committed 7 events 3
record 3: none, its gate is closed
";
    let words = ["timewarp", "recover", model, disk, new, "--sectors", "64"];
    assert!(rt; is_shown(&rt, &words, text));
    fs::remove_file(&rt, new)?;
    fs::remove_file(&rt, disk)?;
    Ok(fs::remove_file(&rt, model)?)
}
