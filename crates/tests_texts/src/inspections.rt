// Texts with numbers that no small disk has.

use std::alloc::Global;
use std::test::Fail;
use upkeep::inspection::{Inspection, Pace, write_inspection};

fn shown() -> Inspection {
    Inspection {
        time: 100,
        end: 1000,
        events: 7,
        records: 31,
        checkpoints: 2,
        last_checkpoint: Some(90),
        ends: 1,
        seals: 0,
        sectors: 100,
        used: 61,
        pace: Pace {
            commits: 10,
            sectors: 30,
            from: 40,
        },
    }
}

/// Whether an inspection has exactly this text.
fn is_written(alloc: Global, shown: &Inspection, text: &str) -> Result<bool, Fail> {
    let mut written = Vec::new(alloc);
    write_inspection(shown, &mut written)?;
    Ok(written.as_slice() == text.as_bytes())
}

#[test]
fn an_inspection_estimates_when_a_disk_is_full(rt: HostRuntime) -> Result<(), Fail> {
    let text = "virtual time 100 of 1000 ticks, 10 percent\n\
        events 7, 4462 bytes of disk an event\n\
        records 31, of them 2 checkpoints (the last at 90 ticks) and 1 ends\n\
        sectors 61 used of 100, 39 free\n\
        full at about 178 ticks at the pace of the last 10 commits\n";
    assert!(rt; is_written(rt.alloc(), &shown(), text)?);
    Ok(())
}

#[test]
fn seals_have_a_line_if_there_are_any(rt: HostRuntime) -> Result<(), Fail> {
    let mut shown = shown();
    shown.seals = 2;
    shown.pace.commits = 0;
    let text = "virtual time 100 of 1000 ticks, 10 percent\n\
        events 7, 4462 bytes of disk an event\n\
        records 31, of them 2 checkpoints (the last at 90 ticks) and 1 ends\n\
        seals 2, compared with the records before them\n\
        sectors 61 used of 100, 39 free\n";
    assert!(rt; is_written(rt.alloc(), &shown, text)?);
    Ok(())
}

// At its end, and past it, a run has no pace; one tick before it has.
#[test]
fn a_run_at_its_end_has_no_pace(rt: HostRuntime) -> Result<(), Fail> {
    let mut shown = shown();
    shown.time = 1000;
    let text = "virtual time 1000 of 1000 ticks, 100 percent\n\
        events 7, 4462 bytes of disk an event\n\
        records 31, of them 2 checkpoints (the last at 90 ticks) and 1 ends\n\
        sectors 61 used of 100, 39 free\n";
    assert!(rt; is_written(rt.alloc(), &shown, text)?);
    shown.time = 999;
    let text = "virtual time 999 of 1000 ticks, 99 percent\n\
        events 7, 4462 bytes of disk an event\n\
        records 31, of them 2 checkpoints (the last at 90 ticks) and 1 ends\n\
        sectors 61 used of 100, 39 free\n\
        room to the end at the pace of the last 10 commits\n";
    assert!(rt; is_written(rt.alloc(), &shown, text)?);
    Ok(())
}

#[test]
fn percentages_are_rounded_down(rt: HostRuntime) -> Result<(), Fail> {
    let mut shown = shown();
    shown.time = 999;
    shown.used = 200;
    shown.pace.commits = 0;
    let text = "virtual time 999 of 1000 ticks, 99 percent\n\
        events 7, 14629 bytes of disk an event\n\
        records 31, of them 2 checkpoints (the last at 90 ticks) and 1 ends\n\
        sectors 200 used of 100, 0 free\n";
    assert!(rt; is_written(rt.alloc(), &shown, text)?);
    Ok(())
}

#[test]
fn large_numbers_are_written(rt: HostRuntime) -> Result<(), Fail> {
    let mut shown = shown();
    shown.time = u64::MAX;
    shown.end = 1;
    shown.events = 1;
    shown.sectors = u64::MAX;
    shown.used = u64::MAX;
    let text = "virtual time 18446744073709551615 of 1 ticks, 18446744073709551615 percent\n\
        events 1, 18446744073709551615 bytes of disk an event\n\
        records 31, of them 2 checkpoints (the last at 90 ticks) and 1 ends\n\
        sectors 18446744073709551615 used of 18446744073709551615, 0 free\n";
    assert!(rt; is_written(rt.alloc(), &shown, text)?);
    Ok(())
}
