// Figures, and parts of logs. What `stats` prints of a ring is in the scripts `looked` and
// `pictures`.

use eventkey::Message;
use models::{Phold, TokenRing};
use pictures::{Busy, Choice, Spread, Trace, figures_of, trace_of, write_chosen};
use std::alloc::Global;
use std::test::Fail;

#[test]
fn the_figures_at_time_zero_have_no_events(rt: HostRuntime) -> Result<(), Fail> {
    let figures = figures_of(rt.alloc(), &TokenRing::new(3, 2, 1), 10, 0)?;
    assert!(rt; figures.events == 0 && figures.pending == 1 && figures.time == 0);
    assert!(rt; figures.rate.whole == 0 && figures.rate.thousandths == 0);
    assert!(rt; figures.handled.most == 0 && figures.sent.most == 1 && figures.delay.least == 1);
    Ok(())
}

/// The number of messages from a process.
fn sent(messages: &[Message], process: u32) -> usize {
    messages
        .iter()
        .filter(|message| message.from() == process)
        .count()
}

/// Whether a process handled and sent as many messages as its figures say.
fn is_counted(trace: &Trace, busy: &Busy) -> bool {
    let events = trace.events();
    let handled = events
        .iter()
        .filter(|event| event.to() == busy.process)
        .count();
    let left = sent(trace.pending(), busy.process);
    busy.events == handled as u64
        && busy.sends == (sent(events, busy.process) as u64).saturating_add(left as u64)
}

#[test]
fn the_figures_of_phold_match_its_log(rt: HostRuntime) -> Result<(), Fail> {
    let phold = Phold::new(16, 4, 10, 7);
    let trace = trace_of(rt.alloc(), &phold, 1000, 600)?;
    let figures = figures_of(rt.alloc(), &phold, 1000, 600)?;
    assert!(rt; figures.events == trace.events().len() as u64 && figures.pending == 64);
    for busy in figures.busiest.as_slice() {
        assert!(rt; is_counted(&trace, busy));
    }
    for event in trace.events() {
        assert!(rt; trace.sent_at(event) < event.time());
    }
    Ok(())
}

/// The least, the lower median and the greatest of the delays of a run's messages, by a sort.
fn delays_by_sort(alloc: Global, trace: &Trace) -> Result<Spread, Fail> {
    let mut delays = Vec::new(alloc);
    for message in trace.events().iter().chain(trace.pending()) {
        delays.push(message.time().saturating_sub(trace.sent_at(message)))?;
    }
    delays.sort_unstable();
    let last = delays.len().saturating_sub(1);
    Ok(Spread {
        least: number_at(delays.as_slice(), 0),
        median: number_at(delays.as_slice(), last / 2),
        most: number_at(delays.as_slice(), last),
    })
}

fn number_at(numbers: &[u64], place: usize) -> u64 {
    numbers.get(place).copied().unwrap_or(0)
}

#[test]
fn the_delays_of_a_long_run_match_its_log(rt: HostRuntime) -> Result<(), Fail> {
    let phold = Phold::new(16, 4, 10, 7);
    let trace = trace_of(rt.alloc(), &phold, 1 << 20, 30_000)?;
    let figures = figures_of(rt.alloc(), &phold, 1 << 20, 30_000)?;
    // more events than a simulation keeps at once
    assert!(rt; trace.events().len() > 1 << 17);
    assert!(rt; figures.events == trace.events().len() as u64);
    assert!(rt; figures.delay == delays_by_sort(rt.alloc(), &trace)?);
    for busy in figures.busiest.as_slice() {
        assert!(rt; is_counted(&trace, busy));
    }
    Ok(())
}

/// Whether the chosen part of a log has these lines.
fn is_written(alloc: Global, trace: &Trace, choice: &Choice, lines: &str) -> Result<bool, Fail> {
    let mut text = Vec::new(alloc);
    write_chosen(trace.events(), choice, &mut text)?;
    Ok(text.as_slice() == lines.as_bytes())
}

#[test]
fn part_of_a_log_is_written(rt: HostRuntime) -> Result<(), Fail> {
    let trace = trace_of(rt.alloc(), &TokenRing::new(3, 2, 1), 10, 10)?;
    for (from, to, process, lines) in [
        (
            3,
            9,
            None,
            "3 0 1 1 0 1 0 0\n5 1 0 2 0 2 0 0\n7 2 0 0 0 3 0 0\n",
        ),
        (0, 10, Some(0), "1 0 0 0 0 0 0 0\n7 2 0 0 0 3 0 0\n"),
        (9, 9, None, ""),
        (0, 10, Some(3), ""),
    ] {
        assert!(rt; is_written(rt.alloc(), &trace, &Choice { from, to, process }, lines)?);
    }
    Ok(())
}
