// Process 1 of a ring of three processes that hold a token for two ticks, up to time 1000. It begins
// in state 0, with send number 0 and floor 0, and nothing waits. Each handling adds 1 to its state,
// and sends one message.

ghost use Rattle.std.specs.Prelude.{◌≡◌, ◌≤◌};

use crate::nodes::is_fossil;
use crate::rows::{Row, numbers, part, row, signed, signed_list};
use eventkey::{Message, Sign, Signed};
use model::Words;
use models::TokenRing;
use process::{Done, Process, ProcessFault, Reports};
use std::alloc::{AllocError, Global};
use std::process::Abort;
use std::test::Fail;

/// The end of the simulation, in ticks.
const END: u64 = 1000;

/// A process with its model, which takes any message, and what it sent.
#[derive(Drop)]
struct Alone {
    ring: TokenRing,
    process: Process,
    out: Vec<Signed>,
}

impl std::marker::Model for Alone {
    ghost use Rattle.std.specs.Prelude.{◌<◌};
    ghost use Rattle.process.specs.View.{ProcessView};

    ghost Value = { ProcessView };

    ghost view = { λ a. a.process };

    ghost invariant = { λ a. a.process.lp < a.ring.ring.lps };
}

impl Alone {
    fn load(alloc: Global) -> Result<Alone, ProcessFault> {
        let ring = TokenRing::new(3, 2, 1);
        let mut words = Words::new(alloc);
        words.push_reserved(0);
        let process = Process::load(alloc, 1, words, 0, Vec::new(alloc), 0)?;
        Ok(Alone {
            ring,
            process,
            out: Vec::new(alloc),
        })
    }

    fn deliver(&mut self, signed: Signed) -> Result<(), ProcessFault> {
        self.process.deliver(signed, &mut self.out)
    }

    /// Handles a message, if one is before the end.
    fn run(&mut self) -> Result<bool, ProcessFault> {
        self.process.run_one(&self.ring, END, &mut self.out)
    }

    /// Reports the handlings below a floor, which must not be below that of the process.
    fn collect(&mut self, floor: u64) -> Result<Reports, ProcessFault> {
        let _ = &self.process;
        let floor = floor.max(self.process.floor());
        self.process.collect(floor)
    }

    /// The state, the send number, and the numbers of done messages, waiting messages and waiting
    /// antimessages.
    fn shown(&self) -> [u64; 5] {
        self.process.sound();
        [
            self.process
                .state()
                .as_slice()
                .first()
                .copied()
                .unwrap_or(99),
            self.process.number(),
            self.process.done_len() as u64,
            self.process.waiting_len() as u64,
            self.process.antis_len() as u64,
        ]
    }

    /// The least waiting message before the end.
    fn next(&self) -> Option<Row> {
        match self.process.next(END) {
            Some(next) => Some(row(&next)),
            None => None,
        }
    }
}

/// Delivers a message or an antimessage, or handles a message.
fn make(alone: &mut Alone, call: &str) -> Result<(), Fail> {
    if call != "run" {
        alone.deliver(signed(call)?)?;
    } else if !alone.run()? {
        return Err(Fail::new("nothing waits"));
    }
    Ok(())
}

/// Whether the process has sent these messages.
fn has_sent(alloc: Global, alone: &Alone, text: &str) -> Result<bool, Fail> {
    Ok(alone.out.as_slice() == signed_list(alloc, text)?.as_slice())
}

fn is_shown(alone: &Alone, text: &str) -> Result<bool, Fail> {
    let [state, number, done, waiting, antis, ..] = numbers(text)?;
    Ok(alone.shown() == [state, number, done, waiting, antis])
}

/// Makes the calls of a script, of which each line has the call, what it sends, and the process
/// after it.
fn played(rt: &impl Abort, alloc: Global, script: &str) -> Result<Alone, Fail> {
    let mut alone = Alone::load(alloc)?;
    for line in script.lines() {
        alone.out.clear();
        make(&mut alone, part(line, 0))?;
        assert!(rt; has_sent(alloc, &alone, part(line, 1))?, "{line}");
        assert!(rt; is_shown(&alone, part(line, 2))?, "{line}");
    }
    Ok(alone)
}

/// The handling of the first message sends the second one, or after a straggler the third one.
const STRAGGLER: &str = "\
    5 0 1 1 0 1 0 0 | | 0 0 0 1 0\n\
    run | 7 1 0 2 0 2 0 0 | 1 1 1 0 0\n\
    4 2 0 1 7 0 0 0 | -7 1 0 2 0 2 0 0 | 0 0 0 2 0\n\
    run | 6 1 0 2 7 1 0 0 | 1 1 1 1 0\n\
    run | 7 1 1 2 0 2 0 0 | 2 2 2 0 0";

const ANTIMESSAGE_FIRST: &str = "\
    -5 0 1 1 0 1 0 0 | | 0 0 0 0 1\n\
    5 0 1 1 0 1 0 0 | | 0 0 0 0 0";

const HANDLED: &str = "\
    5 0 1 1 0 1 0 0 | | 0 0 0 1 0\n\
    run | 7 1 0 2 0 2 0 0 | 1 1 1 0 0\n\
    -5 0 1 1 0 1 0 0 | -7 1 0 2 0 2 0 0 | 0 0 0 0 0";

/// A message that differs from the first one in its content alone.
const OTHER_CONTENT: &str = "\
    5 0 1 1 0 1 0 0 | | 0 0 0 1 0\n\
    run | 7 1 0 2 0 2 0 0 | 1 1 1 0 0\n\
    5 0 1 1 9 1 0 0 | | 1 1 1 1 0\n\
    -5 0 1 1 0 1 0 0 | -7 1 0 2 0 2 0 0 | 0 0 0 1 0";

const COPIES: &str = "\
    5 0 1 1 0 1 0 0 | | 0 0 0 1 0\n\
    5 0 1 1 0 1 0 0 | | 0 0 0 2 0\n\
    -5 0 1 1 0 1 0 0 | | 0 0 0 1 0";

/// The least message that waits after a script.
fn next_after(rt: &impl Abort, alloc: Global, script: &str) -> Result<Option<Row>, Fail> {
    Ok(played(rt, alloc, script)?.next())
}

#[test]
fn a_process_rolls_back_and_cancels_what_it_sent(rt: HostRuntime) -> Result<(), Fail> {
    let alloc = rt.alloc();
    assert_eq!(rt; next_after(&rt, alloc, STRAGGLER)?, None);
    assert_eq!(rt; next_after(&rt, alloc, ANTIMESSAGE_FIRST)?, None);
    assert_eq!(rt; next_after(&rt, alloc, HANDLED)?, None);
    let (other, copy) = ([5, 0, 1, 1, 9, 1, 0, 0], [5, 0, 1, 1, 0, 1, 0, 0]);
    assert_eq!(rt; next_after(&rt, alloc, OTHER_CONTENT)?, Some(other));
    assert_eq!(rt; next_after(&rt, alloc, COPIES)?, Some(copy));
    Ok(())
}

/// The straggler, what its handling sends, and the state and the send number after it.
const REPORTED: &str = "4 2 0 1 7 0 0 0 > 6 1 0 2 7 1 0 0 > 1 1";

fn are_reported(fossils: &[Done]) -> Result<bool, Fail> {
    match fossils.first() {
        Some(fossil) => Ok(fossils.len() == 1 && is_fossil(fossil, REPORTED)?),
        None => Ok(false),
    }
}

/// Reads a number of reports, and returns them if no byte is left over.
fn read_reports(alloc: Global, count: u32, bytes: &[u8]) -> Result<Option<Reports>, AllocError> {
    match Reports::read(alloc, count, bytes)? {
        Some((reports, rest)) => Ok(if rest.is_empty() { Some(reports) } else { None }),
        None => Ok(None),
    }
}

#[test]
fn reports_are_read_and_joined(rt: HostRuntime) -> Result<(), Fail> {
    let alloc = rt.alloc();
    let reports = played(&rt, alloc, STRAGGLER)?.collect(5)?;
    let bytes = reports.as_bytes().to_vec(alloc)?;
    let Some(mut both) = read_reports(alloc, 1, bytes.as_slice())? else {
        return Err(Fail::from("a report is not read"));
    };
    both.append(reports)?;
    assert!(rt; both.len() == 2 && both.as_bytes().len() == 2 * bytes.len());
    assert!(rt; read_reports(alloc, 2, bytes.as_slice())?.is_none());
    assert!(rt; read_reports(alloc, 1, both.as_bytes())?.is_none());
    Ok(())
}

#[test]
fn a_process_reports_what_is_below_a_floor(rt: HostRuntime) -> Result<(), Fail> {
    let mut alone = played(&rt, rt.alloc(), STRAGGLER)?;
    let reports = alone.collect(5)?.to_vec(rt.alloc())?;
    assert!(rt; are_reported(reports.as_slice())?);
    assert!(rt; alone.shown() == [2, 2, 1, 0, 0]);
    assert!(rt; alone.process.lp() == 1 && alone.process.floor() == 5);
    let below = alone.deliver(signed("4 2 0 1 7 0 0 0")?);
    assert!(rt; below == Err(ProcessFault::BelowFloor) && !alone.process.is_spent());
    assert!(rt; alone.shown() == [2, 2, 1, 0, 0]);
    Ok(())
}

/// Delivers a message or an antimessage for the time of a number of ticks.
fn send(alone: &mut Alone, sign: Sign, time: u64) -> Result<(), Fail> {
    let message = Message::new(time, 0, 0, 1, 0, 0, 0, 0)?;
    Ok(alone.deliver(Signed { sign, message })?)
}

/// Handles what waits, until `count` messages were handled and not rolled back.
fn handle_up_to(alone: &mut Alone, count: u64) -> Result<(), Fail> {
    let [handled, ..] = alone.shown();
    for _ in handled..count {
        alone.run()?;
    }
    Ok(())
}

/// Whether the process cancels each of the last `back` of 200 handlings, goes back to the state and
/// the send number before them, of which the first `reported` are reported, and does them again.
fn goes_back(alone: &mut Alone, back: u64, reported: u64) -> Result<bool, Fail> {
    let left = 200u64.saturating_sub(back);
    let (first, done) = (left.saturating_add(1), left.saturating_sub(reported));
    alone.out.clear();
    send(alone, Sign::Minus, first)?;
    let went = alone.out.len() as u64 == back
        && alone.shown() == [left, left, done, back.saturating_sub(1), 0];
    send(alone, Sign::Plus, first)?;
    handle_up_to(alone, 200)?;
    let done = 200u64.saturating_sub(reported);
    Ok(went && alone.shown() == [200, 200, done, 0, 0])
}

/// Whether the handlings below a floor are those from the time `first` on, each with the state and
/// the send number after it.
fn reports_from(alone: &mut Alone, alloc: Global, first: u64, floor: u64) -> Result<bool, Fail> {
    let reports = alone.collect(floor)?.to_vec(alloc)?;
    let mut time = first;
    for report in reports.as_slice() {
        if report.message.time() != time
            || report.after.as_slice() != [time].as_slice()
            || report.number_after != time
        {
            return Ok(false);
        }
        time = time.saturating_add(1);
    }
    Ok(time == floor)
}

/// A process that handled a message at each time from 1 to 200.
fn of_200(alloc: Global) -> Result<Alone, Fail> {
    let mut alone = Alone::load(alloc)?;
    for time in 1..201 {
        send(&mut alone, Sign::Plus, time)?;
    }
    handle_up_to(&mut alone, 200)?;
    Ok(alone)
}

#[test]
fn a_process_goes_back_by_some_of_its_handlings(rt: HostRuntime) -> Result<(), Fail> {
    let mut alone = of_200(rt.alloc())?;
    for back in [1, 7, 64, 200] {
        assert!(rt; goes_back(&mut alone, back, 0)?, "{back}");
    }
    assert!(rt; reports_from(&mut alone, rt.alloc(), 1, 31)?);
    for back in [1, 129, 170] {
        assert!(rt; goes_back(&mut alone, back, 30)?, "{back}");
    }
    assert!(rt; reports_from(&mut alone, rt.alloc(), 31, 31)?);
    assert!(rt; reports_from(&mut alone, rt.alloc(), 31, 201)?);
    assert!(rt; alone.shown() == [200, 200, 0, 0, 0]);
    Ok(())
}
