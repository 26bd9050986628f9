// A ring of three processes that hold one token for two ticks, run by the plain runner to time 10.

use crate::rows::{Row, are, message, row};
use eventkey::Message;
use model::{Outgoing, State, Words, World, WorldFault, ranged, stamp};
use models::TokenRing;
use smallvec::SmallVec;
use std::alloc::Global;
use std::test::Fail;

/// A ring and its world.
#[derive(Drop)]
struct Turning {
    ring: TokenRing,
    world: World,
}

impl std::marker::Model for Turning {
    ghost use Rattle.std.specs.Prelude.{◌≡◌, length};
    ghost use Rattle.model.specs.Runner.{Simulation};

    ghost Value = { Simulation };

    ghost view = { λ t. t.world };

    ghost invariant = { λ t. length t.world.world.states ≡ t.ring.ring.lps };
}

/// The visible state of a ring: the time, the number of handled messages, three send numbers, three
/// counts, and the time and the receiver of the token.
type Reported = [u64; 10];

/// The messages of the token, in the order of their handling.
const LOGGED: [Row; 5] = [
    [1, 0, 0, 0, 0, 0, 0, 0],
    [3, 0, 1, 1, 0, 1, 0, 0],
    [5, 1, 0, 2, 0, 2, 0, 0],
    [7, 2, 0, 0, 0, 3, 0, 0],
    [9, 0, 2, 1, 0, 4, 0, 0],
];

/// The pending message at the end.
const LEFT: Row = [11, 1, 1, 2, 0, 5, 0, 0];

/// The visible state at the opening and after each step; the time stays 0.
const REPORTED: [Reported; 6] = [
    [0, 0, 1, 0, 0, 0, 0, 0, 1, 0],
    [0, 1, 2, 0, 0, 1, 0, 0, 3, 1],
    [0, 2, 2, 1, 0, 1, 1, 0, 5, 2],
    [0, 3, 2, 1, 1, 1, 1, 1, 7, 0],
    [0, 4, 3, 1, 1, 2, 1, 1, 9, 1],
    [0, 5, 3, 2, 1, 2, 2, 1, 11, 2],
];

impl Turning {
    fn open(alloc: Global) -> Result<Turning, WorldFault> {
        let ring = TokenRing::new(3, 2, 1);
        let world = World::open(alloc, &ring, 10)?;
        Ok(Turning { ring, world })
    }

    fn step(&mut self) -> Result<Option<Message>, WorldFault> {
        self.world.step(&self.ring)
    }

    fn run_to(&mut self, time: u64) -> Result<(), WorldFault> {
        self.world.run_to(&self.ring, time)
    }

    /// Takes one step, and repeats it after an allocation failure, which must change nothing.
    /// Returns the handled message.
    fn step_at_last(&mut self) -> Result<Option<Row>, WorldFault> {
        let before = self.reported();
        let handled = match self.step() {
            Err(WorldFault::NoMemory) if self.reported() == before => self.step()?,
            other => other?,
        };
        match handled {
            Some(x) => Ok(Some(row(&x))),
            None => Ok(None),
        }
    }

    fn reported(&self) -> Reported {
        let (time, receiver) = match self.world.least() {
            Some(x) => (x.time(), u64::from(x.to())),
            None => (0, 99),
        };
        [
            self.world.time(),
            self.world.log().len() as u64,
            self.number_at(0),
            self.number_at(1),
            self.number_at(2),
            self.count_at(0),
            self.count_at(1),
            self.count_at(2),
            time,
            receiver,
        ]
    }

    fn number_at(&self, lp: usize) -> u64 {
        self.world.numbers().get(lp).copied().unwrap_or(99)
    }

    fn count_at(&self, lp: usize) -> u64 {
        match self.world.states().get(lp) {
            Some(words) => words.as_slice().first().copied().unwrap_or(99),
            None => 99,
        }
    }
}

/// The opening world; a second call after an allocation failure.
fn opened(alloc: Global) -> Result<Turning, WorldFault> {
    match Turning::open(alloc) {
        Err(WorldFault::NoMemory) => Turning::open(alloc),
        other => other,
    }
}

#[test]
fn a_token_goes_round_the_ring(rt: HostRuntime) -> Result<(), Fail> {
    let mut turning = Turning::open(rt.alloc())?;
    assert_eq!(rt; turning.world.end(), 10);
    turning.run_to(1)?;
    assert_eq!(rt; turning.reported(), [1, 0, 1, 0, 0, 0, 0, 0, 1, 0]);
    turning.run_to(100)?;
    assert_eq!(rt; turning.reported(), [10, 5, 3, 2, 1, 2, 2, 1, 11, 2]);
    assert_eq!(rt; turning.step()?, None);
    let Turning { mut world, .. } = turning;
    assert!(rt; are(world.log(), &LOGGED));
    assert!(rt; are(world.pending(), &[LEFT]));
    Ok(())
}

/// Whether each step handles the message of its row, and leaves the visible state of its row.
fn are_steps(turning: &mut Turning) -> Result<bool, WorldFault> {
    for (logged, reported) in LOGGED.iter().zip(REPORTED.iter().skip(1)) {
        if turning.step_at_last()? != Some(*logged) || turning.reported() != *reported {
            return Ok(false);
        }
    }
    Ok(true)
}

#[test]
fn a_refused_step_changes_nothing(rt: HostRuntime) -> Result<(), Fail> {
    let mut turning = opened(rt.alloc())?;
    assert!(rt; turning.reported() == REPORTED[0]);
    assert!(rt; are_steps(&mut turning)?);
    Ok(())
}

#[test]
fn a_refused_run_keeps_whole_steps(rt: HostRuntime) -> Result<(), Fail> {
    let mut turning = opened(rt.alloc())?;
    if let Err(fault) = turning.run_to(10) {
        assert_eq!(rt; fault, WorldFault::NoMemory);
        let reported = turning.reported();
        assert!(rt; REPORTED.contains(&reported));
        turning.run_to(10)?;
    }
    assert_eq!(rt; turning.reported(), [10, 5, 3, 2, 1, 2, 2, 1, 11, 2]);
    Ok(())
}

#[test]
fn a_send_is_stamped(rt: HostRuntime) -> Result<(), Fail> {
    let outgoing = Outgoing {
        to: 4,
        delay: 3,
        a: 5,
        b: 6,
        c: 7,
        d: 8,
    };
    let stamped = stamp(2, 7, 9, &outgoing);
    assert_eq!(rt; stamped, message([10, 2, 9, 4, 5, 6, 7, 8])?);
    Ok(())
}

#[test]
fn a_state_holds_sixteen_words(rt: HostRuntime) -> Result<(), Fail> {
    let mut words: Words = SmallVec::new(rt.alloc());
    for word in 0..16 {
        words.push(word)?;
    }
    ranged(words.as_slice());
    let state = State::from_slice(rt.alloc(), words.as_slice())?;
    assert_eq!(rt; state.as_slice().len(), 16);
    assert_eq!(rt; state.as_slice()[15], 15);
    Ok(())
}

#[test]
fn a_state_is_a_copy(rt: HostRuntime) -> Result<(), Fail> {
    let few = State::from_slice(rt.alloc(), &[7, 8])?;
    let many = State::from_slice(rt.alloc(), &[1, 2, 3, 4, 5])?;
    assert_eq!(rt; few.as_slice(), [7, 8].as_slice());
    assert_eq!(rt; many.as_slice(), [1, 2, 3, 4, 5].as_slice());
    assert!(rt; few != many);
    assert!(rt; few == State::from_slice(rt.alloc(), &[7, 8])?);
    Ok(())
}

#[test]
fn faults_are_printed_by_name(rt: HostRuntime) -> Result<(), Fail> {
    for (fault, name) in [
        (WorldFault::NoMemory, "NoMemory"),
        (WorldFault::NumberLimit, "NumberLimit"),
    ] {
        let reported = format!(in rt.alloc(); "{fault}")?;
        assert_eq!(rt; reported.as_str(), name);
    }
    Ok(())
}
