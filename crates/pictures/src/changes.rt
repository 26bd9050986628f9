// The changes of named numbers over virtual time.

ghost use Rattle.std.specs.Prelude.{◌≡◌, ◌≤◌, ◌^◌, length};

use crate::View;
use crate::stepping::{EVENTS_KEPT, without_log};
use crate::watched::{columns_of, is_shown, kind_of};
use eventkey::Message;
use model::{Model, Words, World, WorldFault};
use std::alloc::{AllocError, Global};
use texts::{Kind, Names};

/// A named number of a process.
#[derive(Clone, Copy)]
pub(crate) struct Variable<'n> {
    pub(crate) process: u32,
    /// The name of the kind of the process; it may be empty.
    pub(crate) kind: &'n str,
    /// The number of the process among those of its kind, counted from 0.
    pub(crate) number: u32,
    pub(crate) name: &'n str,
    pub(crate) bits: u8,
    /// Its value at the first tick.
    pub(crate) first: u64,
    /// Its last value.
    last: u64,
}

/// A change of a named number: its value from a tick on.
#[derive(Clone, Copy)]
pub(crate) struct Change {
    pub(crate) time: u64,
    /// The place of the variable.
    pub(crate) variable: usize,
    pub(crate) value: u64,
}

/// The changes of the named numbers of some processes in a span of virtual time.
#[derive(Drop)]
pub struct Changes<'n> {
    /// The first tick.
    pub(crate) from: u64,
    /// The tick before which the changes end.
    pub(crate) to: u64,
    /// By their processes.
    pub(crate) variables: Vec<Variable<'n>>,
    /// By their times; one of a variable at a tick.
    pub(crate) changes: Vec<Change>,
    kinds: &'n [Kind],
    first: u32,
    // The place of the first variable of each process.
    starts: Vec<usize>,
}

/// Returns the changes of the named numbers of the processes of a view, in its span of time, in the
/// run of a model to `to` ticks, or to its end if that is earlier. The simulation ends at `end`
/// ticks, 1 to 2^40.
///
/// At a tick a number has the value that it has after the events of that tick. `NumberLimit` comes
/// if the send number of a process would pass 2^63, and `NoMemory` if an allocation failed. The
/// costs are the simulation up to the end of the span, a constant time for each event and each
/// column of its process, and memory for the world and these changes.
pub fn changes_of<'n, M: Model>(
    alloc: Global,
    model: &M,
    names: Option<&'n Names>,
    end: u64,
    to: u64,
    view: &View,
) -> Result<Changes<'n>, WorldFault>
    requires some { 1 ≤ end }
    requires short { end ≤ 2 ^ 40 }
{
    let bound = view.to.unwrap_or(to).min(to).min(end);
    let last = bound.max(1);
    let mut world = World::open(alloc, model, last)?;
    let mut changes = Changes::open(alloc, names, world.states(), view, bound)?;
    // How many events of the log the changes have.
    let mut seen = 0;
    // More events than a log can have.
    let events = if bound == 0 { 0 } else { u64::MAX };
    'events: for _ in 0..events {
        let Some(event) = world.step(model)? else {
            break;
        };
        if is_within_tick(&world, event.time()) {
            continue;
        }
        changes.observe(event.time(), world.log(), seen, world.states())?;
        seen = world.log().len();
        if seen >= EVENTS_KEPT {
            world = without_log(alloc, world, last)?;
            seen = 0;
        }
    }
    Ok(changes)
}

/// Returns whether a message is pending at this time.
fn is_within_tick(world: &World, time: u64) -> bool {
    match world.least() {
        Some(next) => next.time() == time,
        None => false,
    }
}

impl<'n> Changes<'n> {
    /// Begins with the states of all processes.
    fn open(
        alloc: Global,
        names: Option<&'n Names>,
        states: &[Words],
        view: &View,
        to: u64,
    ) -> Result<Changes<'n>, AllocError> {
        let kinds: &'n [Kind] = match names {
            Some(names) => names.kinds.as_slice(),
            None => &[],
        };
        let mut changes = Changes {
            from: view.from,
            to: to.max(view.from),
            variables: Vec::new(alloc),
            changes: Vec::new(alloc),
            kinds,
            first: view.first,
            starts: Vec::new(alloc),
        };
        for (place, state) in states.iter().enumerate() {
            let lp = u32::try_from(place).unwrap_or(u32::MAX);
            if view.first <= lp && lp <= view.last {
                changes.add_process(lp, state.as_slice())?;
            }
        }
        Ok(changes)
    }

    /// Adds the variables of a process in this state.
    fn add_process(&mut self, lp: u32, state: &[u64]) -> Result<(), AllocError> {
        self.starts.push(self.variables.len())?;
        let Some(kind) = self.kinds.get(kind_of(self.kinds, lp)) else {
            return Ok(());
        };
        for column in kind.columns.as_slice() {
            if is_shown(column) {
                let value = column.number(state);
                self.variables.push(Variable {
                    process: lp,
                    kind: kind.name.as_str(),
                    number: lp.saturating_sub(kind.first),
                    name: column.name.as_str(),
                    bits: column.bits,
                    first: value,
                    last: value,
                })?;
            }
        }
        Ok(())
    }

    /// Takes the events of a tick: those of the log that it has not seen. The states are those
    /// after all of them.
    fn observe(
        &mut self,
        time: u64,
        log: &[Message],
        seen: usize,
        states: &[Words],
    ) -> Result<(), AllocError> {
        for event in log.iter().skip(seen) {
            if let Some(state) = states.get(event.to() as usize) {
                self.observe_process(time, event.to(), state.as_slice())?;
            }
        }
        Ok(())
    }

    /// Takes the state of a process after the events of a tick.
    fn observe_process(&mut self, time: u64, lp: u32, state: &[u64]) -> Result<(), AllocError> {
        let Some(place) = lp.checked_sub(self.first) else {
            return Ok(());
        };
        let Some(start) = self.starts.get(place as usize) else {
            return Ok(());
        };
        let mut variable = *start;
        for column in columns_of(self.kinds, kind_of(self.kinds, lp)) {
            if is_shown(column) {
                self.change(time, variable, column.number(state))?;
                variable = variable.saturating_add(1);
            }
        }
        Ok(())
    }

    /// Gives a variable this value from a tick on.
    fn change(&mut self, time: u64, variable: usize, value: u64) -> Result<(), AllocError> {
        if variable >= self.variables.len() || self.variables[variable].last == value {
            return Ok(());
        }
        if time > self.from {
            self.changes.push(Change {
                time,
                variable,
                value,
            })?;
        } else {
            self.variables[variable].first = value;
        }
        self.variables[variable].last = value;
        Ok(())
    }
}
