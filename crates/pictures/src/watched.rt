// The named numbers of processes in a simulation.

ghost use Rattle.pictures.specs.Watching.{HaveSet};

use crate::Level;
use std::alloc::{AllocError, Global};
use texts::{Column, Kind};

/// The levels of the named numbers of a process.
#[derive(Drop)]
pub(crate) struct Watched {
    /// The place of the kind of the process; past the end if it has none.
    pub(crate) kind: usize,
    /// A level for each column of the kind.
    pub(crate) levels: Vec<Level>,
}

impl Watched {
    /// Makes the levels of a process with this state. Their figures count from `from` ticks on.
    pub(crate) fn new(
        alloc: Global,
        kinds: &[Kind],
        lp: u32,
        state: &[u64],
        from: u64,
    ) -> Result<Watched, AllocError> {
        let kind = kind_of(kinds, lp);
        let mut levels = Vec::new(alloc);
        for column in columns_of(kinds, kind) {
            levels.push(Level::new(from, column.number(state)))?;
        }
        Ok(Watched { kind, levels })
    }

    /// Sets the levels to the numbers in a state, from `time` ticks on. It costs a constant time
    /// for each column of the kind of the process.
    pub(crate) fn observe(&mut self, kinds: &[Kind], time: u64, state: &[u64]) {
        let columns = columns_of(kinds, self.kind);
        set_levels(self.levels.as_mut_slice(), columns, time, state);
    }

    /// Lets the numbers keep their values at the ticks before `time`.
    pub(crate) fn hold(&mut self, time: u64) {
        for place in 0..self.levels.len() {
            self.levels[place].hold(time);
        }
    }
}

/// Sets the level of each column to its number in a state, from `time` ticks on.
fn set_levels(levels: &mut [Level], columns: &[Column], time: u64, state: &[u64])
    ensures { HaveSet columns.now time state.now levels.old levels.new }
{
    for (place, column) in columns.iter().enumerate() {
        if levels.len() <= place {
            return;
        }
        levels[place].set(time, column.number(state));
    }
}

/// Returns the columns of the kind at a place, or none if there is no such kind.
pub(crate) fn columns_of(kinds: &[Kind], kind: usize) -> &[Column] {
    match kinds.get(kind) {
        Some(kind) => kind.columns.as_slice(),
        None => &[],
    }
}

/// Returns the place of the kind of a process, or the number of kinds if it has none.
pub(crate) fn kind_of(kinds: &[Kind], lp: u32) -> usize {
    for (place, kind) in kinds.iter().enumerate() {
        if kind.first <= lp && lp - kind.first < kind.count {
            return place;
        }
    }
    kinds.len()
}

/// Returns whether a number is shown: the key of a process is none.
pub(crate) fn is_shown(column: &Column) -> bool {
    column.name.as_str() != "key"
}
