// The sum and the mean of each named number over the processes that have it.

use crate::cells::{Cell, Decimal};
use crate::rows::kinds_of;
use crate::tables::Rows;
use model::Words;
use std::alloc::{AllocError, Global};
use texts::{Column, Kind, Names};

/// The sum of a named number over the processes that have it.
#[derive(Clone, Copy, Debug, PartialEq, Eq)]
pub(crate) struct Total<'a> {
    /// The name.
    pub name: &'a str,
    /// The sum, at most 2^64 - 1.
    pub sum: u64,
    /// The number of processes.
    pub count: u64,
}

impl Total<'_> {
    /// The mean: its whole number, and its tenths.
    pub(crate) fn mean(&self) -> (u64, u64) {
        let count = self.count.max(1);
        let tenth = (self.sum % count).saturating_mul(10) / count;
        (self.sum / count, tenth)
    }
}

/// The sums of all named numbers but the key of drawn words.
#[derive(Drop)]
pub(crate) struct Totals<'a> {
    totals: Vec<Total<'a>>,
}

impl<'a> Totals<'a> {
    /// The sums over these states, by the names of their model.
    pub(crate) fn new(
        alloc: Global,
        names: Option<&'a Names>,
        states: &[Words],
    ) -> Result<Totals<'a>, AllocError> {
        let mut totals = Vec::new(alloc);
        for kind in kinds_of(names) {
            put_kind(kind, states, &mut totals)?;
        }
        Ok(Totals { totals })
    }

    /// The sums, in the order in which the kinds have their numbers.
    pub(crate) fn as_slice(&self) -> &[Total<'a>] {
        self.totals.as_slice()
    }
}

impl Rows for Totals<'_> {
    fn names(&self) -> &[&str] {
        NAMES
    }

    fn count(&self) -> usize {
        self.totals.len()
    }

    fn has(&self, _row: usize) -> bool {
        true
    }

    fn cell(&self, row: usize, column: usize) -> Cell<'_> {
        let Some(total) = self.totals.get(row) else {
            return Cell::Missing;
        };
        match column {
            0 => Cell::Text(total.name),
            1 => Cell::Number(total.sum),
            _ => {
                let (whole, tenth) = total.mean();
                Cell::Decimal(Decimal::Tenths(whole, tenth))
            }
        }
    }
}

/// The columns of the table.
const NAMES: &[&str] = &["word", "sum", "mean"];

/// Adds the numbers of the processes of a kind.
fn put_kind<'a>(
    kind: &'a Kind,
    states: &[Words],
    totals: &mut Vec<Total<'a>>,
) -> Result<(), AllocError> {
    for column in kind.columns.as_slice() {
        let name = column.name.as_str();
        if name != "key" {
            let place = place_of(totals.as_slice(), name);
            if place == totals.len() {
                let (sum, count) = (0, 0);
                totals.push(Total { name, sum, count })?;
            }
            if let Some(total) = totals.get_mut(place) {
                add_column(column, states_of(kind, states), total);
            }
        }
    }
    Ok(())
}

/// The place of the sum of this name, or the number of sums.
fn place_of(totals: &[Total<'_>], name: &str) -> usize {
    for (place, total) in totals.iter().enumerate() {
        if total.name == name {
            return place;
        }
    }
    totals.len()
}

/// The states of the processes of a kind.
fn states_of<'a>(kind: &Kind, states: &'a [Words]) -> &'a [Words] {
    let first = (kind.first as usize).min(states.len());
    let behind = states.split_at(first).1;
    behind.split_at((kind.count as usize).min(behind.len())).0
}

/// Adds a number of each of these states.
fn add_column(column: &Column, states: &[Words], total: &mut Total<'_>) {
    for state in states {
        total.sum = total.sum.saturating_add(column.number(state.as_slice()));
        total.count = total.count.saturating_add(1);
    }
}
