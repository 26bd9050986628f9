// Statistics of a run from a tick on: its named numbers over virtual time, and the words of its
// messages.

ghost use Rattle.std.specs.Prelude.{◌≡◌, ◌≤◌, ◌+◌, ◌^◌, IfOk, OnOk, OnErr, length, max, min};
ghost use Rattle.pictures.specs.Quotients.{saturated};
ghost use Rattle.pictures.specs.Tallies.{word_saturated};

use crate::Level;
use crate::quotients::{Decimal, quotient};
use crate::stepping::{EVENTS_KEPT, without_log};
use crate::tallies::{Tallied, Tally};
use crate::watched::{Watched, is_shown};
use eventkey::Message;
use model::{Model, Words, World, WorldFault};
use std::alloc::{AllocError, Global};
use texts::{Column, Kind, Names, Sort};

/// A cell of a table of statistics.
#[derive(Clone, Copy, Debug, PartialEq, Eq)]
pub enum Cell<'a> {
    /// There is no value.
    Missing,
    /// A name.
    Text(&'a str),
    /// A whole number.
    Number(u64),
    /// A number with six digits after the point.
    Decimal(Decimal),
}

/// The statistics of a run from a tick on.
#[derive(Drop)]
pub struct Statistics<'n> {
    kinds: &'n [Kind],
    sorts: &'n [Sort],
    // The first tick that counts, and how many do.
    from: u64,
    ticks: u64,
    processes: Vec<Watched>,
    // Four for each sort: one for each word of content.
    tallies: Vec<Tally>,
}

/// Returns the statistics of the run of a model to `to` ticks, or to its end if that is earlier,
/// from `warm_up` ticks on. The simulation ends at `end` ticks, 1 to 2^40. A model without names
/// has no named numbers, and its words of messages are `a` to `d`.
///
/// At a tick a number has the value that it has after the events of that tick. The messages are the
/// handled ones. `NumberLimit` comes if the send number of a process would pass 2^63, and
/// `NoMemory` if an allocation failed. The costs are the simulation, a constant time for each event
/// and each column of its process, and memory for the world, 64 bytes for each column of each
/// process, and up to 512 KiB for each word of a sort.
pub fn statistics_of<'n, M: Model>(
    alloc: Global,
    model: &M,
    names: Option<&'n Names>,
    end: u64,
    to: u64,
    warm_up: u64,
) -> Result<Statistics<'n>, WorldFault>
    requires some { 1 ≤ end }
    requires short { end ≤ 2 ^ 40 }
{
    let bound = to.min(end);
    let last = bound.max(1);
    let mut world = World::open(alloc, model, last)?;
    let mut statistics = Statistics::open(alloc, names, world.states(), warm_up)?;
    // More events than a log can have.
    let events = if bound == 0 { 0 } else { u64::MAX };
    'events: for _ in 0..events {
        let Some(event) = world.step(model)? else {
            break;
        };
        statistics.observe(alloc, &event, world.states())?;
        if world.log().len() >= EVENTS_KEPT {
            world = without_log(alloc, world, last)?;
        }
    }
    statistics.hold(bound);
    Ok(statistics)
}

impl<'n> Statistics<'n> {
    /// Begins the statistics of processes in these states.
    fn open(
        alloc: Global,
        names: Option<&'n Names>,
        states: &[Words],
        from: u64,
    ) -> Result<Statistics<'n>, AllocError> {
        let (kinds, sorts) = parts_of(names);
        let mut processes = Vec::new(alloc);
        for (place, state) in states.iter().enumerate() {
            let lp = u32::try_from(place).unwrap_or(u32::MAX);
            let watched = Watched::new(alloc, kinds, lp, state.as_slice(), from)?;
            processes.push(watched)?;
        }
        let mut tallies = Vec::new(alloc);
        for _ in 0..sorts.len().max(1).saturating_mul(4) {
            tallies.push(Tally::new(alloc))?;
        }
        Ok(Statistics {
            kinds,
            sorts,
            from,
            ticks: 0,
            processes,
            tallies,
        })
    }

    /// Takes an event, and the states after it.
    fn observe(
        &mut self,
        alloc: Global,
        event: &Message,
        states: &[Words],
    ) -> Result<(), AllocError> {
        let place = event.to() as usize;
        if let Some(state) = states.get(place) {
            if place < self.processes.len() {
                self.processes[place].observe(self.kinds, event.time(), state.as_slice());
            }
        }
        if event.time() < self.from {
            return Ok(());
        }
        self.add_words(alloc, event)
    }

    /// Adds the named words of a message.
    fn add_words(&mut self, alloc: Global, event: &Message) -> Result<(), AllocError> {
        let sort = sort_of(self.sorts, event.a());
        let words = [event.a(), event.b(), event.c(), event.d()];
        for (word, value) in words.iter().enumerate() {
            let place = sort.saturating_mul(4).saturating_add(word);
            if place < self.tallies.len() && word_name(self.sorts, sort, word).is_some() {
                self.tallies[place].add(alloc, *value)?;
            }
        }
        Ok(())
    }

    /// Ends the statistics before a tick.
    fn hold(&mut self, time: u64) {
        for place in 0..self.processes.len() {
            self.processes[place].hold(time);
        }
        self.ticks = time.saturating_sub(self.from);
    }

    /// Returns a row for each process and each of its named numbers.
    pub fn by_process(&self, alloc: Global) -> Result<Vec<LevelRow<'n>>, AllocError> {
        let mut rows = Vec::new(alloc);
        for (place, process) in self.processes.iter().enumerate() {
            let lp = u32::try_from(place).unwrap_or(u32::MAX);
            self.add_process(&mut rows, lp, process)?;
        }
        Ok(rows)
    }

    fn add_process(
        &self,
        rows: &mut Vec<LevelRow<'n>>,
        lp: u32,
        process: &Watched,
    ) -> Result<(), AllocError> {
        let Some(kind) = self.kinds.get(process.kind) else {
            return Ok(());
        };
        for (place, column) in kind.columns.iter().enumerate() {
            if let Some(level) = process.levels.get(place) {
                let mut pool = Pool::new();
                pool.add(level);
                if is_shown(column) {
                    rows.push(self.row(Some(lp), kind.name.as_str(), column, pool))?;
                }
            }
        }
        Ok(())
    }

    /// Returns a row for each kind of processes and each of its named numbers.
    pub fn by_kind(&self, alloc: Global) -> Result<Vec<LevelRow<'n>>, AllocError> {
        let mut rows = Vec::new(alloc);
        for kind in self.kinds {
            self.add_kind(&mut rows, kind)?;
        }
        Ok(rows)
    }

    fn add_kind(&self, rows: &mut Vec<LevelRow<'n>>, kind: &'n Kind) -> Result<(), AllocError> {
        for (place, column) in kind.columns.iter().enumerate() {
            if is_shown(column) {
                let mut pool = Pool::new();
                self.pool_kind(&mut pool, kind, place);
                rows.push(self.row(None, kind.name.as_str(), column, pool))?;
            }
        }
        Ok(())
    }

    /// Adds the number at a place of the state of each process of a kind.
    fn pool_kind(&self, pool: &mut Pool, kind: &Kind, place: usize) {
        for process in self
            .processes
            .iter()
            .skip(kind.first as usize)
            .take(kind.count as usize)
        {
            if let Some(level) = process.levels.get(place) {
                pool.add(level);
            }
        }
    }

    /// Returns a row for each name of numbers, over all processes with such a number.
    pub fn overall(&self, alloc: Global) -> Result<Vec<LevelRow<'n>>, AllocError> {
        let mut rows = Vec::new(alloc);
        for (before, kind) in self.kinds.iter().enumerate() {
            self.add_names(&mut rows, before, kind)?;
        }
        Ok(rows)
    }

    /// Adds the names that no kind before a place has.
    fn add_names(
        &self,
        rows: &mut Vec<LevelRow<'n>>,
        before: usize,
        kind: &'n Kind,
    ) -> Result<(), AllocError> {
        for column in kind.columns.as_slice() {
            let name = column.name.as_str();
            if is_shown(column) && !self.has_name(before, name) {
                rows.push(self.row(None, "", column, self.pooled(name)))?;
            }
        }
        Ok(())
    }

    /// Returns whether a kind before a place has a number of this name.
    fn has_name(&self, before: usize, name: &str) -> bool {
        for kind in self.kinds.iter().take(before) {
            if place_of(kind, name).is_some() {
                return true;
            }
        }
        false
    }

    /// Returns the numbers of this name in all states.
    fn pooled(&self, name: &str) -> Pool {
        let mut pool = Pool::new();
        for kind in self.kinds {
            if let Some(place) = place_of(kind, name) {
                self.pool_kind(&mut pool, kind, place);
            }
        }
        pool
    }

    fn row(
        &self,
        process: Option<u32>,
        kind: &'n str,
        column: &'n Column,
        pool: Pool,
    ) -> LevelRow<'n> {
        LevelRow {
            process,
            kind,
            number: column.name.as_str(),
            ticks: self.ticks,
            pool,
        }
    }

    /// Returns a row for each sort of messages and each of its named words.
    pub fn words(&self, alloc: Global) -> Result<Vec<WordRow<'n>>, AllocError> {
        let mut rows = Vec::new(alloc);
        for (place, tally) in self.tallies.iter().enumerate() {
            let sort = place / 4;
            if let Some(word) = word_name(self.sorts, sort, place % 4) {
                let tallied = tally.figures(alloc)?;
                rows.push(WordRow {
                    sort: sort_name(self.sorts, sort),
                    word,
                    tallied,
                })?;
            }
        }
        Ok(rows)
    }
}

/// Returns the kinds and the sorts of names; none without names.
fn parts_of<'n>(names: Option<&'n Names>) -> (&'n [Kind], &'n [Sort]) {
    match names {
        Some(names) => (names.kinds.as_slice(), names.sorts.as_slice()),
        None => (&[], &[]),
    }
}

/// Returns the place of the number of this name in the states of a kind.
fn place_of(kind: &Kind, name: &str) -> Option<usize> {
    for (place, column) in kind.columns.iter().enumerate() {
        if column.name.as_str() == name {
            return Some(place);
        }
    }
    None
}

/// Returns the place of the sort of a message whose first word of content is `first`.
fn sort_of(sorts: &[Sort], first: u64) -> usize {
    match sorts.first() {
        Some(sort) if !sort.name.is_empty() => usize::try_from(first).unwrap_or(usize::MAX),
        _ => 0,
    }
}

fn sort_name<'n>(sorts: &'n [Sort], sort: usize) -> &'n str {
    match sorts.get(sort) {
        Some(sort) => sort.name.as_str(),
        None => "",
    }
}

/// Returns the name of a word of content in a sort, if it has one. Without sorts it is its letter.
fn word_name<'n>(sorts: &'n [Sort], sort: usize, word: usize) -> Option<&'n str> {
    if sorts.is_empty() {
        return letter_of(word);
    }
    let name = sorts.get(sort)?.words.get(word)?.as_str();
    if name.is_empty() { None } else { Some(name) }
}

/// Returns the letter of a word of content.
fn letter_of(word: usize) -> Option<&'static str> {
    match word {
        0 => Some("a"),
        1 => Some("b"),
        2 => Some("c"),
        3 => Some("d"),
        _ => None,
    }
}

/// Figures of a named number, or of several over the same ticks.
#[derive(Clone, Copy)]
struct Pool {
    numbers: u64,
    integral: u128,
    least: u64,
    most: u64,
    last: u128,
}

impl Pool {
    fn new() -> Pool {
        Pool {
            numbers: 0,
            integral: 0,
            least: u64::MAX,
            most: 0,
            last: 0,
        }
    }

    /// Adds a number. Sums that do not fit keep the greatest value of their type.
    fn add(&mut self, level: &Level)
        ensures numbers { self.new.numbers ≡ word_saturated (self.old.numbers + 1) }
        ensures integral { self.new.integral
            ≡ saturated (self.old.integral + level.now.integral) }
        ensures least { self.new.least ≡ min self.old.least level.now.least }
        ensures most { self.new.most ≡ max self.old.most level.now.most }
        ensures last { self.new.last ≡ saturated (self.old.last + level.now.value) }
    {
        self.numbers = self.numbers.saturating_add(1);
        self.integral = self.integral.saturating_add(level.integral);
        self.least = self.least.min(level.least);
        self.most = self.most.max(level.most);
        self.last = self.last.saturating_add(u128::from(level.value));
    }
}

/// The names of the cells of a `LevelRow`.
pub const LEVEL_NAMES: [&str; 8] = [
    "process",
    "kind",
    "number",
    "processes",
    "mean",
    "least",
    "most",
    "last",
];

/// The figures of a named number of a process, or of the processes of a kind, or of all processes.
#[derive(Clone, Copy)]
pub struct LevelRow<'n> {
    process: Option<u32>,
    kind: &'n str,
    number: &'n str,
    ticks: u64,
    pool: Pool,
}

impl<'n> LevelRow<'n> {
    /// Returns the cells, in the order of `LEVEL_NAMES`: the process, of a row for one; the kind,
    /// if it has a name; the name of the number; how many processes have it; its mean over virtual
    /// time and these processes, its least and its greatest value, which are missing if no tick
    /// counts; and its last value, of several processes their mean.
    pub fn cells(&self) -> [Cell<'n>; 8] {
        let pool = &self.pool;
        let process = match self.process {
            Some(process) => Cell::Number(u64::from(process)),
            None => Cell::Missing,
        };
        let last = match self.process {
            Some(_) => Cell::Number(u64::try_from(pool.last).unwrap_or(u64::MAX)),
            None => Cell::Decimal(quotient(pool.last, pool.numbers)),
        };
        let counted = self.ticks.saturating_mul(pool.numbers);
        let (mean, least, most) = if counted == 0 {
            (Cell::Missing, Cell::Missing, Cell::Missing)
        } else {
            (
                Cell::Decimal(quotient(pool.integral, counted)),
                Cell::Number(pool.least),
                Cell::Number(pool.most),
            )
        };
        [
            process,
            named(self.kind),
            Cell::Text(self.number),
            Cell::Number(pool.numbers),
            mean,
            least,
            most,
            last,
        ]
    }
}

/// Returns the cell of a name that may be empty.
fn named<'n>(name: &'n str) -> Cell<'n> {
    if name.is_empty() {
        Cell::Missing
    } else {
        Cell::Text(name)
    }
}

/// The names of the cells of a `WordRow`.
pub const WORD_NAMES: [&str; 11] = [
    "sort",
    "word",
    "count",
    "mean",
    "deviation",
    "least",
    "most",
    "p50",
    "p90",
    "p95",
    "p99",
];

/// The figures of a named word in the messages of a sort.
#[derive(Clone, Copy)]
pub struct WordRow<'n> {
    sort: &'n str,
    word: &'n str,
    tallied: Option<Tallied>,
}

impl<'n> WordRow<'n> {
    /// Returns the cells, in the order of `WORD_NAMES`: the sort, if it has a name; the name of the
    /// word; how many messages count; and the figures of `Tallied`, which are missing if none does.
    pub fn cells(&self) -> [Cell<'n>; 11] {
        let (sort, word) = (named(self.sort), Cell::Text(self.word));
        let Some(figures) = self.tallied else {
            let none = Cell::Missing;
            let count = Cell::Number(0);
            return [
                sort, word, count, none, none, none, none, none, none, none, none,
            ];
        };
        let [half, ninety, ninety_five, ninety_nine] = figures.percentiles;
        [
            sort,
            word,
            Cell::Number(figures.count),
            Cell::Decimal(figures.mean),
            match figures.deviation {
                Some(deviation) => Cell::Decimal(deviation),
                None => Cell::Missing,
            },
            Cell::Number(figures.least),
            Cell::Number(figures.most),
            Cell::Number(half),
            Cell::Number(ninety),
            Cell::Number(ninety_five),
            Cell::Number(ninety_nine),
        ]
    }
}
