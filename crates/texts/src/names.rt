// The names that a model gives to its processes, to the numbers in their states, and to its
// messages.

ghost use Rattle.std.specs.Prelude.{◌≡◌, ◌≤◌, ◌+◌, ◌/◌, ◌%◌, ◌^◌};
ghost use Rattle.texts.specs.Names.{bits_in, number_of, word_at};

use eventkey::Message;
use std::alloc::{AllocError, Global};

/// A named number in the state of a process: a word, or some bits of one, as an element of an
/// array.
#[derive(Debug, Drop)]
pub struct Column {
    /// The name, as `served` or `queue[3]`.
    pub name: String,
    /// The place of the word in the state.
    pub place: u8,
    /// The lowest of its bits in the word.
    pub shift: u8,
    /// The number of its bits. With `shift` it is at most 64.
    pub bits: u8,
}

impl Column {
    /// The whole word at a place.
    pub fn word(name: String, place: u8) -> Column
        ensures name { result.name ≡ name }
        ensures place { result.place ≡ place }
        ensures shift { result.shift ≡ 0 }
        ensures bits { result.bits ≡ 64 }
    {
        Column {
            name,
            place,
            shift: 0,
            bits: 64,
        }
    }

    /// Returns the number in a state. It is 0 if the state has no such word, or the word no such
    /// bits.
    pub fn number(&self, state: &[u64]) -> u64
        ensures { result ≡ number_of self.now.place self.now.shift self.now.bits state.now }
    {
        let (shift, bits) = (u32::from(self.shift), u32::from(self.bits));
        if bits == 0 || shift + bits > 64 {
            return 0;
        }
        bits_in(word_at(state, usize::from(self.place)), shift, bits)
    }
}

/// Returns the word at a place of a state, or 0 if there is none.
fn word_at(state: &[u64], place: usize) -> u64
    ensures { result ≡ word_at state.now place }
{
    state.get(place).copied().unwrap_or(0)
}

/// Returns some bits of a word, from a bit on.
fn bits_in(word: u64, shift: u32, bits: u32) -> u64
    requires some { 1 ≤ bits }
    requires within { shift + bits ≤ 64 }
    ensures { result ≡ bits_in word shift bits }
{
    let above = word >> shift;
    if bits == 64 {
        above
    } else {
        above % (1 << bits)
    }
}

/// Processes in a row with one kind of state.
#[derive(Debug, Drop)]
pub struct Kind {
    /// The name. It is empty if the model has one kind of process.
    pub name: String,
    /// The first process.
    pub first: u32,
    /// The number of processes.
    pub count: u32,
    /// The named numbers in their states, in the order of their places.
    pub columns: Vec<Column>,
}

/// A sort of messages.
#[derive(Debug, Drop)]
pub struct Sort {
    /// The name. It is empty if the model has one sort of messages.
    pub name: String,
    /// The names of the words of content, by their places; the words after them have none. If the
    /// sort has a name, the first word is its number, and its name here is empty.
    pub words: Vec<String>,
}

/// The names that a model gives. They do not change what the model does.
#[derive(Debug, Drop)]
pub struct Names {
    /// The kinds of processes, in the order of their processes.
    pub kinds: Vec<Kind>,
    /// The sorts of messages, by the numbers that their first words of content have.
    pub sorts: Vec<Sort>,
}

impl Names {
    /// The names of a model with one kind of process, of which there are `lps`, and one sort of
    /// messages, in which `words` are the names of the words of content.
    pub fn new(
        alloc: Global,
        lps: u32,
        columns: Vec<Column>,
        words: Vec<String>,
    ) -> Result<Names, AllocError> {
        let mut kinds = Vec::new(alloc);
        kinds.push(Kind {
            name: String::new(alloc),
            first: 0,
            count: lps,
            columns,
        })?;
        let mut sorts = Vec::new(alloc);
        sorts.push(Sort {
            name: String::new(alloc),
            words,
        })?;
        Ok(Names { kinds, sorts })
    }

    /// Returns the kind of a process, if it has one.
    pub fn kind(&self, lp: u32) -> Option<&Kind> {
        for kind in self.kinds.as_slice() {
            if kind.first <= lp && lp - kind.first < kind.count {
                return Some(kind);
            }
        }
        None
    }

    /// Returns the sort of a message, if it has one: the only one, or the one whose number is the
    /// first word of its content.
    pub fn sort(&self, message: &Message) -> Option<&Sort> {
        let sorts = self.sorts.as_slice();
        match sorts.first() {
            Some(sort) if sort.name.is_empty() => Some(sort),
            _ => sorts.get(usize::try_from(message.a()).unwrap_or(usize::MAX)),
        }
    }
}
