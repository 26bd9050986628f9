// In which simulations a run and a node program take part, where these differ.

use frames::{FRAMES_FORMAT, Hello};
use std::fmt;

/// The simulation that a hello names. Its text says which one: `of lps 3, model 1 2 1, end 10`.
#[derive(Clone, Copy, Debug, PartialEq, Eq)]
pub struct Simulation {
    /// The format of the frames of the program that said the hello.
    pub format: u32,
    /// The number of processes.
    pub lps: u32,
    /// The end in ticks.
    pub end: u64,
    /// The words that distinguish the model from others; those from `count` on are 0.
    words: [u64; 8],
    /// How many there are, at most 8.
    count: usize,
}

impl Simulation {
    /// The simulation of this hello.
    pub(crate) fn of(hello: &Hello) -> Simulation {
        let from = hello.identity.as_slice();
        let mut words = [0; 8];
        for (to, word) in words.iter_mut().zip(from.iter()) {
            *to = *word;
        }
        Simulation {
            format: hello.format,
            lps: hello.lps,
            end: hello.end,
            words,
            count: from.len().min(8),
        }
    }
}

impl fmt::Display for Simulation {
    fn fmt<W: fmt::Write>(&self, f: &mut fmt::Formatter<W>) -> fmt::Result {
        f.write_str("of ")?;
        if self.format != FRAMES_FORMAT {
            write!(f, "frames of format {}, ", self.format)?;
        }
        write!(f, "lps {}, model", self.lps)?;
        for word in self.words.iter().take(self.count) {
            write!(f, " {word}")?;
        }
        write!(f, ", end {}", self.end)
    }
}

/// A run and a node program that take part in different simulations.
#[derive(Clone, Copy, Debug, PartialEq, Eq)]
pub struct Apart {
    /// The simulation of the run.
    pub run: Simulation,
    /// The simulation of the node program.
    pub node: Simulation,
}
