// How a disk and a model file that do not belong together differ.

use crate::files::{open_disk, read_model_file};
use cli::ModelFile;
use commitlog::Log;
use disk::Sector;
use model::Model as Simulated;
use recovery::end_of;
use std::fmt;
use std::fs::File;
use std::rt::Files;
use texts::Described;
use upkeep::inspection::inspect;

/// What a disk was made for, and what a model file describes, where they differ.
#[derive(Clone, Copy, Debug, PartialEq, Eq)]
pub struct ModelDifference {
    /// What the disk was made for.
    pub disk: DiskSimulation,
    /// What the model file describes.
    pub file: DiskSimulation,
}

/// A model and the end of its run, as the header of a disk has them. Its text says what they are.
#[derive(Clone, Copy, Debug, PartialEq, Eq)]
pub struct DiskSimulation {
    /// The format of the disk; for a model file that of the disks that the command takes.
    pub format: u32,
    /// The number of processes.
    pub lps: u32,
    /// The end in ticks: of a disk the one in force.
    pub end: u64,
    /// The words that distinguish the model from others.
    pub identity: Identity,
}

/// The words that distinguish a model from others.
#[derive(Clone, Copy, Debug, PartialEq, Eq)]
pub struct Identity {
    /// The words; those from `count` on are 0.
    words: [u64; 8],
    /// How many there are, at most 8.
    count: usize,
}

/// The format of the disks that the program makes.
const FORMAT: u32 = 2;

/// How a disk and a model file differ for a command that takes disks of this format, if both can be
/// read, the disk has the header of some model, and they differ.
pub fn difference_of<M, R>(
    rt: &R,
    model: ModelFile<'_>,
    disk: &str,
    most: u32,
    format: u32,
) -> Option<ModelDifference>
where
    M: Described,
    R: Files<File = File> + AllocGlobal,
{
    let (model, end): (M, u64) = read_model_file(rt, model).ok()?;
    let mut log = Log::open(rt.alloc(), open_disk(rt, disk, most).ok()?).ok()?;
    let file = DiskSimulation {
        format,
        lps: model.lps(),
        end,
        identity: identity_of(model.identity(rt.alloc()).as_slice()),
    };
    let mut found = simulation_in(log.header())?;
    // of another model's disk the end in force is not known, but only its first one
    if let Ok(end) = end_of(rt.alloc(), &model, &mut log) {
        found.end = end;
    }
    if found == file {
        return None;
    }
    Some(ModelDifference { disk: found, file })
}

/// How far the run on a disk has come: the time in ticks up to which everything is committed, if the
/// disk is of the model of a file, and both can be read.
pub fn committed_on<M, R>(rt: &R, model: ModelFile<'_>, disk: &str, most: u32) -> Option<u64>
where
    M: Described,
    R: Files<File = File> + AllocGlobal,
{
    let (model, end): (M, u64) = read_model_file(rt, model).ok()?;
    let disk = open_disk(rt, disk, most).ok()?;
    let found = inspect(rt.alloc(), &model, disk, end).ok()?;
    Some(found.time)
}

/// Returns the simulation in the header of a disk, sector 1; none if it does not begin as a header
/// does.
pub fn simulation_in(header: &Sector) -> Option<DiskSimulation> {
    let (mark, fields) = header.split_at(8);
    if mark != b"TIMEWARP".as_slice() {
        return None;
    }
    let (format, fields) = fields.split_at(4);
    let (lps, fields) = fields.split_at(4);
    let (end, fields) = fields.split_at(8);
    let (count, words) = fields.split_at(4);
    let mut identity = Identity {
        words: [0; 8],
        count: usize::try_from(number_of(count)).ok()?.min(8),
    };
    for (place, word) in words
        .as_chunks::<8>()
        .0
        .iter()
        .take(identity.count)
        .enumerate()
    {
        if let Some(to) = identity.words.get_mut(place) {
            *to = number_of(word);
        }
    }
    Some(DiskSimulation {
        format: u32::try_from(number_of(format)).ok()?,
        lps: u32::try_from(number_of(lps)).ok()?,
        end: number_of(end),
        identity,
    })
}

/// The number that up to eight bytes are, the highest first.
fn number_of(bytes: &[u8]) -> u64 {
    let mut number = 0u64;
    for byte in bytes {
        number = number << 8 | u64::from(*byte);
    }
    number
}

/// The first eight of these words.
fn identity_of(from: &[u64]) -> Identity {
    let mut identity = Identity {
        words: [0; 8],
        count: from.len().min(8),
    };
    for (to, word) in identity.words.iter_mut().zip(from.iter()) {
        *to = *word;
    }
    identity
}

impl ModelDifference {
    /// What to do so that the disk and the model file belong together, if the difference shows it.
    pub fn advice(&self) -> Option<&'static str> {
        let (disk, file) = (self.disk, self.file);
        if disk.format == 1 && file.format == FORMAT {
            Some("`migrate` writes what is on a disk of format 1 to a disk of format 2")
        } else if disk.format != file.format {
            Some("only disks of format 1 are migrated")
        } else if disk.lps != file.lps || disk.identity != file.identity {
            Some("take the model file with which the disk was made, or another disk")
        } else if disk.end < file.end {
            Some("`extend` gives the disk the later end of the model file")
        } else {
            Some("an end does not become earlier: write the end of the disk into the model file")
        }
    }
}

impl fmt::Display for DiskSimulation {
    fn fmt<W: fmt::Write>(&self, f: &mut fmt::Formatter<W>) -> fmt::Result {
        f.write_str("of ")?;
        if self.format != FORMAT {
            write!(f, "format {}, ", self.format)?;
        }
        write!(f, "lps {}, model", self.lps)?;
        for word in self.identity.words.iter().take(self.identity.count) {
            write!(f, " {word}")?;
        }
        write!(f, ", end {}", self.end)
    }
}

/// The words, with blanks between.
impl fmt::Display for Identity {
    fn fmt<W: fmt::Write>(&self, f: &mut fmt::Formatter<W>) -> fmt::Result {
        for (place, word) in self.words.iter().take(self.count).enumerate() {
            if place > 0 {
                f.write_str(" ")?;
            }
            write!(f, "{word}")?;
        }
        Ok(())
    }
}
