// Why a command failed.

ghost use Rattle.std.specs.Prelude.{◌≡◌, ℕ, IsOkUnless, List, Option};
ghost use Rattle.disk_commands.specs.Faults.{of_archive, of_cut, of_file, of_growing, of_nodes};
ghost use Rattle.disk_commands.specs.Faults.{of_salvage, of_view};
ghost use Rattle.disk_commands.specs.declared.fault.Fault.TheVariants.{NoMemory, Output};
ghost use Rattle.disk_commands.specs.declared.fault.Fault.TheVariants.{World as WorldCase};
ghost use Rattle.eventkey.specs.Writing.{Writes};

use commitlog::LogFault;
use coordinator::SessionFault;
use disk::{FileFault, GrowthFault};
use model::WorldFault;
use node_programs::NodesFault;
use recovery::RecoveryFault;
use segments::archiving::ArchiveFault;
use std::alloc::{AllocError, AllocFailed};
use std::io::{Error as IoError, Result as IoResult, Write};
use texts::{Mistake, SettingFault};
use thiserror::Error;
use upkeep::growing::GrowingFault;
use upkeep::migration::MigrateFault;
use upkeep::{CutFault, ReopenFault, SalvageFault, VerifyFault};
use views::{SegmentFault, ViewFault};
use wire::{PortFault, WireFault};

/// Why a command failed. Printed as its name, followed by a space and the fault that it carries, if
/// any.
#[derive(Clone, Copy, Debug, PartialEq, Eq, Error)]
pub enum Fault {
    /// The text is not a model file.
    #[error("BadModel")]
    BadModel,
    /// A file cannot be read, or is not a disk of the requested size; or a node's socket was not
    /// made, or its program did not start or connect.
    #[error("File")]
    File,
    /// The sequential runner refused.
    #[error("World {0}")]
    World(WorldFault),
    /// The log of a disk was not made, or not opened.
    #[error("Log {0}")]
    Log(LogFault),
    /// No world was recovered from the log.
    #[error("Recovery {0}")]
    Recovery(RecoveryFault),
    /// The session of a run refused its opening or a step.
    #[error("Session {0}")]
    Session(SessionFault),
    /// A node received something other than the expected frame, or its connection failed.
    #[error("Wire {0}")]
    Wire(WireFault),
    /// The run takes part in another simulation than the node that is served.
    #[error("OtherModel")]
    OtherModel,
    /// A node program takes part in another simulation than the run.
    #[error("Node {node} OtherModel")]
    OtherNode {
        /// The number of the node.
        node: usize,
    },
    /// The run made all its rounds before everything was committed.
    #[error("Rounds")]
    Rounds,
    /// The run was asked to stop before everything was committed, though no file that ends it was
    /// named.
    #[error("Stopped")]
    Stopped,
    /// A disk of format 1 was not migrated, or only in part.
    #[error("Migrate {0}")]
    Migrate(MigrateFault),
    /// A disk was not made longer.
    #[error("Grow {0}")]
    Grow(GrowthFault),
    /// A segment was not made, or does not go on from the disk that it should go on from.
    #[error("Segment {0}")]
    Segment(SegmentFault),
    /// `new` found records after a closed gate.
    #[error("Shut")]
    Shut,
    /// The gate of a disk's header was not opened again.
    #[error("Reopen {0}")]
    Reopen(ReopenFault),
    /// `recover` refused to use a file as its new disk, or did not write all good records to it.
    #[error("Recover New {0}")]
    Recover(LogFault),
    /// `cut` found no record at fault.
    #[error("NothingToCut")]
    NothingToCut,
    /// `status` or `verify` found a fault in a record of a disk.
    #[error("Record {number} {fault}")]
    Record {
        /// The number of records before it.
        number: u64,
        /// What is wrong with it.
        fault: RecoveryFault,
    },
    /// The text is not a trace of a run.
    #[error("BadTrace")]
    BadTrace,
    /// A value is not set in the model file.
    #[error("Setting {0}")]
    Setting(SettingFault),
    /// `check` found a mistake in a file that is not a model file.
    #[error("{0}")]
    Mistake(Mistake),
    /// The model does not have the process that is asked for.
    #[error("NoSuchProcess")]
    NoSuchProcess {
        /// How many processes it has.
        processes: u32,
    },
    /// No word of messages has the name that is asked for, or several sorts of messages have one.
    #[error("NoSuchWord")]
    NoSuchWord,
    /// An allocation failed in a call without its own fault for it.
    #[error("NoMemory")]
    NoMemory,
    /// Standard output refused a write.
    #[error("Output")]
    Output,
}

impl Fault {
    /// Returns a line of advice for the user, which is shown below the fault on a terminal or if it
    /// is asked for. Returns none if the fault says enough.
    pub fn advice(self) -> Option<&'static str> {
        match self {
            Fault::BadModel => Some("the command `check` says what is wrong with the model file"),
            Fault::File => Some(
                "see that both files are there and may be read, that the disk has 8 to 131072 \
                 sectors of 512 bytes, or with --large to 16777216 (with `new` as many as asked \
                 for), that a model file has at most 16777216 bytes, and that no other run has it; \
                 with --sockets, that the folder is there and holds no socket of an earlier run",
            ),
            Fault::World(fault) => of_world(fault),
            Fault::Log(fault) => of_log(fault),
            Fault::Recovery(fault) => of_recovery(fault),
            Fault::Session(fault) => of_session(fault),
            Fault::Wire(fault) => of_wire(fault),
            Fault::OtherModel => Some(
                "start this node on the model file of its run, with the same end, by the same \
                 program: nothing was loaded",
            ),
            Fault::OtherNode { .. } => Some(
                "start this node on the model file of the run, with the same end, by the same \
                 program: nothing was loaded, and what is committed stays",
            ),
            Fault::Rounds => Some("what is committed stays: run it again, with more --rounds"),
            Fault::Stopped => None,
            Fault::Migrate(fault) => of_migration(fault),
            Fault::Grow(fault) => Some(of_growth(fault)),
            Fault::Segment(SegmentFault::NotTheNext) => Some(
                "the segment does not go on from the disk before it: of `run --archive-when-full`, the \
                 file DISK.next is another one, which stays as it is: move it away; of `verify \
                 --after`, see that both disks are the right ones",
            ),
            Fault::Segment(SegmentFault::TooLong) => Some(
                "the states and the pending messages have more than the 16777216 bytes of a record: \
                 `grow` makes the disk longer instead, and --large lets it grow further",
            ),
            Fault::Shut => Some(
                "the disk has records, but the gate of its header is closed: `reopen` looks at \
                 all of them and opens it again; nothing is written",
            ),
            Fault::Reopen(fault) => Some(of_reopening(fault)),
            Fault::Recover(fault) => of_recovered(fault),
            Fault::NothingToCut => Some("no record is at fault: nothing is written"),
            Fault::Record { .. } => Some(
                "this record is at fault: `cut` takes it and all behind it away from the disk, \
                 `recover` writes the records before it to a new one",
            ),
            Fault::Setting(_) => Some(
                "`check` prints the keys and the numbers of a model file, and what each is set to",
            ),
            Fault::BadTrace => Some("the file is not as `run --trace` writes one"),
            Fault::Mistake(_) => None,
            Fault::NoSuchProcess { .. } => Some("the model has fewer processes"),
            Fault::NoSuchWord => Some(
                "`stats --table words` prints the names of the words of messages; of a word that \
                 several sorts have, write SORT.WORD",
            ),
            Fault::NoMemory => Some(NO_MEMORY),
            Fault::Output => Some(
                "standard output was closed, as by `| head`, or has no room: what is committed \
                 stays",
            ),
        }
    }
}

/// Advice if an allocation failed.
const NO_MEMORY: &str =
    "what is committed stays: run it again with more memory, or take a smaller model";

/// Advice if the device of a disk failed.
const NO_DEVICE: &str = "the disk's file could not be written: see that its device has room \
                         (`df`) and works (`dmesg`), and that no limit on the size of files is \
                         below the disk's (`ulimit -f`); what is committed stays";

/// Advice if a record of a disk is at fault.
const DAMAGED: &str = "the disk is damaged: `verify` says at which record, and then `cut` or \
                       `recover` saves those before it";

/// Advice if a log is cut off, or a seal is not that of the records before it.
const CHANGED: &str =
    "the disk is damaged at the beginning of a record, or a seal differs from the \
                       records before it: the file was changed after it was written; `recover` \
                       writes its good records to a new disk";

/// Advice for a fault of the sequential runner.
fn of_world(fault: WorldFault) -> Option<&'static str> {
    match fault {
        WorldFault::NoMemory => Some(NO_MEMORY),
        WorldFault::NumberLimit => None,
    }
}

/// Advice for a fault of a log.
fn of_log(fault: LogFault) -> Option<&'static str> {
    match fault {
        LogFault::NotBlank => Some("the disk has a log already, which `new` keeps"),
        LogFault::NotFormatted => {
            Some(
                "`new` makes a log on a disk; if this disk had one, `reopen` opens it again, or \
                 `recover` writes its good records to a new disk",
            )
        }
        LogFault::Corrupt => Some(CHANGED),
        LogFault::Disk(_) => Some(NO_DEVICE),
        LogFault::NoMemory => Some(NO_MEMORY),
        LogFault::Full | LogFault::TooLong | LogFault::Spent => None,
    }
}

/// Advice if no world is recovered.
fn of_recovery(fault: RecoveryFault) -> Option<&'static str> {
    match fault {
        RecoveryFault::OtherModel => Some(
            "the disk was made for another model, another end is in force on it, or it has format \
             1, which `migrate` writes anew",
        ),
        RecoveryFault::Log(fault) => of_log(fault),
        RecoveryFault::NoMemory => Some(NO_MEMORY),
        _ => Some(DAMAGED),
    }
}

/// Advice if a session stops.
fn of_session(fault: SessionFault) -> Option<&'static str> {
    match fault {
        SessionFault::EndRefused => {
            Some(
                "the model file's end is not later than the one in force on the disk: if it is that \
                 one, as after an earlier `extend`, `run` goes on to it",
            )
        }
        SessionFault::Full => Some(
            "the disk has no room for the next commit: what is committed stays; `grow` makes the \
             disk longer, of 131072 sectors if no number is given, and then `run` goes on; with \
             --commit-every 4096 commits take less room",
        ),
        SessionFault::TooLong => Some(
            "a commit has more than a record takes: what is committed stays; run it again with a \
             lower --batch or --commit-every",
        ),
        SessionFault::Port(fault) => Some(of_port(fault)),
        SessionFault::Reports => Some(
            "a node reported what the model does not do, or left out what it does: none of that is \
             committed, and what is committed stays; see that each node runs this program with \
             this model file",
        ),
        SessionFault::Disk => Some(NO_DEVICE),
        SessionFault::NoMemory => Some(NO_MEMORY),
        SessionFault::Recovery(fault) => of_recovery(fault),
        _ => None,
    }
}

/// Advice if a run loses a node.
fn of_port(fault: PortFault) -> &'static str {
    match fault {
        PortFault::Wire(WireFault::NoMemory) => NO_MEMORY,
        PortFault::Wire(WireFault::TooLong) => {
            "what is sent to a node at its beginning has more than 16777216 bytes: what is committed \
             stays; run it with more --nodes, or with --plain"
        }
        PortFault::Peer(_) => {
            "a node refused its work, as where its memory ran out: what is committed stays; run it \
             again"
        }
        PortFault::BadReply => {
            "a node reported what the model does not do, or answered what is no reply: see that \
             each node runs this program with this model file; what is committed stays"
        }
        _ => {
            "a node's program ended, or its connection failed: what is committed stays; run it \
             again"
        }
    }
}

/// Advice if a node's program stops.
fn of_wire(fault: WireFault) -> Option<&'static str> {
    match fault {
        WireFault::NoMemory => Some(NO_MEMORY),
        _ => Some(
            "the connection to the run failed, or something else than a run is at its other end: \
             what is committed stays; start the run again",
        ),
    }
}

/// Advice if a disk is not migrated.
fn of_migration(fault: MigrateFault) -> Option<&'static str> {
    match fault {
        MigrateFault::Old(RecoveryFault::OtherModel) => Some(
            "the old disk does not have format 1, was made for another model, or another end is \
             in force on it",
        ),
        MigrateFault::Old(RecoveryFault::NoMemory) => Some(NO_MEMORY),
        MigrateFault::Old(RecoveryFault::Log(fault)) => of_log(fault),
        MigrateFault::Old(_) => Some("the old disk is damaged: go on with a copy of it"),
        MigrateFault::New(LogFault::Full) => Some(
            "the new disk has no room for the old one's records: remove its file, and try again \
             with more --sectors",
        ),
        MigrateFault::New(fault) => of_log(fault),
        MigrateFault::NotEmpty => None,
    }
}

/// Advice if the gate of a header is not opened again.
fn of_reopening(fault: ReopenFault) -> &'static str {
    match fault {
        ReopenFault::NotShut => "the gate of the disk's header is open: `verify` checks the disk",
        ReopenFault::Behind(VerifyFault::Recovery(RecoveryFault::OtherModel)) => {
            "behind the gate is no log of this model with this end: see that it is the model file \
             of the disk; nothing is written"
        }
        ReopenFault::Behind(_) => {
            "what is behind the gate is damaged too: `recover` writes its good records to a new \
             disk; nothing is written"
        }
        ReopenFault::Disk(_) => NO_DEVICE,
        ReopenFault::NoMemory => NO_MEMORY,
    }
}

/// Advice if good records are not written to a new disk.
fn of_recovered(fault: LogFault) -> Option<&'static str> {
    match fault {
        LogFault::NotBlank => Some(
            "the file of the new disk holds something already: if an earlier `recover` to it was \
             stopped, it has a part of the records: remove it, or name another file",
        ),
        LogFault::Full => Some(
            "the new disk has the first of the good records, and no room for all: remove its file, \
             and try again with more --sectors",
        ),
        fault => of_log(fault),
    }
}

/// Advice if a disk does not grow.
fn of_growth(fault: GrowthFault) -> &'static str {
    match fault {
        GrowthFault::Fewer => "the disk has more sectors than asked for",
        GrowthFault::TooMany => {
            "a disk has at most 131072 sectors, or with --large 16777216: ask for fewer"
        }
        GrowthFault::Device => NO_DEVICE,
        GrowthFault::NoMemory => NO_MEMORY,
    }
}

impl From<ViewFault> for Fault {
    ghost from_gives = { λ fault e. e ≡ of_view fault };

    fn from(fault: ViewFault) -> Fault {
        match fault {
            ViewFault::BadModel => Fault::BadModel,
            ViewFault::File => Fault::File,
            ViewFault::World(fault) => Fault::World(fault),
            ViewFault::Log(fault) => Fault::Log(fault),
            ViewFault::Recovery(fault) => Fault::Recovery(fault),
            ViewFault::Record { number, fault } => Fault::Record { number, fault },
            ViewFault::Segment(fault) => Fault::Segment(fault),
            ViewFault::BadTrace => Fault::BadTrace,
            ViewFault::Setting(fault) => Fault::Setting(fault),
            ViewFault::Mistake(mistake) => Fault::Mistake(mistake),
            ViewFault::NoSuchProcess { processes } => Fault::NoSuchProcess { processes },
            ViewFault::NoSuchWord => Fault::NoSuchWord,
            ViewFault::NoMemory => Fault::NoMemory,
            ViewFault::Output => Fault::Output,
        }
    }
}

impl From<NodesFault> for Fault {
    ghost from_gives = { λ fault e. e ≡ of_nodes fault };

    fn from(fault: NodesFault) -> Fault {
        match fault {
            NodesFault::File => Fault::File,
            NodesFault::NoMemory => Fault::NoMemory,
            NodesFault::Wire(fault) => Fault::Wire(fault),
            NodesFault::OtherModel => Fault::OtherModel,
            NodesFault::OtherNode { node } => Fault::OtherNode { node },
            NodesFault::Lost(fault) => Fault::Session(SessionFault::Port(fault)),
        }
    }
}

/// An error of a writer. `views::unreadable` converts the errors of files that are read.
impl From<IoError> for Fault {
    ghost from_gives = { λ _ e. e ≡ Output };

    fn from(_error: IoError) -> Fault {
        Fault::Output
    }
}

impl From<WorldFault> for Fault {
    ghost from_gives = { λ fault e. e ≡ WorldCase fault };

    fn from(fault: WorldFault) -> Fault {
        Fault::World(fault)
    }
}

impl From<GrowingFault> for Fault {
    ghost from_gives = { λ fault e. e ≡ of_growing fault };

    fn from(fault: GrowingFault) -> Fault {
        match fault {
            GrowingFault::Recovery(fault) => Fault::Recovery(fault),
            GrowingFault::Growth(fault) => Fault::Grow(fault),
        }
    }
}

/// A segment that would be full too leaves the run at its fault.
impl From<ArchiveFault> for Fault {
    ghost from_gives = { λ fault e. e ≡ of_archive fault };

    fn from(fault: ArchiveFault) -> Fault {
        match fault {
            ArchiveFault::File => Fault::File,
            ArchiveFault::Full => Fault::Session(SessionFault::Full),
            ArchiveFault::TooLong => Fault::Segment(SegmentFault::TooLong),
            ArchiveFault::NotTheNext => Fault::Segment(SegmentFault::NotTheNext),
            ArchiveFault::Recovery(fault) => Fault::Recovery(fault),
            ArchiveFault::Log(fault) => Fault::Log(fault),
            ArchiveFault::NoMemory => Fault::NoMemory,
        }
    }
}

impl From<ReopenFault> for Fault {
    ghost use Rattle.disk_commands.specs.declared.fault.Fault.TheVariants.{Reopen};

    ghost from_gives = { λ fault e. e ≡ Reopen fault };

    fn from(fault: ReopenFault) -> Fault {
        Fault::Reopen(fault)
    }
}

impl From<SalvageFault> for Fault {
    ghost from_gives = { λ fault e. e ≡ of_salvage fault };

    fn from(fault: SalvageFault) -> Fault {
        match fault {
            SalvageFault::OtherModel => Fault::Recovery(RecoveryFault::OtherModel),
            SalvageFault::Disk(fault) => Fault::Log(LogFault::Disk(fault)),
            SalvageFault::NoMemory => Fault::NoMemory,
            SalvageFault::New(fault) => Fault::Recover(fault),
        }
    }
}

impl From<CutFault> for Fault {
    ghost from_gives = { λ fault e. e ≡ of_cut fault };

    fn from(fault: CutFault) -> Fault {
        match fault {
            CutFault::NothingToCut => Fault::NothingToCut,
            CutFault::Log(fault) => Fault::Log(fault),
            CutFault::Recovery(fault) => Fault::Recovery(fault),
            CutFault::Disk(fault) => Fault::Log(LogFault::Disk(fault)),
        }
    }
}

impl From<FileFault> for Fault {
    ghost from_gives = { λ fault e. e ≡ of_file fault };

    fn from(fault: FileFault) -> Fault {
        match fault {
            FileFault::File => Fault::File,
            FileFault::NoMemory => Fault::NoMemory,
        }
    }
}

/// An allocation failure for a text to write.
impl From<AllocError> for Fault {
    ghost from_gives = { λ _ e. e ≡ NoMemory };

    fn from(_refused: AllocError) -> Fault {
        Fault::NoMemory
    }
}

/// An allocation failure while values are collected.
impl<T: Drop> From<AllocFailed<T>> for Fault {
    ghost from_gives = { λ _ e. e ≡ NoMemory };

    fn from(_refused: AllocFailed<T>) -> Fault {
        Fault::NoMemory
    }
}

/// Flushes a writer after what was written to it, if all of that was written.
pub(crate) fn flushed<O: Write>(written: IoResult<()>, out: &mut O) -> Result<(), Fault>
    ensures written { (old : Option (List ℕ)) (text : List ℕ) →
        Writes old (O.contents out.old) written text → Writes old (O.contents out.new) result text }
    ensures fault { IsOkUnless result Output }
{
    written?;
    out.flush()?;
    Ok(())
}
