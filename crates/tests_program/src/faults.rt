// What is printed and what a terminal shows after faults that no script brings.

use crate::running::Ticking;
use commitlog::LogFault;
use coordinator::SessionFault;
use disk::{DiskFault, GrowthFault};
use model::WorldFault;
use node::NodeFault;
use program::{Fault, Progress, TerminalProgress, print_fault};
use recovery::RecoveryFault;
use std::alloc::Global;
use std::io::Write;
use texts::Mistake;
use upkeep::migration::MigrateFault;
use wire::{PortFault, WireFault};

/// The fault of a session with a port.
fn of_port(fault: PortFault) -> Fault {
    Fault::Session(SessionFault::Port(fault))
}

/// The fault of a disk that is recovered.
fn of_recovery(fault: LogFault) -> Fault {
    Fault::Recovery(RecoveryFault::Log(fault))
}

/// The fault of this name.
fn fault_of(name: &str) -> Fault {
    let device = LogFault::Disk(DiskFault::Device);
    match name {
        "World NumberLimit" => Fault::World(WorldFault::NumberLimit),
        "Recovery Log Corrupt" => of_recovery(LogFault::Corrupt),
        "Recovery Log Disk Device" => of_recovery(device),
        "Session Port Peer NumberLimit" => of_port(PortFault::Peer(NodeFault::NumberLimit)),
        "Session Port Closed" => of_port(PortFault::Closed),
        "Session Recovery Log Disk Device" => {
            Fault::Session(SessionFault::Recovery(RecoveryFault::Log(device)))
        }
        "Migrate Old Log NoMemory" => {
            Fault::Migrate(MigrateFault::Old(RecoveryFault::Log(LogFault::NoMemory)))
        }
        "Wire Io" => Fault::Wire(WireFault::Io),
        "Grow TooMany" => Fault::Grow(GrowthFault::TooMany),
        "NoSuchProcess" => Fault::NoSuchProcess { processes: 3 },
        "NoSuchWord" => Fault::NoSuchWord,
        "hold: missing" => Fault::Mistake(Mistake::Missing("hold")),
        _ => Fault::NoMemory,
    }
}

/// Faults, some with the end of the advice after them.
const FAULTS: &str = "\
World NumberLimit
Recovery Log Corrupt => good records to a new disk
Recovery Log Disk Device
Session Port Peer NumberLimit
Session Port Closed => a node's program ended, or its connection failed: what is committed stays; \
run it again
Session Recovery Log Disk Device
Migrate Old Log NoMemory
Wire Io => start the run again
Grow TooMany => ask for fewer
NoSuchProcess => the model has fewer processes
NoSuchWord => `stats --table words` prints the names of the words of messages; of a word that several sorts have, write SORT.WORD
hold: missing
NoMemory => with more memory, or take a smaller model
";

/// Whether the program prints the fault of this name by it.
fn is_printed(alloc: Global, name: &str) -> bool {
    let mut err = Vec::new(alloc);
    let status = print_fault("timewarp", fault_of(name), &mut err);
    let mut line = Vec::new(alloc);
    let _ = writeln!(line, "timewarp: {name}");
    status == 1 && err.as_slice() == line.as_slice()
}

/// The line that a terminal shows after a fault; empty if there is none.
fn advice(alloc: Global, name: &str) -> Vec<u8> {
    let clock = Ticking::new(200, 0);
    let mut terminal = Vec::new(alloc);
    let mut shown = TerminalProgress::on(&clock, Some(&mut terminal));
    shown.failed(fault_of(name).advice(), None);
    terminal
}

/// Whether a terminal shows advice after a fault that ends so, if there is an end.
fn is_advised(alloc: Global, name: &str, end: &str) -> bool {
    let mut line = Vec::new(alloc);
    let _ = writeln!(line, "{end}");
    let advice = advice(alloc, name);
    end.is_empty() || advice.as_slice().ends_with(line.as_slice())
}

/// Whether a fault is printed as a row says, and the advice after it.
fn is_shown(alloc: Global, row: &str) -> bool {
    let (name, end) = row.split_once(" => ").unwrap_or((row, ""));
    is_printed(alloc, name) && is_advised(alloc, name, end)
}

#[test]
fn the_program_prints_nested_faults_in_full_and_advice_after_them(rt: HostRuntime) {
    for row in FAULTS.lines() {
        assert!(rt; is_shown(rt.alloc(), row), "{row}");
    }
    assert!(rt; advice(rt.alloc(), "hold: missing").is_empty());
}
