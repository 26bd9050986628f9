//! Simulates a token ring over three nodes to its end, on a disk in memory and on a file, and
//! prints what is committed on each.
#![tactic(auto)]

use disk::{FileDisk, MemDisk, Returned, SectorDisk};
use models::TokenRing;
use runs::{Batch, Outcome, Plan, Schedule, SimulationFault, simulate};
use std::alloc::Global;
use std::io::{self, Write};
use std::process::ExitCode;
use texts::write_log;

/// The tick at which the simulation ends.
const END: u64 = 10;

/// Three nodes, each handling up to 16 messages at a turn.
const PLAN: Plan = Plan {
    nodes: 3,
    batch: Batch::Fixed(16),
    rounds: 1000,
    schedule: Schedule::InTurn,
    checkpoint_every: 0,
    seals: false,
    commit_every: 0,
    judged: false,
};

/// Simulates three processes that pass one token round every two ticks. Returns the disk.
fn ring_on<D, O>(alloc: Global, disk: D, out: &mut O) -> Result<D, SimulationFault>
where
    D: SectorDisk + Drop,
    O: Write,
{
    let ring = TokenRing::new(3, 2, 1);
    let Returned { disk, outcome } = simulate(alloc, &ring, END, disk, PLAN);
    let Outcome { front, .. } = outcome?;
    writeln!(out, "committed up to tick {}:", front.g)?;
    write_log(front.log.as_slice(), out)?;
    Ok(disk)
}

fn simulated(rt: &HostRuntime) -> Result<(), SimulationFault> {
    let mut out = io::writer(rt);
    ring_on(rt.alloc(), MemDisk::blank(rt.alloc(), 64)?, &mut out)?;
    let file = FileDisk::open(rt, rt.alloc(), "ring.disk", Some(64))?;
    ring_on(rt.alloc(), file, &mut out)?;
    Ok(out.flush()?)
}

fn main(rt: HostRuntime) -> ExitCode {
    match simulated(&rt) {
        Ok(()) => ExitCode::SUCCESS,
        Err(fault) => {
            let _ = writeln!(rt.stderr(), "example: {fault}");
            ExitCode::FAILURE
        }
    }
}
