// The command `wave`.

ghost use Rattle.std.specs.Prelude.{◌≡◌, ◌≤◌, ◌⊎◌, ◌^◌, IfOk, IsOkUnless, OnErr, OnOk};
ghost use Rattle.std.specs.Prelude.{string_bytes};
ghost use Rattle.std.specs.Option.{option_map};
ghost use Rattle.circuit_program.specs.Waves.{meaning_of, IsBegunFrom, IsWave, IsWaveOf};
ghost use Rattle.eventkey.specs.Writing.{Writes};
ghost use Rattle.model.specs.Meaning.{CanBegin};
ghost use Rattle.model.specs.World.{IsUpto};
ghost use Rattle.segments.specs.Archiving.{IsOriginOn};
ghost use Rattle.disk_commands.specs.declared.fault.Fault.TheVariants.{Output};
ghost use Rattle.views.specs.Views.{Begins, Prints};

use circuit::Circuit;
use cli::ModelFile;
use disk::{FileDisk, Returned};
use model::{Continued, Origin, World};
use program::{Fault, of_command, print_fault, simulated};
use recovery::RecoveryFault;
use runs::commands::{Simulated, committed};
use segments::archiving::origin_on;
use std::alloc::Global;
use std::fs::File;
use std::io::{self, BufWriter, Print, Write};
use std::rt::Files;
use texts::write_text;

/// Runs the command `wave MODEL [DISK]`, and returns the exit status, as the other commands do.
/// `words` are the words after `wave`.
pub(crate) fn wave<R, E>(rt: &R, words: &[String], err: &mut E) -> u8
where
    R: Files<File = File> + Print + AllocGlobal,
    E: Write,
    ensures { result ≤ 2 }
{
    let (model, disk) = match words.len() {
        1 => (words[0].as_str(), None),
        2 => (words[0].as_str(), Some(words[1].as_str())),
        _ => {
            let _ = err.write_all(USAGE.as_bytes());
            return 2;
        }
    };
    let Ok(mut out) = BufWriter::new(rt.alloc(), io::writer(rt)) else {
        return print_fault("circuit_program", Fault::NoMemory, err);
    };
    let status = match print_wave(rt, model, disk, &mut out) {
        Ok(()) => 0,
        Err(fault) => print_fault("circuit_program", fault, err),
    };
    // what is left was refused, and is not tried again
    let (_writer, _left) = out.into_parts();
    status
}

const USAGE: &str = "\
Prints the wave of a circuit, as a value change dump (VCD): of its run by the plain runner to
its end, or, with a disk, of what is committed there. That of a disk that continues from another
one begins at the time from which it continues.

Usage: circuits wave MODEL [DISK]
";

/// Prints the wave of the circuit of a model file, from the committed world of a disk, or from the
/// whole simulation.
///
/// Returns, in this order, the faults of the model file (`File`, `BadModel`), those of the disk
/// (`File`, `Log`, `Recovery`) or the plain runner (`World`), and `Output` if the writer refuses.
/// Returns `NoMemory` if an allocation fails. At every fault but `Output` nothing is written.
fn print_wave<R, O>(rt: &R, model: &str, disk: Option<&str>, out: &mut O) -> Result<(), Fault>
where
    R: Files<File = File> + AllocGlobal,
    O: Write,
    ensures ok { OnOk result (Prints IsWave (O.contents out.old) (O.contents out.new)) }
    ensures err { OnErr result ((out.new ≡ out.old)
        ⊎ Begins IsWave (O.contents out.old) (O.contents out.new)) }
{
    let of: Simulated<Circuit> = simulated(rt, ModelFile::at(model))?;
    let text = match disk {
        Some(disk) => committed_wave(rt, &of, disk)?,
        None => whole_wave(rt, &of)?,
    };
    print(text.as_str(), out)
}

/// Returns the wave up to the time committed on a disk. That of a disk which continues from another
/// one begins with the values that its origin gives, at the time from which it continues.
fn committed_wave<R>(rt: &R, of: &Simulated<Circuit>, disk: &str) -> Result<String, Fault>
where
    R: Files<File = File> + AllocGlobal,
    requires some { 1 ≤ of.now.end }
    requires short { of.now.end ≤ 2 ^ 40 }
    ensures { IfOk result (λ text. IsWaveOf of.now.model of.now.end (string_bytes text)) }
{
    let disk = FileDisk::open_to_read(rt, rt.alloc(), disk)?;
    let Returned { disk, outcome } = origin_on(rt.alloc(), &of.model, disk);
    let (origin, from) = match outcome {
        Ok(found) => found,
        Err(fault) => return Err(unread(rt.alloc(), of, disk, fault)),
    };
    match origin {
        None => wave_on(rt.alloc(), of, None, 0, disk),
        Some(origin) => wave_on(rt.alloc(), of, Some(&origin), from, disk),
    }
}

/// Returns the wave up to the time committed on a disk whose simulation begins with this origin,
/// and goes on from this time, in ticks.
fn wave_on(
    alloc: Global,
    of: &Simulated<Circuit>,
    origin: Option<&Origin>,
    from: u64,
    disk: FileDisk,
) -> Result<String, Fault>
    requires some { 1 ≤ of.now.end }
    requires short { of.now.end ≤ 2 ^ 40 }
    requires sound { CanBegin (meaning_of of.now.model).lps (option_map (λ o. o.now) origin) }
    requires begins { IsOriginOn (meaning_of of.now.model).lps disk.reads
        (option_map (λ o. o.now) origin) }
    requires goes_on { IsBegunFrom disk.reads (option_map (λ o. o.now) origin) from }
    ensures { IfOk result (λ text. IsWaveOf of.now.model of.now.end (string_bytes text)) }
{
    let on = Simulated {
        model: Continued::new(&of.model, origin),
        end: of.end,
    };
    let front = match committed(alloc, &on, disk) {
        Ok(front) => front,
        Err(fault) => return Err(of_command(fault)),
    };
    let log = front.log.as_slice();
    Ok(circuit::wave(alloc, &of.model, origin, from, front.g, log)?)
}

/// Returns the fault of a disk whose origin was not read for this cause: what is wrong with the
/// disk itself comes first.
fn unread(alloc: Global, of: &Simulated<Circuit>, disk: FileDisk, fault: RecoveryFault) -> Fault
    requires some { 1 ≤ of.now.end }
    requires short { of.now.end ≤ 2 ^ 40 }
{
    if let Err(first) = committed(alloc, of, disk) {
        return of_command(first);
    }
    match fault {
        RecoveryFault::Log(fault) => Fault::Log(fault),
        fault => Fault::Recovery(fault),
    }
}

/// Returns the wave of a circuit's simulation up to its end.
fn whole_wave<R>(rt: &R, of: &Simulated<Circuit>) -> Result<String, Fault>
where
    R: AllocGlobal,
    requires some { 1 ≤ of.now.end }
    requires short { of.now.end ≤ 2 ^ 40 }
    ensures { IfOk result (λ text. IsWaveOf of.now.model of.now.end (string_bytes text)) }
{
    let parts = whole_world(rt.alloc(), of)?.into_parts();
    let log = parts.log.as_slice();
    Ok(circuit::wave(rt.alloc(), &of.model, None, 0, parts.time, log)?)
}

/// Returns the world at the end of a circuit's simulation, by the plain runner.
fn whole_world(alloc: Global, of: &Simulated<Circuit>) -> Result<World, Fault>
    requires some { 1 ≤ of.now.end }
    requires short { of.now.end ≤ 2 ^ 40 }
    ensures { IfOk result (λ w. IsUpto (meaning_of of.now.model) of.now.end of.now.end w.world) }
{
    let mut world = World::open(alloc, &of.model, of.end)?;
    world.run_to(&of.model, of.end)?;
    Ok(world)
}

/// Writes a text, and flushes the writer.
fn print<O: Write>(text: &str, out: &mut O) -> Result<(), Fault>
    ensures written { Writes (O.contents out.old) (O.contents out.new) result text.now }
    ensures fault { IsOkUnless result Output }
{
    write_text(text, out)?;
    out.flush()?;
    Ok(())
}
