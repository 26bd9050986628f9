// Migrates a disk of format 1 to a new disk of the current format.

ghost use Rattle.std.specs.Prelude.{◌≡◌, ◌≢◌, ◌<◌, ℕ, [], Err, IfErr, IfOk, OnOk, false, length};
ghost use Rattle.runs.specs.Migrating.{IsBlankOrUnderWay, IsMadeFor, IsOfMigration};
ghost use Rattle.runs.specs.Migrating.{LogIsNotMade, MigratingIsRefused, OldIsRefused};
ghost use Rattle.runs.specs.Migrating.{PrintsMigrated};
ghost use Rattle.runs.specs.declared.commands.fault.CommandFault.TheVariants.{Output};
ghost use Rattle.commitlog.specs.Records.{Holds, IsBlank, IsFormatted};
ghost use Rattle.recovery.specs.Crashes.{KeepsRecovery};
ghost use Rattle.recovery.specs.Represents.{Recovers};
ghost use Rattle.disk.specs.Disk.{IsSynced, LeavesOnly, OnlyLooks};
ghost use Rattle.eventkey.specs.Writing.{TakesBeginning};
ghost use Rattle.upkeep.specs.Migrated.{IsPartlyMigrated, Leaves, MigrationIsRefused};
ghost use Rattle.upkeep.specs.Old.{IsOldLog};
ghost use Rattle.model.specs.Meaning.{Meaning};
ghost use Rattle.commitlog.specs.Calls.{OnlyReads};
ghost use Rattle.std.specs.Io.KnownBytes.{Appends};

use crate::commands::CommandFault;
use crate::commands::on_disks::Simulated;
use crate::commands::printing::write_migrated;
use commitlog::{Log, format};
use disk::{NotOpened, Returned, SectorDisk};
use model::Model as Modelled;
use recovery::{RecoveryFault, header};
use std::alloc::Global;
use std::io::Write;
use upkeep::migration::{MigrateFault, old_end_of, old_header_end};

/// Opens the log of a disk of format 1 on which the end of this simulation is in force. Only reads
/// the disk.
///
/// Returns, in this order, `Log` if the log is not opened, `Migrate(Old(..))` if
/// `upkeep::migration::old_end_of` refuses, and `Migrate(Old(OtherModel))` if another end is in force.
pub fn old_log<M: Modelled, D: SectorDisk + Drop>(
    alloc: Global,
    of: &Simulated<M>,
    disk: D,
) -> Result<Log<D>, CommandFault>
    ensures old { IfOk result
        (λ log. IsOldLog (M.meaning of.now.model) of.now.end log.header log.records) }
    ensures held { IfOk result (λ log. Holds log.header log.records (D.state disk).reads) }
    ensures usable { IfOk result (λ log. log.spent ≡ false) }
    ensures looks { IfOk result (λ log. OnlyLooks (D.state disk) (D.state log.disk)) }
    ensures refused { IfErr result (λ fault.
        OldIsRefused (M.meaning of.now.model) of.now.end fault (D.state disk).reads) }
    ensures silent { result ≢ Err Output }
{
    let mut log = match Log::open(alloc, disk) {
        Ok(log) => log,
        Err(NotOpened { fault, disk: _ }) => return Err(CommandFault::Log(fault)),
    };
    match old_end_of(alloc, &of.model, &mut log) {
        Ok(end) => {
            if end != of.end {
                return Err(CommandFault::Migrate(MigrateFault::Old(RecoveryFault::OtherModel)));
            }
            Ok(log)
        }
        Err(fault) => Err(CommandFault::Migrate(MigrateFault::Old(fault))),
    }
}

/// Migrates a disk of format 1 to a disk without a log.
///
/// Makes a log there, whose header has the end of the old header, and appends the widened records
/// of the old log. Writes `migrated G events N`: the time of the front that they represent, and the
/// number of events of its log. The old disk is only read, and the new one is returned.
///
/// Returns, in this order, `Migrate(Old(OtherModel))` if sector 1 of the old log is not the header
/// of this model in format 1, `Log` if the new log is not made or not opened, `Migrate` if
/// `upkeep::migration::migrate` refuses, but never `NotEmpty`, and `Output` if the writer refuses; all is
/// then migrated. At every fault but `Output` nothing is written to the writer.
pub fn migrate<M: Modelled, D: SectorDisk, E: SectorDisk + Drop, O: Write>(
    alloc: Global,
    of: &Simulated<M>,
    old: &mut Log<D>,
    disk: E,
    out: &mut O,
) -> Returned<E, (), CommandFault>
    // The new disk has all widened records of the old one, and so has each image that a crash
    // leaves.
    ensures printed { OnOk result.outcome (PrintsMigrated (M.meaning of.now.model) old.old.header
        old.old.records (E.state result.disk) (Appends (O.contents out.old) (O.contents out.new))) }
    ensures output { result.outcome ≡ Err Output → PrintsMigrated (M.meaning of.now.model)
        old.old.header old.old.records (E.state result.disk)
        (TakesBeginning (O.contents out.old) (O.contents out.new)) }
    ensures unwritten { (fault : CommandFault) → result.outcome ≡ Err fault → fault ≢ Output →
        out.new ≡ out.old }

    // On a new disk without a log, a crash at any moment of the call leaves none, or the first of
    // the widened records, which represent a world.
    ensures any_moment { IsSynced (E.state disk).dirty → IsBlank (E.state disk).reads →
        LeavesOnly (E.state disk) (E.state result.disk)
        (IsBlankOrUnderWay (M.meaning of.now.model) old.old.header old.old.records) }
    // What the new disk represented before, of any model, it represents at each moment of the call
    // and after it, at every exit.
    ensures crashes { (m : Meaning) (end a : ℕ) → Recovers m end a (E.state disk) →
        KeepsRecovery m end a a (E.state disk) (E.state result.disk) }

    // The old disk is only read.
    ensures reads { OnlyReads D.state old.old old.new }

    ensures refused { IfErr result.outcome (λ fault. MigratingIsRefused (M.meaning of.now.model)
        old.old
        (E.state disk).reads (length (E.state result.disk).reads) fault
        ((D.state old.old.disk).failures < (D.state old.new.disk).failures)
        ((E.state disk).failures < (E.state result.disk).failures)) }
{
    let mut new = match made_log(alloc, of, old, disk) {
        Ok(new) => new,
        Err(NotOpened { fault, disk }) => {
            return Returned {
                disk,
                outcome: Err(fault),
            };
        }
    };
    let outcome = carry_over(alloc, &of.model, old, &mut new, out);
    Returned {
        disk: new.into_disk(),
        outcome,
    }
}

/// Makes a log without records on a disk, whose header has the end of an old header, and opens it.
fn made_log<M: Modelled, D: SectorDisk, E: SectorDisk>(
    alloc: Global,
    of: &Simulated<M>,
    old: &Log<D>,
    disk: E,
) -> Result<Log<E>, NotOpened<E, CommandFault>>
    ensures made { IfOk result
        (λ log. IsMadeFor (M.meaning of.now.model) E.state old.now.header log) }
    ensures blank { IfOk result (λ log. IsBlank (E.state disk).reads) }
    ensures no_failure { IfOk result
        (λ log. (E.state log.disk).failures ≡ (E.state disk).failures) }

    // A disk with a log is only read; on another, a crash leaves no log or the empty one.
    ensures looks_err { IfErr result (λ e. IsFormatted (E.state disk).reads →
        OnlyLooks (E.state disk) (E.state e.disk)) }
    ensures any_moment { IfOk result (λ log. IsSynced (E.state disk).dirty →
        IsBlank (E.state disk).reads → LeavesOnly (E.state disk) (E.state log.disk)
        (IsBlankOrUnderWay (M.meaning of.now.model) old.now.header old.now.records)) }
    ensures any_moment_err { IfErr result (λ e. IsSynced (E.state disk).dirty →
        IsBlank (E.state disk).reads → LeavesOnly (E.state disk) (E.state e.disk)
        (IsBlankOrUnderWay (M.meaning of.now.model) old.now.header old.now.records)) }

    ensures refused { IfErr result (λ e. LogIsNotMade (M.meaning of.now.model) old.now.header
        (E.state disk).reads e.fault ((E.state disk).failures < (E.state e.disk).failures)) }
{
    let mut disk = disk;
    let end = match old_header_end(alloc, &of.model, old) {
        Ok(end) => end,
        Err(fault) => {
            let fault = CommandFault::Migrate(MigrateFault::Old(fault));
            return Err(NotOpened { fault, disk });
        }
    };
    let sector = header(alloc, &of.model, end);
    match format(&mut disk, &sector) {
        Ok(()) => {}
        Err(fault) => {
            let fault = CommandFault::Log(fault);
            return Err(NotOpened { fault, disk });
        }
    }
    match Log::open(alloc, disk) {
        Ok(log) => Ok(log),
        Err(NotOpened { fault, disk }) => Err(NotOpened {
            fault: CommandFault::Log(fault),
            disk,
        }),
    }
}

/// Appends the records of an old log to a new one, and writes the time and the number of events of
/// the migrated front.
fn carry_over<M: Modelled, D: SectorDisk, E: SectorDisk, O: Write>(
    alloc: Global,
    model: &M,
    old: &mut Log<D>,
    new: &mut Log<E>,
    out: &mut O,
) -> Result<(), CommandFault>
    requires empty { Leaves new.old.header [] (E.state new.old.disk) }
    ensures printed { OnOk result (PrintsMigrated (M.meaning model.now) old.old.header
        old.old.records (E.state new.new.disk) (Appends (O.contents out.old) (O.contents out.new))) }
    ensures output { result ≡ Err Output → PrintsMigrated (M.meaning model.now) old.old.header
        old.old.records (E.state new.new.disk)
        (TakesBeginning (O.contents out.old) (O.contents out.new)) }
    ensures unwritten { (fault : CommandFault) → result ≡ Err fault → fault ≢ Output →
        out.new ≡ out.old }
    ensures any_moment { LeavesOnly (E.state new.old.disk) (E.state new.new.disk)
        (IsPartlyMigrated (M.meaning model.now) old.old.records new.old.header) }
    ensures reads { OnlyReads D.state old.old old.new }
    ensures refused { IfErr result (λ fault. fault ≢ Output → IsOfMigration fault
        (λ outcome. MigrationIsRefused (M.meaning model.now) old.old new.old
        new.new.records (length (E.state new.new.disk).reads) outcome
        ((D.state old.old.disk).failures < (D.state old.new.disk).failures)
        ((E.state new.old.disk).failures < (E.state new.new.disk).failures))) }
{
    match upkeep::migration::migrate(alloc, model, old, new) {
        Ok(front) => write_migrated(front.g, front.log.as_slice().len(), out),
        Err(fault) => Err(CommandFault::Migrate(fault)),
    }
}
