use super::*;
use upkeep::migration::{MigrateFault, migrate};

/// The place of the lowest byte of the format's number in a header.
const FORMAT_PLACE: usize = 11;

/// A log of format 1 without records.
fn old_log(alloc: Global) -> Result<Log<MemDisk>, LogFault> {
    let mut sector = header(alloc, &ring(), END);
    sector[FORMAT_PLACE] = 1;
    log_under(alloc, &sector)
}

/// Whether a fault is an allocation failure, of any layer.
fn is_of_memory(fault: &MigrateFault) -> bool {
    match fault {
        MigrateFault::NotEmpty => false,
        MigrateFault::Old(fault) => super::is_of_memory(fault),
        MigrateFault::New(fault) => *fault == LogFault::NoMemory,
    }
}

/// The fault of the migration of an old log without records to this log, which must not change it.
/// An allocation failure ends the test.
fn fault_on(alloc: Global, new: Log<MemDisk>) -> Result<Option<MigrateFault>, Fail> {
    let disk = new.into_disk();
    let before = disk.crash(alloc, Torn::New)?;
    let mut new = open(alloc, disk)?;
    let fault = migrate(alloc, &ring(), &mut old_log(alloc)?, &mut new).err();
    let after = new.into_disk().crash(alloc, Torn::New)?;
    if after.as_slice() != before.as_slice() {
        return Err(Fail::new("the new disk has changed"));
    }
    match fault {
        Some(fault) if is_of_memory(&fault) => Err(Fail::from(fault)),
        other => Ok(other),
    }
}

/// Whether the migration to a log without records under this header is refused.
fn is_refused(alloc: Global, sector: &[u8; 512]) -> Result<bool, Fail> {
    Ok(fault_on(alloc, log_under(alloc, sector)?)? == Some(MigrateFault::NotEmpty))
}

#[test]
fn an_old_disk_is_migrated_only_to_an_empty_log_of_its_model(rt: HostRuntime) -> Result<(), Fail> {
    let alloc = rt.alloc();
    assert!(rt; fault_on(alloc, log_of(alloc, &[])?)?.is_none());
    assert!(rt; fault_on(alloc, log_of_all(alloc)?)? == Some(MigrateFault::NotEmpty));
    assert!(rt; is_refused(alloc, &header(alloc, &ring(), END + 1))?);
    assert!(rt; is_refused(alloc, &header(alloc, &TokenRing::new(3, 2, 2), END))?);
    Ok(())
}
