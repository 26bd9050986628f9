use super::*;

/// Whether the recovery of a log of these commits and a record of an unknown kind has this fault.
fn has_fault(alloc: Global, commits: &[Commit], fault: RecoveryFault) -> Result<bool, Fail> {
    let mut log = log_of(alloc, commits)?;
    log.append(9, &[])?;
    Ok(fault_in(alloc, log)? == Some(fault))
}

#[test]
fn the_first_record_at_fault_gives_the_fault(rt: HostRuntime) -> Result<(), Fail> {
    let alloc = rt.alloc();
    assert!(rt;
        has_fault(
            alloc,
            &[(7, 0, 3), (6, 0, 0), (2, 0, 0)],
            RecoveryFault::GoesBack
        )?
    );
    assert!(rt; has_fault(alloc, &[(2, 0, 0), (1, 0, 0)], RecoveryFault::NotTheLeast)?);
    assert!(rt; has_fault(alloc, &[(1, 0, 0), (7, 0, 3)], RecoveryFault::BadRecord)?);
    Ok(())
}

fn is_named(alloc: Global, fault: RecoveryFault, name: &str) -> Result<bool, AllocError> {
    Ok(format!(in alloc; "{fault}")?.as_str() == name)
}

fn are_named(alloc: Global) -> Result<bool, AllocError> {
    let device = LogFault::Disk(DiskFault::Device);
    Ok(
        is_named(
            alloc,
            RecoveryFault::from(WorldFault::NumberLimit),
            "NumberLimit",
        )? && is_named(alloc, RecoveryFault::from(WorldFault::NoMemory), "NoMemory")?
            && is_named(alloc, RecoveryFault::from(AllocError), "NoMemory")?
            && is_named(
                alloc,
                RecoveryFault::from(LogFault::NoMemory),
                "Log NoMemory",
            )?
            && is_named(alloc, RecoveryFault::from(device), "Log Disk Device")?,
    )
}

#[test]
fn a_fault_of_a_lower_crate_keeps_its_name(rt: HostRuntime) -> Result<(), Fail> {
    assert!(rt; are_named(rt.alloc())?);
    Ok(())
}
