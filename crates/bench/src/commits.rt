// Records that are appended to the log of a disk over a file. If the file does not exist, it is
// made with this number of sectors and an empty log. `benchmarks/commits` times this, and
// `tools/kill-writers` kills it.

use crate::failure::Failure;
use commitlog::{Log, LogFault, format};
use disk::{FileDisk, NotOpened};

/// Opens the log of the file, which is made if it does not exist.
fn open(rt: &HostRuntime, path: &str, sectors: u32) -> Result<Log<FileDisk>, Failure> {
    let mut disk = FileDisk::open(rt, rt.alloc(), path, Some(sectors)).map_err(Failure::File)?;
    match format(&mut disk, &[7; 512]) {
        Ok(()) | Err(LogFault::NotBlank) => {}
        Err(fault) => return Err(Failure::Log(fault)),
    }
    match Log::open(rt.alloc(), disk) {
        Ok(log) => Ok(log),
        Err(NotOpened { fault, disk: _ }) => Err(Failure::Log(fault)),
    }
}

/// Appends a record and prints its number. Each byte of its body is the lowest byte of its number
/// in the log.
fn append(rt: &HostRuntime, log: &mut Log<FileDisk>, bytes: u32) -> Result<(), Failure> {
    let number = log.len();
    let body = vec![in rt.alloc(); (number % 256) as u8; bytes as usize]?;
    log.append(1, body.as_slice()).map_err(Failure::Log)?;
    println!(rt; "{number}").map_err(Failure::Output)
}

/// Appends this many records of this many bytes, and prints the number of each one once the append
/// has succeeded.
pub fn append_all(
    rt: &HostRuntime,
    path: &str,
    sectors: u32,
    bytes: u32,
    count: u32,
) -> Result<(), Failure> {
    let mut log = open(rt, path, sectors)?;
    for _ in 0..count {
        append(rt, &mut log, bytes)?;
    }
    Ok(())
}
