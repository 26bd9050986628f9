// The memory that node programs keep from the system.

use std::alloc::AllocError;
use std::fs::{self, File};
use std::process::Command;
use std::rt::Files;

/// The variable of the environment by which a user sets up the C library.
const TUNABLES: &str = "GLIBC_TUNABLES";

/// Up to 64 MiB that a program has freed stay with it, and blocks of up to 32 MiB are taken from
/// there. A node frees in each turn what it takes again in the next one.
const KEEPING: &str = "glibc.malloc.trim_threshold=67108864:glibc.malloc.mmap_threshold=33554432";

/// Lets a program that is started keep the pages that it has freed, unless the user has set up the
/// C library in another way.
pub(crate) fn keep_pages<R>(rt: &R, command: &mut Command) -> Result<(), AllocError>
where
    R: Files<File = File> + AllocGlobal,
{
    if !has_tunables(rt) {
        command.env(TUNABLES, KEEPING)?;
    }
    Ok(())
}

/// Whether this program was started with the variable. If the system does not say, it counts as set.
fn has_tunables<R>(rt: &R) -> bool
where
    R: Files<File = File> + AllocGlobal,
{
    let Ok(environment) = fs::read_to_string(rt, "/proc/self/environ") else {
        return true;
    };
    for entry in environment.as_str().split('\0') {
        if let Some((name, _)) = entry.split_once('=') {
            if name == TUNABLES {
                return true;
            }
        }
    }
    false
}
