// Who may write in the folder of the sockets.

use std::fs::{self, File};
use std::os::unix::fs::PermissionsExt;
use std::rt::Files;

/// Whether the mode of this folder lets every user make files in it, and so put a socket in the place
/// of a node's.
pub fn is_open_to_all<R: Files<File = File>>(rt: &R, folder: &str) -> bool {
    match fs::metadata(rt, folder) {
        Ok(metadata) => metadata.is_dir() && lets_all_write(metadata.permissions().mode()),
        Err(_) => false,
    }
}

/// Whether a folder of this mode lets every user make files in it. That takes the right to search it
/// too.
fn lets_all_write(mode: u32) -> bool {
    mode & 0o003 == 0o003
}
