// The cause of a command's fault, in more words than its name.

use crate::fault::Fault;
use disk::SystemError;
use std::cell::Cell;
use terminal::FileRefusal;

/// Keeps the system's error behind the fault of a command, if a system call on the disk that it
/// writes has failed, and why the command refused a file. Cells, so that the contracts of the commands
/// do not see them.
#[derive(Drop)]
pub struct SystemErrors {
    last: Cell<Option<SystemError>>,
    refusal: Cell<Option<FileRefusal>>,
}

impl SystemErrors {
    /// Without an error.
    pub fn none() -> SystemErrors {
        SystemErrors {
            last: Cell::new(None),
            refusal: Cell::new(None),
        }
    }

    /// The error that was noted last, if there is one.
    pub fn last(&self) -> Option<SystemError> {
        self.last.get()
    }

    /// Notes an error, if there is one.
    pub fn note(&self, error: Option<SystemError>) {
        if error.is_some() {
            self.last.set(error);
        }
    }

    /// Why a file was refused, if one was.
    pub fn refusal(&self) -> Option<FileRefusal> {
        self.refusal.get()
    }

    /// Notes why a file is refused, and returns the fault.
    pub fn refuse(&self, refusal: FileRefusal) -> Fault {
        self.refusal.set(Some(refusal));
        Fault::File
    }
}
