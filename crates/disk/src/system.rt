// The errors of the system.

use std::fmt;
use std::io::{Error as IoError, ErrorKind};

/// The number of an error that a system call returned. Its text is the system's.
#[derive(Clone, Copy, Debug, PartialEq, Eq)]
pub struct SystemError(i32);

impl SystemError {
    /// Returns the system's error, or none if this error is not the system's.
    pub fn of(error: &IoError) -> Option<SystemError> {
        match error.raw_os_error() {
            Some(number) => Some(SystemError(number)),
            None => None,
        }
    }

    /// Returns the kind of the error.
    pub fn kind(self) -> ErrorKind {
        IoError::from_raw_os_error(self.0).kind()
    }
}

impl fmt::Display for SystemError {
    fn fmt<W: fmt::Write>(&self, f: &mut fmt::Formatter<W>) -> fmt::Result {
        let error = IoError::from_raw_os_error(self.0);
        write!(f, "{error}")
    }
}
