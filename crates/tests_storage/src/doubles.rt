// A double of a file, which records its calls, and may write only a part of what it gets.
use std::cell::Cell;
use std::fs::{File, Metadata, OpenFile};
use std::io;
use std::io::ErrorKind;
use std::os::unix::fs::FileExt;

/// A call of a file.
#[derive(Clone, Copy, PartialEq, Eq)]
pub(crate) enum Call {
    Nothing,
    Write(u64, usize),
    SetLen(u64),
    SyncAll,
    SyncData,
}

/// A file that records its calls. From call number `fail` on each call fails, as if the program had
/// ended.
#[derive(Drop)]
pub(crate) struct Calls {
    /// Where the bytes go, at most this number per call.
    file: Option<(File, usize)>,
    fail: u64,
    count: Cell<u64>,
    calls: Cell<[Call; 6]>,
}

impl Calls {
    pub(crate) fn new(fail: u64, file: Option<(File, usize)>) -> Calls {
        Calls {
            file,
            fail,
            count: Cell::new(0),
            calls: Cell::new([Call::Nothing; 6]),
        }
    }

    /// Whether the calls were the first of these, up to the one that failed, and no other.
    pub(crate) fn were(&self, calls: &[Call]) -> bool {
        let noted = self.calls.get();
        let mut succeeded: u64 = 0;
        for (call, there) in calls.iter().zip(noted) {
            if succeeded < self.fail {
                if *call != there {
                    return false;
                }
                succeeded += 1;
            }
        }
        let failed = u64::from(succeeded < calls.len() as u64);
        self.count.get() == succeeded + failed
    }

    fn next(&self, call: Call) -> io::Result<()> {
        let count = self.count.get();
        self.count.set(count.saturating_add(1));
        if count >= self.fail {
            return Err(io::Error::from(ErrorKind::Other));
        }
        let mut calls = self.calls.get();
        if count < 6 {
            calls[count as usize] = call;
        }
        self.calls.set(calls);
        Ok(())
    }
}

impl FileExt for Calls {
    fn read_at(&self, _buf: &mut [u8], _offset: u64) -> io::Result<usize> {
        Err(io::Error::from(ErrorKind::Unsupported))
    }

    fn write_at(&self, buf: &[u8], offset: u64) -> io::Result<usize> {
        self.next(Call::Write(offset, buf.len()))?;
        match &self.file {
            None => Ok(buf.len()),
            Some((file, most)) => file.write_at(&buf[..buf.len().min(*most)], offset),
        }
    }
}

impl OpenFile for Calls {
    fn metadata(&self) -> io::Result<Metadata> {
        Err(io::Error::from(ErrorKind::Unsupported))
    }

    fn set_len(&self, size: u64) -> io::Result<()> {
        self.next(Call::SetLen(size))
    }

    fn sync_all(&self) -> io::Result<()> {
        self.next(Call::SyncAll)
    }

    fn sync_data(&self) -> io::Result<()> {
        self.next(Call::SyncData)?;
        match &self.file {
            None => Ok(()),
            Some((file, _)) => file.sync_data(),
        }
    }
}
