// What was last noted of the connections to node programs: when one is lost, which; what the system
// says when one is not made; and how the simulations of a run and a node differ.

use crate::fault::{NodesFault, unreadable};
use crate::simulation::{Apart, Simulation};
use disk::SystemError;
use frames::ReadAhead;
use std::cell::Cell;
use std::io::{self, Error as IoError, ErrorKind, Read, Write};
use std::os::unix::net::UnixStream;
use terminal::Unmet;

/// How a call on the connection of a node program ended.
#[derive(Clone, Copy, Debug, PartialEq, Eq)]
pub enum CallEnd {
    /// Bytes were read or written.
    Done,
    /// The other end has closed the connection.
    Closed,
    /// Nothing could be read or written for longer than the run waits.
    Silent,
    /// The connection failed.
    Failed,
}

/// A call on the connection of a node program.
#[derive(Clone, Copy, Debug, PartialEq, Eq)]
pub struct Call {
    /// The node's number.
    pub node: usize,
    /// How the call ended.
    pub end: CallEnd,
}

/// Keeps the last call on the connections of a run. A session makes no call after a port has
/// failed, so after such a fault this is the call on the connection of the node that was lost. Keeps
/// too what the system says when no connection is made, and in which simulations a run and a node
/// take part if these differ.
#[derive(Drop)]
pub struct Calls {
    last: Cell<Option<Call>>,
    unmet: Cell<Option<Unmet>>,
    apart: Cell<Option<Apart>>,
}

impl Calls {
    /// Without a call.
    pub fn none() -> Calls {
        Calls {
            last: Cell::new(None),
            unmet: Cell::new(None),
            apart: Cell::new(None),
        }
    }

    /// The last call, if there was one.
    pub fn last(&self) -> Option<Call> {
        self.last.get()
    }

    /// What the system says, if a call failed with which nodes or a run are met.
    pub fn unmet(&self) -> Option<Unmet> {
        self.unmet.get()
    }

    /// In which simulations the run and a node take part, if these differ.
    pub fn apart(&self) -> Option<Apart> {
        self.apart.get()
    }

    /// Notes that a node takes part in another simulation than its run.
    pub(crate) fn note_apart(&self, run: Simulation, node: Simulation) {
        self.apart.set(Some(Apart { run, node }));
    }

    fn note(&self, node: usize, end: CallEnd) {
        self.last.set(Some(Call { node, end }));
    }

    /// Notes the error of a call on a socket, and returns the fault for it.
    pub(crate) fn no_socket(&self, error: IoError) -> NodesFault {
        self.unmet.set(SystemError::of(&error).map(Unmet::Socket));
        unreadable(error)
    }

    /// Notes why a node program does not start, and returns the fault for it.
    pub(crate) fn no_program(&self, error: IoError) -> NodesFault {
        self.unmet.set(SystemError::of(&error).map(Unmet::Program));
        unreadable(error)
    }
}

/// The connection of a node program, which notes each call on it.
#[derive(Drop)]
pub struct NodeStream<'c> {
    node: usize,
    calls: &'c Calls,
    stream: ReadAhead<UnixStream>,
}

impl<'c> NodeStream<'c> {
    /// The connection of this node.
    pub(crate) fn new(
        node: usize,
        calls: &'c Calls,
        stream: ReadAhead<UnixStream>,
    ) -> NodeStream<'c> {
        NodeStream {
            node,
            calls,
            stream,
        }
    }
}

impl Read for NodeStream<'_> {
    fn read(&mut self, buf: &mut [u8]) -> io::Result<usize> {
        let is_asked = !buf.is_empty();
        let result = self.stream.read(buf);
        let end = match &result {
            Ok(0) if is_asked => CallEnd::Closed,
            Ok(_) => CallEnd::Done,
            Err(error) => end_of(error),
        };
        self.calls.note(self.node, end);
        result
    }
}

impl Write for NodeStream<'_> {
    fn write(&mut self, buf: &[u8]) -> io::Result<usize> {
        let result = self.stream.write(buf);
        let end = match &result {
            Ok(_) => CallEnd::Done,
            Err(error) => end_of(error),
        };
        self.calls.note(self.node, end);
        result
    }

    fn flush(&mut self) -> io::Result<()> {
        self.stream.flush()
    }
}

/// How a call with this error ended. `WouldBlock` is the error of a call that has waited too long.
fn end_of(error: &IoError) -> CallEnd {
    match error.kind() {
        ErrorKind::WouldBlock | ErrorKind::TimedOut => CallEnd::Silent,
        ErrorKind::BrokenPipe | ErrorKind::ConnectionReset => CallEnd::Closed,
        _ => CallEnd::Failed,
    }
}
