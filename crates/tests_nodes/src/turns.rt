// A peer that sends the next parcel only after the reply to the one before, as a session does. A
// loop that kept its replies back, or read ahead, would wait for ever.

ghost use Rattle.std.specs.Prelude.{◌≤◌, IfOk, length};

use crate::frames_of_ring::{RUN_0, RUN_1, RUN_2, Run};
use crate::in_memory::{MANY, serve_ring};
use std::alloc::Global;
use std::cell::Cell;
use std::io::{self, Error, ErrorKind, Read, Write};
use wire::WireFault;

/// The side that writes a piece of the talk.
#[derive(Clone, Copy, PartialEq)]
enum Side {
    Session,
    Node,
}

/// The pieces of a node's run in the order in which they go over its stream.
fn talk_of(run: &Run) -> [(Side, &'static [u8]); 7] {
    let [load, first, second, third] = run.frames;
    let [to_first, to_second, to_third] = run.replies;
    [
        (Side::Session, load),
        (Side::Session, first),
        (Side::Node, to_first),
        (Side::Session, second),
        (Side::Node, to_second),
        (Side::Session, third),
        (Side::Node, to_third),
    ]
}

/// The peer behind both the reader and the writer. It sends and expects the pieces of its talk in
/// order.
#[derive(Drop)]
struct Peer<'a> {
    talk: &'a [(Side, &'static [u8])],
    piece: Cell<usize>,
    done: Cell<usize>,
}

impl<'a> Peer<'a> {
    /// At most `most` of the next bytes, if it is this side's turn; none at the end.
    fn next(&self, side: Side, most: usize) -> io::Result<&'static [u8]>
        ensures { IfOk result (λ bytes. length bytes.now ≤ most) }
    {
        let Some((turn, bytes)) = self.talk.get(self.piece.get()) else {
            return Ok(&[]);
        };
        if *turn != side {
            return Err(Error::from(ErrorKind::WouldBlock));
        }
        let rest = bytes.get(self.done.get()..).unwrap_or(&[]);
        let next = rest.split_at(rest.len().min(most)).0;
        if next.len() == rest.len() {
            self.piece.set(self.piece.get().saturating_add(1));
            self.done.set(0);
        } else {
            self.done.set(self.done.get().saturating_add(next.len()));
        }
        Ok(next)
    }
}

/// The reader of the node.
#[derive(Drop)]
struct Incoming<'p, 'a>(&'p Peer<'a>);

impl<'p, 'a> Read for Incoming<'p, 'a> {
    fn read(&mut self, buf: &mut [u8]) -> io::Result<usize> {
        let bytes = self.0.next(Side::Session, buf.len().min(7))?;
        buf[..bytes.len()].copy_from_slice(bytes);
        Ok(bytes.len())
    }
}

/// The writer of the node.
#[derive(Drop)]
struct Outgoing<'p, 'a>(&'p Peer<'a>);

impl<'p, 'a> Write for Outgoing<'p, 'a> {
    fn write(&mut self, buf: &[u8]) -> io::Result<usize> {
        let bytes = self.0.next(Side::Node, buf.len().min(10))?;
        if &buf[..bytes.len()] != bytes {
            return Err(Error::from(ErrorKind::InvalidData));
        }
        Ok(bytes.len())
    }

    fn flush(&mut self) -> io::Result<()> {
        Ok(())
    }
}

/// Serves a node to its peer. Returns the result, and whether the talk reached its end.
fn serve_peer(alloc: Global, talk: &[(Side, &'static [u8])]) -> (Result<u64, WireFault>, bool) {
    let peer = Peer {
        talk,
        piece: Cell::new(0),
        done: Cell::new(0),
    };
    let mut reader = Incoming(&peer);
    let mut writer = Outgoing(&peer);
    let answer = serve_ring(alloc, &mut reader, &mut writer, MANY);
    (answer, peer.piece.get() == talk.len())
}

#[test]
fn each_reply_is_written_before_the_next_parcel_is_read(rt: HostRuntime) {
    for run in [&RUN_0, &RUN_1, &RUN_2] {
        let talk = talk_of(run);
        assert_eq!(rt; serve_peer(rt.alloc(), &talk), (Ok(3), true));
    }
}
