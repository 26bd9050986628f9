// A port at one end of a pair of sockets; the tests read and write the other end.

ghost use Rattle.std.specs.Prelude.{◌≡◌, ◌≤◌, ◌^◌, IfOk, OnOk};
ghost use Rattle.wire.specs.Port.Stage.{Fresh, Idle};

use crate::frames_of_ring::{BELOW_FLOOR, LOAD, PARCEL, REPLY};
use crate::loads::{load, parcel, round};
use frames::{ReadAhead, SocketPort};
use node::{NodeFault, Reply};
use std::alloc::Global;
use std::io::{self, Read, Write};
use std::os::unix::net::UnixStream;
use std::process::Abort;
use std::test::Fail;
use std::time::Duration;
use wire::{Port, PortFault, WireFault};

/// A frame of an unknown kind.
const NO_KIND: &[u8] = &[0, 0, 0, 0, 9];

/// The length of a body of more than 2^24 bytes.
const TOO_LONG: &[u8] = &[1, 0, 0, 1];

/// What `take` returns after the load and the parcel if the other end writes these bytes and
/// closes.
fn answered(rt: HostRuntime, bytes: &[u8]) -> Result<Result<u32, PortFault>, Fail> {
    let (near, mut far) = UnixStream::pair(&rt)?;
    far.write_all(bytes)?;
    let mut port = SocketPort::new(rt.alloc(), near);
    port.load(load(rt.alloc(), 0, 0, &[1])?)?;
    port.post(parcel(Vec::new(rt.alloc()), 16, 1))?;
    // closing an end with unread bytes makes reads at the other end fail
    far.read_exact(&mut [0; 135])?;
    drop(far);
    Ok(port.take().map(|reply| reply.ran))
}

/// Whether these bytes are the next that come.
fn is_sent(alloc: Global, far: &mut UnixStream, bytes: &[u8]) -> Result<bool, Fail> {
    let mut sent = vec![in alloc; 0; bytes.len()]?;
    far.read_exact(sent.as_mut_slice())?;
    Ok(sent.as_slice() == bytes)
}

/// Posts the parcel, reads it at the other end, and takes the reply that is written there.
fn exchange<P: Port>(
    rt: &impl Abort,
    alloc: Global,
    port: &mut P,
    far: &mut UnixStream,
) -> Result<Reply, Fail>
    requires idle { (P.state port.old).stage ≡ Idle }
    ensures { OnOk result ((P.state port.new).stage ≡ Idle) }
{
    port.post(parcel(Vec::new(alloc), 16, 1))?;
    assert!(rt; is_sent(alloc, far, PARCEL)?);
    far.write_all(REPLY)?;
    Ok(port.take()?)
}

/// Loads the node, reads the load at the other end, and exchanges a parcel and its reply.
fn begin<P: Port>(
    rt: &impl Abort,
    alloc: Global,
    port: &mut P,
    far: &mut UnixStream,
) -> Result<Reply, Fail>
    requires fresh { (P.state port.old).stage ≡ Fresh }
    ensures { OnOk result ((P.state port.new).stage ≡ Idle) }
{
    far.set_read_timeout(Some(Duration::from_secs(5)))?;
    port.load(load(alloc, 0, 0, &[1])?)?;
    assert!(rt; is_sent(alloc, far, LOAD)?);
    exchange(rt, alloc, port, far)
}

/// Whether this is the reply of `REPLY`.
fn is_reply(reply: &Reply) -> bool {
    let out = reply.out.as_slice();
    let is_sent = match out.first() {
        Some(sent) => out.len() == 1 && sent.message.time() == 3,
        None => false,
    };
    is_sent && reply.ran == 1 && reply.low.is_none() && reply.fossils.len() == 0
}

#[test]
fn frames_are_sent_before_a_reply_is_taken(rt: HostRuntime) -> Result<(), Fail> {
    let (near, mut far) = UnixStream::pair(&rt)?;
    let mut port = SocketPort::new(rt.alloc(), near);
    let reply = begin(&rt, rt.alloc(), &mut port, &mut far)?;
    assert!(rt; is_reply(&reply));
    let reply = exchange(&rt, rt.alloc(), &mut port, &mut far)?;
    assert_eq!(rt; reply.ran, 1);
    Ok(())
}

#[test]
fn a_reply_is_taken(rt: HostRuntime) -> Result<(), Fail> {
    let answer = answered(rt, REPLY)?;
    assert_eq!(rt; answer, Ok(1));
    Ok(())
}

#[test]
fn a_refusal_of_the_node_is_returned_as_its_own(rt: HostRuntime) -> Result<(), Fail> {
    let answer = answered(rt, BELOW_FLOOR)?;
    assert_eq!(rt; answer, Err(PortFault::Peer(NodeFault::BelowFloor)));
    Ok(())
}

/// Whether these bytes are refused with this fault.
fn is_refused(rt: HostRuntime, bytes: &[u8], fault: WireFault) -> Result<bool, Fail> {
    Ok(answered(rt, bytes)? == Err(PortFault::Wire(fault)))
}

#[test]
fn frames_that_are_no_reply_are_refused(rt: HostRuntime) -> Result<(), Fail> {
    for bytes in [LOAD, PARCEL, NO_KIND] {
        assert!(rt; is_refused(rt, bytes, WireFault::BadKind)?);
    }
    for cut in 1..REPLY.len() {
        let bytes = REPLY.split_at(cut).0;
        assert!(rt; is_refused(rt, bytes, WireFault::Truncated)?, "{cut}");
    }
    assert!(rt; is_refused(rt, TOO_LONG, WireFault::TooLong)?);
    // the body has a byte more, which its length includes
    let body = [[0, 0, 0, 71].as_slice(), REPLY.split_at(4).1, &[0]].concat(rt.alloc())?;
    assert!(rt; is_refused(rt, body.as_slice(), WireFault::BadBody)?);
    Ok(())
}

#[test]
fn a_stream_that_ends_between_frames_is_closed(rt: HostRuntime) -> Result<(), Fail> {
    let answer = answered(rt, &[])?;
    assert_eq!(rt; answer, Err(PortFault::Closed));
    Ok(())
}

#[test]
fn a_load_over_a_closed_stream_fails(rt: HostRuntime) -> Result<(), Fail> {
    let (near, far) = UnixStream::pair(&rt)?;
    let mut port = SocketPort::new(rt.alloc(), near);
    drop(far);
    let loaded = port.load(load(rt.alloc(), 0, 0, &[1])?);
    assert_eq!(rt; loaded, Err(PortFault::Wire(WireFault::Io)));
    Ok(())
}

/// A stream with its bytes in memory, which returns at most the size of a reply per read, and
/// counts its calls.
#[derive(Drop)]
struct Counted<'a> {
    rest: &'a [u8],
    reads: usize,
    written: usize,
}

impl<'a> Read for Counted<'a> {
    fn read(&mut self, buf: &mut [u8]) -> io::Result<usize> {
        self.reads = self.reads.saturating_add(1);
        let count = buf.len().min(REPLY.len()).min(self.rest.len());
        let (front, rest) = self.rest.split_at(count);
        buf[..count].copy_from_slice(front);
        self.rest = rest;
        Ok(count)
    }
}

impl<'a> Write for Counted<'a> {
    fn write(&mut self, buf: &[u8]) -> io::Result<usize> {
        self.written = self.written.saturating_add(buf.len());
        Ok(buf.len())
    }

    fn flush(&mut self) -> io::Result<()> {
        Ok(())
    }
}

/// The events that two rounds ran, and the fault of a third.
fn three_rounds<P: Port>(alloc: Global, port: &mut P) -> Result<([u32; 2], Option<PortFault>), Fail>
    requires fresh { (P.state port.old).stage ≡ Fresh }
{
    port.load(load(alloc, 0, 0, &[1])?)?;
    let one = round(port, alloc, 1)?.ran;
    let two = round(port, alloc, 1)?.ran;
    Ok(([one, two], round(port, alloc, 1).err()))
}

#[test]
fn a_complete_frame_takes_one_read(rt: HostRuntime) -> Result<(), Fail> {
    let replies = [REPLY, REPLY].concat(rt.alloc())?;
    let mut stream = Counted {
        rest: replies.as_slice(),
        reads: 0,
        written: 0,
    };
    let ahead = ReadAhead::new(rt.alloc(), &mut stream)?;
    let mut port = SocketPort::new(rt.alloc(), ahead);
    let rounds = three_rounds(rt.alloc(), &mut port)?;
    assert_eq!(rt; rounds, ([1, 1], Some(PortFault::Closed)));
    drop(port);
    assert_eq!(rt; (stream.reads, stream.written), (3, 177));
    Ok(())
}

#[test]
fn writes_through_a_read_ahead_stream_are_sent_at_once(rt: HostRuntime) -> Result<(), Fail> {
    let (near, mut far) = UnixStream::pair(&rt)?;
    let mut port = SocketPort::new(rt.alloc(), ReadAhead::new(rt.alloc(), near)?);
    let reply = begin(&rt, rt.alloc(), &mut port, &mut far)?;
    assert_eq!(rt; reply.ran, 1);
    Ok(())
}
