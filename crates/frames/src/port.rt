// A port to a node behind a stream to another program.

ghost use Rattle.std.specs.Io.KnownBytes.{Appends};
ghost use Rattle.std.specs.Prelude.{◌≡◌, ◌≤◌, ◌^◌, true, IfErr, IfOk, OnErr, OnOk, length};
ghost use Rattle.frames.specs.Bodies.{frame_bytes, load_bytes, parcel_bytes, most_body_bytes};
ghost use Rattle.frames.specs.Streams.{OnBytes};
ghost use Rattle.frames.specs.declared.Frame.TheVariants as frame;
ghost use Rattle.node.specs.declared.Parcel.{Parcel};
ghost use Rattle.frames.specs.Socket.{IsSendCause, IsTakenFrom, state_of};
ghost use Rattle.frames.specs.declared.port.Held.TheVariants.{Fresh};
ghost use Rattle.wire.specs.Port.{IsResourceFault, IsLoadFault, IsLoadInRange, IsLoaded, IsSamePort};
ghost use Rattle.wire.specs.Port.{IsTakeFault, IsTaken};
ghost use Rattle.wire.specs.Port.Stage.{Ended as AtEnd, Fresh as AtFirst};
ghost use Rattle.wire.specs.Port.Stage.{Idle as AtRest, Posted as AtWork};

use crate::{Frame, encode_load, encode_parcel, read_frame, write_all};
use node::{Load, Parcel, Reply};
use std::alloc::Global;
use std::io::{Read, Write};
use std::marker::Model;
use std::snapshot::Snapshot;
use wire::{Port, PortFault, WireFault};

/// The stage of a port. Only contracts see the parcel that was posted.
#[derive(Drop)]
enum Held {
    Fresh,
    Idle,
    Posted(Snapshot<Parcel>),
    Ended,
}

/// A port to a node behind a stream to another program, such as a `UnixStream`. Nothing is known of that program, and it may send any frame, so the port is
/// not faithful, and a session over it promises safety alone.
///
/// `load` and `post` write their whole frame before they return `Ok`, and do not flush the stream.
/// A stream that buffers writes must flush by its own means, or both ends wait forever. A call
/// blocks for as long as the stream's reads and writes do.
///
/// Each call fails with `Wire(TooLong)` if the frame's body has more than 2^24 bytes, with
/// `Wire(NoMemory)` if an allocation failed, and with `Wire(Io)` if the stream failed. `take` also
/// fails with `Peer`, which carries the node's own fault; with `Wire(BadKind)`, `Wire(BadBody)` or
/// `Wire(Truncated)` if the stream does not continue with a reply; and with `Closed` if it ends
/// between two frames. After any failure the port has ended.
pub struct SocketPort<S: Read + Write> {
    alloc: Global,
    stream: S,
    held: Held,
}

impl<S: Read + Write + Drop> Drop for SocketPort<S> {
    fn drop(self) {
        let SocketPort {
            alloc: _,
            stream: _,
            held: _,
        } = self;
    }
}

impl<S: Read + Write> Model for SocketPort<S> {
    ghost use Rattle.frames.specs.Socket.{Socket};

    ghost Value = { Socket S };

    ghost view = { λ p. record { stream = p.stream; held = p.held } };
}

impl<S: Read + Write> SocketPort<S> {
    /// A port to the program at the other end of this stream. Nothing is loaded yet. It allocates
    /// nothing.
    pub fn new(alloc: Global, stream: S) -> SocketPort<S>
        ensures { result ≡ record { stream = stream; held = Fresh } }
    {
        SocketPort {
            alloc,
            stream,
            held: Held::Fresh,
        }
    }
}

impl<S: Read + Write> Port for SocketPort<S> {
    ghost state = { λ p. state_of p.held };

    fn load(&mut self, load: Load) -> Result<(), PortFault>
        requires fresh { (state_of self.old.held).stage ≡ AtFirst }
        requires range { IsLoadInRange load }
        ensures idle { OnOk result ((state_of self.new.held).stage ≡ AtRest) }
        ensures ended { OnErr result ((state_of self.new.held).stage ≡ AtEnd) }
        ensures same { IsSamePort (state_of self.old.held) (state_of self.new.held) }
        ensures ok { (state_of self.old.held).faithful ≡ true →
            OnOk result (IsLoaded load (state_of self.old.held) (state_of self.new.held)) }
        ensures err { (state_of self.old.held).faithful ≡ true →
            IfErr result (λ fault. IsLoadFault load (state_of self.old.held) fault) }
        ensures written { OnOk result (Appends (S.contents self.old.stream)
            (S.contents self.new.stream) (frame_bytes (frame.Load load))) }
        ensures fits { OnOk result (length (load_bytes load) ≤ most_body_bytes) }
        ensures cause { IfErr result (IsSendCause (length (load_bytes load))) }
    {
        self.held = Held::Ended;
        match encode_load(self.alloc, &load) {
            Ok(frame) => match write_all(frame.as_slice(), &mut self.stream) {
                Ok(()) => {
                    self.held = Held::Idle;
                    Ok(())
                }
                Err(_) => Err(PortFault::Wire(WireFault::Io)),
            },
            Err(fault) => Err(PortFault::Wire(fault)),
        }
    }

    fn post(&mut self, parcel: Parcel) -> Result<(), PortFault>
        requires idle { (state_of self.old.held).stage ≡ AtRest }
        requires range { parcel.floor ≤ 2 ^ 40 }
        ensures posted { OnOk result ((state_of self.new.held).stage ≡ AtWork parcel) }
        ensures ended { OnErr result ((state_of self.new.held).stage ≡ AtEnd) }
        ensures same { IsSamePort (state_of self.old.held) (state_of self.new.held) }
        ensures ok { (state_of self.old.held).faithful ≡ true →
            OnOk result ((state_of self.new.held).node ≡ (state_of self.old.held).node) }
        ensures err { (state_of self.old.held).faithful ≡ true →
            IfErr result (λ fault. IsResourceFault (state_of self.old.held) fault) }
        ensures written { OnOk result (Appends (S.contents self.old.stream)
            (S.contents self.new.stream) (frame_bytes (frame.Parcel parcel))) }
        ensures fits { OnOk result (length (parcel_bytes parcel) ≤ most_body_bytes) }
        ensures cause { IfErr result (IsSendCause (length (parcel_bytes parcel))) }
    {
        self.held = Held::Ended;
        match encode_parcel(self.alloc, &parcel) {
            Ok(frame) => match write_all(frame.as_slice(), &mut self.stream) {
                Ok(()) => {
                    self.held = Held::Posted(Snapshot::of(&parcel));
                    Ok(())
                }
                Err(_) => Err(PortFault::Wire(WireFault::Io)),
            },
            Err(fault) => Err(PortFault::Wire(fault)),
        }
    }

    fn take(&mut self) -> Result<Reply, PortFault>
        requires posted { (parcel : Parcel) × ((state_of self.old.held).stage ≡ AtWork parcel) }
        ensures idle { OnOk result ((state_of self.new.held).stage ≡ AtRest) }
        ensures ended { OnErr result ((state_of self.new.held).stage ≡ AtEnd) }
        ensures same { IsSamePort (state_of self.old.held) (state_of self.new.held) }
        ensures ok { (parcel : Parcel) →
            (state_of self.old.held).stage ≡ AtWork parcel →
            (state_of self.old.held).faithful ≡ true → IfOk result (λ reply.
            IsTaken parcel (state_of self.old.held) (state_of self.new.held) reply) }
        ensures err { (parcel : Parcel) →
            (state_of self.old.held).stage ≡ AtWork parcel →
            (state_of self.old.held).faithful ≡ true →
            IfErr result (λ fault. IsTakeFault parcel (state_of self.old.held) fault) }
        ensures known { OnBytes (S.remaining self.old.stream) (S.remaining self.new.stream)
            (IsTakenFrom result) }
    {
        self.held = Held::Ended;
        match read_frame(self.alloc, &mut self.stream) {
            Ok(Some(Frame::Reply(reply))) => {
                self.held = Held::Idle;
                Ok(reply)
            }
            Ok(Some(Frame::Fault(fault))) => Err(PortFault::Peer(fault)),
            Ok(Some(Frame::Load(_))) => Err(PortFault::Wire(WireFault::BadKind)),
            Ok(Some(Frame::Parcel(_))) => Err(PortFault::Wire(WireFault::BadKind)),
            Ok(None) => Err(PortFault::Closed),
            Err(fault) => Err(PortFault::Wire(fault)),
        }
    }
}
