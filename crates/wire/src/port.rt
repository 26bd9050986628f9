// The interface of a port: what code above it may rely on.

ghost use Rattle.std.specs.Prelude.{◌≡◌, ◌≤◌, ◌^◌, true, IfErr, IfOk, OnErr, OnOk};
ghost use Rattle.node.specs.declared.Parcel.{Parcel};
ghost use Rattle.wire.specs.Port.{IsLoadFault, IsLoadInRange, IsLoaded, IsResourceFault, IsSamePort};
ghost use Rattle.wire.specs.Port.{IsTakeFault, IsTaken, PortState};
ghost use Rattle.wire.specs.Port.Stage.{Ended, Fresh, Idle, Posted};

use node::{Load, NodeFault, Parcel, Reply};
use std::alloc::{AllocError, AllocFailed};
use thiserror::Error;

/// Why bytes are not a frame, or why a frame is not sent.
#[derive(Clone, Copy, Debug, PartialEq, Eq, Error)]
pub enum WireFault {
    /// The input ended within a frame.
    #[error("Truncated")]
    Truncated,
    /// A body has more than 2^24 bytes.
    #[error("TooLong")]
    TooLong,
    /// The kind is none of the four, or not allowed at this point of the stream.
    #[error("BadKind")]
    BadKind,
    /// The body is not an encoding of its kind.
    #[error("BadBody")]
    BadBody,
    /// The reader or the writer failed.
    #[error("Io")]
    Io,
    /// An allocation failed.
    #[error("NoMemory")]
    NoMemory,
}

impl From<AllocError> for WireFault {
    ghost use Rattle.wire.specs.declared.port.WireFault.TheVariants.{NoMemory};

    ghost from_gives = { λ _ e. e ≡ NoMemory };

    fn from(_refused: AllocError) -> WireFault {
        WireFault::NoMemory
    }
}

impl<T: Drop> From<AllocFailed<T>> for WireFault {
    ghost use Rattle.wire.specs.declared.port.WireFault.TheVariants.{NoMemory};

    ghost from_gives = { λ _ e. e ≡ NoMemory };

    fn from(_refused: AllocFailed<T>) -> WireFault {
        WireFault::NoMemory
    }
}

impl From<std::io::Error> for WireFault {
    ghost use Rattle.wire.specs.declared.port.WireFault.TheVariants.{Io};

    ghost from_gives = { λ _ e. e ≡ Io };

    fn from(_error: std::io::Error) -> WireFault {
        WireFault::Io
    }
}

/// Why a port refuses a call.
#[derive(Clone, Copy, Debug, PartialEq, Eq, Error)]
pub enum PortFault {
    /// A frame could not be read or written.
    #[error("Wire {0}")]
    Wire(WireFault),
    /// The node returned this fault.
    #[error("Peer {0}")]
    Peer(NodeFault),
    /// The connection to the node has ended.
    #[error("Closed")]
    Closed,
    /// The reply names a process that does not exist, or reports a record of another node's
    /// process.
    #[error("BadReply")]
    BadReply,
}

/// The way to one node. `load` comes first and once; then `post` and `take` alternate.
pub trait Port {
    /// Its stage, whether it is faithful (`faithful`), which resource faults its calls can have
    /// (`resource_faults`), the model of its node, and the node.
    ghost state: { Self → PortState };

    /// Makes the node from a load.
    fn load(&mut self, load: Load) -> Result<(), PortFault>
        requires fresh { (state self.old).stage ≡ Fresh }
        requires range { IsLoadInRange load }
        ensures idle { OnOk result ((state self.new).stage ≡ Idle) }
        ensures ended { OnErr result ((state self.new).stage ≡ Ended) }
        ensures same { IsSamePort (state self.old) (state self.new) }
        ensures ok { (state self.old).faithful ≡ true →
            OnOk result (IsLoaded load (state self.old) (state self.new)) }
        ensures err { (state self.old).faithful ≡ true →
            IfErr result (λ fault. IsLoadFault load (state self.old) fault) };

    /// Posts the node a parcel.
    fn post(&mut self, parcel: Parcel) -> Result<(), PortFault>
        requires idle { (state self.old).stage ≡ Idle }
        requires range { parcel.floor ≤ 2 ^ 40 }
        ensures posted { OnOk result ((state self.new).stage ≡ Posted parcel) }
        ensures ended { OnErr result ((state self.new).stage ≡ Ended) }
        ensures same { IsSamePort (state self.old) (state self.new) }
        ensures ok { (state self.old).faithful ≡ true →
            OnOk result ((state self.new).node ≡ (state self.old).node) }
        ensures err { (state self.old).faithful ≡ true → IfErr result
            (λ fault. IsResourceFault (state self.old) fault) };

    /// Returns the reply to the parcel. A faithful port returns what its node computes.
    fn take(&mut self) -> Result<Reply, PortFault>
        requires posted { (parcel : Parcel) × ((state self.old).stage ≡ Posted parcel) }
        ensures idle { OnOk result ((state self.new).stage ≡ Idle) }
        ensures ended { OnErr result ((state self.new).stage ≡ Ended) }
        ensures same { IsSamePort (state self.old) (state self.new) }
        ensures ok { (parcel : Parcel) → (state self.old).stage ≡ Posted parcel →
            (state self.old).faithful ≡ true →
            IfOk result (λ reply. IsTaken parcel (state self.old) (state self.new) reply) }
        ensures err { (parcel : Parcel) → (state self.old).stage ≡ Posted parcel →
            (state self.old).faithful ≡ true →
            IfErr result (λ fault. IsTakeFault parcel (state self.old) fault) };
}
