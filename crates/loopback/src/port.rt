// A port to a node behind bytes in memory.

ghost use Rattle.std.specs.Prelude.{◌≡◌, true, IfErr, IfOk, OnErr, OnOk, length, ◌≤◌, ◌^◌};
ghost use Rattle.frames.specs.Bodies.{load_bytes, parcel_bytes, reply_bytes, most_body_bytes};
ghost use Rattle.loopback.specs.Passing.{IsLoadCause, IsPostCause, IsTakeCause};
ghost use Rattle.node.specs.declared.Parcel.{Parcel};
ghost use Rattle.wire.specs.Port.{IsResourceFault, IsLoadFault, IsLoadInRange, IsLoaded, IsSamePort};
ghost use Rattle.wire.specs.Port.{IsTakeFault, IsTaken};
ghost use Rattle.wire.specs.Port.Stage.{Ended as AtEnd, Fresh as AtFirst};
ghost use Rattle.wire.specs.Port.Stage.{Idle as AtRest, Posted as AtWork};
ghost use Rattle.loopback.specs.Loop.{state_by, state_of};
ghost use Rattle.loopback.specs.declared.port.Held.TheVariants.{Fresh};

use crate::sending::{handled, loaded};
use eventkey::Listed;
use frames::encode_parcel;
use model::Model as Simulated;
use node::{Load, Node, Parcel, Reply};
use std::alloc::Global;
use std::marker::Model;
use wire::{Port, PortFault};

/// The node of a port, if there is one, and the frame of the parcel that it has not handled yet.
#[derive(Drop)]
enum Held {
    Fresh,
    Idle(Node),
    Posted(Node, Listed<u8>),
    Ended,
}

/// A node behind bytes in memory: a load, a parcel, a reply and a refusal pass as the frames that a
/// stream to another program would carry. The node handles a parcel when its reply is taken.
///
/// A call fails if a body has more than 2^24 bytes (`Wire(TooLong)`), if an allocation for a frame
/// fails (`Wire(NoMemory)`), or if the node refuses (`Peer`), and for no other reason: bytes in
/// memory do not fail. After a fault the port has ended.
pub struct LoopPort<'m, M: Simulated> {
    alloc: Global,
    model: &'m M,
    held: Held,
}

// Not derived: with a derived `Drop`, each caller that drops a port would have to prove again how
// its fields are dropped.
impl<M: Simulated> Drop for LoopPort<'_, M> {
    fn drop(self) {
        let LoopPort {
            alloc: _,
            model: _,
            held: _,
        } = self;
    }
}

impl<'m, M: Simulated> Model for LoopPort<'m, M> {
    ghost use Rattle.loopback.specs.Loop.{Loop};

    ghost Value = { Loop M };

    ghost use Rattle.loopback.specs.Loop.{IsOfModel};

    ghost view = { λ p. record { model = p.model.now; held = p.held } };

    ghost invariant = { λ p. IsOfModel (M.meaning p.model.now) p.held };
}

impl<'m, M: Simulated> LoopPort<'m, M> {
    /// Returns a port to a node that runs this model. Nothing is loaded yet. Does not allocate.
    pub fn new(alloc: Global, model: &'m M) -> LoopPort<'m, M>
        ensures { result ≡ record { model = model.now; held = Fresh } }
    {
        LoopPort {
            alloc,
            model,
            held: Held::Fresh,
        }
    }
}

impl<'m, M: Simulated> Port for LoopPort<'m, M> {
    ghost state = { λ p. state_of (M.meaning p.model) p.held };

    fn load(&mut self, load: Load) -> Result<(), PortFault>
        requires fresh { (state_by M.meaning self.old).stage ≡ AtFirst }
        requires range { IsLoadInRange load }
        ensures idle { OnOk result ((state_by M.meaning self.new).stage ≡ AtRest) }
        ensures ended { OnErr result ((state_by M.meaning self.new).stage ≡ AtEnd) }
        ensures same { IsSamePort (state_by M.meaning self.old) (state_by M.meaning self.new) }
        ensures ok { (state_by M.meaning self.old).faithful ≡ true →
            OnOk result (IsLoaded load (state_by M.meaning self.old) (state_by M.meaning self.new)) }
        ensures err { (state_by M.meaning self.old).faithful ≡ true →
            IfErr result (λ fault. IsLoadFault load (state_by M.meaning self.old) fault) }

        // `TooLong` comes only if the body is too long, and `Ok` only if it is not. The other
        // causes are the node's refusal and a failed allocation.
        ensures fits { OnOk result (length (load_bytes load) ≤ most_body_bytes) }
        ensures cause { IfErr result (IsLoadCause (M.meaning self.old.model).lps load) }
    {
        match loaded(self.alloc, self.model, &load) {
            Ok(node) => {
                self.held = Held::Idle(node);
                Ok(())
            }
            Err(fault) => {
                self.held = Held::Ended;
                Err(fault)
            }
        }
    }

    fn post(&mut self, parcel: Parcel) -> Result<(), PortFault>
        requires idle { (state_by M.meaning self.old).stage ≡ AtRest }
        requires range { parcel.floor ≤ 2 ^ 40 }
        ensures posted { OnOk result ((state_by M.meaning self.new).stage ≡ AtWork parcel) }
        ensures ended { OnErr result ((state_by M.meaning self.new).stage ≡ AtEnd) }
        ensures same { IsSamePort (state_by M.meaning self.old) (state_by M.meaning self.new) }
        ensures ok { (state_by M.meaning self.old).faithful ≡ true →
            OnOk result ((state_by M.meaning self.new).node ≡ (state_by M.meaning self.old).node) }
        ensures err { (state_by M.meaning self.old).faithful ≡ true →
            IfErr result (λ fault. IsResourceFault (state_by M.meaning self.old) fault) }

        // `TooLong` comes only if the body is too long, and `Ok` only if it is not. The other cause
        // is a failed allocation.
        ensures fits { OnOk result (length (parcel_bytes parcel) ≤ most_body_bytes) }
        ensures cause { IfErr result (IsPostCause parcel) }
    {
        let Held::Idle(node) = std::mem::replace(&mut self.held, Held::Ended) else {
            return Err(PortFault::Closed);
        };
        match encode_parcel(self.alloc, &parcel) {
            Ok(frame) => {
                self.held = Held::Posted(node, Listed::from_vec(frame));
                Ok(())
            }
            Err(fault) => Err(PortFault::Wire(fault)),
        }
    }

    fn take(&mut self) -> Result<Reply, PortFault>
        requires posted { (parcel : Parcel) × ((state_by M.meaning self.old).stage
            ≡ AtWork parcel) }
        ensures idle { OnOk result ((state_by M.meaning self.new).stage ≡ AtRest) }
        ensures ended { OnErr result ((state_by M.meaning self.new).stage ≡ AtEnd) }
        ensures same { IsSamePort (state_by M.meaning self.old) (state_by M.meaning self.new) }
        ensures ok { (parcel : Parcel) →
            (state_by M.meaning self.old).stage ≡ AtWork parcel →
            (state_by M.meaning self.old).faithful ≡ true → IfOk result (λ reply.
            IsTaken parcel (state_by M.meaning self.old) (state_by M.meaning self.new) reply) }
        ensures err { (parcel : Parcel) →
            (state_by M.meaning self.old).stage ≡ AtWork parcel →
            (state_by M.meaning self.old).faithful ≡ true →
            IfErr result (λ fault. IsTakeFault parcel (state_by M.meaning self.old) fault) }

        // `TooLong` comes only if the reply's body is too long, and `Ok` only if it is not. The
        // other causes are the node's refusal and a failed allocation.
        ensures fits { IfOk result (λ reply. length (reply_bytes reply) ≤ most_body_bytes) }
        ensures cause { (parcel : Parcel) →
            (state_by M.meaning self.old).stage ≡ AtWork parcel → IfErr result
            (IsTakeCause (M.meaning self.old.model) (state_by M.meaning self.old).node parcel) }
    {
        let Held::Posted(node, parcel) = std::mem::replace(&mut self.held, Held::Ended) else {
            return Err(PortFault::Closed);
        };
        let mut node = node;
        let reply = handled(self.alloc, self.model, &mut node, parcel.as_slice())?;
        self.held = Held::Idle(node);
        Ok(reply)
    }
}
