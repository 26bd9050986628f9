// A port to a node in this program.

ghost use Rattle.node.specs.declared.Parcel.{Parcel};
ghost use Rattle.std.specs.Prelude.{◌≡◌, ◌≤◌, ◌^◌, true, IfErr, IfOk, IsOk, OnErr, OnOk};
ghost use Rattle.wire.specs.Local.{IsLoadCause, IsTakeCause, state_by, state_of};
ghost use Rattle.wire.specs.Port.{IsResourceFault, IsLoadFault, IsLoadInRange, IsLoaded, IsSamePort};
ghost use Rattle.wire.specs.Port.{IsTakeFault, IsTaken};
ghost use Rattle.wire.specs.Port.Stage.{Ended as AtEnd, Fresh as AtFirst};
ghost use Rattle.wire.specs.Port.Stage.{Idle as AtRest, Posted as AtWork};
ghost use Rattle.wire.specs.declared.local.Held.TheVariants.{Fresh};

use crate::port::{Port, PortFault};
use model::Model as Simulated;
use node::{Load, Node, Parcel, Reply};
use std::alloc::Global;
use std::marker::Model;

/// The node of a port, once one is loaded, and the parcel that it has yet to handle.
#[derive(Drop)]
enum Held {
    Fresh,
    Idle(Node),
    Posted(Node, Parcel),
    Ended,
}

/// A node in this program. It handles a parcel when it is asked for the reply.
pub struct LocalPort<'m, M: Simulated> {
    alloc: Global,
    model: &'m M,
    held: Held,
}

// Not derived, since each caller that drops a port would then prove again how its parts are
// dropped.
impl<M: Simulated> Drop for LocalPort<'_, M> {
    fn drop(self) {
        let LocalPort {
            alloc: _,
            model: _,
            held: _,
        } = self;
    }
}

impl<'m, M: Simulated> Model for LocalPort<'m, M> {
    ghost use Rattle.wire.specs.Local.{Local};

    ghost Value = { Local M };

    ghost use Rattle.wire.specs.Local.{IsOfModel};

    ghost view = { λ p. record { model = p.model.now; held = p.held } };

    ghost invariant = { λ p. IsOfModel (M.meaning p.model.now) p.held };
}

impl<'m, M: Simulated> LocalPort<'m, M> {
    /// A port to a node that runs this model. Nothing is loaded yet.
    pub fn new(alloc: Global, model: &'m M) -> LocalPort<'m, M>
        ensures { result ≡ record { model = model.now; held = Fresh } }
    {
        LocalPort {
            alloc,
            model,
            held: Held::Fresh,
        }
    }
}

impl<'m, M: Simulated> Port for LocalPort<'m, M> {
    ghost state = { λ p. state_of (M.meaning p.model) p.held };

    fn load(&mut self, load: Load) -> Result<(), PortFault>
        requires fresh { (state_by M.meaning self.old).stage ≡ AtFirst }
        requires range { IsLoadInRange load }
        ensures idle { OnOk result ((state_by M.meaning self.new).stage ≡ AtRest) }
        ensures ended { OnErr result ((state_by M.meaning self.new).stage ≡ AtEnd) }
        ensures same { IsSamePort (state_by M.meaning self.old) (state_by M.meaning self.new) }
        ensures ok { (state_by M.meaning self.old).faithful ≡ true →
            OnOk result (IsLoaded load (state_by M.meaning self.old) (state_by M.meaning self.new)) }
        ensures err { (state_by M.meaning self.old).faithful ≡ true →
            IfErr result (λ fault. IsLoadFault load (state_by M.meaning self.old) fault) }

        // The only causes: the node refuses the load, or an allocation failed.
        ensures cause { IfErr result (IsLoadCause (M.meaning self.old.model).lps load) }
    {
        match Node::load(self.alloc, self.model, load) {
            Ok(node) => {
                self.held = Held::Idle(node);
                Ok(())
            }
            Err(fault) => {
                self.held = Held::Ended;
                Err(PortFault::Peer(fault))
            }
        }
    }

    fn post(&mut self, parcel: Parcel) -> Result<(), PortFault>
        requires idle { (state_by M.meaning self.old).stage ≡ AtRest }
        requires range { parcel.floor ≤ 2 ^ 40 }
        ensures posted { OnOk result ((state_by M.meaning self.new).stage ≡ AtWork parcel) }
        ensures ended { OnErr result ((state_by M.meaning self.new).stage ≡ AtEnd) }
        ensures same { IsSamePort (state_by M.meaning self.old) (state_by M.meaning self.new) }
        ensures ok { (state_by M.meaning self.old).faithful ≡ true →
            OnOk result ((state_by M.meaning self.new).node ≡ (state_by M.meaning self.old).node) }
        ensures err { (state_by M.meaning self.old).faithful ≡ true →
            IfErr result (λ fault. IsResourceFault (state_by M.meaning self.old) fault) }

        // A parcel is never refused.
        ensures always { IsOk result }
    {
        let Held::Idle(node) = std::mem::replace(&mut self.held, Held::Ended) else {
            return Err(PortFault::Closed);
        };
        self.held = Held::Posted(node, parcel);
        Ok(())
    }

    fn take(&mut self) -> Result<Reply, PortFault>
        requires posted { (parcel : Parcel) × ((state_by M.meaning self.old).stage
            ≡ AtWork parcel) }
        ensures idle { OnOk result ((state_by M.meaning self.new).stage ≡ AtRest) }
        ensures ended { OnErr result ((state_by M.meaning self.new).stage ≡ AtEnd) }
        ensures same { IsSamePort (state_by M.meaning self.old) (state_by M.meaning self.new) }
        ensures ok { (parcel : Parcel) →
            (state_by M.meaning self.old).stage ≡ AtWork parcel →
            (state_by M.meaning self.old).faithful ≡ true → IfOk result (λ reply.
            IsTaken parcel (state_by M.meaning self.old) (state_by M.meaning self.new) reply) }
        ensures err { (parcel : Parcel) →
            (state_by M.meaning self.old).stage ≡ AtWork parcel →
            (state_by M.meaning self.old).faithful ≡ true →
            IfErr result (λ fault. IsTakeFault parcel (state_by M.meaning self.old) fault) }

        // The only causes: the node refuses the parcel or meets a limit, or an allocation failed.
        ensures cause { (parcel : Parcel) →
            (state_by M.meaning self.old).stage ≡ AtWork parcel → IfErr result
            (IsTakeCause (M.meaning self.old.model) (state_by M.meaning self.old).node parcel) }
    {
        let Held::Posted(node, parcel) = std::mem::replace(&mut self.held, Held::Ended) else {
            return Err(PortFault::Closed);
        };
        let mut node = node;
        match node.handle(self.model, parcel) {
            Ok(reply) => {
                self.held = Held::Idle(node);
                Ok(reply)
            }
            Err(fault) => Err(PortFault::Peer(fault)),
        }
    }
}
