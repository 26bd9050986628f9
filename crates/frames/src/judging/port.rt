// A port that judges what its node reports.

ghost use Rattle.std.specs.Prelude.{◌≡◌, ◌≤◌, ◌<◌, ◌^◌, IfErr, IfOk, OnErr, OnOk, Some};
ghost use Rattle.std.specs.Prelude.{true};
ghost use Rattle.frames.specs.Judged.{IsJudgedLoad, IsPassed, TakeHasCause, new_judge, state_by};
ghost use Rattle.node.specs.declared.Parcel.{Parcel};
ghost use Rattle.wire.specs.Port.{IsLoadFault, IsLoadInRange, IsLoaded, IsResourceFault, IsSamePort};
ghost use Rattle.wire.specs.Port.{IsTakeFault, IsTaken};
ghost use Rattle.wire.specs.Port.Stage.{Ended, Fresh, Idle, Posted};

use crate::judging::differences::{Differences, ReportDifference};
use crate::judging::known::{Known, judge_all, known_of};
use model::Model as Simulated;
use node::{Load, Parcel, Reply};
use std::alloc::Global;
use std::marker::Model;
use wire::{Port, PortFault, WireFault};

/// A port that compares what its node reports with a model: the first report of each process after
/// a load, and then one in `every` of the reports of each process. A node that runs another model,
/// or that is at fault, is found out by the first judged report that differs, before the reply
/// reaches a session. With `every` 0 it judges nothing.
///
/// A report is judged by the state and the send number of the process after its report before, so
/// that reports which are not judged are taken as they are. Where `every` is 1, all are judged.
///
/// A call fails as it does at the port below. In addition `take` fails with `BadReply` if a report
/// differs from the model, names no process of the node, or has numbers out of their ranges; and
/// `load` with `Wire(NoMemory)` if an allocation failed. After any failure the port has ended. After
/// a `BadReply` of its own it knows the event of the first report that is not accepted: `refused`.
///
/// It holds one state for each process of the node. A judged report costs one handling, any other
/// one a copy of its state words.
pub struct Judged<'m, M: Simulated, P: Port> {
    alloc: Global,
    model: &'m M,
    port: P,
    every: u32,
    nodes: u32,
    known: Vec<Known>,
    ended: bool,
    refused: Option<ReportDifference>,
    differences: Option<&'m Differences>,
}

// Not derived, since each caller that drops a port would then prove again how its parts are
// dropped.
impl<M: Simulated, P: Port + Drop> Drop for Judged<'_, M, P> {
    fn drop(self) {
        let Judged {
            alloc: _,
            model: _,
            port: _,
            every: _,
            nodes: _,
            known: _,
            ended: _,
            refused: _,
            differences: _,
        } = self;
    }
}

impl<'m, M: Simulated, P: Port> Model for Judged<'m, M, P> {
    ghost use Rattle.std.specs.Prelude.{◌<◌};
    ghost use Rattle.frames.specs.Judged.{Judged};

    ghost Value = { Judged M P };

    ghost view = { λ j. record {
      model = j.model.now;
      port = j.port;
      every = j.every;
      nodes = j.nodes;
      known = j.known.items;
      ended = j.ended;
      refused = j.refused;
    } };

    ghost invariant = { λ j. 0 < j.nodes };
}

impl<'m, M: Simulated, P: Port> Judged<'m, M, P> {
    /// A port that judges by this model what the node behind `port` reports, one report in `every`
    /// of each process, or none if `every` is 0. It allocates nothing.
    pub fn new(alloc: Global, model: &'m M, port: P, every: u32) -> Judged<'m, M, P>
        ensures { result ≡ new_judge model.now every port }
    {
        Judged {
            alloc,
            model,
            port,
            every,
            nodes: 1,
            known: Vec::new(alloc),
            ended: false,
            refused: None,
            differences: None,
        }
    }

    /// This port, which then also notes there the event of the report that it refuses.
    pub(crate) fn noting(self, differences: Option<&'m Differences>) -> Judged<'m, M, P>
        ensures { result ≡ self.entry }
    {
        let mut noting = self;
        noting.differences = differences;
        noting
    }

    /// The event of the report that this port refused, if it refused one.
    pub fn refused(&self) -> Option<ReportDifference>
        ensures { result ≡ self.now.refused }
    {
        self.refused
    }

    /// Ends this port, which refuses the report of this event, and notes the event where the ports
    /// of a run share a note.
    fn refuse(&mut self, event: ReportDifference)
        ensures { self.new ≡ record self.old { ended = true; refused = Some event } }
    {
        self.ended = true;
        self.refused = Some(event);
        if let Some(differences) = self.differences {
            differences.note(event);
        }
    }
}

impl<'m, M: Simulated, P: Port> Port for Judged<'m, M, P> {
    ghost state = { λ j. state_by P.state j };

    fn load(&mut self, load: Load) -> Result<(), PortFault>
        requires fresh { (state_by P.state self.old).stage ≡ Fresh }
        requires range { IsLoadInRange load }
        ensures idle { OnOk result ((state_by P.state self.new).stage ≡ Idle) }
        ensures ended { OnErr result ((state_by P.state self.new).stage ≡ Ended) }
        ensures same { IsSamePort (state_by P.state self.old) (state_by P.state self.new) }
        ensures ok { (state_by P.state self.old).faithful ≡ true →
            OnOk result (IsLoaded load (state_by P.state self.old) (state_by P.state self.new)) }
        ensures err { (state_by P.state self.old).faithful ≡ true →
            IfErr result (λ fault. IsLoadFault load (state_by P.state self.old) fault) }

        // The port below is loaded with this load, and the judge knows its processes. A fault is that
        // of the port below, or an allocation of the judge failed.
        ensures loaded { OnOk result (IsJudgedLoad P.state load self.old self.new) }
        ensures refused { (P.state self.old.port).faithful ≡ true →
            IfErr result (λ fault. IsLoadFault load (state_by P.state self.old) fault) }
        ensures same_event { self.new.refused ≡ self.old.refused }
    {
        let (every, nodes) = (self.every, load.nodes);
        match known_of(self.alloc, every, load.parts.as_slice()) {
            Ok(known) => {
                self.nodes = nodes;
                self.known = known;
                self.port.load(load)
            }
            Err(_) => {
                self.ended = true;
                Err(PortFault::Wire(WireFault::NoMemory))
            }
        }
    }

    fn post(&mut self, parcel: Parcel) -> Result<(), PortFault>
        requires idle { (state_by P.state self.old).stage ≡ Idle }
        requires range { parcel.floor ≤ 2 ^ 40 }
        ensures posted { OnOk result ((state_by P.state self.new).stage ≡ Posted parcel) }
        ensures ended { OnErr result ((state_by P.state self.new).stage ≡ Ended) }
        ensures same { IsSamePort (state_by P.state self.old) (state_by P.state self.new) }
        ensures ok { (state_by P.state self.old).faithful ≡ true →
            OnOk result ((state_by P.state self.new).node ≡ (state_by P.state self.old).node) }
        ensures err { (state_by P.state self.old).faithful ≡ true →
            IfErr result (λ fault. IsResourceFault (state_by P.state self.old) fault) }

        // The parcel is posted through the port below, and nothing else changes.
        ensures below { (P.state self.old.port).faithful ≡ true →
            OnOk result ((P.state self.new.port).node ≡ (P.state self.old.port).node) }
        ensures refused { (P.state self.old.port).faithful ≡ true →
            IfErr result (λ fault. IsResourceFault (P.state self.old.port) fault) }
        ensures unchanged { self.new ≡ record self.old { port = self.new.port } }
    {
        self.port.post(parcel)
    }

    fn take(&mut self) -> Result<Reply, PortFault>
        requires posted { (parcel : Parcel) × ((state_by P.state self.old).stage ≡ Posted parcel) }
        ensures idle { OnOk result ((state_by P.state self.new).stage ≡ Idle) }
        ensures ended { OnErr result ((state_by P.state self.new).stage ≡ Ended) }
        ensures same { IsSamePort (state_by P.state self.old) (state_by P.state self.new) }
        ensures ok { (parcel : Parcel) → (state_by P.state self.old).stage ≡ Posted parcel →
            (state_by P.state self.old).faithful ≡ true → IfOk result (λ reply.
            IsTaken parcel (state_by P.state self.old) (state_by P.state self.new) reply) }
        ensures err { (parcel : Parcel) → (state_by P.state self.old).stage ≡ Posted parcel →
            (state_by P.state self.old).faithful ≡ true →
            IfErr result (λ fault. IsTakeFault parcel (state_by P.state self.old) fault) }

        // The reply is that of the port below, and each judged report is what the model does.
        ensures passed { IfOk result (λ reply. IsPassed M.meaning P.state self.old self.new reply) }
        // A fault is that of the port below, which has then ended, or a reply is refused.
        ensures refused { IfErr result (λ fault.
            TakeHasCause M.meaning P.state self.old self.new fault) }
    {
        let reply = self.port.take()?;
        if self.every == 0 {
            return Ok(reply);
        }
        let reports = &reply.fossils;
        let judged = judge_all(self.model, self.every, self.nodes, &mut self.known, reports);
        match judged {
            Ok(()) => Ok(reply),
            Err(event) => {
                self.refuse(event);
                Err(PortFault::BadReply)
            }
        }
    }
}
