// The processes of a node, with their summaries.

ghost use Rattle.std.specs.Prelude.{◌≡◌, ◌≤◌, ◌<◌, ◌+◌, ◌++◌, ◌⊎◌, ℕ, Option, Some, None, Err, []};
ghost use Rattle.std.specs.Prelude.{IsOk, OnOk, OnErr, IfOk, IfErr, MatchOption, get_or, length};
ghost use Rattle.std.specs.Prelude.{set, true, false};
ghost use Rattle.std.specs.List.{AllByRecursion as Every};
ghost use Rattle.model.specs.Meaning.{Meaning};
ghost use Rattle.process.specs.Process.{fossils_of, has_room, nobody, release};
ghost use Rattle.process.specs.View.{IsDoneInRange};
ghost use Rattle.node.specs.Handling.{IsReplyInRange, after, first_fault, is_own};
ghost use Rattle.node.specs.Node.{deliver_here, deliver_one_here, here, reply_of, run_here};
ghost use Rattle.node.specs.Node.{run_one_here, start};
ghost use Rattle.node.specs.Roster.{Fails, IsModelled, IsReady, IsStaffed, IsWorked, at_floor};
ghost use Rattle.node.specs.Roster.{node_of_roster, place_of, processes_of, work_of};
ghost use Rattle.node.specs.Tournament.{least_among};
ghost use Rattle.node.specs.declared.NodeFault.TheVariants.{NoMemory, NumberLimit};

use crate::summary::Summary;
use crate::tournament::Tournament;
use crate::{NodeFault, Parcel, Reply};
use eventkey::{Listed, Message, Signed};
use model::Model as Simulated;
use process::{Process, Reports};
use std::alloc::Global;

/// The processes of one node, process lp at place lp / `nodes`, and the tournament of their
/// summaries.
#[derive(Drop)]
pub(crate) struct Roster {
    pub alloc: Global,
    pub node: u32,
    pub nodes: u32,
    pub lps: u32,
    pub end: u64,
    pub floor: u64,
    pub processes: Vec<Process>,
    pub summaries: Tournament,
}

impl Roster {
    /// Returns whether process `lp` is one of the node's.
    pub(crate) fn is_own(&self, lp: u32) -> bool
        requires { self.now.node < self.now.nodes }
        ensures { result ≡ is_own (node_of_roster false self.now) lp }
    {
        lp % self.nodes == self.node && lp < self.lps
    }

    /// Returns why the first delivery at fault is refused, if there is one.
    pub(crate) fn first_fault(&self, deliveries: &[Signed]) -> Option<NodeFault>
        requires { self.now.node < self.now.nodes }
        ensures { result ≡ first_fault (node_of_roster false self.now) deliveries.now }
    {
        for delivery in deliveries {
            if !self.is_own(delivery.message.to()) {
                return Some(NodeFault::NotMine);
            }
            if delivery.message.time() < self.floor {
                return Some(NodeFault::BelowFloor);
            }
        }
        None
    }

    /// Delivers a message or an antimessage to its process.
    pub(crate) fn deliver(
        &mut self,
        delivery: &Signed,
        out: &mut Vec<Signed>,
    ) -> Result<(), NodeFault>
        requires ready { IsReady self.old }
        requires own { is_own (node_of_roster false self.old) delivery.now.message.to ≡ true }
        requires late { self.old.floor ≤ delivery.now.message.time }
        ensures ready { OnOk result (IsReady self.new) }
        ensures modelled { (m : Meaning) → Every (IsModelled m) self.old.processes.items
            → OnOk result (Every (IsModelled m) self.new.processes.items) }
        ensures place { place_of self.new ≡ place_of self.old }
        ensures work { (ran : ℕ) → OnOk result (work_of self.new out.new.items ran
            ≡ deliver_one_here self.old.nodes delivery.now (work_of self.old out.old.items ran)) }
        ensures memory { IfErr result (λ fault. fault ≡ NoMemory) }
    {
        let place = (delivery.message.to() / self.nodes) as usize;
        let process = &mut self.processes[place];
        process.deliver(*delivery, out)?;
        let summary = Summary::of(process, self.end);
        self.summaries.set(place, summary);
        Ok(())
    }

    /// Delivers all messages and antimessages, in order.
    pub(crate) fn deliver_all(
        &mut self,
        deliveries: &[Signed],
        out: &mut Vec<Signed>,
    ) -> Result<(), NodeFault>
        requires ready { IsReady self.old }
        requires accepted { first_fault (node_of_roster false self.old) deliveries.now ≡ None }
        ensures ready { OnOk result (IsReady self.new) }
        ensures modelled { (m : Meaning) → Every (IsModelled m) self.old.processes.items
            → OnOk result (Every (IsModelled m) self.new.processes.items) }
        ensures place { place_of self.new ≡ place_of self.old }
        ensures work { (ran : ℕ) → OnOk result (work_of self.new out.new.items ran
            ≡ deliver_here self.old.nodes deliveries.now (work_of self.old out.old.items ran)) }
        ensures memory { IfErr result (λ fault. fault ≡ NoMemory) }
        ensures none { deliveries.now ≡ [] → IsOk result }
    {
        for delivery in deliveries {
            self.deliver(delivery, out)?;
        }
        Ok(())
    }

    /// Handles `message`, the least message of the node.
    pub(crate) fn run_one<M: Simulated>(
        &mut self,
        model: &M,
        message: &Message,
        out: &mut Vec<Signed>,
    ) -> Result<(), NodeFault>
        requires ready { IsReady self.old }
        requires lps { (M.meaning model.now).lps ≡ self.old.lps }
        requires least { (least_among self.old.summaries).next ≡ Some message.now }
        ensures ready { OnOk result (IsReady self.new) }
        ensures modelled { Every (IsModelled (M.meaning model.now)) self.old.processes.items
            → OnOk result (Every (IsModelled (M.meaning model.now)) self.new.processes.items) }
        ensures place { place_of self.new ≡ place_of self.old }
        ensures work { (ran : ℕ) → OnOk result (work_of self.new out.new.items (ran + 1)
            ≡ run_one_here (M.meaning model.now) self.old.nodes message.now
            (work_of self.old out.old.items ran)) }
        ensures room { (ran : ℕ) → OnOk result (has_room (M.meaning model.now) message.now
            (here self.old.nodes (work_of self.old out.old.items ran) message.now.to) ≡ true) }
        ensures causes { (ran : ℕ) → IfErr result (λ fault. (fault ≡ NoMemory)
            ⊎ ((fault ≡ NumberLimit) × (has_room (M.meaning model.now) message.now
            (here self.old.nodes (work_of self.old out.old.items ran) message.now.to) ≡ false))) }
        ensures limit { (ran : ℕ) → has_room (M.meaning model.now) message.now (here self.old.nodes
            (work_of self.old out.old.items ran) message.now.to) ≡ false → result
            ≡ Err NumberLimit }
    {
        let place = (message.to() / self.nodes) as usize;
        let process = &mut self.processes[place];
        process.run_one(model, self.end, out)?;
        let summary = Summary::of(process, self.end);
        self.summaries.set(place, summary);
        Ok(())
    }

    /// Handles the least message of the node, up to `budget` times, and returns how often it did.
    pub(crate) fn run<M: Simulated>(
        &mut self,
        model: &M,
        budget: u32,
        out: &mut Vec<Signed>,
    ) -> Result<u32, NodeFault>
        requires ready { IsReady self.old }
        requires lps { (M.meaning model.now).lps ≡ self.old.lps }
        ensures ready { OnOk result (IsReady self.new) }
        ensures modelled { Every (IsModelled (M.meaning model.now)) self.old.processes.items
            → OnOk result (Every (IsModelled (M.meaning model.now)) self.new.processes.items) }
        ensures place { place_of self.new ≡ place_of self.old }
        ensures work { IfOk result (λ ran. run_here
            (M.meaning model.now) self.old.end self.old.nodes budget
            (work_of self.old out.old.items 0) ≡ Some (work_of self.new out.new.items ran)) }
        ensures causes { IfErr result (λ fault. (fault ≡ NoMemory) ⊎ ((fault ≡ NumberLimit)
            × (run_here (M.meaning model.now) self.old.end self.old.nodes budget
            (work_of self.old out.old.items 0) ≡ None))) }
        ensures limit { 0 < budget → run_here (M.meaning model.now) self.old.end self.old.nodes 1
            (work_of self.old out.old.items 0) ≡ None → result ≡ Err NumberLimit }
    {
        for ran in 0..budget {
            let Some(message) = self.summaries.next() else {
                return Ok(ran);
            };
            self.run_one(model, &message, out)?;
        }
        Ok(budget)
    }

    /// Moves the handlings below `floor`, in ticks, from the process at this place to the end of
    /// `fossils`.
    fn collect_at(
        &mut self,
        place: usize,
        floor: u64,
        fossils: &mut Reports,
    ) -> Result<(), NodeFault>
        requires staffed { IsStaffed (at_floor floor
            (place_of self.old)) self.old.processes.items self.old.summaries }
        requires there { place < length self.old.processes.items }
        ensures staffed { OnOk result (IsStaffed (at_floor floor
            (place_of self.old)) self.new.processes.items self.new.summaries) }
        ensures modelled { (m : Meaning) → Every (IsModelled m) self.old.processes.items
            → OnOk result (Every (IsModelled m) self.new.processes.items) }
        ensures place { place_of self.new ≡ place_of self.old }
        ensures processes { OnOk result (processes_of self.new.processes.items
            ≡ set (processes_of self.old.processes.items) place (release floor
            (get_or (processes_of self.old.processes.items) place nobody))) }
        ensures fossils { OnOk result (fossils.new ≡ fossils.old ++ fossils_of floor
            (get_or (processes_of self.old.processes.items) place nobody)) }
        ensures range { Every IsDoneInRange fossils.old → OnOk result
            (Every IsDoneInRange fossils.new) }
        ensures memory { IfErr result (λ fault. fault ≡ NoMemory) }
    {
        let process = &mut self.processes[place];
        process.collect_into(floor, fossils)?;
        // What waits stays.
        let oldest = process.oldest();
        self.summaries.set_oldest(place, oldest);
        Ok(())
    }

    /// Removes the handlings below `floor`, in ticks, from all processes and returns them. Visits
    /// only processes that have some: it goes once over the blocks of summaries, and scans only the
    /// blocks that may have some. The returned list starts with capacity for `room` handlings.
    fn collect(&mut self, floor: u64, room: usize) -> Result<Reports, NodeFault>
        requires ready { IsReady self.old }
        requires floor { self.old.floor ≤ floor }
        ensures ready { OnOk result (IsReady self.new) }
        ensures modelled { (m : Meaning) → Every (IsModelled m) self.old.processes.items
            → OnOk result (Every (IsModelled m) self.new.processes.items) }
        ensures node { OnOk result (node_of_roster false self.new
            ≡ after floor (work_of self.old [] 0) (node_of_roster false self.old)) }
        ensures fossils { IfOk result (λ fossils. fossils
            ≡ (reply_of floor (work_of self.old [] 0)).fossils) }
        ensures range { IfOk result (λ fossils. Every IsDoneInRange fossils) }
        ensures place { OnErr result (place_of self.new ≡ place_of self.old) }
        ensures memory { IfErr result (λ fault. fault ≡ NoMemory) }
    {
        let mut fossils = Reports::with_capacity(self.alloc, room)?;
        let mut place = self.summaries.first_due(0, floor);
        while place < self.processes.len() {
            self.collect_at(place, floor, &mut fossils)?;
            place = self.summaries.first_due(place + 1, floor);
        }
        self.floor = floor;
        Ok(fossils)
    }

    /// Handles a parcel: delivers everything in order, handles messages up to the budget, and
    /// collects the handlings below the parcel's floor.
    pub(crate) fn handle<M: Simulated>(
        &mut self,
        model: &M,
        parcel: Parcel,
    ) -> Result<Reply, NodeFault>
        requires ready { IsReady self.old }
        requires lps { (M.meaning model.now).lps ≡ self.old.lps }
        requires accepted { first_fault (node_of_roster false self.old) parcel.deliver ≡ None }
        requires floor { self.old.floor ≤ parcel.floor }
        ensures ready { OnOk result (IsReady self.new) }
        ensures modelled { Every (IsModelled (M.meaning model.now)) self.old.processes.items
            → OnOk result (Every (IsModelled (M.meaning model.now)) self.new.processes.items) }
        ensures handled { IfOk result (λ reply. IsWorked (M.meaning model.now) parcel
            (node_of_roster false self.old) (node_of_roster false self.new) reply) }
        ensures range { IfOk result IsReplyInRange }
        ensures place { OnErr result (place_of self.new ≡ place_of self.old) }
        ensures failed { IfErr result (λ fault. Fails (M.meaning model.now) parcel
            (node_of_roster false self.old) fault) }
        ensures limit { parcel.deliver ≡ [] → 0 < parcel.budget → run_here
            (M.meaning model.now) self.old.end self.old.nodes 1
            (start (processes_of self.old.processes.items)) ≡ None → result ≡ Err NumberLimit }
    {
        let Parcel {
            deliver,
            budget,
            floor,
        } = parcel;
        // In the long run a node sends as many messages as it receives, and reports as many as it
        // handles.
        let mut out = Vec::with_capacity(self.alloc, deliver.as_slice().len())?;
        self.deliver_all(deliver.as_slice(), &mut out)?;
        let ran = self.run(model, budget, &mut out)?;
        let fossils = self.collect(floor, ran as usize)?;
        Ok(Reply {
            out: Listed::from_vec(out),
            low: self.summaries.low(),
            fossils,
            ran,
        })
    }
}
