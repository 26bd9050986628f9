// A node between parcels.

ghost use Rattle.std.specs.Prelude.{◌≡◌, ◌<◌, ◌≤◌, ◌^◌, ◌↔◌, ◌⊎◌, ◌==◌, Some, None, Err, IfOk};
ghost use Rattle.std.specs.Prelude.{IfErr, IsTrue, length, map, nat_lt, not, true, false};
ghost use Rattle.std.specs.List.{AllByRecursion as Every};
ghost use Rattle.model.specs.Meaning.{most_lps};
ghost use Rattle.node.specs.Handling.{IsInRange, own_lps};
ghost use Rattle.node.specs.Kept.{HasHistories};
ghost use Rattle.node.specs.Seats.{seat_of, standings_of};
ghost use Rattle.node.specs.declared.NodeFault.TheVariants.{NoMemory, NumberLimit};
ghost use Rattle.node.specs.Node.{most_nodes};

use crate::roster::Roster;
use crate::summary::Summary;
use crate::tournament::Tournament;
use crate::{Load, NodeFault, Parcel, Part, Reply};
use eventkey::Message;
use model::{Model as Simulated, Words};
use process::Process;
use std::alloc::Global;

/// Some logical processes of a simulation: all those whose number, modulo the number of nodes, is
/// the number of this node.
pub struct Node {
    spent: bool,
    roster: Roster,
}

// Handwritten: with a derived drop, each caller that drops a node proves again how its parts are
// dropped.
impl Drop for Node {
    fn drop(self) {
        let Node {
            spent: _,
            roster: _,
        } = self;
    }
}

impl std::marker::Model for Node {
    ghost use Rattle.std.specs.Prelude.{◌≡◌, false};
    ghost use Rattle.node.specs.Handling.{Node};

    ghost Value = { Node };

    ghost use Rattle.node.specs.Roster.{IsReady, node_of_roster};

    ghost view = { λ n. node_of_roster n.spent n.roster };

    ghost invariant = { λ n. n.spent ≡ false → IsReady n.roster };
}

impl Node {
    ghost use Rattle.node.specs.Handling.{IsAnswered, IsLimitedAtOnce, IsLoaded, IsReplyInRange};
    ghost use Rattle.node.specs.Handling.{refusal};

    /// Returns the node of a model that `load` describes.
    ///
    /// Refuses with `NotMine` if the parts are not exactly the processes of the node, ascending, or
    /// if a message is pending for another process than its part's; else with `BelowFloor` if a
    /// message is pending before the floor; and with `NoMemory` only if an allocation fails.
    pub fn load<M: Simulated>(alloc: Global, model: &M, load: Load) -> Result<Node, NodeFault>
        requires node { load.node < load.nodes }
        requires nodes { load.nodes ≤ most_nodes }
        requires end { load.end ≤ 2 ^ 40 }
        requires parts { Every IsInRange load.parts }
        ensures loaded { IsLoaded (M.meaning model.now).lps load result }
        ensures histories { IfOk result (λ node. HasHistories (M.meaning model.now) node) }
    {
        let lps = model.lps();
        let parts = load.parts.as_slice();
        if !are_own(parts, load.node, load.nodes, lps) || !are_for_own(parts) {
            return Err(NodeFault::NotMine);
        }
        if !are_all_from(load.floor, parts) {
            return Err(NodeFault::BelowFloor);
        }
        let Load {
            node,
            nodes,
            end,
            floor,
            parts,
        } = load;
        let (processes, summaries) = seat_all(alloc, parts.into_vec(), end, floor)?;
        Ok(Node {
            spent: false,
            roster: Roster {
                alloc,
                node,
                nodes,
                lps,
                end,
                floor,
                processes,
                summaries,
            },
        })
    }

    /// Handles a parcel: delivers everything in order, then handles up to `budget` messages, each
    /// time the least one of the whole node below the end, then collects the handlings below the
    /// parcel's floor.
    ///
    /// Refuses with `Spent` if the node is spent; with `FloorFell` if the parcel's floor is below
    /// the node's; else with the fault of the first delivery that has one: `NotMine`, or
    /// `BelowFloor` by the floor that the node had before. These leave the node as it was.
    /// `NoMemory` and `NumberLimit` leave it spent. An allocation failure can come before a number
    /// limit is found, but not if the parcel delivers nothing and the first message has no room:
    /// then the fault is `NumberLimit`.
    ///
    /// The cost is that of the deliveries and handlings, each with the logarithm of the number of
    /// processes of the node, and of the released handlings; one step for each 32 processes; and a
    /// scan of the times of those 32 if one of them may have a handling below the floor or the
    /// least waiting time.
    pub fn handle<M: Simulated>(&mut self, model: &M, parcel: Parcel) -> Result<Reply, NodeFault>
        requires lps { self.old.spent ≡ false → (M.meaning model.now).lps ≡ self.old.lps }
        ensures answered { IsAnswered (M.meaning model.now) parcel self.old self.new result }
        ensures range { IfOk result IsReplyInRange }
        ensures limit { IsLimitedAtOnce (M.meaning model.now) parcel self.old → result
            ≡ Err NumberLimit }
        ensures lps { self.new.lps ≡ self.old.lps }
        ensures histories { HasHistories (M.meaning model.now) self.old
            → HasHistories (M.meaning model.now) self.new }
    {
        if let Some(fault) = self.refusal(&parcel) {
            return Err(fault);
        }
        // Cleared at the end, so that an allocation failure midway leaves the node spent.
        self.spent = true;
        let reply = self.roster.handle(model, parcel)?;
        self.spent = false;
        Ok(reply)
    }

    // Returns why the whole parcel is refused, if it is.
    fn refusal(&self, parcel: &Parcel) -> Option<NodeFault>
        ensures { result ≡ refusal self.now parcel.now }
    {
        if self.spent {
            Some(NodeFault::Spent)
        } else if parcel.floor < self.roster.floor {
            Some(NodeFault::FloorFell)
        } else {
            self.roster.first_fault(parcel.deliver.as_slice())
        }
    }
}

/// Returns whether these are the parts of the node's processes, ascending.
fn are_own(parts: &[Part], node: u32, nodes: u32, lps: u32) -> bool
    requires node { node < nodes }
    requires nodes { nodes ≤ most_nodes }
    requires lps { lps ≤ most_lps }
    ensures { IsTrue result ↔ (map (λ p. p.lp) parts.now ≡ own_lps nodes node lps) }
{
    let mut next = node;
    for part in parts {
        if part.lp != next {
            return false;
        }
        if next >= lps {
            return false;
        }
        next += nodes;
    }
    next >= lps
}

/// Returns whether all pending messages are for the process of their part.
fn are_for_own(parts: &[Part]) -> bool
    ensures { IsTrue result ↔ Every (λ p. Every (λ x. x.to ≡ p.lp) p.pending) parts.now }
{
    for part in parts {
        if !are_for(part.lp, part.pending.as_slice()) {
            return false;
        }
    }
    true
}

/// Returns whether all these messages are for one process.
fn are_for(lp: u32, pending: &[Message]) -> bool
    ensures { IsTrue result ↔ Every (λ x. x.to ≡ lp) pending.now }
{
    for message in pending {
        if message.to() != lp {
            return false;
        }
    }
    true
}

/// Returns whether no message is pending before `floor`, in ticks.
fn are_all_from(floor: u64, parts: &[Part]) -> bool
    ensures { IsTrue result ↔ Every (λ p. Every (λ x. floor ≤ x.time) p.pending) parts.now }
{
    for part in parts {
        if !are_from(floor, part.pending.as_slice()) {
            return false;
        }
    }
    true
}

/// Returns whether none of these messages is before `floor`, in ticks.
fn are_from(floor: u64, pending: &[Message]) -> bool
    ensures { IsTrue result ↔ Every (λ x. floor ≤ x.time) pending.now }
{
    for message in pending {
        if message.time() < floor {
            return false;
        }
    }
    true
}

/// Returns the processes of these parts, and their summaries.
fn seat_all(
    alloc: Global,
    parts: Vec<Part>,
    end: u64,
    floor: u64,
) -> Result<(Vec<Process>, Tournament), NodeFault>
    requires few { length parts.items < 2 ^ 32 }
    requires range { Every IsInRange parts.items }
    requires own { Every (λ p. Every (λ x. x.to ≡ p.lp) p.pending) parts.items }
    requires late { Every (λ p. Every (λ x. floor ≤ x.time) p.pending) parts.items }
    ensures processes { IfOk result (λ seats. seats.0.items ≡ map (seat_of floor) parts.items) }
    ensures summaries { IfOk result (λ seats. seats.1 ≡ standings_of end
        (map (seat_of floor) parts.items)) }
    ensures memory { IfErr result (λ fault. fault ≡ NoMemory) }
{
    let mut processes = Vec::with_capacity(alloc, parts.len())?;
    let mut summaries = Tournament::new(alloc, parts.len())?;
    for part in parts {
        let process = seated(alloc, part, floor)?;
        summaries.set(processes.len(), Summary::of(&process, end));
        processes.push(process)?;
    }
    Ok((processes, summaries))
}

/// Returns the process of a part, whose messages are for it and not before `floor`.
fn seated(alloc: Global, part: Part, floor: u64) -> Result<Process, NodeFault>
    requires range { IsInRange part }
    requires own { Every (λ x. x.to ≡ part.lp) part.pending }
    requires late { Every (λ x. floor ≤ x.time) part.pending }
    ensures process { IfOk result (λ p. p ≡ seat_of floor part) }
    ensures memory { IfErr result (λ fault. fault ≡ NoMemory) }
{
    let Part {
        lp,
        number,
        words,
        pending,
    } = part;
    // At most 16 words fit inline, so this allocates nothing.
    let words = Words::from_slice(alloc, words.as_slice()).unwrap();
    let process = Process::load(alloc, lp, words, number, pending.into_vec(), floor)?;
    Ok(process)
}
