// Small random schedules: nodes answer as plain nodes do.

ghost use Rattle.std.specs.Prelude.{◌<◌, ◌≤◌};

use super::plain::{PlainNode, PlainProcess};
use super::*;
use models::Relay;

const END: u64 = 60;

/// The number of processes of a relay.
const RELAYS: u32 = 6;

/// Pseudorandom numbers, the same in each run (a linear congruential generator).
#[derive(Drop)]
struct Lottery {
    state: u64,
}

impl Lottery {
    /// A number below `limit`.
    fn below(&mut self, limit: u64) -> u64 {
        let state = self.state.wrapping_mul(6_364_136_223_846_793_005);
        self.state = state.wrapping_add(1_442_695_040_888_963_407);
        (self.state >> 33).checked_rem(limit).unwrap_or(0)
    }
}

/// A node and its plain counterpart, with the low of their last reply and the last floor.
#[derive(Drop)]
struct Pair {
    node: Tried<Relay>,
    plain: PlainNode,
    low: Option<u64>,
    floor: u64,
}

#[derive(Drop)]
struct Schedule {
    alloc: Global,
    lottery: Lottery,
    /// Whether a delivered message may stay in transit and be delivered again.
    repeats: bool,
    transit: Vec<Signed>,
    pairs: Vec<Pair>,
    /// The number of antimessages sent.
    undone: u64,
}

// Reports have one encoding.
fn agree(reply: &Reply, plain: &Reply) -> bool {
    reply.out.as_slice() == plain.out.as_slice()
        && reply.low == plain.low
        && reply.ran == plain.ran
        && reply.fossils.as_bytes() == plain.fossils.as_bytes()
}

/// The messages that wait at the start, two for each process.
fn waiting(alloc: Global) -> Result<Vec<Message>, Fail> {
    let mut waiting = Vec::new(alloc);
    for lp in 0..RELAYS {
        let (time, content) = (u64::from(lp % 3), u64::from(lp));
        waiting.push(Message::new(time + 4, lp, 1, lp, 0, 5, 9, u64::MAX)?)?;
        waiting.push(Message::new(time + 1, lp, 0, lp, 0, content, content, 3)?)?;
    }
    Ok(waiting)
}

fn plain(
    alloc: Global,
    node: u32,
    nodes: u32,
    waiting: &[Message],
) -> Result<PlainNode, AllocError> {
    let mut plain = PlainNode::new(alloc, END);
    for lp in 0..RELAYS {
        if lp.checked_rem(nodes) == Some(node) {
            let waiting = messages_to(alloc, lp, waiting)?;
            plain.seat(PlainProcess::new(alloc, lp, 2, waiting))?;
        }
    }
    Ok(plain)
}

fn paired(alloc: Global, node: u32, nodes: u32) -> Result<Pair, Fail>
    requires node { node < nodes }
    requires nodes { nodes ≤ 64 }
{
    let waiting = waiting(alloc)?;
    let plain = plain(alloc, node, nodes, waiting.as_slice())?;
    let low = plain.low();
    Ok(Pair {
        node: Tried::load(alloc, Relay, node, nodes, END, 2, waiting.as_slice())?,
        plain,
        low,
        floor: 0,
    })
}

impl Pair {
    /// Posts the same parcel to both. Returns their reply, or `None` if the replies differ.
    fn handle(
        &mut self,
        alloc: Global,
        deliver: &[Signed],
        budget: u32,
        floor: u64,
    ) -> Result<Option<Reply>, Fail> {
        let reply = self.node.handle(deliver.to_vec(alloc)?, budget, floor)?;
        let plain = self.plain.handle(deliver, budget, floor)?;
        self.low = reply.low;
        self.floor = floor;
        Ok(if agree(&reply, &plain) {
            Some(reply)
        } else {
            None
        })
    }
}

impl Schedule {
    fn new(alloc: Global, seed: u64, nodes: u32) -> Result<Schedule, Fail>
        requires { nodes ≤ 64 }
    {
        let mut pairs = Vec::new(alloc);
        for node in 0..nodes {
            pairs.push(paired(alloc, node, nodes)?)?;
        }
        Ok(Schedule {
            alloc,
            lottery: Lottery { state: seed },
            repeats: seed % 2 == 1,
            transit: Vec::new(alloc),
            pairs,
            undone: 0,
        })
    }

    /// The least time, in ticks, of all that waits or travels, or the end.
    fn floor(&self) -> u64 {
        let mut floor = END;
        for pair in self.pairs.iter() {
            floor = floor.min(pair.low.unwrap_or(END));
        }
        for signed in self.transit.iter() {
            floor = floor.min(signed.message.time());
        }
        floor
    }

    /// Takes some of the messages in transit to a node, in their order or in reverse.
    fn picked(&mut self, node: u32, nodes: u32) -> Result<Vec<Signed>, Fail> {
        let (mut deliver, mut left) = (Vec::new(self.alloc), Vec::new(self.alloc));
        for signed in self.transit.iter() {
            let here = signed.message.to().checked_rem(nodes) == Some(node);
            let goes = here && self.lottery.below(3) > 0;
            if goes {
                deliver.push(*signed)?;
            }
            if !goes || self.repeats && self.lottery.below(40) == 0 {
                left.push(*signed)?;
            }
        }
        self.transit = left;
        if self.lottery.below(2) == 0 {
            deliver.reverse();
        }
        Ok(deliver)
    }

    fn note(&mut self, reply: &Reply) -> Result<(), Fail> {
        self.transit.extend_from_slice(reply.out.as_slice())?;
        for signed in reply.out.as_slice() {
            if signed.sign == Sign::Minus {
                self.undone = self.undone.wrapping_add(1);
            }
        }
        Ok(())
    }

    /// Posts one parcel to one node. Returns whether both answer the same.
    fn step(&mut self, nodes: u32) -> Result<bool, Fail> {
        let node = u32::try_from(self.lottery.below(u64::from(nodes)))?;
        let floor = self.floor();
        let deliver = self.picked(node, nodes)?;
        self.post(node, deliver.as_slice(), floor)
    }

    /// Posts these deliveries to a node, with this floor or the floor of its last parcel.
    fn post(&mut self, node: u32, deliver: &[Signed], floor: u64) -> Result<bool, Fail> {
        let budget = u32::try_from(self.lottery.below(9))?;
        let keeps = self.lottery.below(3) == 0;
        let alloc = self.alloc;
        let Some(pair) = self.pairs.get_mut(node as usize) else {
            return Ok(false);
        };
        let floor = if keeps { pair.floor } else { floor };
        match pair.handle(alloc, deliver, budget, floor)? {
            Some(reply) => {
                self.note(&reply)?;
                Ok(true)
            }
            None => Ok(false),
        }
    }
}

/// Posts a number of parcels. Returns how many antimessages were sent, or `None` if replies differ.
fn lot(alloc: Global, seed: u64, nodes: u32, parcels: u32) -> Result<Option<u64>, Fail>
    requires { nodes ≤ 64 }
{
    let mut schedule = Schedule::new(alloc, seed, nodes)?;
    for _ in 0..parcels {
        if !schedule.step(nodes)? {
            return Ok(None);
        }
    }
    Ok(Some(schedule.undone))
}

/// Runs schedules of several seeds over this number of nodes. All replies must agree, and there
/// must be many rollbacks.
fn agree_by_lot(rt: &impl Abort, alloc: Global, nodes: u32) -> Result<(), Fail>
    requires { nodes ≤ 64 }
{
    let mut undone = 0u64;
    for seed in 1..7u64 {
        let answer = lot(alloc, seed, nodes, 80)?;
        assert!(rt; answer.is_some(), "at seed {seed}");
        undone = undone.wrapping_add(answer.unwrap_or(0));
    }
    assert!(rt; undone > 100);
    Ok(())
}

#[test]
fn one_node_answers_like_a_plain_node(rt: HostRuntime) -> Result<(), Fail> {
    agree_by_lot(&rt, rt.alloc(), 1)
}

#[test]
fn two_nodes_answer_like_plain_nodes(rt: HostRuntime) -> Result<(), Fail> {
    agree_by_lot(&rt, rt.alloc(), 2)
}

#[test]
fn four_nodes_answer_like_plain_nodes(rt: HostRuntime) -> Result<(), Fail> {
    agree_by_lot(&rt, rt.alloc(), 4)
}
