// Nodes of a ring of three processes that hold a token for two ticks, up to time 10.

ghost use Rattle.std.specs.Prelude.{◌≡◌, ◌<◌, ◌≤◌, ◌^◌, IfOk};
ghost use Rattle.std.specs.List.{AllByRecursion as Every};
ghost use Rattle.node.specs.Handling.{IsInRange};

mod plain;
mod schedules;

use crate::rows::{Row, are, messages, numbers, part, row, signed, signed_list};
use eventkey::{Listed, Message, Sign, Signed};
use model::{Model as Simulated, State};
use models::TokenRing;
use node::{Load, Node, NodeFault, Parcel, Part, Reply};
use process::{Done, Process, Reports};
use std::alloc::{AllocError, Global};
use std::process::Abort;
use std::test::Fail;

/// A node with its model, which accepts any parcel.
#[derive(Drop)]
pub(crate) struct Tried<M: Simulated + Drop> {
    pub(crate) model: M,
    node: Node,
}

impl<M: Simulated + Drop> std::marker::Model for Tried<M> {
    ghost use Rattle.std.specs.Prelude.{◌≡◌, false};
    ghost use Rattle.node.specs.Handling.{Node};

    ghost Value = { Node };

    ghost view = { λ t. t.node };

    ghost invariant = { λ t. t.node.spent ≡ false → (M.meaning t.model).lps ≡ t.node.lps };
}

impl<M: Simulated + Drop> Tried<M> {
    fn of_load(alloc: Global, model: M, load: Load) -> Result<Tried<M>, NodeFault>
        requires node { load.node < load.nodes }
        requires nodes { load.nodes ≤ 64 }
        requires end { load.end ≤ 2 ^ 40 }
        requires parts { Every IsInRange load.parts }
    {
        let node = Node::load(alloc, &model, load)?;
        Ok(Tried { model, node })
    }

    /// Loads node `node` of `nodes`. Each of its processes begins in state 0, with the number of its
    /// next send, and those of the waiting messages that go to it.
    pub(crate) fn load(
        alloc: Global,
        model: M,
        node: u32,
        nodes: u32,
        end: u64,
        number: u64,
        waiting: &[Message],
    ) -> Result<Tried<M>, Fail>
        requires node { node < nodes }
        requires nodes { nodes ≤ 64 }
        requires end { end ≤ 2 ^ 40 }
    {
        let parts = parts(alloc, model.lps(), node, nodes, number, waiting)?;
        let load = Load {
            node,
            nodes,
            end,
            floor: 0,
            parts: Listed::from_vec(parts),
        };
        Ok(Tried::of_load(alloc, model, load)?)
    }

    pub(crate) fn handle(
        &mut self,
        deliver: Vec<Signed>,
        budget: u32,
        floor: u64,
    ) -> Result<Reply, NodeFault> {
        let parcel = Parcel {
            deliver: Listed::from_vec(deliver),
            budget,
            floor,
        };
        self.node.handle(&self.model, parcel)
    }
}

/// A process in state 0.
fn process(alloc: Global, lp: u32, number: u64, waiting: Vec<Message>) -> Part
    ensures { IsInRange result }
{
    Part {
        lp,
        number: number.min(Process::NUMBER_LIMIT),
        // one word fits in the value, so this allocates nothing
        words: State::from_slice(alloc, &[0]).unwrap(),
        pending: Listed::from_vec(waiting),
    }
}

/// The messages that go to this process.
fn messages_to(alloc: Global, lp: u32, messages: &[Message]) -> Result<Vec<Message>, AllocError> {
    let mut there = Vec::new(alloc);
    for message in messages {
        if message.to() == lp {
            there.push(*message)?;
        }
    }
    Ok(there)
}

fn parts(
    alloc: Global,
    lps: u32,
    node: u32,
    nodes: u32,
    number: u64,
    waiting: &[Message],
) -> Result<Vec<Part>, AllocError>
    ensures { IfOk result (λ parts. Every IsInRange parts.items) }
{
    let mut parts = Vec::new(alloc);
    for lp in 0..lps {
        if lp.checked_rem(nodes) == Some(node) {
            let waiting = messages_to(alloc, lp, waiting)?;
            parts.push(process(alloc, lp, number, waiting))?;
        }
    }
    Ok(parts)
}

/// Loads node `node` of `nodes` of the ring.
fn load(
    alloc: Global,
    node: u32,
    nodes: u32,
    number: u64,
    waiting: &[Row],
) -> Result<Tried<TokenRing>, Fail>
    requires node { node < nodes }
    requires nodes { nodes ≤ 64 }
{
    let waiting = messages(alloc, waiting)?;
    let ring = TokenRing::new(3, 2, 1);
    Tried::load(alloc, ring, node, nodes, 10, number, waiting.as_slice())
}

/// The text before the first `>`, and the text after it.
fn halves(text: &str) -> (&str, &str) {
    text.split_once(" > ").unwrap_or((text, ""))
}

/// Whether a fossil has the message of a text, the one message that its handling sent, the count in
/// the state after it, and the number of the next send.
pub(crate) fn is_fossil(fossil: &Done, text: &str) -> Result<bool, Fail> {
    let (handled, text) = halves(text);
    let (sent, after) = halves(text);
    let [count, number, ..] = numbers(after)?;
    Ok(
        row(&fossil.message) == numbers(handled)?
            && are(fossil.sent.as_slice(), &[numbers(sent)?])
            && fossil.after.as_slice() == [count].as_slice()
            && fossil.number_after == number,
    )
}

fn are_fossils(fossils: &[Done], text: &str) -> Result<bool, Fail> {
    let mut texts = text.split_terminator(", ");
    for fossil in fossils {
        if !is_fossil(fossil, texts.next().unwrap_or(""))? {
            return Ok(false);
        }
    }
    Ok(texts.next().is_none())
}

/// Whether a reply sends the messages of a line, and has its low in ticks, the number of handled
/// messages, and the fossils there.
fn is_expected(alloc: Global, reply: &Reply, line: &str) -> Result<bool, Fail> {
    let out = signed_list(alloc, part(line, 2))?;
    Ok(
        reply.out.as_slice() == out.as_slice()
            && reply.low == part(line, 3).parse().ok()
            && Some(reply.ran) == part(line, 4).parse().ok()
            && are_fossils(reply.fossils.to_vec(alloc)?.as_slice(), part(line, 5))?,
    )
}

/// Posts the parcel of a line: its deliveries, the budget, and the floor in ticks.
fn post(
    alloc: Global,
    node: &mut Tried<TokenRing>,
    line: &str,
) -> Result<Result<Reply, NodeFault>, Fail> {
    let deliver = signed_list(alloc, part(line, 0))?;
    let [budget, floor, ..] = numbers(part(line, 1))?;
    Ok(node.handle(deliver, u32::try_from(budget)?, floor))
}

/// Posts the parcels of a script and checks the replies. An allocation failure leaves the node
/// spent and ends the check.
fn play(
    rt: &impl Abort,
    alloc: Global,
    node: &mut Tried<TokenRing>,
    script: &str,
) -> Result<(), Fail> {
    for line in script.lines() {
        match post(alloc, node, line)? {
            Ok(reply) => assert!(rt; is_expected(alloc, &reply, line)?, "{line}"),
            Err(fault) => {
                assert_eq!(rt; fault, NodeFault::NoMemory);
                let again = post(alloc, node, line)?;
                assert_eq!(rt; again.err(), Some(NodeFault::Spent));
                return Ok(());
            }
        }
    }
    Ok(())
}

const A_TOKEN: &str = "\
    | 16 1 | 3 0 1 1 0 1 0 0 | none | 1 |\n\
    7 2 0 0 0 3 0 0 | 16 7 | 9 0 2 1 0 4 0 0 | none | 1 | \
    1 0 0 0 0 0 0 0 > 3 0 1 1 0 1 0 0 > 1 2\n\
    | 16 10 | | none | 0 | 7 2 0 0 0 3 0 0 > 9 0 2 1 0 4 0 0 > 2 3";

#[test]
fn a_token_passes_through_node_zero_of_three(rt: HostRuntime) -> Result<(), Fail> {
    let mut node = load(rt.alloc(), 0, 3, 1, &[[1, 0, 0, 0, 0, 0, 0, 0]])?;
    play(&rt, rt.alloc(), &mut node, A_TOKEN)
}

/// Posts these messages to a node. Returns how many messages it handled, sent and reported.
fn handle_many(
    node: &mut Tried<TokenRing>,
    deliver: Vec<Signed>,
    budget: u32,
    floor: u64,
) -> Result<(u32, usize, usize), NodeFault> {
    let reply = node.handle(deliver, budget, floor)?;
    Ok((reply.ran, reply.out.as_slice().len(), reply.fossils.len()))
}

// Memory for handlings is allocated for the messages that exist, not for the budget.
#[test]
fn a_large_budget_takes_no_memory(rt: HostRuntime) -> Result<(), Fail> {
    let mut node = load(rt.alloc(), 0, 3, 1, &[[1, 0, 0, 0, 0, 0, 0, 0]])?;
    let reported = handle_many(&mut node, Vec::new(rt.alloc()), u32::MAX, 1)?;
    assert_eq!(rt; reported, (1, 1, 0));
    let reported = handle_many(&mut node, Vec::new(rt.alloc()), u32::MAX, 10)?;
    assert_eq!(rt; reported, (0, 0, 1));
    Ok(())
}

/// 100,000 messages of time 1 for process 0, in descending order.
fn many(alloc: Global) -> Result<Vec<Signed>, Fail> {
    let mut list = Vec::new(alloc);
    for number in (0..100_000).rev() {
        let message = Message::new(1, 2, number, 0, 0, 0, 0, 0)?;
        let sign = Sign::Plus;
        list.push(Signed { sign, message })?;
    }
    Ok(list)
}

// All messages go to one process, which has handled them when a straggler arrives before them. It
// rolls all of them back, and handles them again.
#[test]
fn a_hundred_thousand_messages_are_handled_twice(rt: HostRuntime) -> Result<(), Fail> {
    let mut node = load(rt.alloc(), 0, 3, 1, &[])?;
    let reported = handle_many(&mut node, many(rt.alloc())?, 100_000, 0)?;
    assert_eq!(rt; reported, (100_000, 100_000, 0));
    let straggler = signed_list(rt.alloc(), "0 2 0 0 0 0 0 0")?;
    let reported = handle_many(&mut node, straggler, 200_000, 2)?;
    assert_eq!(rt; reported, (100_001, 200_001, 100_001));
    Ok(())
}

// The earlier message of the parcel is below the floor. The node keeps nothing of the parcel, and
// answers the next one.
#[test]
fn a_parcel_below_the_floor_leaves_the_node_unchanged(rt: HostRuntime) -> Result<(), Fail> {
    let mut node = load(rt.alloc(), 0, 1, 0, &[])?;
    let empty = "| 16 4 | | none | 0 |";
    play(&rt, rt.alloc(), &mut node, empty)?;
    let both = "5 0 0 0 0 0 0 0, 3 0 0 1 0 0 0 0 | 16 4";
    let refused = post(rt.alloc(), &mut node, both)?;
    assert_eq!(rt; refused.err(), Some(NodeFault::BelowFloor));
    play(&rt, rt.alloc(), &mut node, empty)
}

/// A waiting message of each process.
const THREE: [Row; 3] = [
    [4, 0, 0, 0, 0, 0, 0, 0],
    [1, 1, 0, 1, 0, 0, 0, 0],
    [2, 2, 0, 2, 0, 0, 0, 0],
];

const GROUPED: &str = "\
    | 16 5 | 3 1 5 2 0 1 0 0, 4 2 5 0 0 1 0 0, 6 0 5 1 0 1 0 0 | none | 3 | \
    4 0 0 0 0 0 0 0 > 6 0 5 1 0 1 0 0 > 1 6, \
    1 1 0 1 0 0 0 0 > 3 1 5 2 0 1 0 0 > 1 6, \
    2 2 0 2 0 0 0 0 > 4 2 5 0 0 1 0 0 > 1 6";

#[test]
fn fossils_are_grouped_by_process(rt: HostRuntime) -> Result<(), Fail> {
    let mut node = load(rt.alloc(), 0, 1, 5, &THREE)?;
    play(&rt, rt.alloc(), &mut node, GROUPED)
}

const AN_ANTIMESSAGE_FIRST: &str = "\
    -3 0 0 1 0 0 0 0, 8 1 0 2 0 0 0 0 | 0 0 | | 3 | 0 |\n\
    3 0 0 1 0 0 0 0 | 0 0 | | 8 | 0 |";

#[test]
fn a_waiting_antimessage_counts_for_the_low(rt: HostRuntime) -> Result<(), Fail> {
    let mut node = load(rt.alloc(), 0, 1, 0, &[])?;
    play(&rt, rt.alloc(), &mut node, AN_ANTIMESSAGE_FIRST)
}

/// Two waiting messages of process 0, and one of each other process.
const FOUR: [Row; 4] = [
    [1, 0, 0, 0, 0, 0, 0, 0],
    [4, 0, 1, 0, 0, 0, 0, 0],
    [2, 1, 0, 1, 0, 0, 0, 0],
    [3, 2, 0, 2, 0, 0, 0, 0],
];

/// The four messages are handled. Then process 0 gets a straggler, process 1 an antimessage of what
/// it handled, and two of the sent messages arrive.
const SENT_IN_ORDER: &str = "\
    | 4 0 | 3 0 5 1 0 1 0 0, 4 1 5 2 0 1 0 0, 5 2 5 0 0 1 0 0, 6 0 6 1 0 1 0 0 | none | 4 |\n\
    3 0 9 0 7 0 8 9, -2 1 0 1 0 0 0 0, 5 2 5 0 0 1 0 0, 3 0 5 1 0 1 0 0 | 4 2 | \
    -6 0 6 1 0 1 0 0, -4 1 5 2 0 1 0 0, 5 1 5 2 0 2 0 0, 5 0 6 1 7 1 8 9, \
    6 0 7 1 0 1 0 0, 7 0 8 1 0 2 0 0 | none | 4 | \
    1 0 0 0 0 0 0 0 > 3 0 5 1 0 1 0 0 > 1 6";

#[test]
fn antimessages_and_new_messages_are_sent_in_order(rt: HostRuntime) -> Result<(), Fail> {
    let mut node = load(rt.alloc(), 0, 1, 5, &FOUR)?;
    play(&rt, rt.alloc(), &mut node, SENT_IN_ORDER)
}
