// Counts the steps of a run.

ghost use Rattle.std.specs.Prelude.{◌≡◌, ◌<◌, ◌≤◌, ◌+◌, ◌-◌, ◌^◌, ◌||◌, IfOk, get_or, length};
ghost use Rattle.std.specs.Prelude.{None, Option, Some, nat_le, replicate, set};
ghost use Rattle.runs.specs.Budgets.{budget_answered, first_budget, messages_for};
ghost use Rattle.runs.specs.Driver.{IsBudget, floor_in, least_of, reported_in};
ghost use Rattle.runs.specs.Tallies.{handled_after, turn_answered};

use crate::budgets::NodeBudget;
use crate::rounds::{Batch, Plan};
use coordinator::Answer;
use eventkey::{Sign, Signed};
use std::alloc::{AllocError, Global};

/// What a node was asked in one of its turns, and what it replied.
#[derive(Clone, Copy, Debug, PartialEq, Eq)]
pub struct Turn {
    /// The round in which its reply was taken; the first of a run is 1.
    pub round: u32,
    /// The node.
    pub node: u32,
    /// How many messages the node was allowed to handle.
    pub budget: u32,
    /// The floor of its parcel, in ticks; over faithful ports this is global virtual time.
    pub floor: u64,
    /// The number of messages that its parcel delivered, including antimessages.
    pub delivered: usize,
    /// The number of antimessages among them.
    pub antimessages: usize,
    /// The number of messages that it handled, including those rolled back later.
    pub handled: u32,
    /// The number of messages that it sent, including antimessages.
    pub sent: usize,
    /// The number of handlings that it reported, which no rollback can reach any more.
    pub reported: usize,
}

/// What a run counts as it goes on.
#[derive(Drop)]
pub(crate) struct Tally {
    /// What each node reported and handled recently.
    budgets: Vec<NodeBudget>,
    /// The number of events still to be reported before a commit is due.
    events_until_commit: usize,
    /// The least floor answered in this round, or the end, in ticks.
    floor: u64,
    /// The number of commits made.
    commits: u32,
    /// The number of the round; the first is 1.
    round: u32,
    /// The floor of the parcel that is outstanding at each node, in ticks.
    outstanding: Vec<Option<u64>>,
    /// What each node was asked last.
    turns: Vec<Turn>,
    /// The number of messages that each node handled, by its replies.
    handled_per_node: Vec<u64>,
}

impl Tally {
    /// Returns the tally before the first round.
    pub(crate) fn new(alloc: Global, plan: Plan) -> Result<Tally, AllocError>
        ensures budgets { IfOk result (λ tally. tally.budgets.items ≡ replicate plan.nodes first_budget) }
        ensures events_until_commit { IfOk result (λ tally. tally.events_until_commit ≡ plan.commit_every) }
        ensures commits { IfOk result (λ tally. tally.commits ≡ 0) }
        ensures outstanding { IfOk result (λ tally. tally.outstanding.items ≡ replicate plan.nodes Option.None) }
        ensures turns { IfOk result (λ tally. length tally.turns.items ≡ plan.nodes) }
        ensures handled { IfOk result (λ tally. tally.handled_per_node.items ≡ replicate plan.nodes 0) }
    {
        let mut handled_per_node = Vec::new(alloc);
        handled_per_node.resize(plan.nodes as usize, 0)?;
        let mut budgets = Vec::new(alloc);
        budgets.resize(plan.nodes as usize, NodeBudget::new())?;
        let mut outstanding = Vec::new(alloc);
        outstanding.resize(plan.nodes as usize, None)?;
        let mut turns = Vec::new(alloc);
        turns.resize(plan.nodes as usize, Turn::none())?;
        Ok(Tally {
            budgets,
            events_until_commit: plan.commit_every as usize,
            floor: 0,
            commits: 0,
            round: 0,
            outstanding,
            turns,
            handled_per_node,
        })
    }

    /// Returns how many messages a node may handle in its next turn, by its own budget.
    pub(crate) fn budget(&self, batch: Batch, node: u32) -> u32
        requires { node < length self.now.budgets.items }
        ensures own { result ≡ messages_for batch (get_or self.now.budgets.items node first_budget) }
        ensures allowed { IsBudget batch result }
    {
        match batch {
            Batch::Fixed(messages) => messages,
            Batch::Adjusting {
                most,
                rounds_are_cheap,
            } => {
                self.budgets[node as usize]
                    .messages(rounds_are_cheap)
                    .min(most.max(1))
            }
        }
    }

    /// Begins a round of a run to this end, in ticks.
    pub(crate) fn begin_round(&mut self, end: u64)
        ensures floor { self.new.floor ≡ end }
        ensures outstanding { self.new.outstanding.items ≡ self.old.outstanding.items }
        ensures turns { length self.new.turns.items ≡ length self.old.turns.items }
        ensures events_until_commit { self.new.events_until_commit ≡ self.old.events_until_commit }
        ensures commits { self.new.commits ≡ self.old.commits }
        ensures budgets { self.new.budgets.items ≡ self.old.budgets.items }
        ensures handled { self.new.handled_per_node.items ≡ self.old.handled_per_node.items }
    {
        self.floor = end;
        self.round = self.round.saturating_add(1);
    }

    /// Records what a node is about to be asked: its budget in messages, and how many messages and
    /// how many antimessages among them its parcel delivers.
    pub(crate) fn asked(&mut self, node: u32, budget: u32, delivered: usize, antimessages: usize)
        requires { node < length self.old.turns.items }
        ensures outstanding { self.new.outstanding.items ≡ self.old.outstanding.items }
        ensures turns { length self.new.turns.items ≡ length self.old.turns.items }
        ensures floor { self.new.floor ≡ self.old.floor }
        ensures events_until_commit { self.new.events_until_commit ≡ self.old.events_until_commit }
        ensures commits { self.new.commits ≡ self.old.commits }
        ensures budgets { self.new.budgets.items ≡ self.old.budgets.items }
        ensures handled { self.new.handled_per_node.items ≡ self.old.handled_per_node.items }
    {
        self.turns[node as usize] = Turn {
            node,
            budget,
            delivered,
            antimessages,
            ..Turn::none()
        };
    }

    /// Returns the turn of a node: what its post returned, and this answer to its take.
    pub(crate) fn turn(&self, node: u32, answer: &Answer) -> Turn
        requires { node < length self.now.turns.items }
    {
        Turn {
            round: self.round,
            ..self.turns[node as usize].answered(answer)
        }
    }

    /// The floor of the parcel that is outstanding at a node, in ticks.
    pub(crate) fn outstanding(&self, node: u32) -> Option<u64>
        requires { node < length self.now.outstanding.items }
        ensures { result ≡ get_or self.now.outstanding.items node Option.None }
    {
        self.outstanding[node as usize]
    }

    /// Counts the answer to a post to a node.
    pub(crate) fn posted(&mut self, node: u32, answer: &Answer)
        requires outstanding { node < length self.old.outstanding.items }
        requires turns { node < length self.old.turns.items }
        ensures outstanding { self.new.outstanding.items ≡ set self.old.outstanding.items node
            (Option.Some (floor_in answer.now)) }
        ensures turns { length self.new.turns.items ≡ length self.old.turns.items }
        ensures floor { self.new.floor ≡ self.old.floor }
        ensures events_until_commit { self.new.events_until_commit ≡ self.old.events_until_commit }
        ensures commits { self.new.commits ≡ self.old.commits }
        ensures budgets { self.new.budgets.items ≡ self.old.budgets.items }
        ensures handled { self.new.handled_per_node.items ≡ self.old.handled_per_node.items }
    {
        let floor = floor_in(answer);
        self.outstanding[node as usize] = Some(floor);
        self.turns[node as usize].floor = floor;
    }

    /// Counts the answer to the take of a node.
    pub(crate) fn taken(&mut self, node: u32, answer: &Answer)
        requires budgets { node < length self.old.budgets.items }
        requires counts { node < length self.old.handled_per_node.items }
        requires outstanding { node < length self.old.outstanding.items }
        ensures events_until_commit { self.new.events_until_commit ≡ self.old.events_until_commit - reported_in answer.now }
        ensures budgets { self.new.budgets.items ≡ set self.old.budgets.items node
            (budget_answered (get_or self.old.budgets.items node first_budget) answer.now) }
        ensures handled { self.new.handled_per_node.items ≡ set self.old.handled_per_node.items node
            (handled_after (get_or self.old.handled_per_node.items node 0) answer.now) }
        ensures floor { self.new.floor ≡ least_of self.old.floor
            (get_or self.old.outstanding.items node Option.None) }
        ensures outstanding { self.new.outstanding.items
            ≡ set self.old.outstanding.items node Option.None }
        ensures turns { length self.new.turns.items ≡ length self.old.turns.items }
        ensures commits { self.new.commits ≡ self.old.commits }
    {
        self.answered(node);
        if let Answer::Taken { ran, fossils, .. } = *answer {
            let place = node as usize;
            self.events_until_commit = self.events_until_commit.saturating_sub(fossils);
            self.budgets[place] = self.budgets[place].after_take(ran, fossils);
            let handled = self.handled_per_node[place].saturating_add(u64::from(ran));
            self.handled_per_node[place] = handled;
        }
    }

    /// Counts the floor that a node answered.
    fn answered(&mut self, node: u32)
        requires { node < length self.old.outstanding.items }
        ensures floor { self.new.floor ≡ least_of self.old.floor
            (get_or self.old.outstanding.items node Option.None) }
        ensures outstanding { self.new.outstanding.items
            ≡ set self.old.outstanding.items node Option.None }
        ensures turns { self.new.turns ≡ self.old.turns }
        ensures events_until_commit { self.new.events_until_commit ≡ self.old.events_until_commit }
        ensures commits { self.new.commits ≡ self.old.commits }
        ensures budgets { self.new.budgets.items ≡ self.old.budgets.items }
        ensures handled { self.new.handled_per_node.items ≡ self.old.handled_per_node.items }
    {
        let place = node as usize;
        self.floor = least_of(self.floor, self.outstanding[place]);
        self.outstanding[place] = None;
    }

    /// Counts a commit; `events_until_commit` events have to be reported before the next is due.
    pub(crate) fn committed(&mut self, events_until_commit: u32)
        requires { self.old.commits < 2 ^ 32 - 1 }
        ensures events_until_commit { self.new.events_until_commit ≡ events_until_commit }
        ensures commits { self.new.commits ≡ self.old.commits + 1 }
        ensures outstanding { self.new.outstanding.items ≡ self.old.outstanding.items }
        ensures turns { length self.new.turns.items ≡ length self.old.turns.items }
        ensures floor { self.new.floor ≡ self.old.floor }
        ensures budgets { self.new.budgets.items ≡ self.old.budgets.items }
        ensures handled { self.new.handled_per_node.items ≡ self.old.handled_per_node.items }
    {
        self.events_until_commit = events_until_commit as usize;
        self.commits += 1;
    }

    /// Returns whether a round of a run to this end, in ticks, ends with a commit: at most this many
    /// of the events for one are missing, or no floor that was answered is below the end.
    pub(crate) fn is_due(&self, end: u64, missing: usize) -> bool
        ensures { result ≡ (nat_le self.now.events_until_commit missing || nat_le end self.now.floor) }
    {
        self.events_until_commit <= missing || self.floor >= end
    }

    /// Returns the number of messages that each node handled.
    pub(crate) fn into_handled_per_node(self) -> Vec<u64>
        ensures { result.items ≡ self.handled_per_node.items }
    {
        let Tally {
            handled_per_node,
            ..
        } = self;
        handled_per_node
    }

    /// The number of commits made.
    pub(crate) fn commits(&self) -> u32
        ensures { result ≡ self.now.commits }
    {
        self.commits
    }
}

impl Turn {
    /// A turn of which nothing is known yet.
    fn none() -> Turn {
        Turn {
            round: 0,
            node: 0,
            budget: 0,
            floor: 0,
            delivered: 0,
            antimessages: 0,
            handled: 0,
            sent: 0,
            reported: 0,
        }
    }

    /// Returns this turn with the numbers of the answer to a take.
    fn answered(self, answer: &Answer) -> Turn
        ensures { result ≡ turn_answered self answer.now }
    {
        match *answer {
            Answer::Taken { ran, out, fossils } => Turn {
                handled: ran,
                sent: out,
                reported: fossils,
                ..self
            },
            _ => self,
        }
    }
}

/// The floor of the parcel that was posted, in ticks.
fn floor_in(answer: &Answer) -> u64
    ensures { result ≡ floor_in answer.now }
{
    match *answer {
        Answer::Posted { floor } => floor,
        _ => 0,
    }
}

/// The least of this time and of a floor, in ticks.
fn least_of(time: u64, floor: Option<u64>) -> u64
    ensures { result ≡ least_of time floor }
{
    match floor {
        Some(floor) => time.min(floor),
        None => time,
    }
}

/// The number of antimessages at these places in transit.
pub(crate) fn antimessages(transit: &[Signed], places: &[u32]) -> usize {
    let mut count = 0usize;
    for place in places {
        if let Some(signed) = transit.get(*place as usize) {
            if signed.sign == Sign::Minus {
                count = count.saturating_add(1);
            }
        }
    }
    count
}
