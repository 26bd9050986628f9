// The messages in transit, by place.

ghost use Rattle.std.specs.Prelude.{◌≡◌, ◌++◌, ◌<◌, ◌≤◌, ◌↔◌, ℕ, [], length, take, get_or};
ghost use Rattle.std.specs.Prelude.{replicate, false, ◌&&◌, OnOk, OnErr, IfOk, IfErr, IsErrOf, ◌⊎◌};
ghost use Rattle.std.specs.Prelude.{IsTrue, slice_index, not};
ghost use Rattle.eventkey.specs.declared.Signed.{Signed};
ghost use Rattle.gvt.specs.Marks.{unmarked};
ghost use Rattle.gvt.specs.Picks.{are_distinct, can_pick, not_picked, picked};
ghost use Rattle.gvt.specs.Times.{low_in};

use crate::LedgerFault;
use crate::times::{least_of, lesser};
use eventkey::Signed;
use std::alloc::{AllocError, Global};
use std::marker::Model;

/// The messages and antimessages that are in no parcel, each at its place.
#[derive(Drop)]
pub(crate) struct Transit {
    messages: Vec<Signed>,
    /// One mark per place; all are clear except while places are picked.
    marks: Vec<bool>,
    /// The least time of the messages, in ticks.
    least: Option<u64>,
}

impl Model for Transit {
    ghost use Rattle.std.specs.Prelude.{◌≡◌, List, length, replicate, false};
    ghost use Rattle.eventkey.specs.declared.Signed.{Signed};
    ghost use Rattle.gvt.specs.Times.{low_in};

    ghost Value = { List Signed };

    ghost view = { λ t. t.messages.items };

    ghost invariant = { λ t. (t.marks.items ≡ replicate (length t.messages.items) false)
        × (t.least ≡ low_in t.messages.items) };
}

impl Transit {
    /// Returns an empty transit. Does not allocate.
    pub(crate) fn new(alloc: Global) -> Transit
        ensures { result ≡ [] }
    {
        Transit {
            messages: Vec::new(alloc),
            marks: Vec::new(alloc),
            least: None,
        }
    }

    /// The messages by place.
    pub(crate) fn as_slice(&self) -> &[Signed]
        ensures { result.now ≡ self.now }
    {
        self.messages.as_slice()
    }

    /// The least time of the messages, in ticks, if there are any.
    pub(crate) fn least(&self) -> Option<u64>
        ensures { result ≡ low_in self.now }
    {
        self.least
    }

    /// Appends these messages.
    pub(crate) fn append(&mut self, sent: &[Signed]) -> Result<(), AllocError>
        ensures ok { OnOk result (self.new ≡ self.old ++ sent.now) }
        ensures err { OnErr result (self.new ≡ self.old) }
    {
        self.marks.reserve(sent.len())?;
        self.messages.extend_from_slice(sent)?;
        self.marks.resize(self.messages.len(), false).unwrap();
        self.least = lesser(self.least, least_of(sent));
        Ok(())
    }

    /// Removes and returns the messages at the picked places, in the order of the picks; the others
    /// keep their order.
    ///
    /// The cost is that of the picks and, if there are any, of one pass over transit.
    pub(crate) fn pick(
        &mut self,
        nodes: u32,
        node: u32,
        picks: &[u32],
    ) -> Result<Vec<Signed>, LedgerFault>
        requires { 0 < nodes }
        ensures taken { IfOk result (λ v. v.items ≡ picked self.old picks.now) }
        ensures left { OnOk result (self.new ≡ not_picked picks.now 0 self.old) }
        ensures no_such_pick { IsErrOf result LedgerFault.NoSuchPick
            ↔ ((can_pick nodes node self.old picks.now && are_distinct picks.now) ≡ false) }
        ensures faults { IfErr result (λ fault. (fault ≡ LedgerFault.NoSuchPick)
            ⊎ (fault ≡ LedgerFault.NoMemory)) }
        ensures err { OnErr result (self.new ≡ self.old) }
    {
        if picks.is_empty() {
            return Ok(Vec::new(*self.messages.allocator()));
        }
        let picked = chosen(
            *self.messages.allocator(),
            self.messages.as_slice(),
            self.marks.as_mut_slice(),
            nodes,
            node,
            picks,
        );
        if picked.is_ok() {
            self.least = drop_marked(&mut self.messages, &mut self.marks);
        } else {
            self.marks.as_mut_slice().fill(false);
        }
        picked
    }
}

/// Marks the picked places until a pick is not a place, has a message for another node or comes
/// twice. Returns whether all picks are good.
fn mark(messages: &[Signed], marks: &mut [bool], nodes: u32, node: u32, picks: &[u32]) -> bool
    requires some { 0 < nodes }
    requires clear { marks.old ≡ replicate (length messages.now) false }
    ensures good { result ≡ (can_pick nodes node messages.now picks.now && are_distinct picks.now) }
    ensures marked { IsTrue result → unmarked marks.new messages.now
        ≡ not_picked picks.now 0 messages.now }
{
    for pick in picks {
        let place = *pick as usize;
        if place >= messages.len() || marks[place] || messages[place].message.to() % nodes != node {
            return false;
        }
        marks[place] = true;
    }
    true
}

/// Returns the messages at the picked places, in the order of the picks. On success exactly these
/// places are marked.
fn chosen(
    alloc: Global,
    messages: &[Signed],
    marks: &mut [bool],
    nodes: u32,
    node: u32,
    picks: &[u32],
) -> Result<Vec<Signed>, LedgerFault>
    requires some { 0 < nodes }
    requires clear { marks.old ≡ replicate (length messages.now) false }
    ensures taken { IfOk result (λ v. v.items ≡ picked messages.now picks.now) }
    ensures marked { OnOk result (unmarked marks.new messages.now
        ≡ not_picked picks.now 0 messages.now) }
    ensures no_such_pick { IsErrOf result LedgerFault.NoSuchPick
        ↔ ((can_pick nodes node messages.now picks.now && are_distinct picks.now) ≡ false) }
    ensures faults { IfErr result (λ fault. (fault ≡ LedgerFault.NoSuchPick)
        ⊎ (fault ≡ LedgerFault.NoMemory)) }
{
    if !mark(messages, marks, nodes, node, picks) {
        return Err(LedgerFault::NoSuchPick);
    }
    copied(alloc, messages, picks)
}

/// The messages at these places, in the order of the picks.
fn copied(alloc: Global, messages: &[Signed], picks: &[u32]) -> Result<Vec<Signed>, LedgerFault>
    requires { (k : ℕ) → k < length picks.now → slice_index picks.now k < length messages.now }
    ensures ok { IfOk result (λ v. v.items ≡ picked messages.now picks.now) }
    ensures err { IfErr result (λ fault. fault ≡ LedgerFault.NoMemory) }
{
    let mut picked = Vec::with_capacity(alloc, picks.len())?;
    for pick in picks {
        picked.push(messages[*pick as usize])?;
    }
    Ok(picked)
}

/// Moves the unmarked messages to the front, in their order, and clears the marks. Returns their
/// number and their least time in ticks, if there are any.
fn sweep(messages: &mut [Signed], marks: &mut [bool]) -> (usize, Option<u64>)
    requires { length marks.old ≡ length messages.old }
    ensures within { result.0 ≤ length messages.old }
    ensures kept { take result.0 messages.new ≡ unmarked marks.old messages.old }
    ensures clear { marks.new ≡ replicate (length messages.old) false }
    ensures least { result.1 ≡ low_in (unmarked marks.old messages.old) }
{
    let mut kept = 0;
    let mut least = None;
    for place in 0..marks.len() {
        if marks[place] {
            marks[place] = false;
        } else {
            let unmarked = messages[place];
            messages[kept] = unmarked;
            least = lesser(least, Some(unmarked.message.time()));
            kept += 1;
        }
    }
    (kept, least)
}

/// Removes the marked messages; the others keep their order, and their marks are clear. Returns the
/// least time of those left, in ticks, if there are any.
fn drop_marked(messages: &mut Vec<Signed>, marks: &mut Vec<bool>) -> Option<u64>
    requires { length marks.old.items ≡ length messages.old.items }
    ensures left { messages.new.items ≡ unmarked marks.old.items messages.old.items }
    ensures clear { marks.new.items ≡ replicate (length messages.new.items) false }
    ensures least { result ≡ low_in messages.new.items }
{
    let (kept, least) = sweep(messages.as_mut_slice(), marks.as_mut_slice());
    messages.truncate(kept);
    marks.truncate(kept);
    least
}
