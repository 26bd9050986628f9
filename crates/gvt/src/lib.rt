//! The ledger of a running simulation: what travels between its nodes, and the floor below which
//! nothing rolls back (global virtual time: Jefferson 1985, Fujimoto 1990); and the laws of the
//! whole running system, over every list of its moves.
#![tactic(auto)]

ghost use Rattle.std.specs.Prelude.{◌≡◌, ◌<◌, ◌≤◌, ◌↔◌, ℕ, true, false, length, IfOk, OnOk, OnErr};
ghost use Rattle.std.specs.Prelude.{IsErrOf, IsTrue, Some, None, get_or};
ghost use Rattle.node.specs.declared.Parcel.{Parcel};
ghost use Rattle.gvt.specs.Ledger.{Ledger, after_post, after_take, first_ledger, floor_of, is_busy};
ghost use Rattle.gvt.specs.Ledger.{least_floor, may_pick, nodes_of, outstanding, parcel_of};
ghost use Rattle.gvt.specs.declared.LedgerFault.TheVariants.{NoMemory};

mod account;
mod accounts;
mod laws;
mod times;
mod transit;

use account::Account;
use accounts::{note_answered, note_posted, opened};
use eventkey::{Listed, Signed};
pub use laws::{
    law_of_commits, law_of_judged_commits, law_of_ledgers, law_of_moves, law_of_nodes,
    law_of_openings, law_of_parcels, law_of_runs, optimistic_equals_sequential,
};
use node::{Parcel, Reply};
use std::alloc::{AllocError, AllocFailed, Global};
use std::marker::Model;
use thiserror::Error;
use times::lowered;
use transit::Transit;

/// Why the ledger refuses a call.
#[derive(Clone, Copy, Debug, PartialEq, Eq, Error)]
pub enum LedgerFault {
    /// A parcel is outstanding at the node.
    #[error("Busy")]
    Busy,
    /// No parcel is outstanding at the node.
    #[error("Idle")]
    Idle,
    /// No node has this number.
    #[error("NoSuchNode")]
    NoSuchNode,
    /// A pick is not a place in transit, has a message for another node, or repeats another pick.
    #[error("NoSuchPick")]
    NoSuchPick,
    /// An allocation failed.
    #[error("NoMemory")]
    NoMemory,
}

impl From<AllocError> for LedgerFault {
    ghost from_gives = { λ _ e. e ≡ NoMemory };

    fn from(_error: AllocError) -> LedgerFault {
        LedgerFault::NoMemory
    }
}

impl<T: Drop> From<AllocFailed<T>> for LedgerFault {
    ghost from_gives = { λ _ e. e ≡ NoMemory };

    fn from(_error: AllocFailed<T>) -> LedgerFault {
        LedgerFault::NoMemory
    }
}

/// The answer of a move.
#[derive(Clone, Copy, Debug, PartialEq, Eq)]
pub enum Answer {
    /// A parcel with this floor, in ticks, was posted.
    Posted {
        floor: u64,
    },
    /// The node handled `ran` messages, sent `out` messages and antimessages, and reported
    /// `fossils` handlings.
    Taken {
        ran: u32,
        out: usize,
        fossils: usize,
    },
    /// The front moved to the virtual time `g`, in ticks, by `events` events.
    Committed {
        g: u64,
        events: usize,
    },
    /// There is nothing to commit: the front stays at the virtual time `g`, in ticks.
    AlreadyAt {
        g: u64,
    },
    /// The whole front, at the virtual time `g`, in ticks, is written as a checkpoint.
    Checkpointed {
        g: u64,
    },
}

/// What travels between the nodes, what each node reported last, and the floor that follows from
/// both.
///
/// In contracts it is a record: the end, the transit, and for each node its outstanding parcel, its
/// last low and the floor of the parcel that it answered last.
pub struct Ledger {
    end: u64,
    nodes: u32,
    transit: Transit,
    accounts: Vec<Account>,
}

// Not derived: with a derived `Drop`, each caller that drops a ledger would have to prove again how
// its fields are dropped.
impl Drop for Ledger {
    fn drop(self) {
        let Ledger {
            end: _,
            nodes: _,
            transit: _,
            accounts: _,
        } = self;
    }
}

impl Model for Ledger {
    ghost use Rattle.std.specs.Prelude.{◌≡◌, length};
    ghost use Rattle.gvt.specs.Ledger.{Ledger};

    ghost Value = { Ledger };

    ghost use Rattle.gvt.specs.Accounts.{floors_in, lows_in, parcels_in};

    ghost view = { λ l. record {
      end = l.end;
      transit = l.transit;
      parcels = parcels_in
          l.accounts.items;
      lows = lows_in l.accounts.items;
      floors = floors_in l.accounts.items;
    } };

    ghost invariant = { λ l. length l.accounts.items ≡ l.nodes };
}

impl Ledger {
    /// Returns a ledger of `nodes` nodes over which nothing travels yet.
    ///
    /// No floor is above `end`, in ticks. Each node starts with `floor` as the floor that it
    /// answered last, in ticks, and with its entry of `lows`: the least time of what waits at it,
    /// in ticks, or `None` if nothing waits. Fails only with `NoMemory`.
    pub fn new(
        alloc: Global,
        nodes: u32,
        end: u64,
        floor: u64,
        lows: &[Option<u64>],
    ) -> Result<Ledger, LedgerFault>
        requires { length lows.now ≡ nodes }
        ensures ok { IfOk result (λ ledger. ledger ≡ first_ledger nodes end floor lows.now) }
        ensures err { OnErr result (IsErrOf result LedgerFault.NoMemory) }
    {
        Ok(Ledger {
            end,
            nodes,
            transit: Transit::new(alloc),
            accounts: opened(alloc, floor, lows)?,
        })
    }

    /// The messages and antimessages in transit, which are in no parcel, by place. Does not
    /// allocate.
    pub fn transit(&self) -> &[Signed]
        ensures { result.now ≡ self.now.transit }
    {
        self.transit.as_slice()
    }

    /// Returns whether a parcel is outstanding at the node, which must exist. Does not allocate.
    pub fn busy(&self, node: u32) -> bool
        requires { node < nodes_of self.now }
        ensures { result ≡ is_busy self.now node }
    {
        self.accounts[node as usize].is_busy()
    }

    /// The floor, in ticks: the least of the end, the times in transit, the times in outstanding
    /// parcels and the lows that the nodes reported last. Does not allocate; costs one pass over
    /// the nodes.
    pub fn floor(&self) -> u64
        ensures { result ≡ floor_of self.now }
    {
        let mut floor = lowered(self.end, self.transit.least());
        for account in &self.accounts {
            floor = account.lowers(floor);
        }
        floor
    }

    /// The least of the end and of the floors of the parcels that the nodes answered last, in
    /// ticks. Does not allocate.
    pub fn least_answered(&self) -> u64
        ensures { result ≡ least_floor self.now.end self.now.floors }
    {
        let mut least = self.end;
        for account in &self.accounts {
            least = least.min(account.answered);
        }
        least
    }

    /// Removes the picked places from transit and returns their messages as the node's parcel, with
    /// the floor that held before the call. The node may handle at most `budget` messages.
    ///
    /// The parcel has the messages in the order of the picks; the others keep their order. Fails,
    /// checked in this order, if no node has this number (`NoSuchNode`), if a parcel is outstanding
    /// there (`Busy`), if a pick is not a place in transit, has a message for another node or comes
    /// twice (`NoSuchPick`), or if an allocation fails (`NoMemory`); then nothing changes. The cost
    /// is that of the picks and of the nodes and, if there are picks, of one pass over transit.
    pub fn post(&mut self, node: u32, picks: &[u32], budget: u32) -> Result<Parcel, LedgerFault>
        ensures parcel { IfOk result (λ parcel. parcel ≡ parcel_of self.old picks.now budget) }
        ensures posted { OnOk result (self.new ≡ after_post self.old node picks.now budget) }
        ensures no_such_node { IsErrOf result LedgerFault.NoSuchNode ↔ (nodes_of self.old ≤ node) }
        ensures busy { IsErrOf result LedgerFault.Busy ↔ ((node < nodes_of self.old) × IsTrue
            (is_busy self.old node)) }
        ensures no_such_pick { IsErrOf result LedgerFault.NoSuchPick ↔ ((node < nodes_of self.old)
            × (is_busy self.old node ≡ false) × (may_pick self.old node picks.now ≡ false)) }
        ensures no_memory { IsErrOf result LedgerFault.NoMemory → (node < nodes_of self.old)
            × (is_busy self.old node ≡ false) × IsTrue (may_pick self.old node picks.now) }
        ensures idle { IsErrOf result LedgerFault.Idle → ⊥ }
        ensures err { OnErr result (self.new ≡ self.old) }
    {
        if node >= self.nodes {
            return Err(LedgerFault::NoSuchNode);
        }
        if self.accounts[node as usize].is_busy() {
            return Err(LedgerFault::Busy);
        }
        let floor = self.floor();
        let deliver = self.transit.pick(self.nodes, node, picks)?;
        let parcel = Parcel {
            deliver: Listed::from_vec(deliver),
            budget,
            floor,
        };
        note_posted(self.accounts.as_mut_slice(), node as usize, &parcel);
        Ok(parcel)
    }

    /// Records the node's reply to its outstanding parcel: what it sent is appended to transit, and
    /// its low and that parcel's floor replace the node's earlier ones.
    ///
    /// Fails, checked in this order, if no node has this number (`NoSuchNode`), if no parcel is
    /// outstanding there (`Idle`), or if an allocation fails (`NoMemory`); then nothing changes.
    pub fn take(&mut self, node: u32, reply: &Reply) -> Result<(), LedgerFault>
        ensures ok { (parcel : Parcel) → outstanding self.old node ≡ Some parcel → OnOk result
            (self.new ≡ after_take self.old node parcel reply.now) }
        ensures no_such_node { IsErrOf result LedgerFault.NoSuchNode ↔ (nodes_of self.old ≤ node) }
        ensures idle { IsErrOf result LedgerFault.Idle ↔ ((node < nodes_of self.old)
            × (is_busy self.old node ≡ false)) }
        ensures no_memory { IsErrOf result LedgerFault.NoMemory → (node < nodes_of self.old)
            × IsTrue (is_busy self.old node) }
        ensures others { (IsErrOf result LedgerFault.Busy → ⊥)
            × (IsErrOf result LedgerFault.NoSuchPick → ⊥) }
        ensures err { OnErr result (self.new ≡ self.old) }
    {
        if node >= self.nodes {
            return Err(LedgerFault::NoSuchNode);
        }
        let Some(answered) = self.accounts[node as usize].posted_floor() else {
            return Err(LedgerFault::Idle);
        };
        self.transit.append(reply.out.as_slice())?;
        note_answered(
            self.accounts.as_mut_slice(),
            node as usize,
            reply.low,
            answered,
        );
        Ok(())
    }
}
