// What the ledger keeps for each node.

ghost use Rattle.std.specs.Prelude.{◌≡◌};
ghost use Rattle.std.proofs.Props.{props};
ghost use Rattle.gvt.specs.Times.{low_in};

use crate::times::least_of;
use node::Parcel;
use std::snapshot::Snapshot;

/// What the ledger keeps of a parcel that its node has not answered yet. The caller holds the
/// parcel itself; only contracts see it here.
#[derive(Drop)]
pub(crate) struct Posted {
    pub parcel: Snapshot<Parcel>,
    /// The least time of the parcel's messages and antimessages, in ticks.
    pub least: Option<u64>,
    /// In ticks.
    pub floor: u64,
    ghost least_is: { least ≡ low_in parcel.value.deliver } by { Prim.hlevel props },
    ghost floor_is: { floor ≡ parcel.value.floor },
}

/// What the ledger keeps for one node.
#[derive(Drop)]
pub(crate) struct Account {
    pub posted: Option<Posted>,
    /// The least time of what waits at the node, in ticks, as last reported.
    pub low: Option<u64>,
    /// The floor of the parcel that the node answered last, in ticks.
    pub answered: u64,
}
