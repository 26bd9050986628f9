// Creates, reads and updates the nodes' accounts.

ghost use Rattle.std.specs.Prelude.{◌≡◌, ◌<◌, Some, None, IfOk, length, map, option_map, set};
ghost use Rattle.std.specs.Prelude.{is_some};
ghost use Rattle.node.specs.declared.Parcel.{Parcel};
ghost use Rattle.gvt.specs.Accounts.{floors_in, lows_in, parcel_at, parcels_in, with_node};

use crate::account::{Account, Posted};
use crate::times::{least_of, lowered};
use node::Parcel;
use std::alloc::{AllocError, Global};
use std::snapshot::Snapshot;

/// Creates one account per entry of `lows`, with no outstanding parcel.
pub(crate) fn opened(
    alloc: Global,
    floor: u64,
    lows: &[Option<u64>],
) -> Result<Vec<Account>, AllocError>
    ensures { IfOk result (λ v. v.items ≡ map
        (λ low. record { posted = None; low = low; answered = floor }) lows.now) }
{
    lows.iter()
        .map(|low| Account {
            posted: None,
            low: *low,
            answered: floor,
        })
        .collect(alloc)
}

/// Returns what the ledger keeps of an outstanding parcel.
fn kept(parcel: &Parcel) -> Posted
    ensures { result.parcel.value ≡ parcel.now }
{
    Posted {
        parcel: Snapshot::of(parcel),
        least: least_of(parcel.deliver.as_slice()),
        floor: parcel.floor,
    }
}

/// Records that the parcel is outstanding at the node.
pub(crate) fn note_posted(accounts: &mut [Account], node: usize, parcel: &Parcel)
    requires { node < length accounts.old }
    ensures parcels { parcels_in accounts.new ≡ set (parcels_in accounts.old) node
        (Some parcel.now) }
    ensures lows { lows_in accounts.new ≡ lows_in accounts.old }
    ensures floors { floors_in accounts.new ≡ floors_in accounts.old }
{
    let account = &mut accounts[node];
    account.posted = Some(kept(parcel));
}

/// Records that the node answered its parcel, which had this floor, and reported this low.
pub(crate) fn note_answered(accounts: &mut [Account], node: usize, low: Option<u64>, floor: u64)
    requires { node < length accounts.old }
    ensures parcels { parcels_in accounts.new ≡ set (parcels_in accounts.old) node None }
    ensures lows { lows_in accounts.new ≡ set (lows_in accounts.old) node low }
    ensures floors { floors_in accounts.new ≡ set (floors_in accounts.old) node floor }
{
    accounts[node] = Account {
        posted: None,
        low,
        answered: floor,
    };
}

impl Account {
    /// Whether a parcel is outstanding at the node.
    pub(crate) fn is_busy(&self) -> bool
        ensures { result ≡ is_some (parcel_at self.now) }
    {
        self.posted.is_some()
    }

    /// The floor of the node's outstanding parcel, in ticks.
    pub(crate) fn posted_floor(&self) -> Option<u64>
        ensures { result ≡ option_map (λ (parcel : Parcel). parcel.floor) (parcel_at self.now) }
    {
        match &self.posted {
            Some(posted) => Some(posted.floor),
            None => None,
        }
    }

    /// Returns the floor of other nodes, in ticks, lowered by this node's low and by the least time
    /// of its outstanding parcel.
    pub(crate) fn lowers(&self, floor: u64) -> u64
        ensures { result ≡ with_node floor self.now }
    {
        let floor = lowered(floor, self.low);
        match &self.posted {
            Some(posted) => lowered(floor, posted.least),
            None => floor,
        }
    }
}
