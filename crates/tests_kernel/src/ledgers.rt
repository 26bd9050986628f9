// The ledger of a run of two nodes, and its posts compared with a plain list.

use crate::rows::{signed, signed_list};
use eventkey::{Listed, Signed};
use gvt::{Ledger, LedgerFault};
use node::{Parcel, Reply};
use process::Reports;
use std::alloc::{AllocError, Global};
use std::test::Fail;

mod memory;
mod rounds;

fn reply(alloc: Global, out: &[Signed], low: Option<u64>) -> Result<Reply, AllocError> {
    Ok(Reply {
        out: Listed::from_vec(out.to_vec(alloc)?),
        low,
        fossils: Reports::new(alloc),
        ran: 0,
    })
}

// These calls are in functions without contracts, which keeps the proofs of the tests short.
fn two_nodes(alloc: Global, floor: u64, lows: [Option<u64>; 2]) -> Result<Ledger, LedgerFault> {
    Ledger::new(alloc, 2, 10, floor, &lows)
}

fn post(ledger: &mut Ledger, node: u32, picks: &[u32]) -> Result<Parcel, LedgerFault> {
    ledger.post(node, picks, 7)
}

fn take(
    alloc: Global,
    ledger: &mut Ledger,
    node: u32,
    out: &[Signed],
    low: Option<u64>,
) -> Result<(), LedgerFault> {
    ledger.take(node, &reply(alloc, out, low)?)
}

// Posts an empty parcel to the node, whose reply sends these messages. Returns the parcel's floor.
fn sends(
    alloc: Global,
    ledger: &mut Ledger,
    node: u32,
    out: &[Signed],
    low: Option<u64>,
) -> Result<u64, LedgerFault> {
    let parcel = post(ledger, node, &[])?;
    take(alloc, ledger, node, out, low)?;
    Ok(parcel.floor)
}

// A ledger of two nodes with these lows, of which node 0 has sent these messages.
fn sent_by_one(
    alloc: Global,
    lows: [Option<u64>; 2],
    sent: &[Signed],
) -> Result<Ledger, LedgerFault> {
    let mut ledger = two_nodes(alloc, 0, lows)?;
    sends(alloc, &mut ledger, 0, sent, lows[0])?;
    Ok(ledger)
}

// The number of messages in transit, the floor, and the least floor that a node answered.
fn counted(ledger: &Ledger) -> (usize, u64, u64) {
    let (floor, answered) = (ledger.floor(), ledger.least_answered());
    (ledger.transit().len(), floor, answered)
}

#[test]
fn an_unanswered_parcel_holds_the_floor(rt: HostRuntime) -> Result<(), Fail> {
    let sent = [signed("4 0 0 1 0 0 0 0")?];
    let mut ledger = sent_by_one(rt.alloc(), [Some(6), Some(8)], &sent)?;
    let parcel = post(&mut ledger, 1, &[0])?;
    assert_eq!(rt; parcel.deliver.as_slice(), sent.as_slice());
    assert_eq!(rt; (parcel.budget, parcel.floor), (7, 4));
    assert_eq!(rt; counted(&ledger), (0, 4, 0));
    take(rt.alloc(), &mut ledger, 1, &[], None)?;
    assert_eq!(rt; ledger.floor(), 6);
    Ok(())
}

#[test]
fn an_antimessage_in_transit_holds_the_floor(rt: HostRuntime) -> Result<(), Fail> {
    let sent = [signed("-3 0 0 1 0 0 0 0")?];
    let ledger = sent_by_one(rt.alloc(), [Some(5), Some(5)], &sent)?;
    assert_eq!(rt; counted(&ledger), (1, 3, 0));
    Ok(())
}

#[test]
fn a_post_to_a_busy_node_changes_nothing(rt: HostRuntime) -> Result<(), Fail> {
    let sent = [signed("4 0 0 1 0 0 0 0")?];
    let mut ledger = sent_by_one(rt.alloc(), [Some(6), Some(8)], &sent)?;
    let _parcel = post(&mut ledger, 1, &[])?;
    let before = memory::shown(&ledger);
    assert!(rt; post(&mut ledger, 1, &[0]).err() == Some(LedgerFault::Busy));
    assert!(rt; memory::shown(&ledger) == before);
    take(rt.alloc(), &mut ledger, 1, &[], Some(8))?;
    let parcel = post(&mut ledger, 1, &[0])?;
    assert!(rt; parcel.deliver.as_slice() == sent.as_slice());
    Ok(())
}

#[test]
fn a_floor_is_answered_with_its_parcel(rt: HostRuntime) -> Result<(), Fail> {
    let mut ledger = two_nodes(rt.alloc(), 1, [Some(4), Some(6)])?;
    assert_eq!(rt; ledger.least_answered(), 1);
    let first = sends(rt.alloc(), &mut ledger, 0, &[], Some(7))?;
    assert_eq!(rt; (first, ledger.least_answered()), (4, 1));
    let second = sends(rt.alloc(), &mut ledger, 1, &[], Some(9))?;
    assert_eq!(rt; (second, counted(&ledger)), (6, (0, 7, 4)));
    Ok(())
}
