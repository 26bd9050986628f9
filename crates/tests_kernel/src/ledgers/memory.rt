use super::*;

// A call that meets an allocation failure leaves the ledger unchanged, and a second call succeeds.
// With enough memory the first call succeeds; `rt try --test --fail-alloc N` refuses each
// allocation in turn.

fn made(alloc: Global, lows: [Option<u64>; 2]) -> Result<Ledger, LedgerFault> {
    match two_nodes(alloc, 0, lows) {
        Err(LedgerFault::NoMemory) => two_nodes(alloc, 0, lows),
        other => other,
    }
}

// The visible state of a ledger: the number of messages in transit, the first and the last of them,
// the floor, and the least floor that a node answered.
type Shown = (usize, Option<Signed>, Option<Signed>, u64, u64);

pub(super) fn shown(ledger: &Ledger) -> Shown {
    let transit = ledger.transit();
    (
        transit.len(),
        transit.first().copied(),
        transit.last().copied(),
        ledger.floor(),
        ledger.least_answered(),
    )
}

fn posted(ledger: &mut Ledger, node: u32, picks: &[u32]) -> Result<Parcel, LedgerFault> {
    let before = shown(ledger);
    match post(ledger, node, picks) {
        Err(LedgerFault::NoMemory) if shown(ledger) == before => post(ledger, node, picks),
        other => other,
    }
}

fn taken(alloc: Global, ledger: &mut Ledger, node: u32, out: &[Signed]) -> Result<(), LedgerFault> {
    let before = shown(ledger);
    match take(alloc, ledger, node, out, None) {
        Err(LedgerFault::NoMemory) if shown(ledger) == before => {
            take(alloc, ledger, node, out, None)
        }
        other => other,
    }
}

const SENT: &str = "4 0 0 1 0 0 0 0, 5 0 1 1 0 0 0 0";

#[test]
fn a_ledger_call_succeeds_after_an_allocation_failure(rt: HostRuntime) -> Result<(), Fail> {
    let mut ledger = made(rt.alloc(), [Some(6), Some(8)])?;
    let sent = signed_list(rt.alloc(), SENT)?;
    let _parcel = posted(&mut ledger, 0, &[])?;
    taken(rt.alloc(), &mut ledger, 0, sent.as_slice())?;
    let parcel = posted(&mut ledger, 1, &[1])?;
    assert_eq!(rt;
        (parcel.deliver.as_slice().len(), ledger.transit().len()),
        (1, 1)
    );
    let more = [signed("4 0 0 1 0 0 0 0")?; 20];
    taken(rt.alloc(), &mut ledger, 1, &more)?;
    assert_eq!(rt; (ledger.transit().len(), ledger.floor()), (21, 4));
    Ok(())
}
