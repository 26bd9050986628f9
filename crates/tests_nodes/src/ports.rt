// A node of a ring of three processes behind bytes: a round of a run, and refusals.

use crate::loads::{load, round};
use eventkey::{Message, Sign, Signed};
use loopback::LoopPort;
use models::TokenRing;
use node::{NodeFault, Reply};
use std::alloc::Global;
use std::test::Fail;
use wire::{Port, PortFault};

/// One token that goes round three processes, two ticks at each.
fn ring() -> TokenRing {
    TokenRing::new(3, 2, 1)
}

/// The reply to a round with the token at time 1.
fn replied(alloc: Global) -> Result<Reply, Fail> {
    let ring = ring();
    let mut port = LoopPort::new(alloc, &ring);
    port.load(load(alloc, 0, 2, &[1])?)?;
    Ok(round(&mut port, alloc, 1)?)
}

#[test]
fn a_node_behind_bytes_answers_a_round(rt: HostRuntime) -> Result<(), Fail> {
    let reply = replied(rt.alloc())?;
    let sent = Signed {
        sign: Sign::Plus,
        message: Message::new(3, 0, 1, 1, 0, 1, 0, 0)?,
    };
    assert_eq!(rt; reply.ran, 1);
    assert_eq!(rt; reply.out.as_slice(), [sent].as_slice());
    Ok(())
}

/// The fault of a load of another node's process.
fn refused_load(alloc: Global) -> Result<Option<PortFault>, Fail> {
    let ring = ring();
    let mut port = LoopPort::new(alloc, &ring);
    Ok(port.load(load(alloc, 1, 2, &[1])?).err())
}

/// The fault of a parcel with a lower floor than the one before.
fn refused_parcel(alloc: Global) -> Result<Option<PortFault>, Fail> {
    let ring = ring();
    let mut port = LoopPort::new(alloc, &ring);
    port.load(load(alloc, 0, 2, &[1])?)?;
    let _ = round(&mut port, alloc, 1)?;
    Ok(round(&mut port, alloc, 0).err())
}

#[test]
fn refusals_of_the_node_are_returned(rt: HostRuntime) -> Result<(), Fail> {
    let load = refused_load(rt.alloc())?;
    assert_eq!(rt; load, Some(PortFault::Peer(NodeFault::NotMine)));
    let parcel = refused_parcel(rt.alloc())?;
    assert_eq!(rt; parcel, Some(PortFault::Peer(NodeFault::FloorFell)));
    Ok(())
}
