use super::*;
use eventkey::{Message, Sign};

// Does a post on a plain list: takes the picked messages out by their places, and keeps the others.
fn picked_plainly(
    alloc: Global,
    transit: &mut Vec<Signed>,
    picks: &[u32],
) -> Result<Vec<Signed>, AllocError> {
    let mut deliver = Vec::new(alloc);
    for pick in picks {
        if let Some(one) = transit.get(*pick as usize) {
            deliver.push(*one)?;
        }
    }
    let mut left = Vec::new(alloc);
    for (place, one) in transit.iter().enumerate() {
        if !picks.iter().any(|pick| *pick as usize == place) {
            left.push(*one)?;
        }
    }
    *transit = left;
    Ok(deliver)
}

// Picks three in four of the messages for the node, the last one first.
fn chosen_for(alloc: Global, transit: &[Signed], node: u32) -> Result<Vec<u32>, Fail> {
    let mut picks = Vec::new(alloc);
    for (place, one) in transit.iter().enumerate() {
        if one.message.to() % 3 == node && place % 4 != 1 {
            picks.push(u32::try_from(place)?)?;
        }
    }
    picks.reverse();
    Ok(picks)
}

// The least time in transit, or the end.
fn floor_of(transit: &[Signed]) -> u64 {
    let mut floor = 5000;
    for one in transit {
        floor = one.message.time().min(floor);
    }
    floor
}

// Whether one post and its reply, which sends half of the parcel again, match a plain list.
fn posts_as_a_list(
    alloc: Global,
    ledger: &mut Ledger,
    transit: &mut Vec<Signed>,
    node: u32,
) -> Result<bool, Fail> {
    let picks = chosen_for(alloc, transit.as_slice(), node)?;
    let parcel = post(ledger, node, picks.as_slice())?;
    let deliver = picked_plainly(alloc, transit, picks.as_slice())?;
    let posted = parcel.deliver.as_slice() == deliver.as_slice()
        && ledger.transit() == transit.as_slice();
    let out = deliver.as_slice();
    let out = &out[..out.len() / 2];
    take(alloc, ledger, node, out, None)?;
    transit.extend_from_slice(out)?;
    Ok(
        posted
            && ledger.transit() == transit.as_slice()
            && ledger.floor() == floor_of(transit.as_slice()),
    )
}

// 600 messages for seven processes, of 97 times.
fn many(alloc: Global) -> Result<Vec<Signed>, Fail> {
    let mut transit = Vec::new(alloc);
    for i in 0..600u32 {
        let (time, number) = (u64::from(i % 97), u64::from(i));
        let message = Message::new(time, 0, number, i % 7, 0, 0, 0, 0)?;
        let sign = Sign::Plus;
        transit.push(Signed { sign, message })?;
    }
    Ok(transit)
}

#[test]
fn posts_from_a_long_transit_match_a_plain_list(rt: HostRuntime) -> Result<(), Fail> {
    let alloc = rt.alloc();
    let mut ledger = Ledger::new(alloc, 3, 5000, 0, &[None, None, None])?;
    let mut transit = many(alloc)?;
    sends(alloc, &mut ledger, 0, transit.as_slice(), None)?;
    for turn in 0..30u32 {
        let node = turn % 3;
        assert!(rt;
            posts_as_a_list(alloc, &mut ledger, &mut transit, node)?,
            "at {turn}"
        );
    }
    assert!(rt; transit.len() < 300);
    Ok(())
}
