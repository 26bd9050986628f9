// The picked messages of a node's next parcel.

ghost use Rattle.std.specs.Prelude.{◌≡◌, ◌<◌, ◌^◌, IfOk, length};
ghost use Rattle.runs.specs.Driver.{places_for};

use eventkey::Signed;
use std::alloc::{AllocError, Global};

/// Returns the places in transit of the messages for a node, ascending: all that 32 bits can
/// number. Costs one pass over transit.
pub(crate) fn places(
    alloc: Global,
    transit: &[Signed],
    node: u32,
    nodes: u32,
) -> Result<Vec<u32>, AllocError>
    requires { 0 < nodes }
    ensures { length transit.now < 2 ^ 32 →
        IfOk result (λ places. places.items ≡ places_for nodes node 0 transit.now) }
{
    // With one node everything in transit is for it; with more, about its share.
    let mut places = Vec::with_capacity(alloc, transit.len() / nodes as usize)?;
    'transit: for (place, signed) in transit.iter().enumerate() {
        if signed.message.to() % nodes == node {
            match u32::try_from(place) {
                Ok(place) => places.push(place)?,
                Err(_) => break 'transit,
            }
        }
    }
    Ok(places)
}
