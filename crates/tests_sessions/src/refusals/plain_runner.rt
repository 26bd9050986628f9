// Compares the front of a session with the plain runner.

use crate::disks::END;
use coordinator::FrontView;
use model::{Model as Simulated, State, Words, World, WorldFault, WorldParts};
use std::alloc::Global;

/// The world of the plain runner at this time.
fn world_at<M: Simulated>(alloc: Global, model: &M, time: u64) -> Result<WorldParts, WorldFault> {
    let mut world = World::open(alloc, model, END)?;
    world.run_to(model, time)?;
    Ok(world.into_parts())
}

/// Whether these are the same states, process by process.
fn same_states(states: &[State], words: &[Words]) -> bool {
    states.len() == words.len()
        && states
            .iter()
            .zip(words)
            .all(|(state, words)| state.as_slice() == words.as_slice())
}

/// Whether a front is the world of the plain runner at its time. The plain run is repeated after an
/// allocation failure.
pub fn is_plain<M: Simulated>(
    alloc: Global,
    model: &M,
    front: FrontView<'_>,
) -> Result<bool, WorldFault> {
    let plain = match world_at(alloc, model, front.time) {
        Err(WorldFault::NoMemory) => world_at(alloc, model, front.time)?,
        world => world?,
    };
    Ok(
        plain.time == front.time
            && same_states(front.states, plain.states.as_slice())
            && front.numbers == plain.numbers.as_slice()
            && front.pending == plain.pending.as_slice()
            && front.log == plain.log.as_slice(),
    )
}
