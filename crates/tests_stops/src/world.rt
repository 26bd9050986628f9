// Compares a front with the world of the plain runner.

use coordinator::FrontView;
use model::{State, Words, WorldParts};

/// Whether the front equals the world of the plain run.
pub fn is_front(plain: &WorldParts, front: FrontView<'_>) -> bool {
    front.time == plain.time
        && same_states(front.states, plain.states.as_slice())
        && front.numbers == plain.numbers.as_slice()
        && front.pending == plain.pending.as_slice()
        && front.log == plain.log.as_slice()
}

/// Whether these are the same states, process by process.
fn same_states(states: &[State], words: &[Words]) -> bool {
    states.len() == words.len()
        && states
            .iter()
            .zip(words)
            .all(|(state, words)| state.as_slice() == words.as_slice())
}
