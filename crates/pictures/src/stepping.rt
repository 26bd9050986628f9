// A simulation in steps that forgets the events that it has handled, so that it needs memory for
// its world, and not for its log.

ghost use Rattle.std.specs.Prelude.{◌≡◌, ◌≤◌, ◌*◌, ◌++◌, ◌^◌, Ok, IfOk, IsOkUnless, List, false};
ghost use Rattle.std.specs.Prelude.{length, min};
ghost use Rattle.eventkey.specs.Message.{Message};
ghost use Rattle.model.specs.Runner.{IsIdle, IsRun};
ghost use Rattle.model.specs.declared.WorldFault.TheVariants.{NoMemory};
ghost use Rattle.pictures.specs.Stepping.{comes_before, with_log, without_log};

use eventkey::Message;
use model::{Model, World, WorldFault, WorldParts};
use std::alloc::Global;

/// The number of events in the first piece of a simulation that is printed piece by piece, so that
/// its first lines come at once.
pub const EVENTS_AT_FIRST: usize = 256;

/// The most events in a piece. Each piece is twice as large as the one before it, up to this number.
pub const EVENTS_AT_MOST: usize = 16_384;

/// Returns how many events the piece after one of `events` has.
pub fn next_piece(events: usize) -> usize
    ensures { result ≡ min (events * 2) 16384 }
{
    events.saturating_mul(2).min(EVENTS_AT_MOST)
}

/// The number of events from which on a simulation forgets them.
pub(crate) const EVENTS_KEPT: usize = 1 << 16;

/// Handles the next events before `g` ticks and before the end, at most `most`. Returns whether there
/// may be more of them. The faults are those of `World::step`, and come after the events before.
pub fn step_some<M: Model>(
    model: &M,
    world: &mut World,
    g: u64,
    most: usize,
) -> Result<bool, WorldFault>
    requires { length world.old.world.states ≡ (M.meaning model.now).lps }
    ensures run { IsRun (M.meaning model.now) (min g world.old.end) world.old.world
        world.new.world }
    ensures idle { result ≡ Ok false → IsIdle (min g world.old.end) world.new.world }
    ensures end { world.new.end ≡ world.old.end }
    ensures lps { length world.new.world.states ≡ length world.old.world.states }
{
    let bound = g.min(world.end());
    for _ in 0..most {
        if !comes_before(world.least(), bound) {
            return Ok(false);
        }
        world.step(model)?;
    }
    Ok(true)
}

/// Returns whether there is a message, and it is before a time in ticks.
fn comes_before(message: Option<Message>, time: u64) -> bool
    ensures { result ≡ comes_before message time }
{
    match message {
        Some(message) => message.time() < time,
        None => false,
    }
}

/// Returns a world, which ends at `end`, without its log if that has 2^16 events or more.
pub fn forget(alloc: Global, world: World, end: u64) -> Result<World, WorldFault>
    requires some { 1 ≤ end }
    requires end { end ≤ 2 ^ 40 }
    requires same { world.end ≡ end }
    ensures { IfOk result (λ w. (past : List Message) × (past ++ w.world.log ≡ world.world.log)
        × (w ≡ record { end = end; world = with_log w.world.log world.world })) }
{
    if world.log().len() < EVENTS_KEPT {
        return Ok(world);
    }
    without_log(alloc, world, end)
}

/// Returns a world, which ends at `end`, without its log.
pub(crate) fn without_log(alloc: Global, world: World, end: u64) -> Result<World, WorldFault>
    requires some { 1 ≤ end }
    requires end { end ≤ 2 ^ 40 }
    ensures world { IfOk result
        (λ w. w ≡ record { end = end; world = without_log world.world }) }
    ensures refused { IsOkUnless result WorldFault.NoMemory }
{
    let WorldParts {
        time,
        states,
        numbers,
        pending,
        log: _,
    } = world.into_parts();
    World::resume(alloc, end, time, states, numbers, pending, Vec::new(alloc))
}
