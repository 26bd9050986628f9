// Runs a world on to the next bound of a commit.

ghost use Rattle.std.specs.Prelude.{◌≡◌, ◌⊎◌, ◌<◌, ◌≤◌, ◌+◌, ◌^◌, ℕ, Err, List, OnOk};
ghost use Rattle.std.specs.Prelude.{false, length, max, suc, true};
ghost use Rattle.eventkey.specs.Message.{Message};
ghost use Rattle.model.specs.Runner.{IsIdle, is_due};
ghost use Rattle.model.specs.World.{IsUpto, IsWorld};
ghost use Rattle.plain.specs.Going.{IsAdvanced, IsAtLimit, IsLeast, IsOn};

use model::{Model as Simulated, World, WorldFault};

/// Runs the world on, one virtual time after another, until at least `every` further events are
/// handled, but at least one, or nothing is pending before the end. Its time is then that of the
/// least pending message, or the end.
pub(crate) fn advance<M: Simulated>(
    model: &M,
    world: &mut World,
    every: u32,
) -> Result<(), WorldFault>
    requires lps { length world.old.world.states ≡ (M.meaning model.now).lps }
    requires left { IsIdle world.old.world.time world.old.world }
    requires early { world.old.world.time < world.old.end }
    ensures advanced { OnOk result ((events : List Message)
        × IsAdvanced every world.old world.new events) }
    ensures upto { IsUpto (M.meaning model.now) world.old.end world.old.world.time world.old.world →
        OnOk result (IsUpto (M.meaning model.now) world.old.end world.new.world.time world.new.world
        × IsLeast (M.meaning model.now) world.old.end every world.old.world world.new.world) }
    ensures limit { IsUpto (M.meaning model.now) world.old.end world.old.world.time world.old.world →
        result ≡ Err WorldFault.NumberLimit → IsAtLimit (M.meaning model.now) world.old.end }
    ensures world { IsWorld (M.meaning model.now).lps world.old.world → world.old.end ≤ 2 ^ 40 →
        OnOk result (IsWorld (M.meaning model.now).lps world.new.world) }
{
    let before = world.log().len();
    'ticks: while is_more(world, before, every) {
        run_tick(model, world)?;
    }
    finish(model, world)?;
    Ok(())
}

/// Returns whether a message is pending before the end, and fewer than `every` events were handled
/// since there were `before` of them, or none.
fn is_more(world: &World, before: usize, every: u32) -> bool
    requires { before ≤ length world.now.world.log }
    ensures more { result ≡ true → (length world.now.world.log < before + max every 1)
        × (is_due world.now.end world.now.world.pending ≡ true) }
    ensures enough { result ≡ false → (before + max every 1 ≤ length world.now.world.log)
        ⊎ IsIdle world.now.end world.now.world }
{
    let Some(least) = world.least() else {
        return false;
    };
    world.log().len() - before < every.max(1) as usize && least.time() < world.end()
}

/// Handles everything at the time of the least pending message, which is before the end.
fn run_tick<M: Simulated>(model: &M, world: &mut World) -> Result<(), WorldFault>
    requires lps { length world.old.world.states ≡ (M.meaning model.now).lps }
    requires left { IsIdle world.old.world.time world.old.world }
    requires due { is_due world.old.end world.old.world.pending ≡ true }
    ensures on { OnOk result
        (IsOn (M.meaning model.now) world.old.end world.old.world world.new.world) }
    ensures later { OnOk result (world.old.world.time < world.new.world.time) }
    ensures tick { OnOk result ((time : ℕ) × IsIdle time world.old.world
        × (world.old.world.time ≤ time) × (world.new.world.time ≡ suc time)) }
    ensures upto { IsUpto (M.meaning model.now) world.old.end world.old.world.time world.old.world →
        OnOk result
        (IsUpto (M.meaning model.now) world.old.end world.new.world.time world.new.world) }
    ensures limit { IsUpto (M.meaning model.now) world.old.end world.old.world.time world.old.world →
        result ≡ Err WorldFault.NumberLimit → IsAtLimit (M.meaning model.now) world.old.end }
    ensures end { world.new.end ≡ world.old.end }
    ensures lps { length world.new.world.states ≡ length world.old.world.states }
{
    let Some(least) = world.least() else {
        return Ok(());
    };
    world.run_to(model, least.time() + 1)
}

/// Gives the world the time of the least pending message, or that of the end if none is before it.
/// Handles nothing.
fn finish<M: Simulated>(model: &M, world: &mut World) -> Result<(), WorldFault>
    requires lps { length world.old.world.states ≡ (M.meaning model.now).lps }
    requires left { IsIdle world.old.world.time world.old.world }
    requires within { world.old.world.time ≤ world.old.end }
    ensures on { OnOk result
        (IsOn (M.meaning model.now) world.old.end world.old.world world.new.world) }
    ensures log { OnOk result (world.new.world.log ≡ world.old.world.log) }
    ensures end_reached { IsIdle world.old.end world.old.world →
        OnOk result (world.new.world.time ≡ world.old.end) }
    ensures upto { IsUpto (M.meaning model.now) world.old.end world.old.world.time world.old.world →
        OnOk result
        (IsUpto (M.meaning model.now) world.old.end world.new.world.time world.new.world) }
    ensures limit { IsUpto (M.meaning model.now) world.old.end world.old.world.time world.old.world →
        result ≡ Err WorldFault.NumberLimit → IsAtLimit (M.meaning model.now) world.old.end }
    ensures end { world.new.end ≡ world.old.end }
    ensures lps { length world.new.world.states ≡ length world.old.world.states }
{
    let bound = next_time(world);
    world.run_to(model, bound)
}

/// Returns the time of the least pending message, or that of the end if none is before it.
fn next_time(world: &World) -> u64
    ensures within { result ≤ world.now.end }
    ensures left { IsIdle result world.now.world }
    ensures end { IsIdle world.now.end world.now.world → result ≡ world.now.end }
    ensures later { (time : ℕ) → IsIdle time world.now.world → time ≤ world.now.end → time ≤ result }
{
    let Some(least) = world.least() else {
        return world.end();
    };
    least.time().min(world.end())
}
