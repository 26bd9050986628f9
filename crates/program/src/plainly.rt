// Attempts of runs without nodes.

ghost use Rattle.std.specs.Prelude.{◌≡◌, ◌≤◌, ◌^◌};
ghost use Rattle.disk.specs.FileDisks.{disk_of_file};
ghost use Rattle.program.specs.Attempts.{IsAttempt};
ghost use Rattle.program.specs.Command.{plain_plan_of};

use crate::parts::Tried;
use crate::watching::Watching;
use cli::RunArgs;
use disk::FileDisk;
use model::Model as Modelled;
use plain::PlainPlan;
use runs::commands::Simulated;
use std::alloc::Global;
use std::fs::File;
use std::io::Write;
use std::rt::Files;
use std::time::Clock;
use terminal::Progress;

/// Returns the plan of a run without nodes by the options of its command. A commit has room for
/// 299,592 events, and takes all those of a virtual time at once, so one is due at 250,000 at the
/// latest.
fn plain_plan_of(args: &RunArgs<'_>) -> PlainPlan
    ensures { result ≡ plain_plan_of args.now }
{
    PlainPlan {
        commit_every: args.commit_every.unwrap_or(4096).min(250_000),
        checkpoint_every: args.checkpoint.unwrap_or(0),
        seals: args.seal,
        commits: args.rounds,
    }
}

/// Makes an attempt of a run one event at a time and without nodes.
pub(crate) fn attempt_plainly<M, R, P, O>(
    alloc: Global,
    of: &Simulated<M>,
    disk: FileDisk,
    args: &RunArgs<'_>,
    watch: &mut Watching<'_, R, P>,
    out: &mut O,
) -> Tried
where
    M: Modelled,
    R: Files<File = File> + Clock,
    P: Progress,
    O: Write,
    requires some { 1 ≤ of.now.end }
    requires short { of.now.end ≤ 2 ^ 40 }
    ensures { IsAttempt (M.meaning of.now.model) of.now.end 0 (disk_of_file disk)
        (disk_of_file result.disk) result.outcome (out.new ≡ out.old) (O.contents out.old)
        (O.contents out.new) }
{
    let plan = plain_plan_of(args);
    watch.commit_every = plan.commit_every;
    runs::commands::run_plain(alloc, of, disk, plan, watch, out)
}
