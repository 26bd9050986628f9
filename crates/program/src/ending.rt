// The end of a run: at the end of its simulation, or because a file asked for it.

ghost use Rattle.std.specs.Prelude.{◌≡◌, ◌⊎◌, Err, Ok, OnErr, OnOk, is_some, true};
ghost use Rattle.runs.specs.declared.commands.fault.CommandFault.{CommandFault};
ghost use Rattle.eventkey.specs.Writing.{TakesBeginning};
ghost use Rattle.program.specs.Command.{IsEnded, IsNotEnded};

use crate::outcomes::of_command;
use disk_commands::Fault;
use runs::commands::{CommandFault, write_stopped};
use std::io::Write;
use terminal::Progress;

/// Reports how a run ended. Of a run that the file `stop` ended, prints what is committed:
/// `committed TIME events N`.
pub(crate) fn end_run<P: Progress, O: Write>(
    outcome: Result<(), CommandFault>,
    stop: Option<&str>,
    progress: &mut P,
    out: &mut O,
) -> Result<(), Fault>
    ensures ok { OnOk result (IsEnded outcome (is_some stop.entry) (O.contents out.old)
        (O.contents out.new)) }
    ensures err { OnErr result (IsNotEnded outcome (is_some stop.entry) (out.new ≡ out.old)
        (TakesBeginning (O.contents out.old) (O.contents out.new))) }
{
    match outcome {
        Ok(()) => {
            progress.finished();
            Ok(())
        }
        Err(fault) => end_failed(fault, stop, progress, out),
    }
}

/// Reports a run that did not reach its end.
fn end_failed<P: Progress, O: Write>(
    fault: CommandFault,
    stop: Option<&str>,
    progress: &mut P,
    out: &mut O,
) -> Result<(), Fault>
    ensures ok { OnOk result (IsEnded {T = Unit {0}} (Err fault) (is_some stop.entry)
        (O.contents out.old) (O.contents out.new)) }
    ensures err { OnErr result (IsNotEnded {T = Unit {0}} (Err fault) (is_some stop.entry)
        (out.new ≡ out.old) (TakesBeginning (O.contents out.old) (O.contents out.new))) }
{
    match fault {
        CommandFault::Stopped { time, events } => match stop {
            Some(file) => {
                progress.stopped(file, time);
                match write_stopped(time, events, out) {
                    Ok(()) => Ok(()),
                    Err(fault) => Err(of_command(fault)),
                }
            }
            None => Err(of_command(fault)),
        },
        _ => Err(of_command(fault)),
    }
}
