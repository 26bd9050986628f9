// The commands that only read, as one call.

ghost use Rattle.std.specs.Prelude.{◌≡◌, ◌⊎◌, OnErr, OnOk};
ghost use Rattle.views.specs.Reading.{IsSeen, IsSeenSoFar};
ghost use Rattle.views.specs.Views.{Begins, Prints};

use crate::drawing::draw_on;
use crate::fault::ViewFault;
use crate::files::{Wrong, check_of, seq_on};
use crate::info::info_on;
use crate::reading::{Shows, log_on, show_on, stats_on, status_on, verify_on};
use cli::{
    DrawArgs, InfoArgs, LogArgs, ModelArgs, SeqArgs, ShowArgs, StatsArgs, StatusArgs, VerifyArgs,
};
use std::fs::File;
use std::io::Write;
use std::rt::Files;
use texts::Described;

/// A command that only reads, with its arguments.
#[derive(Clone, Copy)]
pub enum Look<'a> {
    /// How far the run on a disk has come, and how many sectors are free.
    Status(StatusArgs<'a>),
    /// What a disk is, without its model file.
    Info(InfoArgs<'a>),
    /// Whether a disk holds what its records say.
    Verify(VerifyArgs<'a>),
    /// The committed events on a disk.
    Log(LogArgs<'a>),
    /// The committed world of a disk.
    Show(ShowArgs<'a>),
    /// The figures of a run.
    Stats(StatsArgs<'a>),
    /// The picture of a run.
    Draw(DrawArgs<'a>),
    /// The log and the world of a run by the sequential runner.
    Seq(SeqArgs<'a>),
    /// Whether a file is a model file.
    Check(ModelArgs<'a>),
}

/// Runs a command that only reads. `watch` watches a verification. If `check` finds a mistake in a
/// model file, `found` gets the file and all of them.
pub fn look_at<M, R, W, O>(
    rt: &R,
    look: Look<'_>,
    watch: &mut W,
    out: &mut O,
    found: &mut Option<Wrong>,
) -> Result<(), ViewFault>
where
    M: Described,
    R: Files<File = File> + AllocGlobal,
    W: Shows,
    O: Write,
    ensures ok { OnOk result (Prints (IsSeen M.meaning M.says M.shows look.entry)
        (O.contents out.old) (O.contents out.new)) }
    ensures err { OnErr result ((out.new ≡ out.old)
        ⊎ Begins (IsSeenSoFar M.meaning M.says M.shows look.entry)
        (O.contents out.old) (O.contents out.new)) }
{
    match look {
        Look::Status(args) => status_on::<M, R, O>(rt, args, out),
        Look::Info(args) => info_on::<R, O>(rt, args, out),
        Look::Verify(args) => verify_on::<M, R, W, O>(rt, args, watch, out),
        Look::Log(args) => log_on::<M, R, O>(rt, args, out),
        Look::Show(args) => show_on::<M, R, O>(rt, args, out),
        Look::Stats(args) => stats_on::<M, R, O>(rt, args, out),
        Look::Draw(args) => draw_on::<M, R, O>(rt, args, out),
        Look::Seq(args) => seq_on::<M, R, O>(rt, args, out),
        Look::Check(args) => check_of::<M, R, O>(rt, args.model, out, found),
    }
}
