// Reads the command line.

ghost use Rattle.std.specs.Prelude.{◌≡◌, ◌≤◌, map, option_map, IfOk, IfSome};
ghost use Rattle.clap.specs.Words.{found_of, rows_of, FailsBy};
ghost use Rattle.cli.specs.Command.{model_of, refusal_of, IsDrawRanged, IsLogRanged, IsNamed};
ghost use Rattle.cli.specs.Command.{IsRanged, IsStatsRanged, SaysFile, SaysInfo, SaysSeq};
ghost use Rattle.cli.specs.Command.{IsRunRanged, IsSized, Says, SaysDisk, SaysDraw, SaysGrow};
ghost use Rattle.cli.specs.Command.{SaysKeptDisk, SaysKeptFile};
ghost use Rattle.cli.specs.Command.{SaysLog, SaysMigrate, SaysModel, SaysNew, SaysNode};
ghost use Rattle.cli.specs.Command.{SaysRecover, SaysRows, SaysRun, SaysShow, SaysSource};
ghost use Rattle.cli.specs.Command.{SaysStats, SaysStatus, SaysVerify};

use crate::command::{
    Command, DiskArgs, DrawArgs, GrowArgs, InfoArgs, LogArgs, MigrateArgs, ModelArgs, ModelFile,
    NewArgs, NodeArgs, RecoverArgs, RunArgs, SeqArgs, Settings, ShowArgs, SourceArgs, StatsArgs,
    StatusArgs, VerifyArgs,
};
use crate::company::LAST_TIME;
use crate::grammar::{MOST_NODES, Texts, most_sectors, program};
use crate::values::{
    batch, format, is_flagged, is_text, judge, optional_number, optional_small_number,
    optional_text, range, refusal, rounds, small_number, small_number_or, table, text,
};
use clap::{ArgMatches, Error};
use std::alloc::Global;
use std::convert::AsStr;

/// Returns the command that the words name, with its values. The first word is the program's own
/// name, and `texts` are the texts of its help. The model file of the command gets these settings,
/// which `settings_of` finds in the words.
///
/// If they name none, returns `clap`'s error: its text says what is wrong, or is the help or the
/// version that was asked for (of the kinds `DisplayHelp` and `DisplayVersion`). Then come an invalid
/// batch and an invalid number of sectors (`ValueValidation`), and an invalid range of processes,
/// an unknown format and an unknown table (`InvalidValue`), in `clap`'s words; then options that do
/// not go together, each in `clap`'s form: options of node programs without `--sockets`,
/// `--sectors`, `--reserve` or `--keep-model` of `run` without `--create`, `--seal` without
/// `--checkpoint`, `--warm-up` without `--table` (`MissingRequiredArgument`); `--overlap` with
/// `--together`, `--bind` with `--attach`, `--plain` with an option of nodes, `--model` with a table,
/// two of `--load`, `--trace`, `--histogram` and a value change dump, and `--histogram` with a choice
/// of events (`ArgumentConflict`); and a time of `--to` before that of `--from` (`ValueValidation`).
/// If an allocation failed, the result is an error of `clap` too.
pub fn read_command<'a, S: AsStr>(
    alloc: Global,
    texts: Texts<'a>,
    words: &'a [S],
    settings: Settings<'a>,
) -> Result<Command<'a>, Error>
    ensures ok { IfOk result (Says texts.entry.name.now (map S.text words.entry.now)) }
    ensures ranged { IfOk result IsRanged }
    ensures set { IfOk result (λ command.
        IfSome (model_of command) (λ file. file.settings ≡ settings.entry)) }
    ensures refused { FailsBy (refusal_of texts.entry.name.now (map S.text words.entry.now))
        result }
{
    let matches = program(alloc, texts)?.try_get_matches_from(words)?;
    match matches.subcommand() {
        Some((name, values)) => match refusal(alloc, texts.name, values) {
            Some(error) => Err(error),
            None => Ok(command_of(name, values, settings)),
        },
        None => unreachable!(),
    }
}

/// The command of this name with these values.
fn command_of<'a>(name: &str, values: &ArgMatches<'a>, settings: Settings<'a>) -> Command<'a>
    requires { IsNamed name.now }
    ensures says { SaysRows result name.now (rows_of (found_of values.now)) }
    ensures ranged { IsRanged result }
    ensures set { IfSome (model_of result) (λ file. file.settings ≡ settings.entry) }
{
    match name {
        "new" => Command::New(new_args(values, settings)),
        "run" => Command::Run(run_args(values, settings)),
        "extend" => Command::Extend(disk_args(values, settings)),
        "grow" => Command::Grow(grow_args(values, settings)),
        "migrate" => Command::Migrate(migrate_args(values, settings)),
        "reopen" => Command::Reopen(disk_args(values, settings)),
        "cut" => Command::Cut(disk_args(values, settings)),
        "recover" => Command::Recover(recover_args(values, settings)),
        "status" => Command::Status(status_args(values, settings)),
        "info" => Command::Info(info_args(values)),
        "verify" => Command::Verify(verify_args(values, settings)),
        "log" => Command::Log(log_args(values, settings)),
        "show" => Command::Show(show_args(values, settings)),
        "stats" => Command::Stats(stats_args(values, settings)),
        "draw" => Command::Draw(draw_args(values, settings)),
        "seq" => Command::Seq(seq_args(values, settings)),
        "check" => Command::Check(model_args(values, settings)),
        _ => Command::Node(node_args(values, settings)),
    }
}

/// The model file of a command.
fn model_file<'a>(values: &ArgMatches<'a>, settings: Settings<'a>) -> ModelFile<'a>
    ensures says { SaysFile result (rows_of (found_of values.now)) }
    ensures set { result.settings ≡ settings.entry }
{
    ModelFile {
        path: text(values, "MODEL"),
        settings,
        kept_by: None,
    }
}

/// The model file of a command that looks at this disk, if at any: `-` is the model that the disk
/// keeps.
fn kept_file<'a>(
    values: &ArgMatches<'a>,
    settings: Settings<'a>,
    disk: Option<&'a str>,
) -> ModelFile<'a>
    ensures says { SaysKeptFile result (option_map (λ path. path.now) disk.entry)
        (rows_of (found_of values.now)) }
    ensures set { result.settings ≡ settings.entry }
{
    let path = text(values, "MODEL");
    ModelFile {
        path,
        settings,
        kept_by: if path == "-" { disk } else { None },
    }
}

/// The argument of a command on a model file alone.
fn model_args<'a>(values: &ArgMatches<'a>, settings: Settings<'a>) -> ModelArgs<'a>
    ensures says { SaysModel result (rows_of (found_of values.now)) }
    ensures set { result.model.settings ≡ settings.entry }
{
    ModelArgs {
        model: model_file(values, settings),
    }
}

/// The arguments of a command on a model file and a disk.
fn disk_args<'a>(values: &ArgMatches<'a>, settings: Settings<'a>) -> DiskArgs<'a>
    ensures says { SaysDisk result (rows_of (found_of values.now)) }
    ensures set { result.model.settings ≡ settings.entry }
{
    DiskArgs {
        model: model_file(values, settings),
        disk: text(values, "DISK"),
        large: is_flagged(values, "large"),
    }
}

/// The arguments of a command on a model file, which the disk may keep, and a disk.
fn kept_args<'a>(values: &ArgMatches<'a>, settings: Settings<'a>) -> DiskArgs<'a>
    ensures says { SaysKeptDisk result (rows_of (found_of values.now)) }
    ensures set { result.model.settings ≡ settings.entry }
{
    let disk = text(values, "DISK");
    DiskArgs {
        model: kept_file(values, settings, Some(disk)),
        disk,
        large: is_flagged(values, "large"),
    }
}

/// The arguments of a command on a run of a model file, on a disk or not.
fn source_args<'a>(values: &ArgMatches<'a>, settings: Settings<'a>) -> SourceArgs<'a>
    ensures says { SaysSource result (rows_of (found_of values.now)) }
    ensures set { result.model.settings ≡ settings.entry }
{
    let disk = optional_text(values, "DISK");
    SourceArgs {
        model: kept_file(values, settings, disk),
        disk,
        large: is_flagged(values, "large"),
    }
}

/// The arguments of `new`.
fn new_args<'a>(values: &ArgMatches<'a>, settings: Settings<'a>) -> NewArgs<'a>
    ensures says { SaysNew result (rows_of (found_of values.now)) }
    ensures ranged { IsSized result.sectors result.on.large }
    ensures set { result.on.model.settings ≡ settings.entry }
{
    let on = disk_args(values, settings);
    let sectors = small_number(values, "sectors", 8, most_sectors(on.large));
    NewArgs {
        on,
        sectors,
        reserve: is_flagged(values, "reserve"),
        over: is_flagged(values, "over"),
        from: optional_text(values, "origin"),
        keep_model: is_flagged(values, "keep-model"),
    }
}

/// The arguments of `run`.
fn run_args<'a>(values: &ArgMatches<'a>, settings: Settings<'a>) -> RunArgs<'a>
    ensures says { SaysRun result (rows_of (found_of values.now)) }
    ensures ranged { IsRunRanged result }
    ensures set { result.on.model.settings ≡ settings.entry }
{
    let on = disk_args(values, settings);
    RunArgs {
        on,
        nodes: small_number_or(values, "nodes", 1, MOST_NODES as u32, 1),
        batch: batch(values),
        rounds: rounds(values),
        checkpoint: optional_small_number(values, "checkpoint", 1, 1_000_000),
        seal: is_flagged(values, "seal"),
        commit_every: optional_small_number(values, "commit-every", 1, 400_000),
        sockets: optional_text(values, "sockets"),
        cut: optional_small_number(values, "cut", 0, u32::MAX),
        together: is_flagged(values, "together"),
        overlap: is_flagged(values, "overlap"),
        plain: is_flagged(values, "plain"),
        attach: is_flagged(values, "attach"),
        bind: is_flagged(values, "bind"),
        judge: judge(values),
        silence: optional_small_number(values, "silence", 1, 86_400),
        retries: optional_small_number(values, "retries", 0, 1_000_000),
        grow_when_full: is_flagged(values, "grow-when-full"),
        archive_when_full: is_flagged(values, "archive-when-full"),
        keep: optional_small_number(values, "keep", 0, u32::MAX),
        trace: optional_text(values, "trace"),
        stop_file: optional_text(values, "stop-file"),
        progress: optional_small_number(values, "progress", 1, 86_400),
        create: is_flagged(values, "create"),
        sectors: small_number_or(values, "created", 8, most_sectors(on.large), 4_096),
        reserve: is_flagged(values, "reserved"),
        keep_model: is_flagged(values, "kept"),
    }
}

/// The arguments of `grow`.
fn grow_args<'a>(values: &ArgMatches<'a>, settings: Settings<'a>) -> GrowArgs<'a>
    ensures says { SaysGrow result (rows_of (found_of values.now)) }
    ensures ranged { IsSized result.sectors result.on.large }
    ensures set { result.on.model.settings ≡ settings.entry }
{
    let on = disk_args(values, settings);
    let most = most_sectors(on.large);
    let sectors = small_number_or(values, "sectors", 8, most, most);
    GrowArgs { on, sectors }
}

/// The arguments of `migrate`.
fn migrate_args<'a>(values: &ArgMatches<'a>, settings: Settings<'a>) -> MigrateArgs<'a>
    ensures says { SaysMigrate result (rows_of (found_of values.now)) }
    ensures ranged { IsSized result.sectors result.large }
    ensures set { result.model.settings ≡ settings.entry }
{
    let large = is_flagged(values, "large");
    MigrateArgs {
        model: model_file(values, settings),
        old: text(values, "OLD"),
        new: text(values, "NEW"),
        sectors: small_number(values, "sectors", 8, most_sectors(large)),
        reserve: is_flagged(values, "reserve"),
        large,
    }
}

/// The arguments of `recover`.
fn recover_args<'a>(values: &ArgMatches<'a>, settings: Settings<'a>) -> RecoverArgs<'a>
    ensures says { SaysRecover result (rows_of (found_of values.now)) }
    ensures ranged { IsSized result.sectors result.large }
    ensures set { result.model.settings ≡ settings.entry }
{
    let large = is_flagged(values, "large");
    RecoverArgs {
        model: model_file(values, settings),
        old: text(values, "DISK"),
        new: text(values, "NEW"),
        sectors: small_number(values, "sectors", 8, most_sectors(large)),
        reserve: is_flagged(values, "reserve"),
        large,
    }
}

/// The arguments of `status`.
fn status_args<'a>(values: &ArgMatches<'a>, settings: Settings<'a>) -> StatusArgs<'a>
    ensures says { SaysStatus result (rows_of (found_of values.now)) }
    ensures set { result.on.model.settings ≡ settings.entry }
{
    StatusArgs {
        on: kept_args(values, settings),
        format: format(values),
    }
}

/// The arguments of `info`.
fn info_args<'a>(values: &ArgMatches<'a>) -> InfoArgs<'a>
    ensures { SaysInfo result (rows_of (found_of values.now)) }
{
    InfoArgs {
        disk: text(values, "DISK"),
        large: is_flagged(values, "large"),
        model: is_flagged(values, "model"),
        format: format(values),
    }
}

/// The arguments of `seq`.
fn seq_args<'a>(values: &ArgMatches<'a>, settings: Settings<'a>) -> SeqArgs<'a>
    ensures says { SaysSeq result (rows_of (found_of values.now)) }
    ensures set { result.model.settings ≡ settings.entry }
{
    SeqArgs {
        model: model_file(values, settings),
        format: format(values),
    }
}

/// The arguments of `verify`.
fn verify_args<'a>(values: &ArgMatches<'a>, settings: Settings<'a>) -> VerifyArgs<'a>
    ensures says { SaysVerify result (rows_of (found_of values.now)) }
    ensures set { result.on.model.settings ≡ settings.entry }
{
    VerifyArgs {
        on: kept_args(values, settings),
        after: optional_text(values, "after"),
    }
}

/// The arguments of `log`.
fn log_args<'a>(values: &ArgMatches<'a>, settings: Settings<'a>) -> LogArgs<'a>
    ensures says { SaysLog result (rows_of (found_of values.now)) }
    ensures ranged { IsLogRanged result }
    ensures set { result.on.model.settings ≡ settings.entry }
{
    LogArgs {
        on: kept_args(values, settings),
        from: optional_number(values, "from", 0, LAST_TIME),
        to: optional_number(values, "to", 0, LAST_TIME),
        process: optional_small_number(values, "process", 0, u32::MAX),
        names: is_flagged(values, "names"),
        format: format(values),
    }
}

/// The arguments of `show`.
fn show_args<'a>(values: &ArgMatches<'a>, settings: Settings<'a>) -> ShowArgs<'a>
    ensures says { SaysShow result (rows_of (found_of values.now)) }
    ensures set { result.on.model.settings ≡ settings.entry }
{
    ShowArgs {
        on: kept_args(values, settings),
        names: is_flagged(values, "names"),
        pending: is_flagged(values, "pending"),
        format: format(values),
    }
}

/// The arguments of `stats`.
fn stats_args<'a>(values: &ArgMatches<'a>, settings: Settings<'a>) -> StatsArgs<'a>
    ensures says { SaysStats result (rows_of (found_of values.now)) }
    ensures ranged { IsStatsRanged result }
    ensures set { result.of.model.settings ≡ settings.entry }
{
    StatsArgs {
        of: source_args(values, settings),
        format: format(values),
        names: is_flagged(values, "names"),
        table: table(values),
        warm_up: optional_number(values, "warm-up", 0, LAST_TIME),
    }
}

/// The arguments of `draw`.
fn draw_args<'a>(values: &ArgMatches<'a>, settings: Settings<'a>) -> DrawArgs<'a>
    ensures says { SaysDraw result (rows_of (found_of values.now)) }
    ensures ranged { IsDrawRanged result }
    ensures set { result.of.model.settings ≡ settings.entry }
{
    DrawArgs {
        of: source_args(values, settings),
        from: optional_number(values, "from", 0, LAST_TIME),
        to: optional_number(values, "to", 0, LAST_TIME),
        processes: range(values),
        load: is_flagged(values, "load"),
        trace: optional_text(values, "trace"),
        vcd: is_text(optional_text(values, "picture"), "vcd"),
        histogram: optional_text(values, "histogram"),
    }
}

/// The arguments of `node`.
fn node_args<'a>(values: &ArgMatches<'a>, settings: Settings<'a>) -> NodeArgs<'a>
    ensures says { SaysNode result (rows_of (found_of values.now)) }
    ensures ranged { 1 ≤ result.parcels }
    ensures set { result.model.settings ≡ settings.entry }
{
    NodeArgs {
        model: model_file(values, settings),
        socket: text(values, "SOCKET"),
        parcels: small_number(values, "parcels", 1, u32::MAX),
    }
}
