// The commands, their arguments and their help, as `clap` takes them.

ghost use Rattle.std.specs.Prelude.{◌≡◌, ◌≤◌, false, true, IfOk};
ghost use Rattle.clap.specs.Words.{app_of, rule_of};
ghost use Rattle.clap.specs.declared.builder.command.Command.TheViews.{out-Command as fields_of};
ghost use Rattle.cli.specs.Command.{advice_option, any_text, choice_option};
ghost use Rattle.cli.specs.Command.{created_option, draw_command, flag, format_option};
ghost use Rattle.cli.specs.Command.{info_command, kept_option, log_command, picture_option};
ghost use Rattle.cli.specs.Command.{grow_command, large_option, migrate_command, refusing};
ghost use Rattle.cli.specs.Command.{most_sectors, on_any_disk, origin_option};
ghost use Rattle.cli.specs.Command.{new_command, node_command, number_option, on_disk, on_model};
ghost use Rattle.cli.specs.Command.{optional_argument, optional_number, optional_text};
ghost use Rattle.cli.specs.Command.{quiet_option, recover_command, reserve_option, seed_option};
ghost use Rattle.cli.specs.Command.{set_option};
ghost use Rattle.cli.specs.Command.{reserved_option, run_apart, run_command, run_kept, run_made};
ghost use Rattle.cli.specs.Command.{run_stored, path_argument, program_of};
ghost use Rattle.cli.specs.Command.{seq_command, show_command, stats_command, status_command};
ghost use Rattle.cli.specs.Command.{text_option};
ghost use Rattle.cli.specs.Command.{time_option};
ghost use Rattle.cli.specs.Command.{verify_command, without_commands};
ghost use Rattle.cli.specs.Command.{AddsArgument, AddsCommand, AddsRule, IsApp};

use crate::company::LAST_TIME;
use clap::builder::ValueParser;
use clap::{Arg, ArgAction, Command as ClapCommand};
use std::alloc::{AllocError, Global};

/// The texts of the help that differ between programs.
#[derive(Clone, Copy)]
pub struct Texts<'a> {
    /// The program's name.
    pub name: &'a str,
    /// What `--version` prints after the name: `0.4.0 (disks of format 2)`.
    pub version: &'a str,
    /// What follows the list of commands; `program_help` writes it.
    pub help: &'a str,
    /// What follows the arguments of `seq`; `seq_help` writes it.
    pub seq_help: &'a str,
}

/// The program with all commands.
pub fn program<'a>(alloc: Global, texts: Texts<'a>) -> Result<ClapCommand<'a>, AllocError>
    ensures is { IfOk result (IsApp (program_of texts.entry.name.now)) }
    ensures required { IfOk result (λ c. (fields_of c).subcommand_required ≡ true) }
{
    let Texts {
        name,
        version,
        help,
        seq_help,
    } = texts;
    let program = with_command(Ok(without_commands(alloc, name, version, help)), new(alloc));
    let program = with_command(program, run(alloc));
    let program = with_command(
        program,
        on_any_disk(alloc, "extend", EXTEND_ABOUT, EXTEND_HELP),
    );
    let program = with_command(program, grow(alloc));
    let program = with_command(program, migrate(alloc));
    let program = with_command(
        program,
        on_any_disk(alloc, "reopen", REOPEN_ABOUT, REOPEN_HELP),
    );
    let program = with_command(program, on_any_disk(alloc, "cut", CUT_ABOUT, CUT_DISK_HELP));
    let program = with_command(program, recover(alloc));
    let program = with_command(program, status(alloc));
    let program = with_command(program, info(alloc));
    let program = with_command(program, verify(alloc));
    let program = with_command(program, log(alloc));
    let program = with_command(program, show(alloc));
    let program = with_command(program, stats(alloc));
    let program = with_command(program, draw(alloc));
    let program = with_command(program, seq(alloc, seq_help));
    let program = with_command(program, on_model(alloc, "check", CHECK_ABOUT, CHECK_HELP));
    with_command(program, node(alloc))
}

/// The program without its commands.
fn without_commands<'a>(
    alloc: Global,
    name: &'a str,
    version: &'a str,
    help: &'a str,
) -> ClapCommand<'a>
    ensures { IsApp (without_commands name.entry.now) result }
{
    ClapCommand::new(alloc, name)
        .about(
            "Simulates logical processes that send one another messages stamped with virtual times",
        )
        .version(version)
        .after_help(help)
        .subcommand_required(true)
        .arg_required_else_help(true)
        .disable_help_subcommand(true)
}

/// The help that follows a program's list of commands, with the program's name and the path of an
/// example of a model file.
pub fn program_help(alloc: Global, name: &str, example: &str) -> Result<String, AllocError> {
    format!(in alloc;
        "\
Virtual times are whole ticks. Models are described by TOML files, as {example}.
A disk is a file, which 'new' makes. A run that is killed goes on from its last commit when
'run' is called again, with any number of nodes.

Exit status:
  0  done
  1  a fault, printed on standard error after '{name}: '
  2  a mistake in the command line, or help by --help

Faults:
  BadModel     the file is no model file ('{name} check' says why)
  File         a file cannot be read, or is no disk, or one of another size, or another run has
               it; or a node's socket is not made, or its program does not start or does not
               connect
  Log ..       the disk: NotBlank (it has a log), NotFormatted, Corrupt, Disk ..
  Recovery ..  the disk is of another simulation or of format 1 (OtherModel), or is damaged
  Session ..   a run stops: Full (the disk has no room), Recovery .., Disk, NoMemory, Port .. (a
               node's program ended, or answered what is no reply), or Reports (with --judge all:
               nodes reported what the model does not do); or 'extend' does: EndRefused (the end
               is not a later one), or as a run
  Node N OtherModel  the program of node N is of another simulation than its run
  Setting N ..  the Nth of --set and --seed: NoSuchKey (the model file has no key, no number and no
               KIND.count of this name), OtherKind (it has another kind of value there)
  Segment ..   NotTheNext (a disk does not go on from the one before it), or TooLong (a world has
               no room in the first record of a disk)
  Rounds       all rounds of a run are made, and it is not at its end
  Migrate ..   'migrate' stops: Old .. (OLD has another format, is of another simulation, or is
               damaged), New .. (NEW: Full (it has no room), Disk .., NoMemory)
  Grow ..      'grow' stops: Fewer (the disk has more sectors), TooMany, Device, NoMemory
  Shut         'new' finds records behind a closed gate ('reopen' opens it)
  Reopen ..    'reopen' stops: NotShut (the gate is open), Log .., Recovery .., Record N ..
  NothingToCut  'cut' finds no record at fault
  Recover New ..  'recover' stops: NEW: NotBlank (it has a log), Full (it has no room), Disk ..
  Record N ..  'status' or 'verify' finds the record behind N others at fault: BadRecord,
               NotTheLeast, ..
  World ..     'seq', 'stats' or 'draw' stops: NoMemory, or NumberLimit past 2^63 messages of one
               process
  BadTrace     'draw --trace' finds that the file is not as 'run --trace' writes one
  Wire ..      'node' stops: Truncated, TooLong, BadKind, BadBody (what was received is not a
               frame allowed at that point), Io, NoMemory
  OtherModel   'node' finds that its run is of another simulation
  NoSuchProcess  'log' or 'draw' is asked for a process that the model does not have
  NoSuchWord   'draw --histogram' is asked for a word that no message has
  NoMemory     memory ran out elsewhere
  Output       standard output refused a write

A second line says which file a fault is about, and what the system says, but not with --quiet or
TIMEWARP_ADVICE=0 in the environment. With --advice or TIMEWARP_ADVICE=1, what to do about the fault
follows it, as it always does on a terminal.

'{name} help' prints this on standard output, with status 0, '{name} help COMMAND' the help of a
command, and '{name} help TOPIC' what there is to say on a topic:
  nodes       nodes and node programs, what a run finds out about them, and which way is fastest
  commits     when a run commits, checkpoints and seals
  unattended  runs of days, that nobody watches
  segments    archived parts, and disks that go on from other disks
  repair      what to do about a damaged disk
  looking     what shows a run and its results
  statuses    exit statuses and faults of scripts"
    )
}

/// The command `new`.
fn new<'a>(alloc: Global) -> Result<ClapCommand<'a>, AllocError>
    ensures { IfOk result (IsApp new_command) }
{
    let command = on_disk(alloc, "new", NEW_ABOUT, NEW_HELP);
    let sectors = text_option(alloc, "sectors", "N", "4096", SECTORS_HELP);
    let command = with_argument(command, sectors);
    let command = with_argument(command, reserve_option(alloc));
    let command = with_argument(command, flag(alloc, "over", OVER_HELP));
    let command = with_argument(command, origin_option(alloc));
    let command = with_argument(command, flag(alloc, "keep-model", KEEP_MODEL_HELP));
    with_argument(command, large_option(alloc))
}

/// The option for the disk that a new one goes on from. It is `--from`, but has a name of its own
/// for the other commands' option, which is a time.
fn origin_option<'a>(alloc: Global) -> Arg<'a>
    ensures rule { rule_of result ≡ origin_option }
    ensures local { result.global ≡ false }
{
    optional_text(alloc, "origin", "DISK", ORIGIN_HELP).long("from")
}

const NEW_ABOUT: &str = "Makes a disk with an empty log for a model";

const OVER_HELP: &str = "Formats a file that holds other bytes, which are then lost";

const ORIGIN_HELP: &str = "Begins with the committed world of this disk (see 'help segments')";

const KEEP_MODEL_HELP: &str =
    "Keeps the model's text in DISK.model, for MODEL '-' (see 'help looking')";

const SECTORS_HELP: &str = "Sectors of 512 bytes, 8 to 131072, or with --large to 16777216";

const RESERVE_HELP: &str = "Gives the file all its room on the device at once, by writing zeros";

const LARGE_HELP: &str = "Allows up to 16777216 sectors instead of 131072";

const NEW_HELP: &str = "\
If the file exists, it must be empty, or have the size that is asked for. One with a log is refused
(Log NotBlank), and without --over one with other bytes (File).

Each commit takes at least 2 sectors, and 9 events take about 1. The default has room for at most
2,000 commits, so a run of more rounds fills it (Session Full), and 'grow' makes it longer. For a
model that you do not know use --sectors 131072, and 'run' with --batch auto --commit-every 4096.
The file takes room on its device only as sectors are written. With --reserve it gets all its room
at once: 'new' fails where the device has less (File), and commits take less time.

In memory a disk takes 512 bytes for each sector that is used, and a byte for each that it has.
The commands take a disk of more than 131072 sectors only with --large.

Output:
  formatted N sectors
  goes on from TIME events N   with --from: the time of that world, and the events before it";

/// The command `run`.
fn run<'a>(alloc: Global) -> Result<ClapCommand<'a>, AllocError>
    ensures { IfOk result (IsApp run_command) }
{
    let rounds = text_option(alloc, "rounds", "N", "1000000", ROUNDS_HELP);
    let retries = optional_number(alloc, "retries", "N", 0, 1_000_000, RETRIES_HELP);
    let stop = optional_text(alloc, "stop-file", "FILE", STOP_HELP);
    let command = with_option(run_stored(alloc), UNATTENDED, rounds);
    let command = with_option(with_option(command, UNATTENDED, retries), UNATTENDED, stop);
    let progress = optional_number(alloc, "progress", "SECONDS", 1, 86_400, PROGRESS_HELP);
    let trace = optional_text(alloc, "trace", "FILE", TRACE_HELP);
    let command = with_option(with_option(command, LOOKING, progress), LOOKING, trace);
    with_argument(command, large_option(alloc))
}

/// The command `run` with the options for nodes, for what it writes and on which disk.
fn run_stored<'a>(alloc: Global) -> Result<ClapCommand<'a>, AllocError>
    ensures { IfOk result (IsApp run_stored) }
{
    let create = flag(alloc, "create", CREATE_HELP);
    let command = with_option(run_kept(alloc), UNATTENDED, create);
    let command = with_option(command, UNATTENDED, created_option(alloc));
    let command = with_option(command, UNATTENDED, reserved_option(alloc));
    let command = with_option(command, UNATTENDED, kept_option(alloc));
    let archive = flag(alloc, "archive-when-full", ARCHIVE_HELP);
    let keep = optional_number(alloc, "keep", "K", 0, 4_294_967_295, KEEP_HELP);
    let grow = flag(alloc, "grow-when-full", GROW_WHEN_FULL_HELP);
    let command = with_option(with_option(command, UNATTENDED, archive), UNATTENDED, keep);
    with_option(command, UNATTENDED, grow)
}

/// The command `run` with the options for nodes, and for what it writes to its disk.
fn run_kept<'a>(alloc: Global) -> Result<ClapCommand<'a>, AllocError>
    ensures { IfOk result (IsApp run_kept) }
{
    let commit = optional_number(alloc, "commit-every", "E", 1, 400_000, COMMIT_HELP);
    let checkpoint = optional_number(alloc, "checkpoint", "E", 1, 1_000_000, CHECKPOINT_HELP);
    let seal = flag(alloc, "seal", SEAL_HELP);
    let command = with_option(run_apart(alloc), COMMITS, commit);
    with_option(with_option(command, COMMITS, checkpoint), COMMITS, seal)
}

/// The command `run` with the options for how it is made and over which node programs.
fn run_apart<'a>(alloc: Global) -> Result<ClapCommand<'a>, AllocError>
    ensures { IfOk result (IsApp run_apart) }
{
    let sockets = optional_text(alloc, "sockets", "DIR", SOCKETS_HELP);
    let command = with_option(run_made(alloc), PROGRAMS, sockets);
    let command = with_option(command, PROGRAMS, flag(alloc, "attach", ATTACH_HELP));
    let command = with_option(command, PROGRAMS, flag(alloc, "bind", BIND_HELP));
    let judge = any_text(alloc, "judge", "N", JUDGE_HELP);
    let silence = optional_number(alloc, "silence", "SECONDS", 1, 86_400, SILENCE_HELP);
    let cut = optional_number(alloc, "cut", "I", 0, 4_294_967_295, CUT_HELP);
    let command = with_option(with_option(command, PROGRAMS, judge), PROGRAMS, silence);
    with_option(command, PROGRAMS, cut)
}

/// The command `run` with the options for how it is made.
fn run_made<'a>(alloc: Global) -> Result<ClapCommand<'a>, AllocError>
    ensures { IfOk result (IsApp run_made) }
{
    let nodes = optional_number(alloc, "nodes", "N", 1, MOST_NODES, NODES_HELP);
    let batch = any_text(alloc, "batch", "N", BATCH_HELP);
    let command = with_option(on_disk(alloc, "run", RUN_ABOUT, RUN_HELP), NODES, nodes);
    let command = with_option(command, NODES, batch);
    let command = with_option(command, NODES, flag(alloc, "together", TOGETHER_HELP));
    let command = with_option(command, NODES, flag(alloc, "overlap", OVERLAP_HELP));
    with_option(command, NODES, flag(alloc, "plain", PLAIN_HELP))
}

// The purposes of options, under which the help of `run` has them, in this order.

const NODES: &str = "Nodes";

const PROGRAMS: &str = "Nodes that are programs (with --sockets)";

const COMMITS: &str = "Commits and checkpoints";

const UNATTENDED: &str = "Unattended runs";

const LOOKING: &str = "Looking";

/// The option for the number of sectors of a disk that a run makes. It is `--sectors`, but has
/// a name of its own for the other commands' option, which has a default.
fn created_option<'a>(alloc: Global) -> Arg<'a>
    ensures rule { rule_of result ≡ created_option }
    ensures local { result.global ≡ false }
{
    any_text(alloc, "created", "N", CREATED_HELP).long("sectors")
}

/// The flag for the room of a disk that a run makes. It is `--reserve`, but has a name of its own
/// for the other commands' flag, which needs no other option.
fn reserved_option<'a>(alloc: Global) -> Arg<'a>
    ensures rule { rule_of result ≡ reserved_option }
    ensures local { result.global ≡ false }
{
    flag(alloc, "reserved", RESERVED_HELP).long("reserve")
}

/// The flag for keeping the model's text beside a disk that a run makes. It is `--keep-model`, but
/// has a name of its own for the other commands' flag, which needs no other option.
fn kept_option<'a>(alloc: Global) -> Arg<'a>
    ensures rule { rule_of result ≡ kept_option }
    ensures local { result.global ≡ false }
{
    flag(alloc, "kept", KEPT_HELP).long("keep-model")
}

const RUN_ABOUT: &str = "Runs a model on its disk, from the last commit to its end";

// These three have no default for `clap`, so that one sees whether they are used.

/// The maximum number of nodes of a run.
pub(crate) const MOST_NODES: u64 = 64;

const NODES_HELP: &str = "How many nodes share the processes, 1 to 64 [default: 1]";

const BATCH_HELP: &str =
    "Messages that a node handles at a turn, 1 to 4294967295, or 'auto' [default: 16]";

const JUDGE_HELP: &str = "Checks one report in N by the model, 0 for none, or 'all' [default: 64]";

const TOGETHER_HELP: &str = "Hands work to all nodes before a reply is taken, so they work at once";

const OVERLAP_HELP: &str =
    "Hands new work to a node as soon as its reply is taken, also during commits";

const PLAIN_HELP: &str = "Runs without nodes, one event at a time: the fastest on one core";

const SOCKETS_HELP: &str = "Runs each node as a program of its own, behind the socket DIR/nodeI";

const ATTACH_HELP: &str = "Starts no node programs: waits for them to connect, in any order";

const BIND_HELP: &str = "Gives each node program that is started a processor of its own";

const SILENCE_HELP: &str =
    "Counts a node program as lost after SECONDS without an answer, 1 to 86400";

const CUT_HELP: &str = "Ends the program of node I after one reply, to see what a run leaves then";

const COMMIT_HELP: &str = "Commits after E more events, 1 to 400000, and not in each round";

const CHECKPOINT_HELP: &str = "Keeps the state in a record after each E-th commit, 1 to 1000000";

const SEAL_HELP: &str = "With --checkpoint: a seal follows each one, so a changed file is refused";

const CREATE_HELP: &str = "Makes the disk first, as 'new' does, if its file is not there";

const CREATED_HELP: &str = "With --create: how many sectors, as 'new' takes them [default: 4096]";

const RESERVED_HELP: &str = "With --create: gives the file all its room at once, by writing zeros";

const KEPT_HELP: &str = "With --create: keeps the model's text in DISK.model, as 'new' does";

const ARCHIVE_HELP: &str = "Archives a full disk as DISK.TIME, and goes on on a new one";

const KEEP_HELP: &str = "With --archive-when-full: keeps the newest K parts, 0 to 4294967295";

const GROW_WHEN_FULL_HELP: &str = "Makes a full disk longer, and goes on";

const ROUNDS_HELP: &str = "Stops after N rounds, 1 to 4294967295, or 'unlimited'";

const RETRIES_HELP: &str = "Begins again up to N times, 0 to 1000000, when a node program is lost";

const STOP_HELP: &str = "Commits and ends, with status 0, once FILE is there";

const PROGRESS_HELP: &str = "Prints progress each SECONDS where there is no terminal, 1 to 86400";

const TRACE_HELP: &str = "Writes a row for each turn of a node to FILE, by commas (CSV)";

const RUN_HELP: &str = "\
In a round each node has its turn, and what no rollback can reach any more is committed.
However a run ends, what was committed stays on the disk, and the next run goes on from there.
A signal (Ctrl-C, SIGTERM) ends it at once: the line of progress on a terminal says up to which time
all is committed, and the same command goes on from there; --stop-file lets it commit first.

One command at a time writes to a disk: another is refused (File). 'log', 'show', 'status', 'stats'
and 'draw' can run beside it, and print what was committed when they read the disk.

A disk of format 1 fails with Session Recovery OtherModel; only 'migrate' reads it.

Topics with more: 'help nodes', 'help commits', 'help unattended', 'help segments', 'help looking'.

Output:
  node NODE ran N           messages that the node handled, with those that were rolled back
  committed TIME events N   ticks, and events in the log

Without nodes, or where --stop-file ends the run, it prints the second line alone.";

const EXTEND_ABOUT: &str = "Gives a disk a later end than the one it was made for";

const EXTEND_HELP: &str = "\
The model file is that of the disk, but with a later end. From then on it is the disk's model file:
'run' goes on to that end, and a model file with another end is refused. What is committed stays.

Output:
  extended E0 to E1   the end before and this one, in ticks";

/// The command `grow`.
fn grow<'a>(alloc: Global) -> Result<ClapCommand<'a>, AllocError>
    ensures { IfOk result (IsApp grow_command) }
{
    let command = on_disk(alloc, "grow", GROW_ABOUT, GROW_HELP);
    let command = with_argument(command, any_text(alloc, "sectors", "N", GROWN_HELP));
    with_argument(command, large_option(alloc))
}

const GROW_ABOUT: &str = "Makes a disk longer, so that its run has room again";

const GROWN_HELP: &str =
    "Sectors in all, 8 to 131072, or with --large to 16777216 [default: the most]";

const GROW_HELP: &str = "\
Adds sectors of zeros behind those that the disk has; what is committed stays, whenever the power
is cut. A disk that has more sectors than asked for is refused (Grow Fewer).

Output:
  grown S0 to S1 sectors   how many it had, and has now";

/// The command `migrate`.
fn migrate<'a>(alloc: Global) -> Result<ClapCommand<'a>, AllocError>
    ensures { IfOk result (IsApp migrate_command) }
{
    let command = on_model(alloc, "migrate", MIGRATE_ABOUT, MIGRATE_HELP);
    let command = with_argument(
        command,
        path(alloc, "OLD", "The file of the disk of format 1"),
    );
    let command = with_argument(
        command,
        path(alloc, "NEW", "The file of the disk of format 2"),
    );
    let sectors = text_option(alloc, "sectors", "N", "4096", SECTORS_HELP);
    let command = with_argument(command, sectors);
    let command = with_argument(command, reserve_option(alloc));
    with_argument(command, large_option(alloc))
}

const MIGRATE_ABOUT: &str = "Copies a disk of format 1 to a new disk of format 2";

const MIGRATE_HELP: &str = "\
Reads a disk of format 1 (OLD), as earlier versions made it, and writes what is committed there to
NEW in format 2; OLD is only read. The model file is that of OLD.

If NEW exists, it must have the size that is asked for, and no log.

Output:
  migrated TIME events N   ticks, and events in the log";

/// The command `recover`.
fn recover<'a>(alloc: Global) -> Result<ClapCommand<'a>, AllocError>
    ensures { IfOk result (IsApp recover_command) }
{
    let command = on_disk(alloc, "recover", RECOVER_ABOUT, RECOVER_HELP);
    let command = with_argument(command, path(alloc, "NEW", "The file of the new disk"));
    let sectors = text_option(alloc, "sectors", "N", "4096", SECTORS_HELP);
    let command = with_argument(command, sectors);
    let command = with_argument(command, reserve_option(alloc));
    with_argument(command, large_option(alloc))
}

const RECOVER_ABOUT: &str = "Copies the good records of a damaged disk to a new disk";

const RECOVER_HELP: &str = "\
Reads a damaged disk, also one whose header or gates are lost, and writes the longest row of records
from the first one on that are as a run of the model leaves them to NEW. The disk is only read.

If NEW exists, it must have the size that is asked for, and no log. 'help repair' says when to use
this, and when 'reopen' or 'cut'.

Output:
  recovered R of W whole records: committed TIME events N   W are whole in a row by their form
  record R: ..                                              why the next one is not copied";

const CUT_ABOUT: &str = "Takes the records from the first one at fault on away from a disk";

const CUT_DISK_HELP: &str = "\
Replays all records, as 'verify' does. Those before the first record at fault stay; that one and all
after it are taken away, once they are printed. What stays is what a run leaves, and 'run' goes on
from there. A disk without a fault is refused (NothingToCut). 'recover' copies what is good, and
changes nothing.

Output:
  takes away records K to L: Record K ..   what is taken away, and what is wrong with the first
  cut: committed TIME events N             what stays";

const REOPEN_ABOUT: &str = "Opens the gate of a disk's header again, after damage closed it";

const REOPEN_HELP: &str = "\
A disk whose first byte is damaged seems to have no log, though its records are all there; 'new'
does not take it (Shut). This command looks at everything before it writes: it replays all records
from the beginning and compares each checkpoint with the world that they reach. If all is true, it
opens the gate. Nothing else on the disk changes.

Output: 'reopened: committed G events N', as 'run' prints what is committed.";

/// The command `status`.
fn status<'a>(alloc: Global) -> Result<ClapCommand<'a>, AllocError>
    ensures { IfOk result (IsApp status_command) }
{
    let command = on_disk(alloc, "status", STATUS_ABOUT, STATUS_HELP);
    let command = with_argument(command, format_option(alloc));
    with_argument(command, large_option(alloc))
}

const STATUS_ABOUT: &str = "Prints how far a disk's run has come and how much room is left";

const STATUS_HELP: &str = "\
The disk is only read, from its last checkpoint on: what is damaged before it is for 'verify' to
find. A disk of format 1 fails with Recovery OtherModel; only 'migrate' reads it.

Output, all numbers decimal:
  virtual time G of E ticks, P percent      what is committed, and the disk's end
  events N, B bytes of disk an event        B is '-' where there is no event
  records R, of them C checkpoints (the last at T ticks) and K ends
  seals S, compared with the records before them      if there are any
  sectors U used of S, F free
  full at about T ticks at the pace of the last L commits
  origin T                                  where the disk begins, if it goes on from another one
  events before N                           and how many events came before that

With --format csv or json one row has these numbers, with their names.

In place of 'full at about ..' it prints 'room to the end at the pace of the last L commits' where
the rest of the run has room, and neither where nothing is committed or the run is at its end.

Room is counted in sectors of the disk, and not in bytes of the device with its file: a device
that is full sooner ends the run, unless 'new --reserve' has reserved the whole file.";

/// The command `info`, which takes no model file.
fn info<'a>(alloc: Global) -> Result<ClapCommand<'a>, AllocError>
    ensures { IfOk result (IsApp info_command) }
{
    let command = ClapCommand::new(alloc, "info")
        .about(INFO_ABOUT)
        .after_help(INFO_HELP);
    let command = with_argument(Ok(command), path(alloc, "DISK", "The file of the disk"));
    let command = with_argument(command, advice_option(alloc));
    let command = with_argument(command, quiet_option(alloc));
    let command = with_argument(command, flag(alloc, "model", KEPT_MODEL_HELP));
    let command = with_argument(command, format_option(alloc));
    with_argument(command, large_option(alloc))
}

const KEPT_MODEL_HELP: &str = "Prints only the model file that the disk keeps (DISK.model)";

const INFO_ABOUT: &str = "Prints what a disk is, without its model file";

const INFO_HELP: &str = "\
The disk is only read. Nothing is replayed: the events are those that the records say they have.
With --model it prints the text of the model file that the disk keeps ('help looking'), and nothing
else.

Output, a line for each name with its value:
  format         of the disk: 1 or 2
  identity       the words that identify the model, with blanks between
  processes      how many the model has
  end            the end of the simulation, in ticks
  time           the time up to which the last record goes, in ticks
  events         in the records of this disk
  records        in all, and of them checkpoints, ends and seals
  origin         the time from which the disk goes on, of one that goes on from another disk
  events_before  and how many events came before that
  used           sectors, of
  sectors        in all
  model          the file in which it keeps its model, if it keeps one";

/// The command `log`.
fn log<'a>(alloc: Global) -> Result<ClapCommand<'a>, AllocError>
    ensures { IfOk result (IsApp log_command) }
{
    let command = on_disk(alloc, "log", LOG_ABOUT, LOG_HELP);
    let command = with_argument(command, time_option(alloc, "from", FROM_HELP));
    let command = with_argument(command, time_option(alloc, "to", TO_HELP));
    let process = optional_number(alloc, "process", "L", 0, 4_294_967_295, PROCESS_HELP);
    let command = with_argument(command, process);
    let command = with_argument(command, flag(alloc, "names", LOG_NAMES_HELP));
    let command = with_argument(command, format_option(alloc));
    with_argument(command, large_option(alloc))
}

const LOG_NAMES_HELP: &str =
    "Prints what each event holds with the names that a model by rules has for it";

const FROM_HELP: &str = "Only events at T ticks or later, 0 to 1099511627776";

const TO_HELP: &str = "Only events before T ticks, 0 to 1099511627776";

const PROCESS_HELP: &str = "Only events that process L handled, 0 to 4294967295";

/// The command `verify`.
fn verify<'a>(alloc: Global) -> Result<ClapCommand<'a>, AllocError>
    ensures { IfOk result (IsApp verify_command) }
{
    let command = on_disk(alloc, "verify", VERIFY_ABOUT, VERIFY_HELP);
    let command = with_argument(command, optional_text(alloc, "after", "DISK", AFTER_HELP));
    with_argument(command, large_option(alloc))
}

const AFTER_HELP: &str = "Compares where the disk begins with what is committed on this one";

const VERIFY_ABOUT: &str = "Checks all that a disk holds, from its first record on";

const VERIFY_HELP: &str = "\
The disk is only read. Other commands take what a checkpoint holds as it stands; this one replays
all records from the beginning, and compares each checkpoint with the world that they reach. It
takes about as long as 'seq'.

A disk that goes on from another one ('help segments') is replayed from its origin, which is
believed. With --after DISK the origin is compared too, with the world that DISK, the one before it,
has.

Output, if the disk is what a run leaves:
  verified: committed G events N
  from the origin at T            ticks, of a disk that goes on from another one
  goes on from T events N         in its place with --after

Otherwise the command fails with 'Record N ..', the first record at fault and what is wrong with it,
or with 'Segment NotTheNext', if the disk does not go on from DISK.";

const LOG_ABOUT: &str = "Prints the committed events of a disk";

const LOG_HELP: &str = "\
A disk of format 1 fails with Recovery OtherModel; only 'migrate' reads it.

If the output is not read to its end, as with '| head', the command fails with Output and status 1.

Output, all numbers decimal:
  TIME FROM NUMBER TO A B C D   each committed event

With --format csv or json a row for each event has 'time', 'sender', 'number', 'receiver' and the
words of its content: under the names that the model has for them, or else 'a', 'b', 'c' and 'd'. In
a model with several sorts of messages a row has its 'sort', and the words that this sort has.
Numbers are below 2^64, and in JSON can exceed 2^53, beyond which some readers round them.";

const SHOW_ABOUT: &str = "Prints the committed world of a disk";

const SHOW_HELP: &str = "\
A disk of format 1 fails with Recovery OtherModel; only 'migrate' reads it.

Output, all numbers decimal:
  virtual time TIME                    ticks
  lp LP sent NUMBER state WORDS        each process
  pending TIME FROM NUMBER TO A B C D  each message that is not handled

With --format csv or json a row for each process has 'process', 'kind' in a model with several kinds
of processes, 'sent', and the numbers in its state: under the names that the model has for them, or
else 'word0' and so on. With --pending the rows are those of the messages that are not handled, as
'log' prints events.";

/// The command `show`.
fn show<'a>(alloc: Global) -> Result<ClapCommand<'a>, AllocError>
    ensures { IfOk result (IsApp show_command) }
{
    let command = on_disk(alloc, "show", SHOW_ABOUT, SHOW_HELP);
    let command = with_argument(command, flag(alloc, "names", SHOW_NAMES_HELP));
    let command = with_argument(command, flag(alloc, "pending", PENDING_HELP));
    let command = with_argument(command, format_option(alloc));
    with_argument(command, large_option(alloc))
}

const PENDING_HELP: &str = "Prints only the messages that are not handled, as 'log' prints events";

const SHOW_NAMES_HELP: &str =
    "Prints each state word with the name that a model by rules has for it";

/// The command `stats`.
fn stats<'a>(alloc: Global) -> Result<ClapCommand<'a>, AllocError>
    ensures { IfOk result (IsApp stats_command) }
{
    let command = on_model(alloc, "stats", STATS_ABOUT, STATS_HELP);
    let command = with_argument(command, optional_argument(alloc, "DISK", MAYBE_DISK_HELP));
    let command = with_argument(command, format_option(alloc));
    let command = with_argument(command, flag(alloc, "names", STATS_NAMES_HELP));
    let table = optional_text(alloc, "table", "NAME", TABLE_HELP);
    let command = with_argument(command, table);
    let command = with_argument(command, time_option(alloc, "warm-up", WARM_UP_HELP));
    with_argument(command, large_option(alloc))
}

const STATS_ABOUT: &str = "Prints how many events, sends and delays a run had";

const MAYBE_DISK_HELP: &str = "The file of the disk; without one the model is run to its end";

const TABLE_HELP: &str = "Prints only the table of this name (see below)";

const WARM_UP_HELP: &str = "With --table: leaves out what is before T ticks, 0 to 1099511627776";

const STATS_NAMES_HELP: &str =
    "Prints the sum and the mean of each named state word over the processes too";

const STATS_HELP: &str = "\
With a disk these are the figures of what is committed there. The disk is only read.
Without one they are those of the whole run, made by the plain runner as by 'seq'.

Output, all numbers decimal:
  a line of words and a table; or with --format csv rows of values with commas between, and
  a line with their names above them; or with --format json an object that has the tables

Tables for --table:
  summary     time, processes, events, pending messages, events a tick
  spreads     the least, the median and the most of what a process handled and sent, and of delays
  busiest     the processes that handled most
  totals      the sum and the mean of each named number over the processes, at the end
  processes   each named number of each process over virtual time: mean, least, most, last
  kinds       the same over the processes of a kind
  overall     the same over all processes
  words       each named word of messages: how many, mean, deviation, least, most, percentiles

--warm-up is about the last four; the others are those of the whole run.";

/// The command `draw`.
fn draw<'a>(alloc: Global) -> Result<ClapCommand<'a>, AllocError>
    ensures { IfOk result (IsApp draw_command) }
{
    let command = on_model(alloc, "draw", DRAW_ABOUT, DRAW_HELP);
    let command = with_argument(command, optional_argument(alloc, "DISK", MAYBE_DISK_HELP));
    let command = with_argument(command, time_option(alloc, "from", FROM_HELP));
    let command = with_argument(command, time_option(alloc, "to", TO_HELP));
    let processes = optional_text(alloc, "processes", "A..B", PROCESSES_HELP);
    let command = with_argument(command, processes);
    let command = with_argument(command, flag(alloc, "load", LOAD_HELP));
    let trace = optional_text(alloc, "trace", "FILE", COURSE_HELP);
    let command = with_argument(command, trace);
    let histogram = optional_text(alloc, "histogram", "NAME", HISTOGRAM_HELP);
    let command = with_argument(command, histogram);
    let command = with_argument(command, picture_option(alloc));
    with_argument(command, large_option(alloc))
}

/// The option for the format of a picture. It is `--format`, but has a name of its own for the
/// other commands' option, which takes the formats of tables.
fn picture_option<'a>(alloc: Global) -> Arg<'a>
    ensures rule { rule_of result ≡ picture_option }
    ensures local { result.global ≡ false }
{
    text_option(alloc, "picture", "F", "svg", PICTURE_HELP).long("format")
}

const PICTURE_HELP: &str = "The format: svg, or vcd for the named numbers over time";

const DRAW_ABOUT: &str = "Prints a picture of a run, as SVG";

const PROCESSES_HELP: &str = "Only processes A to B, inclusive, 0 to 4294967295";

const LOAD_HELP: &str = "Draws how many events each process handled, by slices of virtual time";

const COURSE_HELP: &str = "Draws the course of the run that wrote FILE by 'run --trace FILE'";

const HISTOGRAM_HELP: &str = "Draws how often the word NAME of messages has which values";

const DRAW_HELP: &str = "\
With a disk this is a picture of what is committed there. The disk is only read.
Without one it is that of the whole run, made by the plain runner as by 'seq'.
With --trace it shows, over the rounds, GVT, the efficiency, antimessages and commits, from the
trace alone. With --histogram it shows how many of the handled messages have which values of their
word NAME, or of SORT.NAME where several sorts of messages have such a word.

Output:
  an SVG document, which a browser shows; or with --format vcd a value change dump (IEEE 1364) of
  the named numbers in the states, which waveform viewers show: a tick is a nanosecond there";

/// The command `seq`, with this help.
fn seq<'a>(alloc: Global, help: &'a str) -> Result<ClapCommand<'a>, AllocError>
    ensures { IfOk result (IsApp seq_command) }
{
    let command = on_model(alloc, "seq", SEQ_ABOUT, help);
    with_argument(command, format_option(alloc))
}

const SEQ_ABOUT: &str =
    "Runs a model to its end, one event at a time, and prints its log and its final world";

/// The help that follows the arguments of `seq`, with a text about the keys of a model file.
pub fn seq_help(alloc: Global, keys: &str) -> Result<String, AllocError> {
    format!(in alloc;
        "\
{keys}

Output, all numbers decimal:
  TIME FROM NUMBER TO A B C D          each event that was handled
  virtual time TIME                    ticks
  lp LP sent NUMBER state WORDS        each process
  pending TIME FROM NUMBER TO A B C D  each message that is not handled

With --format csv or json it prints the events alone, as 'log' does."
    )
}

const CHECK_ABOUT: &str = "Checks a model file, and prints what is wrong with it";

const CHECK_HELP: &str = "\
Output:
  ok
  KEY: VALUE   the model's name, and each of its numbers";

/// The command `node`.
fn node<'a>(alloc: Global) -> Result<ClapCommand<'a>, AllocError>
    ensures { IfOk result (IsApp node_command) }
{
    let command = on_model(alloc, "node", NODE_ABOUT, NODE_HELP);
    let command = with_argument(command, path(alloc, "SOCKET", SOCKET_HELP));
    let most = "4294967295";
    with_argument(
        command,
        number_option(alloc, "parcels", most, 1, 4_294_967_295, PARCELS_HELP),
    )
}

const NODE_ABOUT: &str = "Serves one node of a run, behind a Unix socket";

const SOCKET_HELP: &str = "The path of the socket, which the run has made";

const PARCELS_HELP: &str = "After how many replies it ends, 1 to 4294967295";

const NODE_HELP: &str = "\
'run --sockets' starts it. It takes part in a run of the same simulation alone: it says which one is
its own before it is loaded, and ends if the run has another one (OtherModel). Else it ends when the
run closes the connection, after N replies, or after a fault, which it reports to the run.
It prints nothing.";

/// A command on a model file and a disk, which may be a large one, without other arguments.
fn on_any_disk<'a>(
    alloc: Global,
    name: &'a str,
    about: &'a str,
    help: &'a str,
) -> Result<ClapCommand<'a>, AllocError>
    ensures { IfOk result (IsApp (on_any_disk name.entry.now)) }
{
    let command = on_disk(alloc, name, about, help);
    with_argument(command, large_option(alloc))
}

/// A command on a model file and a disk.
fn on_disk<'a>(
    alloc: Global,
    name: &'a str,
    about: &'a str,
    help: &'a str,
) -> Result<ClapCommand<'a>, AllocError>
    ensures { IfOk result (IsApp (on_disk name.entry.now)) }
{
    with_argument(
        on_model(alloc, name, about, help),
        path(alloc, "DISK", "The file of the disk"),
    )
}

/// A command on a model file.
fn on_model<'a>(
    alloc: Global,
    name: &'a str,
    about: &'a str,
    help: &'a str,
) -> Result<ClapCommand<'a>, AllocError>
    ensures { IfOk result (IsApp (on_model name.entry.now)) }
{
    let command = ClapCommand::new(alloc, name).about(about).after_help(help);
    let command = with_argument(Ok(command), path(alloc, "MODEL", MODEL_HELP));
    let command = with_argument(command, set_option(alloc));
    let command = with_argument(command, seed_option(alloc));
    let command = with_argument(command, advice_option(alloc));
    with_argument(command, quiet_option(alloc))
}

const MODEL_HELP: &str =
    "The model file: TOML with exactly the keys of its model (see 'seq --help')";

/// A program with a single option, whose value passes this parser, and whose default is this text.
pub fn refusing<'a>(
    alloc: Global,
    option: &'a str,
    value: &'a str,
    parser: ValueParser<'a>,
    text: &'a str,
) -> Result<ClapCommand<'a>, AllocError>
    ensures { IfOk result (IsApp (refusing option.entry.now parser.entry text.entry.now)) }
{
    let program = ClapCommand::new(alloc, option);
    let argument = choice_option(alloc, option, value, parser, text);
    with_argument(Ok(program), argument)
}

/// Adds a command to a program, if both are there.
///
/// Takes both as results, so that only this function drops a command.
fn with_command<'a>(
    program: Result<ClapCommand<'a>, AllocError>,
    command: Result<ClapCommand<'a>, AllocError>,
) -> Result<ClapCommand<'a>, AllocError>
    ensures { IfOk result (AddsCommand program.entry command.entry) }
{
    program?.subcommand(command?)
}

/// Adds an argument to a command, if the command is there.
fn with_argument<'a>(
    command: Result<ClapCommand<'a>, AllocError>,
    argument: Arg<'a>,
) -> Result<ClapCommand<'a>, AllocError>
    ensures { IfOk result (AddsArgument command.entry argument.entry) }
{
    command?.arg(argument)
}

/// Adds an option, which the help shows under this heading, to a command, if the command is there.
fn with_option<'a>(
    command: Result<ClapCommand<'a>, AllocError>,
    heading: &'a str,
    option: Arg<'a>,
) -> Result<ClapCommand<'a>, AllocError>
    requires { option.global ≡ false }
    ensures { IfOk result (AddsRule command.entry (rule_of option.entry)) }
{
    with_argument(command, option.help_heading(heading))
}

/// The option for values of the model file, which each command has, as often as it is said.
fn set_option<'a>(alloc: Global) -> Arg<'a>
    ensures rule { rule_of result ≡ set_option }
    ensures local { result.global ≡ false }
{
    optional_text(alloc, "set", "K=V", SET_HELP)
        .action(ArgAction::Append)
        .display_order(997)
}

/// The option for the key of the numbers that a model draws, which each command has.
fn seed_option<'a>(alloc: Global) -> Arg<'a>
    ensures rule { rule_of result ≡ seed_option }
    ensures local { result.global ≡ false }
{
    optional_number(alloc, "seed", "N", 0, 9_223_372_036_854_775_807, SEED_HELP).display_order(997)
}

const SET_HELP: &str = "Sets key K of MODEL or its [numbers], or KIND.count, to V; may be repeated";

const SEED_HELP: &str = "Sets the key seed of MODEL to N, 0 to 9223372036854775807";

/// The flag for advice after a fault, which each command has. In the help it comes before `--help`.
fn advice_option<'a>(alloc: Global) -> Arg<'a>
    ensures rule { rule_of result ≡ advice_option }
    ensures local { result.global ≡ false }
{
    flag(alloc, "advice", ADVICE_HELP).display_order(998)
}

/// The flag for faults without a line of their cause, which each command has. In the help it comes
/// before `--help` too.
fn quiet_option<'a>(alloc: Global) -> Arg<'a>
    ensures rule { rule_of result ≡ quiet_option }
    ensures local { result.global ≡ false }
{
    flag(alloc, "quiet", QUIET_HELP).display_order(998)
}

const QUIET_HELP: &str = "Prints a fault's name alone, without the file and its cause";

const ADVICE_HELP: &str = "Says after a fault what to do about it, as a terminal always does";

/// A required argument that is a path, and not empty.
fn path<'a>(alloc: Global, id: &'a str, help: &'a str) -> Arg<'a>
    ensures rule { rule_of result ≡ path_argument id.entry.now }
    ensures local { result.global ≡ false }
{
    optional_argument(alloc, id, help).required(true)
}

/// An optional argument that is a path, and not empty.
fn optional_argument<'a>(alloc: Global, id: &'a str, help: &'a str) -> Arg<'a>
    ensures rule { rule_of result ≡ optional_argument id.entry.now }
    ensures local { result.global ≡ false }
{
    Arg::new(alloc, id)
        .value_parser(ValueParser::NonEmptyString)
        .help(help)
}

/// The option for the format of what is printed.
fn format_option<'a>(alloc: Global) -> Arg<'a>
    ensures rule { rule_of result ≡ format_option }
    ensures local { result.global ≡ false }
{
    text_option(alloc, "format", "F", "text", FORMAT_HELP)
}

const FORMAT_HELP: &str = "The format of what is printed: text, csv or json";

/// The flag for a disk whose file gets its whole room on the device at once.
fn reserve_option<'a>(alloc: Global) -> Arg<'a>
    ensures rule { rule_of result ≡ reserve_option }
    ensures local { result.global ≡ false }
{
    flag(alloc, "reserve", RESERVE_HELP)
}

/// The flag that allows large disks.
fn large_option<'a>(alloc: Global) -> Arg<'a>
    ensures rule { rule_of result ≡ large_option }
    ensures local { result.global ≡ false }
{
    flag(alloc, "large", LARGE_HELP)
}

/// The maximum number of sectors of a disk, large or not.
pub fn most_sectors(large: bool) -> u32
    ensures most { result ≡ most_sectors large }
    ensures some { 8 ≤ result }
{
    if large { 16_777_216 } else { 131_072 }
}

/// An option whose value is a number from `least` to `most`, with a default.
fn number_option<'a>(
    alloc: Global,
    name: &'a str,
    default: &'a str,
    least: u64,
    most: u64,
    help: &'a str,
) -> Arg<'a>
    ensures rule { rule_of result ≡ number_option name.entry.now least most default.entry.now }
    ensures local { result.global ≡ false }
{
    optional_number(alloc, name, "N", least, most, help).default_value(default)
}

/// An option without a default, whose value is a number from `least` to `most`.
fn optional_number<'a>(
    alloc: Global,
    name: &'a str,
    value: &'a str,
    least: u64,
    most: u64,
    help: &'a str,
) -> Arg<'a>
    ensures rule { rule_of result ≡ optional_number name.entry.now least most }
    ensures local { result.global ≡ false }
{
    any_text(alloc, name, value, help).value_parser(ValueParser::unsigned(least, most))
}

/// An option without a default, whose value is a virtual time in ticks.
fn time_option<'a>(alloc: Global, name: &'a str, help: &'a str) -> Arg<'a>
    ensures rule { rule_of result ≡ time_option name.entry.now }
    ensures local { result.global ≡ false }
{
    optional_number(alloc, name, "T", 0, LAST_TIME, help)
}

/// An option whose value is any text, with a default.
fn text_option<'a>(
    alloc: Global,
    name: &'a str,
    value: &'a str,
    default: &'a str,
    help: &'a str,
) -> Arg<'a>
    ensures rule { rule_of result ≡ text_option name.entry.now default.entry.now }
    ensures local { result.global ≡ false }
{
    any_text(alloc, name, value, help).default_value(default)
}

/// An option whose value is any text, without a default.
fn any_text<'a>(alloc: Global, name: &'a str, value: &'a str, help: &'a str) -> Arg<'a>
    ensures rule { rule_of result ≡ any_text name.entry.now }
    ensures local { result.global ≡ false }
{
    without_help(alloc, name, value).help(help)
}

/// The same without a help. The other options with values are made from it: each call of `clap`'s
/// that sets something is another step over all that an argument has.
fn without_help<'a>(alloc: Global, name: &'a str, value: &'a str) -> Arg<'a>
    ensures rule { rule_of result ≡ any_text name.entry.now }
    ensures local { result.global ≡ false }
{
    Arg::new(alloc, name).long(name).value_name(value)
}

/// An option whose value passes this parser, with a default.
fn choice_option<'a>(
    alloc: Global,
    name: &'a str,
    value: &'a str,
    parser: ValueParser<'a>,
    default: &'a str,
) -> Arg<'a>
    ensures rule { rule_of result ≡ choice_option name.entry.now parser.entry default.entry.now }
    ensures local { result.global ≡ false }
{
    without_help(alloc, name, value)
        .value_parser(parser)
        .default_value(default)
}

/// An option without a default, whose value is any text but the empty one.
fn optional_text<'a>(alloc: Global, name: &'a str, value: &'a str, help: &'a str) -> Arg<'a>
    ensures rule { rule_of result ≡ optional_text name.entry.now }
    ensures local { result.global ≡ false }
{
    any_text(alloc, name, value, help).value_parser(ValueParser::NonEmptyString)
}

/// An option without a value.
fn flag<'a>(alloc: Global, name: &'a str, help: &'a str) -> Arg<'a>
    ensures rule { rule_of result ≡ flag name.entry.now }
    ensures local { result.global ≡ false }
{
    Arg::new(alloc, name)
        .long(name)
        .action(ArgAction::SetTrue)
        .help(help)
}
