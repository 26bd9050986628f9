// Command lines and what they are read as.

use clap::error::ErrorKind;
use cli::{
    Command, TOPICS, Texts, asks_help, help_text, hint_of, read_command, says_advice, says_quiet,
    settings_of, topic_of,
};
use std::alloc::{AllocError, Global};
use std::fmt::Debug;
use std::test::Fail;

const TEXTS: Texts<'static> = Texts {
    name: "timewarp",
    version: "1",
    help: "",
    seq_help: "",
};

/// What a table says of its words.
#[derive(Clone, Copy)]
enum Asked {
    /// The command that they give, or the kind of the mistake.
    Command,
    /// The first line of the text of the mistake.
    Line,
    /// What to write in place of a word.
    Hint,
    /// Whether they ask for advice.
    Advice,
    /// Whether they ask for faults without their causes.
    Quiet,
    /// What they set.
    Settings,
    /// The first line that `help` prints, or the kind of the mistake.
    Help,
}

/// The words of a line; `''` is the empty one.
fn words_of(alloc: Global, line: &str) -> Result<Vec<&str>, AllocError> {
    let mut words = Vec::new(alloc);
    for word in line.split_whitespace() {
        words.push(if word == "''" { "" } else { word })?;
    }
    Ok(words)
}

/// What most commands are read as if they have no options: with the model file `a` and, where the
/// command needs them, the disk or the socket `b`, or the disks `b` and `c`.
const PLAIN: &str = "\
Run(RunArgs { on: DiskArgs { model: ModelFile { path: \"a\", settings: [], kept_by: None }, disk: \"b\", large: false }, nodes: 1, batch: \
Fixed(16), rounds: 1000000, checkpoint: None, seal: false, commit_every: None, sockets: None, \
cut: None, together: false, overlap: false, plain: false, attach: false, bind: false, judge: \
None, silence: None, retries: None, grow_when_full: false, archive_when_full: false, keep: None, \
trace: None, stop_file: None, progress: None, create: false, sectors: 4096, reserve: false, keep_model: false })
Log(LogArgs { on: DiskArgs { model: ModelFile { path: \"a\", settings: [], kept_by: None }, disk: \"b\", large: false }, from: None, to: None, \
process: None, names: false, format: Text })
Draw(DrawArgs { of: SourceArgs { model: ModelFile { path: \"a\", settings: [], kept_by: None }, disk: None, large: false }, from: None, to: None, \
processes: None, load: false, trace: None, vcd: false, histogram: None })
Stats(StatsArgs { of: SourceArgs { model: ModelFile { path: \"a\", settings: [], kept_by: None }, disk: None, large: false }, format: Text, names: \
false, table: None, warm_up: None })
New(NewArgs { on: DiskArgs { model: ModelFile { path: \"a\", settings: [], kept_by: None }, disk: \"b\", large: false }, sectors: 4096, reserve: \
false, over: false, from: None, keep_model: false })
Migrate(MigrateArgs { model: ModelFile { path: \"a\", settings: [], kept_by: None }, old: \"b\", new: \"c\", sectors: 4096, reserve: false, large: \
false })
Recover(RecoverArgs { model: ModelFile { path: \"a\", settings: [], kept_by: None }, old: \"b\", new: \"c\", sectors: 4096, reserve: false, large: \
false })
Node(NodeArgs { model: ModelFile { path: \"a\", settings: [], kept_by: None }, socket: \"b\", parcels: 4294967295 })
Extend(DiskArgs { model: ModelFile { path: \"a\", settings: [], kept_by: None }, disk: \"b\", large: false })
Status(StatusArgs { on: DiskArgs { model: ModelFile { path: \"a\", settings: [], kept_by: None }, disk: \"b\", large: false }, format: Text })
Reopen(DiskArgs { model: ModelFile { path: \"a\", settings: [], kept_by: None }, disk: \"b\", large: false })
Cut(DiskArgs { model: ModelFile { path: \"a\", settings: [], kept_by: None }, disk: \"b\", large: false })
Verify(VerifyArgs { on: DiskArgs { model: ModelFile { path: \"a\", settings: [], kept_by: None }, disk: \"b\", large: false }, after: None })
Show(ShowArgs { on: DiskArgs { model: ModelFile { path: \"a\", settings: [], kept_by: None }, disk: \"b\", large: false }, names: false, pending: false, format: Text })
Info(InfoArgs { disk: \"b\", large: false, model: false, format: Text })
Seq(SeqArgs { model: ModelFile { path: \"a\", settings: [], kept_by: None }, format: Text })
Grow(GrowArgs { on: DiskArgs { model: ModelFile { path: \"a\", settings: [], kept_by: None }, disk: \"b\", large: false }, sectors: 131072 })
";

fn plain_of(name: &str) -> &'static str {
    for line in PLAIN.lines() {
        if line.starts_with(name) {
            return line;
        }
    }
    ""
}

/// The name of a command and its arguments, as they are printed for debugging.
fn text_of(alloc: Global, command: Command<'_>) -> Result<String, AllocError> {
    match command {
        Command::New(args) => text_with(alloc, "New", &args),
        Command::Run(args) => text_with(alloc, "Run", &args),
        Command::Extend(args) => text_with(alloc, "Extend", &args),
        Command::Grow(args) => text_with(alloc, "Grow", &args),
        Command::Migrate(args) => text_with(alloc, "Migrate", &args),
        Command::Reopen(args) => text_with(alloc, "Reopen", &args),
        Command::Cut(args) => text_with(alloc, "Cut", &args),
        Command::Recover(args) => text_with(alloc, "Recover", &args),
        Command::Status(args) => text_with(alloc, "Status", &args),
        Command::Info(args) => text_with(alloc, "Info", &args),
        Command::Verify(args) => text_with(alloc, "Verify", &args),
        Command::Log(args) => text_with(alloc, "Log", &args),
        Command::Show(args) => text_with(alloc, "Show", &args),
        Command::Stats(args) => text_with(alloc, "Stats", &args),
        Command::Draw(args) => text_with(alloc, "Draw", &args),
        Command::Seq(args) => text_with(alloc, "Seq", &args),
        Command::Check(args) => text_with(alloc, "Check", &args),
        Command::Node(args) => text_with(alloc, "Node", &args),
    }
}

/// The name of a command with these arguments after it.
fn text_with<A: Debug>(alloc: Global, name: &str, args: &A) -> Result<String, AllocError> {
    format!(in alloc; "{name}({args:?})")
}

/// The name of a command, and those of its parts that are not as in `PLAIN`; or all of its text, if
/// `PLAIN` has no such command, or a value has parts of its own.
fn shortened(alloc: Global, text: &str) -> Result<String, AllocError> {
    let (name, _) = text.split_once('(').unwrap_or((text, ""));
    let mut out = String::from_str(alloc, name)?;
    let plain = plain_of(name);
    if plain.is_empty() || plain.split(", ").count() != text.split(", ").count() {
        return String::from_str(alloc, text);
    }
    for (part, usual) in text.split(", ").zip(plain.split(", ")) {
        if part != usual {
            out.push_str(", ")?;
            out.push_str(bare(part))?;
        }
    }
    Ok(out)
}

/// A part without the ends of structs after it.
fn bare(part: &str) -> &str {
    part.strip_suffix(" })")
        .or(part.strip_suffix(" }"))
        .unwrap_or(part)
}

fn answer(alloc: Global, asked: Asked, words: &[&str]) -> Result<String, AllocError> {
    match asked {
        Asked::Hint => format!(in alloc; "{:?}", hint_of(words)),
        Asked::Advice => format!(in alloc; "{}", says_advice(words)),
        Asked::Quiet => format!(in alloc; "{}", says_quiet(words)),
        Asked::Settings => format!(in alloc; "{:?}", settings_of(alloc, words)?.as_slice()),
        Asked::Help => match help_text(alloc, TEXTS, words) {
            Ok(text) => first_line(alloc, text.as_str()),
            Err(error) => format!(in alloc; "{:?}", error.kind()),
        },
        Asked::Command => match read_command(alloc, TEXTS, words, &[]) {
            Ok(command) => shortened(alloc, text_of(alloc, command)?.as_str()),
            Err(error) => format!(in alloc; "{:?}", error.kind()),
        },
        Asked::Line => match read_command(alloc, TEXTS, words, &[]) {
            Ok(_) => Ok(String::new(alloc)),
            Err(error) => first_line(alloc, format!(in alloc; "{error}")?.as_str()),
        },
    }
}

fn first_line(alloc: Global, text: &str) -> Result<String, AllocError> {
    let (line, _) = text.split_once('\n').unwrap_or(("", text));
    String::from_str(alloc, line)
}

/// Whether a row, `words => answer`, is right. A row that begins with `#` is a comment.
fn is_right(alloc: Global, asked: Asked, row: &str) -> Result<bool, AllocError> {
    let Some((line, expected)) = row.split_once(" => ") else {
        return Ok(row.is_empty() || row.starts_with('#'));
    };
    let words = words_of(alloc, line)?;
    Ok(answer(alloc, asked, words.as_slice())?.as_str() == expected)
}

/// The first row that is not right.
fn wrong_row<'a>(
    alloc: Global,
    asked: Asked,
    rows: &'a str,
) -> Result<Option<&'a str>, AllocError> {
    for row in rows.lines() {
        if !is_right(alloc, asked, row)? {
            return Ok(Some(row));
        }
    }
    Ok(None)
}

/// Words, and the command that they give.
const READ: &str = r#"
timewarp draw a --load --from=5 --to=5 => Draw, from: Some(5), to: Some(5), load: true
timewarp seq --advice a => Seq
timewarp node a b --advice => Node
timewarp seq examples/ring.toml => Seq, Seq(SeqArgs { model: ModelFile { path: "examples/ring.toml"
timewarp seq a --format=json => Seq, format: Json
timewarp seq -- --help => Seq, Seq(SeqArgs { model: ModelFile { path: "--help"
timewarp log a b => Log
timewarp log a --to=1099511627776 b --process 4294967295 --from 0 => Log, from: Some(0), to: Some(1099511627776), process: Some(4294967295)
timewarp reopen a b => Reopen
timewarp status a b => Status
timewarp status a b --format csv => Status, format: Csv
timewarp info b => Info
timewarp info --format=json --large b --quiet => Info, large: true, format: Json
timewarp log a b --format json --names => Log, names: true, format: Json
timewarp info b --model => Info, model: true
timewarp info --format text --model b => Info, model: true
timewarp verify a b => Verify
timewarp verify a --after=c b => Verify, after: Some("c")
timewarp cut a b => Cut
timewarp cut a --large b => Cut, large: true
timewarp recover a b c => Recover
timewarp recover --large a b --sectors 131073 c --reserve => Recover, sectors: 131073, reserve: true, large: true
timewarp status a b --quiet => Status
timewarp stats a => Stats
timewarp stats a b --format=csv --names => Stats, disk: Some("b"), format: Csv, names: true
timewarp stats a --table totals => Stats, table: Some(Totals)
timewarp stats a --warm-up=5 --table kinds --format=json => Stats, format: Json, table: Some(Kinds), warm_up: Some(5)
timewarp draw a => Draw
timewarp draw --processes 3..3 a b --trace=t --from=5 --to 9 => Draw(DrawArgs { of: SourceArgs { model: ModelFile { path: "a", settings: [], kept_by: None }, disk: Some("b"), large: false }, from: Some(5), to: Some(9), processes: Some((3, 3)), load: false, trace: Some("t"), vcd: false, histogram: None })
timewarp draw a --format vcd --to=9 => Draw, to: Some(9), vcd: true
timewarp draw a --format=svg => Draw
timewarp draw a b --histogram=wait => Draw, disk: Some("b"), histogram: Some("wait")
timewarp show a b --pending --format csv => Show, pending: true, format: Csv
timewarp show a --names b => Show, names: true
# Where a command looks at a disk, the model file `-` is the one that the disk keeps.
timewarp status - b => Status, Status(StatusArgs { on: DiskArgs { model: ModelFile { path: "-", kept_by: Some("b")
timewarp verify - b --after c => Verify, Verify(VerifyArgs { on: DiskArgs { model: ModelFile { path: "-", kept_by: Some("b"), after: Some("c")
timewarp log - b => Log, Log(LogArgs { on: DiskArgs { model: ModelFile { path: "-", kept_by: Some("b")
timewarp show -- - b => Show, Show(ShowArgs { on: DiskArgs { model: ModelFile { path: "-", kept_by: Some("b")
timewarp stats - b => Stats, Stats(StatsArgs { of: SourceArgs { model: ModelFile { path: "-", kept_by: Some("b"), disk: Some("b")
timewarp draw - b => Draw, Draw(DrawArgs { of: SourceArgs { model: ModelFile { path: "-", kept_by: Some("b"), disk: Some("b")
# Without a disk, and for all other commands, `-` is a path.
timewarp stats - => Stats, Stats(StatsArgs { of: SourceArgs { model: ModelFile { path: "-"
timewarp seq - => Seq, Seq(SeqArgs { model: ModelFile { path: "-"
timewarp new - b => New, New(NewArgs { on: DiskArgs { model: ModelFile { path: "-"
timewarp extend - b => Extend, Extend(DiskArgs { model: ModelFile { path: "-"
timewarp status ./- b => Status, Status(StatusArgs { on: DiskArgs { model: ModelFile { path: "./-"
timewarp check a => Check(ModelArgs { model: ModelFile { path: "a", settings: [], kept_by: None } })
# The default is 4096 sectors.
timewarp new a b => New
timewarp new a b --sectors 131072 => New, sectors: 131072
timewarp new a --reserve b => New, reserve: true
timewarp new --over a b => New, over: true
timewarp new a b --keep-model => New, keep_model: true
timewarp new a b --from c --sectors=8 => New, sectors: 8, from: Some("c")
timewarp migrate a b c --reserve => Migrate, reserve: true
timewarp extend a b => Extend
timewarp migrate a b c => Migrate
timewarp migrate --sectors=8 a b c => Migrate, sectors: 8
# `--large` allows more sectors, and `grow` then defaults to the most.
timewarp new --large a b --sectors 16777216 => New, large: true, sectors: 16777216
timewarp new a b --large => New, large: true
timewarp grow a b --large => Grow, large: true, sectors: 16777216
timewarp migrate a b c --sectors=131073 --large => Migrate, sectors: 131073, large: true
timewarp extend a --large b => Extend, large: true
timewarp status --large a b => Status, large: true
timewarp log a b --large => Log, large: true
timewarp show a b --large => Show, large: true
# After `--` it is not an option.
timewarp show a -- --large => Show, disk: "--large"
timewarp stats a b --large => Stats, disk: Some("b"), large: true
timewarp draw a b --large => Draw, disk: Some("b"), large: true
timewarp node a b => Node
timewarp node --parcels 1 a b => Node, parcels: 1
"#;

#[test]
fn words_give_a_command_and_its_values(rt: HostRuntime) -> Result<(), Fail> {
    assert_eq!(rt; wrong_row(rt.alloc(), Asked::Command, READ)?, None);
    Ok(())
}

/// The same for the command `run`.
const RUNS: &str = r#"
timewarp run a b --attach --sockets c => Run, sockets: Some("c"), attach: true
# Without a folder of sockets there is no node program to cut short.
timewarp run a b --cut 1 => Run, cut: Some(1)
timewarp run a b => Run
timewarp run --rounds 7 a --nodes=64 b --batch 9 => Run, nodes: 64, batch: Fixed(9), rounds: 7
timewarp run --together --sockets c a b --cut=0 --seal --checkpoint 3 => Run, checkpoint: Some(3), seal: true, sockets: Some("c"), cut: Some(0), together: true
timewarp run a b --plain --grow-when-full --commit-every=9 => Run, commit_every: Some(9), plain: true, grow_when_full: true
timewarp run a b --sockets=c --overlap --bind --judge=0 --silence=86400 --retries=1000000 => Run, sockets: Some("c"), overlap: true, bind: true, judge: Some(0), silence: Some(86400), retries: Some(1000000)
timewarp run --attach a b --sockets=c => Run, sockets: Some("c"), attach: true
timewarp run a b --commit-every=400000 --batch auto --trace c => Run, batch: Auto, commit_every: Some(400000), trace: Some("c")
timewarp run --stop-file=s a b --progress 86400 --sectors=8 --create => Run, stop_file: Some("s"), progress: Some(86400), create: true, sectors: 8
# The numbers that a word can stand for, at most and at least.
timewarp run a b --rounds unlimited => Run, rounds: 4294967295
timewarp run a b --rounds=4294967295 => Run, rounds: 4294967295
timewarp run a b --rounds=+1 => Run, rounds: 1
timewarp run a b --sockets=c --judge all => Run, sockets: Some("c"), judge: Some(1)
timewarp run a b --judge=1 --sockets=c => Run, sockets: Some("c"), judge: Some(1)
timewarp run a b --judge=4294967295 --sockets=c => Run, sockets: Some("c"), judge: Some(4294967295)
timewarp run a b --archive-when-full => Run, archive_when_full: true
timewarp run a b --keep=0 --archive-when-full => Run, archive_when_full: true, keep: Some(0)
timewarp run a b --archive-when-full --keep 4294967295 => Run, archive_when_full: true, keep: Some(4294967295)
timewarp run a b --create --reserve => Run, create: true, reserve: true
timewarp run a b --keep-model --create => Run, create: true, keep_model: true
timewarp run a b --large --create --sectors 16777216 => Run, large: true, create: true, sectors: 16777216
timewarp run --batch=auto a b => Run, batch: Auto
# After `--` no word is an option.
timewarp run -- --batch auto => Run, Run(RunArgs { on: DiskArgs { model: ModelFile { path: "--batch", disk: "auto"
timewarp run a b --trace c --large => Run, large: true, trace: Some("c")
"#;

#[test]
fn words_give_a_run_and_its_values(rt: HostRuntime) -> Result<(), Fail> {
    assert_eq!(rt; wrong_row(rt.alloc(), Asked::Command, RUNS)?, None);
    Ok(())
}

/// Words that are refused, and the kind of the error.
const REFUSED: &str = r#"
timewarp seq a --set => InvalidValue
timewarp seq a --set= => InvalidValue
timewarp seq a --seed 9223372036854775808 => ValueValidation
timewarp seq a --seed 1 --seed 2 => ArgumentConflict
# No path is empty.
timewarp seq '' => InvalidValue
timewarp new a '' => InvalidValue
timewarp migrate a b '' => InvalidValue
timewarp node a '' => InvalidValue
timewarp draw a '' => InvalidValue
timewarp run a b --sockets '' => InvalidValue
timewarp run a b --trace= => InvalidValue
timewarp new a b --from= => InvalidValue
timewarp verify a b --after '' => InvalidValue
timewarp recover a b '' => InvalidValue
# Options that do not go together.
timewarp run a b --keep 2 => MissingRequiredArgument
timewarp run a b --grow-when-full --keep=0 => MissingRequiredArgument
timewarp run a b --judge all => MissingRequiredArgument
timewarp run a b --archive-when-full --grow-when-full => ArgumentConflict
timewarp run a b --quiet --advice => ArgumentConflict
timewarp check a --advice --quiet => ArgumentConflict
timewarp run a b --attach => MissingRequiredArgument
timewarp run a b --bind => MissingRequiredArgument
timewarp run a b --judge=0 => MissingRequiredArgument
timewarp run a b --silence 1 => MissingRequiredArgument
timewarp run a b --plain --retries=0 => MissingRequiredArgument
timewarp run a b --sectors=4096 => MissingRequiredArgument
timewarp run a b --reserve => MissingRequiredArgument
timewarp run a b --keep-model => MissingRequiredArgument
timewarp run a b --seal --plain => MissingRequiredArgument
timewarp run a b --together --overlap => ArgumentConflict
timewarp run a b --sockets=s --attach --bind => ArgumentConflict
timewarp run a b --plain --nodes=1 => ArgumentConflict
timewarp run a b --batch=auto --plain => ArgumentConflict
timewarp run a b --plain --sockets=false => ArgumentConflict
timewarp run a b --cut=0 --plain => ArgumentConflict
timewarp run a b --plain --together => ArgumentConflict
timewarp run a b --overlap --plain => ArgumentConflict
timewarp draw a --load --trace t => ArgumentConflict
timewarp draw a --load --format vcd => ArgumentConflict
timewarp draw a --trace=t --format=vcd => ArgumentConflict
timewarp draw a --histogram w --load => ArgumentConflict
timewarp draw a --trace t --histogram=w => ArgumentConflict
timewarp draw a --format=vcd --histogram w => ArgumentConflict
timewarp draw a --histogram w --to=9 => ArgumentConflict
timewarp draw a --from 1 --histogram w => ArgumentConflict
timewarp draw a --histogram w --processes 0..1 => ArgumentConflict
timewarp draw a --histogram= => InvalidValue
timewarp info a --model --format csv => ArgumentConflict
timewarp info a --format=json --model => ArgumentConflict
timewarp log a b --model => UnknownArgument
timewarp stats a --warm-up 5 => MissingRequiredArgument
timewarp log a b --from 5 --to 4 => ValueValidation
timewarp draw a --from=200 --to=100 => ValueValidation
timewarp log a b --to=0 --from=1 => ValueValidation
# Advice is a flag of the commands.
timewarp --advice seq a => UnknownArgument
timewarp seq a --advice=1 => TooManyValues
timewarp seq a --advice --advice => ArgumentConflict
timewarp log a b --from -1 => UnknownArgument
timewarp seq => MissingRequiredArgument
timewarp seq a b => UnknownArgument
timewarp info => MissingRequiredArgument
timewarp info a b => UnknownArgument
timewarp info a --seed 1 => UnknownArgument
timewarp stats a --format xml => InvalidValue
timewarp draw a --format csv => InvalidValue
timewarp stats a --table sums => InvalidValue
timewarp seq --nodes 2 a => UnknownArgument
timewarp node a => MissingRequiredArgument
timewarp run a b --cut=4294967296 => ValueValidation
timewarp run a b --checkpoint 0 => ValueValidation
timewarp run a b --checkpoint=1000001 => ValueValidation
timewarp run a b --progress 0 => ValueValidation
timewarp run a b --silence 0 => ValueValidation
timewarp run a b --retries=1000001 => ValueValidation
timewarp run a b --nodes=0 => ValueValidation
timewarp run a b --progress=86401 => ValueValidation
timewarp run a b --together=true => TooManyValues
timewarp run a b --attach=true => TooManyValues
timewarp run a => MissingRequiredArgument
timewarp extend a => MissingRequiredArgument
timewarp extend a b --end 20 => UnknownArgument
timewarp migrate a b => MissingRequiredArgument
timewarp migrate a b c d => UnknownArgument
# Numbers out of range.
timewarp new a b --sectors 131073 => ValueValidation
timewarp migrate a b c --sectors 7 => ValueValidation
timewarp migrate a b c --sectors=131073 => ValueValidation
# Too many sectors, with `--large` or without it: it is not an option after `--` or in place of a value.
timewarp new a b --large --sectors 16777217 => ValueValidation
timewarp grow a b --sectors=16777217 --large => ValueValidation
timewarp migrate a b c --large --sectors 7 => ValueValidation
timewarp new a b --sectors= => ValueValidation
timewarp run a b --create --sectors=few => ValueValidation
timewarp run a b --batch= => ValueValidation
# What `clap` refuses comes first.
timewarp new a --sectors=7 => MissingRequiredArgument
timewarp new a --sectors=131073 -- --large => ValueValidation
timewarp run a b --trace --large => InvalidValue
timewarp grow a b --sectors --large => InvalidValue
timewarp log a b --large=true => TooManyValues
timewarp status a b --large --large => ArgumentConflict
timewarp --large show a b => UnknownArgument
timewarp seq a --large => UnknownArgument
timewarp check a --large => UnknownArgument
timewarp node a b --large => UnknownArgument
timewarp run a b --nodes 65 => ValueValidation
timewarp run a b --rounds=0 => ValueValidation
timewarp run a b --rounds= => ValueValidation
timewarp run a b --rounds Unlimited => ValueValidation
timewarp run a b --rounds all => ValueValidation
timewarp run a b --rounds unlimited --rounds=4 => ArgumentConflict
timewarp run a b --sockets=s --judge every => ValueValidation
timewarp run a b --judge=4294967296 --sockets=s => ValueValidation
timewarp run a b --archive-when-full --keep all => ValueValidation
timewarp run a b --archive-when-full --keep=4294967296 => ValueValidation
timewarp recover a b => MissingRequiredArgument
timewarp recover a b c d => UnknownArgument
timewarp recover a b c --sectors=131073 => ValueValidation
timewarp cut a => MissingRequiredArgument
timewarp cut a b --reserve => UnknownArgument
timewarp new a b --over=true => TooManyValues
timewarp log a b --after c => UnknownArgument
timewarp run a b --batch=0 => ValueValidation
timewarp run a b --rounds 4294967296 => ValueValidation
timewarp run a b --commit-every 400001 => ValueValidation
timewarp run a b --commit-every=0 => ValueValidation
# The only word for a batch is `auto`, once.
timewarp run a b --batch automatic => ValueValidation
timewarp run a b --batch Auto => ValueValidation
timewarp run a b --batch auto --batch=4 => ArgumentConflict
timewarp seq a --batch auto => UnknownArgument
timewarp log a b --from 1099511627777 => ValueValidation
timewarp log a b --process=4294967296 => ValueValidation
timewarp status a => MissingRequiredArgument
timewarp stats a b c => UnknownArgument
timewarp draw a --processes 3..2 => InvalidValue
timewarp draw a --processes=3 => InvalidValue
timewarp draw a --processes=0..4294967296 => InvalidValue
timewarp --version => DisplayVersion
timewarp -V => DisplayVersion
# `help` is no command: `help_text` answers it.
timewarp help => InvalidSubcommand
timewarp --help => DisplayHelp
timewarp seq -h => DisplayHelp
timewarp => DisplayHelpOnMissingArgumentOrSubcommand
"#;

#[test]
fn wrong_words_are_refused_with_the_kind_of_mistake(rt: HostRuntime) -> Result<(), Fail> {
    assert_eq!(rt; wrong_row(rt.alloc(), Asked::Command, REFUSED)?, None);
    Ok(())
}

/// Words with an invalid value, and the first line of `clap`'s text.
const INVALID: &str = r#"
timewarp run a b --batch=0 => error: invalid value '0' for '--batch <N>': 0 is not in 1..=4294967295
timewarp run a b --batch atuo => error: invalid value 'atuo' for '--batch <N>': invalid digit found in string
timewarp run a b --batch= => error: invalid value '' for '--batch <N>': cannot parse integer from empty string
timewarp new a b --sectors 7 => error: invalid value '7' for '--sectors <N>': 7 is not in 8..=131072
timewarp run a b --create --sectors=131073 => error: invalid value '131073' for '--sectors <N>': 131073 is not in 8..=131072
timewarp run a b --rounds=0 => error: invalid value '0' for '--rounds <N>': 0 is not in 1..=4294967295
timewarp run a b --sockets=c --judge most => error: invalid value 'most' for '--judge <N>': invalid digit found in string
timewarp run a b --keep 2 => error: the argument '--keep <K>' needs '--archive-when-full', which makes archived parts
timewarp run a b --keep-model => error: the argument '--keep-model' needs '--create', which makes the disk
timewarp info a --model --format csv => error: the argument '--model' prints a file as it is, and cannot be used with '--format'
timewarp draw a --histogram w --to 9 => error: the argument '--histogram <NAME>' counts all messages, and cannot be used with '--load', '--trace', '--format vcd', '--from', '--to' or '--processes'
timewarp run a b --archive-when-full --grow-when-full => error: the argument '--archive-when-full' cannot be used with '--grow-when-full'
timewarp seq a --advice --quiet => error: the argument '--advice' cannot be used with '--quiet'
timewarp grow a b --sectors=4 --large => error: invalid value '4' for '--sectors <N>': 4 is not in 8..=16777216
"#;

#[test]
fn invalid_values_are_refused_in_the_words_of_clap(rt: HostRuntime) -> Result<(), Fail> {
    assert_eq!(rt; wrong_row(rt.alloc(), Asked::Line, INVALID)?, None);
    Ok(())
}

/// Words that are refused, and what to write in place of one.
const HINTED: &str = r#"
timewarp run a b --batch atuo => Some(Batch)
timewarp run a b --batch=0 => Some(Batch)
timewarp run a b --batch -1 => Some(Batch)
timewarp new a b --sectors 200000 => Some(Large)
timewarp grow a b --sectors=131073 => Some(Large)
timewarp new a b --sectors 131072 => None
timewarp new a b --sectors 16777217 => None
timewarp new a b --sectors 200000 --large => None
timewarp run a b --rounds=0 => Some(Rounds)
timewarp run a b --rounds unlimted => Some(Rounds)
timewarp run a b --rounds unlimited => None
timewarp run a b --judge=every => Some(Judge)
timewarp run a b --judge all => None
timewarp run a b --judge=0 => None
timewarp draw a --processes 3 => Some(Processes)
timewarp draw a --processes=4..3 => Some(Processes)
timewarp draw a --processes=3..3 => None
timewarp run a b --keep -1 => Some(Negative("keep"))
timewarp log a b --from -1 => Some(Negative("from"))
# It is a file there.
timewarp new a b --from -1 => None
timewarp run a b --nodes=-2 => Some(Negative("nodes"))
timewarp run a b --trace -1 => None
timewarp log a b -- --from -1 => None
timewarp seq => None
 => None
"#;

#[test]
fn refused_words_get_a_hint(rt: HostRuntime) -> Result<(), Fail> {
    assert_eq!(rt; wrong_row(rt.alloc(), Asked::Hint, HINTED)?, None);
    Ok(())
}

/// Words, and whether they ask for advice.
const ADVISED: &str = r#"
timewarp seq a --advice => true
timewarp seq --advice a => true
timewarp new --advice => true
timewarp seq -- --advice => false
--advice seq a => false
 => false
"#;

#[test]
fn words_ask_for_advice_before_two_hyphens(rt: HostRuntime) -> Result<(), Fail> {
    assert_eq!(rt; wrong_row(rt.alloc(), Asked::Advice, ADVISED)?, None);
    Ok(())
}

/// Words, and whether they ask for faults without their causes.
const QUIET: &str = r#"
timewarp seq a --quiet => true
timewarp run --quiet => true
timewarp seq -- --quiet => false
--quiet seq a => false
timewarp seq a --advice => false
"#;

#[test]
fn words_ask_for_quiet_before_two_hyphens(rt: HostRuntime) -> Result<(), Fail> {
    assert_eq!(rt; wrong_row(rt.alloc(), Asked::Quiet, QUIET)?, None);
    Ok(())
}

/// Words, and what they set.
const SET: &str = r#"
timewarp seq a => []
timewarp seq a --set end=6 => [("end", "6")]
timewarp run --set=end=6 a b --seed 3 --set hold=1=2 => [("end", "6"), ("seed", "3"), ("hold", "1=2")]
timewarp run --seed=18 a --set end b --set=name= => [("seed", "18"), ("end", ""), ("name", "")]
timewarp seq a --advice -- --set end=6 => []
timewarp run a b --trace=--set --progress 5 => []
--set a=1 => []
"#;

#[test]
fn words_set_values(rt: HostRuntime) -> Result<(), Fail> {
    assert_eq!(rt; wrong_row(rt.alloc(), Asked::Settings, SET)?, None);
    Ok(())
}

/// Words after `help`, and the first line that is printed, or the kind of the mistake.
const HELPED: &str = r#"
timewarp help => Simulates logical processes that send one another messages stamped with virtual times
timewarp help run => Runs a model on its disk, from the last commit to its end
timewarp help verify => Checks all that a disk holds, from its first record on
timewarp help unattended => A run of days, that nobody watches:
timewarp help nonsense => InvalidSubcommand
timewarp help help => InvalidSubcommand
timewarp help run nodes => TooManyValues
timewarp help --large => UnknownArgument
timewarp help '' => InvalidSubcommand
"#;

#[test]
fn help_prints_what_a_word_names(rt: HostRuntime) -> Result<(), Fail> {
    assert_eq!(rt; wrong_row(rt.alloc(), Asked::Help, HELPED)?, None);
    Ok(())
}

/// Whether some line is wider than a page.
fn is_wide(text: &str) -> bool {
    for line in text.lines() {
        if line.chars().count() > 100 {
            return true;
        }
    }
    false
}

/// The first topic that has no text, or a text of lines that are too wide.
fn wrong_topic() -> Option<&'static str> {
    for name in TOPICS.split(", ") {
        match topic_of(&["timewarp", "help", name]) {
            Some(topic) if !topic.text().is_empty() && !is_wide(topic.text()) => {}
            _ => return Some(name),
        }
    }
    None
}

#[test]
fn each_topic_has_a_text(rt: HostRuntime) {
    assert_eq!(rt; wrong_topic(), None);
    assert_eq!(rt; topic_of(&["timewarp", "help", "run"]), None);
    assert_eq!(rt; topic_of(&["timewarp", "help", "nodes", "nodes"]), None);
    assert!(rt; asks_help(&["timewarp", "help"]));
    assert!(rt; !asks_help(&["help"]) && !asks_help(&["timewarp", "run", "help"]));
}

/// Whether the words run `ring.toml`, or the kind of their error.
fn runs_ring(alloc: Global, words: &[&str]) -> Result<bool, ErrorKind> {
    match read_command(alloc, TEXTS, words, &[]) {
        Ok(Command::Seq(args)) => Ok(args.model.path == "ring.toml"),
        Ok(_) => Ok(false),
        Err(error) => Err(error.kind()),
    }
}

// An allocation failure is reported as such, and a second call succeeds.
#[test]
fn a_command_is_read_after_an_allocation_failure(rt: HostRuntime) {
    let words = ["timewarp", "seq", "ring.toml"].as_slice();
    let mut read = runs_ring(rt.alloc(), words);
    if read == Err(ErrorKind::OutOfMemory) {
        read = runs_ring(rt.alloc(), words);
    }
    assert!(rt; read == Ok(true));
}
