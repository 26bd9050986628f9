// From the words of the command line to the exit status of their command.

ghost use Rattle.std.specs.IoError.{error_kind};
ghost use Rattle.std.specs.Io.KnownBytes.{Appends};
ghost use Rattle.std.specs.Prelude.{◌≡◌, ◌≤◌, ◌≢◌, ◌⊎◌, ◌∷◌, ℕ, List, [], map, IsErr, OnErr, OnOk};
ghost use Rattle.clap.specs.Values.{kind_of};
ghost use Rattle.cli.specs.Command.{refusal_of, IsRanged};
ghost use Rattle.eventkey.specs.Writing.{TakesBeginning};
ghost use Rattle.program.specs.Command.{IsAnswered, BeginsAnswer, IsOutput, IsOutputSoFar};
ghost use Rattle.program.specs.Version.{version_text, AsksVersion};
ghost use Rattle.views.specs.Reading.{IsSeen, IsSeenSoFar};
ghost use Rattle.views.specs.Views.{Begins, Prints};

use crate::attempts::NodePrograms;
use crate::making::{extend_on, migrate_on};
use crate::parts::new_as;
use crate::running::{run_as, serve_on};
use crate::version::{VERSION, print_version};
use clap::error::{Error as LineError, ErrorKind as LineFault};
use cli::{
    Command, Texts, UsageHint, hint_of, program_help, read_command, says_advice, says_quiet,
    seq_help, settings_of,
};
use disk_commands::{
    Asked, Fault, Noted, SystemErrors, Verifying, advise, cut_on, grow_on, recover_on, reopen_on,
};
use frames::judging::Differences;
use node_programs::Calls;
use std::convert::AsStr;
use std::env;
use std::fs::File;
use std::io::{Error as IoError, ErrorKind, Result as IoResult, Write};
use std::net::Net;
use std::process::Processes;
use std::rt::{Env, Files};
use std::time::Clock;
use terminal::Progress;
use texts::{Described, MistakeReport};
use views::{Look, Wrong, look_at};

/// What distinguishes a program over one kind of model from another.
#[derive(Clone, Copy)]
pub struct About<'a> {
    /// The program's name.
    pub name: &'a str,
    /// The path of a model file, which the help gives as an example.
    pub example: &'a str,
    /// What the help of `seq` says of the keys of a model file.
    pub keys: &'a str,
}

/// Returns the words of the command line, the program's own name first. Returns an error of the
/// kind `InvalidData` if a word is not UTF-8.
pub fn words<R: Env + AllocGlobal>(rt: &R) -> IoResult<Vec<String>> {
    Ok(env::args(rt)?.collect(rt.alloc())?)
}

/// Runs the command that `words` give, over models of kind `M`, and returns the exit status. The
/// first word is the program's own name.
///
/// The status is 0 if the command succeeds, or the version that the words ask for is printed on
/// `out`; 1 after a fault, which is printed on `err` as the program's name, `: ` and its text; and 2
/// if the words are no command or ask for help, with `clap`'s text on `err`. Below a mistake that
/// `check` finds all mistakes of the model file are printed, each beside its line. With `--advice`,
/// or if `progress` is seen, what to do about a fault follows it, and `progress` gets a hint during a
/// run that another way would be faster. Otherwise a second line says which file a fault is about
/// and what the system says, unless `progress` is bare. With `--quiet` nothing follows a fault.
///
/// The command writes its results to `out`, which is flushed at the end. A run reports its progress
/// to `progress`, and each command its fault, after that is printed.
///
/// A run over node programs starts the program of the first word for each node, or waits until
/// programs that others started have connected. At its end, and after any fault, it waits for those
/// that it started, and removes the files that it made for them. If it goes on after a fault, as its options
/// say, that is only reported to `progress`.
pub fn command<M, R, S, P, O, E>(
    rt: &R,
    about: About<'_>,
    words: &[S],
    progress: &mut P,
    out: &mut O,
    err: &mut E,
) -> u8
where
    M: Described,
    R: Files<File = File> + Net + Processes + Clock + AllocGlobal,
    S: AsStr,
    P: Progress,
    O: Write,
    E: Write,
    ensures status { result ≤ 2 }
    ensures printed { result ≡ 0 →
        IsAnswered about.entry.name.now (IsOutput M.meaning M.says M.shows)
        (map S.text words.now) (O.contents out.old) (O.contents out.new) }
    ensures usage { refusal_of about.entry.name.now (map S.text words.now) ≢ [] → result ≡ 0 →
        AsksVersion about.entry.name.now (map S.text words.now) }
    ensures version { refusal_of about.entry.name.now (map S.text words.now)
        ≡ LineFault.DisplayVersion ∷ [] → result ≢ 2 }
    ensures line { result ≡ 2 →
        refusal_of about.entry.name.now (map S.text words.now) ≢ [] }
    ensures failed { result ≡ 1 → (out.new ≡ out.old)
        ⊎ BeginsAnswer about.entry.name.now (IsOutputSoFar M.meaning M.says M.shows)
        (map S.text words.now) (O.contents out.old) (O.contents out.new) }
    ensures silent { result ≡ 2 → out.new ≡ out.old }
    ensures quiet { result ≡ 0 → err.new ≡ err.old }
{
    let Ok(help) = program_help(rt.alloc(), about.name, about.example) else {
        return print_fault(about.name, Fault::NoMemory, err);
    };
    let Ok(seq_help) = seq_help(rt.alloc(), about.keys) else {
        return print_fault(about.name, Fault::NoMemory, err);
    };
    let texts = Texts {
        name: about.name,
        version: VERSION,
        help: help.as_str(),
        seq_help: seq_help.as_str(),
    };
    let Ok(settings) = settings_of(rt.alloc(), words) else {
        return print_fault(about.name, Fault::NoMemory, err);
    };
    let command = match read_command(rt.alloc(), texts, words, settings.as_slice()) {
        Ok(command) => command,
        Err(error) => {
            let hint = hint_of(words);
            return answer_line(about.name, error, hint, out, err);
        }
    };
    let program = words.first().map(AsStr::as_str).unwrap_or("");
    let asked = Asked {
        advice: says_advice(words),
        quiet: says_quiet(words),
    };
    if asked.advice {
        progress.with_advice();
    }
    let calls = Calls::none();
    let differences = Differences::none();
    let nodes = NodePrograms {
        program,
        text: &[],
        calls: &calls,
        differences: &differences,
    };
    let said = SystemErrors::none();
    let mut found = None;
    match run::<M, R, P, O>(rt, nodes, command, &said, progress, out, &mut found) {
        Ok(()) => 0,
        Err(fault) => {
            progress.clear();
            let status = print_fault(about.name, fault, err);
            print_mistakes(command, &found, err);
            let noted = Noted {
                last: calls.last(),
                refused: differences.first(),
                system: said.last(),
                unmet: calls.unmet(),
                apart: calls.apart(),
                refusal: said.refusal(),
            };
            advise::<M, R, P, E>(rt, command, fault, noted, asked, progress, err);
            status
        }
    }
}

/// Runs the command of the words of the command line, or prints why they could not be read. Returns
/// the exit status.
pub fn answer<M, R, P, O, E>(
    rt: &R,
    about: About<'_>,
    words: IoResult<Vec<String>>,
    progress: &mut P,
    out: &mut O,
    err: &mut E,
) -> u8
where
    M: Described,
    R: Files<File = File> + Net + Processes + Clock + AllocGlobal,
    P: Progress,
    O: Write,
    E: Write,
    ensures status { result ≤ 2 }
    ensures unread { IsErr words → result ≢ 0 }
    ensures printed { result ≡ 0 → (said : List (List ℕ)) ×
        IsAnswered about.entry.name.now (IsOutput M.meaning M.says M.shows)
        said (O.contents out.old) (O.contents out.new) }
    ensures silent { result ≡ 2 → out.new ≡ out.old }
    ensures quiet { result ≡ 0 → err.new ≡ err.old }
{
    match words {
        Ok(words) => {
            command::<M, R, String, P, O, E>(rt, about, words.as_slice(), progress, out, err)
        }
        Err(error) => refuse_words(about.name, error, err),
    }
}

/// Runs a command. If `check` finds a mistake in a model file, `found` gets the file and all of them.
fn run<M, R, P, O>(
    rt: &R,
    nodes: NodePrograms<'_>,
    command: Command<'_>,
    said: &SystemErrors,
    progress: &mut P,
    out: &mut O,
    found: &mut Option<Wrong>,
) -> Result<(), Fault>
where
    M: Described,
    R: Files<File = File> + Net + Processes + Clock + AllocGlobal,
    P: Progress,
    O: Write,
    requires { IsRanged command }
    ensures ok { OnOk result (Prints (IsOutput M.meaning M.says M.shows command.entry)
        (O.contents out.old) (O.contents out.new)) }
    ensures err { OnErr result ((out.new ≡ out.old)
        ⊎ Begins (IsOutputSoFar M.meaning M.says M.shows command.entry)
        (O.contents out.old) (O.contents out.new)) }
{
    match command {
        Command::New(args) => new_as::<M, R, O>(rt, args, said, out),
        Command::Run(args) => run_as::<M, R, P, O>(rt, nodes, args, said, progress, out),
        Command::Extend(args) => extend_on::<M, R, O>(rt, args, said, out),
        Command::Grow(args) => grow_on::<M, R, P, O>(rt, args, said, progress, out),
        Command::Migrate(args) => migrate_on::<M, R, O>(rt, args, said, out),
        Command::Reopen(args) => reopen_on::<M, R, P, O>(rt, args, said, progress, out),
        Command::Cut(args) => cut_on::<M, R, P, O>(rt, args, said, progress, out),
        Command::Recover(args) => recover_on::<M, R, P, O>(rt, args, said, progress, out),
        Command::Status(args) => looked::<M, R, P, O>(rt, Look::Status(args), progress, out, found),
        Command::Info(args) => looked::<M, R, P, O>(rt, Look::Info(args), progress, out, found),
        Command::Verify(args) => looked::<M, R, P, O>(rt, Look::Verify(args), progress, out, found),
        Command::Log(args) => looked::<M, R, P, O>(rt, Look::Log(args), progress, out, found),
        Command::Show(args) => looked::<M, R, P, O>(rt, Look::Show(args), progress, out, found),
        Command::Stats(args) => looked::<M, R, P, O>(rt, Look::Stats(args), progress, out, found),
        Command::Draw(args) => looked::<M, R, P, O>(rt, Look::Draw(args), progress, out, found),
        Command::Seq(args) => looked::<M, R, P, O>(rt, Look::Seq(args), progress, out, found),
        Command::Check(args) => looked::<M, R, P, O>(rt, Look::Check(args), progress, out, found),
        Command::Node(args) => serve_on::<M, R>(rt, nodes.calls, args),
    }
}

/// Runs a command that only reads.
fn looked<M, R, P, O>(
    rt: &R,
    look: Look<'_>,
    progress: &mut P,
    out: &mut O,
    found: &mut Option<Wrong>,
) -> Result<(), Fault>
where
    M: Described,
    R: Files<File = File> + AllocGlobal,
    P: Progress,
    O: Write,
    ensures ok { OnOk result (Prints (IsSeen M.meaning M.says M.shows look.entry)
        (O.contents out.old) (O.contents out.new)) }
    ensures err { OnErr result ((out.new ≡ out.old)
        ⊎ Begins (IsSeenSoFar M.meaning M.says M.shows look.entry)
        (O.contents out.old) (O.contents out.new)) }
{
    let mut watch = Verifying { progress };
    Ok(look_at::<M, R, _, O>(rt, look, &mut watch, out, found)?)
}

/// IsAnswered words that give no command. Returns the exit status: 0 if they ask for the version, and it
/// is printed on `out`; else that of a refusal.
fn answer_line<O: Write, E: Write>(
    name: &str,
    error: LineError,
    hint: Option<UsageHint>,
    out: &mut O,
    err: &mut E,
) -> u8
    ensures asked { result ≡ 0 → kind_of error ≡ LineFault.DisplayVersion }
    ensures printed { result ≡ 0 →
        Appends (O.contents out.old) (O.contents out.new) (version_text name.now) }
    ensures failed { result ≡ 1 → (out.new ≡ out.old)
        ⊎ ((kind_of error ≡ LineFault.DisplayVersion)
        × TakesBeginning (O.contents out.old) (O.contents out.new) (version_text name.now)) }
    ensures version { kind_of error ≡ LineFault.DisplayVersion → result ≢ 2 }
    ensures memory { kind_of error ≡ LineFault.OutOfMemory → result ≡ 1 }
    ensures usage { kind_of error ≢ LineFault.OutOfMemory →
        kind_of error ≢ LineFault.DisplayVersion → result ≡ 2 }
    ensures silent { result ≡ 2 → out.new ≡ out.old }
    ensures quiet { result ≡ 0 → err.new ≡ err.old }
    ensures status { result ≤ 2 }
{
    match error.kind() {
        LineFault::DisplayVersion => print_version(name, out, err),
        _ => refuse_line(name, error, hint, err),
    }
}

/// Prints on `err` why the words are no command, and for a mistake in a value what to write instead,
/// if there is a hint. Returns the exit status: 1 if an allocation failed, and 2 for a mistake in the
/// words or a request for help.
fn refuse_line<E: Write>(name: &str, error: LineError, hint: Option<UsageHint>, err: &mut E) -> u8
    ensures usage { kind_of error ≢ LineFault.OutOfMemory → result ≡ 2 }
    ensures memory { kind_of error ≡ LineFault.OutOfMemory → result ≡ 1 }
{
    match error.kind() {
        LineFault::OutOfMemory => print_fault(name, Fault::NoMemory, err),
        _ => {
            let _ = write!(err, "{error}");
            if let (
                LineFault::ValueValidation | LineFault::UnknownArgument | LineFault::InvalidValue,
                Some(hint),
            ) = (error.kind(), hint)
            {
                let _ = writeln!(err, "{hint}");
            }
            2
        }
    }
}

/// Prints on `err` why the words of the command line could not be read, and returns the exit
/// status.
///
/// The status is 2 if a word is not UTF-8, as for the mistakes that `clap` finds, and otherwise 1,
/// since an allocation failed.
pub fn refuse_words<E: Write>(name: &str, error: IoError, err: &mut E) -> u8
    ensures usage { error_kind error ≡ ErrorKind.InvalidData → result ≡ 2 }
    ensures memory { error_kind error ≢ ErrorKind.InvalidData → result ≡ 1 }
    ensures failed { result ≢ 0 }
{
    match error.kind() {
        ErrorKind::InvalidData => {
            let _ = err.write_all(NO_UTF8.as_bytes());
            2
        }
        _ => print_fault(name, Fault::NoMemory, err),
    }
}

/// Has the form of `clap`'s texts.
const NO_UTF8: &str = "\
error: a word of the command line is not UTF-8

For more information, try '--help'.
";

/// Prints a fault after the program's name, and returns its status, 1.
pub fn print_fault<E: Write>(name: &str, fault: Fault, err: &mut E) -> u8
    ensures { result ≡ 1 }
{
    let _ = writeln!(err, "{name}: {fault}");
    1
}

/// Prints all mistakes that `check` found in a model file, each beside its line.
fn print_mistakes<E: Write>(command: Command<'_>, found: &Option<Wrong>, err: &mut E) {
    if let (Command::Check(args), Some(found)) = (command, found) {
        let report = MistakeReport {
            path: args.model.path,
            text: found.text.as_slice(),
            mistakes: &found.mistakes,
        };
        let _ = write!(err, "{report}");
    }
}
