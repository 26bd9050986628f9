// The entry point of the program.

ghost use Rattle.std.specs.Prelude.{◌≤◌};

use crate::helping::print_help;
use crate::status::{About, answer, print_fault, words};
use cli::{asks_help, says_advice, says_quiet};
use disk_commands::Fault;
use std::env;
use std::fs::File;
use std::io::{self, BufWriter, IsTerminal, Print, Result as IoResult, Write};
use std::net::Net;
use std::os::fd::AsRawFd;
use std::process::Processes;
use std::rt::{Env, Files};
use std::time::{Clock, CpuClock};
use terminal::TerminalProgress;
use texts::Described;

/// Runs the command that the words of the command line give, over models of kind `M`, and returns
/// the exit status. A program's `main` only needs this call.
///
/// If the second word is `help`, prints on standard output the help of the program, or of the
/// command or the topic that the third one names.
///
/// Results are printed on standard output. Faults are printed on `err`, and the progress of a run
/// and advice, after a fault or to run another way, if `err` is a terminal, or lines of progress if
/// these are asked for. If `err` is no terminal, a second line says which file a fault is about, and
/// what the system says. If the environment has `TIMEWARP_ADVICE` as `1`, each command has the
/// option `--advice`; as `0`, there is no second line.
pub fn start<M, R, E>(rt: &R, about: About<'_>, mut err: E) -> u8
where
    M: Described,
    R: Env + Files<File = File> + Net + Processes + Clock + CpuClock + Print + AllocGlobal,
    E: Write + IsTerminal + Copy,
    ensures { result ≤ 2 }
{
    let _filled = fill_streams(rt);
    let Ok(mut out) = BufWriter::new(rt.alloc(), io::writer(rt)) else {
        return print_fault(about.name, Fault::NoMemory, &mut err);
    };
    let progress = if err.is_terminal() {
        TerminalProgress::on(rt, Some(err))
    } else if has_advice(rt, "0") {
        TerminalProgress::in_lines(rt, err).bare()
    } else {
        TerminalProgress::in_lines(rt, err)
    };
    let mut progress = progress.named(about.name);
    let words = asked(rt);
    let is_help = match &words {
        Ok(words) => asks_help(words.as_slice()),
        Err(_) => false,
    };
    let status = match words {
        Ok(words) if is_help => print_help(rt, about, words.as_slice(), &mut out, &mut err),
        words => answer::<M, _, _, _, _>(rt, about, words, &mut progress, &mut out, &mut err),
    };
    // each command flushes what it writes: what is left was refused, and is not tried again
    let (_writer, _left) = out.into_parts();
    status
}

/// The words of the command line, with the option for advice after the command's name if the
/// environment asks for it.
fn asked<R: Env + AllocGlobal>(rt: &R) -> IoResult<Vec<String>> {
    let mut words = words(rt)?;
    if has_advice(rt, "1") && takes_advice(words.as_slice()) && words.len() >= 2 {
        words.insert(2, String::from_str(rt.alloc(), "--advice")?)?;
    }
    Ok(words)
}

/// Whether the environment has `TIMEWARP_ADVICE` as this value.
fn has_advice<R: Env + AllocGlobal>(rt: &R, value: &str) -> bool {
    match env::var(rt, "TIMEWARP_ADVICE") {
        Ok(found) => found.as_str() == value,
        Err(_) => false,
    }
}

/// Whether the option for advice can be put after the first word of these, which is the program's
/// name, and the second: that names a command, and they have neither the option nor the one that
/// excludes it.
fn takes_advice(words: &[String]) -> bool {
    match words.get(1) {
        Some(command) => {
            !command.as_str().starts_with('-')
                && !asks_help(words)
                && !says_advice(words)
                && !says_quiet(words)
        }
        None => false,
    }
}

/// Opens the null device in place of each standard stream that the caller has closed. Until these
/// files are dropped, a file or socket of a command gets another number, so nothing printed goes to
/// it.
fn fill_streams<R>(rt: &R) -> Vec<File>
where
    R: Files<File = File> + AllocGlobal,
{
    let mut filled = Vec::new(rt.alloc());
    for _ in 0..3 {
        let Ok(file) = File::open(rt, "/dev/null") else {
            break;
        };
        if file.as_raw_fd() > 2 || filled.push(file).is_err() {
            break;
        }
    }
    filled
}
