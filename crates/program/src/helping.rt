// `help`: the texts that it prints, and what it refuses.

ghost use Rattle.std.specs.Prelude.{◌≤◌};

use crate::status::{About, print_fault};
use crate::version::VERSION;
use clap::error::ErrorKind;
use cli::{TOPICS, Texts, help_text, program_help, seq_help};
use disk_commands::Fault;
use std::io::Write;

/// Prints on `out` the help that the words ask for, whose second one is `help`, and returns the
/// exit status.
///
/// The status is 0 if the text is printed, and 1 after a fault, which is printed on `err`:
/// `NoMemory`, or `Output` if `out` refuses the text. If there is neither a command nor a topic of
/// the name, or there are more words, `clap`'s text and the names of all topics are printed on
/// `err`, and the status is 2.
pub fn print_help<R, O, E>(
    rt: &R,
    about: About<'_>,
    words: &[String],
    out: &mut O,
    err: &mut E,
) -> u8
where
    R: AllocGlobal,
    O: Write,
    E: Write,
    ensures { result ≤ 2 }
{
    let Ok(help) = program_help(rt.alloc(), about.name, about.example) else {
        return print_fault(about.name, Fault::NoMemory, err);
    };
    let Ok(seq_help) = seq_help(rt.alloc(), about.keys) else {
        return print_fault(about.name, Fault::NoMemory, err);
    };
    let texts = Texts {
        name: about.name,
        version: VERSION,
        help: help.as_str(),
        seq_help: seq_help.as_str(),
    };
    match help_text(rt.alloc(), texts, words) {
        Ok(text) => print_text(about.name, text.as_str(), out, err),
        Err(error) if error.kind() == ErrorKind::OutOfMemory => {
            print_fault(about.name, Fault::NoMemory, err)
        }
        Err(error) => {
            let _ = write!(err, "{error}");
            let _ = writeln!(err, "'help' takes a command, or a topic: {TOPICS}");
            2
        }
    }
}

/// Prints a text on `out`, and returns the exit status: 0, or 1 if `out` refuses it.
fn print_text<O: Write, E: Write>(name: &str, text: &str, out: &mut O, err: &mut E) -> u8
    ensures { result ≤ 1 }
{
    if out.write_all(text.as_bytes()).is_ok() && out.flush().is_ok() {
        0
    } else {
        print_fault(name, Fault::Output, err)
    }
}
