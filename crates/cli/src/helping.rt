// What `help` prints: a topic, or what `--help` prints of the program or a command.

use crate::company::error_of;
use crate::grammar::Texts;
use crate::reading::read_command;
use crate::topics::topic_of;
use clap::Error;
use clap::error::ErrorKind;
use std::alloc::Global;
use std::convert::AsStr;

/// Returns the text that `help` prints. The words are the program's own name, `help`, and the name
/// of a topic or a command, or nothing for the program's own help.
///
/// Where there is neither a command nor a topic of the name, returns the error by which `clap`
/// refuses it as a command, and where there are more words, one of the kind `TooManyValues`. If an
/// allocation failed, the kind is `OutOfMemory`.
pub fn help_text<S: AsStr>(alloc: Global, texts: Texts<'_>, words: &[S]) -> Result<String, Error> {
    if let Some(topic) = topic_of(words) {
        return Ok(String::from_str(alloc, topic.text())?);
    }
    match words.get(2) {
        None => text_of(alloc, texts, &[texts.name, "--help"]),
        Some(name) if words.len() == 3 => {
            text_of(alloc, texts, &[texts.name, name.as_str(), "--help"])
        }
        Some(_) => Err(error_of(
            alloc,
            texts.name,
            ErrorKind::TooManyValues,
            "'help' takes one command or one topic",
        )),
    }
}

/// The help that these words ask `clap` for, or its error.
fn text_of<'a>(alloc: Global, texts: Texts<'a>, words: &'a [&'a str]) -> Result<String, Error> {
    match read_command(alloc, texts, words, &[]) {
        Ok(_) => Err(error_of(
            alloc,
            texts.name,
            ErrorKind::InvalidSubcommand,
            "there is no such command",
        )),
        Err(error) if error.kind() == ErrorKind::DisplayHelp => Ok(format!(in alloc; "{error}")?),
        Err(error) => Err(error),
    }
}
