// Text from outside, as it may be printed on a terminal.

use std::fmt;

/// A path or a line of a file, to be printed. Its text has each control character escaped, as
/// `\u{1b}`, so that no file name and no file can control a terminal, and takes one line.
#[derive(Clone, Copy, Debug, PartialEq, Eq)]
pub struct Printable<'a>(pub &'a str);

impl fmt::Display for Printable<'_> {
    fn fmt<W: fmt::Write>(&self, f: &mut fmt::Formatter<W>) -> fmt::Result {
        for letter in self.0.chars() {
            if letter.is_control() {
                write!(f, "{}", letter.escape_default())?;
            } else {
                f.write_char(letter)?;
            }
        }
        Ok(())
    }
}
