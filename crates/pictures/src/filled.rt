// Texts with placeholders for numbers.

ghost use Rattle.eventkey.specs.Writing.{Writes};
ghost use Rattle.pictures.specs.Filled.{filled as filled_with};

use std::io::{Result, Write};
use texts::{write_number, write_text};

/// Writes a text with these numbers in decimal digits, each in place of one `$`.
///
/// If the writer fails, its error is returned, and it has taken a beginning of the text.
pub(crate) fn write_filled<W: Write>(text: &str, numbers: &[u64], out: &mut W) -> Result<()>
    ensures { Writes (W.contents out.old) (W.contents out.new) result
        (filled_with text.now numbers.now) }
{
    let mut rest = text;
    for number in numbers {
        let Some((before, after)) = rest.split_once('$') else {
            return write_text(rest, out);
        };
        write_number(before, *number, out)?;
        rest = after;
    }
    write_text(rest, out)
}
