// Where a model file differs from the model that a disk keeps.

use std::alloc::{AllocError, Global};
use views::difference_in;

/// The text that a disk keeps, a file, in both of which `;` ends a line, and what is said of their
/// first difference; `-` if nothing is.
const ROWS: &str = "\
a = 1;b = 2 | a = 1;b = 2 | -
a = 1 # one;;b = 2 | # two;  a=1;b\t=2 | -
a = 'it\"s' # one | a = 'it\"s' # two | -
a = 1;b = 2 | a = 2;b = 3 | the disk's model has 'a = 1' (line 1), this file 'a = 2' (line 1)
a = 1;b = 2 | a = 1;;# b;b = 3 # b | the disk's model has 'b = 2' (line 2), this file 'b = 3' (line 4)
a = 1;b = 2 | b = 2;a = 1 | the disk's model has 'a = 1' (line 1), this file 'b = 2' (line 1)
a = 1 | a = 1;;b = 2 | the disk's model has nothing more, this file 'b = 2' (line 3)
a = 1;b = 2 | a = 1;# b = 2 | the disk's model has 'b = 2' (line 2), this file nothing more
a = \"x#y\" | a = \"x#z\" | the disk's model has 'a = \"x#y\"' (line 1), this file 'a = \"x#z\"' (line 1)
a = 12 | a = 1 | the disk's model has 'a = 12' (line 1), this file 'a = 1' (line 1)
aaaaaaaaaaaaaaaaaaaaaaaaaaaaaaaaaaaaaaaaaaaaaaaaaaaaaaaaaaaaa | \
aaaaaaaaaaaaaaaaaaaaaaaaaaaaaaaaaaaaaaaaaaaaaaaaaaaaaaaaaaaa | \
the disk's model has 'aaaaaaaaaaaaaaaaaaaaaaaaaaaaaaaaaaaaaaaaaaaaaaaaaaaaaaaaaaaa..' (line 1), \
this file 'aaaaaaaaaaaaaaaaaaaaaaaaaaaaaaaaaaaaaaaaaaaaaaaaaaaaaaaaaaaa' (line 1)
";

/// The text of these lines.
fn text_of(alloc: Global, lines: &str) -> Result<String, AllocError> {
    let mut text = String::new(alloc);
    for line in lines.split(';') {
        text.push_str(line)?;
        text.push_str("\n")?;
    }
    Ok(text)
}

/// Whether of the texts of a row is said what stands there.
fn is_said(alloc: Global, row: &str) -> Result<bool, AllocError> {
    let mut parts = row.split(" | ");
    let kept = text_of(alloc, parts.next().unwrap_or(""))?;
    let given = text_of(alloc, parts.next().unwrap_or(""))?;
    let expected = parts.next().unwrap_or("");
    let said = difference_in(alloc, kept.as_str(), given.as_str(), true)?;
    Ok(match said {
        Some(line) => line.as_str() == expected,
        None => expected == "-",
    })
}

#[test]
fn the_first_line_that_differs_is_named(rt: HostRuntime) -> Result<(), AllocError> {
    for row in ROWS.lines() {
        let holds = is_said(rt.alloc(), row)?;
        assert!(rt; holds, "{row}");
    }
    Ok(())
}
