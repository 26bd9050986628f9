// Values that are set in the text of a model file.

use std::alloc::{AllocError, Global};
use std::test::Fail;
use texts::with_settings;

const TEXT: &str = "\
model = \"rules\" # a comment
lps = 4
names = [\"one\", \"two\"]

[numbers]
gap = 100
lps = 7
";

/// Settings as `NAME=VALUE` with blanks between, and the text that they make, with `|` for the ends
/// of its lines; or why they make none.
const ROWS: &str = r#"
lps=5 => lps = 5|model = "rules"|names = ["one", "two"]||[numbers]|gap = 100|lps = 7|
lps=5 gap=1 lps=0x10 => lps = 16|model = "rules"|names = ["one", "two"]||[numbers]|gap = 1|lps = 7|
model=ring => lps = 4|model = "ring"|names = ["one", "two"]||[numbers]|gap = 100|lps = 7|
model=7 => lps = 4|model = "7"|names = ["one", "two"]||[numbers]|gap = 100|lps = 7|
names=["three"] => lps = 4|model = "rules"|names = ["three"]||[numbers]|gap = 100|lps = 7|
gap=-1 => lps = 4|model = "rules"|names = ["one", "two"]||[numbers]|gap = -1|lps = 7|
lps=five => Setting(OtherKind(1))
gap=1.5 => Setting(OtherKind(1))
lps=1 gap= => Setting(OtherKind(2))
names=three => Setting(OtherKind(1))
gaps=1 => Setting(NoSuchKey(1))
gap=1 numbers.gap=2 => Setting(NoSuchKey(2))
numbers=1 => Setting(OtherKind(1))
"#;

/// A text with kinds, one of them without a count, and one with the name of an earlier one.
const KINDS: &str = "\
[[kind]]
name = \"host\"
count = 2
[[kind]]
name = \"link\"
[[kind]]
name = \"host\"
count = 3
";

/// Settings of that text, and the text that they make.
const COUNTS: &str = r#"
host.count=9 => [[kind]]|count = 9|name = "host"||[[kind]]|name = "link"||[[kind]]|count = 3|name = "host"|
link.count=9 => Setting(NoSuchKey(1))
host.counts=9 => Setting(NoSuchKey(1))
.count=9 => Setting(NoSuchKey(1))
host.count=many => Setting(OtherKind(1))
"#;

/// What settings make of a text, on one line.
fn made(alloc: Global, text: &str, line: &str) -> Result<String, AllocError> {
    let mut settings = Vec::new(alloc);
    for word in line.split_whitespace() {
        settings.push(word.split_once('=').unwrap_or((word, "")))?;
    }
    match with_settings(alloc, text, settings.as_slice()) {
        Ok(new) => on_one_line(alloc, new.as_str()),
        Err(fault) => format!(in alloc; "{fault:?}"),
    }
}

/// A text with `|` for the ends of its lines.
fn on_one_line(alloc: Global, text: &str) -> Result<String, AllocError> {
    let mut out = String::new(alloc);
    for line in text.lines() {
        out.push_str(line)?;
        out.push_str("|")?;
    }
    Ok(out)
}

/// The first of these rows that is not right.
fn wrong_row(
    alloc: Global,
    text: &str,
    rows: &'static str,
) -> Result<Option<&'static str>, AllocError> {
    for row in rows.lines() {
        if let Some((line, expected)) = row.split_once(" => ") {
            if made(alloc, text, line)?.as_str() != expected {
                return Ok(Some(row));
            }
        }
    }
    Ok(None)
}

#[test]
fn values_are_set(rt: HostRuntime) -> Result<(), Fail> {
    assert_eq!(rt; wrong_row(rt.alloc(), TEXT, ROWS)?, None);
    assert_eq!(rt; wrong_row(rt.alloc(), KINDS, COUNTS)?, None);
    assert_eq!(rt; made(rt.alloc(), "lps = ", "lps=1")?.as_str(), "Toml");
    Ok(())
}
