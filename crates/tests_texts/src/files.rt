// Model files of models by rules. The places of mistakes in them, and how rules are laid out, are in
// the scripts `rules_in_files` and `laid_out`.

use crate::model_files::wrong_file;
use rule_files::FileModel;
use std::test::Fail;
use texts::{Described, read_model};

/// What a model file has before its rules.
const KEYS: &str = "
model = 'rules'
lps = 2
end = 9
state = ['n', 'key', 'm']
seed = 7
message = ['job']
[numbers]
jobs = 3
[tables]
ticks = [1, 2]
[rules]
";

/// Rules without statements, which do nothing.
const NOTHING: &str = "[rules]\nstart = ''\nhandle = ''\n";

/// The keys of files, and their mistakes.
const FILES: &str = r#"model = 'rules'
lps = 2
end = 9
state = []
=>
--
model = 'rules'
lps = 2
end = 9
state = ['x', 'key']
seed = 7
message = ['job']
[numbers]
n = 3
[tables]
t = [1, 2]
=>
--
model = 'rules'
lps = 2
end = 9
state = ['x', 'key']
=>
  seed: missing; expected a whole number from 0 to 9223372036854775807 if the state has key, otherwise nothing
--
model = 'rules'
lps = 2
end = 9
state = ['a']
=>
  state: "a" is also the name of a word of a message, which are a, b, c and d where they have no names
--
model = 'rules'
lps = 2
end = 9
state = ['now', '1x']
hold = 3
=>
  state: "now" is a word of the language
  "hold": the model has no such key
--
model = 'rules'
lps = 2
end = 9
state = []
[tables]
t = []
=>
  tables.t: an empty list; expected one or more numbers
"#;

#[test]
fn a_file_is_read_or_its_mistakes_are_found(rt: HostRuntime) -> Result<(), Fail> {
    assert_eq!(rt;
        wrong_file::<FileModel>(rt.alloc(), "", FILES, NOTHING)?,
        None
    );
    Ok(())
}

/// The rules of files, and their mistakes.
const RULES: &str = r#"start = 'send to 1 - self after jobs with draw(2)'
handle = 'n = job + b + c + d m = ticks[n]'
=>
--
start = 'n = jobs # three'
handle = 'repeat k jobs2 {}'
=>
  handle, line 1, column 10: a number below 2^32 is wanted here
--
start = 'n = '
handle = 'm = a'
=>
  start, line 1, column 5: the text ends, but a value is wanted here
  handle, line 1, column 5: there is nothing named "a"
--
start = 'key = 1'
handle = 'n = job'
=>
  start, line 1, column 1: "key" is neither read nor set
--
start = 'n = jobz'
handle = ''
=>
  start, line 1, column 5: there is nothing named "jobz"; did you mean "job"?
--
start = ''
handle = 'repeat i 9 { send to i after 1 }'
=>
  handle, line 1, column 1: more than 8 sends on some way through it
--
start = ''
handle = 'repeat i 8 { send to i after 1 }'
=>
--
start = 'repeat i 15 { n = draw(2) }'
handle = ''
=>
  start, line 1, column 1: more than 14 draws on some way through it
--
start = 'repeat i 14 { n = draw(2) }'
handle = ''
=>
--
start = ''
handle = 'repeat i 65536 { n = n + 1 }'
=>
  handle, line 1, column 1: more than 65536 steps on some way through it
"#;

#[test]
fn the_rules_of_a_file_are_read_or_its_mistakes_are_found(rt: HostRuntime) -> Result<(), Fail> {
    assert_eq!(rt; wrong_file::<FileModel>(rt.alloc(), KEYS, RULES, "")?, None);
    Ok(())
}

/// Files with kinds and sorts, and their mistakes.
const KINDS: &str = r#"model = 'rules'
end = 9
[messages]
go = ['left', '_', 'note']
stop = ['left']
[[kind]]
name = 'one'
count = 65535
state = ['n', 'q[3]: 16 bits']
start = 'send to two[self] after 1 with go, one.count, 0, 0'
handle = 'on go { n = left } on stop { q[0] = note }'
[[kind]]
name = 'two'
count = 1
state = []
start = ''
handle = 'repeat i 9 until i == left { }'
=>
--
model = 'rules'
lps = 2
end = 9
[messages]
go = ['left', 'left']
[[kind]]
name = 'let'
count = 0
state = ['n', 3]
message = ['m']
start = ''
handle = ''
=>
  messages.go: "left" is field 2 here, and field 1 of "go"
  name: a string; expected a name
  count: 0; expected a whole number from 1 to 65536
  state: item 2: 3; expected a name
  message: the words are named in messages, sort by sort
  "lps": the model has no such key
--
model = 'rules'
end = 9
[[kind]]
name = 'one'
count = 65535
state = []
start = ''
handle = ''
[[kind]]
name = 'two'
count = 2
state = []
start = ''
handle = ''
=>
  kind: a list; expected tables with at most 65536 processes in all
--
model = 'rules'
end = 9
[[kind]]
name = 'one'
count = 1
state = ['one', 'key']
start = ''
handle = ''
[[kind]]
name = 'two'
count = 1
state = ['n']
start = 'n = draw(2)'
handle = 'n = one n = self'
=>
  seed: missing; expected a whole number from 0 to 9223372036854775807 if the state has key, otherwise nothing
  name: "one" is also a name in state
  handle, line 1, column 9: "[" or ".count" is wanted here, behind a kind of processes
--
model = 'rules'
end = 9
[messages]
go = ['left', '_', 'note']
stop = []
[[kind]]
name = 'one'
count = 2
state = []
start = 'send to self after 1 with stop'
handle = 'send to one[self] after 1 with go, 1'
[[kind]]
name = 'two'
count = 1
state = []
start = 'send to 0 after 1'
handle = 'send to one[self] after 1 with 1'
=>
  start, line 1, column 9: a process of this kind is one[self]
  handle, line 1, column 32: go has 3 words, not 1
  start, line 1, column 1: a message begins with its sort
  handle, line 1, column 32: a message begins with its sort
"#;

#[test]
fn kinds_are_read_or_their_mistakes_are_found(rt: HostRuntime) -> Result<(), Fail> {
    assert_eq!(rt; wrong_file::<FileModel>(rt.alloc(), "", KINDS, "")?, None);
    Ok(())
}

/// A file with two kinds, the second one with an array of 20 bits after the key.
const NAMED: &str = "
model = 'rules'
end = 9
seed = 1
[messages]
go = ['_', 'note']
[[kind]]
name = 'one'
count = 2
state = ['n']
start = ''
handle = ''
[[kind]]
name = 'two'
count = 3
state = ['m', 'q[4]: 20 bits', 'key']
start = ''
handle = ''
";

#[test]
fn a_model_has_the_names_of_its_words(rt: HostRuntime) -> Result<(), Fail> {
    let text = format!(in rt.alloc(); "{KEYS}start = ''\nhandle = ''\n")?;
    let (model, _end): (FileModel, u64) = read_model(rt.alloc(), text.as_str())?;
    let printed = match model.names() {
        Some(names) => format!(in rt.alloc(); "{names:?}")?,
        None => String::new(rt.alloc()),
    };
    assert_eq!(rt;
        printed.as_str(),
        "Names { kinds: [Kind { name: \"\", first: 0, count: 2, columns: [\
        Column { name: \"n\", place: 0, shift: 0, bits: 64 }, \
        Column { name: \"key\", place: 1, shift: 0, bits: 64 }, \
        Column { name: \"m\", place: 2, shift: 0, bits: 64 }] }], \
        sorts: [Sort { name: \"\", words: [\"job\"] }] }"
    );
    Ok(())
}

#[test]
fn kinds_have_the_names_of_their_words_and_elements(rt: HostRuntime) -> Result<(), Fail> {
    let (model, _end): (FileModel, u64) = read_model(rt.alloc(), NAMED)?;
    let printed = match model.names() {
        Some(names) => format!(in rt.alloc(); "{names:?}")?,
        None => String::new(rt.alloc()),
    };
    assert_eq!(rt;
        printed.as_str(),
        "Names { kinds: [Kind { name: \"one\", first: 0, count: 2, columns: [\
        Column { name: \"key\", place: 0, shift: 0, bits: 64 }, \
        Column { name: \"n\", place: 1, shift: 0, bits: 64 }] }, \
        Kind { name: \"two\", first: 2, count: 3, columns: [\
        Column { name: \"key\", place: 0, shift: 0, bits: 64 }, \
        Column { name: \"m\", place: 1, shift: 0, bits: 64 }, \
        Column { name: \"q[0]\", place: 2, shift: 0, bits: 20 }, \
        Column { name: \"q[1]\", place: 2, shift: 20, bits: 20 }, \
        Column { name: \"q[2]\", place: 2, shift: 40, bits: 20 }, \
        Column { name: \"q[3]\", place: 3, shift: 0, bits: 20 }] }], \
        sorts: [Sort { name: \"go\", words: [\"\", \"\", \"note\"] }] }"
    );
    Ok(())
}
