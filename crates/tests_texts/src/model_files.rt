// Model files.

use models::{AnyModel, TokenRing};
use std::alloc::Global;
use std::test::Fail;
use texts::{Described, Mistake, ModelFault, find_mistakes, read_model};

const RING: &str = "model = \"ring\"\nlps = 3\nend = 10\nhold = 2\ntokens = 1\n";

/// Files, each with the text of its mistakes, a line for each: a line `=>` stands between the two, and
/// a line `--` between two files.
const WRONG: &str = r#"model = 'ring'
lps = 3
end = 10
hold = 2
tokens = 1
=>
--
model = 'jobshop'
lps = true
end = 1.5
jobs = [1]
service = {}
seed = 1979-05-27
=>
  lps: true or false; expected a whole number from 1 to 1024
  end: a number with a fraction; expected a whole number from 1 to 1099511627776
  jobs: a list; expected a whole number from 1 to 8
  service: a table; expected a whole number from 1 to 4294967295
  seed: a date or a time; expected a whole number from 0 to 9223372036854775807
--
# A first mistake whose text says everything is not repeated.
model = 'phold'
lps = 0
end = -1
population = 9
spread = 4294967296
seed = -5
=>
  end: -1 is not within 1 to 1099511627776
  population: 9 is not within 1 to 8
  spread: 4294967296 is not within 1 to 4294967295
  seed: -5 is not within 0 to 9223372036854775807
--
# The limit of tokens depends on `lps`.
model = 'ring'
lps = 3
end = 10
hold = 0
tokens = 25
=>
  tokens: 25 is not within 1 to 24
--
model = 'ring'
end = 10
hold = 1
tokens = 25
=>
  lps: missing; expected a whole number from 1 to 1024
--
# Keys of another model are unknown keys.
model = 'ring'
lps = 3
end = 10
hold = 1
tokens = 1
spread = 7
jobs = 2
=>
  "jobs": the model has no such key
  "spread": the model has no such key
--
# If no model is named, only the keys that all models have are checked.
model = 'Ring'
lps = 3
end = 10
hold = 'x'
=>
  model: a string; expected "ring", "phold" or "jobshop"
--
# The reported line is the one where the mistake begins.
# two
lps = 3
lps = [
  4,
]
=>
  line 4: duplicate key
"#;

/// The first file of such a text whose mistakes are others, or which is read with mistakes or refused
/// without. Each file stands between the same two texts.
pub fn wrong_file<'a, M: Described>(
    alloc: Global,
    before: &str,
    files: &'a str,
    behind: &str,
) -> Result<Option<&'a str>, Fail> {
    for pair in files.split("--\n") {
        let (file, expected) = pair.split_once("=>\n").ok_or("a pair")?;
        let text = format!(in alloc; "{before}{file}{behind}")?;
        if !is_mistaken::<M>(alloc, text.as_str(), expected)? {
            return Ok(Some(file));
        }
    }
    Ok(None)
}

/// Whether a file has just these mistakes, and is read if there are none.
fn is_mistaken<M: Described>(alloc: Global, text: &str, expected: &str) -> Result<bool, Fail> {
    let found = find_mistakes::<M>(alloc, text.as_bytes())?;
    let found = format!(in alloc; "{found}")?;
    let is_read = read_model::<M>(alloc, text).is_ok();
    Ok(found.as_str() == expected && is_read == expected.is_empty())
}

#[test]
fn all_mistakes_are_listed(rt: HostRuntime) -> Result<(), Fail> {
    assert_eq!(rt; wrong_file::<AnyModel>(rt.alloc(), "", WRONG, "")?, None);
    Ok(())
}

/// Findings in a ring: each with its key, what was found there, and what was expected.
const FINDINGS: &str = "Keys(Findings { items: [\
    Finding { key: \"tokens\", found: Text, expected: Number { least: 1, most: 24 }, \
    inside: None }, \
    Finding { key: \"seed\", found: Number(7), expected: Nothing, inside: None }] })";

// After an allocation failure a second call succeeds.
#[test]
fn a_finding_has_what_was_found_and_what_was_expected(rt: HostRuntime) -> Result<(), Fail> {
    let text = "model = 'ring'\nlps = 3\nend = 10\nhold = 2\ntokens = '1'\nseed = 7\n";
    let mut found = find_mistakes::<AnyModel>(rt.alloc(), text.as_bytes());
    if found.is_err() {
        found = find_mistakes::<AnyModel>(rt.alloc(), text.as_bytes());
    }
    assert_eq!(rt; format!(in rt.alloc(); "{:?}", found?)?.as_str(), FINDINGS);
    Ok(())
}

// An allocation failure is reported as `NoMemory`, and a second call succeeds.

#[test]
fn a_model_is_read_after_an_allocation_failure(rt: HostRuntime) {
    let mut read = read_model(rt.alloc(), RING);
    if read == Err(ModelFault::NoMemory) {
        read = read_model(rt.alloc(), RING);
    }
    assert!(rt; read == Ok((AnyModel::TokenRing(TokenRing::new(3, 2, 1)), 10)));
}

#[test]
fn a_bad_model_is_refused_after_an_allocation_failure(rt: HostRuntime) {
    let text = "model = \"ring\"\nlps = 0\nend = 10\nhold = 2\ntokens = 1\n";
    let mut read = read_model::<AnyModel>(rt.alloc(), text);
    if read == Err(ModelFault::NoMemory) {
        read = read_model::<AnyModel>(rt.alloc(), text);
    }
    let mistake = Mistake::Outside {
        key: "lps",
        found: 0,
        least: 1,
        most: 1024,
    };
    assert!(rt; read == Err(ModelFault::BadModel(mistake)));
}
