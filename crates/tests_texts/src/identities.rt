// What tells the disks of two model files apart: the header of a disk is a function of the model's
// identity and of the end. Each change of one key changes what a file means, so no two of these
// headers may be the same.

use circuit::Circuit;
use models::AnyModel;
use recovery::header;
use std::alloc::Global;
use std::test::Fail;
use texts::{Described, read_model};

/// The header of a disk that is made for a model file.
fn header_of<M: Described>(alloc: Global, text: &str) -> Result<[u8; 512], Fail> {
    match read_model::<M>(alloc, text) {
        Ok((model, end)) => Ok(header(alloc, &model, end)),
        Err(_fault) => Err(Fail::from("the model file is refused")),
    }
}

/// The file with a change, `what stands there once => what it is replaced by`.
fn changed(alloc: Global, text: &str, change: &str) -> Result<String, Fail> {
    let (old, new) = change.split_once(" => ").ok_or("a change")?;
    let (front, rest) = text.split_once(old).ok_or("what is changed")?;
    Ok(format!(in alloc; "{front}{new}{rest}")?)
}

/// The first change of a file whose header is that of the file or of an earlier change.
fn alike<'a, M: Described>(
    alloc: Global,
    text: &str,
    changes: &'a str,
) -> Result<Option<&'a str>, Fail> {
    let mut headers: Vec<[u8; 512]> = Vec::new(alloc);
    headers.push(header_of::<M>(alloc, text)?)?;
    for change in changes.lines() {
        let header = header_of::<M>(alloc, changed(alloc, text, change)?.as_str())?;
        if headers.contains(&header) {
            return Ok(Some(change));
        }
        headers.push(header)?;
    }
    Ok(None)
}

const RING: &str = "model = 'ring'\nlps = 3\nend = 10\nhold = 2\ntokens = 1\n";

const RINGS: &str = "\
lps = 3 => lps = 4
end = 10 => end = 11
hold = 2 => hold = 3
tokens = 1 => tokens = 2
";

const PHOLD: &str = "model = 'phold'\nlps = 3\nend = 10\npopulation = 2\nspread = 20\nseed = 7\n";

const PHOLDS: &str = "\
lps = 3 => lps = 4
end = 10 => end = 11
population = 2 => population = 3
spread = 20 => spread = 21
seed = 7 => seed = 8
";

/// The same numbers as those of `PHOLD`, so that the model's kind alone differs.
const SHOP: &str = "model = 'jobshop'\nlps = 3\nend = 10\njobs = 2\nservice = 20\nseed = 7\n";

const SHOPS: &str = "\
lps = 3 => lps = 4
end = 10 => end = 11
jobs = 2 => jobs = 3
service = 20 => service = 21
seed = 7 => seed = 8
";

const CIRCUIT: &str = "\
end = 12
gates = [
{ table = 0x55, delay = 2, first = 0, count = 1 },
{ table = 0x55, delay = 3, first = 1, count = 1 },
]
wires = [
{ to = 1, pin = 0 },
{ to = 0, pin = 0 },
]
";

const CIRCUITS: &str = "\
end = 12 => end = 13
table = 0x55, delay = 2 => table = 0x56, delay = 2
delay = 3 => delay = 4
first = 0, count = 1 => first = 1, count = 1
first = 0, count = 1 => first = 0, count = 2
{ to = 1, pin = 0 } => { to = 0, pin = 0 }
{ to = 0, pin = 0 } => { to = 0, pin = 1 }
{ to = 0, pin = 0 }, => { to = 0, pin = 0 }, { to = 1, pin = 1 }
first = 1, count = 1 }, => first = 1, count = 1 }, { table = 1, delay = 1, first = 0, count = 0 }
";

#[test]
fn each_key_of_a_model_file_tells_its_disk_apart(rt: HostRuntime) -> Result<(), Fail> {
    let alloc = rt.alloc();
    for (text, changes) in [(RING, RINGS), (PHOLD, PHOLDS), (SHOP, SHOPS)] {
        assert_eq!(rt; alike::<AnyModel>(alloc, text, changes)?, None);
    }
    assert_eq!(rt; alike::<Circuit>(alloc, CIRCUIT, CIRCUITS)?, None);
    Ok(())
}

#[test]
fn models_of_equal_numbers_are_told_apart(rt: HostRuntime) -> Result<(), Fail> {
    let phold = header_of::<AnyModel>(rt.alloc(), PHOLD)?;
    assert!(rt; phold != header_of::<AnyModel>(rt.alloc(), SHOP)?);
    Ok(())
}
