// The words of the command line.

use crate::running::run;
use program::refuse_words;
use std::io::{Error, ErrorKind};
use std::test::Fail;

#[test]
fn unreadable_words_are_reported(rt: HostRuntime) -> Result<(), Fail> {
    let memory = Error::from(ErrorKind::OutOfMemory);
    let mut err = Vec::with_capacity(rt.alloc(), 512)?;
    let status = refuse_words("timewarp", memory, &mut err);
    assert_eq!(rt;
        (status, err.as_slice()),
        (1, b"timewarp: NoMemory\n".as_slice())
    );
    Ok(())
}

#[test]
fn an_empty_command_line_is_a_mistake(rt: HostRuntime) -> Result<(), Fail> {
    let outcome = run(&rt, &[])?;
    let text = str::from_utf8(outcome.err.as_slice()).map_err(|_| "text")?;
    assert!(rt; text.contains("Usage: timewarp <COMMAND>"));
    assert_eq!(rt; (outcome.status, outcome.out.len()), (2, 0));
    Ok(())
}
