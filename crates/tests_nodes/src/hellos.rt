// The hello of a run and the answer of a node, over streams in memory: what is written, the result,
// and the unread rest.

use crate::frames_of_ring::{BELOW_FLOOR, LATE, LOAD, PARCEL, REPLY};
use crate::in_memory::{MANY, NEVER, Pieces, Refusal, Taking, bytes_of};
use frames::{Ending, Heard, Hello, hear_hello, say_hello, serve_greeted};
use models::TokenRing;
use std::alloc::{AllocError, Global};
use std::io::ErrorKind;
use std::test::Fail;
use wire::{PortFault, WireFault};

/// The end of the ring in ticks.
const END: u64 = 10;

/// A ring of three processes, with one token that each holds for two ticks.
fn ring() -> TokenRing {
    TokenRing::new(3, 2, 1)
}

/// The bytes that the rows name, in hexadecimal. A body is that of the frame without the length and
/// the kind. The later format has other frames after the same hello.
const HELLOS: [(&str, &str); 11] = [
    (
        "hello",
        "00000029 10 00000002 00000003 000000000000000a 03 \
         0000000000000001 0000000000000002 0000000000000001",
    ),
    (
        "hello_body",
        "00000002 00000003 000000000000000a 03 \
         0000000000000001 0000000000000002 0000000000000001",
    ),
    (
        "other_end",
        "00000029 10 00000002 00000003 000000000000000b 03 \
         0000000000000001 0000000000000002 0000000000000001",
    ),
    (
        "other_word",
        "00000029 10 00000002 00000003 000000000000000a 03 \
         0000000000000001 0000000000000002 0000000000000000",
    ),
    (
        "fewer_words",
        "00000021 10 00000002 00000003 000000000000000a 02 \
         0000000000000001 0000000000000002",
    ),
    (
        "other_count",
        "00000029 10 00000002 00000004 000000000000000a 03 \
         0000000000000001 0000000000000002 0000000000000001",
    ),
    (
        "later_format",
        "00000029 10 00000003 00000003 000000000000000a 03 \
         0000000000000001 0000000000000002 0000000000000001",
    ),
    ("torn", "00000029 10 00000002 00000003 0000000000"),
    (
        "without_end",
        "00000029 10 00000002 00000003 0000000000000000 03 \
         0000000000000001 0000000000000002 0000000000000001",
    ),
    (
        "longer",
        "0000002a 10 00000002 00000003 000000000000000a 03 \
         0000000000000001 0000000000000002 0000000000000001 00",
    ),
    ("too_long", "01000001 03"),
];

/// The other frames that the rows name.
const FRAMES: [(&str, &[u8]); 5] = [
    ("load", LOAD),
    ("parcel", PARCEL),
    ("late", LATE),
    ("reply", REPLY),
    ("below_floor", BELOW_FLOOR),
];

/// The bytes that a text names.
fn named(alloc: Global, text: &str) -> Result<Vec<u8>, AllocError> {
    let mut bytes = Vec::new(alloc);
    for word in text.split(' ') {
        for (name, digits) in HELLOS {
            if word == name {
                bytes.extend_from_slice(bytes_of(alloc, digits)?.as_slice())?;
            }
        }
        for (name, frame) in FRAMES {
            if word == name {
                bytes.extend_from_slice(frame)?;
            }
        }
        if word == "reply_body" {
            bytes.extend_from_slice(REPLY.split_at(5).1)?;
        }
    }
    Ok(bytes)
}

/// Whether these bytes are those that a text names.
fn are_named(alloc: Global, bytes: &[u8], text: &str) -> Result<bool, AllocError> {
    Ok(named(alloc, text)?.as_slice() == bytes)
}

/// A hello as the rows write it: its format, number of processes, end and words.
fn numbers_of(alloc: Global, hello: &Hello) -> Result<String, AllocError> {
    let (format, lps, end) = (hello.format, hello.lps, hello.end);
    let words = hello.identity.as_slice();
    format!(in alloc; "other {format} {lps} {end} {words:?}")
}

/// How a node's loop ended, as the rows write it.
fn ended(alloc: Global, ending: Result<Ending, WireFault>) -> Result<String, AllocError> {
    match ending {
        Ok(Ending::Replies(count)) => format!(in alloc; "{count}"),
        Ok(Ending::OtherModel(hello)) => numbers_of(alloc, &hello),
        Err(fault) => format!(in alloc; "{fault}"),
    }
}

/// A stream to a node of the ring, whether it is served up to 0, 1 or many replies, what is written,
/// the result, and the unread rest.
const SERVED: &str = "\
    hello load parcel|many|hello reply|1|\n\
    hello load parcel late parcel|many|hello reply below_floor|1|parcel\n\
    hello load parcel late parcel|1|hello reply|1|late parcel\n\
    hello load parcel|0|hello|0|parcel\n\
    hello load|many|hello|0|\n\
    hello|many|hello|0|\n\
    other_end load parcel|many|hello|other 2 3 11 [1, 2, 1]|load parcel\n\
    other_word load parcel|many|hello|other 2 3 10 [1, 2, 0]|load parcel\n\
    fewer_words load parcel|many|hello|other 2 3 10 [1, 2]|load parcel\n\
    other_count load parcel|many|hello|other 2 4 10 [1, 2, 1]|load parcel\n\
    later_format load parcel|many|hello|other 3 3 10 [1, 2, 1]|load parcel\n\
    torn|many||Truncated|\n\
    without_end load|many||BadBody|load\n\
    longer load|many||BadBody|load\n\
    too_long load|many||TooLong|load\n\
    hello hello load|many|hello|BadKind|hello_body load\n\
    hello parcel|many|hello|BadKind|\n\
    load parcel|many|reply|1|\n\
    load hello parcel|many||BadKind|hello_body parcel\n\
    load parcel hello parcel|many|reply|BadKind|hello_body parcel\n\
    parcel hello|many||BadKind|hello\n\
    |many||0|\n\
";

/// The parts of a row.
fn parts_of(row: &str) -> Option<(&str, &str, &str, &str, &str)> {
    let (stream, row) = row.split_once('|')?;
    let (limit, row) = row.split_once('|')?;
    let (text, row) = row.split_once('|')?;
    let (answer, rest) = row.split_once('|')?;
    Some((stream, limit, text, answer, rest))
}

fn limit_of(word: &str) -> u64 {
    if word == "many" {
        MANY
    } else {
        u64::from(word == "1")
    }
}

/// Whether a stream in pieces of this size is served as its row says.
fn is_served(alloc: Global, row: &str, size: usize) -> Result<bool, AllocError> {
    let Some((stream, limit, text, answer, rest)) = parts_of(row) else {
        return Ok(false);
    };
    let stream = named(alloc, stream)?;
    let mut reader = Pieces::of(stream.as_slice(), size, NEVER);
    let mut writer = Taking::of(alloc, 10, NEVER);
    let limit = limit_of(limit);
    let ending = serve_greeted(alloc, &ring(), END, &mut reader, &mut writer, limit);
    Ok(
        ended(alloc, ending)?.as_str() == answer
            && are_named(alloc, writer.taken.as_slice(), text)?
            && are_named(alloc, reader.rest, rest)?,
    )
}

#[test]
fn a_node_answers_a_hello_and_serves_its_own_simulation_alone(rt: HostRuntime) -> Result<(), Fail> {
    for row in SERVED.lines() {
        for size in [1, 7, usize::MAX] {
            assert!(rt; is_served(rt.alloc(), row, size)?, "{row} {size}");
        }
    }
    Ok(())
}

/// What a node of the ring answers, what a run of it hears, and the unread rest.
const HEARD: &str = "\
    hello reply|same|reply\n\
    hello hello|same|hello\n\
    other_end reply|other 2 3 11 [1, 2, 1]|reply\n\
    other_word|other 2 3 10 [1, 2, 0]|\n\
    fewer_words|other 2 3 10 [1, 2]|\n\
    other_count|other 2 4 10 [1, 2, 1]|\n\
    later_format|other 3 3 10 [1, 2, 1]|\n\
    |Closed|\n\
    torn|Wire Truncated|\n\
    without_end reply|Wire BadBody|reply\n\
    reply|Wire BadKind|reply_body\n\
    too_long reply|Wire TooLong|reply\n\
";

/// What a run hears, as the rows write it.
fn told(alloc: Global, heard: Result<Heard, PortFault>) -> Result<String, AllocError> {
    match heard {
        Ok(Heard::Same) => format!(in alloc; "same"),
        Ok(Heard::Other(hello)) => numbers_of(alloc, &hello),
        Err(fault) => format!(in alloc; "{fault}"),
    }
}

/// Whether a run hears in a stream, in pieces of this size, what its row says.
fn is_heard(alloc: Global, row: &str, size: usize) -> Result<bool, AllocError> {
    let Some((stream, row)) = row.split_once('|') else {
        return Ok(false);
    };
    let Some((answer, rest)) = row.split_once('|') else {
        return Ok(false);
    };
    let stream = named(alloc, stream)?;
    let own = Hello::of(alloc, &ring(), END)?;
    let mut reader = Pieces::of(stream.as_slice(), size, NEVER);
    let heard = hear_hello(alloc, &own, &mut reader);
    Ok(told(alloc, heard)?.as_str() == answer && are_named(alloc, reader.rest, rest)?)
}

#[test]
fn a_run_hears_which_simulation_a_node_has(rt: HostRuntime) -> Result<(), Fail> {
    for row in HEARD.lines() {
        for size in [1, 7, usize::MAX] {
            assert!(rt; is_heard(rt.alloc(), row, size)?, "{row} {size}");
        }
    }
    Ok(())
}

/// The result of saying a hello to a writer that takes 10 bytes a call, and what it took, if its
/// call of this number fails.
fn said(alloc: Global, call: usize) -> Result<(Option<PortFault>, Vec<u8>), AllocError> {
    let refusal = Refusal {
        call,
        times: 1,
        kind: Some(ErrorKind::BrokenPipe),
    };
    let own = Hello::of(alloc, &ring(), END)?;
    let mut writer = Taking::of(alloc, 10, refusal);
    let result = say_hello(alloc, &own, &mut writer);
    Ok((result.err(), writer.taken))
}

/// Whether a hello is said whole if no call fails, and otherwise up to the call that does.
fn is_said(alloc: Global, call: usize) -> Result<bool, AllocError> {
    let hello = named(alloc, "hello")?;
    let (fault, taken) = said(alloc, call)?;
    let most = hello.len().min(call.saturating_mul(10));
    let expected = if call < 5 {
        Some(PortFault::Wire(WireFault::Io))
    } else {
        None
    };
    Ok(fault == expected && taken.as_slice() == hello.as_slice().split_at(most).0)
}

#[test]
fn a_run_says_its_hello_whole(rt: HostRuntime) -> Result<(), Fail> {
    for call in 0..7 {
        assert!(rt; is_said(rt.alloc(), call)?, "{call}");
    }
    Ok(())
}
