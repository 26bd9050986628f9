// Worked examples of messages and their bytes.

use crate::rows::{Row, message, messages, row};
use eventkey::*;
use std::alloc::{AllocError, Global};
use std::cmp::Ordering;
use std::test::Fail;

/// A message as a row of numbers.
const ROW: Row = [3, 0, 1, 1, 0, 1, 0, 0];

/// The bytes of `ROW`.
const ENCODED: [u8; 56] = [
    0, 0, 0, 0, 0, 0, 0, 3, 0, 0, 0, 0, 0, 0, 0, 0, 0, 0, 0, 1, 0, 0, 0, 1, 0, 0, 0, 0, 0, 0, 0, 0,
    0, 0, 0, 0, 0, 0, 0, 1, 0, 0, 0, 0, 0, 0, 0, 0, 0, 0, 0, 0, 0, 0, 0, 0,
];

/// A message whose eight numbers differ, and its bytes.
const EIGHT: Row = [1, 2, 3, 4, 5, 6, 7, u64::MAX];

const ENCODED_EIGHT: [u8; 56] = [
    0, 0, 0, 0, 0, 0, 0, 1, 0, 0, 0, 2, 0, 0, 0, 0, 0, 0, 0, 3, 0, 0, 0, 4, 0, 0, 0, 0, 0, 0, 0, 5,
    0, 0, 0, 0, 0, 0, 0, 6, 0, 0, 0, 0, 0, 0, 0, 7, 255, 255, 255, 255, 255, 255, 255, 255,
];

/// Whether a message has these bytes, and they are read as the message.
fn is_encoded(message: &Message, encoded: &[u8; 56]) -> bool {
    let mut bytes = [7; 56];
    put_message(message, &mut bytes);
    bytes == *encoded && get_message(&bytes) == Ok(*message)
}

/// Whether an antimessage has the byte 1 and then these bytes, and they are read as it.
fn is_encoded_with_its_sign(antimessage: &Signed, encoded: &[u8; 56]) -> bool {
    let mut bytes = [7; 57];
    put_signed(antimessage, &mut bytes);
    bytes[0] == 1 && bytes[1..] == encoded[..] && get_signed(&bytes) == Ok(*antimessage)
}

#[test]
fn a_message_and_an_antimessage_are_encoded(rt: HostRuntime) -> Result<(), Fail> {
    assert_eq!(rt; (MESSAGE_BYTES, SIGNED_BYTES), (56, 57));
    let (sign, message) = (Sign::Minus, message(ROW)?);
    assert!(rt; is_encoded(&message, &ENCODED));
    assert!(rt; is_encoded_with_its_sign(&Signed { sign, message }, &ENCODED));
    Ok(())
}

#[test]
fn each_field_of_a_message_has_its_bytes(rt: HostRuntime) -> Result<(), Fail> {
    let message = message(EIGHT)?;
    assert!(rt; is_encoded(&message, &ENCODED_EIGHT));
    assert!(rt; row(&message) == EIGHT);
    Ok(())
}

/// Whether each of these counts of bytes is too few for a message.
fn are_too_few(counts: [usize; 3]) -> bool {
    for count in counts {
        if get_message(ENCODED.split_at(count.min(56)).0) != Err(KeyFault::Short) {
            return false;
        }
    }
    true
}

/// Whether each of these counts of bytes is too few for a message with its sign.
fn are_too_few_for_signed(counts: [usize; 3]) -> bool {
    for count in counts {
        if get_signed([2; 57].split_at(count.min(57)).0) != Err(KeyFault::Short) {
            return false;
        }
    }
    true
}

#[test]
fn bytes_that_encode_no_message_are_refused(rt: HostRuntime) {
    assert!(rt; are_too_few([0, 40, 55]));
    assert!(rt; get_message(&[255; 56]) == Err(KeyFault::TimeTooLarge));
    assert!(rt; are_too_few_for_signed([0, 41, 56]));
    assert!(rt; get_signed(&[2; 57]) == Err(KeyFault::BadSign));
}

/// The fault of a message of this time, if it has one.
fn fault_at(time: u64) -> Option<KeyFault> {
    Message::new(time, 0, 0, 0, 0, 0, 0, 0).err()
}

#[test]
fn a_time_is_below_2_to_the_41(rt: HostRuntime) {
    assert_eq!(rt; fault_at(2_199_023_255_551), None);
    assert_eq!(rt; fault_at(2_199_023_255_552), Some(KeyFault::TimeTooLarge));
}

fn is_later(later: &Message, earlier: &Message) -> bool {
    earlier < later
        && earlier.is_before(later)
        && !later.is_before(earlier)
        && !later.is_same(earlier)
        && later.is_same(later)
        && later.order(earlier) == Ordering::Greater
}

/// Messages in ascending order.
const ASCENDING: [Row; 9] = [
    [1, 1, 1, 1, 1, 1, 1, 1],
    [1, 1, 1, 1, 1, 1, 1, 2],
    [1, 1, 1, 1, 1, 1, 2, 0],
    [1, 1, 1, 1, 1, 2, 0, 0],
    [1, 1, 1, 1, 2, 0, 0, 0],
    [1, 1, 1, 2, 0, 0, 0, 0],
    [1, 1, 2, 0, 0, 0, 0, 0],
    [1, 2, 0, 0, 0, 0, 0, 0],
    [2, 0, 0, 0, 0, 0, 0, 0],
];

fn are_ascending(messages: &[Message]) -> bool {
    for (earlier, later) in messages.iter().zip(messages.iter().skip(1)) {
        if !is_later(later, earlier) {
            return false;
        }
    }
    true
}

#[test]
fn messages_are_ordered_by_each_field_in_turn(rt: HostRuntime) -> Result<(), Fail> {
    let messages = messages(rt.alloc(), &ASCENDING)?;
    assert!(rt; are_ascending(messages.as_slice()));
    Ok(())
}

/// Whether these bytes are exactly the bytes of these messages.
fn begins_with(alloc: Global, bytes: &[u8], messages: &[Message]) -> Result<bool, Fail> {
    let count = u32::try_from(messages.len())?;
    let Some((read, rest)) = read_messages(alloc, count, bytes)? else {
        return Ok(false);
    };
    let more = read_messages(alloc, count.saturating_add(1), bytes)?;
    Ok(read.as_slice() == messages && rest.is_empty() && more.is_none())
}

fn begins_with_signed(alloc: Global, bytes: &[u8], list: &[Signed]) -> Result<bool, Fail> {
    let count = u32::try_from(list.len())?;
    let Some((read, rest)) = read_signed_list(alloc, count, bytes)? else {
        return Ok(false);
    };
    let more = read_signed_list(alloc, count.saturating_add(1), bytes)?;
    Ok(read.as_slice() == list && rest.is_empty() && more.is_none())
}

/// The bytes of these messages, in order.
fn appended(alloc: Global, messages: &[Message]) -> Result<Vec<u8>, AllocError> {
    let mut bytes = Vec::new(alloc);
    append_messages(&mut bytes, messages)?;
    Ok(bytes)
}

fn appended_signed(alloc: Global, list: &[Signed]) -> Result<Vec<u8>, AllocError> {
    let mut bytes = Vec::new(alloc);
    append_signed_list(&mut bytes, list)?;
    Ok(bytes)
}

#[test]
fn lists_are_appended_and_read(rt: HostRuntime) -> Result<(), Fail> {
    let messages = messages(rt.alloc(), &[EIGHT, ROW])?;
    let bytes = appended(rt.alloc(), messages.as_slice())?;
    assert!(rt; bytes.starts_with(&ENCODED_EIGHT) && bytes.ends_with(&ENCODED));
    assert_eq!(rt; bytes.len(), 112);
    assert!(rt; begins_with(rt.alloc(), bytes.as_slice(), messages.as_slice())?);
    Ok(())
}

#[test]
fn lists_with_signs_are_appended_and_read(rt: HostRuntime) -> Result<(), Fail> {
    let message = message(ROW)?;
    let sign = Sign::Plus;
    let plus = Signed { sign, message };
    let sign = Sign::Minus;
    let list = [plus, Signed { sign, message }];
    let bytes = appended_signed(rt.alloc(), &list)?;
    assert_eq!(rt; bytes.len(), 114);
    assert!(rt; bytes.get(0) == Some(&0) && bytes.get(57) == Some(&1));
    assert!(rt; begins_with_signed(rt.alloc(), bytes.as_slice(), &list)?);
    Ok(())
}

/// Appends a message, and once more after an allocation failure. Returns whether that changed
/// nothing.
fn is_appended(bytes: &mut Vec<u8>, message: &Message) -> Result<bool, AllocError> {
    let before = bytes.len();
    if append_message(bytes, message).is_ok() {
        return Ok(true);
    }
    let same = bytes.len() == before;
    append_message(bytes, message)?;
    Ok(same)
}

fn is_appended_with_its_sign(bytes: &mut Vec<u8>, signed: &Signed) -> Result<bool, AllocError> {
    let before = bytes.len();
    if append_signed(bytes, signed).is_ok() {
        return Ok(true);
    }
    let same = bytes.len() == before;
    append_signed(bytes, signed)?;
    Ok(same)
}

#[test]
fn a_refused_append_changes_nothing(rt: HostRuntime) -> Result<(), Fail> {
    let (sign, message) = (Sign::Minus, message(ROW)?);
    let mut bytes = Vec::new(rt.alloc());
    assert!(rt; is_appended(&mut bytes, &message)?);
    assert!(rt; is_appended_with_its_sign(&mut bytes, &Signed { sign, message })?);
    assert!(rt; bytes.starts_with(&ENCODED) && bytes.ends_with(&ENCODED));
    assert!(rt; bytes.len() == 113 && bytes.get(56) == Some(&1));
    Ok(())
}

#[test]
fn a_list_is_read_after_an_allocation_failure(rt: HostRuntime) -> Result<(), Fail> {
    let read = match read_messages(rt.alloc(), 1, &ENCODED) {
        Err(_) => read_messages(rt.alloc(), 1, &ENCODED)?,
        Ok(read) => read,
    };
    let Some((messages, rest)) = read else {
        return Err(Fail::new("a message was read"));
    };
    assert_eq!(rt; messages.as_slice(), [message(ROW)?].as_slice());
    assert_eq!(rt; rest.len(), 0);
    Ok(())
}

#[test]
fn a_claimed_count_takes_no_memory(rt: HostRuntime) -> Result<(), Fail> {
    assert!(rt; read_messages(rt.alloc(), u32::MAX, &ENCODED)?.is_none());
    assert!(rt; read_signed_list(rt.alloc(), u32::MAX, &ENCODED)?.is_none());
    Ok(())
}
