// Reading and appending of numbers and messages from left to right, for bodies with several fields.

ghost use Rattle.std.specs.Prelude.{◌≡◌, ◌<◌, ◌*◌, ◌++◌, length, option_map, List, Ok, None, OnOk};
ghost use Rattle.std.specs.Prelude.{OnErr, vec_len, ℕ};
ghost use Rattle.std.specs.List.{flat_map};
ghost use Rattle.eventkey.specs.Message.{Message};
ghost use Rattle.eventkey.specs.Reading.{Gives, items_at, number_at};
ghost use Rattle.eventkey.specs.Encoding.{message_at, message_bytes, signed_at, signed_bytes};

use crate::{
    MESSAGE_BYTES, Message, SIGNED_BYTES, Signed, get_message, get_signed, put_message, put_signed,
};
use byteorder::{BigEndian, ByteOrder};
use std::alloc::{AllocError, Global};

/// Reads one byte, and returns it with the bytes after it. `None` if there is no byte.
#[tactic(auto, unfolding(crate::specs::Reading::number_at))]
pub fn read_u8(bytes: &[u8]) -> Option<(u8, &[u8])>
    ensures { option_map (λ x. (x.0, x.1.now)) result ≡ number_at 1 bytes.now }
{
    if bytes.is_empty() {
        return None;
    }
    Some((bytes[0], &bytes[1..]))
}

/// Reads a big-endian number of 4 bytes, and returns it with the bytes after it. `None` if there
/// are fewer than 4.
#[tactic(auto, unfolding(crate::specs::Reading::number_at))]
pub fn read_u32(bytes: &[u8]) -> Option<(u32, &[u8])>
    ensures { option_map (λ x. (x.0, x.1.now)) result ≡ number_at 4 bytes.now }
{
    if bytes.len() < 4 {
        return None;
    }
    Some((BigEndian::read_u32(bytes), &bytes[4..]))
}

/// Reads a big-endian number of 8 bytes, and returns it with the bytes after it. `None` if there
/// are fewer than 8.
#[tactic(auto, unfolding(crate::specs::Reading::number_at))]
pub fn read_u64(bytes: &[u8]) -> Option<(u64, &[u8])>
    ensures { option_map (λ x. (x.0, x.1.now)) result ≡ number_at 8 bytes.now }
{
    if bytes.len() < 8 {
        return None;
    }
    Some((BigEndian::read_u64(bytes), &bytes[8..]))
}

/// Reads a message of 56 bytes, and returns it with the bytes after it. `None` if `get_message`
/// refuses the bytes.
pub fn read_message(bytes: &[u8]) -> Option<(Message, &[u8])>
    ensures { option_map (λ x. (x.0, x.1.now)) result ≡ message_at bytes.now }
{
    match get_message(bytes) {
        Ok(message) => Some((message, &bytes[MESSAGE_BYTES..])),
        Err(_) => None,
    }
}

/// Reads a signed message of 57 bytes, and returns it with the bytes after it. `None` if
/// `get_signed` refuses the bytes.
pub fn read_signed(bytes: &[u8]) -> Option<(Signed, &[u8])>
    ensures { option_map (λ x. (x.0, x.1.now)) result ≡ signed_at bytes.now }
{
    match get_signed(bytes) {
        Ok(signed) => Some((signed, &bytes[SIGNED_BYTES..])),
        Err(_) => None,
    }
}

/// Reads `count` messages, and returns them with the bytes after them. `None` if one of them can't
/// be read. `AllocError` comes if an allocation failed, never for missing bytes.
pub fn read_messages(
    alloc: Global,
    count: u32,
    bytes: &[u8],
) -> Result<Option<(Vec<Message>, &[u8])>, AllocError>
    ensures read { Gives (λ x. (x.0.items, x.1.now)) result (items_at message_at count bytes.now) }
    ensures short { length bytes.now < 56 * count → result ≡ Ok None }
{
    // A count that is too large for the bytes must not allocate.
    if bytes.len() < MESSAGE_BYTES * count as usize {
        return Ok(None);
    }
    let mut messages = Vec::new(alloc);
    messages.reserve(count as usize)?;
    let mut rest = bytes;
    for _ in 0..count {
        match read_message(rest) {
            None => return Ok(None),
            Some(read) => {
                messages.push(read.0)?;
                rest = read.1;
            }
        }
    }
    Ok(Some((messages, rest)))
}

/// Reads `count` signed messages, and returns them with the bytes after them. `None` if one of them
/// can't be read. `AllocError` comes if an allocation failed, never for missing bytes.
pub fn read_signed_list(
    alloc: Global,
    count: u32,
    bytes: &[u8],
) -> Result<Option<(Vec<Signed>, &[u8])>, AllocError>
    ensures read { Gives (λ x. (x.0.items, x.1.now)) result (items_at signed_at count bytes.now) }
    ensures short { length bytes.now < 57 * count → result ≡ Ok None }
{
    // A count that is too large for the bytes must not allocate.
    if bytes.len() < SIGNED_BYTES * count as usize {
        return Ok(None);
    }
    let mut list = Vec::new(alloc);
    list.reserve(count as usize)?;
    let mut rest = bytes;
    for _ in 0..count {
        match read_signed(rest) {
            None => return Ok(None),
            Some((signed, after)) => {
                list.push(signed)?;
                rest = after;
            }
        }
    }
    Ok(Some((list, rest)))
}

/// Appends the 56 bytes of a message. `out` is unchanged after an `AllocError`.
pub fn append_message(out: &mut Vec<u8>, message: &Message) -> Result<(), AllocError>
    ensures ok { OnOk result (out.new.items ≡ out.old.items ++ message_bytes message.now) }
    ensures err { OnErr result (out.new.items ≡ out.old.items) }
{
    let mut bytes = [0; MESSAGE_BYTES];
    put_message(message, &mut bytes);
    out.extend_from_slice(&bytes)
}

/// Appends the 57 bytes of a signed message. `out` is unchanged after an `AllocError`.
pub fn append_signed(out: &mut Vec<u8>, signed: &Signed) -> Result<(), AllocError>
    ensures ok { OnOk result (out.new.items ≡ out.old.items ++ signed_bytes signed.now) }
    ensures err { OnErr result (out.new.items ≡ out.old.items) }
{
    let mut bytes = [0; SIGNED_BYTES];
    put_signed(signed, &mut bytes);
    out.extend_from_slice(&bytes)
}

/// Appends the bytes of each message in order. After an `AllocError`, `out` may have gained the
/// bytes of the first ones.
pub fn append_messages(out: &mut Vec<u8>, messages: &[Message]) -> Result<(), AllocError>
    ensures ok { OnOk result (out.new.items
        ≡ out.old.items ++ flat_map message_bytes messages.now) }
    ensures begins { (more : List ℕ) × (out.new.items ≡ out.old.items ++ more) }
{
    for message in messages {
        append_message(out, message)?;
    }
    Ok(())
}

/// Appends the bytes of each signed message in order. After an `AllocError`, `out` may have gained
/// the bytes of the first ones.
pub fn append_signed_list(out: &mut Vec<u8>, list: &[Signed]) -> Result<(), AllocError>
    ensures ok { OnOk result (out.new.items ≡ out.old.items ++ flat_map signed_bytes list.now) }
    ensures begins { (more : List ℕ) × (out.new.items ≡ out.old.items ++ more) }
{
    for signed in list {
        append_signed(out, signed)?;
    }
    Ok(())
}
