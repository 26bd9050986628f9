// The bytes of one reported handling: writes them, and goes over them.

ghost use Rattle.std.specs.Prelude.{◌≡◌, ◌≤◌, ◌<◌, ◌++◌, ◌∷◌, [], ℕ, List, IfOk, IfSome, OnErr, OnOk};
ghost use Rattle.std.specs.Prelude.{Some, drop, length, nat_le, nat_lt, option_map, take};
ghost use Rattle.std.specs.List.{filter, list_all};
ghost use Rattle.byteorder.specs.Endian.{big_bytes};
ghost use Rattle.eventkey.specs.Encoding.{message_at};
ghost use Rattle.eventkey.specs.Message.{Message};
ghost use Rattle.eventkey.specs.Reading.{IsBytes, items_at, number_at};
ghost use Rattle.model.specs.Encoding.{words_at};
ghost use Rattle.process.specs.Reports.{AreReports, Skips, counted_at, done_at, done_bytes};

use crate::Done;
use eventkey::{
    MESSAGE_BYTES, Message, append_message, append_messages, read_message, read_u8, read_u64,
};
use model::{State, Words, append_words};
use smallvec::SmallVec;
use std::alloc::{AllocError, Global};

/// The bytes of a state word and of a send number.
pub(crate) const NUMBER_BYTES: usize = 8;

/// The most messages that one handling sends.
const MOST_SENDS: u8 = 8;

/// The most state words of a process.
const MOST_WORDS: u8 = 16;

/// The greatest send number.
const MOST_NUMBER: u64 = 1 << 63;

/// Appends a handling. After an allocation failure the first of its bytes may be in `out`.
pub(crate) fn append_done(out: &mut Vec<u8>, done: &Done) -> Result<(), AllocError>
    ensures ok { OnOk result (out.new.items ≡ out.old.items ++ done_bytes done.now) }
    ensures begins { (more : List ℕ) × (out.new.items ≡ out.old.items ++ more) }
{
    let sent = done.sent.as_slice();
    append_parts(
        out,
        &done.message,
        sent,
        done.after.as_slice(),
        done.number_after,
    )
}

/// Appends the handling with these parts. After an allocation failure the first of its bytes may be
/// in `out`.
#[tactic(auto, unfolding(crate::specs::Reports::done_bytes))]
pub(crate) fn append_parts(
    out: &mut Vec<u8>,
    message: &Message,
    sent: &[Message],
    after: &[u64],
    number_after: u64,
) -> Result<(), AllocError>
    ensures ok { OnOk result (out.new.items ≡ out.old.items ++ done_bytes (record {
      message = message.now;
      sent = sent.now;
      after = after.now;
      number_after = number_after;
    })) }
    ensures begins { (more : List ℕ) × (out.new.items ≡ out.old.items ++ more) }
{
    append_message(out, message)?;
    append_short_count(out, sent.len())?;
    append_messages(out, sent)?;
    append_words(out, after)?;
    append_number(out, number_after)
}

/// Appends a number in 8 bytes. Nothing is appended after an allocation failure.
fn append_number(out: &mut Vec<u8>, number: u64) -> Result<(), AllocError>
    ensures ok { OnOk result (out.new.items ≡ out.old.items ++ big_bytes 8 number) }
    ensures err { OnErr result (out.new.items ≡ out.old.items) }
{
    out.extend_from_slice(&number.to_be_bytes())
}

/// Appends the lowest byte of a count. Nothing is appended after an allocation failure.
fn append_short_count(out: &mut Vec<u8>, count: usize) -> Result<(), AllocError>
    ensures ok { OnOk result (out.new.items ≡ out.old.items ++ big_bytes 1 count) }
    ensures err { OnErr result (out.new.items ≡ out.old.items) }
{
    out.extend_from_slice(&(count as u64).to_be_bytes()[7..])
}

/// Returns the sends at the front of the bytes of a report after its message. Allocates nothing.
pub(crate) fn sends_in(alloc: Global, bytes: &[u8]) -> SmallVec<Message, 8>
    ensures { IfSome (counted_at 1 8 message_at bytes.now) (λ sends. result.items ≡ sends.0) }
{
    let Some((count, rest)) = read_u8(bytes) else {
        return SmallVec::new(alloc);
    };
    if count > MOST_SENDS {
        return SmallVec::new(alloc);
    }
    messages_in(alloc, count, rest)
}

/// Returns `count` messages at the front of the bytes. Allocates nothing.
#[tactic(auto, using(crate::proofs::ReportBytes::listed_on, crate::proofs::ReportBytes::listed_fail, crate::proofs::ReportBytes::listed_done))]
fn messages_in(alloc: Global, count: u8, bytes: &[u8]) -> SmallVec<Message, 8>
    requires { count ≤ 8 }
    ensures { IfSome (items_at message_at count bytes.now) (λ messages. result.items ≡ messages.0) }
{
    let mut messages = SmallVec::new(alloc);
    let mut rest = bytes;
    for _ in 0..count {
        match read_message(rest) {
            None => return messages,
            Some(read) => {
                messages.push_reserved(read.0);
                rest = read.1;
            }
        }
    }
    messages
}

/// Returns whether all receivers of the sends at the front of the bytes of a report after its message
/// are below `limit`.
pub(crate) fn are_sent_below(limit: u32, bytes: &[u8]) -> bool
    ensures { IfSome (counted_at 1 8 message_at bytes.now)
        (λ sends. result ≡ list_all (λ (x : Message). nat_lt x.to limit) sends.0) }
{
    let Some((count, rest)) = read_u8(bytes) else {
        return true;
    };
    if count > MOST_SENDS {
        return true;
    }
    are_below(limit, count, rest)
}

/// Returns whether all receivers of `count` messages at the front of the bytes are below `limit`.
fn are_below(limit: u32, count: u8, bytes: &[u8]) -> bool
    ensures { IfSome (items_at message_at count bytes.now)
        (λ messages. result ≡ list_all (λ (x : Message). nat_lt x.to limit) messages.0) }
{
    let mut rest = bytes;
    for _ in 0..count {
        match read_message(rest) {
            None => return true,
            Some(read) => {
                if read.0.to() >= limit {
                    return false;
                }
                rest = read.1;
            }
        }
    }
    true
}

/// Appends those of the sends at the front of the bytes of a report after its message that are at
/// this time, in ticks, or later. After an allocation failure some of them may be appended.
pub(crate) fn push_sent_from(
    out: &mut Vec<Message>,
    time: u64,
    bytes: &[u8],
) -> Result<(), AllocError>
    ensures { OnOk result (IfSome (counted_at 1 8 message_at bytes.now)
        (λ sends. out.new.items
        ≡ out.old.items ++ filter (λ (x : Message). nat_le time x.time) sends.0)) }
{
    let Some((count, rest)) = read_u8(bytes) else {
        return Ok(());
    };
    if count > MOST_SENDS {
        return Ok(());
    }
    push_from(out, time, count, rest)
}

/// Appends those of `count` messages at the front of the bytes that are at this time or later.
fn push_from(out: &mut Vec<Message>, time: u64, count: u8, bytes: &[u8]) -> Result<(), AllocError>
    ensures { OnOk result (IfSome (items_at message_at count bytes.now)
        (λ messages. out.new.items
        ≡ out.old.items ++ filter (λ (x : Message). nat_le time x.time) messages.0)) }
{
    let mut rest = bytes;
    for _ in 0..count {
        match read_message(rest) {
            None => return Ok(()),
            Some(read) => {
                push_if_from(out, time, read.0)?;
                rest = read.1;
            }
        }
    }
    Ok(())
}

/// Appends a message if it is at this time or later.
fn push_if_from(out: &mut Vec<Message>, time: u64, message: Message) -> Result<(), AllocError>
    ensures { OnOk result (out.new.items
        ≡ out.old.items ++ filter (λ (x : Message). nat_le time x.time) (message ∷ [])) }
{
    if message.time() >= time {
        out.push(message)?;
    }
    Ok(())
}

/// Returns the state words at the front of the bytes of a report after its sends. Allocates
/// nothing.
#[tactic(auto, unfolding(model::specs::Encoding::words_at))]
pub(crate) fn words_in(alloc: Global, bytes: &[u8]) -> Words
    ensures { IfSome (words_at bytes.now) (λ words. result.items ≡ words.0) }
{
    let Some((count, rest)) = read_u8(bytes) else {
        return Words::new(alloc);
    };
    if count > MOST_WORDS {
        return Words::new(alloc);
    }
    numbers_in(alloc, count, rest)
}

/// Returns `count` numbers of 8 bytes at the front of the bytes. Allocates nothing.
#[tactic(auto, using(crate::proofs::ReportBytes::listed_on, crate::proofs::ReportBytes::listed_fail, crate::proofs::ReportBytes::listed_done))]
fn numbers_in(alloc: Global, count: u8, bytes: &[u8]) -> Words
    requires { count ≤ 16 }
    ensures { IfSome (items_at (number_at 8) count bytes.now) (λ words. result.items ≡ words.0) }
{
    let mut words = Words::new(alloc);
    let mut rest = bytes;
    for _ in 0..count {
        match read_u64(rest) {
            None => return words,
            Some((word, after)) => {
                words.push_reserved(word);
                rest = after;
            }
        }
    }
    words
}

/// Returns the state whose words are at the front of the bytes of a report after its sends. Allocates
/// for more than two words.
#[tactic(auto, unfolding(model::specs::Encoding::words_at))]
pub(crate) fn state_in(alloc: Global, bytes: &[u8]) -> Result<State, AllocError>
    ensures { IfOk result (λ state. IfSome (words_at bytes.now) (λ words. state ≡ words.0)) }
{
    let Some((count, rest)) = read_u8(bytes) else {
        return State::from_slice(alloc, &[]);
    };
    if count > MOST_WORDS {
        return State::from_slice(alloc, &[]);
    }
    let mut words = [0; MOST_WORDS as usize];
    put_numbers(&mut words, count, rest);
    State::from_slice(alloc, &words[..count as usize])
}

/// Puts `count` numbers of 8 bytes at the front of the bytes into the first words.
fn put_numbers(words: &mut [u64; 16], count: u8, bytes: &[u8])
    requires { count ≤ 16 }
    ensures { IfSome (items_at (number_at 8) count bytes.now)
        (λ numbers. take count words.new ≡ numbers.0) }
{
    let mut rest = bytes;
    for place in 0..count {
        match read_u64(rest) {
            None => return,
            Some(read) => {
                words[place as usize] = read.0;
                rest = read.1;
            }
        }
    }
}

/// Returns the length of the first of these reports, by its two counts.
pub(crate) fn first_length(count: usize, bytes: &[u8]) -> usize
    requires some { 0 < count }
    requires reports { AreReports count bytes.now }
    ensures within { result ≤ length bytes.now }
    ensures skips { Skips (done_at bytes.now) (Some (drop result bytes.now)) }
{
    let (_, sends) = bytes.split_at(MESSAGE_BYTES);
    let sent = 1 + MESSAGE_BYTES * first_byte(sends) as usize;
    let (_, words) = sends.split_at(sent);
    let after = 1 + NUMBER_BYTES * first_byte(words) as usize;
    MESSAGE_BYTES + sent + after + NUMBER_BYTES
}

/// Returns the first of these bytes; 0 if there is none.
fn first_byte(bytes: &[u8]) -> u8
    ensures { IfSome (number_at 1 bytes.now) (λ number. result ≡ number.0) }
{
    match read_u8(bytes) {
        Some((number, _)) => number,
        None => 0,
    }
}

/// Returns the bytes after `count` reports; `None` if the bytes do not begin with them.
#[tactic(auto, using(crate::proofs::ReportBytes::going_begin))]
pub(crate) fn skip_dones(count: u32, bytes: &[u8]) -> Option<&[u8]>
    ensures skips { Skips (items_at done_at count bytes.now) (option_map (λ rest. rest.now) result) }
    ensures bytes { IsBytes bytes.now }
{
    let mut rest = bytes;
    for _ in 0..count {
        match skip_done(rest) {
            None => return None,
            Some(after) => rest = after,
        }
    }
    Some(rest)
}

/// Returns the bytes after a report; `None` if the bytes do not begin with one.
#[tactic(auto, using(crate::proofs::Formats::no_message, crate::proofs::Formats::no_sent, crate::proofs::Formats::no_words))]
pub(crate) fn skip_done(bytes: &[u8]) -> Option<&[u8]>
    ensures { Skips (done_at bytes.now) (option_map (λ rest. rest.now) result) }
{
    let Some((_, rest)) = read_message(bytes) else {
        return None;
    };
    let Some(rest) = skip_sent_list(rest) else {
        return None;
    };
    let Some(rest) = skip_words(rest) else {
        return None;
    };
    let Some((number, rest)) = read_u64(rest) else {
        return None;
    };
    if number > MOST_NUMBER {
        return None;
    }
    Some(rest)
}

/// Returns the bytes after the sends of a report; `None` if the bytes do not begin with sends.
pub(crate) fn skip_sent_list(bytes: &[u8]) -> Option<&[u8]>
    ensures { Skips (counted_at 1 8 message_at bytes.now) (option_map (λ rest. rest.now) result) }
{
    let Some((count, rest)) = read_u8(bytes) else {
        return None;
    };
    if count > MOST_SENDS {
        return None;
    }
    skip_messages(count, rest)
}

/// Returns the bytes after `count` messages; `None` if the bytes do not begin with them.
#[tactic(auto, using(crate::proofs::ReportBytes::going_begin))]
fn skip_messages(count: u8, bytes: &[u8]) -> Option<&[u8]>
    ensures { Skips (items_at message_at count bytes.now) (option_map (λ rest. rest.now) result) }
{
    let mut rest = bytes;
    for _ in 0..count {
        match read_message(rest) {
            None => return None,
            Some((_, after)) => rest = after,
        }
    }
    Some(rest)
}

/// Returns the bytes after state words; `None` if the bytes do not begin with such words.
#[tactic(auto, unfolding(model::specs::Encoding::words_at))]
fn skip_words(bytes: &[u8]) -> Option<&[u8]>
    ensures { Skips (words_at bytes.now) (option_map (λ rest. rest.now) result) }
{
    let Some((count, rest)) = read_u8(bytes) else {
        return None;
    };
    if count > MOST_WORDS {
        return None;
    }
    skip_numbers(count, rest)
}

/// Returns the bytes after `count` numbers of 8 bytes; `None` if the bytes do not begin with them.
#[tactic(auto, using(crate::proofs::ReportBytes::going_begin))]
fn skip_numbers(count: u8, bytes: &[u8]) -> Option<&[u8]>
    ensures { Skips (items_at (number_at 8) count bytes.now) (option_map (λ rest. rest.now) result) }
{
    let mut rest = bytes;
    for _ in 0..count {
        match read_u64(rest) {
            None => return None,
            Some((_, after)) => rest = after,
        }
    }
    Some(rest)
}
