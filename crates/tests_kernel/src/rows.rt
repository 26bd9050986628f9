// Messages as rows of numbers, and lines of text that list them: numbers between spaces, messages
// between commas, and the parts of a line between bars.

use eventkey::{Message, Sign, Signed};
use std::alloc::Global;
use std::test::Fail;

/// A message: its time, sender, number, receiver and content.
pub type Row = [u64; 8];

pub fn message(row: Row) -> Result<Message, Fail> {
    let [time, from, number, to, a, b, c, d] = row;
    let (from, to) = (u32::try_from(from)?, u32::try_from(to)?);
    Ok(Message::new(time, from, number, to, a, b, c, d)?)
}

pub fn row(x: &Message) -> Row {
    let (from, to) = (u64::from(x.from()), u64::from(x.to()));
    [x.time(), from, x.number(), to, x.a(), x.b(), x.c(), x.d()]
}

pub fn messages(alloc: Global, rows: &[Row]) -> Result<Vec<Message>, Fail> {
    let mut messages = Vec::new(alloc);
    for row in rows {
        messages.push(message(*row)?)?;
    }
    Ok(messages)
}

pub fn are(messages: &[Message], rows: &[Row]) -> bool {
    for (message, expected) in messages.iter().zip(rows) {
        if row(message) != *expected {
            return false;
        }
    }
    messages.len() == rows.len()
}

/// The part of a line at this place.
pub fn part(line: &str, place: usize) -> &str {
    line.split('|').nth(place).unwrap_or("").trim()
}

/// The numbers of a text, and zeros for those that it lacks.
pub fn numbers(text: &str) -> Result<Row, Fail> {
    let mut numbers = [0; 8];
    for (number, word) in numbers.iter_mut().zip(text.split(' ')) {
        *number = word.parse()?;
    }
    Ok(numbers)
}

/// A message, or after `-` an antimessage.
pub fn signed(text: &str) -> Result<Signed, Fail> {
    let (sign, text) = match text.strip_prefix('-') {
        Some(text) => (Sign::Minus, text),
        None => (Sign::Plus, text),
    };
    let message = message(numbers(text)?)?;
    Ok(Signed { sign, message })
}

pub fn signed_list(alloc: Global, text: &str) -> Result<Vec<Signed>, Fail> {
    let mut list = Vec::new(alloc);
    for one in text.split_terminator(", ") {
        list.push(signed(one)?)?;
    }
    Ok(list)
}
