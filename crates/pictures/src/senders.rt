// When each process sent those of its messages that are still on their way.

ghost use Rattle.std.specs.List.{AllByRecursion as Every};
ghost use Rattle.std.specs.Prelude.{◌≡◌, ◌≤◌, ◌<◌, ◌+◌, ◌-◌, ◌++◌, ℕ, IfOk, List, OnOk, [], get_or};
ghost use Rattle.std.specs.Prelude.{length, replicate, true};
ghost use Rattle.eventkey.specs.Message.{Message};
ghost use Rattle.pictures.specs.Run.{Run, sending_times, sent_at, with_event};
ghost use Rattle.pictures.specs.Senders.{AreSenders, HaveTime, HaveTimes, IsFound, IsSender};

use eventkey::Message;
use std::alloc::{AllocError, Global};
use std::collections::BTreeMap;

/// When a process sent its last messages, and those earlier ones that are still on their way.
#[derive(Drop)]
pub(crate) struct Sender {
    /// How many messages it has sent.
    pub(crate) sent: u64,
    /// When it sent the last ones, in the order of send numbers.
    pub(crate) times: Vec<u64>,
    /// When it sent earlier ones, by their send numbers. One that is on its way and is not here was
    /// sent at 0.
    pub(crate) earlier: BTreeMap<u64, u64>,
}

impl Sender {
    /// Makes a sender without times.
    fn new(alloc: Global, sent: u64) -> Sender
        ensures sender { (times : List ℕ) → length times ≡ sent → IsSender times result }
        ensures opening { (number : ℕ) → IsFound (replicate sent 0) result number }
    {
        Sender {
            sent,
            times: Vec::new(alloc),
            earlier: BTreeMap::new(alloc),
        }
    }

    /// Returns when it sent its message of this number.
    fn sent_at(&self, number: u64) -> u64
        ensures { (times : List ℕ) → IsSender times self.now → IsFound times self.now number →
            result ≡ get_or times number 0 }
    {
        let base = self.sent.saturating_sub(self.times.len() as u64);
        if base <= number {
            let place = (number - base) as usize;
            return self.times.get(place).copied().unwrap_or(0);
        }
        self.earlier.get(&number).copied().unwrap_or(0)
    }

    /// Adds messages that it sends at a time, after which it has sent `sent`.
    fn add(&mut self, sent: u64, time: u64) -> Result<(), AllocError>
        ensures sender { OnOk result ((times : List ℕ) → IsSender times self.old →
            length times ≤ sent →
            IsSender (times ++ replicate (sent - length times) time) self.new) }
        ensures found { OnOk result ((times more : List ℕ) (number : ℕ) →
            IsSender times self.old → length times ≤ sent → IsFound times self.old number →
            IsFound (times ++ more) self.new number) }
    {
        add_times(&mut self.times, sent.saturating_sub(self.sent), time)?;
        self.sent = sent;
        Ok(())
    }

    /// Keeps the time of an earlier message.
    fn keep(&mut self, number: u64, time: u64) -> Result<(), AllocError>
        ensures sender { OnOk result ((times : List ℕ) → IsSender times self.old →
            IsSender times self.new) }
        ensures here { OnOk result ((times : List ℕ) → number < length times →
            time ≡ get_or times number 0 → IsFound times self.new number) }
        ensures others { OnOk result ((times : List ℕ) (other : ℕ) → number < length times →
            time ≡ get_or times number 0 → IsFound times self.old other →
            IsFound times self.new other) }
    {
        self.earlier.insert(number, time)?;
        Ok(())
    }
}

/// Appends a time `count` times, once for each message.
pub(crate) fn add_times(row: &mut Vec<u64>, count: u64, time: u64) -> Result<(), AllocError>
    ensures { OnOk result (row.new.items ≡ row.old.items ++ replicate count time) }
{
    for _ in 0..count {
        row.push(time)?;
    }
    Ok(())
}

/// Returns the senders of a run at its opening, which have sent these numbers of messages.
pub(crate) fn opening_senders(alloc: Global, numbers: &[u64]) -> Result<Vec<Sender>, AllocError>
    ensures senders { IfOk result (λ v. (r : Run) → r.first ≡ numbers.now → r.events ≡ [] →
        AreSenders r v.items) }
    ensures found { IfOk result (λ v. (r : Run) (x : Message) → r.first ≡ numbers.now →
        r.events ≡ [] → HaveTime r v.items x) }
{
    let mut senders = Vec::new(alloc);
    for sent in numbers {
        senders.push(Sender::new(alloc, *sent))?;
    }
    Ok(senders)
}

/// Returns when a message was sent, in constant time if it is one of the last of its sender.
pub(crate) fn sent_at(senders: &[Sender], message: &Message) -> u64
    ensures { (r : Run) → AreSenders r senders.now → HaveTime r senders.now message.now →
        result ≡ sent_at r message.now }
{
    let place = message.from() as usize;
    if place >= senders.len() {
        return 0;
    }
    senders[place].sent_at(message.number())
}

/// Returns whether the sender of a message has sent it already.
pub(crate) fn is_sent(senders: &[Sender], message: &Message) -> bool
    ensures { (r : Run) → AreSenders r senders.now → result ≡ true →
        message.now.number < length (sending_times r message.now.from) }
{
    let place = message.from() as usize;
    if place >= senders.len() {
        return false;
    }
    message.number() < senders[place].sent
}

/// Adds the messages that the handling of an event sent, after which the process has sent `sent`.
pub(crate) fn add_sends(
    senders: &mut Vec<Sender>,
    event: &Message,
    sent: u64,
) -> Result<(), AllocError>
    requires { event.now.to < length senders.old.items }
    ensures { OnOk result ((r : Run) (n : ℕ) (pending : List Message) →
        AreSenders r senders.old.items → length r.sends ≡ length r.events →
        sent ≡ length (sending_times r event.now.to) + n →
        HaveTimes r (with_event r event.now n pending) senders.old.items senders.new.items) }
{
    senders[event.to() as usize].add(sent, event.time())?;
    Ok(())
}

/// Returns the same senders with the times of these messages only. It costs the number of processes
/// and of these messages.
pub(crate) fn shortened(
    alloc: Global,
    senders: &[Sender],
    pending: &[Message],
    others: &[Message],
) -> Result<Vec<Sender>, AllocError>
    ensures senders { IfOk result (λ v. (r : Run) → AreSenders r senders.now →
        Every (HaveTime r senders.now) pending.now → Every (HaveTime r senders.now) others.now →
        AreSenders r v.items) }
    ensures pending { IfOk result (λ v. (r : Run) → AreSenders r senders.now →
        Every (HaveTime r senders.now) pending.now → Every (HaveTime r senders.now) others.now →
        Every (HaveTime r v.items) pending.now) }
    ensures others { IfOk result (λ v. (r : Run) → AreSenders r senders.now →
        Every (HaveTime r senders.now) pending.now → Every (HaveTime r senders.now) others.now →
        Every (HaveTime r v.items) others.now) }
{
    let mut short = without_times(alloc, senders)?;
    keep_times(&mut short, senders, pending)?;
    keep_times(&mut short, senders, others)?;
    Ok(short)
}

/// Returns the same senders without times.
fn without_times(alloc: Global, senders: &[Sender]) -> Result<Vec<Sender>, AllocError>
    ensures { IfOk result (λ v. (r : Run) → AreSenders r senders.now → AreSenders r v.items) }
{
    let mut short = Vec::new(alloc);
    for sender in senders {
        short.push(Sender::new(alloc, sender.sent))?;
    }
    Ok(short)
}

/// Keeps the times of these messages, which other senders have.
fn keep_times(
    short: &mut Vec<Sender>,
    senders: &[Sender],
    messages: &[Message],
) -> Result<(), AllocError>
    ensures kept { OnOk result ((r : Run) → AreSenders r senders.now →
        AreSenders r short.old.items → Every (HaveTime r senders.now) messages.now →
        HaveTimes r r short.old.items short.new.items) }
    ensures found { OnOk result ((r : Run) → AreSenders r senders.now →
        AreSenders r short.old.items → Every (HaveTime r senders.now) messages.now →
        Every (HaveTime r short.new.items) messages.now) }
{
    for message in messages {
        keep_time(short, senders, message)?;
    }
    Ok(())
}

/// Keeps the time of a message, if it is an earlier one.
fn keep_time(
    short: &mut Vec<Sender>,
    senders: &[Sender],
    message: &Message,
) -> Result<(), AllocError>
    ensures kept { OnOk result ((r : Run) → AreSenders r senders.now →
        AreSenders r short.old.items → HaveTime r senders.now message.now →
        HaveTimes r r short.old.items short.new.items) }
    ensures found { OnOk result ((r : Run) → AreSenders r senders.now →
        AreSenders r short.old.items → HaveTime r senders.now message.now →
        HaveTime r short.new.items message.now) }
{
    let place = message.from() as usize;
    let number = message.number();
    if place >= short.len() {
        return Ok(());
    }
    if number >= short[place].sent {
        return Ok(());
    }
    short[place].keep(number, sent_at(senders, message))?;
    Ok(())
}
