// The simplest possible node: each process has three unsorted lists, and searches all of a list for
// what it needs. It frees no records, and counts those that it has reported.

use super::*;
use model::{Sends, Sent, State, Words};
use models::Relay;

/// A handling: the state and the number of the next send, before it and after it.
#[derive(Drop)]
pub struct Handled {
    message: Message,
    sent: Vec<Message>,
    before: (u64, u64),
    after: (u64, u64),
}

#[derive(Drop)]
pub struct PlainProcess {
    alloc: Global,
    lp: u32,
    state: u64,
    number: u64,
    done: Vec<Handled>,
    reported: usize,
    waiting: Vec<Message>,
    antis: Vec<Message>,
}

#[derive(Drop)]
pub struct PlainNode {
    alloc: Global,
    end: u64,
    processes: Vec<PlainProcess>,
}

fn going_out(message: Message) -> Signed {
    let sign = Sign::Plus;
    Signed { sign, message }
}

fn antimessage_of(message: Message) -> Signed {
    let sign = Sign::Minus;
    Signed { sign, message }
}

/// Removes one copy. Returns whether there was one.
fn remove_one(
    alloc: Global,
    messages: &mut Vec<Message>,
    message: Message,
) -> Result<bool, AllocError> {
    let mut left = Vec::new(alloc);
    let mut found = false;
    for one in messages.iter() {
        if !found && *one == message {
            found = true;
        } else {
            left.push(*one)?;
        }
    }
    *messages = left;
    Ok(found)
}

fn least_of(messages: &[Message], so_far: Option<Message>) -> Option<Message> {
    let mut least = so_far;
    for one in messages {
        match least {
            Some(other) if other <= *one => {}
            _ => least = Some(*one),
        }
    }
    least
}

impl PlainProcess {
    pub fn new(alloc: Global, lp: u32, number: u64, pending: Vec<Message>) -> PlainProcess {
        PlainProcess {
            alloc,
            lp,
            state: 0,
            number,
            done: Vec::new(alloc),
            reported: 0,
            waiting: pending,
            antis: Vec::new(alloc),
        }
    }

    /// The number of handled messages after this one.
    fn after(&self, message: Message) -> usize {
        let mut after = 0usize;
        for handled in self.done.iter() {
            if handled.message > message {
                after = after.wrapping_add(1);
            }
        }
        after
    }

    fn has_done(&self, message: Message) -> bool {
        for handled in self.done.iter() {
            if handled.message == message {
                return true;
            }
        }
        false
    }

    /// Rolls back the last `count` handlings.
    fn undo(&mut self, count: usize, out: &mut Vec<Signed>) -> Result<(), AllocError> {
        let kept = self.done.len().saturating_sub(count);
        for handled in self.done.iter().skip(kept) {
            for sent in handled.sent.iter() {
                out.push(antimessage_of(*sent))?;
            }
        }
        for _ in 0..count {
            if let Some(handled) = self.done.pop() {
                let (state, number) = handled.before;
                self.state = state;
                self.number = number;
                self.waiting.push(handled.message)?;
            }
        }
        Ok(())
    }

    fn add(&mut self, message: Message, out: &mut Vec<Signed>) -> Result<(), AllocError> {
        if remove_one(self.alloc, &mut self.antis, message)? {
            return Ok(());
        }
        self.undo(self.after(message), out)?;
        Ok(self.waiting.push(message)?)
    }

    fn cancel(&mut self, message: Message, out: &mut Vec<Signed>) -> Result<(), AllocError> {
        if self.has_done(message) && !self.waiting.contains(&message) {
            self.undo(self.after(message).wrapping_add(1), out)?;
        }
        if remove_one(self.alloc, &mut self.waiting, message)? {
            return Ok(());
        }
        Ok(self.antis.push(message)?)
    }

    fn arrive(&mut self, signed: Signed, out: &mut Vec<Signed>) -> Result<(), AllocError> {
        match signed.sign {
            Sign::Plus => self.add(signed.message, out),
            Sign::Minus => self.cancel(signed.message, out),
        }
    }

    /// The state after this message, and what its handling sends.
    fn handled(&self, message: &Message) -> (u64, Sends) {
        let mut words = Words::new(self.alloc);
        words.push_reserved(self.state);
        let (after, sends) = Relay.handle(self.alloc, self.lp % 6, &words, message);
        (after.as_slice().first().copied().unwrap_or(0), sends)
    }

    /// Sends at this time. Returns the sent messages.
    fn send(
        &mut self,
        now: u64,
        sends: &Sends,
        out: &mut Vec<Signed>,
    ) -> Result<Vec<Message>, Fail> {
        let mut sent = Vec::new(self.alloc);
        for send in sends.as_slice() {
            let time = now.wrapping_add(u64::from(send.delay));
            let (a, b, c, d) = (send.a, send.b, send.c, send.d);
            let one = Message::new(time, self.lp, self.number, send.to, a, b, c, d)?;
            self.number = self.number.wrapping_add(1);
            sent.push(one)?;
            out.push(going_out(one))?;
        }
        Ok(sent)
    }

    fn run(&mut self, message: Message, out: &mut Vec<Signed>) -> Result<(), Fail> {
        let _ = remove_one(self.alloc, &mut self.waiting, message)?;
        let before = (self.state, self.number);
        let (state, sends) = self.handled(&message);
        let sent = self.send(message.time(), &sends, out)?;
        self.state = state;
        let after = (self.state, self.number);
        self.done.push(Handled {
            message,
            sent,
            before,
            after,
        })?;
        Ok(())
    }

    /// Reports the handlings before the floor, in ticks, that were not yet reported.
    fn report(&mut self, floor: u64, fossils: &mut Vec<Done>) -> Result<(), AllocError> {
        let mut reported = self.reported;
        for handled in self.done.iter().skip(self.reported) {
            if handled.message.time() < floor {
                fossils.push(done(self.alloc, handled)?)?;
                reported = reported.wrapping_add(1);
            }
        }
        self.reported = reported;
        Ok(())
    }
}

fn done(alloc: Global, handled: &Handled) -> Result<Done, AllocError> {
    Ok(Done {
        message: handled.message,
        sent: Sent::from_slice(alloc, handled.sent.as_slice())?,
        after: State::from_slice(alloc, &[handled.after.0])?,
        number_after: handled.after.1,
    })
}

impl PlainNode {
    pub fn new(alloc: Global, end: u64) -> PlainNode {
        PlainNode {
            alloc,
            end,
            processes: Vec::new(alloc),
        }
    }

    pub fn seat(&mut self, process: PlainProcess) -> Result<(), AllocError> {
        self.processes.push(process)?;
        Ok(())
    }

    fn least_waiting(&self) -> Option<Message> {
        let mut least = None;
        for process in self.processes.iter() {
            least = least_of(process.waiting.as_slice(), least);
        }
        match least {
            Some(message) if message.time() < self.end => least,
            _ => None,
        }
    }

    pub fn low(&self) -> Option<u64> {
        let mut low: Option<u64> = None;
        for process in self.processes.iter() {
            for one in process.waiting.iter().chain(process.antis.iter()) {
                low = Some(low.unwrap_or(u64::MAX).min(one.time()));
            }
        }
        low
    }

    fn deliver(&mut self, deliver: &[Signed], out: &mut Vec<Signed>) -> Result<(), AllocError> {
        for signed in deliver {
            for process in self.processes.iter_mut() {
                if process.lp == signed.message.to() {
                    process.arrive(*signed, out)?;
                }
            }
        }
        Ok(())
    }

    /// Handles the least waiting message before the end, if there is one.
    fn run_one(&mut self, out: &mut Vec<Signed>) -> Result<u32, Fail> {
        let Some(message) = self.least_waiting() else {
            return Ok(0);
        };
        for process in self.processes.iter_mut() {
            if process.lp == message.to() {
                process.run(message, out)?;
            }
        }
        Ok(1)
    }

    pub fn handle(&mut self, deliver: &[Signed], budget: u32, floor: u64) -> Result<Reply, Fail> {
        let mut out = Vec::new(self.alloc);
        self.deliver(deliver, &mut out)?;
        let mut ran = 0u32;
        for _ in 0..budget {
            ran = ran.wrapping_add(self.run_one(&mut out)?);
        }
        let mut fossils = Vec::new(self.alloc);
        for process in self.processes.iter_mut() {
            process.report(floor, &mut fossils)?;
        }
        Ok(Reply {
            out: Listed::from_vec(out),
            low: self.low(),
            fossils: Reports::from_slice(self.alloc, fossils.as_slice())?.unwrap_or(Reports::new(
                self.alloc,
            )),
            ran,
        })
    }
}
