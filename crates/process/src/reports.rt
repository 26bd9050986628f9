// Reported handlings, kept as bytes.

ghost use Rattle.std.specs.Prelude.{◌≡◌, ◌↔◌, ◌++◌, ◌∷◌, [], IfOk, IfSome, IsSome, IsTrue, OnErr, OnOk};
ghost use Rattle.std.specs.Prelude.{length, nat_le, nat_lt};
ghost use Rattle.std.specs.List.{filter, flat_map, list_all, AllByRecursion as Every};
ghost use Rattle.eventkey.specs.Message.{IsRanged, Message};
ghost use Rattle.eventkey.specs.Reading.{Gives, items_at};
ghost use Rattle.process.specs.Reports.{AreReports, IsDone, IsFirstOf, IsReport, done_at};
ghost use Rattle.process.specs.Reports.{done_bytes, report_in, reports_in};
ghost use Rattle.process.specs.View.{IsDoneInRange};

use crate::encoding::{
    NUMBER_BYTES, append_done, are_sent_below, first_length, push_sent_from, sends_in, skip_dones,
    skip_sent_list, state_in, words_in,
};
use crate::{Done, Process};
use eventkey::{MESSAGE_BYTES, Message, read_message, read_u64};
use model::{Sent, State, Words, ranged};
use smallvec::SmallVec;
use std::alloc::{AllocError, Global};

/// The bytes of a report with one send and two state words, as most models have.
const USUAL_BYTES: usize = 138;

/// Reported handlings, kept as the bytes that a frame has of them. Contracts see the list of the
/// handlings.
///
/// A report has its message (56 bytes), the number of its sends (1, at most 8), the sends (56
/// each), the number of its state words (1, at most 16), the words (8 each), and its send number
/// (8). Numbers are big-endian.
pub struct Reports {
    count: usize,
    bytes: Vec<u8>,
}

// Not derived: the proof of each caller that drops reports would have to go through their parts.
impl Drop for Reports {
    fn drop(self) {
        let Reports { count: _, bytes: _ } = self;
    }
}

impl std::marker::Model for Reports {
    ghost use Rattle.std.specs.Prelude.{List};
    ghost use Rattle.process.specs.Reports.{AreReports, reports_in};
    ghost use Rattle.process.specs.declared.Done.{Done};

    ghost Value = { List Done };

    ghost view = { λ r. reports_in r.count r.bytes.items };

    ghost invariant = { λ r. AreReports r.count r.bytes.items };
}

impl Reports {
    /// Returns no reports, without an allocation.
    #[tactic(auto, using(crate::proofs::ReportBytes::none_left, crate::proofs::ReportBytes::nothing_encodes))]
    pub fn new(alloc: Global) -> Reports
        ensures { result ≡ [] }
    {
        Reports {
            count: 0,
            bytes: Vec::new(alloc),
        }
    }

    /// Returns no reports, with room for `count` reports of usual length.
    #[tactic(auto, using(crate::proofs::ReportBytes::none_left, crate::proofs::ReportBytes::nothing_encodes))]
    pub fn with_capacity(alloc: Global, count: usize) -> Result<Reports, AllocError>
        ensures { IfOk result (λ reports. reports ≡ []) }
    {
        Ok(Reports {
            count: 0,
            bytes: Vec::with_capacity(alloc, count.saturating_mul(USUAL_BYTES))?,
        })
    }

    /// Returns these handlings as reports. `None` if one of them has more than 8 sends, more than
    /// 16 state words, or a send number above 2^63.
    pub fn from_slice(alloc: Global, handlings: &[Done]) -> Result<Option<Reports>, AllocError>
        ensures reports { IfOk result (λ found. IfSome found (λ reports. reports ≡ handlings.now)) }
        ensures range { IfOk result (λ found. IsSome found ↔ Every IsDoneInRange handlings.now) }
    {
        let mut reports = Reports::with_capacity(alloc, handlings.len())?;
        for done in handlings {
            if !is_in_range(done) {
                return Ok(None);
            }
            reports.push(done)?;
        }
        Ok(Some(reports))
    }

    /// Reads `count` reports, and returns them with the bytes after them. `None` if the bytes do
    /// not begin with that number of reports: bytes are missing, a time is 2^41 ticks or more, a
    /// report has more than 8 sends or more than 16 state words, or its send number is above 2^63.
    /// Copies their bytes in one go. `AllocError` comes if that allocation fails.
    #[tactic(auto, using(crate::proofs::ReportBytes::read_shorter, crate::proofs::ReportBytes::read_reports, crate::proofs::ReportBytes::read_value))]
    pub fn read(
        alloc: Global,
        count: u32,
        bytes: &[u8],
    ) -> Result<Option<(Reports, &[u8])>, AllocError>
        ensures { Gives (λ x. (x.0, x.1.now)) result (items_at done_at count bytes.now) }
    {
        let Some(rest) = skip_dones(count, bytes) else {
            return Ok(None);
        };
        let (front, _) = bytes.split_at(bytes.len() - rest.len());
        let mut copy = Vec::with_capacity(alloc, front.len())?;
        copy.extend_from_slice(front)?;
        let reports = Reports {
            count: count as usize,
            bytes: copy,
        };
        Ok(Some((reports, rest)))
    }

    /// Returns the number of reports.
    pub fn len(&self) -> usize
        ensures { result ≡ length self.now }
    {
        self.count
    }

    /// Returns the bytes of the reports, one after the other.
    pub fn as_bytes(&self) -> &[u8]
        ensures { result.now ≡ flat_map done_bytes self.now }
    {
        self.bytes.as_slice()
    }

    /// Does nothing: its contract states that the numbers of the reports are in their ranges.
    pub fn ranged(&self)
        ensures { Every IsDone self.now }
    {
        let _ = &self.count;
    }

    /// Appends a handling. Nothing is changed after an `AllocError`.
    #[tactic(auto, using(crate::proofs::ReportBytes::pushed_are, crate::proofs::ReportBytes::pushed_value, crate::proofs::ReportBytes::cut_off, crate::proofs::ReportBytes::count_fits))]
    pub fn push(&mut self, done: &Done) -> Result<(), AllocError>
        requires { IsDoneInRange done.now }
        ensures pushed { OnOk result (self.new ≡ self.old ++ done.now ∷ []) }
        ensures unchanged { OnErr result (self.new ≡ self.old) }
    {
        done_ranged(done);
        let length = self.bytes.len();
        match append_done(&mut self.bytes, done) {
            Ok(()) => {
                self.count += 1;
                Ok(())
            }
            Err(refused) => {
                self.bytes.truncate(length);
                Err(refused)
            }
        }
    }

    /// Appends a report, by copying its bytes. Nothing is changed after an `AllocError`.
    #[tactic(auto, using(crate::proofs::ReportBytes::copied_are, crate::proofs::ReportBytes::copied_value, crate::proofs::ReportBytes::count_fits))]
    pub fn push_report(&mut self, report: &Report<'_>) -> Result<(), AllocError>
        ensures pushed { OnOk result (self.new ≡ self.old ++ report.now ∷ []) }
        ensures unchanged { OnErr result (self.new ≡ self.old) }
    {
        self.bytes.extend_from_slice(report.bytes)?;
        self.count += 1;
        Ok(())
    }

    /// Appends these `count` reports, by one copy of their bytes. Nothing is changed after an
    /// `AllocError`.
    #[tactic(auto, using(crate::proofs::ReportBytes::appended_are, crate::proofs::ReportBytes::appended_value, crate::proofs::ReportBytes::count_fits))]
    pub(crate) fn push_bytes(&mut self, count: usize, bytes: &[u8]) -> Result<(), AllocError>
        requires { AreReports count bytes.now }
        ensures appended { OnOk result (self.new ≡ self.old ++ reports_in count bytes.now) }
        ensures unchanged { OnErr result (self.new ≡ self.old) }
    {
        self.bytes.extend_from_slice(bytes)?;
        self.count += count;
        Ok(())
    }

    /// Appends the reports of `others`. If there are none so far and there is no room, they are
    /// taken over without a copy. Nothing is changed after an `AllocError`.
    #[tactic(auto, using(crate::proofs::ReportBytes::none_left))]
    pub fn append(&mut self, others: Reports) -> Result<(), AllocError>
        ensures appended { OnOk result (self.new ≡ self.old ++ others) }
        ensures unchanged { OnErr result (self.new ≡ self.old) }
    {
        if self.count == 0 && self.bytes.capacity() < others.bytes.len() {
            *self = others;
            return Ok(());
        }
        self.push_bytes(others.count, others.bytes.as_slice())
    }

    /// Holds the reports of `others` in place of its own, in the room that it has if they fit there.
    #[tactic(auto, using(crate::proofs::ReportBytes::none_left, crate::proofs::ReportBytes::nothing_encodes))]
    pub fn put(&mut self, others: Reports)
        ensures { self.new ≡ others }
    {
        if self.bytes.capacity() >= others.bytes.len() {
            self.bytes.clear();
            self.count = 0;
            if self
                .push_bytes(others.count, others.bytes.as_slice())
                .is_ok()
            {
                return;
            }
        }
        *self = others;
    }

    /// Returns the reports, to be taken one by one.
    pub fn iter(&self) -> ReportsLeft<'_>
        ensures { result ≡ self.now }
    {
        ReportsLeft {
            count: self.count,
            bytes: self.bytes.as_slice(),
        }
    }

    /// Returns the handlings as values of their own.
    pub fn to_vec(&self, alloc: Global) -> Result<Vec<Done>, AllocError>
        ensures { IfOk result (λ handlings. handlings.items ≡ self.now) }
    {
        let mut handlings = Vec::with_capacity(alloc, self.count)?;
        let mut left = self.iter();
        while let Some(report) = left.next() {
            handlings.push(report.to_done(alloc)?)?;
        }
        Ok(handlings)
    }
}

/// Reports that are still to be taken, one by one. Contracts see the list of their handlings.
pub struct ReportsLeft<'r> {
    count: usize,
    bytes: &'r [u8],
}

impl<'r> Drop for ReportsLeft<'r> {
    fn drop(self) {
        let ReportsLeft { count: _, bytes: _ } = self;
    }
}

impl<'r> std::marker::Model for ReportsLeft<'r> {
    ghost use Rattle.std.specs.Prelude.{List};
    ghost use Rattle.process.specs.Reports.{AreReports, reports_in};
    ghost use Rattle.process.specs.declared.Done.{Done};

    ghost Value = { List Done };

    ghost view = { λ r. reports_in r.count r.bytes.now };

    ghost invariant = { λ r. AreReports r.count r.bytes.now };
}

impl<'r> ReportsLeft<'r> {
    /// Returns the `count` reports that these bytes are.
    pub(crate) fn from_bytes(count: usize, bytes: &'r [u8]) -> ReportsLeft<'r>
        requires { AreReports count bytes.now }
        ensures { result ≡ reports_in count bytes.now }
    {
        ReportsLeft { count, bytes }
    }

    /// Takes the first of the reports, if there is one.
    #[tactic(auto, using(crate::proofs::ReportBytes::none_left, crate::proofs::ReportBytes::taken_rest, crate::proofs::ReportBytes::taken_report, crate::proofs::ReportBytes::taken_value))]
    pub fn next(&mut self) -> Option<Report<'r>>
        ensures { IsFirstOf self.old self.new result }
    {
        if self.count == 0 {
            return None;
        }
        let bytes = self.bytes;
        let (report, rest) = bytes.split_at(first_length(self.count, bytes));
        self.count -= 1;
        self.bytes = rest;
        Some(Report { bytes: report })
    }
}

/// A report, kept as its bytes. Contracts see the handling.
pub struct Report<'r> {
    bytes: &'r [u8],
}

impl<'r> Drop for Report<'r> {
    fn drop(self) {
        let Report { bytes: _ } = self;
    }
}

impl<'r> std::marker::Model for Report<'r> {
    ghost use Rattle.process.specs.Reports.{IsReport, report_in};
    ghost use Rattle.process.specs.declared.Done.{Done};

    ghost Value = { Done };

    ghost view = { λ r. report_in r.bytes.now };

    ghost invariant = { λ r. IsReport r.bytes.now };
}

impl<'r> Report<'r> {
    /// Returns the report that these bytes are.
    pub(crate) fn from_bytes(bytes: &'r [u8]) -> Report<'r>
        requires { IsReport bytes.now }
        ensures { result ≡ report_in bytes.now }
    {
        Report { bytes }
    }

    /// Returns the handled message.
    #[tactic(auto, using(crate::proofs::ReportBytes::message_is, crate::proofs::ReportBytes::message_there))]
    pub fn message(&self) -> Message
        ensures { result ≡ self.now.message }
    {
        match read_message(self.bytes) {
            Some((message, _)) => message,
            // A report begins with a message.
            None => Message::default(),
        }
    }

    /// Returns the messages that the handling sent, in the order of sending. Allocates nothing.
    #[tactic(auto, using(crate::proofs::ReportBytes::long_message, crate::proofs::ReportBytes::sent_is))]
    pub fn sent(&self, alloc: Global) -> SmallVec<Message, 8>
        ensures { result.items ≡ self.now.sent }
    {
        let (_, rest) = self.bytes.split_at(MESSAGE_BYTES);
        sends_in(alloc, rest)
    }

    /// Returns whether all receivers of what the handling sent are below `limit`.
    #[tactic(auto, using(crate::proofs::ReportBytes::long_message))]
    pub fn are_sent_below(&self, limit: u32) -> bool
        ensures { result ≡ list_all (λ (x : Message). nat_lt x.to limit) self.now.sent }
    {
        let (_, rest) = self.bytes.split_at(MESSAGE_BYTES);
        are_sent_below(limit, rest)
    }

    /// Appends those of the messages that the handling sent that are at this time, in ticks, or
    /// later, in the order of sending. After an `AllocError` some of them may be appended.
    #[tactic(auto, using(crate::proofs::ReportBytes::long_message))]
    pub fn push_sent_from(&self, time: u64, out: &mut Vec<Message>) -> Result<(), AllocError>
        ensures { OnOk result (out.new.items
            ≡ out.old.items ++ filter (λ (x : Message). nat_le time x.time) self.now.sent) }
    {
        let (_, rest) = self.bytes.split_at(MESSAGE_BYTES);
        push_sent_from(out, time, rest)
    }

    /// Returns the state words after the handling. Allocates nothing.
    #[tactic(auto, using(crate::proofs::ReportBytes::long_message, crate::proofs::ReportBytes::sent_there, crate::proofs::ReportBytes::after_is))]
    pub fn after(&self, alloc: Global) -> Words
        ensures { result.items ≡ self.now.after }
    {
        let (_, rest) = self.bytes.split_at(MESSAGE_BYTES);
        match skip_sent_list(rest) {
            Some(rest) => words_in(alloc, rest),
            // A report has sends and state words.
            None => Words::new(alloc),
        }
    }

    /// Returns the state after the handling. Allocates for more than two words.
    #[tactic(auto, using(crate::proofs::ReportBytes::long_message, crate::proofs::ReportBytes::sent_there))]
    pub fn state(&self, alloc: Global) -> Result<State, AllocError>
        ensures { IfOk result (λ state. state ≡ self.now.after) }
    {
        let (_, rest) = self.bytes.split_at(MESSAGE_BYTES);
        match skip_sent_list(rest) {
            Some(rest) => state_in(alloc, rest),
            // A report has sends and state words.
            None => Err(AllocError),
        }
    }

    /// Returns the send number after the handling.
    #[tactic(auto, using(crate::proofs::ReportBytes::long_number, crate::proofs::ReportBytes::number_is, crate::proofs::ReportBytes::number_there))]
    pub fn number_after(&self) -> u64
        ensures { result ≡ self.now.number_after }
    {
        let (_, number) = self.bytes.split_at(self.bytes.len() - NUMBER_BYTES);
        match read_u64(number) {
            Some((number, _)) => number,
            // A report ends with a number of 8 bytes.
            None => 0,
        }
    }

    /// Returns the handling as a value of its own.
    pub fn to_done(&self, alloc: Global) -> Result<Done, AllocError>
        ensures { IfOk result (λ done. done ≡ self.now) }
    {
        Ok(Done {
            message: self.message(),
            sent: Sent::from_slice(alloc, self.sent(alloc).as_slice())?,
            after: self.state(alloc)?,
            number_after: self.number_after(),
        })
    }
}

/// Returns whether the parts of a handling are in their ranges.
fn is_in_range(done: &Done) -> bool
    ensures { IsTrue result ↔ IsDoneInRange done.now }
{
    done.sent.as_slice().len() <= 8
        && done.after.as_slice().len() <= 16
        && done.number_after <= Process::NUMBER_LIMIT
}

/// A handling in its range has an encoding. Returns nothing; it exists for its contract.
fn done_ranged(done: &Done)
    ensures { IsDoneInRange done.now → IsDone done.now }
{
    let sent = done.sent.as_slice();
    parts_ranged(
        &done.message,
        sent,
        done.after.as_slice(),
        done.number_after,
    );
}

/// The handling with these parts has an encoding if it is in its range. Returns nothing; it exists
/// for its contract.
pub(crate) fn parts_ranged(message: &Message, sent: &[Message], after: &[u64], number_after: u64)
    ensures { IsDoneInRange (record {
      message = message.now;
      sent = sent.now;
      after = after.now;
      number_after = number_after;
    }) → IsDone (record {
      message = message.now;
      sent = sent.now;
      after = after.now;
      number_after = number_after;
    }) }
{
    message.ranged();
    messages_ranged(sent);
    ranged(after);
}

/// Messages are in range. Returns nothing; it exists for its contract.
fn messages_ranged(messages: &[Message])
    ensures { Every IsRanged messages.now }
{
    for message in messages {
        message.ranged();
    }
}
