// The handlings that a process has not reported yet, kept as the bytes of their reports.

ghost use Rattle.std.specs.Prelude.{◌≡◌, ◌+◌, ◌≤◌, ◌<◌, ◌^◌, ◌++◌, ◌∷◌, [], length, take, drop};
ghost use Rattle.std.specs.Prelude.{OnErr, OnOk, option_map, vec_len};
ghost use Rattle.std.specs.List.{flat_map, sum, AllByRecursion as Every};
ghost use Rattle.eventkey.specs.Encoding.{message_at};
ghost use Rattle.queues.specs.Queue.{but_last, last_of};
ghost use Rattle.process.specs.Handlings.{IsLastOf, count_before, first_reported, lengths_of};
ghost use Rattle.process.specs.Reports.{IsDone, done_bytes};

use crate::encoding::append_parts;
use crate::reports::parts_ranged;
use crate::{Report, Reports, ReportsLeft};
use eventkey::{Message, read_message};
use std::alloc::{AllocError, Global};
use std::collections::VecDeque;

/// Handlings, kept as the bytes of their reports: appended at the end, rolled back from the end,
/// released from the front. Contracts see the list of the handlings.
///
/// The state before a handling is the one after the handling before it, so no model runs.
pub(crate) struct Handlings {
    // Where the first report begins. The reports before it were released.
    start: usize,
    // The number of bytes of each report.
    lengths: VecDeque<usize>,
    bytes: Vec<u8>,
}

// Handwritten: with a derived drop, each caller that drops handlings proves again how their parts
// are dropped.
impl Drop for Handlings {
    fn drop(self) {
        let Handlings {
            start: _,
            lengths: _,
            bytes: _,
        } = self;
    }
}

impl std::marker::Model for Handlings {
    ghost use Rattle.std.specs.Prelude.{List};
    ghost use Rattle.process.specs.Handlings.{HoldHandlings, handlings_in};
    ghost use Rattle.process.specs.declared.Done.{Done};

    ghost Value = { List Done };

    ghost view = { λ h. handlings_in h.start h.lengths.items h.bytes.items };

    ghost invariant = { λ h. HoldHandlings h.start h.lengths.items h.bytes.items };
}

impl Handlings {
    /// Returns no handlings, without an allocation.
    pub fn new(alloc: Global) -> Handlings
        ensures { result ≡ [] }
    {
        Handlings {
            start: 0,
            lengths: VecDeque::new(alloc),
            bytes: Vec::new(alloc),
        }
    }

    /// Returns the number of handlings.
    pub fn len(&self) -> usize
        ensures { result ≡ length self.now }
    {
        self.lengths.len()
    }

    /// Does nothing: its contract states that the numbers of the handlings are in their ranges.
    pub fn ranged(&self)
        ensures { Every IsDone self.now }
    {
        let _ = &self.start;
    }

    /// Returns the time of the first message, in ticks, if there is one.
    pub fn first_time(&self) -> Option<u64>
        ensures { result ≡ first_reported self.now }
    {
        let (_, bytes) = self.parts();
        time_in(bytes)
    }

    /// Appends a handling. Nothing is changed after an `AllocError`.
    #[tactic(auto, using(crate::proofs::ReportBytes::cut_off))]
    pub fn push(
        &mut self,
        message: &Message,
        sent: &[Message],
        after: &[u64],
        number_after: u64,
    ) -> Result<(), AllocError>
        requires sent { length sent.now ≤ 8 }
        requires after { length after.now ≤ 16 }
        requires number { number_after ≤ 2 ^ 63 }
        ensures pushed { OnOk result (self.new ≡ self.old ++ record {
          message = message.now;
          sent = sent.now;
          after = after.now;
          number_after = number_after;
        } ∷ []) }
        ensures unchanged { OnErr result (self.new ≡ self.old) }
    {
        parts_ranged(message, sent, after, number_after);
        self.lengths.reserve(1)?;
        let end = self.bytes.len();
        match append_parts(&mut self.bytes, message, sent, after, number_after) {
            Ok(()) => {
                self.lengths.push_back_reserved(self.bytes.len() - end);
                Ok(())
            }
            Err(refused) => {
                self.bytes.truncate(end);
                Err(refused)
            }
        }
    }

    /// Returns the last handling, if there is one.
    pub fn last(&self) -> Option<Report<'_>>
        ensures { IsLastOf self.now result }
    {
        let (_, bytes) = self.parts();
        self.last_within(self.len(), bytes.len())
    }

    /// Returns the last of the first `count` handlings, if `count` is not 0. Takes time in
    /// proportion to `count`.
    pub fn last_before(&self, count: usize) -> Option<Report<'_>>
        requires { count ≤ length self.now }
        ensures { IsLastOf (take count self.now) result }
    {
        self.last_within(count, self.size_between(0, count))
    }

    /// Returns the last of the first `count` handlings, whose reports have `size` bytes.
    fn last_within(&self, count: usize, size: usize) -> Option<Report<'_>>
        requires there { count ≤ length self.now }
        requires size { size ≡ length (flat_map done_bytes (take count self.now)) }
        ensures { IsLastOf (take count self.now) result }
    {
        if count == 0 {
            return None;
        }
        let (lengths, bytes) = self.parts();
        let length = lengths[count - 1];
        let (front, _) = bytes.split_at(size);
        let (_, report) = front.split_at(size - length);
        Some(Report::from_bytes(report))
    }

    /// Returns the last `count` handlings. Takes time in proportion to `count`.
    pub fn last_reports(&self, count: usize) -> ReportsLeft<'_>
        requires { count ≤ length self.now }
        ensures { result ≡ last_of count self.now }
    {
        let all = self.len();
        let size = self.size_between(all - count, all);
        let (_, bytes) = self.parts();
        let (_, last) = bytes.split_at(bytes.len() - size);
        ReportsLeft::from_bytes(count, last)
    }

    /// Drops the last `count` handlings. Allocates nothing.
    pub fn roll_back(&mut self, count: usize)
        requires { count ≤ length self.old }
        ensures { self.new ≡ but_last count self.old }
    {
        let kept = self.len() - count;
        let size = self.size_between(kept, self.len());
        let end = self.bytes.len();
        self.lengths.truncate(kept);
        self.bytes.truncate(end - size);
    }

    /// Returns the number of leading handlings before `floor`, in ticks. Takes time in proportion
    /// to that number.
    pub fn count_before(&self, floor: u64) -> usize
        ensures count { result ≡ count_before floor self.now }
        ensures within { result ≤ length self.now }
    {
        let (lengths, bytes) = self.parts();
        let mut count = 0;
        let mut rest = bytes;
        while let Some(time) = time_in(rest) {
            if time >= floor {
                return count;
            }
            let (_, after) = rest.split_at(lengths[count]);
            rest = after;
            count += 1;
        }
        count
    }

    /// Takes away the first `count` handlings, and appends their reports to `fossils` by one copy
    /// of their bytes. Nothing is changed after an `AllocError`.
    pub fn release(&mut self, count: usize, fossils: &mut Reports) -> Result<(), AllocError>
        requires { count ≤ length self.old }
        ensures released { OnOk result (fossils.new ≡ fossils.old ++ take count self.old) }
        ensures left { OnOk result (self.new ≡ drop count self.old) }
        ensures unchanged { OnErr result ((self.new ≡ self.old) × (fossils.new ≡ fossils.old)) }
    {
        let size = self.size_between(0, count);
        let (_, bytes) = self.parts();
        let (gone, _) = bytes.split_at(size);
        fossils.push_bytes(count, gone)?;
        let_go(&mut self.lengths, count);
        self.start += size;
        self.compact();
        Ok(())
    }

    /// Moves the bytes to the front if more than half of them were released: over all releases, no
    /// more bytes are moved than were released.
    fn compact(&mut self)
        ensures { self.new ≡ self.old }
    {
        if self.bytes.len() - self.start < self.start {
            drop_front(&mut self.bytes, self.start);
            self.start = 0;
        }
    }

    /// Returns the lengths of the reports, and their bytes.
    fn parts(&self) -> (&VecDeque<usize>, &[u8])
        ensures lengths { result.0.now.items ≡ lengths_of self.now }
        ensures bytes { result.1.now ≡ flat_map done_bytes self.now }
        ensures ranged { Every IsDone self.now }
    {
        let (_, bytes) = self.bytes.as_slice().split_at(self.start);
        (&self.lengths, bytes)
    }

    /// Returns the number of bytes of the reports from index `from` up to index `to`.
    fn size_between(&self, from: usize, to: usize) -> usize
        requires ascend { from ≤ to }
        requires there { to ≤ length self.now }
        ensures { length (flat_map done_bytes (take from self.now)) + result
            ≡ length (flat_map done_bytes (take to self.now)) }
    {
        let (lengths, _) = self.parts();
        sum_between(lengths, from, to)
    }
}

/// Returns the sum of these numbers from index `from` up to index `to`.
fn sum_between(numbers: &VecDeque<usize>, from: usize, to: usize) -> usize
    requires ascend { from ≤ to }
    requires there { to ≤ length numbers.now.items }
    requires fits { sum numbers.now.items < 2 ^ 64 }
    ensures { sum (take from numbers.now.items) + result ≡ sum (take to numbers.now.items) }
{
    let mut found = 0;
    for at in from..to {
        found += numbers[at];
    }
    found
}

/// Drops the first `count` numbers. Allocates nothing.
fn let_go(numbers: &mut VecDeque<usize>, count: usize)
    requires { count ≤ length numbers.old.items }
    ensures { numbers.new.items ≡ drop count numbers.old.items }
{
    for _ in 0..count {
        numbers.pop_front();
    }
}

/// Drops the first `count` bytes, and moves the others to the front. Allocates nothing.
fn drop_front(bytes: &mut Vec<u8>, count: usize)
    requires { count ≤ vec_len bytes.old }
    ensures { bytes.new.items ≡ drop count bytes.old.items }
{
    let end = bytes.len();
    bytes.copy_within(count..end, 0);
    bytes.truncate(end - count);
}

/// Returns the time of the message at the front of these bytes, if there is one.
fn time_in(bytes: &[u8]) -> Option<u64>
    ensures { result ≡ option_map (λ x. x.0.time) (message_at bytes.now) }
{
    match read_message(bytes) {
        Some((message, _)) => Some(message.time()),
        None => None,
    }
}
