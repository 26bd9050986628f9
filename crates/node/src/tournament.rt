// Per-process summaries under a tournament tree, whose root names the process with the least next
// message.

ghost use Rattle.std.specs.Prelude.{◌≡◌, ◌<◌, ◌≤◌, ◌^◌, ◌⊎◌, ℕ, length, set, get_or, replicate};
ghost use Rattle.std.specs.Prelude.{IfOk, IfSome, true};
ghost use Rattle.node.specs.Blocks.{IsQuietFrom, with_oldest};
ghost use Rattle.node.specs.Node.{lesser};
ghost use Rattle.node.specs.Seats.{is_due};
ghost use Rattle.node.specs.Tournament.{next_at};

use crate::blocks::Blocks;
use crate::summary::Summary;
use eventkey::Message;
use std::alloc::{AllocError, Global};

/// The summaries of processes, which are the leaves, and a tree of matches between them. A cell of
/// the tree has the place of a leaf: the last cells are those of the leaves, and each cell above
/// them has the winner of the two cells below it, the leaf with the lesser next message. So a match
/// reads two places and compares two messages, and a change of a leaf replays one match for each
/// level.
#[derive(Drop)]
pub(crate) struct Tournament {
    leaves: Blocks,
    winners: Vec<u32>,
}

impl std::marker::Model for Tournament {
    ghost use Rattle.std.specs.Prelude.{List};
    ghost use Rattle.node.specs.declared.summary.Summary.{Summary};

    ghost Value = { List Summary };

    ghost use Rattle.node.specs.Tournament.{IsTournament};

    ghost view = { λ t. t.leaves };

    ghost invariant = { λ t. IsTournament t.leaves t.winners.items };
}

impl Tournament {
    ghost use Rattle.node.specs.Tournament.{IsLowInRange, absent, least_among};

    /// Returns a tournament of this number of leaves, with empty summaries.
    pub(crate) fn new(alloc: Global, leaves: usize) -> Result<Tournament, AllocError>
        requires { leaves < 2 ^ 32 }
        ensures { IfOk result (λ t. t ≡ replicate leaves absent) }
    {
        let summaries = Blocks::new(alloc, leaves)?;
        let mut winners = Vec::new(alloc);
        winners.resize(2 * leaves, 0)?;
        // While all summaries are empty, either of two leaves can win.
        let mut cell = 2 * leaves;
        while cell > 1 {
            cell -= 1;
            let winner = if cell < leaves {
                winners[2 * cell]
            } else {
                (cell - leaves) as u32
            };
            winners[cell] = winner;
        }
        Ok(Tournament {
            leaves: summaries,
            winners,
        })
    }

    /// Replaces the summary of a leaf. Allocates nothing; takes at most the logarithm of the number
    /// of leaves.
    #[inline(always)]
    pub(crate) fn set(&mut self, leaf: usize, summary: Summary)
        requires inside { leaf < length self.old }
        requires range { IsLowInRange summary }
        ensures { self.new ≡ set self.old leaf summary }
    {
        let keeps_next = summary.has_next_of(&self.leaves.as_slice()[leaf]);
        self.leaves.set(leaf, summary);
        // Matches compare the next messages alone, and most deliveries do not change them.
        if keeps_next {
            return;
        }
        let mut cell = self.leaves.as_slice().len() + leaf;
        while cell > 1 {
            cell /= 2;
            let (left, right) = (self.winners[2 * cell], self.winners[2 * cell + 1]);
            self.winners[cell] = winner(self.leaves.as_slice(), left, right);
        }
    }

    /// Replaces the oldest time of a leaf. Allocates nothing; takes constant time, since no match
    /// depends on it.
    #[inline(always)]
    pub(crate) fn set_oldest(&mut self, leaf: usize, oldest: Option<u64>)
        requires { leaf < length self.old }
        ensures { self.new ≡ set self.old leaf (with_oldest oldest (get_or self.old leaf absent)) }
    {
        self.leaves.set_oldest(leaf, oldest);
    }

    /// Returns the least next message of all leaves. Allocates nothing; takes constant time.
    pub(crate) fn next(&self) -> Option<Message>
        ensures { result ≡ (least_among self.now).next }
    {
        let leaves = self.leaves.as_slice();
        if leaves.is_empty() {
            return None;
        }
        leaves[self.winners[1] as usize].next
    }

    /// Returns the least waiting time, in ticks, at any leaf. Allocates nothing. Takes one step for
    /// each block of leaves, and a scan of each block that may have a lesser time than the blocks
    /// before it.
    pub(crate) fn low(&mut self) -> Option<u64>
        ensures same { self.new ≡ self.old }
        ensures low { result ≡ (least_among self.old).low }
        ensures range { IfSome result (λ time. time < 2 ^ 41) }
    {
        self.leaves.low()
    }

    /// Returns the first leaf, from `from` on, whose oldest time is below `floor`, in ticks, or the
    /// number of leaves if there is none. Allocates nothing. Takes one step for each block of
    /// leaves passed, and a scan of each block that may have such a time.
    pub(crate) fn first_due(&mut self, from: usize, floor: u64) -> usize
        requires { from ≤ length self.old }
        ensures same { self.new ≡ self.old }
        ensures after { from ≤ result }
        ensures within { result ≤ length self.old }
        ensures quiet { IsQuietFrom floor self.old from result }
        ensures due { result < length self.old → is_due floor (get_or self.old result absent).oldest
            ≡ true }
    {
        self.leaves.first_due(from, floor)
    }
}

/// Returns the leaf with the lesser next message, of two leaves given by their places.
fn winner(leaves: &[Summary], left: u32, right: u32) -> u32
    requires left { left < length leaves.now }
    requires right { right < length leaves.now }
    ensures either { (result ≡ left) ⊎ (result ≡ right) }
    ensures first { next_at leaves.now result ≡ lesser (next_at leaves.now left)
        (next_at leaves.now right) }
{
    match (&leaves[left as usize].next, &leaves[right as usize].next) {
        (Some(x), Some(y)) => if y.is_before(x) { right } else { left },
        (Some(_), None) => left,
        (None, _) => right,
    }
}
