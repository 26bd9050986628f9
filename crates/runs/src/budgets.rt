// The budget of a node, which follows what the node reports.

ghost use Rattle.std.specs.Prelude.{◌≡◌, ◌≤◌};
ghost use Rattle.runs.specs.Budgets.{all_but_few_reported, budget_after, careful_messages};
ghost use Rattle.runs.specs.Budgets.{eager_messages, first_budget, messages_of, nearly_all_reported};
ghost use Rattle.runs.specs.Budgets.{sum_after};

/// How much a node reported and handled in its latest takes, which sets its next budget.
///
/// Each field is a decaying sum: a take subtracts an eighth before it adds its own number.
#[derive(Clone, Copy, Debug, PartialEq, Eq)]
pub(crate) struct NodeBudget {
    /// The number of handlings that it reported, which no rollback can reach any more.
    reported: u64,
    /// The number of messages that it handled.
    ran: u64,
}

/// The largest budget, in messages.
const MOST: u64 = 65_536;

impl NodeBudget {
    /// Returns the budget of a node of which no reply was taken: 18 messages, or 11 if rounds are
    /// cheap.
    pub(crate) fn new() -> NodeBudget
        ensures { result ≡ first_budget }
    {
        NodeBudget {
            reported: 64,
            ran: 64,
        }
    }

    /// Returns how many messages the node may handle in its next turn, 1 to 65,536: enough that few
    /// rounds are made if a round is expensive, or so few that almost none is rolled back if it is
    /// cheap.
    pub(crate) fn messages(self, rounds_are_cheap: bool) -> u32
        ensures exact { result ≡ messages_of rounds_are_cheap self }
        ensures some { 1 ≤ result }
        ensures most { result ≤ 65536 }
    {
        let messages = if rounds_are_cheap {
            self.careful()
        } else {
            self.eager()
        };
        messages.min(MOST) as u32
    }

    /// Returns the mean number of handlings that the latest takes reported, doubled if nearly all
    /// that the node handled was reported, otherwise with an eighth added; plus two.
    fn eager(self) -> u64
        ensures exact { result ≡ eager_messages self }
        ensures some { 1 ≤ result }
    {
        let mean = self.reported / 8;
        let more = if self.nearly_all_reported() {
            2 * mean
        } else {
            mean + mean / 8
        };
        more + 2
    }

    /// Returns the mean number of handlings that the latest takes reported, with a quarter added if
    /// all but few of those handled were reported, otherwise less an eighth; plus one.
    fn careful(self) -> u64
        ensures exact { result ≡ careful_messages self }
        ensures some { 1 ≤ result }
    {
        let mean = self.reported / 8;
        let near = if self.all_but_few_reported() {
            mean + mean / 4
        } else {
            mean - mean / 8
        };
        near + 1
    }

    /// Returns whether at least fifteen sixteenths of what the node handled was reported.
    fn nearly_all_reported(self) -> bool
        ensures { result ≡ nearly_all_reported self }
    {
        15 * u128::from(self.ran) <= 16 * u128::from(self.reported)
    }

    /// Returns whether at least 63 of 64 handlings were reported.
    fn all_but_few_reported(self) -> bool
        ensures { result ≡ all_but_few_reported self }
    {
        63 * u128::from(self.ran) <= 64 * u128::from(self.reported)
    }

    /// Returns the budget after a take that handled `ran` messages and reported `reported` handlings.
    pub(crate) fn after_take(self, ran: u32, reported: usize) -> NodeBudget
        ensures { result ≡ budget_after self ran reported }
    {
        NodeBudget {
            reported: sum_after(self.reported, reported as u64),
            ran: sum_after(self.ran, u64::from(ran)),
        }
    }
}

/// Returns a sum after a take: less an eighth, plus what the take adds.
fn sum_after(sum: u64, more: u64) -> u64
    ensures { result ≡ sum_after sum more }
{
    (sum - sum / 8).saturating_add(more)
}
