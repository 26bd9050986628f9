// A state of a process, between its handlings.

ghost use Rattle.std.specs.Prelude.{◌≡◌, ◌≤◌, length, IfOk, IsOk};

use smallvec::SmallVec;
use std::alloc::{AllocError, Global};

/// The state words of a process in a compact form, which contracts see as a list: of a front, a
/// report, a checkpoint or a load. One or two words, as most models have, are in the value itself;
/// more are in an allocation of their length. A handling takes them as `Words`.
pub struct State {
    words: SmallVec<u64, 2>,
}

// Not derived: the proof of each caller that drops a state would have to go through its parts.
impl Drop for State {
    fn drop(self) {
        let State { words: _ } = self;
    }
}

impl std::marker::Model for State {
    ghost use Rattle.std.specs.Prelude.{List, ℕ};

    ghost Value = { List ℕ };

    ghost view = { λ s. s.words.items };
}

impl State {
    /// Copies these words, without an allocation for two words or fewer.
    pub fn from_slice(alloc: Global, words: &[u64]) -> Result<State, AllocError>
        ensures ok { IfOk result (λ state. state ≡ words.now) }
        ensures succeeds { length words.now ≤ 2 → IsOk result }
    {
        let words = SmallVec::from_slice(alloc, words)?;
        Ok(State { words })
    }

    /// Returns the words.
    pub fn as_slice(&self) -> &[u64]
        ensures { result.now ≡ self.now }
    {
        self.words.as_slice()
    }
}

impl PartialEq for State {
    ghost use Rattle.std.specs.Prelude.{nat_eq};
    ghost use Rattle.std.specs.Cmp.Lexicographic.{pointwise, lists_per};
    ghost use Rattle.std.specs.Cmp.Lexicographic.{nat_list_eq_equiv};
    ghost use Rattle.std.specs.Cmp.{partial_equiv_from_equiv};

    ghost eq = { pointwise nat_eq };

    ghost laws = { partial_equiv_from_equiv nat_list_eq_equiv };

    fn eq(&self, other: &State) -> bool {
        self.words.as_slice() == other.words.as_slice()
    }
}

impl Eq for State {
    ghost use Rattle.std.specs.Cmp.Lexicographic.{nat_list_eq_equiv};

    ghost laws = { nat_list_eq_equiv };
}
