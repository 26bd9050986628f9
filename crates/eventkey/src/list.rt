// A vector that contracts see as a list.

ghost use Rattle.std.specs.Prelude.{◌≡◌, ◌++◌, ◌∷◌, [], length, OnOk, OnErr};

use std::alloc::{AllocError, AllocFailed, Global};

/// A vector that contracts see as the list of its items, so that they see a struct with such a
/// field as plain data.
pub struct Listed<T: Drop> {
    items: Vec<T>,
}

// Not derived: the proof of each caller that drops a list would have to go through its parts.
impl<T: Drop> Drop for Listed<T> {
    fn drop(self) {
        let Listed { items: _ } = self;
    }
}

impl<T: Drop> std::marker::Model for Listed<T> {
    ghost use Rattle.std.specs.Prelude.{List};

    ghost Value = { List T };

    ghost view = { λ l. l.items.items };
}

impl<T: Drop> Listed<T> {
    /// Wraps a vector, without an allocation.
    pub fn from_vec(items: Vec<T>) -> Listed<T>
        ensures { result ≡ items.items }
    {
        Listed { items }
    }

    /// Returns the items.
    pub fn as_slice(&self) -> &[T]
        ensures { result.now ≡ self.now }
    {
        self.items.as_slice()
    }

    /// Returns the vector, without an allocation.
    pub fn into_vec(self) -> Vec<T>
        ensures { result.items ≡ self }
    {
        let Listed { items } = self;
        items
    }
}

impl<T: Drop + PartialEq> PartialEq for Listed<T> {
    ghost use Rattle.std.specs.Cmp.Lexicographic.{pointwise, lists_per};

    ghost eq = { pointwise T.eq };

    ghost laws = { lists_per T.laws };

    fn eq(&self, other: &Listed<T>) -> bool {
        self.items.as_slice() == other.items.as_slice()
    }
}

impl<T: Drop + Eq> Eq for Listed<T> {
    ghost use Rattle.std.specs.Cmp.Lexicographic.{lists_equiv};

    ghost laws = { lists_equiv T.Eq.laws };
}
