// Arrays of bounded numbers in the state of a process.

ghost use Rattle.std.specs.Prelude.{◌≡◌, ◌≢◌, ◌≤◌, ◌<◌, ◌+◌, ◌*◌, ◌/◌, ◌%◌, ◌^◌, ℕ, true, length};
ghost use Rattle.std.specs.Prelude.{slice_index};
ghost use Rattle.rules.specs.Elements.{cut, element, has_element as has_element_of, per_word};
ghost use Rattle.rules.specs.Elements.{shift_of, with_bits as with_bits_of, with_element, word_of};
ghost use Rattle.rules.specs.Elements.{words_of};

/// An array of numbers of one width, in the words of a state from a place on. A word has as
/// many whole elements as fit, the first one in its lowest bits; no element crosses a word.
#[derive(Clone, Copy, Debug, PartialEq, Eq)]
pub struct Array {
    /// The place of its first word.
    pub place: u8,
    /// The bits of an element, 1 to 64. With another number the array has no elements.
    pub bits: u8,
    /// The number of elements.
    pub count: u16,
}

impl Array {
    /// Returns whether the array has an element at an index.
    pub fn has_element(self, index: u64) -> bool
        ensures { result ≡ has_element_of self index }
    {
        index < u64::from(self.count) && self.bits > 0 && self.bits < 65
    }

    /// Returns the number of elements in a word.
    pub fn per_word(self) -> usize
        requires some { 1 ≤ self.bits }
        ensures value { result ≡ per_word self }
        ensures few { result ≤ 64 }
    {
        64 / usize::from(self.bits)
    }

    /// Returns the number of words of the array.
    pub fn words(self) -> usize
        requires some { 1 ≤ self.bits }
        requires few { self.bits ≤ 64 }
        ensures { result ≡ words_of self }
    {
        let each = self.per_word();
        (usize::from(self.count) + each - 1) / each
    }

    /// Returns the place of the word that has an element.
    fn word(self, index: u64) -> usize
        requires some { 1 ≤ self.bits }
        requires few { self.bits ≤ 64 }
        requires within { index < self.count }
        ensures { result ≡ word_of self index }
    {
        usize::from(self.place) + (index / (64 / u64::from(self.bits))) as usize
    }

    /// Returns the lowest bit of an element in its word.
    fn shift(self, index: u64) -> u64
        requires some { 1 ≤ self.bits }
        requires few { self.bits ≤ 64 }
        ensures value { result ≡ shift_of self index }
        ensures fits { result + self.bits ≤ 64 }
    {
        index % (64 / u64::from(self.bits)) * u64::from(self.bits)
    }

    /// Returns the element at an index, or 0 if the array has no such element.
    pub fn get(self, words: &[u64], index: u64) -> u64
        ensures { result ≡ element self words.now index }
    {
        if !self.has_element(index) {
            return 0;
        }
        let word = words.get(self.word(index)).copied().unwrap_or(0);
        bits_of(word, self.shift(index), u64::from(self.bits))
    }

    /// Writes the element at an index. A number that has more bits than an element counts as the
    /// greatest one that an element can have. Without such an element, all stays the same.
    pub fn set(self, words: &mut [u64], index: u64, number: u64)
        ensures value { words.new ≡ with_element self words.old index number }
        ensures is { has_element_of self index ≡ true → word_of self index < length words.old →
            element self words.new index ≡ cut self number }
        ensures others { (other : ℕ) → other ≢ index →
            element self words.new other ≡ element self words.old other }
        ensures outside { (place : ℕ) →
            ¬ ((self.place ≤ place) × (place < self.place + words_of self)) →
            slice_index words.new place ≡ slice_index words.old place }
    {
        self.put(words, index, number);
    }

    /// Writes the element at an index, if there is one.
    fn put(self, words: &mut [u64], index: u64, number: u64)
        ensures { words.new ≡ with_element self words.old index number }
    {
        if !self.has_element(index) {
            return;
        }
        let place = self.word(index);
        if place < words.len() {
            let (shift, bits) = (self.shift(index), u64::from(self.bits));
            words[place] = with_bits(words[place], shift, bits, number);
        }
    }
}

/// Returns some bits of a word, from a bit on.
fn bits_of(word: u64, shift: u64, bits: u64) -> u64
    requires some { 1 ≤ bits }
    requires within { shift + bits ≤ 64 }
    ensures { result ≡ word / 2 ^ shift % 2 ^ bits }
{
    let above = word >> shift;
    if bits == 64 {
        above
    } else {
        above % (1 << bits)
    }
}

/// Returns a word in which a number stands at some bits, or the greatest number that they can have.
fn with_bits(word: u64, shift: u64, bits: u64, number: u64) -> u64
    requires some { 1 ≤ bits }
    requires within { shift + bits ≤ 64 }
    ensures { result ≡ with_bits_of word shift bits number }
{
    if bits == 64 {
        return number;
    }
    let above = (word >> shift) >> bits;
    let inner = (above << bits) + number.min((1 << bits) - 1);
    (inner << shift) + word % (1 << shift)
}
