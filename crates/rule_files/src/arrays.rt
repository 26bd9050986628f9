// Arrays in the state of a model by rules, as `queue[40]: 16 bits` among its words.

ghost use Rattle.std.specs.Prelude.{◌≡◌, ◌≤◌, ◌<◌, ◌+◌, ◌-◌, ◌++◌, ◌∷◌, [], IfOk, IfSome, OnOk, None, Some, true, false};
ghost use Rattle.std.specs.Prelude.{codes, decimal, map, option_map, string_bytes, length};
ghost use Rattle.rule_files.specs.Arrays.{after, array_word, behind_digits, declared_behind};
ghost use Rattle.rule_files.specs.Arrays.{declared_in, declared_view, fits, is_digit, is_unit};
ghost use Rattle.rule_files.specs.Arrays.{last_text, number_in, state_view, with_array_words};
ghost use Rattle.rule_files.specs.Arrays.{but_key, few_words, is_later, key_first as key_first_of};
ghost use Rattle.rule_files.specs.Arrays.{array_view, key_from, moved, moved_arrays};
ghost use Rattle.rule_files.specs.Arrays.{with_declared, with_item};

use crate::scope::{is_key, is_name, is_word};
use itoa::Buffer;
use rules::Array;
use std::alloc::{AllocError, Global};

/// An array of the state, by its name.
#[derive(Debug, Drop)]
pub struct NamedArray {
    /// The name.
    pub name: String,
    /// Where its elements stand.
    pub array: Array,
}

/// An array that an item of the state declares.
#[derive(Clone, Copy, Debug)]
pub(crate) struct Declared<'a> {
    /// The name.
    pub name: &'a str,
    /// The number of elements, 1 to 1,024.
    pub count: u16,
    /// The bits of an element, 1 to 64.
    pub bits: u8,
}

/// Returns whether a byte is a decimal digit.
pub(crate) fn is_digit(byte: u8) -> bool
    ensures { result ≡ is_digit byte }
{
    byte >= b'0' && byte <= b'9'
}

/// Returns the number that the digits at the beginning of a text say. A number above 65,536 counts
/// as that, and no digits count as 0.
pub(crate) fn number_in(text: &[u8]) -> u64
    ensures value { result ≡ number_in 0 text.now }
    ensures small { result ≤ 65536 }
{
    let mut number: u64 = 0;
    'digits: for byte in text {
        if !is_digit(*byte) {
            return number;
        }
        number = (10 * number + u64::from(byte.saturating_sub(48))).min(65_536);
    }
    number
}

/// Returns what stands after the digits at the beginning of a text.
fn behind_digits(text: &[u8]) -> &[u8]
    ensures { result.now ≡ behind_digits text.now }
{
    'digits: for (place, byte) in text.iter().enumerate() {
        if !is_digit(*byte) {
            return text.split_at(place).1;
        }
    }
    &[]
}

/// Returns what stands after a mark at the beginning of a text.
fn after<'a>(mark: &[u8], text: &'a [u8]) -> Option<&'a [u8]>
    ensures { option_map (λ rest. rest.now) result ≡ after mark.now text.now }
{
    let (front, rest) = text.split_at(mark.len().min(text.len()));
    if front == mark { Some(rest) } else { None }
}

/// Returns whether a text ends a declaration.
fn is_unit(text: &[u8]) -> bool
    ensures { result ≡ is_unit text.now }
{
    text == " bits".as_bytes() || text == " bit".as_bytes()
}

/// Returns whether an array may have this name, this number of elements and these bits.
fn fits(name: &str, count: u64, bits: u64) -> bool
    ensures is { result ≡ fits name.now count bits }
    ensures few { result ≡ true → count ≤ 1024 }
    ensures some { result ≡ true → 1 ≤ bits }
    ensures within { result ≡ true → bits ≤ 64 }
{
    is_name(name) && 1 <= count && count <= 1024 && 1 <= bits && bits <= 64
}

#[tactic(auto, unfolding(crate::specs::Arrays::declared_in))]
/// Returns the array that an item of the state declares, if it declares one.
pub(crate) fn declared_in(text: &str) -> Option<Declared<'_>>
    ensures some { option_map (λ d. declared_view d.name.now d.count d.bits) result
        ≡ declared_in text.now }
    ensures within { IfSome result (λ d. (1 ≤ d.bits) × (d.bits ≤ 64)) }
    ensures few { IfSome result (λ d. d.count ≤ 1024) }
{
    let (name, rest) = text.split_once('[')?;
    declared_behind(name, rest.as_bytes())
}

/// Returns the array of this name that the text after its first bracket declares.
fn declared_behind<'a>(name: &'a str, text: &[u8]) -> Option<Declared<'a>>
    ensures some { option_map (λ d. declared_view d.name.now d.count d.bits) result
        ≡ declared_behind name.now text.now }
    ensures within { IfSome result (λ d. (1 ≤ d.bits) × (d.bits ≤ 64)) }
    ensures few { IfSome result (λ d. d.count ≤ 1024) }
{
    let count = number_in(text);
    let rest = after("]: ".as_bytes(), behind_digits(text))?;
    let bits = number_in(rest);
    if is_unit(behind_digits(rest)) && fits(name, count, bits) {
        Some(Declared {
            name,
            count: count as u16,
            bits: bits as u8,
        })
    } else {
        None
    }
}

/// Appends a number in decimal digits.
fn put_number(number: usize, text: &mut String) -> Result<(), AllocError>
    ensures { OnOk result (string_bytes text.new ≡ string_bytes text.old ++ decimal number) }
{
    let mut digits = Buffer::new();
    text.push_str(digits.format(number as u64))
}

/// Appends the number of the last element of a word, if it is not the first one.
fn put_last(first: usize, last: usize, text: &mut String) -> Result<(), AllocError>
    ensures { OnOk result (string_bytes text.new ≡ string_bytes text.old ++ last_text first last) }
{
    if first == last {
        return Ok(());
    }
    text.push_str("-")?;
    put_number(last, text)
}

/// Returns the name of a word of an array: the numbers of its first and its last element.
fn word_name(alloc: Global, name: &str, array: Array, place: usize) -> Result<String, AllocError>
    requires some { 1 ≤ array.bits }
    requires few { array.bits ≤ 64 }
    requires within { place < 1024 }
    ensures { IfOk result (λ text. string_bytes text ≡ array_word name.now array place) }
{
    let first = place * array.per_word();
    let last = (first + array.per_word())
        .min(usize::from(array.count))
        .saturating_sub(1);
    let mut text = String::from_str(alloc, name)?;
    text.push_str("[")?;
    put_number(first, &mut text)?;
    put_last(first, last, &mut text)?;
    text.push_str("]")?;
    Ok(text)
}

/// Appends the names of the words of an array.
fn put_words(
    alloc: Global,
    name: &str,
    array: Array,
    count: usize,
    words: &mut Vec<String>,
) -> Result<(), AllocError>
    requires some { 1 ≤ array.bits }
    requires few { array.bits ≤ 64 }
    requires within { count ≤ 1024 }
    ensures words { OnOk result (map string_bytes words.new.items
        ≡ with_array_words count name.now array (map string_bytes words.old.items)) }
    ensures length { OnOk result (length words.new.items ≡ length words.old.items + count) }
{
    'words: for place in 0..count {
        words.push(word_name(alloc, name, array, place)?)?;
    }
    Ok(())
}

/// The state of a model by rules as its file declares it.
#[derive(Debug, Drop)]
pub(crate) struct StateNames {
    /// The names of its words, by their places.
    pub words: Vec<String>,
    /// Its arrays, by their places.
    pub arrays: Vec<NamedArray>,
}

/// Adds what an item of the state declares, and returns whether it is a name or an array that fits.
pub(crate) fn put_item(
    alloc: Global,
    text: &str,
    state: &mut StateNames,
) -> Result<bool, AllocError>
    requires { length state.old.words.items ≤ 16 }
    ensures added { IfOk result (λ is. is ≡ true →
        with_item text.now (state_view state.old) ≡ Some (state_view state.new)) }
    ensures none { IfOk result (λ is. is ≡ false → with_item text.now (state_view state.old) ≡ None) }
    ensures few { OnOk result (length state.new.words.items ≤ 16) }
{
    if is_word(text) {
        if state.words.len() == 16 {
            return Ok(false);
        }
        state.words.push(String::from_str(alloc, text)?)?;
        return Ok(true);
    }
    match declared_in(text) {
        Some(declared) => put_declared(alloc, declared, state),
        None => Ok(false),
    }
}

/// Adds an array after the words of a state, and returns whether it fits.
fn put_declared(
    alloc: Global,
    declared: Declared<'_>,
    state: &mut StateNames,
) -> Result<bool, AllocError>
    requires words { length state.old.words.items ≤ 16 }
    requires some { 1 ≤ declared.bits }
    requires within { declared.bits ≤ 64 }
    requires count { declared.count ≤ 1024 }
    ensures added { IfOk result (λ is. is ≡ true →
        with_declared (Some (declared_view declared.entry.name.now declared.entry.count declared.entry.bits))
        (state_view state.old) ≡ Some (state_view state.new)) }
    ensures none { IfOk result (λ is. is ≡ false →
        with_declared (Some (declared_view declared.entry.name.now declared.entry.count declared.entry.bits))
        (state_view state.old) ≡ None) }
    ensures few { OnOk result (length state.new.words.items ≤ 16) }
{
    let array = Array {
        place: state.words.len() as u8,
        bits: declared.bits,
        count: declared.count,
    };
    let count = array.words();
    if count > 16 - state.words.len() {
        return Ok(false);
    }
    put_words(alloc, declared.name, array, count, &mut state.words)?;
    let name = String::from_str(alloc, declared.name)?;
    state.arrays.push(NamedArray { name, array })?;
    Ok(true)
}

/// Returns the place of `key` among the words of the state.
pub(crate) fn key_of(words: &[String]) -> Option<u8>
    requires { length words.now ≤ 16 }
    ensures { result ≡ key_from 0 (map string_bytes words.now) }
{
    for (place, word) in words.iter().enumerate() {
        if is_key(word.as_str()) {
            return Some(place as u8);
        }
    }
    None
}

/// Returns a state that begins with the key, whether or not it had one, unless it gets more than 16
/// words.
pub(crate) fn key_first(alloc: Global, state: StateNames) -> Result<Option<StateNames>, AllocError>
    requires { length state.words.items ≤ 16 }
    ensures state { IfOk result (λ found. option_map state_view found
        ≡ few_words (key_first_of (state_view state))) }
    ensures few { IfOk result (λ found. IfSome found (λ s. length s.words.items ≤ 16)) }
{
    let key = key_of(state.words.as_slice());
    let words = words_behind_key(alloc, state.words.as_slice())?;
    let arrays = moved_arrays(alloc, key, state.arrays.as_slice())?;
    if words.len() <= 16 {
        Ok(Some(StateNames { words, arrays }))
    } else {
        Ok(None)
    }
}

/// Returns the key and the other words of a state.
fn words_behind_key(alloc: Global, words: &[String]) -> Result<Vec<String>, AllocError>
    ensures { IfOk result (λ all. map string_bytes all.items
        ≡ codes "key" ∷ but_key false (map string_bytes words.now)) }
{
    let mut all = Vec::new(alloc);
    all.push(String::from_str(alloc, "key")?)?;
    let mut out = false;
    'words: for word in words {
        if !out && is_key(word.as_str()) {
            out = true;
        } else {
            all.push(String::from_str(alloc, word.as_str())?)?;
        }
    }
    Ok(all)
}

/// Returns the arrays at their places after the key, which was at this place.
fn moved_arrays(
    alloc: Global,
    key: Option<u8>,
    arrays: &[NamedArray],
) -> Result<Vec<NamedArray>, AllocError>
    ensures { IfOk result (λ all. map array_view all.items
        ≡ moved_arrays key (map array_view arrays.now)) }
{
    let mut all = Vec::new(alloc);
    'arrays: for one in arrays {
        let name = String::from_str(alloc, one.name.as_str())?;
        let array = moved(key, one.array);
        all.push(NamedArray { name, array })?;
    }
    Ok(all)
}

/// Returns the array at its place after the key.
fn moved(key: Option<u8>, array: Array) -> Array
    ensures { result ≡ moved key array }
{
    let place = if is_later(key, array.place) {
        array.place.saturating_add(1)
    } else {
        array.place
    };
    Array {
        place,
        bits: array.bits,
        count: array.count,
    }
}

/// Returns whether a word comes later once the key is the first one.
fn is_later(key: Option<u8>, place: u8) -> bool
    ensures { result ≡ is_later key place }
{
    match key {
        Some(key) => place < key,
        None => true,
    }
}
