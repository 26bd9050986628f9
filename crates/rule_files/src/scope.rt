// The names that the rules of a model can use.

ghost use Rattle.std.specs.Prelude.{◌≡◌, IfOk, OnOk, ◌++◌, drop, map, string_bytes};
ghost use Rattle.std.specs.List.{list_all};
ghost use Rattle.rule_files.specs.Names.{are_distinct, is_among, is_key, is_letter, is_name};
ghost use Rattle.rule_files.specs.Names.{is_word, is_word_byte, reserved};
ghost use Rattle.rule_files.specs.Arrays.{array_view};
ghost use Rattle.rule_files.specs.RuleFile.{field_view, kind_view, named_view, names_of};
ghost use Rattle.rule_files.specs.RuleFile.{other_names, parts_view, sort_view};

use crate::arrays::NamedArray;
use crate::kinds::KindTable;
use std::alloc::{AllocError, Global};

/// A name with numbers: one for a named number, one or more for a table.
#[derive(Debug, Drop)]
pub struct Named {
    /// The name.
    pub name: String,
    /// The numbers.
    pub numbers: Vec<u64>,
}

/// A sort of messages.
#[derive(Debug, Drop)]
pub struct NamedSort {
    /// The name.
    pub name: String,
    /// The names of the words after its number, by their places, at most 3. `_` is no name.
    pub fields: Vec<String>,
}

/// A name of a word of content that some sort has.
#[derive(Debug, Drop)]
pub struct Field {
    /// The name.
    pub name: String,
    /// The place of the word.
    pub place: u8,
}

/// The names that the rules of a model can use, beside those of the language.
#[derive(Debug, Drop)]
pub struct Scope<'a, 't> {
    /// The words of the state, by their places. One of them may be `key`, which rules neither read
    /// nor set.
    pub words: Vec<String>,
    /// The arrays of the state, by their places.
    pub arrays: Vec<NamedArray>,
    /// The words of a message's content that have a name, by their places, at most 4. Those after
    /// them are called `a`, `b`, `c` and `d`, by their places.
    pub content: Vec<String>,
    /// The named numbers, each with one number, in the order of the bytes of their names.
    pub numbers: Vec<Named>,
    /// The tables, by their places: in the order of the bytes of their names.
    pub tables: Vec<Named>,
    /// The sorts of messages, by their numbers: in the order of the bytes of their names.
    pub sorts: Vec<NamedSort>,
    /// The fields of all sorts, each once.
    pub fields: Vec<Field>,
    /// The kinds of processes.
    pub kinds: &'a [KindTable<'t>],
    /// The first process of the kind whose rules these names are for.
    pub own: Option<u32>,
}

/// The words of the language, which are no names. `key` may be a word of the state.
const RESERVED: [&str; 21] = [
    "let",
    "send",
    "to",
    "after",
    "with",
    "if",
    "else",
    "repeat",
    "min",
    "max",
    "draw",
    "key",
    "self",
    "sender",
    "now",
    "lps",
    "exponential",
    "geometric",
    "normal",
    "triangular",
    "choose",
];

/// Returns whether a text is a name: a letter or an underscore, then letters, digits and
/// underscores, at most 64 in all, and no word of the language.
pub(crate) fn is_name(text: &str) -> bool
    ensures { result ≡ is_name text.now }
{
    let bytes = text.as_bytes();
    if bytes.is_empty() {
        return false;
    }
    bytes.len() <= 64 && is_letter(bytes[0]) && are_word_bytes(bytes) && !is_reserved(text)
}

/// Returns whether a text is a word of the language.
pub(crate) fn is_reserved(text: &str) -> bool
    ensures { result ≡ is_among text.now reserved }
{
    is_among(text, &RESERVED)
}

/// Returns whether a text is a name or `key`.
pub(crate) fn is_word(text: &str) -> bool
    ensures { result ≡ is_word text.now }
{
    is_name(text) || is_key(text)
}

/// Returns whether a text is `key`.
pub(crate) fn is_key(text: &str) -> bool
    ensures { result ≡ is_key text.now }
{
    text == "key"
}

/// Returns whether a byte is a letter or an underscore.
fn is_letter(byte: u8) -> bool
    ensures { result ≡ is_letter byte }
{
    byte >= b'A' && byte <= b'Z' || byte >= b'a' && byte <= b'z' || byte == b'_'
}

/// Returns whether a byte is a letter, an underscore or a digit.
fn is_word_byte(byte: u8) -> bool
    ensures { result ≡ is_word_byte byte }
{
    is_letter(byte) || byte >= b'0' && byte <= b'9'
}

/// Returns whether all bytes are letters, underscores or digits.
fn are_word_bytes(text: &[u8]) -> bool
    ensures { result ≡ list_all is_word_byte text.now }
{
    for byte in text {
        if !is_word_byte(*byte) {
            return false;
        }
    }
    true
}

/// Returns whether a name is one of these.
fn is_among(name: &str, names: &[&str]) -> bool
    ensures { result ≡ is_among name.now (map (λ n. n.now) names.now) }
{
    for known in names {
        if *known == name {
            return true;
        }
    }
    false
}

/// Returns whether no name of a scope is there twice.
pub(crate) fn has_distinct_names(alloc: Global, scope: &Scope<'_, '_>) -> Result<bool, AllocError>
    ensures { IfOk result (λ holds. holds ≡ are_distinct (names_of (parts_view scope.now))) }
{
    let mut names = Vec::new(alloc);
    put_names(&mut names, scope.words.as_slice())?;
    put_names(&mut names, scope.content.as_slice())?;
    put_others(&mut names, scope.content.len())?;
    put_named(&mut names, scope.numbers.as_slice())?;
    put_named(&mut names, scope.tables.as_slice())?;
    put_arrays(&mut names, scope.arrays.as_slice())?;
    put_sorts(&mut names, scope.sorts.as_slice())?;
    put_fields(&mut names, scope.fields.as_slice())?;
    put_kinds(&mut names, scope.kinds)?;
    Ok(are_distinct(names.as_slice()))
}

/// Returns whether no name of a field is there twice.
pub(crate) fn are_distinct_fields(alloc: Global, fields: &[Field]) -> Result<bool, AllocError>
    ensures { IfOk result (λ holds. holds
        ≡ are_distinct (map (λ f. f.0) (map field_view fields.now))) }
{
    let mut names = Vec::new(alloc);
    put_fields(&mut names, fields)?;
    Ok(are_distinct(names.as_slice()))
}

/// Appends the names to a list.
fn put_names<'a>(names: &mut Vec<&'a str>, more: &'a [String]) -> Result<(), AllocError>
    ensures { OnOk result (map (λ n. n.now) names.new.items
        ≡ map (λ n. n.now) names.old.items ++ map string_bytes more.now) }
{
    for name in more {
        names.push(name.as_str())?;
    }
    Ok(())
}

/// Appends the names of the words of content that have none of their own.
fn put_others(names: &mut Vec<&str>, count: usize) -> Result<(), AllocError>
    ensures { OnOk result (map (λ n. n.now) names.new.items
        ≡ map (λ n. n.now) names.old.items ++ drop count other_names) }
{
    'others: for i in count.min(4)..4 {
        names.push(OTHERS[i])?;
    }
    Ok(())
}

/// The names of the words of content that have none of their own.
pub(crate) const OTHERS: [&str; 4] = ["a", "b", "c", "d"];

/// Appends the names of numbers or tables to a list.
fn put_named<'a>(names: &mut Vec<&'a str>, more: &'a [Named]) -> Result<(), AllocError>
    ensures { OnOk result (map (λ n. n.now) names.new.items
        ≡ map (λ n. n.now) names.old.items ++ map (λ n. n.0) (map named_view more.now)) }
{
    for named in more {
        names.push(named.name.as_str())?;
    }
    Ok(())
}

/// Appends the names of arrays to a list.
fn put_arrays<'a>(names: &mut Vec<&'a str>, more: &'a [NamedArray]) -> Result<(), AllocError>
    ensures { OnOk result (map (λ n. n.now) names.new.items
        ≡ map (λ n. n.now) names.old.items ++ map (λ n. n.0) (map array_view more.now)) }
{
    for array in more {
        names.push(array.name.as_str())?;
    }
    Ok(())
}

/// Appends the names of sorts of messages to a list.
fn put_sorts<'a>(names: &mut Vec<&'a str>, more: &'a [NamedSort]) -> Result<(), AllocError>
    ensures { OnOk result (map (λ n. n.now) names.new.items
        ≡ map (λ n. n.now) names.old.items ++ map (λ s. s.0) (map sort_view more.now)) }
{
    for sort in more {
        names.push(sort.name.as_str())?;
    }
    Ok(())
}

/// Appends the names of fields to a list.
fn put_fields<'a>(names: &mut Vec<&'a str>, more: &'a [Field]) -> Result<(), AllocError>
    ensures { OnOk result (map (λ n. n.now) names.new.items
        ≡ map (λ n. n.now) names.old.items ++ map (λ f. f.0) (map field_view more.now)) }
{
    for field in more {
        names.push(field.name.as_str())?;
    }
    Ok(())
}

/// Appends the names of kinds to a list.
fn put_kinds<'a>(names: &mut Vec<&'a str>, more: &'a [KindTable<'_>]) -> Result<(), AllocError>
    ensures { OnOk result (map (λ n. n.now) names.new.items ≡ map (λ n. n.now) names.old.items
        ++ map (λ k. k.name) (map (λ k. kind_view k.head) more.now)) }
{
    for kind in more {
        names.push(kind.head.name.as_str())?;
    }
    Ok(())
}

/// Returns whether no name is there twice.
fn are_distinct(names: &[&str]) -> bool
    ensures { result ≡ are_distinct (map (λ n. n.now) names.now) }
{
    for i in 0..names.len() {
        if is_among(names[i], &names[i + 1..]) {
            return false;
        }
    }
    true
}
