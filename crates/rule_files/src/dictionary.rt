// The names of a model file, as the reader of rules knows them.

ghost use Rattle.std.specs.Prelude.{◌≡◌, ◌<◌, ◌+◌, ◌∷◌, ◌++◌, [], IfOk, OnOk, drop, map, string_bytes};
ghost use Rattle.std.specs.List.{list_any};
ghost use Rattle.rule_files.specs.Arrays.{array_view};
ghost use Rattle.rule_files.specs.Names.{is_key, is_name};
ghost use Rattle.rule_files.specs.Reading.{array_names, content_from, dictionary, number_names, tables_from};
ghost use Rattle.rule_files.specs.Reading.{field_names, kind_names, sorts_from};
ghost use Rattle.rule_files.specs.Reading.{value_of, words_from};
ghost use Rattle.rule_files.specs.RuleFile.{field_view, kind_view, named_view, other_names};
ghost use Rattle.rule_files.specs.RuleFile.{parts_view, sort_view};
ghost use Rattle.rule_files.specs.Scopes.{token_meant, with_entry};

use crate::arrays::NamedArray;
use crate::grammar::{Meaning, RuleScope};
use crate::kinds::KindTable;
use crate::scope::{Field, Named, NamedSort, OTHERS, Scope, is_key, is_name};
use std::alloc::{AllocError, Global};

/// Returns what the names of a model file mean in its rules.
pub(crate) fn dictionary_of(alloc: Global, scope: &Scope<'_, '_>) -> Result<RuleScope, AllocError>
    ensures { IfOk result (λ names. names ≡ dictionary (parts_view scope.now)) }
{
    let mut names = empty(alloc, has_key(scope.words.as_slice()), scope.own);
    add_words(alloc, &mut names, scope.words.as_slice())?;
    add_content(alloc, &mut names, scope.content.as_slice())?;
    add_others(alloc, &mut names, scope.content.len())?;
    add_numbers(alloc, &mut names, scope.numbers.as_slice())?;
    add_tables(alloc, &mut names, scope.tables.as_slice())?;
    add_arrays(alloc, &mut names, scope.arrays.as_slice())?;
    add_sorts(alloc, &mut names, scope.sorts.as_slice())?;
    add_fields(alloc, &mut names, scope.fields.as_slice())?;
    add_kinds(alloc, &mut names, scope.kinds)?;
    Ok(names)
}

/// Returns a dictionary without names, of the kind that begins with this process.
fn empty(alloc: Global, draws: bool, own: Option<u32>) -> RuleScope
    ensures { result ≡ record { draws = draws; own = own; entries = [] } }
{
    match own {
        Some(first) => RuleScope::of_kind(alloc, draws, first),
        None => RuleScope::new(alloc, draws),
    }
}

/// Returns whether one of the words is `key`.
pub(crate) fn has_key(words: &[String]) -> bool
    ensures { result ≡ list_any is_key (map string_bytes words.now) }
{
    for word in words {
        if is_key(word.as_str()) {
            return true;
        }
    }
    false
}

/// Adds one name. The names of a model file are names, no two of them the same, and their places
/// fit, so that only memory can be missing.
fn add(alloc: Global, names: &mut RuleScope, name: &str, what: Meaning) -> Result<(), AllocError>
    ensures { OnOk result (names.new ≡ with_entry names.old name.now (token_meant what)) }
{
    match names.add(alloc, name, what) {
        Ok(()) => Ok(()),
        Err(_) => Err(AllocError),
    }
}

/// Returns a place as a word of the state or of content has it.
fn byte(place: usize) -> Result<u8, AllocError>
    ensures { IfOk result (λ byte. byte ≡ place) }
{
    match u8::try_from(place) {
        Ok(byte) => Ok(byte),
        Err(_) => Err(AllocError),
    }
}

/// Adds the words of the state but the key and those of arrays, which have no name.
fn add_words(alloc: Global, names: &mut RuleScope, words: &[String]) -> Result<(), AllocError>
    ensures draws { OnOk result (names.new.draws ≡ names.old.draws) }
    ensures own { OnOk result (names.new.own ≡ names.old.own) }
    ensures entries { OnOk result (names.new.entries
        ≡ names.old.entries ++ words_from 0 (map string_bytes words.now)) }
{
    for (place, word) in words.iter().enumerate() {
        if is_name(word.as_str()) {
            add(alloc, names, word.as_str(), Meaning::Word(byte(place)?))?;
        }
    }
    Ok(())
}

/// Adds the words of content that have a name.
fn add_content(alloc: Global, names: &mut RuleScope, words: &[String]) -> Result<(), AllocError>
    ensures draws { OnOk result (names.new.draws ≡ names.old.draws) }
    ensures own { OnOk result (names.new.own ≡ names.old.own) }
    ensures entries { OnOk result (names.new.entries
        ≡ names.old.entries ++ content_from 0 (map string_bytes words.now)) }
{
    for (place, word) in words.iter().enumerate() {
        add(alloc, names, word.as_str(), Meaning::Content(byte(place)?))?;
    }
    Ok(())
}

/// Adds the words of content that have no name of their own.
fn add_others(alloc: Global, names: &mut RuleScope, count: usize) -> Result<(), AllocError>
    ensures draws { OnOk result (names.new.draws ≡ names.old.draws) }
    ensures own { OnOk result (names.new.own ≡ names.old.own) }
    ensures entries { OnOk result (names.new.entries
        ≡ names.old.entries ++ content_from count (drop count other_names)) }
{
    'others: for place in count..4 {
        add(
            alloc,
            names,
            other_name(place),
            Meaning::Content(place as u8),
        )?;
    }
    Ok(())
}

/// Returns the name that the word of content at this place has if it has none of its own.
fn other_name(place: usize) -> &'static str
    requires { place < 4 }
    ensures { drop place other_names ≡ result.now ∷ drop (place + 1) other_names }
{
    OTHERS[place]
}

/// Adds the named numbers.
fn add_numbers(alloc: Global, names: &mut RuleScope, more: &[Named]) -> Result<(), AllocError>
    ensures draws { OnOk result (names.new.draws ≡ names.old.draws) }
    ensures own { OnOk result (names.new.own ≡ names.old.own) }
    ensures entries { OnOk result (names.new.entries
        ≡ names.old.entries ++ number_names (map named_view more.now)) }
{
    for named in more {
        let number = value_of(named.numbers.as_slice());
        add(alloc, names, named.name.as_str(), Meaning::Number(number))?;
    }
    Ok(())
}

/// Returns the one number of a name.
pub(crate) fn value_of(numbers: &[u64]) -> u64
    ensures { result ≡ value_of numbers.now }
{
    match numbers.first() {
        Some(number) => *number,
        None => 0,
    }
}

/// Adds the tables.
fn add_tables(alloc: Global, names: &mut RuleScope, more: &[Named]) -> Result<(), AllocError>
    ensures draws { OnOk result (names.new.draws ≡ names.old.draws) }
    ensures own { OnOk result (names.new.own ≡ names.old.own) }
    ensures entries { OnOk result (names.new.entries
        ≡ names.old.entries ++ tables_from 0 (map named_view more.now)) }
{
    'tables: for (place, named) in more.iter().enumerate() {
        let Ok(place) = u32::try_from(place) else {
            return Err(AllocError);
        };
        add(alloc, names, named.name.as_str(), Meaning::Table(place))?;
    }
    Ok(())
}

/// Adds the arrays.
fn add_arrays(alloc: Global, names: &mut RuleScope, more: &[NamedArray]) -> Result<(), AllocError>
    ensures draws { OnOk result (names.new.draws ≡ names.old.draws) }
    ensures own { OnOk result (names.new.own ≡ names.old.own) }
    ensures entries { OnOk result (names.new.entries
        ≡ names.old.entries ++ array_names (map array_view more.now)) }
{
    for named in more {
        add(
            alloc,
            names,
            named.name.as_str(),
            Meaning::Array(named.array),
        )?;
    }
    Ok(())
}

/// Adds the sorts of messages.
fn add_sorts(alloc: Global, names: &mut RuleScope, more: &[NamedSort]) -> Result<(), AllocError>
    ensures draws { OnOk result (names.new.draws ≡ names.old.draws) }
    ensures own { OnOk result (names.new.own ≡ names.old.own) }
    ensures entries { OnOk result (names.new.entries
        ≡ names.old.entries ++ sorts_from 0 (map sort_view more.now)) }
{
    'sorts: for (number, sort) in more.iter().enumerate() {
        add(
            alloc,
            names,
            sort.name.as_str(),
            Meaning::Sort {
                number: number as u64,
                words: sort.fields.len(),
            },
        )?;
    }
    Ok(())
}

/// Adds the fields of the sorts.
fn add_fields(alloc: Global, names: &mut RuleScope, more: &[Field]) -> Result<(), AllocError>
    ensures draws { OnOk result (names.new.draws ≡ names.old.draws) }
    ensures own { OnOk result (names.new.own ≡ names.old.own) }
    ensures entries { OnOk result (names.new.entries
        ≡ names.old.entries ++ field_names (map field_view more.now)) }
{
    for field in more {
        add(
            alloc,
            names,
            field.name.as_str(),
            Meaning::Content(field.place),
        )?;
    }
    Ok(())
}

/// Adds the kinds of processes.
fn add_kinds(alloc: Global, names: &mut RuleScope, more: &[KindTable<'_>]) -> Result<(), AllocError>
    ensures draws { OnOk result (names.new.draws ≡ names.old.draws) }
    ensures own { OnOk result (names.new.own ≡ names.old.own) }
    ensures entries { OnOk result (names.new.entries
        ≡ names.old.entries ++ kind_names (map (λ k. kind_view k.head) more.now)) }
{
    for kind in more {
        add(
            alloc,
            names,
            kind.head.name.as_str(),
            Meaning::Kind {
                first: kind.head.first,
                count: kind.head.count,
            },
        )?;
    }
    Ok(())
}
