// The values of the file of a model by rules.

ghost use Rattle.std.specs.Prelude.{◌≡◌, ◌+◌, ◌-◌, ◌^◌, ◌≤◌, IfOk, codes, map, min};
ghost use Rattle.std.specs.Prelude.{option_and_then, option_map};
ghost use Rattle.std.specs.Prelude.{IfSome, OnOk, is_some, IsErr, None, length, Some, string_bytes, true};
ghost use Rattle.rule_files.specs.Arrays.{no_state, state_view};
ghost use Rattle.rule_files.specs.KindViews.{setting_view};
ghost use Rattle.rule_files.specs.RuleFile.{are_apart, named_sorts_of};
ghost use Rattle.rule_files.specs.RuleFile.{all_numbers, all_of, content_of, named_in};
ghost use Rattle.rule_files.specs.RuleFile.{field_view, fields_in, fields_of, has_sorts, is_field};
ghost use Rattle.rule_files.specs.RuleFile.{parts_in, sort_view, sorts_of, with_field, with_fields};
ghost use Rattle.rule_files.specs.RuleFile.{state_behind, state_in, state_of};
ghost use Rattle.rule_files.specs.RuleFile.{named_or_none, named_view, number_in, numbers_in};
ghost use Rattle.rule_files.specs.RuleFile.{numbers_of, parts_of, parts_view, tables_of, word_in};
ghost use Rattle.rule_files.specs.RuleFile.{at_most, some_numbers, words_in};
ghost use Rattle.toml.specs.Data.{as_array, as_integer, as_str, as_table, get_member};
ghost use Rattle.toml.specs.View.{items_view, table_view, view};

use crate::arrays::{StateNames, key_first, put_item};
use crate::kinds::KindTable;
use crate::scope::{
    Field, Named, NamedSort, Scope, are_distinct_fields, has_distinct_names, is_name,
};
use std::alloc::{AllocError, Global};
use texts::Mistake;
use toml::{Table, Value};

/// What the scope of a table depends on beside the file and the table.
#[derive(Clone, Copy, Debug)]
pub(crate) struct Among<'a, 't> {
    /// Whether each state begins with the key.
    pub keyed: bool,
    /// The kinds of processes of the file.
    pub kinds: &'a [KindTable<'t>],
    /// The first process of the kind of the table.
    pub own: Option<u32>,
}

/// Reads the names that the rules of a file without kinds can use. A mistake comes if a name or a
/// number is none, there are too many, or a name is there twice.
pub(crate) fn scope_of(
    alloc: Global,
    table: &Table,
) -> Result<Result<Scope<'static, 'static>, Mistake>, AllocError>
    ensures ok { IfOk result (λ read. IfOk read (λ scope.
        parts_of (table_view table.now) ≡ Some (parts_view scope))) }
    ensures few { IfOk result (λ read. IfOk read (λ scope. length scope.words.items ≤ 16)) }
    ensures bad { IfOk result (λ read. IsErr read → parts_of (table_view table.now) ≡ None) }
{
    let alone = Among {
        keyed: false,
        kinds: &[],
        own: None,
    };
    scope_in(alloc, table, table, alone)
}

#[tactic(auto, unfolding(crate::specs::RuleFile::parts_in))]
/// Reads the names that the rules of a table in a file can use.
pub(crate) fn scope_in<'a, 't>(
    alloc: Global,
    file: &Table,
    table: &Table,
    at: Among<'a, 't>,
) -> Result<Result<Scope<'a, 't>, Mistake>, AllocError>
    ensures ok { IfOk result (λ read. IfOk read (λ scope.
        parts_in (setting_view at.entry) (table_view file.now) (table_view table.now)
        ≡ Some (parts_view scope))) }
    ensures few { IfOk result (λ read. IfOk read (λ scope. length scope.words.items ≤ 16)) }
    ensures bad { IfOk result (λ read. IsErr read →
        parts_in (setting_view at.entry) (table_view file.now) (table_view table.now) ≡ None) }
{
    let Some(StateNames { words, arrays }) = state_in(alloc, table, at.keyed)? else {
        return Ok(Err(NO_STATE));
    };
    let Some(content) = content_of(alloc, has_sorts(file), table)? else {
        return Ok(Err(NO_MESSAGE));
    };
    let Some(numbers) = numbers_of(alloc, file)? else {
        return Ok(Err(NO_NUMBERS));
    };
    let Some(tables) = tables_of(alloc, file)? else {
        return Ok(Err(NO_TABLES));
    };
    let Some(sorts) = sorts_of(alloc, file)? else {
        return Ok(Err(NO_SORTS));
    };
    let fields = fields_of(alloc, sorts.as_slice())?;
    let scope = Scope {
        words,
        arrays,
        content,
        numbers,
        tables,
        sorts,
        fields,
        kinds: at.kinds,
        own: at.own,
    };
    if has_distinct_names(alloc, &scope)? {
        Ok(Ok(scope))
    } else {
        Ok(Err(NAMED_TWICE))
    }
}

pub(crate) const WORDS: &str = "a list of names and arrays, at most 16 words";

pub(crate) const CONTENT: &str = "a list of at most 4 names";

pub(crate) const SORTS: &str =
    "at most 1024 names with lists of at most 3 names, each at one place";

pub(crate) const NUMBERS: &str = "at most 1024 names with numbers from 0 to 9223372036854775807";

pub(crate) const TABLES: &str =
    "at most 1024 names with lists of one or more numbers, at most 1048576 in all";

pub(crate) const TWICE: &str = "names that are nowhere else in state, message, numbers and tables";

const NO_STATE: Mistake = Mistake::Not {
    key: "state",
    expected: WORDS,
};

const NO_MESSAGE: Mistake = Mistake::Not {
    key: "message",
    expected: CONTENT,
};

const NO_SORTS: Mistake = Mistake::Not {
    key: "messages",
    expected: SORTS,
};

const NO_NUMBERS: Mistake = Mistake::Not {
    key: "numbers",
    expected: NUMBERS,
};

pub(crate) const NO_TABLES: Mistake = Mistake::Not {
    key: "tables",
    expected: TABLES,
};

const NAMED_TWICE: Mistake = Mistake::Not {
    key: "state",
    expected: TWICE,
};

#[tactic(auto, unfolding(crate::specs::RuleFile::state_of))]
/// Reads the words and the arrays of the state.
pub(crate) fn state_of(alloc: Global, table: &Table) -> Result<Option<StateNames>, AllocError>
    ensures state { IfOk result (λ found. option_map state_view found
        ≡ state_of (table_view table.now)) }
    ensures few { IfOk result (λ found. IfSome found (λ s. length s.words.items ≤ 16)) }
{
    match value_at(table, "state") {
        Some(value) => match value.as_array() {
            Some(items) => state_among(alloc, items.as_slice()),
            None => Ok(None),
        },
        None => Ok(None),
    }
}

/// Reads the words and the arrays of the state, after the key if each state begins with it.
fn state_in(alloc: Global, table: &Table, keyed: bool) -> Result<Option<StateNames>, AllocError>
    ensures state { IfOk result (λ found. option_map state_view found
        ≡ option_and_then (state_in keyed) (state_of (table_view table.now))) }
    ensures few { IfOk result (λ found. IfSome found (λ s. length s.words.items ≤ 16)) }
{
    let Some(state) = state_of(alloc, table)? else {
        return Ok(None);
    };
    if keyed {
        key_first(alloc, state)
    } else {
        Ok(Some(state))
    }
}

/// Reads the words and the arrays that items declare.
fn state_among(alloc: Global, items: &[Value]) -> Result<Option<StateNames>, AllocError>
    ensures state { IfOk result (λ found. option_map state_view found
        ≡ state_behind no_state (items_view items.now)) }
    ensures few { IfOk result (λ found. IfSome found (λ s. length s.words.items ≤ 16)) }
{
    let mut state = StateNames {
        words: Vec::new(alloc),
        arrays: Vec::new(alloc),
    };
    'items: for item in items {
        let Some(text) = item.as_str() else {
            return Ok(None);
        };
        if !put_item(alloc, text, &mut state)? {
            return Ok(None);
        }
    }
    Ok(Some(state))
}

#[tactic(auto, unfolding(crate::specs::RuleFile::content_of))]
/// Reads the words of content that have a name: at most 4, and none if sorts name them.
pub(crate) fn content_of(
    alloc: Global,
    sorted: bool,
    table: &Table,
) -> Result<Option<Vec<String>>, AllocError>
    ensures { IfOk result (λ found. option_map (λ v. map string_bytes v.items) found
        ≡ content_of sorted (table_view table.now)) }
{
    match value_at(table, "message") {
        Some(_) if sorted => Ok(None),
        Some(value) => words_in(alloc, value, 4),
        None => Ok(Some(Vec::new(alloc))),
    }
}

/// Returns whether sorts name the words of content.
pub(crate) fn has_sorts(table: &Table) -> bool
    ensures { result ≡ has_sorts (table_view table.now) }
{
    value_at(table, "messages").is_some()
}

/// Reads a list of at most `most` names.
fn words_in(alloc: Global, value: &Value, most: usize) -> Result<Option<Vec<String>>, AllocError>
    ensures words { IfOk result (λ found. option_map (λ v. map string_bytes v.items) found
        ≡ option_and_then (at_most most) (words_in (view value.now))) }
    ensures few { IfOk result (λ found. IfSome found (λ v. length v.items ≤ most)) }
{
    let Some(items) = value.as_array() else {
        return Ok(None);
    };
    let Some(words) = words_among(alloc, items.as_slice())? else {
        return Ok(None);
    };
    if words.len() <= most {
        Ok(Some(words))
    } else {
        Ok(None)
    }
}

/// Reads a name from each item.
fn words_among(alloc: Global, items: &[Value]) -> Result<Option<Vec<String>>, AllocError>
    ensures { IfOk result (λ found. option_map (λ v. map string_bytes v.items) found
        ≡ all_of word_in (items_view items.now)) }
{
    let mut words = Vec::new(alloc);
    for item in items {
        match word_in(item) {
            Some(word) => words.push(String::from_str(alloc, word)?)?,
            None => return Ok(None),
        }
    }
    Ok(Some(words))
}

#[tactic(auto, unfolding(crate::specs::RuleFile::word_in))]
/// Reads a name from a value.
pub(crate) fn word_in(value: &Value) -> Option<&str>
    ensures { option_map (λ s. s.now) result ≡ word_in (view value.now) }
{
    match value.as_str() {
        Some(word) if is_name(word) => Some(word),
        _ => None,
    }
}

#[tactic(auto, unfolding(crate::specs::RuleFile::numbers_of))]
/// Reads the named numbers, at most 1,024.
pub(crate) fn numbers_of(alloc: Global, table: &Table) -> Result<Option<Vec<Named>>, AllocError>
    ensures { IfOk result (λ found. option_map (λ v. map named_view v.items) found
        ≡ numbers_of (table_view table.now)) }
{
    named_at(alloc, table, "numbers", false)
}

#[tactic(auto, unfolding(crate::specs::RuleFile::tables_of))]
/// Reads the tables, at most 1,024: together at most 2^20 numbers.
pub(crate) fn tables_of(alloc: Global, table: &Table) -> Result<Option<Vec<Named>>, AllocError>
    ensures { IfOk result (λ found. option_map (λ v. map named_view v.items) found
        ≡ tables_of (table_view table.now)) }
{
    let Some(tables) = named_at(alloc, table, "tables", true)? else {
        return Ok(None);
    };
    if all_numbers(tables.as_slice()) <= 1 << 20 {
        Ok(Some(tables))
    } else {
        Ok(None)
    }
}

/// Reads the sorts of messages, at most 1,024, if a field that several have stands at the same
/// place in each.
pub(crate) fn sorts_of(alloc: Global, table: &Table) -> Result<Option<Vec<NamedSort>>, AllocError>
    ensures { IfOk result (λ found. option_map (λ v. map sort_view v.items) found
        ≡ sorts_of (table_view table.now)) }
{
    let Some(sorts) = named_sorts_of(alloc, table)? else {
        return Ok(None);
    };
    if are_apart(alloc, sorts.as_slice())? {
        Ok(Some(sorts))
    } else {
        Ok(None)
    }
}

/// Returns whether a field that several sorts have stands at the same place in each.
fn are_apart(alloc: Global, sorts: &[NamedSort]) -> Result<bool, AllocError>
    ensures { IfOk result (λ holds. holds ≡ are_apart (map sort_view sorts.now)) }
{
    let fields = fields_of(alloc, sorts)?;
    are_distinct_fields(alloc, fields.as_slice())
}

#[tactic(auto, unfolding(crate::specs::RuleFile::named_sorts_of))]
/// Reads the sorts of messages, at most 1,024.
pub(crate) fn named_sorts_of(
    alloc: Global,
    table: &Table,
) -> Result<Option<Vec<NamedSort>>, AllocError>
    ensures { IfOk result (λ found. option_map (λ v. map sort_view v.items) found
        ≡ named_sorts_of (table_view table.now)) }
{
    match value_at(table, "messages") {
        Some(value) => match value.as_table() {
            Some(sorts) => few_sorts_in(alloc, sorts),
            None => Ok(None),
        },
        None => Ok(Some(Vec::new(alloc))),
    }
}

/// Reads the sorts of a table of at most `MAX_NAMED` names.
fn few_sorts_in(alloc: Global, table: &Table) -> Result<Option<Vec<NamedSort>>, AllocError>
    ensures { IfOk result (λ found. option_map (λ v. map sort_view v.items) found
        ≡ option_and_then (at_most 1024) (named_in fields_in (table_view table.now))) }
{
    let Some(sorts) = sorts_in(alloc, table)? else {
        return Ok(None);
    };
    if sorts.len() <= MAX_NAMED {
        Ok(Some(sorts))
    } else {
        Ok(None)
    }
}

/// Reads the sorts of a table.
fn sorts_in(alloc: Global, table: &Table) -> Result<Option<Vec<NamedSort>>, AllocError>
    ensures { IfOk result (λ found. option_map (λ v. map sort_view v.items) found
        ≡ named_in fields_in (table_view table.now)) }
{
    let mut all = Vec::new(alloc);
    'names: for (key, value) in table.iter() {
        let text = key.as_str();
        if !is_name(text) {
            return Ok(None);
        }
        let Some(fields) = fields_in(alloc, value)? else {
            return Ok(None);
        };
        let name = String::from_str(alloc, text)?;
        all.push(NamedSort { name, fields })?;
    }
    Ok(Some(all))
}

#[tactic(auto, unfolding(crate::specs::RuleFile::fields_in))]
/// Reads the names of a sort's fields, at most 3.
fn fields_in(alloc: Global, value: &Value) -> Result<Option<Vec<String>>, AllocError>
    ensures { IfOk result (λ found. option_map (λ v. map string_bytes v.items) found
        ≡ fields_in (view value.now)) }
{
    words_in(alloc, value, 3)
}

/// Returns the fields of all sorts: one that several sorts have at the same place comes once.
pub(crate) fn fields_of(alloc: Global, sorts: &[NamedSort]) -> Result<Vec<Field>, AllocError>
    ensures { IfOk result (λ fields. map field_view fields.items
        ≡ fields_of (map sort_view sorts.now)) }
{
    let mut fields = Vec::new(alloc);
    'sorts: for sort in sorts {
        put_fields(alloc, sort.fields.as_slice(), &mut fields)?;
    }
    Ok(fields)
}

/// Adds the fields of a sort.
fn put_fields(alloc: Global, names: &[String], fields: &mut Vec<Field>) -> Result<(), AllocError>
    ensures { OnOk result (map field_view fields.new.items
        ≡ with_fields (map field_view fields.old.items) 1 (map string_bytes names.now)) }
{
    let mut place: u8 = 1;
    'fields: for name in names {
        put_field(alloc, name.as_str(), place, fields)?;
        place = place.saturating_add(1);
    }
    Ok(())
}

/// Adds a field, unless it is there at this place or its name is `_`.
fn put_field(
    alloc: Global,
    name: &str,
    place: u8,
    fields: &mut Vec<Field>,
) -> Result<(), AllocError>
    ensures { OnOk result (map field_view fields.new.items
        ≡ with_field (map field_view fields.old.items) name.now place) }
{
    if name == "_" || is_field(fields.as_slice(), name, place) {
        return Ok(());
    }
    let name = String::from_str(alloc, name)?;
    fields.push(Field { name, place })?;
    Ok(())
}

/// Returns whether there is a field of this name at this place.
fn is_field(fields: &[Field], name: &str, place: u8) -> bool
    ensures { result ≡ is_field (map field_view fields.now) name.now place }
{
    for field in fields {
        if field.name.as_str() == name && field.place == place {
            return true;
        }
    }
    false
}

/// Returns how many numbers there are in all, or the greatest number of its type if there are more.
fn all_numbers(named: &[Named]) -> usize
    ensures { result ≡ min (all_numbers (map named_view named.now)) (2 ^ 64 - 1) }
{
    let mut count: usize = 0;
    'named: for one in named {
        count = count.saturating_add(one.numbers.len());
    }
    count
}

/// Reads the numbers of each name in the table at a key, at most `MAX_NAMED` names, or nothing if
/// the key is missing.
fn named_at(
    alloc: Global,
    table: &Table,
    key: &str,
    is_table: bool,
) -> Result<Option<Vec<Named>>, AllocError>
    ensures { IfOk result (λ found. option_map (λ v. map named_view v.items) found
        ≡ named_or_none (numbers_in is_table) (get_member key.now (table_view table.now))) }
{
    match value_at(table, key) {
        Some(value) => match value.as_table() {
            Some(table) => few_named_in(alloc, table, is_table),
            None => Ok(None),
        },
        None => Ok(Some(Vec::new(alloc))),
    }
}

/// The most named numbers of a model, and the most tables.
const MAX_NAMED: usize = 1024;

/// Reads the numbers of each name in a table of at most `MAX_NAMED` names.
fn few_named_in(
    alloc: Global,
    table: &Table,
    is_table: bool,
) -> Result<Option<Vec<Named>>, AllocError>
    ensures { IfOk result (λ found. option_map (λ v. map named_view v.items) found
        ≡ option_and_then (at_most 1024) (named_in (numbers_in is_table) (table_view table.now))) }
{
    let Some(named) = named_in(alloc, table, is_table)? else {
        return Ok(None);
    };
    if named.len() <= MAX_NAMED {
        Ok(Some(named))
    } else {
        Ok(None)
    }
}

/// Returns the value at a key.
pub(crate) fn value_at<'a>(table: &'a Table, key: &str) -> Option<&'a Value>
    ensures { option_map (λ v. view v.now) result ≡ get_member key.now (table_view table.now) }
{
    table.get(key)
}

/// Reads the numbers of each name in a table.
fn named_in(alloc: Global, table: &Table, is_table: bool) -> Result<Option<Vec<Named>>, AllocError>
    ensures { IfOk result (λ found. option_map (λ v. map named_view v.items) found
        ≡ named_in (numbers_in is_table) (table_view table.now)) }
{
    let mut all = Vec::new(alloc);
    'names: for (key, value) in table.iter() {
        let text = key.as_str();
        if !is_name(text) {
            return Ok(None);
        }
        let Some(numbers) = numbers_in(alloc, value, is_table)? else {
            return Ok(None);
        };
        let name = String::from_str(alloc, text)?;
        all.push(Named { name, numbers })?;
    }
    Ok(Some(all))
}

#[tactic(auto, unfolding(crate::specs::RuleFile::numbers_in))]
/// Reads a number as a list of one, or a list of one or more.
fn numbers_in(alloc: Global, value: &Value, is_table: bool) -> Result<Option<Vec<u64>>, AllocError>
    ensures { IfOk result (λ found. option_map (λ v. v.items) found
        ≡ numbers_in is_table (view value.now)) }
{
    if is_table {
        return some_numbers(alloc, value);
    }
    let Some(number) = number_in(value) else {
        return Ok(None);
    };
    let mut numbers = Vec::new(alloc);
    numbers.push(number)?;
    Ok(Some(numbers))
}

/// Reads a list of one or more numbers.
fn some_numbers(alloc: Global, value: &Value) -> Result<Option<Vec<u64>>, AllocError>
    ensures { IfOk result (λ found. option_map (λ v. v.items) found
        ≡ option_and_then some_numbers (option_and_then (all_of number_in)
        (as_array (view value.now)))) }
{
    let Some(items) = value.as_array() else {
        return Ok(None);
    };
    let Some(numbers) = numbers_among(alloc, items.as_slice())? else {
        return Ok(None);
    };
    if numbers.is_empty() {
        Ok(None)
    } else {
        Ok(Some(numbers))
    }
}

/// Reads a number from each item.
fn numbers_among(alloc: Global, items: &[Value]) -> Result<Option<Vec<u64>>, AllocError>
    ensures { IfOk result (λ found. option_map (λ v. v.items) found
        ≡ all_of number_in (items_view items.now)) }
{
    let mut numbers = Vec::new(alloc);
    for item in items {
        match number_in(item) {
            Some(number) => numbers.push(number)?,
            None => return Ok(None),
        }
    }
    Ok(Some(numbers))
}

/// Reads a number from 0 to 2^63 - 1.
pub(crate) fn number_in(value: &Value) -> Option<u64>
    ensures { result ≡ number_in (view value.now) }
{
    match value.as_integer() {
        Some(number) => u64::try_from(number).ok(),
        None => None,
    }
}

/// Returns whether the words and the arrays of the state can be read.
pub(crate) fn has_words(alloc: Global, table: &Table) -> Result<bool, AllocError>
    ensures { IfOk result (λ holds. holds ≡ is_some (state_of (table_view table.now))) }
{
    match state_of(alloc, table)? {
        Some(_) => Ok(true),
        None => Ok(false),
    }
}

/// Returns whether the words of content can be read.
pub(crate) fn has_content(alloc: Global, sorted: bool, table: &Table) -> Result<bool, AllocError>
    ensures { IfOk result (λ holds. holds ≡ is_some (content_of sorted (table_view table.now))) }
{
    match content_of(alloc, sorted, table)? {
        Some(_) => Ok(true),
        None => Ok(false),
    }
}

/// Returns whether the named numbers can be read.
pub(crate) fn has_numbers(alloc: Global, table: &Table) -> Result<bool, AllocError>
    ensures { IfOk result (λ holds. holds ≡ is_some (numbers_of (table_view table.now))) }
{
    match numbers_of(alloc, table)? {
        Some(_) => Ok(true),
        None => Ok(false),
    }
}

/// Returns whether the tables can be read.
pub(crate) fn has_tables(alloc: Global, table: &Table) -> Result<bool, AllocError>
    ensures { IfOk result (λ holds. holds ≡ is_some (tables_of (table_view table.now))) }
{
    match tables_of(alloc, table)? {
        Some(_) => Ok(true),
        None => Ok(false),
    }
}

/// Returns whether the sorts of messages can be read.
pub(crate) fn are_sorts(alloc: Global, table: &Table) -> Result<bool, AllocError>
    ensures { IfOk result (λ holds. holds ≡ is_some (sorts_of (table_view table.now))) }
{
    match sorts_of(alloc, table)? {
        Some(_) => Ok(true),
        None => Ok(false),
    }
}

/// Returns whether all names can be read, and none is there twice.
pub(crate) fn has_scope(alloc: Global, table: &Table) -> Result<bool, AllocError>
    ensures { IfOk result (λ holds. holds ≡ is_some (parts_of (table_view table.now))) }
{
    match scope_of(alloc, table)? {
        Ok(_) => Ok(true),
        Err(_) => Ok(false),
    }
}
