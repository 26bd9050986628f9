// Kinds of processes in the file of a model by rules.

ghost use Rattle.std.specs.Prelude.{◌≡◌, ◌==◌, ◌≤◌, ◌+◌, IfOk, IfSome, length, map, option_and_then};
ghost use Rattle.std.specs.Prelude.{option_map, string_bytes};
ghost use Rattle.rule_files.specs.Kinds.{count_of, has_key, has_kinds, is_keyed, kind_in};
ghost use Rattle.rule_files.specs.Kinds.{kind_keys, kind_tables, kinds_from, kinds_of, name_of};
ghost use Rattle.rule_files.specs.Kinds.{processes_from, some_kinds, tables_among};
ghost use Rattle.rule_files.specs.KindViews.{kinds_view};
ghost use Rattle.rule_files.specs.RuleFile.{kind_view, state_of};
ghost use Rattle.texts.specs.ModelFile.{unknown_wrong};
ghost use Rattle.toml.specs.View.{items_view, table_view};

use crate::dictionary::has_key as has_key_among;
use crate::entries::{state_of, value_at, word_in};
use std::alloc::{AllocError, Global};
use texts::{number_at, only};
use toml::{Table, Value};

/// A kind of processes.
#[derive(Debug, Drop)]
pub struct KindHead {
    /// The name.
    pub name: String,
    /// The first process.
    pub first: u32,
    /// The number of processes, 1 to 65,536.
    pub count: u32,
}

/// A kind of processes and its table.
#[derive(Debug, Drop)]
pub struct KindTable<'a> {
    /// The kind.
    pub head: KindHead,
    /// The table with its state and its rules.
    pub table: &'a Table,
}

/// The kinds of a file.
#[derive(Debug, Drop)]
pub(crate) struct Kinds<'a> {
    /// The kinds, in the order of their processes.
    pub all: Vec<KindTable<'a>>,
    /// The number of processes, 1 to 65,536.
    pub lps: u32,
}

/// The keys of the table of a kind.
pub(crate) const KIND_KEYS: [&str; 6] = ["name", "count", "state", "message", "start", "handle"];

/// The most processes of all kinds.
const MOST: u64 = 65_536;

/// Returns whether a file has kinds of processes.
pub(crate) fn has_kinds(file: &Table) -> bool
    ensures { result ≡ has_kinds (table_view file.now) }
{
    value_at(file, "kind").is_some()
}

#[tactic(auto, unfolding(crate::specs::Kinds::kind_tables))]
/// Returns the tables of the kinds, if there are 1 to 64.
pub(crate) fn kind_tables<'a>(
    alloc: Global,
    file: &'a Table,
) -> Result<Option<Vec<&'a Table>>, AllocError>
    ensures { IfOk result (λ found. option_map (λ v. map (λ t. table_view t.now) v.items) found
        ≡ kind_tables (table_view file.now)) }
{
    let Some(value) = value_at(file, "kind") else {
        return Ok(None);
    };
    let Some(items) = value.as_array() else {
        return Ok(None);
    };
    let Some(tables) = tables_among(alloc, items.as_slice())? else {
        return Ok(None);
    };
    if 1 <= tables.len() && tables.len() <= 64 {
        Ok(Some(tables))
    } else {
        Ok(None)
    }
}

/// Returns the items of a list, if each is a table.
fn tables_among<'a>(alloc: Global, items: &'a [Value]) -> Result<Option<Vec<&'a Table>>, AllocError>
    ensures { IfOk result (λ found. option_map (λ v. map (λ t. table_view t.now) v.items) found
        ≡ tables_among (items_view items.now)) }
{
    let mut tables = Vec::new(alloc);
    'items: for item in items {
        match item.as_table() {
            Some(table) => tables.push(table)?,
            None => return Ok(None),
        }
    }
    Ok(Some(tables))
}

/// Returns the name of a kind.
pub(crate) fn name_of(table: &Table) -> Option<&str>
    ensures { option_map (λ s. s.now) result ≡ name_of (table_view table.now) }
{
    match value_at(table, "name") {
        Some(value) => word_in(value),
        None => None,
    }
}

/// Returns the number of processes of a kind.
pub(crate) fn count_of(table: &Table) -> Option<u64>
    ensures count { result ≡ count_of (table_view table.now) }
    ensures within { IfSome result (λ n. (1 ≤ n) × (n ≤ 65536)) }
{
    number_at(table, "count", 1, MOST).ok()
}

/// Returns whether the table of a kind has no keys but those of a kind.
fn has_kind_keys(table: &Table) -> bool
    ensures { result ≡ (length (unknown_wrong kind_keys (table_view table.now)) == 0) }
{
    only(table, &KIND_KEYS).is_ok()
}

#[tactic(auto, unfolding(crate::specs::Kinds::kind_in))]
/// Reads a kind whose processes begin at `first`, if these are at most 65,536 in all.
fn kind_in(alloc: Global, first: u32, table: &Table) -> Result<Option<KindHead>, AllocError>
    requires { first ≤ 65536 }
    ensures kind { IfOk result (λ found. option_map kind_view found
        ≡ kind_in first (table_view table.now)) }
    ensures within { IfOk result (λ found. IfSome found (λ k.
        (1 ≤ k.count) × (first + k.count ≤ 65536))) }
{
    if !has_kind_keys(table) {
        return Ok(None);
    }
    let Some(name) = name_of(table) else {
        return Ok(None);
    };
    let Some(count) = count_of(table) else {
        return Ok(None);
    };
    if u64::from(first) + count > MOST {
        return Ok(None);
    }
    let name = String::from_str(alloc, name)?;
    Ok(Some(KindHead {
        name,
        first,
        count: count as u32,
    }))
}

/// Reads the kinds of these tables, one after the other.
fn kinds_from<'a>(alloc: Global, tables: &[&'a Table]) -> Result<Option<Kinds<'a>>, AllocError>
    requires { 1 ≤ length tables.now }
    ensures kinds { IfOk result (λ found. option_map (λ k. kinds_view k.all.items) found
        ≡ kinds_from 0 (map (λ t. table_view t.now) tables.now)) }
    ensures lps { IfOk result (λ found. IfSome found (λ k.
        k.lps ≡ processes_from 0 (kinds_view k.all.items))) }
    ensures within { IfOk result (λ found. IfSome found (λ k. (1 ≤ k.lps) × (k.lps ≤ 65536))) }
{
    let mut all = Vec::new(alloc);
    let mut lps: u32 = 0;
    'tables: for table in tables {
        let Some(head) = kind_in(alloc, lps, *table)? else {
            return Ok(None);
        };
        lps += head.count;
        all.push(KindTable {
            head,
            table: *table,
        })?;
    }
    Ok(Some(Kinds { all, lps }))
}

#[tactic(auto, unfolding(crate::specs::Kinds::kinds_of))]
/// Reads the kinds of a file: 1 to 64, with at most 65,536 processes in all.
pub(crate) fn kinds_of<'a>(alloc: Global, file: &'a Table) -> Result<Option<Kinds<'a>>, AllocError>
    ensures kinds { IfOk result (λ found. option_map (λ k. kinds_view k.all.items) found
        ≡ kinds_of (table_view file.now)) }
    ensures lps { IfOk result (λ found. IfSome found (λ k.
        k.lps ≡ processes_from 0 (kinds_view k.all.items))) }
    ensures within { IfOk result (λ found. IfSome found (λ k. (1 ≤ k.lps) × (k.lps ≤ 65536))) }
{
    match kind_tables(alloc, file)? {
        Some(tables) => kinds_from(alloc, tables.as_slice()),
        None => Ok(None),
    }
}

/// Returns whether the state of a kind has the key.
fn has_key(alloc: Global, table: &Table) -> Result<bool, AllocError>
    ensures { IfOk result (λ holds. holds ≡ has_key (state_of (table_view table.now))) }
{
    match state_of(alloc, table)? {
        Some(state) => Ok(has_key_among(state.words.as_slice())),
        None => Ok(false),
    }
}

/// Returns whether some kind has the key.
pub(crate) fn is_keyed(alloc: Global, kinds: &[KindTable<'_>]) -> Result<bool, AllocError>
    ensures { IfOk result (λ holds. holds ≡ is_keyed (kinds_view kinds.now)) }
{
    'kinds: for kind in kinds {
        if has_key(alloc, kind.table)? {
            return Ok(true);
        }
    }
    Ok(false)
}
