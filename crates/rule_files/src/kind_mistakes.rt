// The mistakes in the file of a model with kinds of processes.

ghost use Rattle.std.specs.Prelude.{◌≡◌, ◌++◌, ◌^◌, IfOk, None, OnOk, Some, codes, map};
ghost use Rattle.rule_files.specs.FileTable.{all_wrong, both_wrong, each_wrong, heads_of};
ghost use Rattle.rule_files.specs.FileTable.{kind_seed_wrong, kind_wrong, kinds_head_wrong};
ghost use Rattle.rule_files.specs.FileTable.{kinds_rest_of, kinds_table_wrong, short_wrong};
ghost use Rattle.rule_files.specs.Kinds.{is_keyed, kind_tables, kinds_of, setting};
ghost use Rattle.rule_files.specs.KindViews.{kinds_view};
ghost use Rattle.rule_files.specs.RuleFile.{has_sorts, kind_view, parts_in, parts_view};
ghost use Rattle.texts.specs.ModelFile.{words_wrong};
ghost use Rattle.toml.specs.View.{table_view};

use crate::described::{RULE, SEED, inside_of, look_at_list, seed_of};
use crate::entries::{
    CONTENT, NUMBERS, SORTS, TABLES, WORDS, are_sorts, has_content, has_numbers, has_sorts,
    has_tables, has_words,
};
use crate::kind_rules::{KINDS_KEYS, key_place, scope_of_kind, short_rule_at};
use crate::kinds::{KIND_KEYS, KindTable, count_of, is_keyed, kind_tables, kinds_of, name_of};
use crate::naming::twice_in;
use crate::scope::Scope;
use eventkey::MOST_END;
use std::alloc::{AllocError, Global};
use texts::Findings;
use toml::Table;

const ITEMS: &str = "1 to 64 tables";

const FEW: &str = "tables with at most 65536 processes in all";

const NAME: &str = "a name";

const COUNT: &str = "a whole number from 1 to 65536";

const APART: &str = "at most 16 words with the key, with names that are nowhere else";

/// Finds all mistakes in a file with kinds: those of the seed and the rules if there are no others.
pub(crate) fn kinds_mistakes_of(alloc: Global, table: &Table) -> Result<Findings, AllocError>
    ensures { IfOk result (λ found. found ≡ kinds_table_wrong (table_view table.now)) }
{
    let mut found = Findings::new(alloc);
    look_at_heads(alloc, table, &mut found)?;
    if found.as_slice().len() == 0 {
        look_at_kinds(alloc, table, &mut found)?;
    }
    Ok(found)
}

/// Checks what a file has beside the seed and the rules.
fn look_at_heads(alloc: Global, table: &Table, found: &mut Findings) -> Result<(), AllocError>
    ensures { OnOk result (found.new ≡ found.old ++ kinds_head_wrong (table_view table.now)) }
{
    let sorts = are_sorts(alloc, table)?;
    let numbers = has_numbers(alloc, table)?;
    let tables = has_tables(alloc, table)?;
    found.number_at(alloc, table, "end", 1, MOST_END)?;
    look_at_list(alloc, table, "messages", SORTS, sorts, found)?;
    look_at_list(alloc, table, "numbers", NUMBERS, numbers, found)?;
    look_at_list(alloc, table, "tables", TABLES, tables, found)?;
    look_at_tables(alloc, table, found)?;
    found.others(alloc, table, &KINDS_KEYS)
}

/// Checks the table of each kind.
fn look_at_tables(alloc: Global, table: &Table, found: &mut Findings) -> Result<(), AllocError>
    ensures { OnOk result (found.new ≡ found.old
        ++ heads_of (kind_tables (table_view table.now)) (table_view table.now)) }
{
    match kind_tables(alloc, table)? {
        Some(tables) => look_at_each(alloc, has_sorts(table), tables.as_slice(), found),
        None => found.words_at(alloc, table, "kind", ITEMS, false),
    }
}

/// Checks each of these tables of kinds.
fn look_at_each(
    alloc: Global,
    sorted: bool,
    tables: &[&Table],
    found: &mut Findings,
) -> Result<(), AllocError>
    ensures { OnOk result (found.new ≡ found.old
        ++ each_wrong sorted (map (λ t. table_view t.now) tables.now)) }
{
    'tables: for table in tables {
        look_at_kind(alloc, sorted, *table, found)?;
    }
    Ok(())
}

/// Checks the table of a kind, apart from its rules.
fn look_at_kind(
    alloc: Global,
    sorted: bool,
    table: &Table,
    found: &mut Findings,
) -> Result<(), AllocError>
    ensures { OnOk result (found.new ≡ found.old ++ kind_wrong sorted (table_view table.now)) }
{
    let words = has_words(alloc, table)?;
    let content = has_content(alloc, sorted, table)?;
    found.words_at(alloc, table, "name", NAME, name_of(table).is_some())?;
    found.words_at(alloc, table, "count", COUNT, count_of(table).is_some())?;
    look_at_list(alloc, table, "state", WORDS, words, found)?;
    look_at_list(alloc, table, "message", CONTENT, content, found)?;
    found.others(alloc, table, &KIND_KEYS)
}

/// Checks the number of processes, the seed and the rules.
fn look_at_kinds(alloc: Global, table: &Table, found: &mut Findings) -> Result<(), AllocError>
    ensures { OnOk result (found.new ≡ found.old
        ++ kinds_rest_of (kinds_of (table_view table.now)) (table_view table.now)) }
{
    match kinds_of(alloc, table)? {
        Some(kinds) => look_at_all(alloc, table, kinds.all.as_slice(), found),
        None => found.words_at(alloc, table, "kind", FEW, false),
    }
}

/// Checks the seed and the rules of all kinds.
fn look_at_all(
    alloc: Global,
    table: &Table,
    kinds: &[KindTable<'_>],
    found: &mut Findings,
) -> Result<(), AllocError>
    ensures { OnOk result (found.new ≡ found.old
        ++ (kind_seed_wrong (is_keyed (kinds_view kinds.now)) (table_view table.now)
        ++ all_wrong (table_view table.now) (kinds_view kinds.now) (kinds_view kinds.now))) }
{
    let keyed = is_keyed(alloc, kinds)?;
    let seed = seed_of(key_place(keyed), table);
    found.words_at(alloc, table, "seed", SEED, seed.is_some())?;
    look_at_rules(alloc, table, kinds, keyed, found)
}

/// Checks the rules of each kind.
fn look_at_rules(
    alloc: Global,
    table: &Table,
    kinds: &[KindTable<'_>],
    keyed: bool,
    found: &mut Findings,
) -> Result<(), AllocError>
    requires { keyed ≡ is_keyed (kinds_view kinds.now) }
    ensures { OnOk result (found.new ≡ found.old
        ++ all_wrong (table_view table.now) (kinds_view kinds.now) (kinds_view kinds.now)) }
{
    'kinds: for kind in kinds {
        match scope_of_kind(alloc, table, kinds, keyed, kind)? {
            Ok(scope) => look_at_both(alloc, &scope, kind.table, found)?,
            Err(_) => look_at_names(alloc, table, kinds, kind.table, found)?,
        }
    }
    Ok(())
}

/// Adds a finding for the names of a kind that are not apart, or for too many words with the key.
fn look_at_names(
    alloc: Global,
    file: &Table,
    kinds: &[KindTable<'_>],
    table: &Table,
    found: &mut Findings,
) -> Result<(), AllocError>
    ensures { OnOk result (found.new ≡ found.old ++ both_wrong None (table_view table.now)) }
{
    let inside = twice_in(alloc, file, table, kinds)?;
    found.inside_at(alloc, table, "state", APART, false, inside)
}

/// Checks both rules of a kind.
fn look_at_both(
    alloc: Global,
    scope: &Scope<'_, '_>,
    table: &Table,
    found: &mut Findings,
) -> Result<(), AllocError>
    ensures { OnOk result (found.new ≡ found.old
        ++ both_wrong (Some (parts_view scope.now)) (table_view table.now)) }
{
    look_at_short(alloc, scope, table, "start", found)?;
    look_at_short(alloc, scope, table, "handle", found)
}

/// Checks a rule of a kind.
fn look_at_short(
    alloc: Global,
    scope: &Scope<'_, '_>,
    table: &Table,
    key: &str,
    found: &mut Findings,
) -> Result<(), AllocError>
    ensures { OnOk result (found.new ≡ found.old
        ++ short_wrong key.now (table_view table.now) (parts_view scope.now)) }
{
    match short_rule_at(alloc, scope, table, key)? {
        Ok(_) => found.words_at(alloc, table, key, RULE, true),
        Err(mistake) => {
            let inside = inside_of(alloc, scope, table, key, &mistake)?;
            found.inside_at(alloc, table, key, RULE, false, inside)
        }
    }
}
