// Models by rules with kinds of processes.

ghost use Rattle.std.specs.Prelude.{◌≡◌, ◌≢◌, ◌≤◌, ◌<◌, ◌+◌, ◌^◌, ℕ, List, [], Err, IfErr, IfOk, IsErr};
ghost use Rattle.std.specs.Prelude.{None, Some, codes, false, true, is_ok, length, map, max, string_bytes};
ghost use Rattle.rule_files.specs.Digest.{state_words as state_words_of};
ghost use Rattle.rule_files.specs.FileTable.{IsKindsBody, IsKindsTable, is_rules, kinds_fit};
ghost use Rattle.rule_files.specs.FileTable.{kinds_head_wrong, kinds_keys, kinds_table_wrong};
ghost use Rattle.rule_files.specs.KindViews.{kinds_view, pair_view, rules_view};
ghost use Rattle.rule_files.specs.Kinds.{AreKinds, AreWithin, IsKind, IsRuleAt, all_fit, is_keyed, key_place};
ghost use Rattle.rule_files.specs.Kinds.{both_fit, kind_fits, setting, short_rule_fits};
ghost use Rattle.rule_files.specs.Kinds.{widest as widest_of};
ghost use Rattle.rule_files.specs.Reading.{MOST_STEPS};
ghost use Rattle.rule_files.specs.RuleFile.{Kind, kind_view, parts_in, parts_view};
ghost use Rattle.rules.specs.Costs.{cost_of_all};
ghost use Rattle.rules.specs.declared.limits.Limit.TheVariants.{Steps};
ghost use Rattle.rules.specs.Limits.{IsWithin};
ghost use Rattle.rules.specs.Rules.{Description};
ghost use Rattle.texts.specs.ModelFile.{number_at, unknown_wrong};
ghost use Rattle.toml.specs.Data.{Members};
ghost use Rattle.toml.specs.View.{table_view};

use crate::chosen::{Whole, by_kind};
use crate::described::{Body, NO_SEED, names_of, no_rule, rule_at, seed_of, tables_in};
use crate::digest::digest_of;
use crate::entries::{Among, NO_TABLES, scope_in, tables_of};
use crate::file_model::{Form, KindNames, ModelNames};
use crate::kinds::{KindHead, KindTable, Kinds, is_keyed, kinds_of};
use crate::reading::RuleMistake;
use crate::scope::Scope;
use crate::shown::shown_kinds;
use eventkey::MOST_END;
use rules::{Limit, Rules, RulesParts, Statement, block_cost};
use std::alloc::{AllocError, Global};
use texts::{Mistake, ModelFault, number_at, only};
use toml::Table;

/// The keys of a file with kinds.
pub(crate) const KINDS_KEYS: [&str; 7] = [
    "model", "end", "seed", "messages", "numbers", "tables", "kind",
];

const NO_KINDS: Mistake = Mistake::Not {
    key: "kind",
    expected: "1 to 64 tables, with at most 65536 processes in all",
};

/// The most steps of the rule of a kind.
const MOST_KIND_STEPS: u64 = 65_280;

/// What was read of a kind.
#[derive(Drop)]
pub(crate) struct KindRead {
    /// The number after its last process.
    pub end: u64,
    /// The words of its state.
    pub width: u8,
    /// What a process does when it starts.
    pub start: Vec<Statement>,
    /// What it does with a message.
    pub handle: Vec<Statement>,
}

/// Returns the model with kinds of processes that a table describes, the tick at which its run
/// ends, and its names.
pub(crate) fn kinds_model_of(
    alloc: Global,
    table: &Table,
) -> Result<(Rules, u64, ModelNames), ModelFault>
    requires { is_rules (table_view table.now) ≡ true }
    ensures ok { IfOk result (λ file.
        IsKindsTable (table_view table.now) file.0.description file.1) }
    ensures bad { (mistake : Mistake) → result ≡ Err (ModelFault.BadModel mistake) →
        (d : Description) (end : ℕ) → IsWithin d.start → IsWithin d.handle →
        ¬ IsKindsTable (table_view table.now) d end }
    ensures wrong { (mistake : Mistake) → result ≡ Err (ModelFault.BadModel mistake) →
        kinds_table_wrong (table_view table.now) ≢ [] }
    ensures some { IfOk result (λ file. 1 ≤ file.1) }
    ensures end { IfOk result (λ file. file.1 ≤ 2 ^ 40) }
{
    let end = match kinds_head_of(table) {
        Ok(end) => end,
        Err(mistake) => return Err(ModelFault::BadModel(mistake)),
    };
    let (lps, body) = match kinds_body_of(alloc, table) {
        Ok(Ok(body)) => body,
        Ok(Err(mistake)) => return Err(ModelFault::BadModel(mistake)),
        Err(_) => return Err(ModelFault::NoMemory),
    };
    let Body {
        width,
        key,
        seed,
        digest,
        tables,
        start,
        handle,
        names,
    } = body;
    let made = Rules::new(RulesParts {
        lps,
        digest,
        width,
        key,
        seed,
        tables,
        start,
        handle,
    });
    match made {
        Ok(rules) => Ok((rules, end, names)),
        Err(_) => Err(ModelFault::BadModel(NO_KINDS)),
    }
}

/// Returns the end of a file with kinds without unknown keys.
fn kinds_head_of(table: &Table) -> Result<u64, Mistake>
    ensures last { IfOk result (λ end.
        number_at (codes "end") 1 (2 ^ 40) (table_view table.now) ≡ Some end) }
    ensures only { IfOk result (λ _. unknown_wrong kinds_keys (table_view table.now) ≡ []) }
    ensures within { IfOk result (λ end. (1 ≤ end) × (end ≤ 2 ^ 40)) }
    ensures bad { IsErr result → kinds_head_wrong (table_view table.now) ≢ [] }
{
    let end = number_at(table, "end", 1, MOST_END)?;
    only(table, &KINDS_KEYS)?;
    Ok(end)
}

/// Reads the kinds of a file, the names and the rules of each.
fn kinds_body_of(alloc: Global, table: &Table) -> Result<Result<(u32, Body), Mistake>, AllocError>
    ensures ok { IfOk result (λ read. IfOk read (λ body.
        IsKindsBody (table_view table.now) (record {
          lps = body.0;
          digest = body.1.digest;
          width = body.1.width;
          key = body.1.key;
          seed = body.1.seed;
          tables = body.1.tables.items;
          start = body.1.start.items;
          handle = body.1.handle.items;
        }))) }
    ensures within { IfOk result (λ read. IfOk read (λ body.
        IsWithin body.1.start.items × IsWithin body.1.handle.items)) }
    ensures lps { IfOk result (λ read. IfOk read (λ body. (1 ≤ body.0) × (body.0 ≤ 65536))) }
    ensures width { IfOk result (λ read. IfOk read (λ body. body.1.width ≤ 16)) }
    ensures seed { IfOk result (λ read. IfOk read (λ body. body.1.seed < 2 ^ 63)) }
    ensures bad { IfOk result (λ read. IsErr read → kinds_fit (table_view table.now) ≡ false) }
{
    let Some(kinds) = kinds_of(alloc, table)? else {
        return Ok(Err(NO_KINDS));
    };
    let keyed = is_keyed(alloc, kinds.all.as_slice())?;
    let key = key_place(keyed);
    let Some(seed) = seed_of(key, table) else {
        return Ok(Err(NO_SEED));
    };
    let Some(named) = tables_of(alloc, table)? else {
        return Ok(Err(NO_TABLES));
    };
    let (read, names) = match read_kinds(alloc, table, kinds.all.as_slice(), keyed)? {
        Ok(read) => read,
        Err(mistake) => return Ok(Err(mistake)),
    };
    let width = widest(read.as_slice());
    let Whole { start, handle } = by_kind(alloc, read)?;
    let tables = tables_in(alloc, named.as_slice())?;
    let digest = digest_of(
        state_words(alloc, width, keyed)?.as_slice(),
        &[],
        seed,
        tables.as_slice(),
        start.as_slice(),
        handle.as_slice(),
    );
    Ok(Ok((
        kinds.lps,
        Body {
            width,
            key,
            seed,
            digest,
            tables,
            start,
            handle,
            names: by_names(alloc, names)?,
        },
    )))
}

/// Returns the place of the key in each state, if some kind has it.
pub(crate) fn key_place(keyed: bool) -> Option<u8>
    ensures { result ≡ key_place keyed }
{
    if keyed { Some(0) } else { None }
}

/// Returns the words of each state as the digest counts them.
fn state_words(alloc: Global, width: u8, keyed: bool) -> Result<Vec<String>, AllocError>
    ensures { IfOk result (λ words. map string_bytes words.items ≡ state_words_of keyed width) }
{
    let mut words = Vec::new(alloc);
    'places: for place in 0..width {
        let name = if keyed && place == 0 { "key" } else { "" };
        words.push(String::from_str(alloc, name)?)?;
    }
    Ok(words)
}

/// Returns the names of a model with kinds.
fn by_names(alloc: Global, kinds: Vec<KindNames>) -> Result<ModelNames, AllocError> {
    let shown = shown_kinds(alloc, kinds.as_slice())?;
    Ok(ModelNames {
        form: Form::Kinds(kinds),
        shown,
    })
}

/// Returns the most words of a state.
fn widest(kinds: &[KindRead]) -> u8
    ensures few { AreWithin (map rules_view kinds.now) → result ≤ 16 }
    ensures value { result ≡ widest_of 0 (map rules_view kinds.now) }
{
    let mut most = 0;
    'kinds: for kind in kinds {
        most = most.max(kind.width);
    }
    most
}

/// Reads the names and the rules of each kind.
fn read_kinds(
    alloc: Global,
    file: &Table,
    kinds: &[KindTable<'_>],
    keyed: bool,
) -> Result<Result<(Vec<KindRead>, Vec<KindNames>), Mistake>, AllocError>
    requires keyed { keyed ≡ is_keyed (kinds_view kinds.now) }
    ensures ok { IfOk result (λ read. IfOk read (λ all.
        AreKinds (table_view file.now) (kinds_view kinds.now) (kinds_view kinds.now)
        (map rules_view all.0.items))) }
    ensures within { IfOk result (λ read. IfOk read (λ all.
        AreWithin (map rules_view all.0.items))) }
    ensures bad { IfOk result (λ read. IsErr read →
        all_fit (table_view file.now) (kinds_view kinds.now) (kinds_view kinds.now) ≡ false) }
{
    let mut all = Vec::new(alloc);
    let mut names = Vec::new(alloc);
    'kinds: for kind in kinds {
        let scope = match scope_of_kind(alloc, file, kinds, keyed, kind)? {
            Ok(scope) => scope,
            Err(mistake) => return Ok(Err(mistake)),
        };
        match read_kind(alloc, &scope, kind)? {
            Ok(read) => all.push(read)?,
            Err(mistake) => return Ok(Err(mistake)),
        }
        names.push(names_of_kind(alloc, scope, kind)?)?;
    }
    Ok(Ok((all, names)))
}

/// Reads the names that the rules of a kind can use.
pub(crate) fn scope_of_kind<'a, 't>(
    alloc: Global,
    file: &Table,
    kinds: &'a [KindTable<'t>],
    keyed: bool,
    kind: &KindTable<'_>,
) -> Result<Result<Scope<'a, 't>, Mistake>, AllocError>
    requires keyed { keyed ≡ is_keyed (kinds_view kinds.now) }
    ensures ok { IfOk result (λ read. IfOk read (λ scope.
        parts_in (setting (kinds_view kinds.now) (kind_view kind.now.head)) (table_view file.now)
        (table_view kind.now.table.now) ≡ Some (parts_view scope))) }
    ensures few { IfOk result (λ read. IfOk read (λ scope. length scope.words.items ≤ 16)) }
    ensures bad { IfOk result (λ read. IsErr read →
        parts_in (setting (kinds_view kinds.now) (kind_view kind.now.head)) (table_view file.now)
        (table_view kind.now.table.now) ≡ None) }
{
    let at = Among {
        keyed,
        kinds,
        own: Some(kind.head.first),
    };
    scope_in(alloc, file, kind.table, at)
}

/// Reads the rules of a kind by these names.
fn read_kind(
    alloc: Global,
    scope: &Scope<'_, '_>,
    kind: &KindTable<'_>,
) -> Result<Result<KindRead, Mistake>, AllocError>
    requires { length scope.now.words.items ≤ 16 }
    ensures ok { IfOk result (λ read. IfOk read (λ r. (file : Members)
        (kinds : List (Kind × Members)) →
        parts_in (setting kinds (kind_view kind.now.head)) file (table_view kind.now.table.now)
        ≡ Some (parts_view scope.now) → IsKind file kinds (pair_view kind.now) (rules_view r))) }
    ensures within { IfOk result (λ read. IfOk read (λ r.
        IsWithin r.start.items × IsWithin r.handle.items × (r.width ≤ 16))) }
    ensures bad { IfOk result (λ read. IsErr read →
        both_fit (Some (parts_view scope.now)) (table_view kind.now.table.now) ≡ false) }
{
    let start = match short_rule_at(alloc, scope, kind.table, "start")? {
        Ok(start) => start,
        Err(mistake) => return Ok(Err(no_rule("start", &mistake))),
    };
    let handle = match short_rule_at(alloc, scope, kind.table, "handle")? {
        Ok(handle) => handle,
        Err(mistake) => return Ok(Err(no_rule("handle", &mistake))),
    };
    Ok(Ok(KindRead {
        end: u64::from(kind.head.first) + u64::from(kind.head.count),
        width: scope.words.len() as u8,
        start,
        handle,
    }))
}

/// Reads a rule of a kind.
pub(crate) fn short_rule_at(
    alloc: Global,
    scope: &Scope<'_, '_>,
    table: &Table,
    key: &str,
) -> Result<Result<Vec<Statement>, RuleMistake>, AllocError>
    ensures some { IfOk result (λ read. IfOk read (λ rule.
        IsRuleAt key.now (parts_view scope.now) (table_view table.now) rule.items)) }
    ensures within { IfOk result (λ read. IfOk read (λ rule. IsWithin rule.items)) }
    ensures short { IfOk result (λ read. IfOk read (λ rule.
        cost_of_all Steps rule.items ≤ MOST_STEPS)) }
    ensures fits { IfOk result (λ read.
        is_ok read ≡ short_rule_fits key.now (table_view table.now) (parts_view scope.now)) }
{
    match rule_at(alloc, scope, table, key)? {
        Ok(rule) => {
            if block_cost(Limit::Steps, rule.as_slice()) <= MOST_KIND_STEPS {
                Ok(Ok(rule))
            } else {
                Ok(Err(RuleMistake::TooLong))
            }
        }
        Err(mistake) => Ok(Err(mistake)),
    }
}

/// Returns the names of a kind.
fn names_of_kind(
    alloc: Global,
    scope: Scope<'_, '_>,
    kind: &KindTable<'_>,
) -> Result<KindNames, AllocError> {
    let head = KindHead {
        name: String::from_str(alloc, kind.head.name.as_str())?,
        first: kind.head.first,
        count: kind.head.count,
    };
    let names = names_of(alloc, scope, kind.table)?;
    Ok(KindNames { head, names })
}
