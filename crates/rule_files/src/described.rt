// Model files of all models.

ghost use Rattle.std.specs.Prelude.{◌≡◌, ◌≢◌, ◌++◌, ◌≤◌, ◌^◌, ℕ, [], IfErr, IfOk, IfSome, IsErr};
ghost use Rattle.std.specs.Prelude.{◌<◌, ◌==◌, true, is_ok, option_and_then};
ghost use Rattle.std.specs.Prelude.{IsNone, OnOk, Err, None, Some, codes, false, length, map};
ghost use Rattle.std.specs.Prelude.{option_map, string_bytes, nat_lt};
ghost use Rattle.rule_files.specs.FileTable.{IsBody, IsByForm, IsFileTable, IsRulesTable};
ghost use Rattle.rule_files.specs.FileTable.{body_fits, file_text, file_wrong, head_text};
ghost use Rattle.rule_files.specs.FileTable.{form_text, form_wrong, head_wrong, kinds_text};
ghost use Rattle.rule_files.specs.FileTable.{fits_names, is_rules, rest_of, rest_wrong};
ghost use Rattle.rule_files.specs.FileTable.{rule_wrong};
ghost use Rattle.rule_files.specs.FileTable.{names_wrong, rule_fits, rule_keys, rules_keys};
ghost use Rattle.rule_files.specs.FileTable.{rules_of};
ghost use Rattle.rule_files.specs.FileTable.{rules_table_wrong, rules_text, rules_wrong, seed_of};
ghost use Rattle.rule_files.specs.FileTable.{seed_wrong, twice_wrong};
ghost use Rattle.rule_files.specs.Kinds.{IsRuleAt, has_kinds, text_in};
ghost use Rattle.rule_files.specs.RuleFile.{named_view, parts_of, parts_view};
ghost use Rattle.rules.specs.Limits.{IsWithin};
ghost use Rattle.rules.specs.Rules.{Description};
ghost use Rattle.texts.specs.ModelFile.{number_at, unknown_wrong, words_wrong};
ghost use Rattle.toml.specs.Data.{as_table, get_member, string};
ghost use Rattle.toml.specs.View.{table_view};

use crate::arrays::key_of;
use crate::dictionary::dictionary_of;
use crate::digest::digest_of;
use crate::entries::{
    CONTENT, NUMBERS, SORTS, TABLES, TWICE, WORDS, are_sorts, has_content, has_numbers, has_scope,
    has_sorts, has_tables, has_words, scope_of, value_at,
};
use crate::file_model::{FileModel, FileNames, Form, KindNames, ModelNames};
use crate::given::given_names;
use crate::grammar::ReadMistake as Place;
use crate::kind_mistakes::kinds_mistakes_of;
use crate::kind_rules::kinds_model_of;
use crate::kinds::has_kinds;
use crate::naming::{mistake_in, twice_in};
use crate::printed::{put_kinds_model, put_model};
use crate::reading::{RuleMistake, read_rule};
use crate::scope::{Named, Scope};
use crate::shown::{content_names, shown_alone};
use eventkey::MOST_END;
use model::Model as Simulated;
use models::AnyModel;
use rules::{MAX_LPS, Rules, RulesParts, Statement, Table as Numbers};
use std::alloc::{AllocError, Global};
use texts::{
    Described, Findings, Inside, Mistake, ModelFault, Names, TextMistake, mistakes_among,
    number_at, only, string_at,
};
use toml::Table;

/// The part of a program's help about the keys of the file of a model by rules.
pub const RULES_KEYS: &str = "\
A model by rules (model = \"rules\") has these keys:
  lps         processes, 1 to 65536
  end         ticks at which the run ends, 1 to 1099511627776
  state       names of the words of a state, at most 16; key is the key of drawn words;
              NAME[COUNT]: BITS bits is an array, whose elements share words
  seed        the first key, 0 to 9223372036854775807, if the state has the word key
  message     names of the words of a message, at most 4; the others are a, b, c and d
  messages    in place of message: a table of sorts of messages, each with at most 3 names
  numbers     a table of at most 1024 named numbers, 0 to 9223372036854775807
  tables      a table of at most 1024 named lists of such numbers
  rules       a table of two texts: start, what a process does when it starts, and handle,
              what it does with a message
  kind        in place of lps, state, message and rules: 1 to 64 tables, each a kind of
              processes with name, count, state, message, start and handle";

/// A model file is TOML with the keys of its model. The files of this project's models are those of
/// `AnyModel`. The file of a model by rules has `model = "rules"`, `lps` (1 to 65,536 processes),
/// `end` (1 to 2^40 ticks), `state` (names and arrays, at most 16 words), `seed` (0 to 2^63 - 1) if
/// the state has the word `key`, `rules` with the texts `start` and `handle`, and maybe `message`
/// (at most 4 names), `numbers` and `tables`. No name may be there twice. `messages`, in place of
/// `message`, has sorts of messages; `kind`, in place of `lps`, `state`, `message` and `rules`, has
/// kinds of processes.
impl Described for FileModel {
    ghost says = { IsFileTable };

    ghost shows = { file_text };

    ghost wrong = { file_wrong };

    fn describe(alloc: Global, table: &Table) -> Result<(FileModel, u64), ModelFault> {
        if is_rules(table) {
            match form_of(alloc, table) {
                Ok((rules, end, names)) => Ok((FileModel::Rules(rules, names), end)),
                Err(fault) => Err(fault),
            }
        } else {
            match AnyModel::describe(alloc, table) {
                Ok((model, end)) => Ok((FileModel::BuiltIn(model), end)),
                Err(ModelFault::BadModel(mistake)) => Err(ModelFault::BadModel(of_all(mistake))),
                Err(ModelFault::NoMemory) => Err(ModelFault::NoMemory),
            }
        }
    }

    fn mistakes(alloc: Global, table: &Table) -> Result<Findings, AllocError> {
        if is_rules(table) {
            match form_of(alloc, table) {
                Ok(_file) => Ok(Findings::new(alloc)),
                Err(ModelFault::BadModel(_mistake)) => form_mistakes_of(alloc, table),
                Err(ModelFault::NoMemory) => Err(AllocError),
            }
        } else {
            mistakes_among(alloc, table, KINDS)
        }
    }

    fn values(&self, alloc: Global, end: u64) -> Result<String, AllocError> {
        match self {
            FileModel::BuiltIn(model) => model.values(alloc, end),
            FileModel::Rules(rules, names) => form_values(alloc, rules, &names.form, end),
        }
    }

    fn names(&self) -> Option<&Names> {
        match self {
            FileModel::BuiltIn(model) => model.names(),
            FileModel::Rules(_, names) => Some(&names.shown),
        }
    }
}

/// The allowed values of the key `model`, as a mistake lists them.
const KINDS: &str = "\"ring\", \"phold\", \"jobshop\" or \"rules\"";

/// Returns the mistake of a table that is not one of the other models, or the one that lists all
/// models if it names none.
fn of_all(mistake: Mistake) -> Mistake {
    match mistake {
        Mistake::Not { key: "model", .. } => Mistake::Not {
            key: "model",
            expected: KINDS,
        },
        other => other,
    }
}

#[tactic(auto, unfolding(crate::specs::FileTable::is_rules))]
/// Returns whether a table has `model = "rules"`.
fn is_rules(table: &Table) -> bool
    ensures { result ≡ is_rules (table_view table.now) }
{
    match string_at(table, "model") {
        Some(kind) => kind == "rules",
        None => false,
    }
}

/// Returns what is printed of a model by rules.
fn form_values(alloc: Global, rules: &Rules, form: &Form, end: u64) -> Result<String, AllocError>
    ensures { IfOk result (λ text. string_bytes text
        ≡ form_text rules.now.description form.now end) }
{
    match form {
        Form::Alone(names) => rules_values(alloc, rules, names, end),
        Form::Kinds(kinds) => kinds_values(alloc, rules, kinds.as_slice(), end),
    }
}

/// Returns what is printed of a model with kinds of processes.
fn kinds_values(
    alloc: Global,
    rules: &Rules,
    kinds: &[KindNames],
    end: u64,
) -> Result<String, AllocError>
    ensures { IfOk result (λ text. string_bytes text
        ≡ kinds_text rules.now.description kinds.now end) }
{
    let mut text = head_values(alloc, rules, end)?;
    put_kinds_model(kinds, rules, &mut text)?;
    Ok(text)
}

/// Returns what is printed of a model by rules without kinds.
fn rules_values(
    alloc: Global,
    rules: &Rules,
    names: &FileNames,
    end: u64,
) -> Result<String, AllocError>
    ensures { IfOk result (λ text. string_bytes text
        ≡ rules_text rules.now.description names.now end) }
{
    let mut text = head_values(alloc, rules, end)?;
    put_model(names, rules, &mut text)?;
    Ok(text)
}

/// Returns the first lines of a model by rules.
fn head_values(alloc: Global, rules: &Rules, end: u64) -> Result<String, AllocError>
    ensures { IfOk result (λ text. string_bytes text ≡ head_text rules.now.description end) }
{
    let lps = rules.lps();
    let words = rules.width();
    let tables = rules.tables().len();
    format!(in alloc;
        "model: rules\nlps: {lps}\nend: {end}\nwords of state: {words}\ntables: {tables}\n"
    )
}

/// The keys of the file of a model by rules.
const KEYS: [&str; 10] = [
    "model", "lps", "end", "seed", "message", "messages", "state", "numbers", "tables", "rules",
];

/// Returns the model by rules that a table describes, the tick at which its run ends, and its
/// names.
fn form_of(alloc: Global, table: &Table) -> Result<(Rules, u64, ModelNames), ModelFault>
    requires { is_rules (table_view table.now) ≡ true }
    ensures ok { IfOk result (λ file. IsByForm (has_kinds (table_view table.now))
        (table_view table.now) file.0.description file.1) }
    ensures bad { (mistake : Mistake) → result ≡ Err (ModelFault.BadModel mistake) →
        (d : Description) (end : ℕ) → IsWithin d.start → IsWithin d.handle →
        ¬ IsByForm (has_kinds (table_view table.now)) (table_view table.now) d end }
    ensures wrong { (mistake : Mistake) → result ≡ Err (ModelFault.BadModel mistake) →
        form_wrong (has_kinds (table_view table.now)) (table_view table.now) ≢ [] }
    ensures some { IfOk result (λ file. 1 ≤ file.1) }
    ensures end { IfOk result (λ file. file.1 ≤ 2 ^ 40) }
{
    if has_kinds(table) {
        kinds_model_of(alloc, table)
    } else {
        rules_model_of(alloc, table)
    }
}

/// Finds all mistakes in the table of a model by rules.
fn form_mistakes_of(alloc: Global, table: &Table) -> Result<Findings, AllocError>
    ensures { IfOk result (λ found.
        found ≡ form_wrong (has_kinds (table_view table.now)) (table_view table.now)) }
{
    if has_kinds(table) {
        kinds_mistakes_of(alloc, table)
    } else {
        rules_mistakes_of(alloc, table)
    }
}

/// Returns the model by rules without kinds that a table describes, the tick at which its run ends,
/// and its names.
fn rules_model_of(alloc: Global, table: &Table) -> Result<(Rules, u64, ModelNames), ModelFault>
    requires { is_rules (table_view table.now) ≡ true }
    ensures ok { IfOk result (λ file.
        IsRulesTable (table_view table.now) file.0.description file.1) }
    ensures bad { (mistake : Mistake) → result ≡ Err (ModelFault.BadModel mistake) →
        (d : Description) (end : ℕ) → IsWithin d.start → IsWithin d.handle →
        ¬ IsRulesTable (table_view table.now) d end }
    ensures wrong { (mistake : Mistake) → result ≡ Err (ModelFault.BadModel mistake) →
        rules_table_wrong (table_view table.now) ≢ [] }
    ensures some { IfOk result (λ file. 1 ≤ file.1) }
    ensures end { IfOk result (λ file. file.1 ≤ 2 ^ 40) }
{
    let (lps, end) = match head_of(table) {
        Ok(head) => head,
        Err(mistake) => return Err(ModelFault::BadModel(mistake)),
    };
    let body = match body_of(alloc, table, lps as u32) {
        Ok(Ok(body)) => body,
        Ok(Err(mistake)) => return Err(ModelFault::BadModel(mistake)),
        Err(_) => return Err(ModelFault::NoMemory),
    };
    let Body {
        width,
        key,
        seed,
        digest,
        tables,
        start,
        handle,
        names,
    } = body;
    let made = Rules::new(RulesParts {
        lps: lps as u32,
        digest,
        width,
        key,
        seed,
        tables,
        start,
        handle,
    });
    match made {
        Ok(rules) => Ok((rules, end, names)),
        Err(_) => Err(ModelFault::BadModel(NO_START)),
    }
}

/// Returns the number of processes and the end of a table without unknown keys.
fn head_of(table: &Table) -> Result<(u64, u64), Mistake>
    ensures lps { IfOk result (λ head.
        number_at (codes "lps") 1 65536 (table_view table.now) ≡ Some head.0) }
    ensures last { IfOk result (λ head.
        number_at (codes "end") 1 (2 ^ 40) (table_view table.now) ≡ Some head.1) }
    ensures only { IfOk result (λ _. unknown_wrong rules_keys (table_view table.now) ≡ []) }
    ensures some { IfOk result (λ head. (1 ≤ head.0) × (1 ≤ head.1)) }
    ensures within { IfOk result (λ head. (head.0 ≤ 65536) × (head.1 ≤ 2 ^ 40)) }
    ensures bad { IsErr result → head_wrong (table_view table.now) ≢ [] }
{
    let lps = number_at(table, "lps", 1, u64::from(MAX_LPS))?;
    let end = number_at(table, "end", 1, MOST_END)?;
    only(table, &KEYS)?;
    Ok((lps, end))
}

/// The parts of a model by rules, apart from the number of processes.
#[derive(Drop)]
pub(crate) struct Body {
    pub width: u8,
    pub key: Option<u8>,
    pub seed: u64,
    pub digest: [u64; 4],
    pub tables: Vec<Numbers>,
    pub start: Vec<Statement>,
    pub handle: Vec<Statement>,
    pub names: ModelNames,
}

/// Reads the names and the rules of a table for this number of processes.
fn body_of(alloc: Global, table: &Table, lps: u32) -> Result<Result<Body, Mistake>, AllocError>
    ensures ok { IfOk result (λ read. IfOk read (λ body.
        IsBody (table_view table.now) (record {
          lps = 0;
          digest = body.digest;
          width = body.width;
          key = body.key;
          seed = body.seed;
          tables = body.tables.items;
          start = body.start.items;
          handle = body.handle.items;
        }))) }
    ensures within { IfOk result (λ read. IfOk read (λ body.
        IsWithin body.start.items × IsWithin body.handle.items)) }
    ensures width { IfOk result (λ read. IfOk read (λ body. body.width ≤ 16)) }
    ensures seed { IfOk result (λ read. IfOk read (λ body. body.seed < 2 ^ 63)) }
    ensures bad { IfOk result (λ read. IsErr read → body_fits (table_view table.now) ≡ false) }
{
    let scope = match scope_of(alloc, table)? {
        Ok(scope) => scope,
        Err(mistake) => return Ok(Err(mistake)),
    };
    let key = key_of(scope.words.as_slice());
    let seed = match seed_of(key, table) {
        Some(seed) => seed,
        None => return Ok(Err(NO_SEED)),
    };
    let Some(rules) = rules_at(table) else {
        return Ok(Err(NO_RULES));
    };
    let start = match rule_at(alloc, &scope, rules, "start")? {
        Ok(start) => start,
        Err(mistake) => return Ok(Err(no_rule("rules.start", &mistake))),
    };
    let handle = match rule_at(alloc, &scope, rules, "handle")? {
        Ok(handle) => handle,
        Err(mistake) => return Ok(Err(no_rule("rules.handle", &mistake))),
    };
    let tables = tables_in(alloc, scope.tables.as_slice())?;
    let digest = digest_of(
        scope.words.as_slice(),
        scope.arrays.as_slice(),
        seed,
        tables.as_slice(),
        start.as_slice(),
        handle.as_slice(),
    );
    let width = scope.words.len() as u8;
    let names = alone(alloc, lps, names_of(alloc, scope, rules)?)?;
    Ok(Ok(Body {
        width,
        key,
        seed,
        digest,
        tables,
        start,
        handle,
        names,
    }))
}

/// Returns the names of a model without kinds.
fn alone(alloc: Global, lps: u32, names: FileNames) -> Result<ModelNames, AllocError> {
    let shown = shown_alone(alloc, lps, &names)?;
    Ok(ModelNames {
        form: Form::Alone(names),
        shown,
    })
}

/// Returns the names that the rules of a table read.
pub(crate) fn names_of(
    alloc: Global,
    scope: Scope<'_, '_>,
    rules: &Table,
) -> Result<FileNames, AllocError> {
    let Scope {
        words,
        arrays,
        content,
        numbers,
        tables,
        sorts,
        fields,
        ..
    } = scope;
    let mut table_names = Vec::new(alloc);
    for table in tables.iter() {
        table_names.push(String::from_str(alloc, table.name.as_str())?)?;
    }
    let content = if sorts.is_empty() {
        content
    } else {
        content_names(alloc, fields.as_slice())?
    };
    Ok(FileNames {
        words,
        arrays,
        content,
        sorts,
        numbers,
        tables: table_names,
        start: given_names(alloc, text_at(rules, "start").unwrap_or(""))?,
        handle: given_names(alloc, text_at(rules, "handle").unwrap_or(""))?,
    })
}

pub(crate) const NO_SEED: Mistake = Mistake::Not {
    key: "seed",
    expected: SEED,
};

const NO_RULES: Mistake = Mistake::Not {
    key: "rules",
    expected: RULES,
};

const NO_START: Mistake = Mistake::Not {
    key: "rules.start",
    expected: RULE,
};

/// Returns the mistake at the key of a rule: the length is named where it is the cause.
pub(crate) fn no_rule(key: &'static str, mistake: &RuleMistake) -> Mistake {
    let expected = match mistake {
        RuleMistake::NoText => RULE,
        RuleMistake::Text(_) | RuleMistake::Exceeds(_) | RuleMistake::TooLong => "a rule",
    };
    Mistake::Not { key, expected }
}

pub(crate) const SEED: &str =
    "a whole number from 0 to 9223372036854775807 if the state has key, otherwise nothing";

const RULES: &str = "a table with the texts start and handle";

pub(crate) const RULE: &str = "a rule of at most 65536 bytes";

/// Returns the seed, which must be there exactly if the state has a key.
pub(crate) fn seed_of(key: Option<u8>, table: &Table) -> Option<u64>
    ensures seed { result ≡ seed_of key (table_view table.now) }
    ensures within { IfSome result (λ seed. seed < 2 ^ 63) }
{
    match key {
        Some(_) => number_at(table, "seed", 0, u64::MAX >> 1).ok(),
        None => match value_at(table, "seed") {
            Some(_) => None,
            None => Some(0),
        },
    }
}

#[tactic(auto, unfolding(crate::specs::FileTable::rules_of))]
/// Returns the table of the two rules.
fn rules_at(table: &Table) -> Option<&Table>
    ensures { option_map (λ t. table_view t.now) result ≡ rules_of (table_view table.now) }
{
    match table_at(table, "rules") {
        Some(rules) if is_two_rules(rules) => Some(rules),
        _ => None,
    }
}

/// Returns the table at a key.
fn table_at<'a>(table: &'a Table, key: &str) -> Option<&'a Table>
    ensures { option_map (λ t. table_view t.now) result
        ≡ option_and_then as_table (get_member key.now (table_view table.now)) }
{
    match value_at(table, key) {
        Some(value) => value.as_table(),
        None => None,
    }
}

/// Returns whether a table has no keys but those of the two rules.
fn is_two_rules(rules: &Table) -> bool
    ensures { result ≡ (length (unknown_wrong rule_keys (table_view rules.now)) == 0) }
{
    only(rules, &["start", "handle"]).is_ok()
}

/// Returns the text of a rule: at most 65,536 bytes.
pub(crate) fn text_at<'a>(rules: &'a Table, key: &str) -> Option<&'a str>
    ensures { option_map (λ s. s.now) result ≡ text_in key.now (table_view rules.now) }
{
    match string_at(rules, key) {
        Some(text) if text.len() <= 1 << 16 => Some(text),
        _ => None,
    }
}

/// Reads a rule.
pub(crate) fn rule_at(
    alloc: Global,
    scope: &Scope<'_, '_>,
    rules: &Table,
    key: &str,
) -> Result<Result<Vec<Statement>, RuleMistake>, AllocError>
    ensures some { IfOk result (λ read. IfOk read (λ rule.
        IsRuleAt key.now (parts_view scope.now) (table_view rules.now) rule.items)) }
    ensures within { IfOk result (λ read. IfOk read (λ rule. IsWithin rule.items)) }
    ensures fits { IfOk result (λ read.
        is_ok read ≡ rule_fits key.now (table_view rules.now) (parts_view scope.now)) }
{
    let Some(text) = text_at(rules, key) else {
        return Ok(Err(RuleMistake::NoText));
    };
    read_rule(alloc, scope, text)
}

/// Copies the tables.
pub(crate) fn tables_in(alloc: Global, named: &[Named]) -> Result<Vec<Numbers>, AllocError>
    ensures { IfOk result (λ tables. tables.items ≡ map (λ n. n.1) (map named_view named.now)) }
{
    let mut tables = Vec::new(alloc);
    for one in named {
        let numbers = Vec::from_slice(alloc, one.numbers.as_slice())?;
        tables.push(Numbers::from_numbers(numbers))?;
    }
    Ok(tables)
}

/// Finds all mistakes in the table of a model by rules.
fn rules_mistakes_of(alloc: Global, table: &Table) -> Result<Findings, AllocError>
    ensures { IfOk result (λ found. found ≡ rules_table_wrong (table_view table.now)) }
{
    let mut found = Findings::new(alloc);
    found.number_at(alloc, table, "lps", 1, u64::from(MAX_LPS))?;
    found.number_at(alloc, table, "end", 1, MOST_END)?;
    look_at_names(alloc, table, &mut found)?;
    look_at_body(alloc, table, &mut found)?;
    found.others(alloc, table, &KEYS)?;
    Ok(found)
}

/// Checks the names of a table.
fn look_at_names(alloc: Global, table: &Table, found: &mut Findings) -> Result<(), AllocError>
    ensures { OnOk result (found.new ≡ found.old ++ names_wrong (table_view table.now)) }
{
    let words = has_words(alloc, table)?;
    let content = has_content(alloc, has_sorts(table), table)?;
    let sorts = are_sorts(alloc, table)?;
    let numbers = has_numbers(alloc, table)?;
    let tables = has_tables(alloc, table)?;
    let scope = has_scope(alloc, table)?;
    let fit = fits_names(scope, words, content, sorts, numbers, tables);
    look_at_list(alloc, table, "state", WORDS, words, found)?;
    look_at_list(alloc, table, "message", CONTENT, content, found)?;
    look_at_list(alloc, table, "messages", SORTS, sorts, found)?;
    look_at_list(alloc, table, "numbers", NUMBERS, numbers, found)?;
    look_at_list(alloc, table, "tables", TABLES, tables, found)?;
    look_for_twice(alloc, table, fit, found)
}

/// Adds a finding for the list or the table of names at a key unless it can be read.
pub(crate) fn look_at_list(
    alloc: Global,
    table: &Table,
    key: &'static str,
    expected: &'static str,
    right: bool,
    found: &mut Findings,
) -> Result<(), AllocError>
    ensures { OnOk result (found.new
        ≡ found.old ++ words_wrong right key.now expected.now (table_view table.now)) }
{
    let inside = if right {
        None
    } else {
        mistake_in(alloc, table, key)?
    };
    found.inside_at(alloc, table, key, expected, right, inside)
}

/// Adds a finding for a name that is there twice unless there is none.
fn look_for_twice(
    alloc: Global,
    table: &Table,
    fit: bool,
    found: &mut Findings,
) -> Result<(), AllocError>
    ensures { OnOk result (found.new ≡ found.old ++ twice_wrong fit (table_view table.now)) }
{
    let inside = if fit {
        None
    } else {
        twice_in(alloc, table, table, &[])?
    };
    found.inside_at(alloc, table, "state", TWICE, fit, inside)
}

/// Returns whether no name is there twice, or some names cannot be read.
fn fits_names(
    distinct: bool,
    words: bool,
    content: bool,
    sorts: bool,
    numbers: bool,
    tables: bool,
) -> bool
    ensures { result ≡ fits_names distinct words content sorts numbers tables }
{
    distinct || !(words && content && sorts && numbers && tables)
}

/// Checks the seed and the rules of a table.
fn look_at_body(alloc: Global, table: &Table, found: &mut Findings) -> Result<(), AllocError>
    ensures { OnOk result (found.new ≡ found.old ++ rest_wrong (table_view table.now)) }
{
    match scope_of(alloc, table)? {
        Ok(scope) => look_at_both(alloc, table, &scope, found),
        Err(_) => {
            let there = rules_at(table).is_some();
            found.words_at(alloc, table, "rules", RULES, there)
        }
    }
}

/// Checks the seed and the rules of a table whose names can be read.
fn look_at_both(
    alloc: Global,
    table: &Table,
    scope: &Scope<'_, '_>,
    found: &mut Findings,
) -> Result<(), AllocError>
    requires { length scope.now.words.items ≤ 16 }
    ensures { OnOk result (found.new ≡ found.old ++ rest_of (Some (parts_view scope.now))
        (rules_of (table_view table.now)) (table_view table.now)) }
{
    let seed = seed_of(key_of(scope.words.as_slice()), table);
    found.words_at(alloc, table, "seed", SEED, seed.is_some())?;
    match rules_at(table) {
        Some(rules) => {
            found.words_at(alloc, table, "rules", RULES, true)?;
            look_at_rule(alloc, scope, rules, "start", found)?;
            look_at_rule(alloc, scope, rules, "handle", found)
        }
        None => found.words_at(alloc, table, "rules", RULES, false),
    }
}

/// Checks one rule.
fn look_at_rule(
    alloc: Global,
    scope: &Scope<'_, '_>,
    rules: &Table,
    key: &str,
    found: &mut Findings,
) -> Result<(), AllocError>
    ensures { OnOk result (found.new ≡ found.old
        ++ rule_wrong key.now (table_view rules.now) (parts_view scope.now)) }
{
    match rule_at(alloc, scope, rules, key)? {
        Ok(_) => found.words_at(alloc, rules, key, RULE, true),
        Err(mistake) => {
            let inside = inside_of(alloc, scope, rules, key, &mistake)?;
            found.inside_at(alloc, rules, key, RULE, false, inside)
        }
    }
}

/// Returns the mistake inside the text of a rule. A limit is exceeded at the beginning of the rule.
pub(crate) fn inside_of(
    alloc: Global,
    scope: &Scope<'_, '_>,
    rules: &Table,
    key: &str,
    mistake: &RuleMistake,
) -> Result<Option<Inside>, AllocError> {
    let Some(text) = text_at(rules, key) else {
        return Ok(None);
    };
    let (line, column, why) = match mistake {
        RuleMistake::NoText => return Ok(None),
        RuleMistake::Text(first) => (
            first.line,
            first.column,
            mistakes_of(alloc, scope, text, first)?,
        ),
        RuleMistake::Exceeds(_) | RuleMistake::TooLong => (1, 1, format!(in alloc; "{mistake}")?),
    };
    let text = String::from_str(alloc, text)?;
    Ok(Some(Inside::Text(TextMistake {
        text,
        line,
        column,
        why,
    })))
}

/// Returns what is wrong at the first mistake of a rule's text, and the other mistakes with their
/// places in the text.
fn mistakes_of(
    alloc: Global,
    scope: &Scope<'_, '_>,
    text: &str,
    first: &Place,
) -> Result<String, AllocError> {
    let names = dictionary_of(alloc, scope)?;
    let all = crate::grammar::find_mistakes(alloc, &names, text)?;
    let kind = &first.kind;
    let mut why = format!(in alloc; "{kind}")?;
    for (place, other) in all.iter().enumerate() {
        if place > 0 {
            let (line, column, kind) = (other.line, other.column, &other.kind);
            let more = format!(in alloc; "; line {line} of the rule, column {column}: {kind}")?;
            why.push_str(more.as_str())?;
        }
    }
    Ok(why)
}
