// The models of this project, as a TOML table describes them.

ghost use Rattle.std.specs.Prelude.{◌≡◌, ◌≤◌, ◌*◌, ◌-◌, ◌^◌, ℕ, Some, None, codes, IfOk, IsErr};
ghost use Rattle.std.specs.Prelude.{◌++◌, [], IfSome, OnOk, string_bytes, unwrap_or};
ghost use Rattle.toml.specs.Data.{get_member, string};
ghost use Rattle.toml.specs.View.{table_view};
ghost use Rattle.texts.specs.ModelFile.{number_at, numbers_from};
ghost use Rattle.texts.specs.AnyModel.{model_text, IsHoldTable, IsRingTable, IsShopTable};
ghost use Rattle.texts.specs.AnyModel.{any_wrong, common_numbers, hold_wrong, kindless_wrong};
ghost use Rattle.texts.specs.AnyModel.{ring_wrong, shop_wrong, IsTableOf, wrong_among};
ghost use Rattle.models.specs.JobShop.{Shop};
ghost use Rattle.models.specs.Phold.{Hold};
ghost use Rattle.models.specs.Ring.{Ring};
ghost use Rattle.models.specs.declared.any_model.AnyModel.{AnyModel};

use crate::findings::Findings;
use crate::model_file::{Described, Mistake, ModelFault, number_at, only, string_at};
use eventkey::MOST_END;
use model::Model as Simulated;
use models::{AnyModel, JobShop, Phold, TokenRing};
use std::alloc::{AllocError, Global};
use toml::Table;

/// The part of a program's help about the keys of this project's model files.
pub const ANY_MODEL_KEYS: &str = "\
Each model has these keys:
  model       \"ring\", \"phold\" or \"jobshop\"
  lps         processes, 1 to 1024
  end         ticks at which the run ends, 1 to 1099511627776

A token ring hands tokens round, and has also:
  hold        ticks for which a process holds a token, 1 to 4294967295
  tokens      1 to 8 times lps

PHOLD sends each message on to a drawn process, and has also:
  population  messages that each process starts with, 1 to 8
  spread      the greatest delay in ticks, 1 to 4294967295
  seed        what begins the drawn words, 0 to 9223372036854775807

A job shop hands jobs from machine to machine, and has also:
  jobs        jobs that each machine starts with, 1 to 8
  service     the most ticks for which a machine serves a job, 1 to 4294967295
  seed        what begins the drawn words, 0 to 9223372036854775807";

/// A model file of this project is TOML with exactly the keys of its model, at top level. Each has
/// `model`, which is `"ring"`, `"phold"` or `"jobshop"`, `lps` (1 to 1,024 processes) and `end` (1
/// to 2^40 ticks). A token ring also has `hold` (1 to 2^32 - 1 ticks) and `tokens` (1 to
/// `8 * lps`), PHOLD `population` (1 to 8), `spread` (1 to 2^32 - 1 ticks) and `seed` (0 to
/// 2^63 - 1), and a job shop `jobs` (1 to 8), `service` (1 to 2^32 - 1 ticks) and `seed`.
impl Described for AnyModel {
    ghost says = { IsTableOf };

    ghost shows = { model_text };

    ghost wrong = { any_wrong };

    fn describe(_alloc: Global, table: &Table) -> Result<(AnyModel, u64), ModelFault> {
        match model_of(table) {
            Ok(file) => Ok(file),
            Err(mistake) => Err(ModelFault::BadModel(mistake)),
        }
    }

    fn mistakes(alloc: Global, table: &Table) -> Result<Findings, AllocError> {
        mistakes_among(alloc, table, KINDS)
    }

    fn values(&self, alloc: Global, end: u64) -> Result<String, AllocError> {
        match self {
            AnyModel::TokenRing(ring) => ring_values(alloc, ring, end),
            AnyModel::Phold(hold) => hold_values(alloc, hold, end),
            AnyModel::JobShop(shop) => shop_values(alloc, shop, end),
        }
    }
}

/// The allowed values of the key `model`, as a mistake lists them.
const KINDS: &str = "\"ring\", \"phold\" or \"jobshop\"";

/// Returns the model that a table describes, and the tick at which its run ends.
fn model_of(table: &Table) -> Result<(AnyModel, u64), Mistake>
    ensures ok { IfOk result (λ file. IsTableOf (table_view table.now) file.0 file.1) }
    ensures bad { IsErr result →
        (model : AnyModel) (end : ℕ) → ¬ IsTableOf (table_view table.now) model end }
    ensures some { IfOk result (λ file. 1 ≤ file.1) }
    ensures end { IfOk result (λ file. file.1 ≤ 2 ^ 40) }
{
    match string_at(table, "model") {
        Some("ring") => match ring_of(table) {
            Ok((ring, end)) => Ok((AnyModel::TokenRing(ring), end)),
            Err(mistake) => Err(mistake),
        },
        Some("phold") => match hold_of(table) {
            Ok((hold, end)) => Ok((AnyModel::Phold(hold), end)),
            Err(mistake) => Err(mistake),
        },
        Some("jobshop") => match shop_of(table) {
            Ok((shop, end)) => Ok((AnyModel::JobShop(shop), end)),
            Err(mistake) => Err(mistake),
        },
        _ => Err(Mistake::Not {
            key: "model",
            expected: KINDS,
        }),
    }
}

/// Returns the tick at which the run of a table ends.
fn end_of(table: &Table) -> Result<u64, Mistake>
    ensures ok { IfOk result (λ n. number_at (codes "end") 1 (2 ^ 40) (table_view table.now)
        ≡ Some n) }
    ensures err { IsErr result → number_at (codes "end") 1 (2 ^ 40) (table_view table.now) ≡ None }
    ensures some { IfOk result (λ n. 1 ≤ n) }
    ensures within { IfOk result (λ n. n ≤ 2 ^ 40) }
{
    number_at(table, "end", 1, MOST_END)
}

/// Returns the token ring that a table describes, and the tick at which its run ends.
fn ring_of(table: &Table) -> Result<(TokenRing, u64), Mistake>
    requires { get_member (codes "model") (table_view table.now) ≡ Some (string (codes "ring")) }
    ensures ok { IfOk result (λ file. IsRingTable (table_view table.now) file.0.ring file.1) }
    ensures bad { IsErr result →
        (ring : Ring) (end : ℕ) → ¬ IsRingTable (table_view table.now) ring end }
    ensures some { IfOk result (λ file. 1 ≤ file.1) }
    ensures end { IfOk result (λ file. file.1 ≤ 2 ^ 40) }
{
    let lps = number_at(table, "lps", 1, 1024)?;
    let end = end_of(table)?;
    let hold = number_at(table, "hold", 1, u64::from(u32::MAX))?;
    let tokens = number_at(table, "tokens", 1, 8 * lps)?;
    only(table, &["model", "lps", "end", "hold", "tokens"])?;
    Ok((TokenRing::new(lps as u32, hold as u32, tokens as u32), end))
}

/// Returns the PHOLD that a table describes, and the tick at which its run ends.
fn hold_of(table: &Table) -> Result<(Phold, u64), Mistake>
    requires { get_member (codes "model") (table_view table.now) ≡ Some (string (codes "phold")) }
    ensures ok { IfOk result (λ file. IsHoldTable (table_view table.now) file.0.hold file.1) }
    ensures bad { IsErr result →
        (hold : Hold) (end : ℕ) → ¬ IsHoldTable (table_view table.now) hold end }
    ensures some { IfOk result (λ file. 1 ≤ file.1) }
    ensures end { IfOk result (λ file. file.1 ≤ 2 ^ 40) }
{
    let lps = number_at(table, "lps", 1, 1024)?;
    let end = end_of(table)?;
    let population = number_at(table, "population", 1, 8)?;
    let spread = number_at(table, "spread", 1, u64::from(u32::MAX))?;
    let seed = number_at(table, "seed", 0, u64::MAX >> 1)?;
    only(
        table,
        &["model", "lps", "end", "population", "spread", "seed"],
    )?;
    Ok((
        Phold::new(lps as u32, population as u32, spread as u32, seed),
        end,
    ))
}

/// Returns the job shop that a table describes, and the tick at which its run ends.
fn shop_of(table: &Table) -> Result<(JobShop, u64), Mistake>
    requires { get_member (codes "model") (table_view table.now) ≡ Some (string (codes "jobshop")) }
    ensures ok { IfOk result (λ file. IsShopTable (table_view table.now) file.0.shop file.1) }
    ensures bad { IsErr result →
        (shop : Shop) (end : ℕ) → ¬ IsShopTable (table_view table.now) shop end }
    ensures some { IfOk result (λ file. 1 ≤ file.1) }
    ensures end { IfOk result (λ file. file.1 ≤ 2 ^ 40) }
{
    let lps = number_at(table, "lps", 1, 1024)?;
    let end = end_of(table)?;
    let jobs = number_at(table, "jobs", 1, 8)?;
    let service = number_at(table, "service", 1, u64::from(u32::MAX))?;
    let seed = number_at(table, "seed", 0, u64::MAX >> 1)?;
    only(table, &["model", "lps", "end", "jobs", "service", "seed"])?;
    Ok((
        JobShop::new(lps as u32, jobs as u32, service as u32, seed),
        end,
    ))
}

/// Finds all mistakes in a table, as `mistakes` of `AnyModel` does. If the table names none of its
/// models, the mistake at `model` expects what `kinds` says: a program that has more models lists
/// them there.
pub fn mistakes_among(
    alloc: Global,
    table: &Table,
    kinds: &'static str,
) -> Result<Findings, AllocError>
    ensures reported { IfOk result (λ found.
        found ≡ wrong_among kinds.now (table_view table.now)) }
    ensures none { IfOk result (λ found. found ≡ [] →
        (model : AnyModel) × (end : ℕ) × IsTableOf (table_view table.now) model end) }
    ensures some { IfOk result (λ found. (model : AnyModel) (end : ℕ) →
        IsTableOf (table_view table.now) model end → found ≡ []) }
{
    mistakes_of(alloc, table, kinds)
}

/// Finds all that is wrong with a table.
fn mistakes_of(alloc: Global, table: &Table, kinds: &'static str) -> Result<Findings, AllocError>
    ensures { IfOk result (λ found. found ≡ wrong_among kinds.now (table_view table.now)) }
{
    match string_at(table, "model") {
        Some(kind) if kind == "ring" => ring_mistakes(alloc, table),
        Some(kind) if kind == "phold" => hold_mistakes(alloc, table),
        Some(kind) if kind == "jobshop" => shop_mistakes(alloc, table),
        _ => kindless_mistakes(alloc, table, kinds),
    }
}

/// Checks the keys that each model has, and returns the number of processes, if it is valid.
fn look_at_common(
    alloc: Global,
    table: &Table,
    found: &mut Findings,
) -> Result<Option<u64>, AllocError>
    ensures lps { IfOk result (λ n. n ≡ number_at (codes "lps") 1 1024 (table_view table.now)) }
    ensures reported { OnOk result
        (found.new ≡ numbers_from found.old common_numbers (table_view table.now)) }
    ensures within { IfOk result (λ n. IfSome n (λ k. (1 ≤ k) × (k ≤ 1024))) }
{
    let lps = found.number_at(alloc, table, "lps", 1, 1024)?;
    found.number_at(alloc, table, "end", 1, MOST_END)?;
    Ok(lps)
}

/// Finds all that is wrong with the table of a token ring. Without a valid number of processes, the
/// most tokens are those of the largest ring.
fn ring_mistakes(alloc: Global, table: &Table) -> Result<Findings, AllocError>
    ensures { IfOk result (λ found. found ≡ ring_wrong (table_view table.now)) }
{
    let mut found = Findings::new(alloc);
    let lps = look_at_common(alloc, table, &mut found)?;
    found.number_at(alloc, table, "hold", 1, u64::from(u32::MAX))?;
    found.number_at(alloc, table, "tokens", 1, most_tokens(lps))?;
    found.others(alloc, table, &["model", "lps", "end", "hold", "tokens"])?;
    Ok(found)
}

/// Returns the most tokens that a ring of `lps` processes may have, or a ring of 1,024 if `None`.
fn most_tokens(lps: Option<u64>) -> u64
    requires { IfSome lps (λ n. (1 ≤ n) × (n ≤ 1024)) }
    ensures { result ≡ 8 * unwrap_or lps 1024 }
{
    8 * lps.unwrap_or(1024)
}

/// Finds all that is wrong with the table of PHOLD.
fn hold_mistakes(alloc: Global, table: &Table) -> Result<Findings, AllocError>
    ensures { IfOk result (λ found. found ≡ hold_wrong (table_view table.now)) }
{
    let mut found = Findings::new(alloc);
    look_at_common(alloc, table, &mut found)?;
    found.number_at(alloc, table, "population", 1, 8)?;
    found.number_at(alloc, table, "spread", 1, u64::from(u32::MAX))?;
    found.number_at(alloc, table, "seed", 0, u64::MAX >> 1)?;
    found.others(
        alloc,
        table,
        &["model", "lps", "end", "population", "spread", "seed"],
    )?;
    Ok(found)
}

/// Finds all that is wrong with the table of a job shop.
fn shop_mistakes(alloc: Global, table: &Table) -> Result<Findings, AllocError>
    ensures { IfOk result (λ found. found ≡ shop_wrong (table_view table.now)) }
{
    let mut found = Findings::new(alloc);
    look_at_common(alloc, table, &mut found)?;
    found.number_at(alloc, table, "jobs", 1, 8)?;
    found.number_at(alloc, table, "service", 1, u64::from(u32::MAX))?;
    found.number_at(alloc, table, "seed", 0, u64::MAX >> 1)?;
    found.others(
        alloc,
        table,
        &["model", "lps", "end", "jobs", "service", "seed"],
    )?;
    Ok(found)
}

/// Finds what is wrong with a table that names none of the models: the name, and the keys of all.
fn kindless_mistakes(
    alloc: Global,
    table: &Table,
    kinds: &'static str,
) -> Result<Findings, AllocError>
    ensures { IfOk result (λ found. found ≡ kindless_wrong kinds.now (table_view table.now)) }
{
    let mut found = Findings::new(alloc);
    found.words_at(alloc, table, "model", kinds, false)?;
    look_at_common(alloc, table, &mut found)?;
    Ok(found)
}

/// Returns the lines of the values of a token ring.
fn ring_values(alloc: Global, ring: &TokenRing, end: u64) -> Result<String, AllocError>
    ensures { IfOk result (λ text.
        string_bytes text ≡ model_text (AnyModel.TokenRing ring.now) end) }
{
    let (lps, hold, tokens) = (ring.lps(), ring.hold(), ring.tokens());
    format!(in alloc; "model: ring\nlps: {lps}\nend: {end}\nhold: {hold}\ntokens: {tokens}\n")
}

/// Returns the lines of the values of PHOLD.
fn hold_values(alloc: Global, hold: &Phold, end: u64) -> Result<String, AllocError>
    ensures { IfOk result (λ text.
        string_bytes text ≡ model_text (AnyModel.Phold hold.now) end) }
{
    let (lps, population) = (hold.lps(), hold.population());
    let (spread, seed) = (hold.spread(), hold.seed());
    format!(in alloc;
        "model: phold\nlps: {lps}\nend: {end}\npopulation: {population}\nspread: {spread}\nseed: {seed}\n"
    )
}

/// Returns the lines of the values of a job shop.
fn shop_values(alloc: Global, shop: &JobShop, end: u64) -> Result<String, AllocError>
    ensures { IfOk result (λ text.
        string_bytes text ≡ model_text (AnyModel.JobShop shop.now) end) }
{
    let (lps, jobs) = (shop.lps(), shop.jobs());
    let (service, seed) = (shop.service(), shop.seed());
    format!(in alloc;
        "model: jobshop\nlps: {lps}\nend: {end}\njobs: {jobs}\nservice: {service}\nseed: {seed}\n"
    )
}
