// Model files of any kind of model.

ghost use Rattle.std.specs.Prelude.{◌≡◌, ◌≢◌, ◌≤◌, ◌^◌, ℕ, List, [], Err, Some, None, IfOk};
ghost use Rattle.std.specs.Prelude.{IfSome, IsErr, OnOk, map, option_map, option_and_then};
ghost use Rattle.std.specs.Prelude.{string_bytes};
ghost use Rattle.toml.specs.Data.{as_integer, as_str, get_member, Members};
ghost use Rattle.toml.specs.View.{table_view};
ghost use Rattle.texts.specs.ModelFile.{in_range, number_at, unknown_wrong, IsModelFile, Wrong};

use crate::findings::{Findings, is_among};
use crate::names::Names;
use model::Model as Simulated;
use std::alloc::{AllocError, Global};
use thiserror::Error;
use toml::Table;

/// The maximum number of bytes of a model file.
pub const LONGEST_MODEL_FILE: u64 = 16_777_216;

/// The reason why a text gives no model.
#[derive(Clone, Copy, Debug, PartialEq, Eq, Error)]
pub enum ModelFault {
    /// The text is not a model file.
    #[error("BadModel")]
    BadModel(Mistake),
    /// An allocation failed.
    #[error("NoMemory")]
    NoMemory,
}

/// The mistake of a text that is not a model file. Its text describes it in plain words, with the
/// key.
#[derive(Clone, Copy, Debug, PartialEq, Eq, Error)]
pub enum Mistake {
    /// The text is not TOML.
    #[error("not TOML")]
    Toml,
    /// The value at a key is not what it must be, or is missing.
    #[error("{key}: not {expected}")]
    Not {
        /// The key.
        key: &'static str,
        /// What it must be.
        expected: &'static str,
    },
    /// A key of the model is missing.
    #[error("{0}: missing")]
    Missing(&'static str),
    /// The value at a key is not a whole number.
    #[error("{0}: not a whole number")]
    NoNumber(&'static str),
    /// The number at a key is too small or too great.
    #[error("{key}: {found} is not within {least} to {most}")]
    Outside {
        /// The key.
        key: &'static str,
        /// The number that is there.
        found: i64,
        /// The least number that is allowed.
        least: u64,
        /// The greatest number that is allowed.
        most: u64,
    },
    /// The table has a key that the model does not have.
    #[error("a key that the model does not have")]
    Unknown,
}

/// A model that a TOML table can describe, so that a program can read it from a file.
pub trait Described: Simulated + Drop {
    /// The table describes this model and a run of it to this tick.
    ghost says: { Members → Self → ℕ → Type 0 };

    /// What `check` prints of the model and the end, after its line `ok`.
    ghost shows: { Self → ℕ → List ℕ };

    /// The mistakes in a table. There are none if it describes a model.
    ghost wrong: { Members → List Wrong };

    /// Returns the model that a table describes, and the tick at which its run ends, 1 to 2^40.
    ///
    /// `BadModel` comes if the table describes none, with the first mistake, and `NoMemory` if an
    /// allocation failed.
    fn describe(alloc: Global, table: &Table) -> Result<(Self, u64), ModelFault>
        ensures ok { IfOk result (λ file. says (table_view table.now) file.0 file.1) }
        ensures bad { (mistake : Mistake) → result ≡ Err (ModelFault.BadModel mistake) →
            (model : Self) (end : ℕ) → ¬ says (table_view table.now) model end }
        ensures some { IfOk result (λ file. 1 ≤ file.1) }
        ensures end { IfOk result (λ file. file.1 ≤ 2 ^ 40) };

    /// Finds all mistakes in a table, in the order in which `describe` checks it; the keys that the
    /// model does not have come last. A table has no finding exactly if it describes a model.
    /// `AllocError` comes if an allocation failed.
    fn mistakes(alloc: Global, table: &Table) -> Result<Findings, AllocError>
        ensures reported { IfOk result (λ found. found ≡ wrong (table_view table.now)) }
        ensures none { IfOk result (λ found. found ≡ [] →
            (model : Self) × (end : ℕ) × says (table_view table.now) model end) }
        ensures some { IfOk result (λ found. (model : Self) (end : ℕ) →
            says (table_view table.now) model end → found ≡ []) };

    /// Returns a line `key: value` for each value that distinguishes this model from others, and
    /// for the end.
    fn values(&self, alloc: Global, end: u64) -> Result<String, AllocError>
        ensures { IfOk result (λ text. string_bytes text ≡ shows self.now end) };

    /// Returns the names that the model gives to its processes, states and messages, if it gives
    /// some. Commands print them; they do not change what the model does.
    fn names(&self) -> Option<&Names> {
        None
    }
}

/// Returns the model that a model file describes, and the virtual time, in ticks, at which its run
/// ends.
///
/// A model file is TOML whose table describes a model. For any other text `BadModel` comes with the
/// first mistake, and `NoMemory` comes if an allocation failed.
pub fn read_model<M: Described>(alloc: Global, text: &str) -> Result<(M, u64), ModelFault>
    ensures ok { IfOk result (λ file. IsModelFile M.says text.now file.0 file.1) }
    ensures bad { (mistake : Mistake) → result ≡ Err (ModelFault.BadModel mistake) →
        (model : M) (end : ℕ) → ¬ IsModelFile M.says text.now model end }
    ensures some { IfOk result (λ file. 1 ≤ file.1) }
    ensures end { IfOk result (λ file. file.1 ≤ 2 ^ 40) }
{
    let table = match toml::table_from_str(alloc, text) {
        Ok(table) => table,
        Err(error) if error.is_memory() => return Err(ModelFault::NoMemory),
        Err(_) => return Err(ModelFault::BadModel(Mistake::Toml)),
    };
    M::describe(alloc, &table)
}

/// Returns the string at a key. `None` if the key is missing or has another kind of value.
pub fn string_at<'a>(table: &'a Table, key: &str) -> Option<&'a str>
    ensures { option_map (λ s. s.now) result
        ≡ option_and_then as_str (get_member key.now (table_view table.now)) }
{
    match table.get(key) {
        Some(value) => value.as_str(),
        None => None,
    }
}

/// Returns the whole number at a key, if there is one.
fn integer_at(table: &Table, key: &str) -> Option<i64>
    ensures { result ≡ option_and_then as_integer (get_member key.now (table_view table.now)) }
{
    match table.get(key) {
        Some(value) => value.as_integer(),
        None => None,
    }
}

/// Returns the whole number from `least` to `most` at a key. Otherwise the mistake says that the
/// key is missing, or what is wrong with its value.
pub fn number_at(table: &Table, key: &'static str, least: u64, most: u64) -> Result<u64, Mistake>
    ensures ok { IfOk result (λ n.
        number_at key.now least most (table_view table.now) ≡ Some n) }
    ensures err { IsErr result → number_at key.now least most (table_view table.now) ≡ None }
    ensures some { IfOk result (λ n. least ≤ n) }
    ensures within { IfOk result (λ n. n ≤ most) }
{
    let Some(found) = integer_at(table, key) else {
        return Err(without_number(table, key));
    };
    match in_range(found, least, most) {
        Some(number) => Ok(number),
        None => Err(Mistake::Outside {
            key,
            found,
            least,
            most,
        }),
    }
}

/// Returns the whole number from `least` to `most` at a key, if there is one.
pub(crate) fn number_within(table: &Table, key: &str, least: u64, most: u64) -> Option<u64>
    ensures value { result ≡ number_at key.now least most (table_view table.now) }
    ensures within { IfSome result (λ n. (least ≤ n) × (n ≤ most)) }
{
    match integer_at(table, key) {
        Some(found) => in_range(found, least, most),
        None => None,
    }
}

/// Returns the mistake for a key without a whole number.
fn without_number(table: &Table, key: &'static str) -> Mistake {
    match table.get(key) {
        Some(_) => Mistake::NoNumber(key),
        None => Mistake::Missing(key),
    }
}

/// Checks that a table has no keys but these. Otherwise the mistake is `Unknown`.
pub fn only(table: &Table, keys: &[&str]) -> Result<(), Mistake>
    ensures ok { OnOk result
        (unknown_wrong (map (λ k. k.now) keys.now) (table_view table.now) ≡ []) }
    ensures err { IsErr result →
        unknown_wrong (map (λ k. k.now) keys.now) (table_view table.now) ≢ [] }
{
    'keys: for (key, _value) in table.iter() {
        if !is_among(key.as_str(), keys) {
            return Err(Mistake::Unknown);
        }
    }
    Ok(())
}

/// Returns the number if it is from `least` to `most`.
fn in_range(number: i64, least: u64, most: u64) -> Option<u64>
    ensures value { result ≡ in_range least most number }
    ensures within { IfSome result (λ n. (least ≤ n) × (n ≤ most)) }
{
    match u64::try_from(number) {
        Ok(number) if least <= number && number <= most => Some(number),
        _ => None,
    }
}
