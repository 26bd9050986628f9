// The text of a model file in which values are replaced.

ghost use Rattle.std.specs.Prelude.{◌≡◌, ◌<◌, Err, None, Some, map, IfOk, OnOk, is_some, length};
ghost use Rattle.std.specs.Prelude.{option_and_then, option_map, slice_set, string_bytes};
ghost use Rattle.texts.specs.Settings.{numbers_of, present, value_as, AreSet, IsNumberReplaced};
ghost use Rattle.texts.specs.Settings.{IsCountAmong, IsCountReplaced, count_among, count_of};
ghost use Rattle.texts.specs.Settings.{is_kind, kind_before};
ghost use Rattle.texts.specs.Settings.{IsPut, IsReplaced, IsSet, IsTableReplaced, IsTextWith};
ghost use Rattle.texts.specs.Settings.{IsUnset};
ghost use Rattle.toml.specs.Data.{as_table, get_member};
ghost use Rattle.toml.specs.Parse.{parse_document};
ghost use Rattle.toml.specs.View.{array_view, items_of, items_view, table_view, view};

use std::alloc::{AllocError, Global};
use thiserror::Error;
use toml::{Table, Value};

/// Why the values of a model file are not replaced.
#[derive(Clone, Copy, Debug, PartialEq, Eq, Error)]
pub enum SettingsFault {
    /// The text is not TOML.
    #[error("not TOML")]
    Toml,
    /// A setting was refused.
    #[error("{0}")]
    Setting(SettingFault),
    /// An allocation failed.
    #[error("NoMemory")]
    NoMemory,
}

/// Why a setting was refused. Printed as the setting's place among all, the first being 1, and the
/// reason.
#[derive(Clone, Copy, Debug, PartialEq, Eq, Error)]
pub enum SettingFault {
    /// The table has no key of this name, and nor has its table `numbers`, and there is no kind of the
    /// name before `.count`.
    #[error("{0} NoSuchKey")]
    NoSuchKey(usize),
    /// The text is no value of the kind that the value in the file has.
    #[error("{0} OtherKind")]
    OtherKind(usize),
}

/// Why a value is not replaced.
enum Refusal {
    NoSuchKey,
    OtherKind,
    NoMemory,
}

/// Returns the text of a model file in whose table these values are set, in this order: each time
/// the value at the key of this name, or else at the key of this name in the table `numbers`, or else,
/// where the name is `KIND.count`, the count of the first kind of that name.
///
/// Where the value is a string, the text that is set is the new one; otherwise it is TOML of a value
/// of the same kind. `Toml` comes if the text is not TOML, `Setting` with the first setting that is
/// refused, and `NoMemory` if an allocation failed.
///
/// Takes memory for the table and for the new text, and looks up each name in logarithmic time; each
/// setting of a number copies the table `numbers`, and each of a count looks through the kinds and
/// copies them.
pub fn with_settings(
    alloc: Global,
    text: &str,
    settings: &[(&str, &str)],
) -> Result<String, SettingsFault>
    ensures ok { IfOk result (λ new.
        IsTextWith (map (λ s. (s.0.now, s.1.now)) settings.now) text.now (string_bytes new)) }
    ensures unread { result ≡ Err SettingsFault.Toml → parse_document text.now ≡ None }
{
    let mut table = match toml::table_from_str(alloc, text) {
        Ok(table) => table,
        Err(error) if error.is_memory() => return Err(SettingsFault::NoMemory),
        Err(_) => return Err(SettingsFault::Toml),
    };
    set_all(alloc, &mut table, settings)?;
    match toml::table_to_string(alloc, &table) {
        Ok(new) => Ok(new),
        Err(_) => Err(SettingsFault::NoMemory),
    }
}

/// Sets these values of a table, in this order.
fn set_all(alloc: Global, table: &mut Table, settings: &[(&str, &str)]) -> Result<(), SettingsFault>
    ensures read { result ≡ Err SettingsFault.Toml → ⊥ }
    ensures ok { OnOk result (AreSet (map (λ s. (s.0.now, s.1.now)) settings.now)
        (table_view table.old) (table_view table.new)) }
{
    for (place, setting) in settings.iter().enumerate() {
        let (name, value) = *setting;
        match set(alloc, table, name, value) {
            Ok(()) => (),
            Err(refusal) => return Err(refusal.of(place)),
        }
    }
    Ok(())
}

impl Refusal {
    /// The fault of the setting at this place, the first being 0.
    fn of(self, place: usize) -> SettingsFault
        ensures { result ≡ SettingsFault.Toml → ⊥ }
    {
        let number = place.saturating_add(1);
        match self {
            Refusal::NoSuchKey => SettingsFault::Setting(SettingFault::NoSuchKey(number)),
            Refusal::OtherKind => SettingsFault::Setting(SettingFault::OtherKind(number)),
            Refusal::NoMemory => SettingsFault::NoMemory,
        }
    }
}

/// Sets the value of this name in a table, or else in its table `numbers`, or else the count of the
/// kind before `.count`.
fn set(alloc: Global, table: &mut Table, name: &str, text: &str) -> Result<(), Refusal>
    ensures ok { OnOk result
        (IsSet name.now text.now (table_view table.old) (table_view table.new)) }
    ensures unknown { result ≡ Err Refusal.NoSuchKey →
        present name.now (table_view table.old) ≡ None }
    ensures other { result ≡ Err Refusal.OtherKind →
        IsUnset name.now text.now (table_view table.old) }
{
    match value_at(table, name) {
        Some(_) => replace(alloc, table, name, text),
        None => {
            if has_number(table, name) {
                set_number(alloc, table, name, text)
            } else {
                set_count(alloc, table, name, text)
            }
        }
    }
}

/// Whether the table `numbers` of a table has a key of this name.
fn has_number(table: &Table, name: &str) -> bool
    ensures { result ≡ is_some (option_and_then (get_member name.now)
        (numbers_of (table_view table.now))) }
{
    let Some(numbers) = value_at(table, "numbers") else {
        return false;
    };
    match numbers.as_table() {
        Some(numbers) => value_at(numbers, name).is_some(),
        None => false,
    }
}

/// Sets the count of the kind whose name stands before `.count`, in a table that has neither a key
/// nor a number of the whole name.
fn set_count(alloc: Global, table: &mut Table, name: &str, text: &str) -> Result<(), Refusal>
    requires none { get_member name.now (table_view table.now) ≡ None }
    requires no_number { option_and_then (get_member name.now) (numbers_of (table_view table.now))
        ≡ None }
    ensures ok { OnOk result
        (IsCountReplaced name.now text.now (table_view table.old) (table_view table.new)) }
    ensures unknown { result ≡ Err Refusal.NoSuchKey →
        count_of name.now (table_view table.old) ≡ None }
    ensures other { result ≡ Err Refusal.OtherKind →
        option_and_then (λ old. value_as old text.now) (count_of name.now (table_view table.old))
        ≡ None }
{
    let Some(kind) = kind_before(name) else {
        return Err(Refusal::NoSuchKey);
    };
    let Some(kinds) = value_at(table, "kind") else {
        return Err(Refusal::NoSuchKey);
    };
    let Some(kinds) = kinds.as_array() else {
        return Err(Refusal::NoSuchKey);
    };
    let changed = with_count(alloc, kinds, kind, text)?;
    put(alloc, table, "kind", Value::Array(changed))
}

/// The name before `.count`, where that ends a name.
#[tactic(auto, unfolding(crate::specs::Settings::kind_before))]
fn kind_before(name: &str) -> Option<&[u8]>
    ensures { option_map (λ kind. kind.now) result ≡ kind_before name.now }
{
    match name.as_bytes().strip_suffix(".count".as_bytes()) {
        Some(kind) => Some(kind),
        None => None,
    }
}

/// Whether a value is a kind of this name.
fn is_kind(kind: &Value, name: &[u8]) -> bool
    ensures { result ≡ is_kind name.now (view kind.now) }
{
    let Some(table) = kind.as_table() else {
        return false;
    };
    let Some(value) = value_at(table, "name") else {
        return false;
    };
    match value.as_str() {
        Some(other) => other.as_bytes() == name,
        None => false,
    }
}

/// Returns a copy of kinds in which the count of the first one of this name is set.
fn with_count(
    alloc: Global,
    kinds: &[Value],
    name: &[u8],
    text: &str,
) -> Result<Vec<Value>, Refusal>
    ensures ok { IfOk result (λ new.
        IsCountAmong name.now text.now (items_view kinds.now) (array_view new)) }
    ensures unknown { result ≡ Err Refusal.NoSuchKey →
        count_among name.now (items_view kinds.now) ≡ None }
    ensures other { result ≡ Err Refusal.OtherKind →
        option_and_then (λ old. value_as old text.now)
        (count_among name.now (items_view kinds.now)) ≡ None }
{
    'kinds: for (place, kind) in kinds.iter().enumerate() {
        if is_kind(kind, name) {
            let changed = with_number(alloc, kind, "count", text)?;
            return with_item(alloc, kinds, place, changed);
        }
    }
    Err(Refusal::NoSuchKey)
}

/// Returns a copy of values with this one at a place.
fn with_item(
    alloc: Global,
    values: &[Value],
    place: usize,
    new: Value,
) -> Result<Vec<Value>, Refusal>
    requires { place < length values.now }
    ensures ok { IfOk result (λ all. array_view all
        ≡ items_of (slice_set (map view values.now) place (view new))) }
    ensures memory { (refusal : Refusal) → result ≡ Err refusal → refusal ≡ Refusal.NoMemory }
{
    let mut all = copies(alloc, values)?;
    all[place] = new;
    Ok(all)
}

/// Returns a copy of values.
fn copies(alloc: Global, values: &[Value]) -> Result<Vec<Value>, AllocError>
    ensures { IfOk result (λ all. map view all.items ≡ map view values.now) }
{
    let mut all = Vec::new(alloc);
    'values: for value in values {
        all.push(value.clone()?)?;
    }
    Ok(all)
}

/// Sets the number of this name in a table that has no key of this name.
fn set_number(alloc: Global, table: &mut Table, name: &str, text: &str) -> Result<(), Refusal>
    requires { get_member name.now (table_view table.now) ≡ None }
    ensures ok { OnOk result
        (IsNumberReplaced name.now text.now (table_view table.old) (table_view table.new)) }
    ensures unknown { result ≡ Err Refusal.NoSuchKey →
        option_and_then (get_member name.now) (numbers_of (table_view table.old)) ≡ None }
    ensures other { result ≡ Err Refusal.OtherKind →
        option_and_then (λ old. value_as old text.now)
        (option_and_then (get_member name.now) (numbers_of (table_view table.old))) ≡ None }
{
    match value_at(table, "numbers") {
        Some(numbers) => {
            let changed = with_number(alloc, numbers, name, text)?;
            put(alloc, table, "numbers", changed)
        }
        None => Err(Refusal::NoSuchKey),
    }
}

/// Returns a copy of a table in which the value at the key of this name is set.
fn with_number(alloc: Global, numbers: &Value, name: &str, text: &str) -> Result<Value, Refusal>
    ensures ok { IfOk result (λ new.
        IsTableReplaced name.now text.now (view numbers.now) (view new)) }
    ensures unknown { result ≡ Err Refusal.NoSuchKey →
        option_and_then (get_member name.now) (as_table (view numbers.now)) ≡ None }
    ensures other { result ≡ Err Refusal.OtherKind →
        option_and_then (λ old. value_as old text.now)
        (option_and_then (get_member name.now) (as_table (view numbers.now))) ≡ None }
{
    match numbers.clone()? {
        Value::Table(mut numbers) => {
            replace(alloc, &mut numbers, name, text)?;
            Ok(Value::Table(numbers))
        }
        _ => Err(Refusal::NoSuchKey),
    }
}

/// Replaces the value at a key of a table.
fn replace(alloc: Global, table: &mut Table, key: &str, text: &str) -> Result<(), Refusal>
    ensures ok { OnOk result
        (IsReplaced key.now text.now (table_view table.old) (table_view table.new)) }
    ensures unknown { result ≡ Err Refusal.NoSuchKey →
        get_member key.now (table_view table.old) ≡ None }
    ensures other { result ≡ Err Refusal.OtherKind →
        option_and_then (λ old. value_as old text.now) (get_member key.now (table_view table.old))
        ≡ None }
{
    match value_at(table, key) {
        Some(old) => {
            let new = value_as(alloc, old, text)?;
            put(alloc, table, key, new)
        }
        None => Err(Refusal::NoSuchKey),
    }
}

/// Returns the value at a key of a table, if there is one.
fn value_at<'a>(table: &'a Table, key: &str) -> Option<&'a Value>
    ensures { option_map (λ v. view v.now) result ≡ get_member key.now (table_view table.now) }
{
    table.get(key)
}

/// Returns the value that a text is in place of this one.
fn value_as(alloc: Global, old: &Value, text: &str) -> Result<Value, Refusal>
    ensures ok { IfOk result (λ new. value_as (view old.now) text.now ≡ Some (view new)) }
    ensures known { result ≡ Err Refusal.NoSuchKey → ⊥ }
    ensures other { result ≡ Err Refusal.OtherKind → value_as (view old.now) text.now ≡ None }
{
    if old.is_str() {
        return Ok(Value::string(alloc, text)?);
    }
    match Value::from_str(alloc, text) {
        Ok(new) if new.same_type(old) => Ok(new),
        Ok(_) => Err(Refusal::OtherKind),
        Err(error) if error.is_memory() => Err(Refusal::NoMemory),
        Err(_) => Err(Refusal::OtherKind),
    }
}

/// Puts a value at a key of a table.
fn put(alloc: Global, table: &mut Table, key: &str, value: Value) -> Result<(), Refusal>
    ensures ok { OnOk result
        (IsPut key.now (view value) (table_view table.old) (table_view table.new)) }
    ensures memory { (refusal : Refusal) → result ≡ Err refusal → refusal ≡ Refusal.NoMemory }
{
    let key = String::from_str(alloc, key)?;
    match table.insert(key, value) {
        Ok(_) => Ok(()),
        Err(_) => Err(Refusal::NoMemory),
    }
}

impl From<AllocError> for Refusal {
    ghost use Rattle.texts.specs.declared.settings.Refusal.TheVariants.{NoMemory};

    ghost from_gives = { λ _ e. e ≡ NoMemory };

    fn from(_refused: AllocError) -> Refusal {
        Refusal::NoMemory
    }
}
