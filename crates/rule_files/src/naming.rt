// Which name of the file of a model by rules is at fault, and why.

use crate::arrays::{declared_in, is_digit, number_in as number_at_start};
use crate::entries::{
    content_of, has_sorts, has_words, named_sorts_of, number_in, numbers_of, sorts_of, tables_of,
    value_at,
};
use crate::kinds::KindTable;
use crate::scope::{Named, NamedSort, OTHERS, is_name, is_reserved, is_word};
use rules::Array;
use std::alloc::{AllocError, Global};
use texts::{Found, Inside, NameMistake, found_in};
use toml::{Table, Value};

/// Returns the first mistake in the list or the table of names at a key, if it is one of a name, of
/// its value, or of their number.
pub(crate) fn mistake_in(
    alloc: Global,
    table: &Table,
    list: &'static str,
) -> Result<Option<Inside>, AllocError> {
    let Some(value) = value_at(table, list) else {
        return Ok(None);
    };
    let mistake = match list {
        "state" => state_mistake(alloc, value, list)?,
        "message" => word_mistake(alloc, value, list)?,
        "messages" => match sort_mistake(alloc, value, list)? {
            Some(mistake) => Some(mistake),
            None => return apart_mistake(alloc, table),
        },
        _ => entry_mistake(alloc, value, list, list == "tables")?,
    };
    match mistake {
        Some(mistake) => Ok(Some(Inside::Name(mistake))),
        None => Ok(None),
    }
}

/// Returns the mistake of a list with too many names or numbers.
fn too_many(
    alloc: Global,
    list: &'static str,
    count: usize,
    what: &str,
    most: usize,
) -> Result<Option<NameMistake>, AllocError> {
    if count <= most {
        return Ok(None);
    }
    Ok(Some(NameMistake {
        list,
        name: String::new(alloc),
        before: 0,
        is_value: false,
        why: format!(in alloc; "{count} {what}, and at most {most} are allowed")?,
    }))
}

/// Returns the first mistake in a list of names.
fn word_mistake(
    alloc: Global,
    value: &Value,
    list: &'static str,
) -> Result<Option<NameMistake>, AllocError> {
    let Some(items) = value.as_array() else {
        return Ok(None);
    };
    let items = items.as_slice();
    for (place, item) in items.iter().enumerate() {
        if !is_right(item) {
            return Ok(Some(refused_item(alloc, list, place, item)?));
        }
    }
    if items.len() > 4 {
        return too_many(alloc, list, items.len(), "words", 4);
    }
    Ok(Some(NameMistake {
        list,
        name: String::new(alloc),
        before: 0,
        is_value: false,
        why: format!(in alloc; "the words are named in messages, sort by sort")?,
    }))
}

/// Returns the first mistake in a table of sorts of messages.
fn sort_mistake(
    alloc: Global,
    value: &Value,
    list: &'static str,
) -> Result<Option<NameMistake>, AllocError> {
    let Some(table) = value.as_table() else {
        return Ok(None);
    };
    let mut names = 0usize;
    'names: for (key, value) in table.iter() {
        let name = key.as_str();
        if !is_name(name) {
            return Ok(Some(refused_name(alloc, list, name)?));
        }
        if let Some(why) = fields_mistake(alloc, value)? {
            return Ok(Some(NameMistake {
                list,
                name: String::from_str(alloc, name)?,
                before: 0,
                is_value: true,
                why,
            }));
        }
        names = names.saturating_add(1);
    }
    too_many(alloc, list, names, "names", 1024)
}

/// Returns what is wrong with the fields of a sort, if something is.
fn fields_mistake(alloc: Global, value: &Value) -> Result<Option<String>, AllocError> {
    let Some(items) = value.as_array() else {
        let found = found_in(value);
        return Ok(Some(format!(in alloc; "{found}; expected a list of at most 3 names")?));
    };
    let items = items.as_slice();
    for (place, item) in items.iter().enumerate() {
        let number = place.saturating_add(1);
        let why = match item.as_str() {
            Some(name) if is_name(name) => continue,
            Some(name) => name_why(alloc, name)?,
            None => {
                let found = found_in(item);
                format!(in alloc; "{found}; expected a name")?
            }
        };
        let why = why.as_str();
        return Ok(Some(format!(in alloc; "item {number}: {why}")?));
    }
    let count = items.len();
    if count > 3 {
        return Ok(Some(format!(in alloc; "{count} names, and at most 3 are allowed")?));
    }
    Ok(None)
}

/// Returns whether an item is a name.
fn is_right(item: &Value) -> bool {
    match item.as_str() {
        Some(word) => is_name(word),
        None => false,
    }
}

/// Returns the first mistake in the list of the words and the arrays of the state.
fn state_mistake(
    alloc: Global,
    value: &Value,
    list: &'static str,
) -> Result<Option<NameMistake>, AllocError> {
    let Some(items) = value.as_array() else {
        return Ok(None);
    };
    let items = items.as_slice();
    let mut words = 0usize;
    let mut last = None;
    for (place, item) in items.iter().enumerate() {
        let Some(more) = words_at(item) else {
            return Ok(Some(refused_item(alloc, list, place, item)?));
        };
        words = words.saturating_add(more);
        if words > 16 && last.is_none() {
            last = Some(item);
        }
    }
    if words == items.len() {
        return too_many(alloc, list, words, "words", 16);
    }
    match last {
        Some(item) => Ok(Some(too_many_bits(alloc, list, words, item)?)),
        None => Ok(None),
    }
}

/// Returns how many words an item of the state has, if it is a name, `key` or an array.
fn words_at(item: &Value) -> Option<usize> {
    let text = item.as_str()?;
    if is_word(text) {
        return Some(1);
    }
    let declared = declared_in(text)?;
    let array = Array {
        place: 0,
        bits: declared.bits,
        count: declared.count,
    };
    Some(array.words())
}

/// Returns the mistake of a state with too many bits, at the item with which they are too many.
fn too_many_bits(
    alloc: Global,
    list: &'static str,
    words: usize,
    item: &Value,
) -> Result<NameMistake, AllocError> {
    let bits = words.saturating_mul(64);
    let over = bits.saturating_sub(1024);
    Ok(NameMistake {
        list,
        name: String::from_str(alloc, item.as_str().unwrap_or(""))?,
        before: 0,
        is_value: false,
        why: format!(in alloc; "{bits} bits in whole words, {over} more than the 1024 of a state")?,
    })
}

/// Returns the mistake of an item that is no name.
fn refused_item(
    alloc: Global,
    list: &'static str,
    place: usize,
    item: &Value,
) -> Result<NameMistake, AllocError> {
    let Some(word) = item.as_str() else {
        let found = found_in(item);
        let number = place.saturating_add(1);
        return Ok(NameMistake {
            list,
            name: String::new(alloc),
            before: 0,
            is_value: false,
            why: format!(in alloc; "item {number}: {found}; expected a name")?,
        });
    };
    refused_name(alloc, list, word)
}

/// Returns the mistake of a text that is no name, and declares no array.
fn refused_name(alloc: Global, list: &'static str, text: &str) -> Result<NameMistake, AllocError> {
    let why = match text.split_once('[') {
        Some((name, rest)) if list == "state" && is_name(name) => array_why(alloc, text, rest)?,
        Some((name, _)) if list == "state" => name_why(alloc, name)?,
        _ => name_why(alloc, text)?,
    };
    Ok(NameMistake {
        list,
        name: String::from_str(alloc, text)?,
        before: 0,
        is_value: false,
        why,
    })
}

/// Returns why a text is no name.
fn name_why(alloc: Global, name: &str) -> Result<String, AllocError> {
    if is_reserved(name) {
        format!(in alloc; "{name:?} is a word of the language")
    } else {
        format!(in alloc; "{name:?} is no name: {NAME}")
    }
}

/// Returns why a text that begins with a name and a bracket declares no array. The rest is what
/// stands after the bracket.
fn array_why(alloc: Global, text: &str, rest: &str) -> Result<String, AllocError> {
    match count_and_bits(rest) {
        Some((count, _)) if !is_within(count, 1024) => {
            format!(in alloc; "the number of elements, {count}, is not within 1 to 1024")
        }
        Some((_, bits)) => {
            format!(in alloc; "the bits of an element, {bits}, are not within 1 to 64")
        }
        None => format!(in alloc; "{text:?} is no array: expected NAME[COUNT]: BITS bits"),
    }
}

/// Returns the digits of the number of elements, and those of the bits of an element, if the text
/// after the first bracket of a declaration has them.
fn count_and_bits(rest: &str) -> Option<(&str, &str)> {
    let (count, rest) = rest.split_once("]: ")?;
    let bits = match rest.strip_suffix(" bits") {
        Some(bits) => bits,
        None => rest.strip_suffix(" bit")?,
    };
    if are_digits(count) && are_digits(bits) {
        Some((count, bits))
    } else {
        None
    }
}

/// Returns whether a text is one or more decimal digits.
fn are_digits(text: &str) -> bool {
    for byte in text.as_bytes() {
        if !is_digit(*byte) {
            return false;
        }
    }
    !text.is_empty()
}

/// Returns whether these digits say a number from 1 to `most`, which is below 65,536.
fn is_within(digits: &str, most: u64) -> bool {
    let number = number_at_start(digits.as_bytes());
    1 <= number && number <= most
}

/// What a name is.
const NAME: &str =
    "a letter or an underscore, then letters, digits and underscores, at most 64 in all";

/// The greatest number that a file can name.
const MOST: u64 = u64::MAX >> 1;

/// Returns the first mistake in a table of names with numbers, or with lists of numbers.
fn entry_mistake(
    alloc: Global,
    value: &Value,
    list: &'static str,
    is_table: bool,
) -> Result<Option<NameMistake>, AllocError> {
    let Some(table) = value.as_table() else {
        return Ok(None);
    };
    let mut names = 0usize;
    let mut numbers = 0usize;
    'names: for (key, value) in table.iter() {
        let name = key.as_str();
        if !is_name(name) {
            return Ok(Some(refused_name(alloc, list, name)?));
        }
        if let Some(why) = value_mistake(alloc, value, is_table)? {
            return Ok(Some(NameMistake {
                list,
                name: String::from_str(alloc, name)?,
                before: 0,
                is_value: true,
                why,
            }));
        }
        names = names.saturating_add(1);
        numbers = numbers.saturating_add(count_in(value));
    }
    match too_many(alloc, list, names, "names", 1024)? {
        Some(mistake) => Ok(Some(mistake)),
        None => too_many(alloc, list, numbers, "numbers in all", 1 << 20),
    }
}

/// Returns how many items a list has, and 0 for another value.
fn count_in(value: &Value) -> usize {
    match value.as_array() {
        Some(items) => items.as_slice().len(),
        None => 0,
    }
}

/// Returns what is wrong with the value of a name, if something is.
fn value_mistake(
    alloc: Global,
    value: &Value,
    is_table: bool,
) -> Result<Option<String>, AllocError> {
    if !is_table {
        return if number_in(value).is_some() {
            Ok(None)
        } else {
            Ok(Some(refused_number(alloc, found_in(value))?))
        };
    }
    let Some(items) = value.as_array() else {
        let found = found_in(value);
        return Ok(Some(format!(in alloc; "{found}; expected a list of numbers")?));
    };
    let items = items.as_slice();
    if items.is_empty() {
        return Ok(Some(format!(in alloc; "an empty list; expected one or more numbers")?));
    }
    for (place, item) in items.iter().enumerate() {
        if number_in(item).is_none() {
            let number = place.saturating_add(1);
            let why = refused_number(alloc, found_in(item))?;
            let why = why.as_str();
            return Ok(Some(format!(in alloc; "item {number}: {why}")?));
        }
    }
    Ok(None)
}

/// Returns why a value is no number of a model by rules.
fn refused_number(alloc: Global, found: Found) -> Result<String, AllocError> {
    match found {
        Found::Number(_) => format!(in alloc; "{found} is not within 0 to {MOST}"),
        _ => format!(in alloc; "{found}; expected a whole number from 0 to {MOST}"),
    }
}

/// A name that a file gives, and the key of its list or table. The key is empty for the words of
/// content that are named by their places.
#[derive(Clone, Copy)]
struct Given<'a> {
    list: &'static str,
    name: &'a str,
    /// The name as the file has it: for an array, its declaration.
    text: &'a str,
}

/// Returns the mistake of the first name that is there twice among those of a table in a file with
/// these kinds, if all names can be read.
pub(crate) fn twice_in(
    alloc: Global,
    file: &Table,
    table: &Table,
    kinds: &[KindTable<'_>],
) -> Result<Option<Inside>, AllocError> {
    let content = content_of(alloc, has_sorts(file), table)?;
    let (true, Some(content)) = (has_words(alloc, table)?, content) else {
        return Ok(None);
    };
    let (Some(numbers), Some(tables)) = (numbers_of(alloc, file)?, tables_of(alloc, file)?) else {
        return Ok(None);
    };
    let Some(sorts) = sorts_of(alloc, file)? else {
        return Ok(None);
    };
    let mut names = Vec::new(alloc);
    put_state(&mut names, value_at(table, "state"))?;
    put_words(&mut names, "message", content.as_slice())?;
    put_others(&mut names, content.len())?;
    put_entries(&mut names, "numbers", numbers.as_slice())?;
    put_entries(&mut names, "tables", tables.as_slice())?;
    put_sorts(&mut names, sorts.as_slice())?;
    for kind in kinds {
        put_name(&mut names, KIND_NAME, kind.head.name.as_str())?;
    }
    match first_twice(alloc, names.as_slice())? {
        Some(mistake) => Ok(Some(mistake)),
        None => field_twice(alloc, sorts.as_slice(), names.as_slice()),
    }
}

/// Returns the mistake of the first field that stands at another place in another sort.
fn apart_mistake(alloc: Global, table: &Table) -> Result<Option<Inside>, AllocError> {
    match named_sorts_of(alloc, table)? {
        Some(sorts) => field_twice(alloc, sorts.as_slice(), &[]),
        None => Ok(None),
    }
}

/// Appends the names of sorts of messages.
fn put_sorts<'a>(names: &mut Vec<Given<'a>>, sorts: &'a [NamedSort]) -> Result<(), AllocError> {
    for sort in sorts {
        put_name(names, "messages", sort.name.as_str())?;
    }
    Ok(())
}

/// Appends a name.
fn put_name<'a>(
    names: &mut Vec<Given<'a>>,
    list: &'static str,
    name: &'a str,
) -> Result<(), AllocError> {
    names.push(Given {
        list,
        name,
        text: name,
    })?;
    Ok(())
}

/// A field, and its place in the messages of its sort.
#[derive(Clone, Copy)]
struct Placed<'a> {
    sort: &'a str,
    name: &'a str,
    place: usize,
}

/// Returns the mistake of the first field that is one of these names, or stands at another place in
/// another sort.
fn field_twice(
    alloc: Global,
    sorts: &[NamedSort],
    names: &[Given<'_>],
) -> Result<Option<Inside>, AllocError> {
    let mut fields = Vec::new(alloc);
    for sort in sorts {
        if let Some(why) = sort_twice(alloc, sort, names, &mut fields)? {
            return Ok(Some(Inside::Name(NameMistake {
                list: "messages",
                name: String::from_str(alloc, sort.name.as_str())?,
                before: 0,
                is_value: true,
                why,
            })));
        }
    }
    Ok(None)
}

/// Returns what is wrong with the fields of a sort after those of the sorts before it.
fn sort_twice<'a>(
    alloc: Global,
    sort: &'a NamedSort,
    names: &[Given<'_>],
    fields: &mut Vec<Placed<'a>>,
) -> Result<Option<String>, AllocError> {
    for (index, field) in sort.fields.iter().enumerate() {
        let name = field.as_str();
        let place = index.saturating_add(1);
        if name == "_" {
            continue;
        }
        if let Some(given) = equal_in(names, name) {
            return Ok(Some(also_in(alloc, name, given.list)?));
        }
        if let Some(other) = elsewhere(fields.as_slice(), name, place) {
            let (sort, at) = (other.sort, other.place);
            return Ok(Some(format!(in alloc;
                "{name:?} is field {place} here, and field {at} of {sort:?}"
            )?));
        }
        fields.push(Placed {
            sort: sort.name.as_str(),
            name,
            place,
        })?;
    }
    Ok(None)
}

/// Returns the field of this name at another place, if there is one.
fn elsewhere<'a>(fields: &[Placed<'a>], name: &str, place: usize) -> Option<Placed<'a>> {
    for field in fields {
        if field.name == name && field.place != place {
            return Some(*field);
        }
    }
    None
}

/// Returns the mistake of the first of these names that is one before it.
fn first_twice(alloc: Global, names: &[Given<'_>]) -> Result<Option<Inside>, AllocError> {
    for (place, later) in names.iter().enumerate() {
        if let Some(earlier) = equal_in(names.split_at(place).0, later.name) {
            return Ok(Some(Inside::Name(named_twice(alloc, earlier, *later)?)));
        }
    }
    Ok(None)
}

/// Appends the names of the words of content that have none of their own.
fn put_others(names: &mut Vec<Given<'_>>, count: usize) -> Result<(), AllocError> {
    for i in count.min(4)..4 {
        names.push(Given {
            list: "",
            name: OTHERS[i],
            text: OTHERS[i],
        })?;
    }
    Ok(())
}

/// Appends the names of the words and the arrays of the state.
fn put_state<'a>(names: &mut Vec<Given<'a>>, value: Option<&'a Value>) -> Result<(), AllocError> {
    let Some(value) = value else {
        return Ok(());
    };
    let Some(items) = value.as_array() else {
        return Ok(());
    };
    for item in items.as_slice() {
        if let Some(text) = item.as_str() {
            names.push(Given {
                list: "state",
                name: name_of(text),
                text,
            })?;
        }
    }
    Ok(())
}

/// Returns the name of a word or an array of the state.
fn name_of(text: &str) -> &str {
    match text.split_once('[') {
        Some((name, _)) => name,
        None => text,
    }
}

/// Appends the names of a list.
fn put_words<'a>(
    names: &mut Vec<Given<'a>>,
    list: &'static str,
    words: &'a [String],
) -> Result<(), AllocError> {
    for word in words {
        names.push(Given {
            list,
            name: word.as_str(),
            text: word.as_str(),
        })?;
    }
    Ok(())
}

/// Appends the names of a table.
fn put_entries<'a>(
    names: &mut Vec<Given<'a>>,
    list: &'static str,
    entries: &'a [Named],
) -> Result<(), AllocError> {
    for entry in entries {
        names.push(Given {
            list,
            name: entry.name.as_str(),
            text: entry.name.as_str(),
        })?;
    }
    Ok(())
}

/// Returns which of these names is this one, if one is.
fn equal_in<'a>(names: &[Given<'a>], name: &str) -> Option<Given<'a>> {
    for given in names {
        if given.name == name {
            return Some(*given);
        }
    }
    None
}

/// The key of the name of a kind, in the table of the kind.
const KIND_NAME: &str = "name";

/// Returns why a name is at fault that the file gives to something else too, in this list.
fn also_in(alloc: Global, name: &str, list: &str) -> Result<String, AllocError> {
    match list {
        "" => format!(in alloc;
            "{name:?} is also the name of a word of a message, which are a, b, c and d where they have no names"
        ),
        KIND_NAME => format!(in alloc; "{name:?} is also the name of a kind"),
        _ => format!(in alloc; "{name:?} is also a name in {list}"),
    }
}

/// Returns the mistake of a name that is there twice, at the later place that the file has.
fn named_twice(
    alloc: Global,
    earlier: Given<'_>,
    later: Given<'_>,
) -> Result<NameMistake, AllocError> {
    let name = earlier.name;
    let (at, other) = if later.list.is_empty() {
        (earlier, later)
    } else {
        (later, earlier)
    };
    let is_same = at.list == other.list;
    let why = if is_same {
        format!(in alloc; "{name:?} is there twice")?
    } else {
        also_in(alloc, name, other.list)?
    };
    Ok(NameMistake {
        list: at.list,
        name: String::from_str(alloc, at.text)?,
        before: usize::from(is_same && earlier.text == later.text),
        is_value: false,
        why,
    })
}
