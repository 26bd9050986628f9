// The names that commands print with states and messages.

ghost use Rattle.std.specs.Prelude.{◌≡◌, ◌≤◌, ◌<◌, ℕ, List, IfOk};
ghost use Rattle.rules.specs.Elements.{element, word_of};
ghost use Rattle.texts.specs.Names.{number_of};

use crate::arrays::NamedArray;
use crate::file_model::{FileNames, KindNames};
use crate::scope::{Field, NamedSort, OTHERS, is_word};
use rules::Array;
use std::alloc::{AllocError, Global};
use texts::{Column, Kind, Names, Sort};

/// Returns the names of a model without kinds.
pub(crate) fn shown_alone(alloc: Global, lps: u32, names: &FileNames) -> Result<Names, AllocError> {
    let mut kinds = Vec::new(alloc);
    kinds.push(Kind {
        name: String::new(alloc),
        first: 0,
        count: lps,
        columns: columns_of(alloc, names)?,
    })?;
    let sorts = if names.sorts.is_empty() {
        one_sort(alloc, names.content.as_slice())?
    } else {
        sorts_of(alloc, names.sorts.as_slice())?
    };
    Ok(Names { kinds, sorts })
}

/// Returns the names of a model with kinds. Without sorts, a word of content has the name on which
/// all kinds agree that name it.
pub(crate) fn shown_kinds(alloc: Global, all: &[KindNames]) -> Result<Names, AllocError> {
    let mut kinds = Vec::new(alloc);
    for kind in all {
        kinds.push(Kind {
            name: String::from_str(alloc, kind.head.name.as_str())?,
            first: kind.head.first,
            count: kind.head.count,
            columns: columns_of(alloc, &kind.names)?,
        })?;
    }
    let sorts = match all.first() {
        Some(kind) if !kind.names.sorts.is_empty() => {
            sorts_of(alloc, kind.names.sorts.as_slice())?
        }
        _ => one_sort(alloc, agreed(alloc, all)?.as_slice())?,
    };
    Ok(Names { kinds, sorts })
}

/// Returns the columns of a state: its words, and the elements of its arrays.
fn columns_of(alloc: Global, names: &FileNames) -> Result<Vec<Column>, AllocError> {
    let mut columns = Vec::new(alloc);
    for (place, word) in names.words.iter().enumerate() {
        if is_word(word.as_str()) {
            let name = String::from_str(alloc, word.as_str())?;
            columns.push(Column::word(name, place.min(255) as u8))?;
        } else {
            put_elements_at(alloc, names.arrays.as_slice(), place, &mut columns)?;
        }
    }
    Ok(columns)
}

/// Appends the elements of the array that begins at a place, if one does.
fn put_elements_at(
    alloc: Global,
    arrays: &[NamedArray],
    place: usize,
    columns: &mut Vec<Column>,
) -> Result<(), AllocError> {
    for named in arrays {
        if usize::from(named.array.place) == place {
            put_elements(alloc, named, columns)?;
        }
    }
    Ok(())
}

/// Appends the elements of an array.
fn put_elements(
    alloc: Global,
    named: &NamedArray,
    columns: &mut Vec<Column>,
) -> Result<(), AllocError> {
    let array = named.array;
    if array.bits < 1 || array.bits > 64 {
        return Ok(());
    }
    for index in 0..array.count {
        let place = usize::from(array.place).saturating_add(usize::from(index) / array.per_word());
        if place < 16 {
            columns.push(element_column(alloc, named.name.as_str(), array, index)?)?;
        }
    }
    Ok(())
}

/// Returns the column of an element of an array: in each state its number is the element.
fn element_column(alloc: Global, name: &str, array: Array, index: u16) -> Result<Column, AllocError>
    requires some { 1 ≤ array.bits }
    requires few { array.bits ≤ 64 }
    requires there { index < array.count }
    requires within { word_of array index < 16 }
    ensures { IfOk result (λ column. (state : List ℕ) →
        number_of column.place column.shift column.bits state ≡ element array state index) }
{
    let each = array.per_word();
    let index = usize::from(index);
    let name = format!(in alloc; "{name}[{index}]")?;
    let place = usize::from(array.place) + index / each;
    let shift = index % each * usize::from(array.bits);
    Ok(Column {
        name,
        place: place as u8,
        shift: shift as u8,
        bits: array.bits,
    })
}

/// Returns the names of the only sort of messages, in which words of content have these names.
fn one_sort(alloc: Global, content: &[String]) -> Result<Vec<Sort>, AllocError> {
    let mut words = Vec::new(alloc);
    for word in content {
        words.push(String::from_str(alloc, word.as_str())?)?;
    }
    let mut sorts = Vec::new(alloc);
    sorts.push(Sort {
        name: String::new(alloc),
        words,
    })?;
    Ok(sorts)
}

/// Returns the names of the sorts of messages.
fn sorts_of(alloc: Global, all: &[NamedSort]) -> Result<Vec<Sort>, AllocError> {
    let mut sorts = Vec::new(alloc);
    for sort in all {
        sorts.push(Sort {
            name: String::from_str(alloc, sort.name.as_str())?,
            words: words_of(alloc, sort.fields.as_slice())?,
        })?;
    }
    Ok(sorts)
}

/// Returns the names of the words of a sort's messages: the first one, its number, has none.
fn words_of(alloc: Global, fields: &[String]) -> Result<Vec<String>, AllocError> {
    let mut words = Vec::new(alloc);
    words.push(String::new(alloc))?;
    for field in fields {
        let name = if field.as_str() == "_" {
            ""
        } else {
            field.as_str()
        };
        words.push(String::from_str(alloc, name)?)?;
    }
    Ok(words)
}

/// Returns the names of words of content on which all kinds agree that name them.
fn agreed(alloc: Global, kinds: &[KindNames]) -> Result<Vec<String>, AllocError> {
    let mut words = Vec::new(alloc);
    for place in 0..4usize {
        words.push(String::from_str(alloc, agreed_at(kinds, place))?)?;
    }
    Ok(words)
}

/// Returns the name of a word of content on which all kinds agree that name it, or nothing.
fn agreed_at(kinds: &[KindNames], place: usize) -> &str {
    let mut agreed = "";
    for kind in kinds {
        let name = match kind.names.content.get(place) {
            Some(name) => name.as_str(),
            None => "",
        };
        if !name.is_empty() && !agreed.is_empty() && name != agreed {
            return "";
        }
        if !name.is_empty() {
            agreed = name;
        }
    }
    agreed
}

/// Returns the names of the words of content for the text of a rule: that of the only field at a
/// place, or the one by the place.
pub(crate) fn content_names(alloc: Global, fields: &[Field]) -> Result<Vec<String>, AllocError> {
    let mut names = Vec::new(alloc);
    for (place, other) in OTHERS.iter().enumerate() {
        let name = only_field(fields, place).unwrap_or(*other);
        names.push(String::from_str(alloc, name)?)?;
    }
    Ok(names)
}

/// Returns the name of the field at a place, if there is just one.
fn only_field(fields: &[Field], place: usize) -> Option<&str> {
    let mut only = None;
    for field in fields {
        if usize::from(field.place) == place {
            if only.is_some() {
                return None;
            }
            only = Some(field.name.as_str());
        }
    }
    only
}
