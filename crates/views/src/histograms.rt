// The histogram of a word of messages. Clauses say only that it is UTF-8: scripts hold it.

ghost use Rattle.std.specs.Prelude.{◌≡◌, ◌⊎◌, OnErr, OnOk};
ghost use Rattle.std.specs.Str.{IsUtf8};
ghost use Rattle.views.specs.Views.{Begins, Prints};

use crate::fault::ViewFault;
use crate::files::read_model_file;
use crate::looking::time_of;
use crate::named::print_text;
use crate::rows::{letter_of, sorts_of};
use cli::{SourceArgs, most_sectors};
use pictures::{Bins, Histogram, Tallied, Tally, Word, bins_of, tally_of, write_histogram};
use std::alloc::{AllocError, Global};
use std::fs::File;
use std::io::Write;
use std::rt::Files;
use texts::{Described, Names, Sort};

/// Writes the histogram of a named word of messages: of those handled up to the time committed on a
/// disk, or without a disk up to the end. Returns `NoSuchWord` if no word has this name, or the words
/// of several sorts of messages.
pub(crate) fn histogram_on<M, R, O>(
    rt: &R,
    of: SourceArgs<'_>,
    name: &str,
    out: &mut O,
) -> Result<(), ViewFault>
where
    M: Described,
    R: Files<File = File> + AllocGlobal,
    O: Write,
    ensures ok { OnOk result (Prints IsUtf8 (O.contents out.old) (O.contents out.new)) }
    ensures err { OnErr result ((out.new ≡ out.old)
        ⊎ Begins IsUtf8 (O.contents out.old) (O.contents out.new)) }
{
    let (model, end): (M, u64) = read_model_file(rt, of.model)?;
    let Some(named) = word_named(model.names(), name) else {
        return Err(ViewFault::NoSuchWord);
    };
    let to = time_of(rt, &model, end, of.disk, most_sectors(of.large))?;
    let tally = tally_of(rt.alloc(), &model, end, to, named.word)?;
    let picture = picture_of(rt.alloc(), &named, &tally, to.min(end))?;
    match str::from_utf8(picture.as_slice()) {
        Ok(text) => print_text(text, out),
        Err(_) => Err(ViewFault::NoMemory),
    }
}

/// The picture, as UTF-8.
fn picture_of(
    alloc: Global,
    named: &Named<'_>,
    tally: &Tally,
    time: u64,
) -> Result<Vec<u8>, AllocError> {
    let tallied = tally.figures(alloc)?;
    let bins = bins_of(alloc, tally)?;
    let (sort, word) = (named.sort, named.name);
    let (figures, bars) = (tallied.as_ref(), bins.as_ref());
    let histogram = histogram_of(sort, word, time, figures, bars, tally.is_exact());
    let mut picture = Vec::new(alloc);
    // a write to memory fails only if an allocation failed
    match write_histogram(&histogram, &mut picture) {
        Ok(()) => Ok(picture),
        Err(_) => Err(AllocError),
    }
}

/// The histogram with these figures and bins.
fn histogram_of<'a>(
    sort: &'a str,
    word: &'a str,
    time: u64,
    tallied: Option<&'a Tallied>,
    bins: Option<&'a Bins>,
    is_exact: bool,
) -> Histogram<'a> {
    Histogram {
        sort,
        word,
        time,
        tallied,
        bins,
        is_exact,
    }
}

/// A named word of messages.
#[derive(Clone, Copy)]
struct Named<'n> {
    /// The name of the sort of these messages; empty if the model has one sort.
    sort: &'n str,
    name: &'n str,
    word: Word,
}

/// Returns the only word of this name, which may have the name of its sort and a point before it.
/// Without names the words are `a` to `d`.
fn word_named<'n>(names: Option<&'n Names>, name: &str) -> Option<Named<'n>> {
    let sorts = sorts_of(names);
    if sorts.is_empty() {
        return letter_named(name);
    }
    let mut found = None;
    for (number, sort) in sorts.iter().enumerate() {
        if let Some(place) = place_in(sort, name) {
            if found.is_some() {
                return None;
            }
            found = Some((number, place));
        }
    }
    let (number, place) = found?;
    let sort = sorts.get(number)?;
    let is_named = !sort.name.is_empty();
    Some(Named {
        sort: sort.name.as_str(),
        name: sort.words.get(place)?.as_str(),
        word: Word {
            sort: if is_named { Some(number as u64) } else { None },
            place: u8::try_from(place).unwrap_or(u8::MAX),
        },
    })
}

/// Returns the word that a letter names.
fn letter_named<'n>(name: &str) -> Option<Named<'n>> {
    for place in 0..4u8 {
        let letter = letter_of(usize::from(place));
        if letter == name {
            return Some(Named {
                sort: "",
                name: letter,
                word: Word { sort: None, place },
            });
        }
    }
    None
}

/// Returns the place of the word of this name in messages of a sort.
fn place_in(sort: &Sort, name: &str) -> Option<usize> {
    for (place, word) in sort.words.iter().enumerate() {
        if !word.is_empty() && (word.as_str() == name || is_word_of(sort, word.as_str(), name)) {
            return Some(place);
        }
    }
    None
}

/// Whether a name is that of a sort, a point, and that of its word.
fn is_word_of(sort: &Sort, word: &str, name: &str) -> bool {
    if sort.name.is_empty() {
        return false;
    }
    let Some(rest) = name.as_bytes().strip_prefix(sort.name.as_bytes()) else {
        return false;
    };
    match rest.strip_prefix(".".as_bytes()) {
        Some(rest) => rest == word.as_bytes(),
        None => false,
    }
}
