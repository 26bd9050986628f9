// The commands on a model file alone: `seq` by the sequential runner, and `check`.

ghost use Rattle.std.specs.Prelude.{◌≡◌, ◌≤◌, ◌^◌, ◌≢◌, ◌⊎◌, ℕ, List, Option, Err};
ghost use Rattle.std.specs.Prelude.{map, IfOk, IsOkUnless, IsSomeAnd, MatchResult, OnErr, OnOk};
ghost use Rattle.std.specs.Str.{IsUtf8};
ghost use Rattle.eventkey.specs.Writing.{Writes};
ghost use Rattle.texts.specs.Mistakes.{AreMistakes};
ghost use Rattle.texts.specs.ModelFile.{IsModelFile};
ghost use Rattle.views.specs.Tables.{IsTable};
ghost use Rattle.views.specs.Views.{checked_text, Begins, IsBegunBy, IsChecked, IsSetIn};
ghost use Rattle.views.specs.Views.{IsSimulationBy, IsSimulationSoFar, IsSomeChecked};
ghost use Rattle.views.specs.Views.{IsWholeSimulation, Prints, PrintsBeginning, PrintsLog};
ghost use Rattle.views.specs.Views.{PrintsRun};
ghost use Rattle.views.specs.declared.fault.ViewFault.TheVariants.{Output};

use crate::fault::{ViewFault, unreadable};
use crate::kept::model_path;
use crate::streaming::{print_log, write_rest, write_run_table};
use cli::{Format, ModelFile, SeqArgs, Settings};
use disk::FileDisk;
use model::WorldFault;
use std::alloc::Global;
use std::fs::{self, File, OpenOptions};
use std::io::{Read, Result as IoResult, Write};
use std::os::unix::fs::FileTypeExt;
use std::rt::Files;
use texts::{
    Described, LONGEST_MODEL_FILE, Mistake, Mistakes, ModelFault, SettingsFault, find_mistakes,
    read_model, with_settings, write_text,
};

/// Runs the model of a file by the plain runner, and writes the log and then the world; or the log
/// alone as a table.
pub(crate) fn seq_on<M, R, O>(rt: &R, args: SeqArgs<'_>, out: &mut O) -> Result<(), ViewFault>
where
    M: Described,
    R: Files + AllocGlobal,
    O: Write,
    ensures ok { OnOk result (Prints (IsSimulationBy M.meaning M.says args.entry.format)
        (O.contents out.old) (O.contents out.new)) }
    ensures err { OnErr result ((out.new ≡ out.old)
        ⊎ Begins (IsBegunBy M.meaning M.says args.entry.format)
        (O.contents out.old) (O.contents out.new)) }
{
    match args.format {
        Format::Text => seq_of::<M, R, O>(rt, args.model, out),
        Format::Csv | Format::Json => seq_table_of::<M, R, O>(rt, args.model, args.format, out),
    }
}

/// Runs the model of a file by the sequential runner, and writes the log and then the world.
fn seq_of<M, R, O>(rt: &R, model: ModelFile<'_>, out: &mut O) -> Result<(), ViewFault>
where
    M: Described,
    R: Files + AllocGlobal,
    O: Write,
    ensures ok { OnOk result
        (Prints (IsWholeSimulation M.meaning M.says) (O.contents out.old) (O.contents out.new)) }
    ensures err { OnErr result ((out.new ≡ out.old)
        ⊎ Begins (IsSimulationSoFar M.meaning M.says) (O.contents out.old) (O.contents out.new)) }
{
    let bytes = read_text(rt, model)?;
    let text = text_of(bytes.as_slice()).map_err(ModelFault::BadModel)?;
    seq::<M, O>(rt.alloc(), text, out)
}

/// Runs the model of a file by the plain runner, and writes the log as a table.
fn seq_table_of<M, R, O>(
    rt: &R,
    file: ModelFile<'_>,
    format: Format,
    out: &mut O,
) -> Result<(), ViewFault>
where
    M: Described,
    R: Files + AllocGlobal,
    O: Write,
    ensures ok { OnOk result (Prints (IsTable format) (O.contents out.old) (O.contents out.new)) }
    ensures err { OnErr result ((out.new ≡ out.old)
        ⊎ Begins (IsTable format) (O.contents out.old) (O.contents out.new)) }
{
    let (model, end): (M, u64) = read_model_file(rt, file)?;
    write_run_table(rt.alloc(), &model, end, format, out)?;
    Ok(out.flush()?)
}

/// A file that is not a model file: what it holds, and all its mistakes.
#[derive(Drop)]
pub struct Wrong {
    /// What the file holds.
    pub text: Vec<u8>,
    /// All mistakes of this text.
    pub mistakes: Mistakes,
}

/// Checks whether a file is a model file. At a `Mistake`, `found` gets the file and all its
/// mistakes.
pub(crate) fn check_of<M, R, O>(
    rt: &R,
    model: ModelFile<'_>,
    out: &mut O,
    found: &mut Option<Wrong>,
) -> Result<(), ViewFault>
where
    M: Described,
    R: Files + AllocGlobal,
    O: Write,
    ensures ok { OnOk result
        (Prints (IsSomeChecked M.says M.shows) (O.contents out.old) (O.contents out.new)) }
    ensures err { OnErr result ((out.new ≡ out.old)
        ⊎ Begins (IsSomeChecked M.says M.shows) (O.contents out.old) (O.contents out.new)) }
{
    let text = read_text(rt, model)?;
    let mut mistakes = None;
    let checked = check_bytes::<M, O>(rt.alloc(), text.as_slice(), out, &mut mistakes);
    *found = wrong_of(text, mistakes);
    checked
}

/// Returns what a file holds with its mistakes, if they were found.
fn wrong_of(text: Vec<u8>, mistakes: Option<Mistakes>) -> Option<Wrong> {
    match mistakes {
        Some(mistakes) => Some(Wrong { text, mistakes }),
        None => None,
    }
}

/// Checks whether bytes are a model file. At a `Mistake`, `found` gets all their mistakes.
fn check_bytes<M: Described, O: Write>(
    alloc: Global,
    bytes: &[u8],
    out: &mut O,
    found: &mut Option<Mistakes>,
) -> Result<(), ViewFault>
    ensures ok { OnOk result
        (Prints (IsSomeChecked M.says M.shows) (O.contents out.old) (O.contents out.new)) }
    ensures err { OnErr result ((out.new ≡ out.old)
        ⊎ Begins (IsSomeChecked M.says M.shows) (O.contents out.old) (O.contents out.new)) }
{
    match text_of(bytes) {
        Ok(text) => check::<M, O>(alloc, text, out, found),
        Err(mistake) => {
            *found = Some(find_mistakes::<M>(alloc, bytes)?);
            Err(ViewFault::Mistake(mistake))
        }
    }
}

/// Reads a file again that is not a model file, and returns its text with all its mistakes. Returns
/// `None` if it cannot be read, or is a model file now.
pub fn mistakes_of<M, R>(rt: &R, model: ModelFile<'_>) -> Option<Wrong>
where
    M: Described,
    R: Files + AllocGlobal,
{
    let path = model_path(rt, model).ok()?;
    // what is not an ordinary file may give its bytes once
    if !fs::metadata(rt, path.as_str()).ok()?.is_file() {
        return None;
    }
    let text = read_text(rt, model).ok()?;
    let mistakes = find_mistakes::<M>(rt.alloc(), text.as_slice()).ok()?;
    Some(Wrong { text, mistakes })
}

/// Reads a model file, or the text that a disk keeps of its model, and sets in it what is set.
/// Returns the faults of `read_bytes`, and `Setting` with the first setting that is refused.
fn read_text<R: Files + AllocGlobal>(rt: &R, file: ModelFile<'_>) -> Result<Vec<u8>, ViewFault> {
    let path = model_path(rt, file)?;
    set_in(rt.alloc(), read_bytes(rt, path.as_str())?, file.settings)
}

/// Returns the text of a model file in which these values are set. A text that is not TOML stays as
/// it is: it is none of a model file.
fn set_in(alloc: Global, bytes: Vec<u8>, settings: Settings<'_>) -> Result<Vec<u8>, ViewFault>
    ensures { IfOk result (λ new.
        IsSetIn (map (λ s. (s.0.now, s.1.now)) settings.now) bytes.items new.items) }
{
    if settings.is_empty() {
        return Ok(bytes);
    }
    let Ok(text) = str::from_utf8(bytes.as_slice()) else {
        return Ok(bytes);
    };
    match with_settings(alloc, text, settings) {
        Ok(new) => Ok(new.into_bytes()),
        Err(SettingsFault::Toml) => Ok(bytes),
        Err(SettingsFault::Setting(fault)) => Err(ViewFault::Setting(fault)),
        Err(SettingsFault::NoMemory) => Err(ViewFault::NoMemory),
    }
}

/// Reads a file as a model file. Returns `File` if it cannot be read, is neither a plain file nor a pipe that
/// gives bytes, or has more than 16,777,216 bytes, of which then no more are read; and `NoMemory`.
pub(crate) fn read_bytes<R>(rt: &R, path: &str) -> Result<Vec<u8>, ViewFault>
where
    R: Files + AllocGlobal,
{
    let kind = fs::metadata(rt, path).map_err(unreadable)?.file_type();
    let is_pipe = kind.is_fifo();
    if !kind.is_file() && !is_pipe {
        return Err(ViewFault::File);
    }
    let file = open_model(rt, path, is_pipe)?;
    let mut bytes = Vec::new(rt.alloc());
    file.take(LONGEST_MODEL_FILE + 1)
        .read_to_end(&mut bytes)
        .map_err(unreadable)?;
    if bytes.len() as u64 > LONGEST_MODEL_FILE || (is_pipe && bytes.is_empty()) {
        return Err(ViewFault::File);
    }
    Ok(bytes)
}

/// Opens a model file to read it.
///
/// To open a named pipe for reading waits for a writer, which may never come. To open it for both
/// does not wait, and nor does the other opening meanwhile. Without a writer the pipe then ends at
/// once.
fn open_model<R: Files>(rt: &R, path: &str, is_pipe: bool) -> Result<R::File, ViewFault> {
    if !is_pipe {
        return fs::open(rt, path).map_err(unreadable);
    }
    let _both = OpenOptions::new()
        .read(true)
        .write(true)
        .open(rt, path)
        .map_err(unreadable)?;
    fs::open(rt, path).map_err(unreadable)
}

/// Opens a disk of at most `most` sectors to read it. Returns `File` if it is not a plain file, as a
/// pipe, which might never open.
pub fn open_disk<R>(rt: &R, path: &str, most: u32) -> Result<FileDisk, ViewFault>
where
    R: Files<File = File> + AllocGlobal,
{
    match fs::metadata(rt, path) {
        Ok(metadata) if !metadata.is_file() => Err(ViewFault::File),
        _ => Ok(FileDisk::open_to_read_up_to(rt, rt.alloc(), path, most)?),
    }
}

/// Runs the model of a text to its end by the sequential runner, and writes the log and then the
/// world. The log is written as it is made, so memory is for the world, and the first lines come at
/// once.
///
/// Returns, in this order, `BadModel` if the text is not a model file, or `NoMemory` if an
/// allocation fails while it is read, and nothing is written; `World` if the runner refuses, and the
/// lines of some of the first events are written; `Output` if the writer refuses.
pub fn seq<M: Described, O: Write>(alloc: Global, text: &str, out: &mut O) -> Result<(), ViewFault>
    ensures ok { OnOk result
        (PrintsRun M.meaning M.says text.now (O.contents out.old) (O.contents out.new)) }
    ensures bad { result ≡ Err ViewFault.BadModel →
        (model : M) (end : ℕ) → ¬ IsModelFile M.says text.now model end }
    ensures world { (fault : WorldFault) → result ≡ Err (ViewFault.World fault) →
        PrintsLog M.meaning M.says text.now (O.contents out.old) (O.contents out.new) }
    ensures output { result ≡ Err ViewFault.Output →
        PrintsBeginning M.meaning M.says text.now (O.contents out.old) (O.contents out.new) }
    ensures unwritten { (fault : ViewFault) → result ≡ Err fault → fault ≢ Output →
        ((f : WorldFault) → fault ≢ ViewFault.World f) → out.new ≡ out.old }
{
    let (model, end): (M, u64) = read_model(alloc, text)?;
    let mut world = print_log(alloc, &model, end, out)?;
    let printed = world.log().len();
    world.run_to(&model, end)?;
    write_rest(world, printed, out)
}

/// Checks whether a text is a model file, and if it is, writes `ok` and what the model shows of its
/// values.
///
/// Returns, in this order, `Mistake` if the text is not a model file, or `NoMemory` if an
/// allocation fails; `Output` if the writer refuses. At every fault but `Output` nothing is
/// written. A `Mistake` is the first one met; `found` then gets all of them.
pub fn check<M: Described, O: Write>(
    alloc: Global,
    text: &str,
    out: &mut O,
    found: &mut Option<Mistakes>,
) -> Result<(), ViewFault>
    ensures ok { OnOk result
        (Prints (IsChecked M.says M.shows text.now) (O.contents out.old) (O.contents out.new)) }
    ensures wrong { (mistake : Mistake) → result ≡ Err (ViewFault.Mistake mistake) →
        (model : M) (end : ℕ) → ¬ IsModelFile M.says text.now model end }
    ensures all { (mistake : Mistake) → result ≡ Err (ViewFault.Mistake mistake) →
        IsSomeAnd found.new (AreMistakes M.wrong text.now) }
    ensures err { OnErr result ((out.new ≡ out.old)
        ⊎ Begins (IsChecked M.says M.shows text.now) (O.contents out.old) (O.contents out.new)) }
{
    match read_model::<M>(alloc, text) {
        Ok((model, end)) => {
            let values = model.values(alloc, end)?;
            write_whole(values.as_str(), out)
        }
        Err(ModelFault::BadModel(mistake)) => {
            *found = Some(find_mistakes::<M>(alloc, text.as_bytes())?);
            Err(ViewFault::Mistake(mistake))
        }
        Err(ModelFault::NoMemory) => Err(ViewFault::NoMemory),
    }
}

/// Writes `ok` and the values of a model file, and flushes the writer.
fn write_whole<O: Write>(values: &str, out: &mut O) -> Result<(), ViewFault>
    ensures written { Writes (O.contents out.old) (O.contents out.new) result
        (checked_text values.now) }
    ensures fault { IsOkUnless result Output }
{
    flushed(write_checked(values, out), out)
}

/// Flushes a writer after what was written to it, if all of that was written.
pub(crate) fn flushed<O: Write>(written: IoResult<()>, out: &mut O) -> Result<(), ViewFault>
    ensures written { (old : Option (List ℕ)) (text : List ℕ) →
        Writes old (O.contents out.old) written text → Writes old (O.contents out.new) result text }
    ensures fault { IsOkUnless result Output }
{
    written?;
    out.flush()?;
    Ok(())
}

/// Writes `ok` and the values of a model file.
fn write_checked<O: Write>(values: &str, out: &mut O) -> IoResult<()>
    ensures { Writes (O.contents out.old) (O.contents out.new) result (checked_text values.now) }
{
    write_text("ok\n", out)?;
    write_text(values, out)
}

/// Reads the model and its end from a model file. A program's own command starts with this call.
///
/// Returns `File` if the file cannot be read, is neither a plain file nor a pipe that gives bytes, or
/// has more than 16,777,216 bytes; `BadModel` if it is not a model file; and `NoMemory`.
pub fn read_model_file<M, R>(rt: &R, file: ModelFile<'_>) -> Result<(M, u64), ViewFault>
where
    M: Described,
    R: Files + AllocGlobal,
    ensures file { IfOk result (λ of. (text : List ℕ) × IsModelFile M.says text of.0 of.1) }
    ensures some { IfOk result (λ of. 1 ≤ of.1) }
    ensures short { IfOk result (λ of. of.1 ≤ 2 ^ 40) }
{
    let bytes = read_text(rt, file)?;
    let text = text_of(bytes.as_slice()).map_err(ModelFault::BadModel)?;
    Ok(read_model(rt.alloc(), text)?)
}

/// A model and its end, with the text of the file that describes them.
#[derive(Drop)]
pub struct ModelText<M> {
    /// The model.
    pub model: M,
    /// The end in ticks.
    pub end: u64,
    /// All bytes of the file, as they were read.
    pub text: Vec<u8>,
}

/// Reads the model and its end from a model file, and keeps its text: what is read later under the
/// same path may be another model, or nothing more, as from a pipe.
///
/// The faults are those of `read_model_file`.
pub fn read_model_text<M, R>(rt: &R, file: ModelFile<'_>) -> Result<ModelText<M>, ViewFault>
where
    M: Described,
    R: Files + AllocGlobal,
    ensures file { IfOk result (λ of. IsModelFile M.says of.text.items of.model of.end) }
    ensures some { IfOk result (λ of. 1 ≤ of.end) }
    ensures short { IfOk result (λ of. of.end ≤ 2 ^ 40) }
{
    let bytes = read_text(rt, file)?;
    let text = text_of(bytes.as_slice()).map_err(ModelFault::BadModel)?;
    let (model, end): (M, u64) = read_model(rt.alloc(), text)?;
    Ok(ModelText {
        model,
        end,
        text: bytes,
    })
}

/// Returns the text of a model file. Bytes that are not UTF-8 are not TOML.
pub(crate) fn text_of(bytes: &[u8]) -> Result<&str, Mistake>
    ensures { MatchResult result (λ text. (text.now ≡ bytes.now) × IsUtf8 bytes.now)
        (λ mistake. ¬ (IsUtf8 bytes.now) × (mistake ≡ Mistake.Toml)) }
{
    match str::from_utf8(bytes) {
        Ok(text) => Ok(text),
        Err(_) => Err(Mistake::Toml),
    }
}
