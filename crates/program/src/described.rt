// The model and the end that a model file describes.

ghost use Rattle.std.specs.Prelude.{◌≤◌, ◌^◌, ℕ, List, IfOk};
ghost use Rattle.texts.specs.ModelFile.{IsModelFile};

use cli::ModelFile;
use disk_commands::Fault;
use runs::commands::Simulated;
use std::rt::Files;
use texts::Described;
use views::{ModelText, read_model_file, read_model_text};

/// Reads the model and its end from a model file. A program's own command starts with this call.
///
/// Returns `File` if the file cannot be read, `BadModel` if it is not a model file, and `NoMemory`.
pub fn simulated<M, R>(rt: &R, file: ModelFile<'_>) -> Result<Simulated<M>, Fault>
where
    M: Described,
    R: Files + AllocGlobal,
    ensures file { IfOk result (λ of. (text : List ℕ) × IsModelFile M.says text of.model of.end) }
    ensures some { IfOk result (λ of. 1 ≤ of.end) }
    ensures short { IfOk result (λ of. of.end ≤ 2 ^ 40) }
{
    let (model, end) = read_model_file(rt, file)?;
    Ok(Simulated { model, end })
}

/// A model and its end, with the text of the file that describes them.
#[derive(Drop)]
pub(crate) struct WithText<M> {
    pub of: Simulated<M>,
    pub text: Vec<u8>,
}

/// Reads the model and its end from a model file, and keeps its text. The faults are those of
/// `simulated`.
pub(crate) fn simulated_with_text<M, R>(rt: &R, file: ModelFile<'_>) -> Result<WithText<M>, Fault>
where
    M: Described,
    R: Files + AllocGlobal,
    ensures file { IfOk result (λ read.
        IsModelFile M.says read.text.items read.of.model read.of.end) }
    ensures some { IfOk result (λ read. 1 ≤ read.of.end) }
    ensures short { IfOk result (λ read. read.of.end ≤ 2 ^ 40) }
{
    let ModelText { model, end, text } = read_model_text(rt, file)?;
    let of = Simulated { model, end };
    Ok(WithText { of, text })
}
