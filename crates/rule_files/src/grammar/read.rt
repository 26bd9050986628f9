// Reads the text of a rule.

ghost use Rattle.std.specs.Prelude.{◌≡◌, ◌≤◌, [], IfOk, length};
ghost use Rattle.rule_files.specs.ReadingValues.{Gives};
ghost use Rattle.rule_files.specs.Statements.{Acts, acts_of};
ghost use Rattle.rule_files.specs.Texts.{IsRule, SomeRule, Yields, formed_at, read_at};

use crate::grammar::lexemes::pieces;
use crate::grammar::mending::all_mistakes;
use crate::grammar::mistakes::{ReadMistake, find_mistake};
use crate::grammar::scope::RuleScope;
use crate::grammar::sends::first_wrong;
use crate::grammar::statements::rule;
use crate::grammar::stop::{ReadStop, Refusal, Wanted};
use crate::grammar::token::Token;
use crate::grammar::words::words;
use rules::Statement;
use std::alloc::{AllocError, Global};
use thiserror::Error;

/// Why a text was not read.
#[derive(Debug, Drop, Error)]
pub enum ReadError {
    /// An allocation failed.
    #[error("out of memory")]
    Memory,
    /// The text is no rule.
    #[error("{0}")]
    Mistaken(ReadMistake),
}

/// The most bytes that a rule's text may have.
const MOST_BYTES: usize = 65_536;

/// The statements that tokens form, with each send right, or where they stop being those.
#[tactic(auto, unfolding(crate::specs::Texts::formed_at))]
fn formed(alloc: Global, sorted: bool, tokens: &[Token]) -> Result<Vec<Statement>, ReadStop>
    ensures { Gives (λ v. acts_of v.items) result (formed_at sorted tokens.now) }
{
    let statements = rule(alloc, tokens)?;
    match first_wrong(sorted, tokens) {
        None => Ok(statements),
        Some(refusal) => Err(ReadStop::Refused(refusal)),
    }
}

/// The statements of a rule, or where it stops being one.
#[tactic(auto, unfolding(crate::specs::Texts::read_at))]
fn read(alloc: Global, scope: &RuleScope, text: &str) -> Result<Vec<Statement>, ReadStop>
    ensures { Gives (λ v. acts_of v.items) result (read_at scope.now text.now) }
{
    if text.len() > MOST_BYTES {
        return Err(ReadStop::Refused(Refusal {
            left: 0,
            wanted: Wanted::LessText,
        }));
    }
    let lexemes = pieces(alloc, text.as_bytes())?;
    let tokens = words(alloc, scope, text.as_bytes(), &lexemes)?;
    formed(alloc, scope.has_sort(), &tokens)
}

/// The statements that a rule's text means in this scope.
///
/// # Errors
///
/// `Mistaken` just where the text is no rule: it has more than 65,536 bytes, is not of names, numbers and signs, is
/// not by the grammar, or has a `send` whose receiver is no process (`self` of a kind outside `[ ]`) or whose content is
/// not a sort and its words, where there are sorts; with a place and what was expected there.
pub fn read_rule(alloc: Global, scope: &RuleScope, text: &str) -> Result<Vec<Statement>, ReadError>
    // What is read is what the text means.
    ensures found { IfOk result (λ v. IsRule scope.now text.now (acts_of v.items)) }
    // What the text means is read, unless memory runs out.
    ensures only { (acts : Acts) → IsRule scope.now text.now acts → Yields (λ v. acts_of v.items) result acts }
{
    match read(alloc, scope, text) {
        Ok(statements) => Ok(statements),
        Err(ReadStop::Memory) => Err(ReadError::Memory),
        Err(ReadStop::Refused(refusal)) => Err(mistaken(alloc, scope, text, refusal)),
    }
}

/// The mistakes of a text, from the one that `read_rule` finds on: at most 20, and at most one on a line.
///
/// After a refused statement it goes on at the next line that begins one, or at the next `}`, as if the statement were
/// right: its name, if it gives one, is in scope.
pub fn find_mistakes(
    alloc: Global,
    scope: &RuleScope,
    text: &str,
) -> Result<Vec<ReadMistake>, AllocError>
    // A rule has none.
    ensures none { (acts : Acts) → IsRule scope.now text.now acts → IfOk result (λ v. v.items ≡ []) }
    // What has none is a rule.
    ensures some { IfOk result (λ v. v.items ≡ [] → SomeRule scope.now text.now) }
{
    match read(alloc, scope, text) {
        Ok(_statements) => Ok(Vec::new(alloc)),
        Err(ReadStop::Memory) => Err(AllocError),
        Err(ReadStop::Refused(refusal)) => all_mistakes(alloc, scope, text, refusal),
    }
}

/// The error of a text that is no rule.
fn mistaken(alloc: Global, scope: &RuleScope, text: &str, refusal: Refusal) -> ReadError {
    match find_mistake(alloc, scope, text, refusal) {
        Ok(mistake) => ReadError::Mistaken(mistake),
        Err(_) => ReadError::Memory,
    }
}
