// The seam to the reader of rules: their texts, as trees within the limits.

ghost use Rattle.std.specs.Prelude.{◌≡◌, IfErr, IfOk, false, true};
ghost use Rattle.rule_files.specs.Reading.{Spells, dictionary, is_rule};
ghost use Rattle.rule_files.specs.RuleFile.{parts_view};
ghost use Rattle.rules.specs.Limits.{IsWithin};

use crate::dictionary::dictionary_of;
use crate::grammar::{ReadError, ReadMistake};
use crate::scope::Scope;
use rules::{Limit, Statement, exceeded};
use std::alloc::{AllocError, Global};
use thiserror::Error;

/// Why a text is no rule.
#[derive(Debug, Drop, Error)]
pub enum RuleMistake {
    /// It is no text of at most 65,536 bytes.
    #[error("no text of at most 65536 bytes")]
    NoText,
    /// It is not by the grammar, or has a name with no meaning.
    #[error("{0}")]
    Text(ReadMistake),
    /// It exceeds this limit.
    #[error("more than {0} on some way through it")]
    Exceeds(Limit),
    /// It has more steps than the rule of a kind may have.
    #[error("more than 65280 steps on some way through it")]
    TooLong,
}

#[tactic(auto, unfolding(crate::specs::Reading::Spells))]
/// Reads the text of a rule, by the names of a model file. A mistake comes just where the text
/// spells no rule within the limits.
pub(crate) fn read_rule(
    alloc: Global,
    scope: &Scope<'_, '_>,
    text: &str,
) -> Result<Result<Vec<Statement>, RuleMistake>, AllocError>
    ensures ok { IfOk result (λ read. IfOk read (λ rule.
        Spells (parts_view scope.now) text.now rule.items)) }
    ensures within { IfOk result (λ read. IfOk read (λ rule. IsWithin rule.items)) }
    ensures is { IfOk result (λ read. IfOk read (λ _.
        is_rule (parts_view scope.now) text.now ≡ true)) }
    ensures bad { IfOk result (λ read. IfErr read (λ _.
        is_rule (parts_view scope.now) text.now ≡ false)) }
{
    let names = dictionary_of(alloc, scope)?;
    match crate::grammar::read_rule(alloc, &names, text) {
        Ok(rule) => match exceeded(rule.as_slice()) {
            None => Ok(Ok(rule)),
            Some(limit) => Ok(Err(RuleMistake::Exceeds(limit))),
        },
        Err(ReadError::Mistaken(mistake)) => Ok(Err(RuleMistake::Text(mistake))),
        Err(ReadError::Memory) => Err(AllocError),
    }
}
