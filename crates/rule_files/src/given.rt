// The names that a rule gives.

use crate::grammar::{Lexeme, tokens};
use std::alloc::{AllocError, Global};

/// Returns the names that `let` and `repeat` give in the text of a rule, in the order of the text.
pub(crate) fn given_names(alloc: Global, text: &str) -> Result<Vec<String>, AllocError> {
    let mut names = Vec::new(alloc);
    let Ok(lexemes) = tokens(alloc, text) else {
        return Err(AllocError);
    };
    let bytes = text.as_bytes();
    let mut gives = false;
    for one in lexemes.iter() {
        let word = match one.lexeme {
            Lexeme::Name => bytes.get(one.start..one.end).unwrap_or(&[]),
            _ => &[],
        };
        let word = str::from_utf8(word).unwrap_or("");
        if gives {
            names.push(String::from_str(alloc, word)?)?;
        }
        gives = word == "let" || word == "repeat";
    }
    Ok(names)
}
