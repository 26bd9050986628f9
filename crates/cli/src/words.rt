// Finds flags in the words, also in words that name no command.

ghost use Rattle.std.specs.Prelude.{◌≡◌, ◌&&◌, ◌||◌, codes, drop, map};
ghost use Rattle.std.specs.Str.{bytes_eq};
ghost use Rattle.cli.specs.Command.{says_advice, says_flag, says_large, says_quiet};

use std::convert::AsStr;

/// Whether there is a word `--large` before any word `--`. The first word is the program's own
/// name.
pub fn says_large<S: AsStr>(words: &[S]) -> bool
    ensures { result ≡ says_large (drop 1 (map S.text words.now)) }
{
    says(words, "--large")
}

/// Whether there is a word `--advice` before any word `--`. The first word is the program's own
/// name. Also says so of words that name no command.
pub fn says_advice<S: AsStr>(words: &[S]) -> bool
    ensures { result ≡ says_advice (drop 1 (map S.text words.now)) }
{
    says(words, "--advice")
}

/// Whether there is a word `--quiet` before any word `--`. The first word is the program's own
/// name. Also says so of words that name no command.
pub fn says_quiet<S: AsStr>(words: &[S]) -> bool
    ensures { result ≡ says_quiet (drop 1 (map S.text words.now)) }
{
    says(words, "--quiet")
}

/// Whether this flag is among the words, before any word `--`. The first word is the program's own
/// name.
fn says<S: AsStr>(words: &[S], flag: &str) -> bool
    ensures { result ≡ says_flag flag.now (drop 1 (map S.text words.now)) }
{
    if words.is_empty() {
        return false;
    }
    options_say(&words[1..], flag)
}

/// Whether this flag is among these words, before any word `--`.
fn options_say<S: AsStr>(words: &[S], flag: &str) -> bool
    ensures { result ≡ says_flag flag.now (map S.text words.now) }
{
    for word in words {
        let word = word.as_str();
        if decides(word, flag) {
            return word != "--";
        }
    }
    false
}

/// Whether this word decides the answer: options end at it, or it is the flag.
fn decides(word: &str, flag: &str) -> bool
    ensures { result ≡ (bytes_eq word.now (codes "--") || bytes_eq word.now flag.now) }
{
    word == "--" || word == flag
}
