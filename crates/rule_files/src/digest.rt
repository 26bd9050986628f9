// The digest that distinguishes models by rules from each other.

ghost use Rattle.std.specs.Prelude.{◌≡◌, ◌++◌, ◌∷◌, ℕ, List, length, map, string_bytes};
ghost use Rattle.std.specs.List.{AllByRecursion as Every, flat_map};
ghost use Rattle.rule_files.specs.Arrays.{array_view};
ghost use Rattle.rule_files.specs.Digest.{ActFits, ArrayFits, BlockFits, FourFits, IsRanged};
ghost use Rattle.rule_files.specs.Digest.{IsWord, TableFits, TablesFit, WordsFit};
ghost use Rattle.rule_files.specs.Digest.{TellsApart, TreeFits, act_bytes, array_bytes, block_bytes};
ghost use Rattle.rule_files.specs.Digest.{digest_words, four_bytes, kept_bytes, list_bytes, meant};
ghost use Rattle.rule_files.specs.Digest.{known_number as number_of_known};
ghost use Rattle.rule_files.specs.Digest.{law_number as number_of_law};
ghost use Rattle.rule_files.specs.Digest.{operator_number as number_of_operator};
ghost use Rattle.rule_files.specs.Digest.{number_bytes, own_name, table_bytes, text_bytes, tree_bytes};
ghost use Rattle.rule_files.specs.Digest.{words_of_digest};
ghost use Rattle.rule_files.specs.FileTable.{FilesKeepLimits, KindsKeepLimits};
ghost use Rattle.rule_files.specs.Grammar.{tree_of};
ghost use Rattle.rule_files.specs.Statements.{act_of, acts_of, content_of};
ghost use Rattle.sha2.specs.Hashers.{Holds256};

use crate::arrays::NamedArray;
use crate::scope::is_word;
use model::ranged;
use rules::{Array, Expression, Known, Law, Operator, Sending, Statement, Table};
use sha2::{Digest, Sha256};

/// States that files of models by rules that mean something else have other bytes under their
/// digests: two with the same identity mean the same, or they are a collision of SHA-256.
pub fn law_of_digests()
    ensures apart { TellsApart }
    ensures limits { FilesKeepLimits }
    ensures limits_of_kinds { KindsKeepLimits }
{}

#[tactic(auto, unfolding(crate::specs::Digest::digest_words, crate::specs::Digest::meaning_bytes))]
/// Returns the SHA-256 of what the file of a model by rules means, as four words: the names of the
/// state words in their order, the places, bits and lengths of its arrays, the seed, the tables, and
/// both rules as trees.
///
/// Comments, white space, the names of anything but state words, and the order of keys do not
/// matter. Each part has a fixed length or is preceded by its length, and each node of a tree
/// begins with its kind. Arrays have no length before them: what follows them begins otherwise, by
/// the limits of a file. The words of arrays count as words without a name; a state without them
/// has no bytes for arrays. Of the states of kinds of processes only the number of words and the
/// key count: names and arrays are in the trees.
pub(crate) fn digest_of(
    words: &[String],
    arrays: &[NamedArray],
    seed: u64,
    tables: &[Table],
    start: &[Statement],
    handle: &[Statement],
) -> [u64; 4]
    ensures value { result ≡ digest_words (meant (map string_bytes words.now)
        (map array_view arrays.now) seed tables.now start.now handle.now) }
    ensures ranged { IsRanged (meant (map string_bytes words.now) (map array_view arrays.now) seed
        tables.now start.now handle.now) }
{
    let mut hasher = Sha256::new();
    put_words(&mut hasher, words);
    put_arrays(&mut hasher, arrays);
    put_number(&mut hasher, seed);
    put_tables(&mut hasher, tables);
    put_block(&mut hasher, start);
    put_block(&mut hasher, handle);
    four_words(&hasher.finalize())
}

/// Returns the words of a digest, each in big-endian order.
fn four_words(bytes: &[u8; 32]) -> [u64; 4]
    ensures { result ≡ words_of_digest bytes.now }
{
    let words = bytes.as_chunks::<8>().0;
    [
        u64::from_be_bytes(words[0]),
        u64::from_be_bytes(words[1]),
        u64::from_be_bytes(words[2]),
        u64::from_be_bytes(words[3]),
    ]
}

/// Puts the names of the words of a state.
fn put_words(hasher: &mut Sha256, words: &[String])
    ensures bytes { (m : List ℕ) → Holds256 hasher.old m → Holds256 hasher.new
        (m ++ list_bytes text_bytes (map own_name (map string_bytes words.now))) }
    ensures fits { WordsFit (map own_name (map string_bytes words.now)) }
{
    put_number(hasher, words.len() as u64);
    'words: for word in words {
        put_word(hasher, word.as_str());
    }
}

/// Puts the name of a state word, if it has one of its own.
fn put_word(hasher: &mut Sha256, word: &str)
    ensures bytes { (m : List ℕ) → Holds256 hasher.old m →
        Holds256 hasher.new (m ++ text_bytes (own_name word.now)) }
    ensures fits { IsWord (length (own_name word.now)) }
{
    let name = if is_word(word) { word } else { "" };
    put_number(hasher, name.len() as u64);
    hasher.update(name.as_bytes());
}

/// Puts the arrays of a state.
fn put_arrays(hasher: &mut Sha256, arrays: &[NamedArray])
    ensures bytes { (m : List ℕ) → Holds256 hasher.old m → Holds256 hasher.new
        (m ++ flat_map kept_bytes (map (λ a. a.1) (map array_view arrays.now))) }
    ensures fits { Every ArrayFits (map (λ a. a.1) (map array_view arrays.now)) }
{
    'arrays: for named in arrays {
        put_array(hasher, 20, named.array);
    }
}

/// Puts the tables.
fn put_tables(hasher: &mut Sha256, tables: &[Table])
    ensures bytes { (m : List ℕ) → Holds256 hasher.old m →
        Holds256 hasher.new (m ++ list_bytes table_bytes tables.now) }
    ensures fits { TablesFit tables.now }
{
    put_number(hasher, tables.len() as u64);
    'tables: for table in tables {
        put_table(hasher, table);
    }
}

#[tactic(auto, unfolding(crate::specs::Digest::number_bytes))]
fn put_number(hasher: &mut Sha256, number: u64)
    ensures { (m : List ℕ) → Holds256 hasher.old m → Holds256 hasher.new (m ++ number_bytes number) }
{
    hasher.update(number.to_be_bytes());
}

/// Puts the kind of a node and a number.
fn put(hasher: &mut Sha256, kind: u8, number: u64)
    ensures { (m : List ℕ) → Holds256 hasher.old m →
        Holds256 hasher.new (m ++ kind ∷ number_bytes number) }
{
    hasher.update([kind]);
    put_number(hasher, number);
}

/// Puts the kind of a node and an array.
fn put_array(hasher: &mut Sha256, kind: u8, array: Array)
    ensures bytes { (m : List ℕ) → Holds256 hasher.old m →
        Holds256 hasher.new (m ++ kind ∷ array_bytes array) }
    ensures fits { ArrayFits array }
{
    put(hasher, kind, u64::from(array.place));
    put_number(hasher, u64::from(array.bits));
    put_number(hasher, u64::from(array.count));
}

fn put_table(hasher: &mut Sha256, table: &Table)
    ensures bytes { (m : List ℕ) → Holds256 hasher.old m →
        Holds256 hasher.new (m ++ table_bytes table.now) }
    ensures fits { TableFits table.now }
{
    let numbers = table.as_slice();
    ranged(numbers);
    put_number(hasher, numbers.len() as u64);
    'numbers: for number in numbers {
        put_number(hasher, *number);
    }
}

/// Puts an expression: its kind, then its number, place or operator, then its parts.
#[cycle(put_expression)]
fn put_expression(hasher: &mut Sha256, e: &Expression)
    ensures bytes { (m : List ℕ) → Holds256 hasher.old m →
        Holds256 hasher.new (m ++ tree_bytes (tree_of e.now)) }
    ensures fits { TreeFits (tree_of e.now) }
{
    match e {
        Expression::Number(n) => put(hasher, 1, *n),
        Expression::Word(place) => put(hasher, 2, u64::from(*place)),
        Expression::Content(place) => put(hasher, 3, u64::from(*place)),
        Expression::Local(place) => put(hasher, 4, u64::from(*place)),
        Expression::Read(known) => put(hasher, 5, known_number(*known)),
        Expression::Not(x) => {
            put(hasher, 6, 0);
            put_expression(hasher, x);
        }
        Expression::Two(operator, x, y) => {
            put(hasher, 7, operator_number(*operator));
            put_expression(hasher, x);
            put_expression(hasher, y);
        }
        Expression::Entry(table, x) => {
            put(hasher, 8, u64::from(*table));
            put_expression(hasher, x);
        }
        Expression::Draw(law, x) => {
            put(hasher, 9, law_number(*law));
            put_expression(hasher, x);
        }
        Expression::Normal(x, y) => {
            put(hasher, 15, 0);
            put_expression(hasher, x);
            put_expression(hasher, y);
        }
        Expression::Triangular(x, y, z) => {
            put(hasher, 16, 0);
            put_expression(hasher, x);
            put_expression(hasher, y);
            put_expression(hasher, z);
        }
        Expression::Choose(table) => put(hasher, 17, u64::from(*table)),
        Expression::Element(array, x) => {
            put_array(hasher, 18, *array);
            put_expression(hasher, x);
        }
    }
}

fn put_sending(hasher: &mut Sha256, sending: &Sending)
    ensures bytes { (m : List ℕ) → Holds256 hasher.old m →
        Holds256 hasher.new (m ++ (tree_bytes (tree_of sending.now.to)
        ++ (tree_bytes (tree_of sending.now.after) ++ four_bytes (content_of sending.now)))) }
    ensures fits { TreeFits (tree_of sending.now.to) × TreeFits (tree_of sending.now.after)
        × FourFits (content_of sending.now) }
{
    put_expression(hasher, &sending.to);
    put_expression(hasher, &sending.after);
    put_expression(hasher, &sending.a);
    put_expression(hasher, &sending.b);
    put_expression(hasher, &sending.c);
    put_expression(hasher, &sending.d);
}

/// Puts a statement: its kind, then its place and count, then its parts.
#[cycle(put_statements)]
fn put_statement(hasher: &mut Sha256, statement: &Statement)
    ensures bytes { (m : List ℕ) → Holds256 hasher.old m →
        Holds256 hasher.new (m ++ act_bytes (act_of statement.now)) }
    ensures fits { ActFits (act_of statement.now) }
{
    match statement {
        Statement::Let(place, e) => {
            put(hasher, 10, u64::from(*place));
            put_expression(hasher, e);
        }
        Statement::Set(place, e) => {
            put(hasher, 11, u64::from(*place));
            put_expression(hasher, e);
        }
        Statement::Send(sending) => {
            put(hasher, 12, 0);
            put_sending(hasher, sending);
        }
        Statement::If(e, met, unmet) => {
            put(hasher, 13, 0);
            put_expression(hasher, e);
            put_block(hasher, met);
            put_block(hasher, unmet);
        }
        Statement::Repeat(place, count, body) => {
            put(hasher, 14, u64::from(*place));
            put_number(hasher, u64::from(*count));
            put_block(hasher, body);
        }
        Statement::RepeatUntil(place, count, e, body) => {
            put(hasher, 21, u64::from(*place));
            put_number(hasher, u64::from(*count));
            put_expression(hasher, e);
            put_block(hasher, body);
        }
        Statement::Put(array, index, e) => {
            put_array(hasher, 19, *array);
            put_expression(hasher, index);
            put_expression(hasher, e);
        }
    }
}

/// Puts a block: the number of its statements, then each of them.
#[cycle(put_statements)]
fn put_block(hasher: &mut Sha256, block: &[Statement])
    ensures bytes { (m : List ℕ) → Holds256 hasher.old m →
        Holds256 hasher.new (m ++ block_bytes (acts_of block.now)) }
    ensures fits { BlockFits (acts_of block.now) }
{
    put_number(hasher, block.len() as u64);
    'statements: for statement in block {
        put_statement(hasher, statement);
    }
}

fn known_number(known: Known) -> u64
    ensures { result ≡ number_of_known known }
{
    match known {
        Known::Process => 0,
        Known::Sender => 1,
        Known::Now => 2,
        Known::Processes => 3,
    }
}

/// Returns the number of a law. `draw` has 0, as it had before there were others.
fn law_number(law: Law) -> u64
    ensures { result ≡ number_of_law law }
{
    match law {
        Law::Uniform => 0,
        Law::Exponential => 1,
        Law::Geometric => 2,
    }
}

fn operator_number(operator: Operator) -> u64
    ensures { result ≡ number_of_operator operator }
{
    match operator {
        Operator::Plus => 0,
        Operator::Minus => 1,
        Operator::Times => 2,
        Operator::Over => 3,
        Operator::Modulo => 4,
        Operator::ShiftLeft => 5,
        Operator::ShiftRight => 6,
        Operator::BitAnd => 7,
        Operator::BitXor => 8,
        Operator::BitOr => 9,
        Operator::Same => 10,
        Operator::Different => 11,
        Operator::Below => 12,
        Operator::AtMost => 13,
        Operator::Above => 14,
        Operator::AtLeast => 15,
        Operator::Both => 16,
        Operator::Either => 17,
        Operator::Least => 18,
        Operator::Greatest => 19,
    }
}
