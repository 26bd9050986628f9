// What is printed of a model by rules: its names, its tables, and its rules laid out.

ghost use Rattle.std.specs.Prelude.{◌≡◌, ◌++◌, OnOk, decimal, map, string_bytes};
ghost use Rattle.rule_files.specs.Arrays.{array_view};
ghost use Rattle.rule_files.specs.Grammar.{looseness as looseness_of};
ghost use Rattle.rule_files.specs.Printed.{array_name, unit, with_array, with_arrays, with_bits};
ghost use Rattle.rule_files.specs.Printed.{block_of, each_array, rest_of, with_both, with_common};
ghost use Rattle.rule_files.specs.Printed.{with_each, with_head, with_kind, with_kinds_model};
ghost use Rattle.rule_files.specs.Printed.{with_sort, with_sorts};
ghost use Rattle.rule_files.specs.Printed.{with_element};
ghost use Rattle.rule_files.specs.Printed.{before, behind, content_name, deeper, function_name};
ghost use Rattle.rule_files.specs.Printed.{in_line, is_choice, is_zero, known_text, law_name};
ghost use Rattle.rule_files.specs.Printed.{left_looseness, mark_if, name_at};
ghost use Rattle.rule_files.specs.Printed.{local_name as local_name_of, named};
ghost use Rattle.rule_files.specs.Printed.{named_all, next as next_of, opening, otherwise_of};
ghost use Rattle.rule_files.specs.Printed.{otherwise_layout, outermost, passed, right_looseness};
ghost use Rattle.rule_files.specs.Printed.{sign, with_block, with_closing, with_content};
ghost use Rattle.rule_files.specs.Printed.{with_contents, with_figures, with_indent, with_local};
ghost use Rattle.rule_files.specs.Printed.{with_margin, with_model, with_names, with_number};
ghost use Rattle.rule_files.specs.Printed.{with_numbers, with_sending, with_statement};
ghost use Rattle.rule_files.specs.Printed.{with_table, with_tables, with_value, with_word};
ghost use Rattle.rule_files.specs.Printed.{with_words};
ghost use Rattle.rule_files.specs.RuleFile.{other_names};

use crate::arrays::NamedArray;
use crate::dictionary::value_of;
use crate::file_model::{FileNames, KindNames};
use crate::kinds::KindHead;
use crate::scope::{Named, NamedSort, OTHERS};
use itoa::Buffer;
use rules::{Array, Expression, Known, Law, Operator, Rules, Sending, Statement, Table};
use std::alloc::AllocError;

/// Where a statement stands.
#[derive(Clone, Copy, Debug)]
struct Layout {
    /// The number of blocks around it, with that of the rule.
    depth: u64,
    /// Whether it goes on in a line that is begun.
    inline: bool,
    /// The names of `let` and `repeat` in scope by their places: each is given by its number in the
    /// rule.
    scope: [u64; 16],
}

/// What stands after the block that is run if a value is not 0.
#[derive(Clone, Copy, Debug)]
enum Otherwise {
    Nothing,
    Choice,
    Block,
}

/// Appends what a model by rules says: its names, the first numbers of its tables, and its rules,
/// laid out with one statement a line.
pub(crate) fn put_model(
    names: &FileNames,
    rules: &Rules,
    text: &mut String,
) -> Result<(), AllocError>
    ensures { OnOk result (string_bytes text.new
        ≡ with_model names.now rules.now.description (string_bytes text.old)) }
{
    put_words(names.words.as_slice(), text)?;
    put_arrays(names.arrays.as_slice(), names.words.len(), text)?;
    put_contents(names.content.as_slice(), text)?;
    put_sorts(names.sorts.as_slice(), text)?;
    put_numbers(names.numbers.as_slice(), text)?;
    put_tables(names.tables.as_slice(), rules.tables(), text)?;
    put_both(names, rules.start_rule(), rules.handle_rule(), text)
}

/// Appends what a model with kinds of processes says: what they have in common, then each kind with
/// its names and its rules.
pub(crate) fn put_kinds_model(
    kinds: &[KindNames],
    rules: &Rules,
    text: &mut String,
) -> Result<(), AllocError>
    ensures { OnOk result (string_bytes text.new
        ≡ with_kinds_model kinds.now rules.now.description (string_bytes text.old)) }
{
    put_common(kinds, rules.tables(), text)?;
    put_each(kinds, rules.start_rule(), rules.handle_rule(), text)
}

/// Appends the sorts of messages, the numbers and the tables, which are the same for each kind.
fn put_common(kinds: &[KindNames], tables: &[Table], text: &mut String) -> Result<(), AllocError>
    ensures { OnOk result (string_bytes text.new
        ≡ with_common kinds.now tables.now (string_bytes text.old)) }
{
    match kinds.first() {
        Some(kind) => {
            put_sorts(kind.names.sorts.as_slice(), text)?;
            put_numbers(kind.names.numbers.as_slice(), text)?;
            put_tables(kind.names.tables.as_slice(), tables, text)
        }
        None => Ok(()),
    }
}

/// Appends each kind, whose rules are the blocks of two rules for all kinds.
fn put_each(
    kinds: &[KindNames],
    start: &[Statement],
    handle: &[Statement],
    text: &mut String,
) -> Result<(), AllocError>
    ensures { OnOk result (string_bytes text.new
        ≡ with_each kinds.now start.now handle.now (string_bytes text.old)) }
{
    let mut start = start;
    let mut handle = handle;
    'kinds: for kind in kinds {
        put_kind(kind, block_of(start), block_of(handle), text)?;
        start = rest_of(start);
        handle = rest_of(handle);
    }
    Ok(())
}

/// Returns the block of the first kind in a rule for all kinds.
fn block_of(rule: &[Statement]) -> &[Statement]
    ensures { result.now ≡ block_of rule.now }
{
    match rule {
        [Statement::If(_, met, _)] => met.as_slice(),
        _ => &[],
    }
}

/// Returns the rule for the kinds after the first one in a rule for all kinds.
fn rest_of(rule: &[Statement]) -> &[Statement]
    ensures { result.now ≡ rest_of rule.now }
{
    match rule {
        [Statement::If(_, _, unmet)] => unmet.as_slice(),
        _ => &[],
    }
}

/// Appends a kind with these rules.
fn put_kind(
    kind: &KindNames,
    start: &[Statement],
    handle: &[Statement],
    text: &mut String,
) -> Result<(), AllocError>
    ensures { OnOk result (string_bytes text.new
        ≡ with_kind kind.now start.now handle.now (string_bytes text.old)) }
{
    put_head(&kind.head, text)?;
    put_words(kind.names.words.as_slice(), text)?;
    put_every_array(kind.names.arrays.as_slice(), text)?;
    put_bits(kind.names.words.len(), text)?;
    put_contents(kind.names.content.as_slice(), text)?;
    put_both(&kind.names, start, handle, text)
}

/// Appends the name and the processes of a kind.
fn put_head(head: &KindHead, text: &mut String) -> Result<(), AllocError>
    ensures { OnOk result (string_bytes text.new ≡ with_head head.now (string_bytes text.old)) }
{
    let (first, count) = (u64::from(head.first), u64::from(head.count));
    put("kind ", text)?;
    put(head.name.as_str(), text)?;
    put(": ", text)?;
    put_number(count, text)?;
    put(" (", text)?;
    put_number(first, text)?;
    put(" to ", text)?;
    put_number((first + count).saturating_sub(1), text)?;
    put(")\n", text)
}

/// Appends the sorts of messages.
fn put_sorts(sorts: &[NamedSort], text: &mut String) -> Result<(), AllocError>
    ensures { OnOk result (string_bytes text.new
        ≡ with_sorts 0 (string_bytes text.old) sorts.now) }
{
    'sorts: for (number, sort) in sorts.iter().enumerate() {
        put_sort(number as u64, sort, text)?;
    }
    Ok(())
}

/// Appends a sort of messages: its number, its name and its fields.
fn put_sort(number: u64, sort: &NamedSort, text: &mut String) -> Result<(), AllocError>
    ensures { OnOk result (string_bytes text.new
        ≡ with_sort number (string_bytes text.old) sort.now) }
{
    put("sort ", text)?;
    put_number(number, text)?;
    put(": ", text)?;
    put(sort.name.as_str(), text)?;
    put_names(sort.fields.as_slice(), text)?;
    put("\n", text)
}

/// Appends both rules.
fn put_both(
    names: &FileNames,
    start: &[Statement],
    handle: &[Statement],
    text: &mut String,
) -> Result<(), AllocError>
    ensures { OnOk result (string_bytes text.new
        ≡ with_both names.now start.now handle.now (string_bytes text.old)) }
{
    let at = Layout {
        depth: 1,
        inline: false,
        scope: [0; 16],
    };
    let (mut first, mut second) = (0, 0);
    put("start:\n", text)?;
    put_block(names, names.start.as_slice(), at, &mut first, start, text)?;
    put("handle:\n", text)?;
    put_block(
        names,
        names.handle.as_slice(),
        at,
        &mut second,
        handle,
        text,
    )
}

/// Appends a text.
fn put(more: &str, text: &mut String) -> Result<(), AllocError>
    ensures { OnOk result (string_bytes text.new ≡ string_bytes text.old ++ more.now) }
{
    text.push_str(more)
}

/// Appends a number in decimal digits.
fn put_number(number: u64, text: &mut String) -> Result<(), AllocError>
    ensures { OnOk result (string_bytes text.new ≡ string_bytes text.old ++ decimal number) }
{
    let mut digits = Buffer::new();
    text.push_str(digits.format(number))
}

/// Returns the name at a place, or nothing.
fn name_at(names: &[String], place: usize) -> &str
    ensures { result.now ≡ name_at (map string_bytes names.now) place }
{
    match names.get(place) {
        Some(name) => name.as_str(),
        None => "",
    }
}

/// Returns the name of the array at the place of this one, or nothing.
fn array_name(arrays: &[NamedArray], array: Array) -> &str
    ensures { result.now ≡ array_name (map array_view arrays.now) array }
{
    'arrays: for one in arrays {
        if one.array.place == array.place {
            return one.name.as_str();
        }
    }
    ""
}

/// Returns the name of a word of content: its own, or the one by its place.
fn content_name(names: &[String], place: usize) -> &str
    ensures { result.now ≡ content_name (map string_bytes names.now) place }
{
    let name = name_at(names, place);
    if name.is_empty() {
        other_name(place)
    } else {
        name
    }
}

/// Returns the name by its place of a word of content.
fn other_name(place: usize) -> &'static str
    ensures { result.now ≡ name_at other_names place }
{
    let others: &'static [&'static str] = &OTHERS;
    match others.get(place) {
        Some(other) => *other,
        None => "",
    }
}

/// Appends the words of the state.
fn put_words(words: &[String], text: &mut String) -> Result<(), AllocError>
    ensures { OnOk result (string_bytes text.new
        ≡ with_words (string_bytes text.old) (map string_bytes words.now)) }
{
    put("state:", text)?;
    put_names(words, text)?;
    put("\n", text)
}

/// Appends the arrays, and the bits of the state, if there are arrays.
fn put_arrays(arrays: &[NamedArray], words: usize, text: &mut String) -> Result<(), AllocError>
    ensures { OnOk result (string_bytes text.new
        ≡ with_arrays (string_bytes text.old) (map array_view arrays.now) words) }
{
    put_every_array(arrays, text)?;
    if arrays.is_empty() {
        Ok(())
    } else {
        put_bits(words, text)
    }
}

/// Appends the arrays.
fn put_every_array(arrays: &[NamedArray], text: &mut String) -> Result<(), AllocError>
    ensures { OnOk result (string_bytes text.new
        ≡ each_array (string_bytes text.old) (map array_view arrays.now)) }
{
    'arrays: for array in arrays {
        put_array(array, text)?;
    }
    Ok(())
}

/// Appends the bits of a state with `words` words.
fn put_bits(words: usize, text: &mut String) -> Result<(), AllocError>
    ensures { OnOk result (string_bytes text.new ≡ with_bits (string_bytes text.old) words) }
{
    put("bits of state: ", text)?;
    put_number((words as u64).saturating_mul(64), text)?;
    put(" of 1024\n", text)
}

/// Appends an array.
fn put_array(named: &NamedArray, text: &mut String) -> Result<(), AllocError>
    ensures { OnOk result (string_bytes text.new
        ≡ with_array (string_bytes text.old) (array_view named.now)) }
{
    put("array ", text)?;
    put(named.name.as_str(), text)?;
    put("[", text)?;
    put_number(u64::from(named.array.count), text)?;
    put("]: ", text)?;
    put_number(u64::from(named.array.bits), text)?;
    put(unit(named.array.bits), text)
}

/// Returns the word after the bits of an element.
fn unit(bits: u8) -> &'static str
    ensures { result.now ≡ unit bits }
{
    if bits == 1 { " bit\n" } else { " bits\n" }
}

/// Appends names, each after a space.
fn put_names(names: &[String], text: &mut String) -> Result<(), AllocError>
    ensures { OnOk result (string_bytes text.new
        ≡ with_names (string_bytes text.old) (map string_bytes names.now)) }
{
    'names: for name in names {
        put(" ", text)?;
        put(name.as_str(), text)?;
    }
    Ok(())
}

/// Appends the words of content.
fn put_contents(names: &[String], text: &mut String) -> Result<(), AllocError>
    ensures { OnOk result (string_bytes text.new
        ≡ with_contents (string_bytes text.old) (map string_bytes names.now)) }
{
    put("message: ", text)?;
    put(content_name(names, 0), text)?;
    put(" ", text)?;
    put(content_name(names, 1), text)?;
    put(" ", text)?;
    put(content_name(names, 2), text)?;
    put(" ", text)?;
    put(content_name(names, 3), text)?;
    put("\n", text)
}

/// Appends the named numbers.
fn put_numbers(numbers: &[Named], text: &mut String) -> Result<(), AllocError>
    ensures { OnOk result (string_bytes text.new
        ≡ with_numbers (string_bytes text.old) numbers.now) }
{
    'numbers: for named in numbers {
        put_named(named, text)?;
    }
    Ok(())
}

/// Appends a named number.
fn put_named(named: &Named, text: &mut String) -> Result<(), AllocError>
    ensures { OnOk result (string_bytes text.new ≡ with_number (string_bytes text.old) named.now) }
{
    put("number ", text)?;
    put(named.name.as_str(), text)?;
    put(": ", text)?;
    put_number(value_of(named.numbers.as_slice()), text)?;
    put("\n", text)
}

/// Appends the tables.
fn put_tables(names: &[String], tables: &[Table], text: &mut String) -> Result<(), AllocError>
    ensures { OnOk result (string_bytes text.new
        ≡ with_tables 0 (map string_bytes names.now) (string_bytes text.old) tables.now) }
{
    'tables: for (place, table) in tables.iter().enumerate() {
        put_table(name_at(names, place), table.as_slice(), text)?;
    }
    Ok(())
}

/// Appends a table: its name, its length, and its first eight numbers.
fn put_table(name: &str, numbers: &[u64], text: &mut String) -> Result<(), AllocError>
    ensures { OnOk result (string_bytes text.new
        ≡ with_table (string_bytes text.old) name.now numbers.now) }
{
    put("table ", text)?;
    put(name, text)?;
    put(" (", text)?;
    put_number(numbers.len() as u64, text)?;
    put("):", text)?;
    put_figures(numbers.split_at(numbers.len().min(8)).0, text)?;
    put(mark_if(numbers.len() > 8, " .."), text)?;
    put("\n", text)
}

/// Appends numbers, each after a space.
fn put_figures(numbers: &[u64], text: &mut String) -> Result<(), AllocError>
    ensures { OnOk result (string_bytes text.new
        ≡ with_figures (string_bytes text.old) numbers.now) }
{
    'numbers: for number in numbers {
        put(" ", text)?;
        put_number(*number, text)?;
    }
    Ok(())
}

/// Returns how loosely an operator binds.
fn looseness(operator: Operator) -> u8
    ensures { result ≡ looseness_of operator }
{
    match operator {
        Operator::Least | Operator::Greatest => 0,
        Operator::Times | Operator::Over | Operator::Modulo => 1,
        Operator::Plus | Operator::Minus => 2,
        Operator::ShiftLeft | Operator::ShiftRight => 3,
        Operator::BitAnd => 4,
        Operator::BitXor => 5,
        Operator::BitOr => 6,
        Operator::Same
        | Operator::Different
        | Operator::Below
        | Operator::AtMost
        | Operator::Above
        | Operator::AtLeast => 7,
        Operator::Both => 8,
        Operator::Either => 9,
    }
}

/// Returns how loosely the left value of an operator may bind without parentheses.
fn left_looseness(operator: Operator) -> u8
    ensures { result ≡ left_looseness operator }
{
    let loose = looseness(operator);
    if loose == 0 {
        9
    } else if loose == 7 {
        6
    } else {
        loose
    }
}

/// Returns how loosely the right value of an operator may bind without parentheses.
fn right_looseness(operator: Operator) -> u8
    ensures { result ≡ right_looseness operator }
{
    let loose = looseness(operator);
    if loose == 0 {
        9
    } else if loose == 7 {
        6
    } else {
        loose - 1
    }
}

/// Returns what stands between the two values of an operator.
fn sign(operator: Operator) -> &'static str
    ensures { result.now ≡ sign operator }
{
    match operator {
        Operator::Plus => " + ",
        Operator::Minus => " - ",
        Operator::Times => " * ",
        Operator::Over => " / ",
        Operator::Modulo => " % ",
        Operator::ShiftLeft => " << ",
        Operator::ShiftRight => " >> ",
        Operator::BitAnd => " & ",
        Operator::BitXor => " ^ ",
        Operator::BitOr => " | ",
        Operator::Same => " == ",
        Operator::Different => " != ",
        Operator::Below => " < ",
        Operator::AtMost => " <= ",
        Operator::Above => " > ",
        Operator::AtLeast => " >= ",
        Operator::Both => " && ",
        Operator::Either => " || ",
        Operator::Least | Operator::Greatest => ", ",
    }
}

/// Returns what stands before the two values of an operator, where only values that bind at most
/// so loosely may stand.
fn before(most: u8, operator: Operator) -> &'static str
    ensures { result.now ≡ before most operator }
{
    if looseness(operator) > most {
        "("
    } else {
        function_name(operator)
    }
}

/// Returns the name of an operator that is written as a function.
fn function_name(operator: Operator) -> &'static str
    ensures { result.now ≡ function_name operator }
{
    match operator {
        Operator::Least => "min(",
        Operator::Greatest => "max(",
        _ => "",
    }
}

/// Returns what stands after the two values of an operator.
fn behind(most: u8, operator: Operator) -> &'static str
    ensures { result.now ≡ behind most operator }
{
    let loose = looseness(operator);
    if loose > most || loose == 0 { ")" } else { "" }
}

/// Returns the word for a number about the handling.
fn known_text(known: Known) -> &'static str
    ensures { result.now ≡ known_text known }
{
    match known {
        Known::Process => "self",
        Known::Sender => "sender",
        Known::Now => "now",
        Known::Processes => "lps",
    }
}

/// Returns what stands before the parameter of a law.
fn law_name(law: Law) -> &'static str
    ensures { result.now ≡ law_name law }
{
    match law {
        Law::Uniform => "draw(",
        Law::Exponential => "exponential(",
        Law::Geometric => "geometric(",
    }
}

/// Appends a value, with parentheses if it binds more loosely than `most`.
fn put_value(
    names: &FileNames,
    given: &[String],
    at: Layout,
    most: u8,
    e: &Expression,
    text: &mut String,
) -> Result<(), AllocError>
    ensures { OnOk result (string_bytes text.new
        ≡ with_value names.now (map string_bytes given.now) at most (string_bytes text.old) e.now) }
{
    match e {
        Expression::Number(n) => put_number(*n, text),
        Expression::Word(place) => put(name_at(names.words.as_slice(), usize::from(*place)), text),
        Expression::Content(place) => put(
            content_name(names.content.as_slice(), usize::from(*place)),
            text,
        ),
        Expression::Local(place) => put(local_name(given, at, *place), text),
        Expression::Read(known) => put(known_text(*known), text),
        Expression::Not(x) => {
            put("!", text)?;
            put_value(names, given, at, 0, x, text)
        }
        Expression::Two(operator, x, y) => {
            put(before(most, *operator), text)?;
            put_value(names, given, at, left_looseness(*operator), x, text)?;
            put(sign(*operator), text)?;
            put_value(names, given, at, right_looseness(*operator), y, text)?;
            put(behind(most, *operator), text)
        }
        Expression::Entry(table, x) => {
            put(name_at(names.tables.as_slice(), *table as usize), text)?;
            put("[", text)?;
            put_value(names, given, at, 9, x, text)?;
            put("]", text)
        }
        Expression::Draw(law, x) => {
            put(law_name(*law), text)?;
            put_value(names, given, at, 9, x, text)?;
            put(")", text)
        }
        Expression::Normal(x, y) => {
            put("normal(", text)?;
            put_value(names, given, at, 9, x, text)?;
            put(", ", text)?;
            put_value(names, given, at, 9, y, text)?;
            put(")", text)
        }
        Expression::Triangular(x, y, z) => {
            put("triangular(", text)?;
            put_value(names, given, at, 9, x, text)?;
            put(", ", text)?;
            put_value(names, given, at, 9, y, text)?;
            put(", ", text)?;
            put_value(names, given, at, 9, z, text)?;
            put(")", text)
        }
        Expression::Element(array, x) => {
            put(array_name(names.arrays.as_slice(), *array), text)?;
            put("[", text)?;
            put_value(names, given, at, 9, x, text)?;
            put("]", text)
        }
        Expression::Choose(table) => {
            put("choose(", text)?;
            put(name_at(names.tables.as_slice(), *table as usize), text)?;
            put(")", text)
        }
    }
}

/// Appends an element of an array.
fn put_element(
    names: &FileNames,
    given: &[String],
    at: Layout,
    array: Array,
    index: &Expression,
    text: &mut String,
) -> Result<(), AllocError>
    ensures { OnOk result (string_bytes text.new
        ≡ with_element names.now (map string_bytes given.now) at (string_bytes text.old) array
        index.now) }
{
    put(array_name(names.arrays.as_slice(), array), text)?;
    put("[", text)?;
    put_value(names, given, at, 9, index, text)?;
    put("]", text)
}

/// Returns the name of `let` or `repeat` at a place.
fn local_name(given: &[String], at: Layout, place: u8) -> &str
    ensures { result.now ≡ local_name_of (map string_bytes given.now) at place }
{
    let number = at.scope.get(usize::from(place)).copied().unwrap_or(0);
    name_at(given, number as usize)
}

/// Returns the number after a number of names, or blocks.
fn next(number: u64) -> u64
    ensures { result ≡ next_of number }
{
    number.saturating_add(1)
}

/// Returns the layout of a block at a place.
fn deeper(at: Layout) -> Layout
    ensures { result ≡ deeper at }
{
    let scope = at.scope;
    Layout {
        depth: next(at.depth),
        inline: false,
        scope,
    }
}

/// Returns the layout of the statement that goes on in the line.
fn in_line(at: Layout) -> Layout
    ensures { result ≡ in_line at }
{
    let scope = at.scope;
    Layout {
        depth: at.depth,
        inline: true,
        scope,
    }
}

/// Returns the layout with one more name.
fn with_local(place: u8, name: u64, at: Layout) -> Layout
    ensures { result ≡ with_local place name at }
{
    let mut scope = at.scope;
    let place = usize::from(place);
    if place < scope.len() {
        scope[place] = name;
    }
    Layout {
        depth: at.depth,
        inline: at.inline,
        scope,
    }
}

/// Returns where the statements after this one stand.
fn passed(statement: &Statement, name: u64, at: Layout) -> Layout
    ensures { result ≡ passed statement.now name at }
{
    match statement {
        Statement::Let(place, _) => with_local(*place, name, at),
        _ => at,
    }
}

/// Appends four spaces for each block around.
fn put_indent(depth: u64, text: &mut String) -> Result<(), AllocError>
    ensures { OnOk result (string_bytes text.new ≡ with_indent depth (string_bytes text.old)) }
{
    'spaces: for _turn in 0..depth {
        put("    ", text)?;
    }
    Ok(())
}

/// Appends what stands before a statement in its line.
fn put_margin(at: Layout, text: &mut String) -> Result<(), AllocError>
    ensures { OnOk result (string_bytes text.new ≡ with_margin at (string_bytes text.old)) }
{
    if at.inline {
        return Ok(());
    }
    put_indent(at.depth, text)
}

/// Returns whether an expression is the number 0.
fn is_zero(e: &Expression) -> bool
    ensures { result ≡ is_zero e.now }
{
    match e {
        Expression::Number(n) => *n == 0,
        _ => false,
    }
}

/// Appends a word of content, if it or one after it is not 0.
fn put_word(
    names: &FileNames,
    given: &[String],
    at: Layout,
    mark: &str,
    e: &Expression,
    text: &mut String,
) -> Result<(), AllocError>
    ensures { OnOk result (string_bytes text.new
        ≡ with_word names.now (map string_bytes given.now) at mark.now (string_bytes text.old)
        e.now) }
{
    if mark.is_empty() {
        return Ok(());
    }
    put(mark, text)?;
    put_value(names, given, at, 9, e, text)
}

/// Returns a mark if something stands after it, otherwise nothing.
fn mark_if(stands: bool, mark: &'static str) -> &'static str
    ensures { result.now ≡ mark_if stands mark.now }
{
    if stands { mark } else { "" }
}

/// Appends the words of content up to the last that is not 0.
fn put_content(
    names: &FileNames,
    given: &[String],
    at: Layout,
    sending: &Sending,
    text: &mut String,
) -> Result<(), AllocError>
    ensures { OnOk result (string_bytes text.new
        ≡ with_content names.now (map string_bytes given.now) at (string_bytes text.old)
        sending.now) }
{
    let fourth = !is_zero(&sending.d);
    let third = fourth || !is_zero(&sending.c);
    let second = third || !is_zero(&sending.b);
    let first = second || !is_zero(&sending.a);
    put_word(names, given, at, mark_if(first, " with "), &sending.a, text)?;
    put_word(names, given, at, mark_if(second, ", "), &sending.b, text)?;
    put_word(names, given, at, mark_if(third, ", "), &sending.c, text)?;
    put_word(names, given, at, mark_if(fourth, ", "), &sending.d, text)
}

/// Appends a send, after its margin.
fn put_sending(
    names: &FileNames,
    given: &[String],
    at: Layout,
    sending: &Sending,
    text: &mut String,
) -> Result<(), AllocError>
    ensures { OnOk result (string_bytes text.new
        ≡ with_sending names.now (map string_bytes given.now) at (string_bytes text.old)
        sending.now) }
{
    put("send to ", text)?;
    put_value(names, given, at, 9, &sending.to, text)?;
    put(" after ", text)?;
    put_value(names, given, at, 9, &sending.after, text)?;
    put_content(names, given, at, sending, text)?;
    put("\n", text)
}

/// Returns whether a statement is an `if`.
fn is_choice(statement: &Statement) -> bool
    ensures { result ≡ is_choice statement.now }
{
    match statement {
        Statement::If(_, _, _) => true,
        _ => false,
    }
}

/// Returns what stands after the block that is run if a value is not 0.
fn otherwise_of(unmet: &[Statement]) -> Otherwise
    ensures { result ≡ otherwise_of unmet.now }
{
    match unmet.split_first() {
        None => Otherwise::Nothing,
        Some((first, rest)) => {
            if rest.is_empty() && is_choice(first) {
                Otherwise::Choice
            } else {
                Otherwise::Block
            }
        }
    }
}

/// Returns the end of the block before, and the beginning of what stands after it.
fn opening(otherwise: Otherwise) -> &'static str
    ensures { result.now ≡ opening otherwise }
{
    match otherwise {
        Otherwise::Nothing => "}\n",
        Otherwise::Choice => "} else ",
        Otherwise::Block => "} else {\n",
    }
}

/// Returns the layout of what stands after the block.
fn otherwise_layout(otherwise: Otherwise, at: Layout) -> Layout
    ensures { result ≡ otherwise_layout otherwise at }
{
    match otherwise {
        Otherwise::Nothing | Otherwise::Block => deeper(at),
        Otherwise::Choice => in_line(at),
    }
}

/// Appends the end of what stands after the block.
fn put_closing(otherwise: Otherwise, at: Layout, text: &mut String) -> Result<(), AllocError>
    ensures { OnOk result (string_bytes text.new
        ≡ with_closing otherwise at (string_bytes text.old)) }
{
    match otherwise {
        Otherwise::Nothing | Otherwise::Choice => Ok(()),
        Otherwise::Block => {
            put_indent(at.depth, text)?;
            put("}\n", text)
        }
    }
}

/// Appends a statement. `number` is how many names the rule has given before it, and then after it.
#[cycle(layout)]
fn put_statement(
    names: &FileNames,
    given: &[String],
    at: Layout,
    number: &mut u64,
    statement: &Statement,
    text: &mut String,
) -> Result<(), AllocError>
    ensures text { OnOk result (string_bytes text.new
        ≡ with_statement names.now (map string_bytes given.now) at number.old
        (string_bytes text.old) statement.now) }
    ensures number { OnOk result (number.new ≡ named statement.now number.old) }
{
    match statement {
        Statement::Let(_, e) => {
            put_margin(at, text)?;
            put("let ", text)?;
            put(name_at(given, *number as usize), text)?;
            put(" = ", text)?;
            put_value(names, given, at, 9, e, text)?;
            *number = next(*number);
            put("\n", text)
        }
        Statement::Set(place, e) => {
            put_margin(at, text)?;
            put(name_at(names.words.as_slice(), usize::from(*place)), text)?;
            put(" = ", text)?;
            put_value(names, given, at, 9, e, text)?;
            put("\n", text)
        }
        Statement::Put(array, i, e) => {
            put_margin(at, text)?;
            put_element(names, given, at, *array, i, text)?;
            put(" = ", text)?;
            put_value(names, given, at, 9, e, text)?;
            put("\n", text)
        }
        Statement::Send(sending) => {
            put_margin(at, text)?;
            put_sending(names, given, at, sending, text)
        }
        Statement::If(e, met, unmet) => {
            let otherwise = otherwise_of(unmet);
            put_margin(at, text)?;
            put("if ", text)?;
            put_value(names, given, at, 9, e, text)?;
            put(" {\n", text)?;
            put_block(names, given, deeper(at), number, met, text)?;
            put_indent(at.depth, text)?;
            put(opening(otherwise), text)?;
            let behind = otherwise_layout(otherwise, at);
            put_block(names, given, behind, number, unmet, text)?;
            put_closing(otherwise, at, text)
        }
        Statement::Repeat(place, count, body) => {
            let name = *number;
            *number = next(name);
            put_margin(at, text)?;
            put("repeat ", text)?;
            put(name_at(given, name as usize), text)?;
            put(" ", text)?;
            put_number(u64::from(*count), text)?;
            put(" {\n", text)?;
            let inside = deeper(with_local(*place, name, at));
            put_block(names, given, inside, number, body, text)?;
            put_indent(at.depth, text)?;
            put("}\n", text)
        }
        Statement::RepeatUntil(place, count, e, body) => {
            let name = *number;
            *number = next(name);
            let here = with_local(*place, name, at);
            put_margin(at, text)?;
            put("repeat ", text)?;
            put(name_at(given, name as usize), text)?;
            put(" ", text)?;
            put_number(u64::from(*count), text)?;
            put(" until ", text)?;
            put_value(names, given, here, 9, e, text)?;
            put(" {\n", text)?;
            put_block(names, given, deeper(here), number, body, text)?;
            put_indent(at.depth, text)?;
            put("}\n", text)
        }
    }
}

/// Appends the statements of a block.
#[cycle(layout)]
fn put_block(
    names: &FileNames,
    given: &[String],
    at: Layout,
    number: &mut u64,
    block: &[Statement],
    text: &mut String,
) -> Result<(), AllocError>
    ensures text { OnOk result (string_bytes text.new
        ≡ with_block names.now (map string_bytes given.now) at number.old
        (string_bytes text.old) block.now) }
    ensures number { OnOk result (number.new ≡ named_all block.now number.old) }
{
    let mut here = at;
    'statements: for statement in block {
        let before = *number;
        put_statement(names, given, here, number, statement, text)?;
        here = passed(statement, before, here);
    }
    Ok(())
}
