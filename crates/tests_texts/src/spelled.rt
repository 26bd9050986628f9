// Texts of rules, and which trees they spell. Their mistakes and limits are in the scripts
// `rules_read` and `hostile_rules`.

use eventkey::Message;
use model::Model;
use rule_files::grammar::{
    Meaning, MistakeKind, ReadError, ReadMistake, RuleScope, ScopeError, find_mistakes, read_rule,
};
use rules::{Array, Rules, RulesParts, Statement};
use smallvec::SmallVec;
use std::alloc::Global;
use std::test::Fail;

/// A scope with the state `served`, `free_at`, `queue` and `key`, the content `job`, the number
/// `jobs` and the table `speed`.
fn scope(alloc: Global) -> Result<RuleScope, ScopeError> {
    let mut scope = RuleScope::new(alloc, true);
    scope.add(alloc, "free_at", Meaning::Word(0))?;
    scope.add(alloc, "served", Meaning::Word(1))?;
    scope.add(alloc, "job", Meaning::Content(0))?;
    scope.add(alloc, "jobs", Meaning::Number(2))?;
    scope.add(alloc, "speed", Meaning::Table(3))?;
    let queue = Array {
        place: 4,
        bits: 16,
        count: 40,
    };
    scope.add(alloc, "queue", Meaning::Array(queue))?;
    Ok(scope)
}

/// The rule that a text spells.
pub fn rule(alloc: Global, text: &str) -> Result<Vec<Statement>, Fail> {
    let scope = scope(alloc).ok().ok_or("the names are free")?;
    Ok(
        read_rule(alloc, &scope, text)
            .ok()
            .ok_or("a rule was wanted")?,
    )
}

/// Values of `served`, and the trees that they spell.
const VALUES: &str = "\
8 - 3 - 2 * 2 => Two(Minus, Two(Minus, Number(8), Number(3)), Two(Times, Number(2), Number(2)))
1 + 2 << 3 => Two(ShiftLeft, Two(Plus, Number(1), Number(2)), Number(3))
1 << 2 & 3 => Two(BitAnd, Two(ShiftLeft, Number(1), Number(2)), Number(3))
1 & 2 ^ 3 => Two(BitXor, Two(BitAnd, Number(1), Number(2)), Number(3))
1 ^ 2 | 3 => Two(BitOr, Two(BitXor, Number(1), Number(2)), Number(3))
1 | 2 == 3 => Two(Same, Two(BitOr, Number(1), Number(2)), Number(3))
1 < 2 && 3 >= 4 => Two(Both, Two(Below, Number(1), Number(2)), Two(AtLeast, Number(3), Number(4)))
1 || 2 && 3 || 4 => Two(Either, Two(Either, Number(1), Two(Both, Number(2), Number(3))), Number(4))
!1 % 2 / 3 => Two(Over, Two(Modulo, Not(Number(1)), Number(2)), Number(3))
!(1 != 2) => Not(Two(Different, Number(1), Number(2)))
min(1, 2 >> 1) <= max(x, job) => Two(AtMost, Two(Least, Number(1), Two(ShiftRight, Number(2), Number(1))), Two(Greatest, Local(0), Content(0)))
speed[self + now] > draw(jobs) => Two(Above, Entry(3, Two(Plus, Read(Process), Read(Now))), Draw(Uniform, Number(2)))
queue[self % jobs] + 1 => Two(Plus, Element(Array { place: 4, bits: 16, count: 40 }, Two(Modulo, Read(Process), Number(2))), Number(1))
(free_at - lps) * sender => Two(Times, Two(Minus, Word(0), Read(Processes)), Read(Sender))
18_446_744_073_709_551_615 # the most => Number(18446744073709551615)
";

/// The statement that gives `served` a value, as `Debug` prints it.
fn spelled(alloc: Global, value: &str) -> Result<String, Fail> {
    let text = format!(in alloc; "let x = 1 served = {value}")?;
    let rule = rule(alloc, text.as_str())?;
    Ok(format!(in alloc; "{:?}", rule.get(1))?)
}

/// Whether a row, `value => tree`, is right.
fn is_right(alloc: Global, row: &str) -> Result<bool, Fail> {
    let (value, tree) = row.split_once(" => ").ok_or("a row")?;
    let statement = spelled(alloc, value)?;
    Ok(statement.as_str() == format!(in alloc; "Some(Set(1, {tree}))")?.as_str())
}

#[test]
fn operators_bind_by_strength_and_from_the_left(rt: HostRuntime) -> Result<(), Fail> {
    for row in VALUES.lines() {
        assert!(rt; is_right(rt.alloc(), row)?, "{row}");
    }
    Ok(())
}

/// A scope of the rules of a kind that begins at process 1, in a model with the kind `teller` of
/// processes 1 to 3, the sorts `arrive`, of two words, and `leave`, of none, and the state `served`.
fn scope_of_kind(alloc: Global) -> Result<RuleScope, ScopeError> {
    let mut scope = RuleScope::of_kind(alloc, false, 1);
    scope.add(alloc, "served", Meaning::Word(0))?;
    scope.add(alloc, "teller", Meaning::Kind { first: 1, count: 3 })?;
    scope.add(
        alloc,
        "arrive",
        Meaning::Sort {
            number: 7,
            words: 2,
        },
    )?;
    scope.add(
        alloc,
        "leave",
        Meaning::Sort {
            number: 8,
            words: 0,
        },
    )?;
    Ok(scope)
}

/// Rules in that scope, and the trees that they spell.
const RULES: &str = "\
served = teller[self + 1] => [Set(0, Two(Plus, Number(1), Two(Modulo, Two(Plus, Two(Minus, Read(Process), Number(1)), Number(1)), Number(3))))]
served = teller.count + leave => [Set(0, Two(Plus, Number(3), Number(8)))]
on arrive { served = 1 } on leave { } => [If(Two(Same, Content(0), Number(7)), [Set(0, Number(1))], [If(Two(Same, Content(0), Number(8)), [], [])])]
on arrive { } served = 1 on leave { } => [If(Two(Same, Content(0), Number(7)), [], []), Set(0, Number(1)), If(Two(Same, Content(0), Number(8)), [], [])]
repeat i 5 until served > i { served = i } => [RepeatUntil(0, 5, Two(Above, Word(0), Local(0)), [Set(0, Local(0))])]
if 1 { let a = 1 } else if 2 { let a = 2 } let a = 3 => [If(Number(1), [Let(0, Number(1))], [If(Number(2), [Let(0, Number(2))], [])]), Let(0, Number(3))]
let on = 1 repeat until 2 until until { } => [Let(0, Number(1)), RepeatUntil(1, 2, Local(1), [])]
";

/// Whether a row, `rule => tree`, is right.
fn is_rule(alloc: Global, row: &str) -> Result<bool, Fail> {
    let (text, tree) = row.split_once(" => ").ok_or("a row")?;
    let scope = scope_of_kind(alloc).ok().ok_or("the names are free")?;
    let rule = read_rule(alloc, &scope, text)
        .ok()
        .ok_or("a rule was wanted")?;
    Ok(format!(in alloc; "{rule:?}")?.as_str() == tree)
}

#[test]
fn kinds_sorts_and_ends_of_repeats_are_read(rt: HostRuntime) -> Result<(), Fail> {
    for row in RULES.lines() {
        assert!(rt; is_rule(rt.alloc(), row)?, "{row}");
    }
    Ok(())
}

/// Rules in that scope, and what `served` is after a message of the sort `arrive` to process 2.
const RUNS: &str = "\
repeat i 9 until served >= 3 { served = served + i } => 3
repeat i 3 until 0 { served = served + 1 } => 3
repeat i 3 until 1 { served = 9 } => 0
on leave { served = 1 } on arrive { served = served + 2 } on arrive { served = 9 } => 2
served = teller[self + 4] => 3
";

/// The word `served` after a rule, from 0.
fn served_after(alloc: Global, text: &str) -> Result<u64, Fail> {
    let scope = scope_of_kind(alloc).ok().ok_or("the names are free")?;
    let handle = read_rule(alloc, &scope, text)
        .ok()
        .ok_or("a rule was wanted")?;
    let parts = RulesParts {
        lps: 4,
        digest: [0; 4],
        width: 1,
        key: None,
        seed: 0,
        tables: Vec::new(alloc),
        start: Vec::new(alloc),
        handle,
    };
    let Ok(model) = Rules::new(parts) else {
        return Err(Fail::from("a model was wanted"));
    };
    let message = Message::new(5, 1, 0, 2, 7, 0, 0, 0)?;
    let state = SmallVec::from_slice(alloc, &[0])?;
    let (next, _) = model.handle(alloc, 2, &state, &message);
    Ok(next.get(0).copied().unwrap_or(0))
}

/// Whether a row, `rule => served`, is right.
fn is_run(alloc: Global, row: &str) -> Result<bool, Fail> {
    let (text, served) = row.split_once(" => ").ok_or("a row")?;
    let found = served_after(alloc, text)?;
    Ok(format!(in alloc; "{found}")?.as_str() == served)
}

#[test]
fn kinds_sorts_and_ends_of_repeats_are_run(rt: HostRuntime) -> Result<(), Fail> {
    for row in RUNS.lines() {
        assert!(rt; is_run(rt.alloc(), row)?, "{row}");
    }
    Ok(())
}

/// Texts in that scope, in which `$` ends a line, and their mistakes.
const MISTAKES: &str = "\
served = 1$served = 2 =>
served = )$let y = 1 < 2 < 3$let z = y + )$served = z + y + w => line 1, column 10: a value is wanted here; line 2, column 15: comparisons do not chain: use brackets; line 3, column 13: a value is wanted here; line 4, column 18: there is nothing named \"w\"
if served < {$let a = 1$served = a }$repeat i served {$served = i$}$foo = 1 => line 1, column 13: a value is wanted here; line 4, column 10: a number below 2^32 is wanted here; line 7, column 1: there is nothing named \"foo\"
served = ?$served = teller +$on served { } => line 1, column 10: a sign, a name of at most 64 letters or a number below 2^64 is wanted here; line 2, column 17: \"[\" or \".count\" is wanted here, behind a kind of processes; line 3, column 4: a sort of messages is wanted here, behind on
let to = 1$let leave = 1 => line 1, column 5: \"to\" is a word of the language; line 2, column 5: the name \"leave\" is in use
send to self after 1 with leave => line 1, column 9: a process of this kind is teller[self]
send to teller[self] after 1 with arrive, 1$send to teller[teller[self] - 1] after self with arrive, min(1, 2), 3$send to 1 + self after self with leave$send to sender after 1$if 1 { send to 0 after 1 with leave + 1 } => line 1, column 35: arrive has 2 words, not 1; line 3, column 13: a process of this kind is teller[self]; line 4, column 1: a message begins with its sort; line 5, column 31: a message begins with its sort
served = )$send to self after 1 with leave => line 1, column 10: a value is wanted here; line 2, column 9: a process of this kind is teller[self]
send to teller[0] after 1 with leave send to 0 after 1 served = 1 send to 0 after 1 with leave, 1 => line 1, column 38: a message begins with its sort
";

/// The text of a row, with its lines.
fn text_of(alloc: Global, row: &str) -> Result<String, Fail> {
    let mut text = String::new(alloc);
    for line in row.split('$') {
        text.push_str(line)?;
        text.push_str("\n")?;
    }
    Ok(text)
}

/// The mistakes of a text, with `; ` between them.
fn mistakes_of(alloc: Global, text: &str) -> Result<String, Fail> {
    let scope = scope_of_kind(alloc).ok().ok_or("the names are free")?;
    let mut out = String::new(alloc);
    for mistake in &find_mistakes(alloc, &scope, text)? {
        if !out.is_empty() {
            out.push_str("; ")?;
        }
        out.push_str(format!(in alloc; "{mistake}")?.as_str())?;
    }
    Ok(out)
}

/// Whether a row, `text => mistakes`, is right.
fn are_found(alloc: Global, row: &str) -> Result<bool, Fail> {
    let (text, mistakes) = row.split_once(" =>").ok_or("a row")?;
    let text = text_of(alloc, text)?;
    Ok(mistakes_of(alloc, text.as_str())?.as_str() == mistakes.trim())
}

#[test]
fn reading_goes_on_behind_a_mistake(rt: HostRuntime) -> Result<(), Fail> {
    for row in MISTAKES.lines() {
        assert!(rt; are_found(rt.alloc(), row)?, "{row}");
    }
    Ok(())
}

/// What a scope that has the name `a` says to a further one.
fn added(alloc: Global, name: &str) -> Result<(), ScopeError> {
    let mut scope = RuleScope::new(alloc, false);
    scope.add(alloc, "a", Meaning::Number(1))?;
    scope.add(alloc, name, Meaning::Word(1))
}

#[test]
fn a_scope_takes_each_name_once(rt: HostRuntime) {
    assert_eq!(rt; added(rt.alloc(), "b"), Ok(()));
    assert_eq!(rt; added(rt.alloc(), "a"), Err(ScopeError::InUse));
    assert_eq!(rt; added(rt.alloc(), "send"), Err(ScopeError::InUse));
    assert_eq!(rt; added(rt.alloc(), "2a"), Err(ScopeError::NotAName));
    assert_eq!(rt; added(rt.alloc(), ""), Err(ScopeError::NotAName));
}

/// The mistake in a text.
fn mistake_in(alloc: Global, scope: &RuleScope, text: &str) -> Result<ReadMistake, Fail> {
    match read_rule(alloc, scope, text) {
        Err(ReadError::Mistaken(mistake)) => Ok(mistake),
        _ => Err(Fail::from("a mistake was wanted")),
    }
}

#[test]
fn a_draw_wants_the_word_key(rt: HostRuntime) -> Result<(), Fail> {
    let mut scope = RuleScope::new(rt.alloc(), false);
    assert!(rt; scope.add(rt.alloc(), "a", Meaning::Number(1)).is_ok());
    let mistake = mistake_in(rt.alloc(), &scope, "let b = draw(a)")?;
    assert!(rt; matches!(&mistake.kind, MistakeKind::Kept(_)));
    assert_eq!(rt;
        format!(in rt.alloc(); "{mistake}")?.as_str(),
        "line 1, column 9: draw wants the word key in the state"
    );
    Ok(())
}

/// The text of the mistake in a rule that has a part this number of times.
fn mistake_of(alloc: Global, part: &str, count: u32) -> Result<String, Fail> {
    let scope = scope(alloc).ok().ok_or("the names are free")?;
    let mut text = String::new(alloc);
    for _ in 0..count {
        text.push_str(part)?;
    }
    Ok(format!(in alloc; "{}", mistake_in(alloc, &scope, text.as_str())?)?)
}

#[test]
fn limits_are_at_their_numbers(rt: HostRuntime) -> Result<(), Fail> {
    for (part, count) in [(" ", 65_537), ("[", 1_048_576)] {
        let mistake = mistake_of(rt.alloc(), part, count)?;
        assert_eq!(rt;
            mistake.as_str(),
            "line 1, column 1: a rule has at most 65,536 bytes"
        );
    }
    Ok(())
}
