// The wave of a circuit, as a value change dump.

ghost use Rattle.std.specs.Prelude.{◌≡◌, ◌≤◌, ◌<◌, ◌^◌, ◌++◌, List, ℕ, codes, decimal, length, map};
ghost use Rattle.std.specs.Prelude.{IfOk, OnOk, slice_index, string_bytes};
ghost use Rattle.std.specs.List.{list_all, AllByRecursion as Every};
ghost use Rattle.std.specs.Option.{option_map};
ghost use Rattle.model.specs.Meaning.{CanBegin};
ghost use Rattle.model.specs.World.{below};
ghost use Rattle.circuit.specs.Circuit.{circuit_meaning, netlist_of};
ghost use Rattle.circuit.specs.Wave.{begun_gate, between_text, change_text, changes_text};
ghost use Rattle.circuit.specs.Wave.{declared_gate, declared_gates, declared_signal};
ghost use Rattle.circuit.specs.Wave.{declared_signals, event_text, events_text, first_states};
ghost use Rattle.circuit.specs.Wave.{is_letter, is_simple, is_word, name_text, named};
ghost use Rattle.circuit.specs.Wave.{state_text, states_after, states_text, time_text};
ghost use Rattle.circuit.specs.Wave.{value_text, wave_text, WaveOfPart};

use crate::circuit::Circuit;
use eventkey::Message;
use itoa::Buffer;
use model::{Model as Simulated, Origin, State, Words};
use std::alloc::{AllocError, Global};

/// Returns the wave of a circuit up to a time, in ticks, as a text that programs such as GTKWave
/// show: a value change dump (VCD, IEEE 1364-2005, clause 18). `log` has the events before that
/// time.
///
/// A wave from the start has no `origin`, and `from` is 0. That of a simulation which goes on from
/// another one begins with the values that the states of its origin give, at `from`, the tick from
/// which it goes on; then it has the changes at and after that tick, and `log` only their events
/// ([`law_of_waves`](crate::law_of_waves)).
///
/// A gate is a scope with its name, or `gateN` if it has none, and four signals: `output`, which
/// follows its pins at once, and `pin0` to `pin2`, which follow the outputs wired to them after the
/// delays. A tick is written as a nanosecond, since a dump must name a unit. The cost is one
/// handling for each event.
pub fn wave(
    alloc: Global,
    circuit: &Circuit,
    origin: Option<&Origin>,
    from: u64,
    time: u64,
    log: &[Message],
) -> Result<String, AllocError>
    requires { CanBegin (length circuit.now.gates.items) (option_map (λ o. o.now) origin) }
    ensures { IfOk result (λ text. string_bytes text
        ≡ wave_text (netlist_of circuit.now.gates.items circuit.now.wires.items circuit.now.digest)
        (map string_bytes circuit.now.names.items)
        (first_states (netlist_of circuit.now.gates.items circuit.now.wires.items
        circuit.now.digest) (option_map (λ o. o.now) origin.entry)) from time log.now) }
{
    let mut states = first_states(alloc, circuit, origin)?;
    let mut text = String::new(alloc);
    put(
        "$timescale 1 ns $end\n$scope module circuit $end\n",
        &mut text,
    )?;
    put_declarations(circuit, &mut text)?;
    put_between(from, &mut text)?;
    put_states(states.as_slice(), &mut text)?;
    put("$end\n", &mut text)?;
    put_events(alloc, circuit, &mut states, from, time, log, &mut text)?;
    Ok(text)
}

/// States that the wave of a simulation which goes on from another one has exactly the changes that
/// the wave of the whole simulation has from there on.
pub fn law_of_waves()
    ensures { WaveOfPart }
{}

/// Returns the states with which a simulation begins.
fn first_states(
    alloc: Global,
    circuit: &Circuit,
    origin: Option<&Origin>,
) -> Result<Vec<Words>, AllocError>
    ensures { IfOk result (λ states. map (λ s. s.items) states.items
        ≡ first_states (netlist_of circuit.now.gates.items circuit.now.wires.items
        circuit.now.digest) (option_map (λ o. o.now) origin.entry)) }
{
    match origin {
        Some(origin) => words_of(alloc, origin.states.as_slice()),
        None => start_states(alloc, circuit),
    }
}

/// Returns the words of these states.
fn words_of(alloc: Global, states: &[State]) -> Result<Vec<Words>, AllocError>
    ensures { IfOk result (λ words. map (λ s. s.items) words.items ≡ states.now) }
{
    let mut words = Vec::with_capacity(alloc, states.len())?;
    for state in states {
        words.push(Words::from_slice(alloc, state.as_slice())?)?;
    }
    Ok(words)
}

/// Returns the states in which the gates start.
fn start_states(alloc: Global, circuit: &Circuit) -> Result<Vec<Words>, AllocError>
    ensures { IfOk result (λ states. map (λ s. s.items) states.items
        ≡ map (circuit_meaning (netlist_of circuit.now.gates.items circuit.now.wires.items
        circuit.now.digest)).start_state (below (length circuit.now.gates.items))) }
{
    let mut states = Vec::new(alloc);
    for lp in 0..circuit.lps() {
        let (state, _sends) = circuit.start(alloc, lp);
        states.push(state)?;
    }
    Ok(states)
}

/// Appends a text.
fn put(more: &str, text: &mut String) -> Result<(), AllocError>
    ensures { OnOk result (string_bytes text.new ≡ string_bytes text.old ++ more.now) }
{
    text.push_str(more)
}

/// Appends a number in decimal digits.
fn put_number(number: u64, text: &mut String) -> Result<(), AllocError>
    ensures { OnOk result (string_bytes text.new ≡ string_bytes text.old ++ decimal number) }
{
    let mut digits = Buffer::new();
    text.push_str(digits.format(number))
}

/// Declares the signals of all gates.
fn put_declarations(circuit: &Circuit, text: &mut String) -> Result<(), AllocError>
    ensures { OnOk result (string_bytes text.new ≡ string_bytes text.old
        ++ declared_gates (map string_bytes circuit.now.names.items)
        (length circuit.now.gates.items)) }
{
    for lp in 0..circuit.gates().len() {
        put_declaration(lp, circuit.names(), text)?;
    }
    Ok(())
}

/// Declares the signals of a gate.
fn put_declaration(lp: usize, names: &[String], text: &mut String) -> Result<(), AllocError>
    ensures { OnOk result (string_bytes text.new ≡ string_bytes text.old
        ++ declared_gate (map string_bytes names.now) lp) }
{
    begin_gate(lp, names, text)?;
    put_signals(lp, text)?;
    put("$upscope $end\n", text)
}

/// Begins the scope of a gate.
fn begin_gate(lp: usize, names: &[String], text: &mut String) -> Result<(), AllocError>
    ensures { OnOk result (string_bytes text.new ≡ string_bytes text.old
        ++ begun_gate (map string_bytes names.now) lp) }
{
    put("$scope module ", text)?;
    put_name(lp, names, text)?;
    put(" $end\n", text)
}

/// Declares the signals of a gate in its scope.
fn put_signals(lp: usize, text: &mut String) -> Result<(), AllocError>
    ensures { OnOk result (string_bytes text.new ≡ string_bytes text.old ++ declared_signals lp) }
{
    put_signal("o", "output", lp, text)?;
    put_signal("p", "pin0", lp, text)?;
    put_signal("q", "pin1", lp, text)?;
    put_signal("r", "pin2", lp, text)
}

/// Appends the name of a gate.
fn put_name(lp: usize, names: &[String], text: &mut String) -> Result<(), AllocError>
    ensures { OnOk result (string_bytes text.new ≡ string_bytes text.old
        ++ name_text (map string_bytes names.now) lp) }
{
    let name = match names.get(lp) {
        Some(name) => name.as_str(),
        None => "",
    };
    if name.is_empty() {
        put("gate", text)?;
        return put_number(lp as u64, text);
    }
    if !is_simple(name.as_bytes()) {
        put("\\", text)?;
    }
    put(name, text)
}

/// Returns whether a name is a simple identifier.
fn is_simple(name: &[u8]) -> bool
    ensures { result ≡ is_simple name.now }
{
    is_letter(name.first().copied().unwrap_or(0)) && are_words(name)
}

/// Returns whether all bytes may be in an identifier.
fn are_words(name: &[u8]) -> bool
    ensures { result ≡ list_all is_word name.now }
{
    for byte in name {
        if !is_word(*byte) {
            return false;
        }
    }
    true
}

/// Returns whether a byte is a letter or an underscore.
fn is_letter(byte: u8) -> bool
    ensures { result ≡ is_letter byte }
{
    byte >= 65 && byte <= 90 || byte >= 97 && byte <= 122 || byte == 95
}

/// Returns whether a byte is a letter, an underscore, a digit or a dollar sign.
fn is_word(byte: u8) -> bool
    ensures { result ≡ is_word byte }
{
    is_letter(byte) || byte >= 48 && byte <= 57 || byte == 36
}

/// Declares a signal of a gate.
fn put_signal(letter: &str, name: &str, lp: usize, text: &mut String) -> Result<(), AllocError>
    ensures { OnOk result (string_bytes text.new ≡ string_bytes text.old
        ++ declared_signal letter.now name.now lp) }
{
    put("$var wire 1 ", text)?;
    put(letter, text)?;
    put_number(lp as u64, text)?;
    put_named(name, text)
}

/// Appends a name, and the end of its declaration.
fn put_named(name: &str, text: &mut String) -> Result<(), AllocError>
    ensures { OnOk result (string_bytes text.new ≡ string_bytes text.old ++ named name.now) }
{
    put(" ", text)?;
    put(name, text)?;
    put(" $end\n", text)
}

/// Appends the end of the declarations, and the time of the first values.
fn put_between(from: u64, text: &mut String) -> Result<(), AllocError>
    ensures { OnOk result (string_bytes text.new ≡ string_bytes text.old ++ between_text from) }
{
    put("$upscope $end\n$enddefinitions $end\n#", text)?;
    put_number(from, text)?;
    put("\n$dumpvars\n", text)
}

/// Appends the values of all signals.
fn put_states(states: &[Words], text: &mut String) -> Result<(), AllocError>
    requires { length states.now ≤ 2 ^ 16 }
    ensures { OnOk result (string_bytes text.new ≡ string_bytes text.old
        ++ states_text 0 (map (λ s. s.items) states.now)) }
{
    for lp in 0..states.len() as u32 {
        put_state(lp, states[lp as usize].as_slice(), text)?;
    }
    Ok(())
}

/// Appends the values of all signals of a gate.
fn put_state(lp: u32, state: &[u64], text: &mut String) -> Result<(), AllocError>
    ensures { OnOk result (string_bytes text.new ≡ string_bytes text.old
        ++ state_text lp state.now) }
{
    put_value("o", lp, word(state, 3), text)?;
    put_value("p", lp, word(state, 0), text)?;
    put_value("q", lp, word(state, 1), text)?;
    put_value("r", lp, word(state, 2), text)
}

/// Returns a word of a state; a missing one counts as 0.
fn word(state: &[u64], place: usize) -> u64
    ensures { result ≡ slice_index state.now place }
{
    state.get(place).copied().unwrap_or(0)
}

/// Appends the value of a signal.
fn put_value(letter: &str, lp: u32, value: u64, text: &mut String) -> Result<(), AllocError>
    ensures { OnOk result (string_bytes text.new ≡ string_bytes text.old
        ++ value_text letter.now lp value) }
{
    put_number(value, text)?;
    put(letter, text)?;
    put_number(u64::from(lp), text)?;
    put("\n", text)
}

/// Appends the changes at each event, and the time of the end.
fn put_events(
    alloc: Global,
    circuit: &Circuit,
    states: &mut Vec<Words>,
    from: u64,
    end: u64,
    log: &[Message],
    text: &mut String,
) -> Result<(), AllocError>
    requires each { length states.old.items ≡ length circuit.now.gates.items }
    requires few { Every (λ state. length state ≤ 16) (map (λ s. s.items) states.old.items) }
    ensures { OnOk result (string_bytes text.new ≡ string_bytes text.old
        ++ events_text (netlist_of circuit.now.gates.items circuit.now.wires.items
        circuit.now.digest) (map (λ s. s.items) states.old.items) from end log.now) }
{
    let mut last = from;
    for event in log {
        put_time(last, event.time(), text)?;
        last = event.time();
        put_event(alloc, circuit, states, event, text)?;
    }
    put_time(last, end, text)
}

/// Appends a time that differs from the last one.
fn put_time(last: u64, time: u64, text: &mut String) -> Result<(), AllocError>
    ensures { OnOk result (string_bytes text.new ≡ string_bytes text.old ++ time_text last time) }
{
    if last == time {
        return Ok(());
    }
    put("#", text)?;
    put_number(time, text)?;
    put("\n", text)
}

/// Appends the changes at an event, and updates the state of its receiver.
fn put_event(
    alloc: Global,
    circuit: &Circuit,
    states: &mut Vec<Words>,
    event: &Message,
    text: &mut String,
) -> Result<(), AllocError>
    requires each { length states.old.items ≡ length circuit.now.gates.items }
    requires few { Every (λ state. length state ≤ 16) (map (λ s. s.items) states.old.items) }
    ensures text { OnOk result (string_bytes text.new ≡ string_bytes text.old
        ++ event_text (netlist_of circuit.now.gates.items circuit.now.wires.items
        circuit.now.digest) (map (λ s. s.items) states.old.items) event.now) }
    ensures states { OnOk result (map (λ s. s.items) states.new.items
        ≡ states_after (netlist_of circuit.now.gates.items circuit.now.wires.items
        circuit.now.digest) (map (λ s. s.items) states.old.items) event.now) }
{
    let lp = event.to();
    let place = lp as usize;
    if place >= states.len() {
        return Ok(());
    }
    let was = &states[place];
    let (now, _sends) = circuit.handle(alloc, lp, was, event);
    put_changes(lp, was.as_slice(), now.as_slice(), text)?;
    states[place] = now;
    Ok(())
}

/// Appends the signals of a gate that change.
fn put_changes(lp: u32, was: &[u64], now: &[u64], text: &mut String) -> Result<(), AllocError>
    ensures { OnOk result (string_bytes text.new ≡ string_bytes text.old
        ++ changes_text lp was.now now.now) }
{
    put_change("o", lp, word(was, 3), word(now, 3), text)?;
    put_change("p", lp, word(was, 0), word(now, 0), text)?;
    put_change("q", lp, word(was, 1), word(now, 1), text)?;
    put_change("r", lp, word(was, 2), word(now, 2), text)
}

/// Appends the value of a signal if it changes.
fn put_change(
    letter: &str,
    lp: u32,
    was: u64,
    value: u64,
    text: &mut String,
) -> Result<(), AllocError>
    ensures { OnOk result (string_bytes text.new ≡ string_bytes text.old
        ++ change_text letter.now lp was value) }
{
    if was == value {
        return Ok(());
    }
    put_value(letter, lp, value, text)
}
