// Circuits from model files.

ghost use Rattle.std.specs.Prelude.{◌≡◌, ◌≢◌, ◌++◌, ◌≤◌, ◌^◌, ℕ, [], codes, length, map, IfOk};
ghost use Rattle.std.specs.Prelude.{OnOk};
ghost use Rattle.std.specs.Prelude.{Err, option_and_then, option_map, string_bytes};
ghost use Rattle.std.specs.List.{list_all};
ghost use Rattle.circuit.specs.CircuitFile.{all_of, circuit_text, gate_of, is_name, is_printable};
ghost use Rattle.circuit.specs.CircuitFile.{list_at, name_in, name_of, wire_of};
ghost use Rattle.circuit.specs.CircuitFile.{IsCircuitTable, circuit_wrong, fits_gate, fits_wire};
ghost use Rattle.circuit.specs.Circuit.{is_gate, is_wire};
ghost use Rattle.circuit.specs.CircuitFile.{gates_wrong, items_at, items_wrong};
ghost use Rattle.circuit.specs.CircuitFile.{netlist_wrong, parts_wrong, unfit, wires_wrong};
ghost use Rattle.toml.specs.Data.{as_array, as_table, get_member};
ghost use Rattle.toml.specs.View.{array_view, items_view, table_view, view};

use crate::circuit::{Circuit, is_gate, is_wire};
use crate::parts::{Gate, Wire};
use eventkey::MOST_END;
use std::alloc::{AllocError, Global};
use texts::{Described, Findings, Found, Mistake, ModelFault, found_in, number_at, only};
use toml::{Table, Value};

/// What a program's help says of the keys of a circuit's model file.
pub const CIRCUIT_KEYS: &str = "\
A circuit has these keys, each gate being a process:
  end         ticks at which the run ends, 1 to 1099511627776
  gates       1 to 1024 tables { table = T, delay = D, first = F, count = C }: the output for each
              of the eight inputs, the delay in ticks, and which of the wires are the gate's; a
              gate may have a name too, name = \"N\", of printable characters without blanks
  wires       tables { to = G, pin = P }: the gate to which a wire leads, and its pin, 0 to 2";

impl Described for Circuit {
    ghost says = { IsCircuitTable };

    ghost shows = { circuit_text };

    ghost wrong = { circuit_wrong };

    fn describe(alloc: Global, table: &Table) -> Result<(Circuit, u64), ModelFault> {
        circuit_of(alloc, table)
    }

    fn mistakes(alloc: Global, table: &Table) -> Result<Findings, AllocError> {
        match circuit_of(alloc, table) {
            Ok(_file) => Ok(Findings::new(alloc)),
            Err(ModelFault::BadModel(_mistake)) => mistakes_of(alloc, table),
            Err(ModelFault::NoMemory) => Err(AllocError),
        }
    }

    fn values(&self, alloc: Global, end: u64) -> Result<String, AllocError> {
        let gates = self.gates().len();
        let wires = self.wires().len();
        format!(in alloc; "end: {end}\ngates: {gates}\nwires: {wires}\n")
    }
}

/// Returns the circuit and the end that a table describes.
fn circuit_of(alloc: Global, table: &Table) -> Result<(Circuit, u64), ModelFault>
    ensures ok { IfOk result (λ file. IsCircuitTable (table_view table.now) file.0 file.1) }
    ensures bad { (mistake : Mistake) → result ≡ Err (ModelFault.BadModel mistake) →
        (model : Circuit) (end : ℕ) → ¬ IsCircuitTable (table_view table.now) model end }
    ensures wrong { (mistake : Mistake) → result ≡ Err (ModelFault.BadModel mistake) →
        circuit_wrong (table_view table.now) ≢ [] }
    ensures some { IfOk result (λ file. 1 ≤ file.1) }
    ensures end { IfOk result (λ file. file.1 ≤ 2 ^ 40) }
{
    let end = match number_at(table, "end", 1, MOST_END) {
        Ok(end) => end,
        Err(mistake) => return Err(ModelFault::BadModel(mistake)),
    };
    let gates = match gates_at(alloc, table) {
        Ok(Some(gates)) => gates,
        Ok(None) => return Err(ModelFault::BadModel(NO_GATES)),
        Err(_) => return Err(ModelFault::NoMemory),
    };
    let wires = match wires_at(alloc, table) {
        Ok(Some(wires)) => wires,
        Ok(None) => return Err(ModelFault::BadModel(NO_WIRES)),
        Err(_) => return Err(ModelFault::NoMemory),
    };
    let names = match names_at(alloc, table) {
        Ok(Some(names)) => names,
        Ok(None) => return Err(ModelFault::BadModel(NO_NAMES)),
        Err(_) => return Err(ModelFault::NoMemory),
    };
    if let Err(mistake) = only(table, &KEYS) {
        return Err(ModelFault::BadModel(mistake));
    }
    match Circuit::new(gates, wires, names) {
        Some(circuit) => Ok((circuit, end)),
        None => Err(ModelFault::BadModel(NO_CIRCUIT)),
    }
}

const KEYS: [&str; 3] = ["end", "gates", "wires"];

const NO_GATES: Mistake = Mistake::Not {
    key: "gates",
    expected: "a list of tables with table, delay, first and count",
};

const NO_WIRES: Mistake = Mistake::Not {
    key: "wires",
    expected: "a list of tables with to and pin",
};

const NO_NAMES: Mistake = Mistake::Not {
    key: "gates",
    expected: "a list of tables whose names are texts of printable characters without blanks",
};

const NO_CIRCUIT: Mistake = Mistake::Not {
    key: "gates",
    expected: "1 to 1024 gates with delays, each with at most 8 of the wires, which lead to gates",
};

/// Returns all mistakes of a table.
fn mistakes_of(alloc: Global, table: &Table) -> Result<Findings, AllocError>
    ensures { IfOk result (λ found. found ≡ circuit_wrong (table_view table.now)) }
{
    let mut found = Findings::new(alloc);
    found.number_at(alloc, table, "end", 1, MOST_END)?;
    look_at_gates(alloc, table, &mut found)?;
    look_at_wires(alloc, table, &mut found)?;
    look_at_parts(alloc, table, &mut found)?;
    found.others(alloc, table, &KEYS)?;
    Ok(found)
}

const GATES: &str = "a list of tables with table, delay, first and count";

const GATE: &str = "a table with table, delay, first and count, and perhaps a name without blanks";

const WIRES: &str = "a list of tables with to and pin";

const WIRE: &str = "a table with to and pin";

/// Checks the list of gates.
fn look_at_gates(alloc: Global, table: &Table, found: &mut Findings) -> Result<(), AllocError>
    ensures { OnOk result (found.new ≡ found.old
        ++ gates_wrong (table_view table.now) (items_at (codes "gates") (table_view table.now))) }
{
    match array_at(table, "gates") {
        Some(items) => look_at_gate_items(alloc, items.as_slice(), found),
        None => found.words_at(alloc, table, "gates", GATES, false),
    }
}

/// Checks each item of a list of gates.
fn look_at_gate_items(
    alloc: Global,
    items: &[Value],
    found: &mut Findings,
) -> Result<(), AllocError>
    ensures { OnOk result (found.new ≡ found.old ++ items_wrong fits_gate (codes "gates")
        (codes "a table with table, delay, first and count, and perhaps a name without blanks")
        0 (items_view items.now)) }
{
    'items: for (place, item) in items.iter().enumerate() {
        found.item_at(alloc, "gates", place, found_in(item), GATE, fits_gate(item))?;
    }
    Ok(())
}

/// Returns whether an item is the table of a gate, with or without a name.
fn fits_gate(item: &Value) -> bool
    ensures { result ≡ fits_gate (view item.now) }
{
    gate_in(item).is_some() && name_in(item).is_some()
}

/// Checks the list of wires.
fn look_at_wires(alloc: Global, table: &Table, found: &mut Findings) -> Result<(), AllocError>
    ensures { OnOk result (found.new ≡ found.old
        ++ wires_wrong (table_view table.now) (items_at (codes "wires") (table_view table.now))) }
{
    match array_at(table, "wires") {
        Some(items) => look_at_wire_items(alloc, items.as_slice(), found),
        None => found.words_at(alloc, table, "wires", WIRES, false),
    }
}

/// Checks each item of a list of wires.
fn look_at_wire_items(
    alloc: Global,
    items: &[Value],
    found: &mut Findings,
) -> Result<(), AllocError>
    ensures { OnOk result (found.new ≡ found.old ++ items_wrong fits_wire (codes "wires")
        (codes "a table with to and pin") 0 (items_view items.now)) }
{
    'items: for (place, item) in items.iter().enumerate() {
        found.item_at(alloc, "wires", place, found_in(item), WIRE, fits_wire(item))?;
    }
    Ok(())
}

/// Returns whether an item is the table of a wire.
fn fits_wire(item: &Value) -> bool
    ensures { result ≡ fits_wire (view item.now) }
{
    wire_in(item).is_some()
}

/// Checks whether the gates and the wires fit each other, if all of them can be read.
fn look_at_parts(alloc: Global, table: &Table, found: &mut Findings) -> Result<(), AllocError>
    ensures { OnOk result (found.new ≡ found.old
        ++ parts_wrong (list_at gate_of (codes "gates") (table_view table.now))
        (list_at wire_of (codes "wires") (table_view table.now)) (table_view table.now)) }
{
    let gates = gates_at(alloc, table)?;
    let wires = wires_at(alloc, table)?;
    match (gates, wires) {
        (Some(gates), Some(wires)) => {
            look_at_netlist(alloc, table, gates.as_slice(), wires.as_slice(), found)
        }
        _ => Ok(()),
    }
}

const COUNT: &str = "1 to 1024 gates";

const FITTING_GATE: &str = "a delay, and at most 8 of the listed wires";

const FITTING_WIRE: &str = "a wire to one of the listed gates";

/// Checks whether gates and wires fit each other.
fn look_at_netlist(
    alloc: Global,
    table: &Table,
    gates: &[Gate],
    wires: &[Wire],
    found: &mut Findings,
) -> Result<(), AllocError>
    ensures { OnOk result (found.new
        ≡ found.old ++ netlist_wrong gates.now wires.now (table_view table.now)) }
{
    let some = gates.len() >= 1 && gates.len() <= 1024;
    found.words_at(alloc, table, "gates", COUNT, some)?;
    look_at_fitting_gates(alloc, gates, wires.len(), found)?;
    look_at_fitting_wires(alloc, wires, gates.len(), found)
}

/// Checks whether gates fit a list of `wires` wires.
fn look_at_fitting_gates(
    alloc: Global,
    gates: &[Gate],
    wires: usize,
    found: &mut Findings,
) -> Result<(), AllocError>
    ensures { OnOk result (found.new ≡ found.old ++ unfit (is_gate wires) (codes "gates")
        (codes "a delay, and at most 8 of the listed wires") 0 gates.now) }
{
    'gates: for (place, gate) in gates.iter().enumerate() {
        found.item_at(
            alloc,
            "gates",
            place,
            Found::Table,
            FITTING_GATE,
            is_gate(*gate, wires),
        )?;
    }
    Ok(())
}

/// Checks whether wires fit a list of `gates` gates.
fn look_at_fitting_wires(
    alloc: Global,
    wires: &[Wire],
    gates: usize,
    found: &mut Findings,
) -> Result<(), AllocError>
    ensures { OnOk result (found.new ≡ found.old ++ unfit (is_wire gates) (codes "wires")
        (codes "a wire to one of the listed gates") 0 wires.now) }
{
    'wires: for (place, wire) in wires.iter().enumerate() {
        found.item_at(
            alloc,
            "wires",
            place,
            Found::Table,
            FITTING_WIRE,
            is_wire(*wire, gates),
        )?;
    }
    Ok(())
}

/// Reads the list of gates.
fn gates_at(alloc: Global, table: &Table) -> Result<Option<Vec<Gate>>, AllocError>
    ensures { IfOk result (λ found. option_map (λ v. v.items) found
        ≡ list_at gate_of (codes "gates") (table_view table.now)) }
{
    match array_at(table, "gates") {
        Some(items) => gates_of(alloc, items.as_slice()),
        None => Ok(None),
    }
}

/// Reads a gate from each item.
fn gates_of(alloc: Global, items: &[Value]) -> Result<Option<Vec<Gate>>, AllocError>
    ensures { IfOk result (λ found. option_map (λ v. v.items) found
        ≡ all_of (λ d. option_and_then gate_of (as_table d)) (items_view items.now)) }
{
    let mut gates = Vec::new(alloc);
    for item in items {
        match gate_in(item) {
            Some(gate) => gates.push(gate)?,
            None => return Ok(None),
        }
    }
    Ok(Some(gates))
}

/// Reads a gate from an item.
fn gate_in(item: &Value) -> Option<Gate>
    ensures { result ≡ option_and_then gate_of (as_table (view item.now)) }
{
    match item.as_table() {
        Some(table) => gate_of(table),
        None => None,
    }
}

/// Reads a gate from a table.
fn gate_of(table: &Table) -> Option<Gate>
    ensures { result ≡ gate_of (table_view table.now) }
{
    let Ok(outputs) = number_at(table, "table", 0, u64::from(u32::MAX)) else {
        return None;
    };
    let Ok(delay) = number_at(table, "delay", 0, u64::from(u32::MAX)) else {
        return None;
    };
    let Ok(first) = number_at(table, "first", 0, u64::from(u32::MAX)) else {
        return None;
    };
    let Ok(count) = number_at(table, "count", 0, u64::from(u32::MAX)) else {
        return None;
    };
    Some(Gate {
        table: outputs as u32,
        delay: delay as u32,
        first: first as u32,
        count: count as u32,
    })
}

/// Reads the names of the gates.
fn names_at(alloc: Global, table: &Table) -> Result<Option<Vec<String>>, AllocError>
    ensures { IfOk result (λ found. option_map (λ v. map string_bytes v.items) found
        ≡ list_at name_of (codes "gates") (table_view table.now)) }
{
    match array_at(table, "gates") {
        Some(items) => names_of(alloc, items.as_slice()),
        None => Ok(None),
    }
}

/// Reads a name from each item.
fn names_of(alloc: Global, items: &[Value]) -> Result<Option<Vec<String>>, AllocError>
    ensures { IfOk result (λ found. option_map (λ v. map string_bytes v.items) found
        ≡ all_of (λ d. option_and_then name_of (as_table d)) (items_view items.now)) }
{
    let mut names = Vec::new(alloc);
    for item in items {
        match name_in(item) {
            Some(name) => names.push(String::from_str(alloc, name)?)?,
            None => return Ok(None),
        }
    }
    Ok(Some(names))
}

/// Reads the name of a gate from an item.
fn name_in(item: &Value) -> Option<&str>
    ensures { option_map (λ s. s.now) result ≡ option_and_then name_of (as_table (view item.now)) }
{
    match item.as_table() {
        Some(table) => name_of(table),
        None => None,
    }
}

/// Reads the name of a gate from its table; it is empty if the table has none. Returns `None` if
/// the value is not a name.
fn name_of(table: &Table) -> Option<&str>
    ensures { option_map (λ s. s.now) result ≡ name_of (table_view table.now) }
{
    match table.get("name") {
        Some(value) => name_in_value(value),
        None => Some(""),
    }
}

/// Reads a name from a value.
fn name_in_value(value: &Value) -> Option<&str>
    ensures { option_map (λ s. s.now) result ≡ name_in (view value.now) }
{
    match value.as_str() {
        Some(name) if is_name(name.as_bytes()) => Some(name),
        _ => None,
    }
}

/// Returns whether a text is a name: printable ASCII characters, at least one, and no blanks.
fn is_name(text: &[u8]) -> bool
    ensures { result ≡ is_name text.now }
{
    !text.is_empty() && are_printable(text)
}

/// Returns whether all bytes are printable ASCII characters other than blanks.
fn are_printable(text: &[u8]) -> bool
    ensures { result ≡ list_all is_printable text.now }
{
    for byte in text {
        if !is_printable(*byte) {
            return false;
        }
    }
    true
}

/// Returns whether a byte is a printable ASCII character other than a blank.
fn is_printable(byte: u8) -> bool
    ensures { result ≡ is_printable byte }
{
    byte > 32 && byte < 127
}

/// Reads the list of wires.
fn wires_at(alloc: Global, table: &Table) -> Result<Option<Vec<Wire>>, AllocError>
    ensures { IfOk result (λ found. option_map (λ v. v.items) found
        ≡ list_at wire_of (codes "wires") (table_view table.now)) }
{
    match array_at(table, "wires") {
        Some(items) => wires_of(alloc, items.as_slice()),
        None => Ok(None),
    }
}

/// Reads a wire from each item.
fn wires_of(alloc: Global, items: &[Value]) -> Result<Option<Vec<Wire>>, AllocError>
    ensures { IfOk result (λ found. option_map (λ v. v.items) found
        ≡ all_of (λ d. option_and_then wire_of (as_table d)) (items_view items.now)) }
{
    let mut wires = Vec::new(alloc);
    for item in items {
        match wire_in(item) {
            Some(wire) => wires.push(wire)?,
            None => return Ok(None),
        }
    }
    Ok(Some(wires))
}

/// Reads a wire from an item.
fn wire_in(item: &Value) -> Option<Wire>
    ensures { result ≡ option_and_then wire_of (as_table (view item.now)) }
{
    match item.as_table() {
        Some(table) => wire_of(table),
        None => None,
    }
}

/// Reads a wire from a table.
fn wire_of(table: &Table) -> Option<Wire>
    ensures { result ≡ wire_of (table_view table.now) }
{
    let Ok(to) = number_at(table, "to", 0, u64::from(u32::MAX)) else {
        return None;
    };
    let Ok(pin) = number_at(table, "pin", 0, u64::from(u32::MAX)) else {
        return None;
    };
    Some(Wire {
        to: to as u32,
        pin: pin as u32,
    })
}

/// Returns the array at a key.
fn array_at<'a>(table: &'a Table, key: &str) -> Option<&'a Vec<Value>>
    ensures { option_map (λ v. array_view v.now) result
        ≡ option_and_then as_array (get_member key.now (table_view table.now)) }
{
    match table.get(key) {
        Some(value) => value.as_array(),
        None => None,
    }
}
