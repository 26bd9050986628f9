// A circuit of logic gates as a model.

ghost use Rattle.std.specs.Prelude.{◌≡◌, ℕ, IsTrue, ◌<◌, ◌≤◌, ◌*◌, ◌+◌, ◌^◌, ◌↔◌, length};
ghost use Rattle.std.specs.Prelude.{IfSome, IsNone, slice_index, map, take, drop};
ghost use Rattle.circuit.specs.Circuit.{IsGate, IsNetlist, IsWire, along, changed, gate_at};
ghost use Rattle.circuit.specs.Circuit.{gate_in};
ghost use Rattle.circuit.specs.Circuit.{circuit_meaning, netlist_of, output_of, pin_after};
ghost use Rattle.circuit.specs.Circuit.{is_gate, is_wire, wire_at, wires_of};
ghost use Rattle.circuit.specs.CircuitLaws.{circuit_lawful};

use crate::parts::{Gate, Wire};
use eventkey::Message;
use model::{Model as Simulated, Origin, Outgoing, Sends, Words};
use smallvec::SmallVec;
use std::alloc::Global;

/// A circuit of logic gates, each of which is a process. The state of a gate is its three pins, its
/// output, and how often the output changed.
///
/// A message gives the value `b mod 2` to pin `a`. When the output of a gate changes, it is sent
/// along each of its wires.
#[derive(Drop)]
pub struct Circuit {
    gates: Vec<Gate>,
    wires: Vec<Wire>,
    names: Vec<String>,
    digest: u64,
    ghost good: { IsNetlist (netlist_of gates.items wires.items digest) },
}

impl Circuit {
    /// Returns the circuit of these gates and wires, or `None` if they are not 1 to 1,024 gates,
    /// each with at most 8 wires and a delay of at least 1, and wires only to existing gates. A
    /// wave uses the names; a gate whose name is empty or missing has none.
    pub fn new(gates: Vec<Gate>, wires: Vec<Wire>, names: Vec<String>) -> Option<Circuit>
        ensures some { IfSome result (λ c. (c.gates.items ≡ gates.items)
            × (c.wires.items ≡ wires.items) × (c.names.items ≡ names.items)) }
        ensures none { IsNone result → (digest : ℕ) →
            ¬ IsNetlist (netlist_of gates.items wires.items digest) }
    {
        let count = gates.len();
        if count < 1 || count > 1024 {
            return None;
        }
        if !are_gates(gates.as_slice(), wires.len()) || !are_wires(wires.as_slice(), count) {
            return None;
        }
        let digest = digest(gates.as_slice(), wires.as_slice());
        Some(Circuit {
            gates,
            wires,
            names,
            digest,
        })
    }

    pub(crate) fn gates(&self) -> &[Gate]
        ensures { result.now ≡ self.now.gates.items }
    {
        self.gates.as_slice()
    }

    pub(crate) fn wires(&self) -> &[Wire]
        ensures { result.now ≡ self.now.wires.items }
    {
        self.wires.as_slice()
    }

    pub(crate) fn names(&self) -> &[String]
        ensures { result.now ≡ self.now.names.items }
    {
        self.names.as_slice()
    }

    /// Returns the output of gate `lp` for three bits.
    fn output(&self, lp: u32, p: u64, q: u64, r: u64) -> u64
        requires there { lp < length self.now.gates.items }
        requires p { p < 2 }
        requires q { q < 2 }
        requires r { r < 2 }
        ensures { result ≡ output_of (gate_at (netlist_of self.now.gates.items self.now.wires.items
            self.now.digest) lp) p q r }
    {
        u64::from((self.gates[lp as usize].table >> (p + 2 * q + 4 * r)) % 2)
    }

    /// Returns the wires of gate `lp`.
    fn wires_of(&self, lp: u32) -> &[Wire]
        requires { lp < length self.now.gates.items }
        ensures wires { result.now ≡ wires_of (netlist_of self.now.gates.items self.now.wires.items
            self.now.digest) lp }
        ensures few { length result.now ≤ 8 }
    {
        let gate = self.gates[lp as usize];
        let first = gate.first as usize;
        &self.wires[first..first + gate.count as usize]
    }

    /// Returns what gate `lp` sends if its output was `was` and is `value`: nothing if these are
    /// equal.
    fn sends(&self, alloc: Global, lp: u32, was: u64, value: u64) -> Sends
        requires { lp < length self.now.gates.items }
        ensures { result.items ≡ changed (netlist_of self.now.gates.items self.now.wires.items
            self.now.digest) lp was value }
    {
        let mut sends = SmallVec::new(alloc);
        if was != value {
            let delay = self.gates[lp as usize].delay;
            'sends: for wire in self.wires_of(lp) {
                sends.push_reserved(Outgoing {
                    to: wire.to,
                    delay,
                    a: u64::from(wire.pin),
                    b: value,
                    c: 0,
                    d: 0,
                });
            }
        }
        sends
    }
}

/// Returns whether a gate has a delay, and its wires, at most 8, are in a list of `wires` wires.
pub(crate) fn is_gate(gate: Gate, wires: usize) -> bool
    ensures holds { IsTrue result ↔ IsGate wires gate }
    ensures test { result ≡ is_gate wires gate }
{
    gate.delay >= 1 && gate.count <= 8 && gate.first as usize + gate.count as usize <= wires
}

/// Returns whether `is_gate` holds of all gates.
fn are_gates(gates: &[Gate], wires: usize) -> bool
    ensures { IsTrue result ↔
        ((i : ℕ) → i < length gates.now → IsGate wires (gate_in gates.now i)) }
{
    for i in 0..gates.len() {
        if !is_gate(gates[i], wires) {
            return false;
        }
    }
    true
}

/// Returns whether a wire leads to one of `gates` gates.
pub(crate) fn is_wire(wire: Wire, gates: usize) -> bool
    ensures holds { IsTrue result ↔ IsWire gates wire }
    ensures test { result ≡ is_wire gates wire }
{
    (wire.to as usize) < gates
}

/// Returns whether `is_wire` holds of all wires.
fn are_wires(wires: &[Wire], gates: usize) -> bool
    ensures { IsTrue result ↔
        ((i : ℕ) → i < length wires.now → IsWire gates (wire_at wires.now i)) }
{
    for i in 0..wires.len() {
        if !is_wire(wires[i], gates) {
            return false;
        }
    }
    true
}

/// Returns a hash of a netlist, which is the second word of the model's identity.
fn digest(gates: &[Gate], wires: &[Wire]) -> u64 {
    let mut digest = gates.len() as u64;
    for gate in gates {
        for number in [gate.table, gate.delay, gate.first, gate.count] {
            digest = mixed(digest, number);
        }
    }
    for wire in wires {
        digest = mixed(mixed(digest, wire.to), wire.pin);
    }
    digest
}

fn mixed(digest: u64, number: u32) -> u64 {
    (digest ^ u64::from(number)).wrapping_mul(0x100_0000_01b3)
}

/// Returns the value at pin `k` after a message.
fn pin_after(state: &[u64], message: &Message, k: usize) -> u64
    ensures value { result ≡ pin_after state.now message.now k }
    ensures bit { result < 2 }
{
    let value = if message.a() == k as u64 {
        message.b()
    } else {
        state.get(k).copied().unwrap_or(0)
    };
    value % 2
}

impl Simulated for Circuit {
    ghost meaning = { λ c. circuit_meaning (netlist_of c.gates.items c.wires.items c.digest) };

    ghost lawful = { λ c. circuit_lawful (netlist_of c.gates.items c.wires.items c.digest) c.good };

    fn lps(&self) -> u32 {
        self.gates.len() as u32
    }

    fn identity(&self, alloc: Global) -> SmallVec<u64, 8> {
        let mut words = SmallVec::new(alloc);
        words.push_reserved(100);
        words.push_reserved(self.digest);
        words
    }

    fn origin(&self) -> Option<&Origin> {
        None
    }

    fn start(&self, alloc: Global, lp: u32) -> (Words, Sends) {
        let value = self.output(lp, 0, 0, 0);
        let mut words = SmallVec::new(alloc);
        words.push_reserved(0);
        words.push_reserved(0);
        words.push_reserved(0);
        words.push_reserved(value);
        words.push_reserved(0);
        (words, self.sends(alloc, lp, 0, value))
    }

    fn handle(&self, alloc: Global, lp: u32, state: &Words, message: &Message) -> (Words, Sends) {
        let state = state.as_slice();
        let p = pin_after(state, message, 0);
        let q = pin_after(state, message, 1);
        let r = pin_after(state, message, 2);
        let was = state.get(3).copied().unwrap_or(0);
        let toggles = state.get(4).copied().unwrap_or(0);
        let value = self.output(lp, p, q, r);
        let mut words = SmallVec::new(alloc);
        words.push_reserved(p);
        words.push_reserved(q);
        words.push_reserved(r);
        words.push_reserved(value);
        words.push_reserved(if was == value {
            toggles
        } else {
            toggles.saturating_add(1)
        });
        (words, self.sends(alloc, lp, was, value))
    }
}
