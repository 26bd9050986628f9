//! `circuits`: simulates circuits of logic gates with delays, where each gate is a logical process,
//! and prints their waves.
#![tactic(auto)]

ghost use Rattle.std.specs.Prelude.{◌≤◌};

mod waves;

use circuit::{CIRCUIT_KEYS, Circuit};
use program::{About, words};
use std::process::ExitCode;
use waves::wave;

const ABOUT: About<'static> = About {
    name: "circuit_program",
    example: "crates/circuit_program/data/adder.toml",
    keys: CIRCUIT_KEYS,
};

fn main(rt: HostRuntime) -> ExitCode {
    match words(&rt) {
        Ok(words) if words.len() > 1 && words[1].as_str() == "wave" => {
            ExitCode::from(wave(&rt, &words.as_slice()[2..], &mut rt.stderr()))
        }
        _ => ExitCode::from(program::start::<Circuit, _, _>(&rt, ABOUT, rt.stderr())),
    }
}
