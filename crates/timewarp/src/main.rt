//! `timewarp`: simulates logical processes that send one another messages stamped with virtual
//! times.
#![tactic(auto)]

use program::About;
use rule_files::{FileModel, RULES_KEYS};
use std::process::ExitCode;
use texts::ANY_MODEL_KEYS;

fn main(rt: HostRuntime) -> ExitCode {
    let joined = format!(in rt.alloc(); "{ANY_MODEL_KEYS}\n\n{RULES_KEYS}");
    let keys = match &joined {
        Ok(keys) => keys.as_str(),
        Err(_) => ANY_MODEL_KEYS,
    };
    let about = About {
        name: "timewarp",
        example: "examples/ring.toml",
        keys,
    };
    ExitCode::from(program::start::<FileModel, _, _>(&rt, about, rt.stderr()))
}
