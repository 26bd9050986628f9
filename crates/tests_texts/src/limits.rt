// Rules at the limits and above them.

use crate::spelled::rule;
use rules::{Limit, Rules, RulesFault, RulesParts};
use std::alloc::Global;
use std::test::Fail;

/// Makes a model with one state word and these rules, and returns its fault.
fn fault_of(alloc: Global, start: &str, handle: &str) -> Result<Option<RulesFault>, Fail> {
    let start = rule(alloc, start)?;
    let handle = rule(alloc, handle)?;
    let made = Rules::new(RulesParts {
        lps: 1,
        digest: [0; 4],
        width: 1,
        key: Some(0),
        seed: 0,
        tables: Vec::new(alloc),
        start,
        handle,
    });
    Ok(made.err())
}

const NINE_SENDS: &str = "repeat k 9 { send to self after 1 }";

/// Whether a limit is at this number of turns of a `repeat`.
fn is_at(alloc: Global, limit: Limit, most: u32, body: &str) -> Result<bool, Fail> {
    let within = format!(in alloc; "repeat k {most} {body}")?;
    let above = format!(in alloc; "repeat k {} {body}", most.saturating_add(1))?;
    let (within, above) = (within.as_str(), above.as_str());
    Ok(
        fault_of(alloc, within, "")?.is_none()
            && fault_of(alloc, above, NINE_SENDS)? == Some(RulesFault::Start(limit))
            && fault_of(alloc, within, above)? == Some(RulesFault::Handle(limit)),
    )
}

#[test]
fn a_rule_above_a_limit_is_refused(rt: HostRuntime) -> Result<(), Fail> {
    let alloc = rt.alloc();
    assert!(rt; is_at(alloc, Limit::Sends, 8, "{ send to self after 1 }")?);
    assert!(rt; is_at(alloc, Limit::Draws, 14, "{ let x = draw(1) }")?);
    // A repeat of nothing takes one step, and one for each turn.
    assert!(rt; is_at(alloc, Limit::Steps, 65_535, "{ }")?);
    Ok(())
}

#[test]
fn a_fault_names_the_rule_and_the_limit(rt: HostRuntime) -> Result<(), Fail> {
    let faults = format!(in rt.alloc();
        "{}, {}, {}",
        RulesFault::Start(Limit::Sends),
        RulesFault::Handle(Limit::Draws),
        RulesFault::Handle(Limit::Steps)
    )?;
    assert_eq!(rt;
        faults.as_str(),
        "start: more than 8 sends on some way through it, \
         handle: more than 14 draws on some way through it, \
         handle: more than 65536 steps on some way through it"
    );
    Ok(())
}
