// Laws of the sequential simulation, each the contract of a function that does nothing.

ghost use Rattle.model.specs.Origins.{ContinuationBegins, ContinuationIsAll, ContinuationIsLawful};
ghost use Rattle.model.specs.Origins.{ContinuationIsPart, ContinuationsJoin, EventsAreCounted};
ghost use Rattle.model.specs.Sequential.{EachWorldIsReached, OpeningIsUpto, RunsAreUpto};
ghost use Rattle.model.specs.Sequential.{UptoGoesOn, UptoIsOne, UptoIsReachedFrom};

/// States that the sequential simulation up to a time is one world, that its log is the beginning
/// of the log of any later one, and that steps lead from it to any later one.
pub fn law_of_sequential_simulation()
    ensures one { UptoIsOne }
    ensures goes_on { UptoGoesOn }
    ensures reached { UptoIsReachedFrom }
{}

/// States that the opening world is the sequential simulation up to 0, and that a run from the
/// simulation up to a time leads to the simulation up to its bound.
pub fn law_of_runs()
    ensures opening { OpeningIsUpto }
    ensures runs { RunsAreUpto }
{}

/// States what holds of each world that a simulation reaches: it is in order, and so is its log.
pub fn law_of_worlds()
    ensures { EachWorldIsReached }
{}

/// States that a simulation which goes on from a world of another one is that other one from that
/// world on, and how many events came before it.
pub fn law_of_continuations()
    ensures part { ContinuationIsPart }
    ensures all { ContinuationIsAll }
    ensures begins { ContinuationBegins }
    ensures lawful { ContinuationIsLawful }
    ensures join { ContinuationsJoin }
    ensures counted { EventsAreCounted }
{}
