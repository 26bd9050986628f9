// Laws of a running system as a pure machine: system states, and every list of moves.
//
// Each function has an empty body, and its contract is a law of the definitions that the contracts
// of `queues`, `process`, `node` and this crate cite, so a law here is a law of that code.

ghost use Rattle.gvt.specs.Laws.{CommitIsByReports, CommitIsSequential};
ghost use Rattle.gvt.specs.Laws.{CommitsLogTheNextEvents, FirstOpens, FrontsOpen};
ghost use Rattle.gvt.specs.Laws.{LedgersAllowPosts, LedgersFollowSystems, LedgerFloorIsGvt};
ghost use Rattle.gvt.specs.Laws.{MovesAnswer, MovesAreMadeOrRefused, MovesAreSound};
ghost use Rattle.gvt.specs.Laws.{MovesLeaveNodes, MovesMadeAreSound, MovesMadeJoin};
ghost use Rattle.gvt.specs.Laws.{MovesMadePart, OpenedNodes, OpeningIsSound};
ghost use Rattle.gvt.specs.Laws.{ParcelsAreAccepted, RepliesNameWhatIsThere};
ghost use Rattle.gvt.specs.Laws.{RunsAreOneSimulation, RunsAreSound};
ghost use Rattle.gvt.specs.Laws.{SystemsMayCommit, TakesAreAnswers};
ghost use Rattle.gvt.specs.Judged.{JudgedCommitIsSequential, JudgesRefuseNoTruth};
ghost use Rattle.gvt.specs.Readers.{OptimisticIsSequential, SchedulesAgree};

/// States that optimistic equals sequential, over every schedule. For every lawful model, every
/// number of nodes and every list of moves of a system that opens with the sequential simulation up
/// to some time, the front is the sequential simulation up to its own time, its log only grows, and
/// global virtual time never falls. There is one history, whatever the numbers of nodes and the
/// moves.
pub fn optimistic_equals_sequential()
    ensures sequential { OptimisticIsSequential }
    ensures agree { SchedulesAgree }
{}

/// States the laws of openings. A system that opens with a front that is the sequential simulation
/// up to its time has a sound system state. The world before any step opens a system, and so does
/// the front of any system, with any number of nodes.
pub fn law_of_openings()
    ensures sound { OpeningIsSound }
    ensures first { FirstOpens }
    ensures later { FrontsOpen }
{}

/// States the laws of one move of a running system: it keeps the system state sound, is made
/// exactly if it is not refused, and its answer says what it did.
pub fn law_of_moves()
    ensures sound { MovesAreSound }
    ensures made { MovesAreMadeOrRefused }
    ensures answers { MovesAnswer }
{}

/// States the laws of lists of moves of an opened system. Any list keeps the system state sound,
/// whether refused moves change nothing or none is refused, and any runs one after another are one
/// sequential simulation.
pub fn law_of_runs()
    ensures sound { RunsAreSound }
    ensures join { MovesMadeJoin }
    ensures part { MovesMadePart }
    ensures made { MovesMadeAreSound }
    ensures one { RunsAreOneSimulation }
{}

/// States the laws of commits. Take a system state that is consistent with the model and balanced,
/// and a time that is above neither global virtual time nor any node's floor. A commit at that time
/// makes the front the sequential simulation up to it, and leaves the system state consistent and
/// balanced. Every system state of a system may commit so. The log grows by exactly the reported
/// messages below that time, in message order, and the reports alone determine the front.
pub fn law_of_commits()
    ensures may { SystemsMayCommit }
    ensures sequential { CommitIsSequential }
    ensures reported { CommitsLogTheNextEvents }
    ensures by_reports { CommitIsByReports }
{}

/// States that a node accepts every parcel posted to it, and that its reply names only processes
/// that exist, and reports only handlings of its own.
pub fn law_of_parcels()
    ensures accepted { ParcelsAreAccepted }
    ensures there { RepliesNameWhatIsThere }
{}

/// States that each node accepts its load at the opening and is then that node of the opened system
/// state; that its reply to a parcel is the one from which the system state after its take is made;
/// and that no other move changes the node.
pub fn law_of_nodes()
    ensures opened { OpenedNodes }
    ensures answers { TakesAreAnswers }
    ensures left { MovesLeaveNodes }
{}

/// States that the ledger's floor is global virtual time, that its calls make the ledger of the
/// system state, move by move, and which posts it allows.
pub fn law_of_ledgers()
    ensures gvt { LedgerFloorIsGvt }
    ensures follow { LedgersFollowSystems }
    ensures allow { LedgersAllowPosts }
{}

/// States the law of commits that trust no node: reports that are those of a front make it the
/// sequential simulation up to the time of the commit, whatever the nodes are.
pub fn law_of_judged_commits()
    ensures sequential { JudgedCommitIsSequential }
    ensures truth { JudgesRefuseNoTruth }
{}
