// The topics of `help`, and their texts.

ghost use Rattle.std.specs.Prelude.{◌≡◌, map};
ghost use Rattle.cli.specs.Topics.{asks_help, topic_named, topic_of};

use std::convert::AsStr;

/// A subject that `help` has a text about.
#[derive(Clone, Copy, Debug, PartialEq, Eq)]
pub enum Topic {
    /// Nodes, node programs, and what a run finds out about them.
    Nodes,
    /// Commits, checkpoints and seals.
    Commits,
    /// Runs that nobody watches.
    Unattended,
    /// Disks that go on from other disks.
    Segments,
    /// Damaged disks.
    Repair,
    /// What shows a run and its results.
    Looking,
    /// Exit statuses and faults.
    Statuses,
}

/// The names of all topics, as `help` takes them.
pub const TOPICS: &str = "nodes, commits, unattended, segments, repair, looking, statuses";

/// Whether the words ask for help: the first one is the program's own name, and the second is
/// `help`. Also says so where nothing has the name that follows.
pub fn asks_help<S: AsStr>(words: &[S]) -> bool
    ensures { result ≡ asks_help (map S.text words.now) }
{
    match words.get(1) {
        Some(word) => word.as_str() == "help",
        None => false,
    }
}

/// The topic that the words ask for: they are the program's own name, `help` and the topic's name.
pub fn topic_of<S: AsStr>(words: &[S]) -> Option<Topic>
    ensures { result ≡ topic_of (map S.text words.now) }
{
    match words.get(2) {
        Some(name) if words.len() == 3 && asks_help(words) => topic_named(name.as_str()),
        _ => None,
    }
}

/// The topic of this name.
fn topic_named(name: &str) -> Option<Topic>
    ensures { result ≡ topic_named name.now }
{
    match name {
        "nodes" => Some(Topic::Nodes),
        "commits" => Some(Topic::Commits),
        "unattended" => Some(Topic::Unattended),
        "segments" => Some(Topic::Segments),
        "repair" => Some(Topic::Repair),
        "looking" => Some(Topic::Looking),
        "statuses" => Some(Topic::Statuses),
        _ => None,
    }
}

impl Topic {
    /// What `help` prints about the topic: lines of at most 100 columns.
    pub fn text(self) -> &'static str {
        match self {
            Topic::Nodes => NODES,
            Topic::Commits => COMMITS,
            Topic::Unattended => UNATTENDED,
            Topic::Segments => SEGMENTS,
            Topic::Repair => REPAIR,
            Topic::Looking => LOOKING,
            Topic::Statuses => STATUSES,
        }
    }
}

const NODES: &str = "\
Nodes share the processes of a model. Each handles what it has, at most --batch messages at a turn,
and rolls back where a message comes late. What is committed is the same for every number of nodes.

Which way is fastest
  On one core, or where an event takes less than some microseconds, --plain: there are no nodes,
  and events are handled one at a time, as by 'seq'. E of them are committed at a time: 4096, or
  what --commit-every says, up to 250000. With --rounds it makes N commits. A disk may be run so
  now and over nodes later.
  Once a run has taken a second, it says on a terminal, or with --advice, if another way would be
  faster: --plain for a run over nodes in one process; --sockets with --overlap for one with
  --plain and without --checkpoint of which an event takes 10 microseconds or more, if it commits
  1024 events or more at a time, and there are several processors.

  --batch auto     each node has its own batch, which grows and shrinks with the share of its
                   handled messages that is committed
  --together       all nodes have work before a reply is taken, so node programs work at once
  --overlap        node programs work also while the run takes the replies of others and commits.
                   It pays where each has a processor of its own (--bind); more is rolled back

Node programs
  With --sockets DIR the run starts this program as 'node' for each node, waits for it at the end,
  and removes its socket. DIR must be a folder of your own (mode 700): anyone who can write to it
  can answer in a node's place. A line on standard error warns of one that every user can write
  to. Sockets that a killed run left there are removed.
  With --attach as well it starts none: start each node I as 'node MODEL DIR/nodeI' once its
  socket is there, in any order, also on other machines. The run begins when all have connected.
  With --retries a run whose node program ends, is silent for too long (--silence) or is cut off
  goes on from the last commit with new programs. Each new beginning is printed on standard error.

Which model a node has
  At the start, and at each new beginning, each node program says in which simulation it takes
  part: the words that identify the model, its processes, its end, and the version of the frames.
  An edited model file, another file, another end and another version are found with certainty,
  before any work (Node N OtherModel).
  The run reads its model file once, and the programs that it starts have the file as the run has
  read it, also those of --retries: it stands in DIR meanwhile. So a file that is edited during the
  run changes nothing.

What a node computes
  That is found by comparing reports with the model:
  --judge N        the run handles the first event that each process reports, and then one in N, by
                   its own model. What a node gets wrong often is found at once (Session Port
                   BadReply); what it gets wrong rarely can be committed before it is found
  --judge all      every report is replayed, and nothing is committed that the sequential simulation
                   does not do (Session Reports), whatever nodes answer. --judge 1 is the same
  --judge 0        nothing is compared
  'verify' compares a whole disk with the model later on.

When judging pays
  --judge 64, the default, costs little. With --judge all the run's own program handles each event
  too, so such a run takes at least as long as one with --plain, which needs no nodes and promises
  the same. Judge all where node programs or their machines are not trusted, not to be fast.
";

const COMMITS: &str = "\
In a round each node has its turn, and then what no rollback can reach any more is committed: it is
on the disk, and no stop of the program or cut of the power takes it away again.

When
  A commit waits for the disk twice. With --commit-every E a round commits if nodes have reported E
  events or more since the last commit: the commit takes those before the floor that all nodes know,
  often a few less than E; the last commit takes what is left. A power cut can cost the work since
  the last commit.
  Each commit takes at least 2 sectors, and 9 events take about 1.

Rounds
  Repeated runs with --rounds 1 make no progress: each opening starts with a floor that one round
  cannot pass. Use --rounds 2 or more. The default is a million rounds, after which a run ends with
  the fault Rounds; with --rounds unlimited it ends when the model does.

Checkpoints
  A checkpoint (--checkpoint E) is one record on the disk, as long as the states of all processes
  and the pending messages. The next opening begins at the last one, and replays only the events
  after it. It believes what the checkpoint holds; 'verify' compares it. Rounds that do not commit
  do not count, so with --commit-every, checkpoints are far apart.

Seals
  With --seal a seal follows each checkpoint: the SHA-256 of the records since the last seal.
  Every command that opens the disk compares all seals, and refuses a file that was changed before
  the last one (Log Corrupt). A seal takes 2 sectors. If it has no room it is left out, and the
  next covers more.
";

const UNATTENDED: &str = "\
A run of days, that nobody watches:

  run MODEL DISK --create --archive-when-full --keep 2 --rounds unlimited \\
      --progress 60 --stop-file stop

and where its nodes are programs also --nodes 4 --sockets DIR --retries 1000 --silence 600. The same
command goes on from the last commit, however the run ended.

  --create               makes the disk if its file is not there, with --sectors and --reserve as
                         'new' takes them
  --archive-when-full    a disk that is full is archived as DISK.TIME, and the run goes on on a new
                         one of as many sectors: memory and each file stay bounded ('help segments')
  --keep K               keeps the K newest archived parts, and removes older ones; without it all
                         stay
  --grow-when-full       instead of archives: makes the disk twice as long, up to 131072 sectors, or
                         with --large to 16777216. Memory grows with it
  --rounds unlimited     ends when the model does. The default is a million rounds, which a run over
                         days reaches (fault Rounds)
  --retries N            begins again up to N times where a node program is lost, or with --silence
                         SECONDS does not answer for so long
  --progress SECONDS     a line of progress where there is no terminal
  --stop-file FILE       looks once a round, and at most ten times a second, whether FILE is
                         there. The round after that is the last: what can be committed is, the
                         status is 0, and standard error says that FILE ended the run. FILE stays,
                         and no run begins while it is there
";

const SEGMENTS: &str = "\
A disk keeps the whole log of its run, and a run keeps that in memory. A segment is a disk that goes
on from another one: it begins with an origin, the world that the disk before it had committed.

Archives
  run MODEL DISK --archive-when-full --keep 3

  Where a commit has no room, DISK gets a second name, DISK.TIME, with the virtual time up to
  which it goes in 13 digits, and a new file DISK of as many sectors takes its place. So DISK is
  always the one in use, and all commands take it as before; 'ls' gives the archived parts in
  their order. A part is an ordinary disk that no run writes again: copy it, compress it or remove
  it, also during the run. A killed run leaves either the old disk or the new one under the name
  DISK.

  --keep K removes the oldest parts once there are more than K. The name of each follows from the
  part after it, so a part that was moved away ends the removal there.

  'log' of all parts in their order, DISK.0* and then DISK, prints what 'seq' prints of the log.

By hand
  new MODEL PART --from DISK         a segment of the same model that goes on from what DISK has
                                     committed
  verify MODEL PART --after BEFORE   compares also the origin, with what BEFORE has committed
                                     (Segment NotTheNext). Without it the origin is believed

'log' prints the segment's own events, 'show' the world, 'status' also the origin and the number of
events before it; 'stats' and 'draw' simulate the model from its start. An origin has room for
16777216 bytes: with more pending messages (some 290000) a run ends with Segment TooLong; use
--grow-when-full then.
";

const REPAIR: &str = "\
What each command finds and does about a disk that is damaged, or has records that are not what the
model does:

  status MODEL DISK         reads it from its last checkpoint on, and names the first record there
                            that cannot be taken
  verify MODEL DISK         replays all records and compares them with the model: 'verified', or
                            the first record at fault (Record N ..). Use it after a crash of the
                            machine, a copy, or a run whose nodes were not judged. It writes
                            nothing
  reopen MODEL DISK         the disk seems to have no log (NotFormatted), or 'new' does not take
                            it (Shut): its header's gate is closed, and all records are there. It
                            replays them all, and opens the gate if the model does all of that
  cut MODEL DISK            'verify' names a record at fault, and the disk should be used on: takes
                            that record and all after it away, once it has printed which. 'run' goes
                            on from there
  recover MODEL DISK NEW    the header or gates are lost, or DISK must stay as it is: copies the
                            good records to a new disk, from the first one on up to the first at
                            fault

Copy a disk before 'cut', or use 'recover', which changes nothing. The model file must be that of
the disk: with another one all records seem to be at fault, or the fault is OtherModel. A disk
that is merely full is not damaged: 'grow', or 'help unattended'.
";

const LOOKING: &str = "\
These commands only read the disk, and can run beside the run that writes it:

  status MODEL DISK    how far the run is, how many records there are, how much room is left
  info DISK            what a disk is, where its model file is not at hand
  log MODEL DISK       the committed events; --from, --to and --process choose, --names names words
  show MODEL DISK      the committed world: states and pending messages
  stats MODEL DISK     how many events, sends and delays; --table picks one of the tables, as those
                       of named numbers over virtual time
  draw MODEL DISK      a picture (SVG): each event and message; with --load the load of processes,
                       and with --histogram NAME how often a word of messages has which values (or
                       with --format vcd a value change dump of the named numbers)
  verify MODEL DISK    whether the disk is what a run leaves ('help repair')

With --format csv or json 'log', 'show', 'status', 'stats', 'info' and 'seq' print tables, with the
names that the model has.

Without a disk 'stats' and 'draw' run the model themselves, and 'seq' prints its log and world.

A disk that keeps its model
  'new --keep-model' and 'run --create --keep-model' write the text of the model, as --set and
  --seed change it, to DISK.model beside the disk. For the commands above MODEL '-' is then this
  text, also for archived parts DISK.TIME, and 'info DISK --model' prints it. For other commands '-'
  is a path.

During a run
  On a terminal a line says how far it is. --progress SECONDS prints such lines where there is
  none.
  --trace FILE writes a row for each turn of a node, by commas (CSV): the round, the batch,
  how much was handled, sent, undone and committed. 'draw MODEL --trace FILE' draws the course of
  the run from it. A FILE with anything but a trace in it is refused (File).

After a fault
  Standard error has the fault's name, and in the next line the file and its cause; --quiet, or
  TIMEWARP_ADVICE=0 in the environment, leaves that line out. With --advice, or TIMEWARP_ADVICE=1,
  what to do about the fault follows, as it always does on a terminal.
";

const STATUSES: &str = "\
Exit status
  0  done, or 'help' has printed a text, or --version the version
  1  a fault, printed on standard error after the program's name
  2  a mistake in the command line; or --help, whose text is on standard error

A run that its stop file ends has status 0: standard error says that it was stopped. A signal ends
any command with the status that the shell gives it (130 for Ctrl-C). Whatever the status, what was
committed stays on the disk, and the same 'run' goes on from there.

The faults of a script
  Rounds         the run is not at its end: call it again, or use --rounds unlimited
  Session Full   the disk is full: 'grow', --grow-when-full or --archive-when-full
  Session Port   a node program was lost or answered wrongly: --retries, 'help nodes'
  File           a file is missing, is in use, is no disk, or would be written over
  Output         standard output refused a write; a command that writes a disk has written it

'--help' has the whole list. Faults are found in this order: the command line, the model file, the
disk, the sockets, and then what the command does.
";
