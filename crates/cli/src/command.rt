// The commands and their arguments.

ghost use Rattle.std.specs.Prelude.{◌≡◌, [], None};
ghost use Rattle.cli.specs.Command.{model_of};

/// A parsed command.
#[derive(Clone, Copy)]
pub enum Command<'a> {
    /// Make an empty log on a disk.
    New(NewArgs<'a>),
    /// Run a model on its disk.
    Run(RunArgs<'a>),
    /// Continue a disk to the later end of the model file.
    Extend(DiskArgs<'a>),
    /// Make a disk longer.
    Grow(GrowArgs<'a>),
    /// Write what is committed on a disk of format 1 to a new disk of format 2.
    Migrate(MigrateArgs<'a>),
    /// Open the gate of a disk's header again.
    Reopen(DiskArgs<'a>),
    /// Take the records from the first one at fault on away from a disk.
    Cut(DiskArgs<'a>),
    /// Write the good records of a damaged disk to a new disk.
    Recover(RecoverArgs<'a>),
    /// Print how far the run of a disk has come.
    Status(StatusArgs<'a>),
    /// Print what a disk is, without its model file.
    Info(InfoArgs<'a>),
    /// Check all that a disk holds.
    Verify(VerifyArgs<'a>),
    /// Print the committed events of a disk.
    Log(LogArgs<'a>),
    /// Print the committed world of a disk.
    Show(ShowArgs<'a>),
    /// Print the figures of a run.
    Stats(StatsArgs<'a>),
    /// Print a picture of a run.
    Draw(DrawArgs<'a>),
    /// Run a model by the sequential runner.
    Seq(SeqArgs<'a>),
    /// Print whether a file is a model file, or what is wrong with it.
    Check(ModelArgs<'a>),
    /// Serve as a node behind a socket.
    Node(NodeArgs<'a>),
}

impl<'a> Command<'a> {
    /// The model file of the command; none for `info`.
    pub fn model(self) -> Option<ModelFile<'a>>
        ensures { result ≡ model_of self.entry }
    {
        match self {
            Command::New(args) => Some(args.on.model),
            Command::Run(args) => Some(args.on.model),
            Command::Grow(args) => Some(args.on.model),
            Command::Migrate(args) => Some(args.model),
            Command::Recover(args) => Some(args.model),
            Command::Status(args) => Some(args.on.model),
            Command::Info(_) => None,
            Command::Verify(args) => Some(args.on.model),
            Command::Log(args) => Some(args.on.model),
            Command::Show(args) => Some(args.on.model),
            Command::Stats(args) => Some(args.of.model),
            Command::Draw(args) => Some(args.of.model),
            Command::Seq(args) => Some(args.model),
            Command::Check(args) => Some(args.model),
            Command::Node(args) => Some(args.model),
            Command::Extend(args) | Command::Reopen(args) | Command::Cut(args) => Some(args.model),
        }
    }
}

/// What is set, in this order: each time the name of a value, and the text of the new one.
pub type Settings<'a> = &'a [(&'a str, &'a str)];

/// A model file, and what is set in place of values of its own.
#[derive(Clone, Copy, Debug)]
pub struct ModelFile<'a> {
    /// The path of the file.
    pub path: &'a str,
    /// What is set.
    pub settings: Settings<'a>,
    /// The path of the disk whose kept model is read in place of the file; none for the file.
    pub kept_by: Option<&'a str>,
}

impl<'a> ModelFile<'a> {
    /// The model file of this path as it is.
    pub fn at(path: &'a str) -> ModelFile<'a>
        ensures path { result.path ≡ path.entry }
        ensures unset { result.settings.now ≡ [] }
        ensures file { result.kept_by ≡ None }
    {
        ModelFile {
            path,
            settings: &[],
            kept_by: None,
        }
    }
}

/// The argument of a command on a model file alone.
#[derive(Clone, Copy, Debug)]
pub struct ModelArgs<'a> {
    /// The model file.
    pub model: ModelFile<'a>,
}

/// The arguments of a command on a model file and a disk, which other commands have too.
#[derive(Clone, Copy, Debug)]
pub struct DiskArgs<'a> {
    /// The model file.
    pub model: ModelFile<'a>,
    /// The path of the disk's file.
    pub disk: &'a str,
    /// Whether the disk may have up to 16,777,216 sectors instead of 131,072.
    pub large: bool,
}

/// The arguments of a command on the run of a disk, or on one that the sequential runner makes.
#[derive(Clone, Copy, Debug)]
pub struct SourceArgs<'a> {
    /// The model file.
    pub model: ModelFile<'a>,
    /// The path of the disk's file; none for a run by the sequential runner.
    pub disk: Option<&'a str>,
    /// Whether the disk may have up to 16,777,216 sectors instead of 131,072.
    pub large: bool,
}

/// The arguments of `new`.
#[derive(Clone, Copy, Debug)]
pub struct NewArgs<'a> {
    /// The model file and the disk.
    pub on: DiskArgs<'a>,
    /// The disk's number of sectors: 8 to 131,072, or to 16,777,216 for a large one.
    pub sectors: u32,
    /// Whether the disk's file gets its whole room on the device at once.
    pub reserve: bool,
    /// Whether a file that holds other bytes is formatted.
    pub over: bool,
    /// The path of the disk whose committed world the new one goes on from; none for a disk that
    /// begins as its model does.
    pub from: Option<&'a str>,
    /// Whether the text of the model is kept in a file beside the disk.
    pub keep_model: bool,
}

/// The arguments of `run`.
#[derive(Clone, Copy, Debug)]
pub struct RunArgs<'a> {
    /// The model file and the disk.
    pub on: DiskArgs<'a>,
    /// The number of nodes, 1 to 64.
    pub nodes: u32,
    /// How many messages a node may handle at a turn.
    pub batch: BatchOption,
    /// The maximum number of rounds, at least 1; `u32::MAX` for no limit.
    pub rounds: u32,
    /// A checkpoint follows each time this many commits are made, at least 1; none for no
    /// checkpoints.
    pub checkpoint: Option<u32>,
    /// Whether a seal follows each checkpoint: the SHA-256 of the records since the last seal.
    pub seal: bool,
    /// A round commits once this many more events can be committed, 1 to 400,000; none for a
    /// commit in each round.
    pub commit_every: Option<u32>,
    /// The folder with the sockets of node programs; none if the nodes are in this program.
    pub sockets: Option<&'a str>,
    /// The node whose program ends after one reply, if there is one.
    pub cut: Option<u32>,
    /// Whether all nodes are posted their parcels before a reply is taken.
    pub together: bool,
    /// Whether each node has a parcel out while the replies of the others are taken.
    pub overlap: bool,
    /// Whether the run is made without nodes, one event at a time.
    pub plain: bool,
    /// Whether the run waits for the programs behind the sockets to connect, instead of starting
    /// them.
    pub attach: bool,
    /// Whether each program that is started has a processor of its own.
    pub bind: bool,
    /// One in this many reported events of node programs is compared with the model: 0 for none of
    /// them, 1 for all; none for the default.
    pub judge: Option<u32>,
    /// After how many seconds without an answer a node program counts as lost, 1 to 86,400; none
    /// for no limit.
    pub silence: Option<u32>,
    /// How often the run is begun again from the disk after a node program was lost, 0 to
    /// 1,000,000; none for never.
    pub retries: Option<u32>,
    /// Whether a disk that is full is made longer.
    pub grow_when_full: bool,
    /// Whether a disk that is full is archived under a second name, and the run goes on on a new
    /// one.
    pub archive_when_full: bool,
    /// How many archived parts are kept, 0 and more; none for all.
    pub keep: Option<u32>,
    /// The path of the trace file, with a row for each turn of a node; none for no trace.
    pub trace: Option<&'a str>,
    /// The path of a file that ends the run once it is there; none for no such file.
    pub stop_file: Option<&'a str>,
    /// The number of seconds between two lines of progress where there is no terminal, 1 to 86,400;
    /// none for no such lines.
    pub progress: Option<u32>,
    /// Whether the disk is made, as `new` does, if its file is not there.
    pub create: bool,
    /// The number of sectors of a disk that is made: 8 to 131,072, or to 16,777,216 for a large
    /// one; 4,096 if none is given.
    pub sectors: u32,
    /// Whether the file of a disk that is made gets its whole room on the device at once.
    pub reserve: bool,
    /// Whether the text of the model is kept in a file beside a disk that is made.
    pub keep_model: bool,
}

/// How many messages a node may handle at a turn.
#[derive(Clone, Copy, Debug, PartialEq, Eq)]
pub enum BatchOption {
    /// This number, at least 1.
    Fixed(u32),
    /// A number that each node adjusts by how much of what it handles is committed.
    Auto,
}

/// The arguments of `grow`.
#[derive(Clone, Copy, Debug)]
pub struct GrowArgs<'a> {
    /// The model file and the disk.
    pub on: DiskArgs<'a>,
    /// The number of sectors that the disk then has: 8 to 131,072, or to 16,777,216 for a large
    /// one.
    pub sectors: u32,
}

/// The arguments of `migrate`.
#[derive(Clone, Copy, Debug)]
pub struct MigrateArgs<'a> {
    /// The model file.
    pub model: ModelFile<'a>,
    /// The path of the file of the disk of format 1.
    pub old: &'a str,
    /// The path of the file of the disk of format 2.
    pub new: &'a str,
    /// The number of sectors of the disk of format 2: 8 to 131,072, or to 16,777,216 for a large
    /// one.
    pub sectors: u32,
    /// Whether the file of the disk of format 2 gets its whole room on the device at once.
    pub reserve: bool,
    /// Whether each disk may have up to 16,777,216 sectors instead of 131,072.
    pub large: bool,
}

/// The arguments of `recover`.
#[derive(Clone, Copy, Debug)]
pub struct RecoverArgs<'a> {
    /// The model file.
    pub model: ModelFile<'a>,
    /// The path of the file of the damaged disk.
    pub old: &'a str,
    /// The path of the file of the new disk.
    pub new: &'a str,
    /// The number of sectors of the new disk: 8 to 131,072, or to 16,777,216 for a large one.
    pub sectors: u32,
    /// Whether the file of the new disk gets its whole room on the device at once.
    pub reserve: bool,
    /// Whether each disk may have up to 16,777,216 sectors instead of 131,072.
    pub large: bool,
}

/// The format of what a command prints.
#[derive(Clone, Copy, Debug, PartialEq, Eq)]
pub enum Format {
    /// Lines of words.
    Text,
    /// Comma-separated values, by RFC 4180.
    Csv,
    /// JSON, by RFC 8259.
    Json,
}

/// The arguments of `status`.
#[derive(Clone, Copy, Debug)]
pub struct StatusArgs<'a> {
    /// The model file and the disk.
    pub on: DiskArgs<'a>,
    /// The format of what is printed.
    pub format: Format,
}

/// The arguments of `info`.
#[derive(Clone, Copy, Debug)]
pub struct InfoArgs<'a> {
    /// The path of the disk's file.
    pub disk: &'a str,
    /// Whether the disk may have up to 16,777,216 sectors instead of 131,072.
    pub large: bool,
    /// Whether the model file that the disk keeps is printed, and nothing else.
    pub model: bool,
    /// The format of what is printed.
    pub format: Format,
}

/// The arguments of `seq`.
#[derive(Clone, Copy, Debug)]
pub struct SeqArgs<'a> {
    /// The model file.
    pub model: ModelFile<'a>,
    /// The format of what is printed. As a table, that is the log alone.
    pub format: Format,
}

/// The arguments of `verify`.
#[derive(Clone, Copy, Debug)]
pub struct VerifyArgs<'a> {
    /// The model file and the disk.
    pub on: DiskArgs<'a>,
    /// The path of the disk from whose committed world this one goes on; none if the disk begins as
    /// its model does, or its origin is believed.
    pub after: Option<&'a str>,
}

/// The arguments of `log`.
#[derive(Clone, Copy, Debug)]
pub struct LogArgs<'a> {
    /// The model file and the disk.
    pub on: DiskArgs<'a>,
    /// Only events at this time or later, in ticks, at most 2^40; none for all.
    pub from: Option<u64>,
    /// Only events before this time, in ticks, at most 2^40; none for all.
    pub to: Option<u64>,
    /// Only events that this process handled; none for all.
    pub process: Option<u32>,
    /// Whether the content of an event is printed with the names that the model has for it.
    pub names: bool,
    /// The format of what is printed.
    pub format: Format,
}

/// The arguments of `show`.
#[derive(Clone, Copy, Debug)]
pub struct ShowArgs<'a> {
    /// The model file and the disk.
    pub on: DiskArgs<'a>,
    /// Whether state words are printed with the names that the model has for them.
    pub names: bool,
    /// Whether only the messages that are not handled are printed, as `log` prints events.
    pub pending: bool,
    /// The format of what is printed. As a table, that is either the processes or these messages.
    pub format: Format,
}

/// The arguments of `stats`.
#[derive(Clone, Copy, Debug)]
pub struct StatsArgs<'a> {
    /// The run that is counted.
    pub of: SourceArgs<'a>,
    /// The format of what is printed.
    pub format: Format,
    /// Whether the figures of the state words that the model has names for are printed too.
    pub names: bool,
    /// The only table that is printed; none for those of the run.
    pub table: Option<StatsTable>,
    /// The tick from which on a table over virtual time counts, at most 2^40; none for all.
    pub warm_up: Option<u64>,
}

/// A table of the figures of a run.
#[derive(Clone, Copy, Debug, PartialEq, Eq)]
pub enum StatsTable {
    /// The run as a whole.
    Summary,
    /// How the events and sends of the processes, and the delays of the messages, spread.
    Spreads,
    /// The processes that handled the most events.
    Busiest,
    /// The sum and the mean of each named number over the processes, at the end.
    Totals,
    /// Each named number of each process over virtual time.
    Processes,
    /// Each named number over virtual time and the processes of a kind.
    Kinds,
    /// Each named number over virtual time and all processes.
    Overall,
    /// Each named word of the messages of a sort.
    Words,
}

/// The arguments of `draw`.
#[derive(Clone, Copy, Debug)]
pub struct DrawArgs<'a> {
    /// The run that is drawn.
    pub of: SourceArgs<'a>,
    /// Only events at this time or later, in ticks, at most 2^40; none for all.
    pub from: Option<u64>,
    /// Only events before this time, in ticks, at most 2^40; none for all.
    pub to: Option<u64>,
    /// The first and the last process that are drawn, the first not above the last; none for all.
    pub processes: Option<(u32, u32)>,
    /// Whether the load of the processes is drawn instead of each event.
    pub load: bool,
    /// The path of a trace file: only the course of its run is drawn; none for a picture of the
    /// run.
    pub trace: Option<&'a str>,
    /// Whether a value change dump of the named numbers is printed instead of a picture.
    pub vcd: bool,
    /// The name of the word of messages whose values are drawn as a histogram; none for a picture
    /// of the run.
    pub histogram: Option<&'a str>,
}

/// The arguments of `node`.
#[derive(Clone, Copy, Debug)]
pub struct NodeArgs<'a> {
    /// The model file.
    pub model: ModelFile<'a>,
    /// The path of the socket.
    pub socket: &'a str,
    /// The maximum number of parcels that are answered, at least 1.
    pub parcels: u32,
}
