// Nodes that are programs of their own, behind Unix sockets.

ghost use Rattle.std.specs.Prelude.{◌≡◌, ◌+◌, IfOk, OnOk, length, map, replicate};
ghost use Rattle.frames.specs.Socket.{state_of};
ghost use Rattle.frames.specs.declared.port.Held.TheVariants.{Fresh};

use crate::calls::{Calls, NodeStream};
use crate::fault::{NodesFault, unreadable};
use crate::greeting::ports_of;
use crate::model_text::{path_of_text, place_text};
use crate::pages::keep_pages;
use crate::processors::{command_on, processor_of, processors};
use crate::simulation::Simulation;
use frames::{Ending, Hello, ReadAhead, SocketPort, say_hello, serve_greeted};
use model::Model as Simulated;
use std::alloc::{AllocError, Global};
use std::fs::{self, File};
use std::io::{self, BufReader, Error as IoError, ErrorKind};
use std::net::Net;
use std::os::unix::fs::FileTypeExt;
use std::os::unix::net::{UnixListener, UnixStream};
use std::process::{Child, Command, OpenProcess, Processes, Stdio};
use std::rt::Files;
use std::thread;
use std::time::{Clock, Duration};
use terminal::Progress;

/// The node programs of a run, and where their sockets are.
#[derive(Clone, Copy)]
pub struct Behind<'a> {
    /// The program to start for each node, with the command `node`.
    pub program: &'a str,
    /// The text of the model file, as the run has read it. The programs that are started get it.
    pub text: &'a [u8],
    /// The folder of the sockets.
    pub folder: &'a str,
    /// The node whose program is started to end after one reply.
    pub cut: Option<u32>,
    /// Whether to wait for programs that others start, instead of starting them.
    pub attach: bool,
    /// Whether each program that is started runs on one processor, through the program `taskset`.
    pub bind: bool,
    /// After how many seconds without an answer a program counts as lost; none for no limit.
    pub silence: Option<u32>,
    /// Where each call on a connection is noted, and what the system says if none is made.
    pub calls: &'a Calls,
}

/// What must be cleared up for a node: the socket file that this run made, its listener, the
/// program if it was started, and the connection if it arrived before it was asked for. The first
/// node also has the file of the model's text, if it was written, and the locked folder of the
/// sockets, which is kept until these files are removed.
#[derive(Drop)]
pub struct Met<P: OpenProcess + Drop> {
    path: String,
    listener: Option<UnixListener>,
    child: Option<Child<P>>,
    stream: Option<UnixStream>,
    text: Option<String>,
    lock: Option<File>,
}

/// Returns a port to each of `nodes` node programs: makes all sockets, starts or awaits all
/// programs, accepts a connection of each, says the run's hello `own` to it, and takes their answers
/// in the order of nodes. Nothing is loaded. Whatever the result, `met` has what must be cleared up.
///
/// The programs that it starts get the text of the model in a file of the folder,
/// `.timewarp-model`, which replaces one that a killed run left.
///
/// Fails with `File` if a socket or that file cannot be made, a program does not start, or one ends
/// before it connects; with `OtherNode` if a node answers that it takes part in another simulation;
/// with `Lost` if a connection fails or ends before its answer, or brings no hello; and with
/// `NoMemory` if an allocation failed. If programs are not started, the call waits without limit
/// until each node has connected, in any order, and reports to `progress` which nodes it waits for.
///
/// A call on a connection that waits longer than `silence` seconds fails, as if the connection had.
///
/// Replaces sockets that a killed run left in the folder. A socket of a run that is still alive, a
/// socket at which another program listens, and any other file stay as they are: the call fails
/// with `File`.
pub fn meet<'a, R, P>(
    rt: &R,
    behind: Behind<'a>,
    own: &Hello,
    nodes: u32,
    met: &mut Vec<Met<R::Started>>,
    progress: &mut P,
) -> Result<Vec<SocketPort<NodeStream<'a>>>, NodesFault>
where
    R: Files<File = File> + Net + Processes + Clock + AllocGlobal,
    P: Progress,
    requires { length met.old.items ≡ 0 }
    ensures { IfOk result (λ ports.
        map (λ p. state_of p.held) ports.items ≡ replicate nodes (state_of Fresh)) }
{
    let mut lock = lock_folder(rt, behind.folder);
    let is_locked = lock.is_some();
    'nodes: for node in 0..nodes {
        bind(rt, behind, node, is_locked, lock.take(), met)?;
    }
    let met = met.as_mut_slice();
    gather(rt, behind, met, progress)?;
    let streams = accept_all(rt, behind, own, met)?;
    ports_of(rt.alloc(), own, streams, behind.calls)
}

/// Locks the folder of the sockets for this run. Returns `None` if another program has the lock, or
/// the folder cannot be locked.
///
/// The lock keeps other runs from the sockets of a living run. A run could not tell by connecting:
/// the connection would take the place of a node's, and a socket whose node has connected refuses
/// others, as if its run had been killed.
fn lock_folder<R: Files<File = File>>(rt: &R, folder: &str) -> Option<File> {
    let file = File::open(rt, folder).ok()?;
    file.try_lock().ok()?;
    Some(file)
}

/// Makes the socket of a node, and appends it to `met`, with the folder's lock if it is there.
/// `is_locked` says whether this run has locked the folder.
fn bind<R>(
    rt: &R,
    behind: Behind<'_>,
    node: u32,
    is_locked: bool,
    lock: Option<File>,
    met: &mut Vec<Met<R::Started>>,
) -> Result<(), NodesFault>
where
    R: Files<File = File> + Net + Processes + AllocGlobal,
    ensures { OnOk result (length met.new.items ≡ length met.old.items + 1) }
{
    let Behind { folder, calls, .. } = behind;
    let path = format!(in rt.alloc(); "{folder}/node{node}")?;
    met.reserve(1)?;
    let listener = listen(rt, path.as_str(), is_locked).map_err(|error| calls.no_socket(error))?;
    // recorded before anything else can fail, so that it is cleared up
    let nonblocking = listener.set_nonblocking(true);
    met.push_reserved(Met {
        path,
        listener: Some(listener),
        child: None,
        stream: None,
        text: None,
        lock,
    });
    nonblocking.map_err(|error| calls.no_socket(error))
}

/// Makes a socket at `path`. If the folder is locked for this run, first removes a socket there at
/// which nobody listens.
fn listen<R>(rt: &R, path: &str, is_locked: bool) -> io::Result<UnixListener>
where
    R: Files<File = File> + Net,
{
    match UnixListener::bind(rt, path) {
        Err(error) if error.kind() == ErrorKind::AddrInUse => {
            if !is_locked || !is_abandoned(rt, path) {
                return Err(error);
            }
            fs::remove_file(rt, path)?;
            UnixListener::bind(rt, path)
        }
        bound => bound,
    }
}

/// Returns whether there is a socket at `path` at which nobody listens. A link is no socket, even
/// if it leads to one.
fn is_abandoned<R: Files<File = File> + Net>(rt: &R, path: &str) -> bool {
    match fs::symlink_metadata(rt, path) {
        Ok(metadata) if metadata.file_type().is_socket() => match UnixStream::connect(rt, path) {
            Err(error) => error.kind() == ErrorKind::ConnectionRefused,
            Ok(_) => false,
        },
        _ => false,
    }
}

/// Starts the program of each node, or waits until each has connected.
fn gather<R, P>(
    rt: &R,
    behind: Behind<'_>,
    met: &mut [Met<R::Started>],
    progress: &mut P,
) -> Result<(), NodesFault>
where
    R: Files<File = File> + Processes + Clock + AllocGlobal,
    P: Progress,
{
    if behind.attach {
        await_all(rt, behind.calls, met, progress)
    } else {
        start_all(rt, behind, met)
    }
}

/// Accepts a connection of each node's program, in any order. Polls all sockets once a millisecond.
/// Reports to `progress` which nodes it waits for, at first and whenever one has connected.
fn await_all<R, P>(
    rt: &R,
    calls: &Calls,
    met: &mut [Met<R::Started>],
    progress: &mut P,
) -> Result<(), NodesFault>
where
    R: Processes + Clock + AllocGlobal,
    P: Progress,
{
    let mut has_come = true;
    for _ in 0..u64::MAX {
        if has_come {
            let absent = absent(rt.alloc(), met)?;
            progress.waiting(absent.as_slice());
            if absent.is_empty() {
                return Ok(());
            }
        }
        has_come = take_arrived(met).map_err(|error| calls.no_socket(error))?;
        if !has_come {
            thread::sleep(rt, Duration::from_millis(1));
        }
    }
    Err(unreadable(IoError::from(ErrorKind::TimedOut)))
}

/// The nodes whose programs have not connected.
fn absent<P>(alloc: Global, met: &[Met<P>]) -> Result<Vec<usize>, AllocError>
where
    P: OpenProcess + Drop,
{
    let mut absent = Vec::with_capacity(alloc, met.len())?;
    for (node, met) in met.iter().enumerate() {
        if met.stream.is_none() {
            absent.push(node)?;
        }
    }
    Ok(absent)
}

/// Polls each socket once, and accepts the connections that are there. Returns whether there was
/// one.
fn take_arrived<P>(met: &mut [Met<P>]) -> io::Result<bool>
where
    P: OpenProcess + Drop,
{
    let mut has_come = false;
    for node in met.iter_mut() {
        if has_arrived(node)? {
            has_come = true;
        }
    }
    Ok(has_come)
}

/// Accepts the connection that is there for a node, and then closes its listener, so that it
/// accepts no other. Returns whether there was a connection.
fn has_arrived<P>(met: &mut Met<P>) -> io::Result<bool>
where
    P: OpenProcess + Drop,
{
    let accepted = match &met.listener {
        Some(listener) => listener.accept(),
        None => return Ok(false),
    };
    match accepted {
        Ok((stream, _)) => {
            met.stream = Some(stream);
            met.listener = None;
            Ok(true)
        }
        Err(error) => {
            if error.kind() == ErrorKind::WouldBlock {
                Ok(false)
            } else {
                Err(error)
            }
        }
    }
}

/// Writes the text of the model, and starts the program of each node on it.
fn start_all<R>(rt: &R, behind: Behind<'_>, met: &mut [Met<R::Started>]) -> Result<(), NodesFault>
where
    R: Files<File = File> + Processes + AllocGlobal,
{
    let calls = behind.calls;
    let text = path_of_text(rt.alloc(), behind.folder)?;
    let kept = path_of_text(rt.alloc(), behind.folder)?;
    place_text(rt, text.as_str(), behind.text).map_err(|error| calls.no_socket(error))?;
    if let Some(first) = met.first_mut() {
        first.text = Some(kept);
    }
    start_on(rt, behind, text.as_str(), met)
}

/// Starts the program of each node on this model file, on a processor of its own if that is asked
/// for.
fn start_on<R>(
    rt: &R,
    behind: Behind<'_>,
    model: &str,
    met: &mut [Met<R::Started>],
) -> Result<(), NodesFault>
where
    R: Files<File = File> + Processes + AllocGlobal,
{
    let calls = behind.calls;
    let processors = if behind.bind {
        processors(rt).map_err(|error| calls.no_program(error))?
    } else {
        Vec::new(rt.alloc())
    };
    for (node, met) in met.iter_mut().enumerate() {
        let is_cut = match behind.cut {
            Some(cut) => cut as usize == node,
            None => false,
        };
        let processor = processor_of(processors.as_slice(), node);
        let path = met.path.as_str();
        let child = start(rt, behind.program, model, path, is_cut, processor).map_err(
            |error| calls.no_program(error),
        )?;
        met.child = Some(child);
    }
    Ok(())
}

/// Starts the program of the node behind this socket, on this model file, without standard streams,
/// and on this processor if there is one. It keeps the pages that it frees.
fn start<R>(
    rt: &R,
    program: &str,
    model: &str,
    path: &str,
    is_cut: bool,
    processor: Option<u32>,
) -> io::Result<Child<R::Started>>
where
    R: Files<File = File> + Processes + AllocGlobal,
{
    let mut command = match processor {
        Some(processor) => command_on(rt.alloc(), processor, program)?,
        None => Command::new(rt.alloc(), program)?,
    };
    command.arg("node")?.arg(model)?.arg(path)?;
    if is_cut {
        command.arg("--parcels")?.arg("1")?;
    }
    keep_pages(rt, &mut command)?;
    command
        .stdin(Stdio::null())
        .stdout(Stdio::null())
        .stderr(Stdio::null());
    command.spawn(rt)
}

/// Waits for the program of each node to connect, and says the run's hello to it, before any answer
/// is taken: so all nodes begin at once. Returns the connections.
fn accept_all<'a, R>(
    rt: &R,
    behind: Behind<'a>,
    own: &Hello,
    met: &mut [Met<R::Started>],
) -> Result<Vec<NodeStream<'a>>, NodesFault>
where
    R: Processes + Clock + AllocGlobal,
    ensures { IfOk result (λ streams. length streams.items ≡ length met.old) }
{
    let calls = behind.calls;
    let mut streams = Vec::with_capacity(rt.alloc(), met.len())?;
    'nodes: for node in 0..met.len() {
        let stream = accept(rt, &mut met[node]).map_err(|error| calls.no_socket(error))?;
        limit(&stream, behind.silence).map_err(|error| calls.no_socket(error))?;
        let stream = ReadAhead::new(rt.alloc(), stream).map_err(unreadable)?;
        let mut stream = NodeStream::new(node, calls, stream);
        say_hello(rt.alloc(), own, &mut stream)?;
        streams.push(stream)?;
    }
    Ok(streams)
}

/// Lets no read and no write of a connection wait longer than this many seconds.
fn limit(stream: &UnixStream, silence: Option<u32>) -> io::Result<()> {
    match silence {
        None => Ok(()),
        Some(seconds) => {
            let most = Some(Duration::from_secs(u64::from(seconds)));
            stream.set_read_timeout(most)?;
            stream.set_write_timeout(most)
        }
    }
}

/// The connection of a node's program: the one that has arrived already, or the next one, for which
/// it polls once a millisecond. Fails if the program has ended and there is no connection.
fn accept<R, P>(rt: &R, met: &mut Met<P>) -> io::Result<UnixStream>
where
    R: Clock,
    P: OpenProcess + Drop,
{
    if let Some(stream) = met.stream.take() {
        return Ok(stream);
    }
    for _ in 0..u64::MAX {
        // checked first, so that a program that connects and then ends is still accepted
        let has_ended = match &mut met.child {
            Some(child) => child.try_wait()?.is_some(),
            None => true,
        };
        let accepted = match &met.listener {
            Some(listener) => listener.accept(),
            None => Err(IoError::from(ErrorKind::NotConnected)),
        };
        match accepted {
            Ok((stream, _)) => return Ok(stream),
            Err(error) => {
                if error.kind() != ErrorKind::WouldBlock {
                    return Err(error);
                }
                if has_ended {
                    // that nothing waits to be accepted is no fault of the system
                    return Err(IoError::from(ErrorKind::NotConnected));
                }
            }
        }
        thread::sleep(rt, Duration::from_millis(1));
    }
    Err(IoError::from(ErrorKind::TimedOut))
}

/// Clears up after node programs, once all ports to them are dropped: waits for each program that
/// was started, and removes the text of the model and each socket that was made.
///
/// Where a program that is silent for some seconds counts as lost, the call waits for so long, and
/// then kills those that have not ended.
pub fn clear<R>(rt: &R, silence: Option<u32>, mut met: Vec<Met<R::Started>>)
where
    R: Files<File = File> + Processes + Clock,
{
    // a program whose connection was not accepted sees its end once the listener is closed
    for node in met.iter_mut() {
        node.listener = None;
        node.stream = None;
    }
    if let Some(seconds) = silence {
        kill_silent(rt, seconds, met.as_mut_slice());
    }
    for node in met.iter_mut() {
        if let Some(child) = &mut node.child {
            let _ = child.wait();
        }
    }
    // the sockets keep other runs out, so they are removed last
    for node in met.iter() {
        if let Some(text) = &node.text {
            let _ = fs::remove_file(rt, text.as_str());
        }
        let _ = fs::remove_file(rt, node.path.as_str());
    }
}

/// Kills the programs that have not ended within this many seconds. Polls once a millisecond.
fn kill_silent<R, P>(rt: &R, seconds: u32, met: &mut [Met<P>])
where
    R: Clock,
    P: OpenProcess + Drop,
{
    for _ in 0..u64::from(seconds) * 1000 {
        if have_ended(met) {
            return;
        }
        thread::sleep(rt, Duration::from_millis(1));
    }
    kill_all(met);
}

/// Kills each program that was started and has not ended.
fn kill_all<P>(met: &mut [Met<P>])
where
    P: OpenProcess + Drop,
{
    for node in met.iter_mut() {
        if let Some(child) = &mut node.child {
            let _ = child.kill();
        }
    }
}

/// Whether each program that was started has ended. One that cannot be asked counts as ended.
fn have_ended<P>(met: &mut [Met<P>]) -> bool
where
    P: OpenProcess + Drop,
{
    for node in met.iter_mut() {
        if let Some(child) = &mut node.child {
            if let Ok(None) = child.try_wait() {
                return false;
            }
        }
    }
    true
}

/// Serves a node of this model, up to an end in ticks, behind this socket, until at most `parcels`
/// parcels are answered. The hello of a run is answered by that of the node.
///
/// Fails with `File` if no connection is made, with `NoMemory` if an allocation for it failed, and
/// then with `Wire`, or with `OtherModel` if the run takes part in another simulation. A node's own
/// refusal is reported to the other end, and is not a fault here. `calls` keeps what the system says
/// if no connection is made, and how the simulations differ.
pub fn serve_on<M, R>(
    rt: &R,
    model: &M,
    end: u64,
    socket: &str,
    parcels: u32,
    calls: &Calls,
) -> Result<(), NodesFault>
where
    M: Simulated,
    R: Files<File = File> + Net + AllocGlobal,
{
    let stream = UnixStream::connect(rt, socket).map_err(|error| calls.no_socket(error))?;
    let mut reader = BufReader::new(rt.alloc(), &stream).map_err(unreadable)?;
    let mut writer = &stream;
    let ending = serve_greeted(
        rt.alloc(),
        model,
        end,
        &mut reader,
        &mut writer,
        u64::from(parcels),
    )?;
    match ending {
        Ending::Replies(_) => Ok(()),
        Ending::OtherModel(asked) => {
            if let Ok(own) = Hello::of(rt.alloc(), model, end) {
                calls.note_apart(Simulation::of(&asked), Simulation::of(&own));
            }
            Err(NodesFault::OtherModel)
        }
    }
}
