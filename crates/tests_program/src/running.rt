// Commands with writers in memory, and doubles of a clock and a writer. None of these functions has
// a contract, so that the tests are proved without the contracts of the program.

use models::AnyModel;
use program::{About, Progress, TerminalProgress, command};
use std::alloc::{AllocError, Global};
use std::cell::Cell;
use std::io::{self, Error, ErrorKind, Write};
use std::test::Fail;
use std::time::{Clock, CpuClock, Duration};
use std::{env, fs};
use texts::ANY_MODEL_KEYS;

const ABOUT: About<'static> = About {
    name: "timewarp",
    example: "examples/ring.toml",
    keys: ANY_MODEL_KEYS,
};

pub const RING: &str = "model = \"ring\"\nlps = 3\nend = 10\nhold = 2\ntokens = 1\n";

pub const RING_TEXT: &str = "\
1 0 0 0 0 0 0 0
3 0 1 1 0 1 0 0
5 1 0 2 0 2 0 0
7 2 0 0 0 3 0 0
9 0 2 1 0 4 0 0
virtual time 10
lp 0 sent 3 state 2
lp 1 sent 2 state 2
lp 2 sent 1 state 1
pending 11 1 1 2 0 5 0 0
";

/// The result of a command: its exit status, and what it wrote to each stream.
#[derive(Drop)]
pub struct Printed {
    pub status: u8,
    pub out: Vec<u8>,
    pub err: Vec<u8>,
}

impl Printed {
    /// Whether this is all that the command did.
    pub fn is(&self, status: u8, out: &str, err: &str) -> bool {
        self.status == status
            && self.out.as_slice() == out.as_bytes()
            && self.err.as_slice() == err.as_bytes()
    }
}

/// Runs a command with this progress and these writers. Returns the exit status.
pub fn run_on<P, O, E>(
    rt: &HostRuntime,
    words: &[&str],
    progress: &mut P,
    out: &mut O,
    err: &mut E,
) -> u8
where
    P: Progress,
    O: Write,
    E: Write,
{
    command::<AnyModel, _, _, _, _, _>(rt, ABOUT, words, progress, out, err)
}

/// Runs a command without a terminal, with writers that need no further memory.
pub fn run(rt: &HostRuntime, words: &[&str]) -> Result<Printed, AllocError> {
    let mut unseen = TerminalProgress::on(rt, None::<Vec<u8>>);
    let mut out = Vec::with_capacity(rt.alloc(), 8192)?;
    let mut err = Vec::with_capacity(rt.alloc(), 8192)?;
    let status = run_on(rt, words, &mut unseen, &mut out, &mut err);
    Ok(Printed { status, out, err })
}

/// The path of a temporary file of this name, which has this text, or is not there.
pub fn file(rt: &HostRuntime, name: &str, text: Option<&str>) -> Result<String, Fail> {
    let mut path = env::temp_dir(rt)?;
    path.push(name)?;
    let path = path.as_path().to_str().ok_or("a path of text")?;
    match text {
        Some(text) => fs::write(rt, path, text)?,
        None => {
            let _ = fs::remove_file(rt, path);
        }
    }
    Ok(String::from_str(rt.alloc(), path)?)
}

/// A clock that advances by `step` milliseconds at each reading. In that time the program is busy
/// for `busy`. The system's time, which may be set at any moment, goes back by a second.
#[derive(Drop)]
pub struct Ticking {
    pub looks: Cell<u32>,
    step: u64,
    busy: u64,
}

impl Ticking {
    pub fn new(step: u64, busy: u64) -> Ticking {
        Ticking {
            looks: Cell::new(0),
            step,
            busy,
        }
    }

    /// The number of readings before this one.
    fn look(&self) -> u64 {
        let looks = self.looks.get();
        self.looks.set(looks.saturating_add(1));
        u64::from(looks)
    }
}

impl Clock for Ticking {
    fn monotonic(&self) -> io::Result<Duration> {
        Ok(Duration::from_millis(self.step.saturating_mul(self.look())))
    }

    fn since_1970(&self) -> io::Result<Duration> {
        Ok(Duration::from_secs(1_000_000_u64.saturating_sub(self.look())))
    }
}

impl CpuClock for Ticking {
    fn thread_cpu_time(&self) -> io::Result<Duration> {
        Ok(Duration::ZERO)
    }

    fn process_cpu_time(&self) -> io::Result<Duration> {
        let looks = u64::from(self.looks.get());
        Ok(Duration::from_millis(self.busy.saturating_mul(looks)))
    }
}

/// A writer that refuses the call number `fail`; flushes count too.
#[derive(Drop)]
pub struct Refusing {
    pub taken: Vec<u8>,
    pub calls: usize,
    fail: usize,
}

impl Refusing {
    pub fn at(alloc: Global, fail: usize) -> Result<Refusing, AllocError> {
        Ok(Refusing {
            taken: Vec::with_capacity(alloc, 512)?,
            calls: 0,
            fail,
        })
    }

    fn call(&mut self) -> io::Result<()> {
        let call = self.calls;
        self.calls = self.calls.saturating_add(1);
        if call == self.fail {
            return Err(Error::from(ErrorKind::BrokenPipe));
        }
        Ok(())
    }
}

impl Write for Refusing {
    fn write(&mut self, buf: &[u8]) -> io::Result<usize> {
        self.call()?;
        self.taken.extend_from_slice(buf)?;
        Ok(buf.len())
    }

    fn flush(&mut self) -> io::Result<()> {
        self.call()
    }
}
