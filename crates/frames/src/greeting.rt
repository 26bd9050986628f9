// The first frame of a run, and the answer of its nodes: in which simulation a program takes part.

ghost use Rattle.std.specs.Prelude.{◌≡◌, ◌++◌, true, IfOk, OnOk};
ghost use Rattle.frames.specs.Hellos.{agrees, hello_bytes, hello_frame, hello_in, hello_of};

use crate::writing::{append_count, append_u32, append_u64};
use eventkey::{Listed, MOST_END, read_u32, read_u64};
use model::{Model as Simulated, append_words, read_words};
use std::alloc::{AllocError, Global};

/// The format of the frames of this program. Format 1 had neither a hello nor the last two words of
/// a message.
pub const FRAMES_FORMAT: u32 = 2;

/// The number of the kind of a hello's frame. The kinds of all other frames are 1 to 4.
pub(crate) const HELLO: u8 = 16;

/// The maximum number of identity words.
const MOST_WORDS: usize = 8;

/// In which simulation a program takes part. A run sends its own first, and each node answers by
/// its own: a run and a node belong together if the two are equal.
#[derive(Drop)]
pub struct Hello {
    /// The format of the frames that follow.
    pub format: u32,
    /// The number of logical processes.
    pub lps: u32,
    /// The end of the simulation in ticks, 1 to 2^40.
    pub end: u64,
    /// The words that distinguish the model from others, at most 8.
    pub identity: Listed<u64>,
}

impl Hello {
    /// The hello of a program that simulates this model up to an end, in ticks. `AllocError` if an
    /// allocation failed.
    pub fn of<M: Simulated>(alloc: Global, model: &M, end: u64) -> Result<Hello, AllocError>
        ensures { IfOk result (λ hello. hello ≡ hello_of (M.meaning model.now) end) }
    {
        let words = model.identity(alloc);
        let mut identity = Vec::new(alloc);
        identity.extend_from_slice(words.as_slice())?;
        Ok(Hello {
            format: FRAMES_FORMAT,
            lps: model.lps(),
            end,
            identity: Listed::from_vec(identity),
        })
    }

    /// Whether both are of the same simulation, over frames of the same format.
    pub fn agrees(&self, other: &Hello) -> bool
        ensures exact { result ≡ agrees self.now other.now }
        ensures same { result ≡ true → self.now ≡ other.now }
        ensures whole { self.now ≡ other.now → result ≡ true }
    {
        self.format == other.format
            && self.lps == other.lps
            && self.end == other.end
            && self.identity == other.identity
    }
}

/// Appends the body of a hello.
#[tactic(auto, unfolding(crate::specs::Hellos::hello_bytes))]
fn append_hello(out: &mut Vec<u8>, hello: &Hello) -> Result<(), AllocError>
    ensures { OnOk result (out.new.items ≡ out.old.items ++ hello_bytes hello.now) }
{
    append_u32(out, hello.format)?;
    append_u32(out, hello.lps)?;
    append_u64(out, hello.end)?;
    append_words(out, hello.identity.as_slice())
}

/// The frame of a hello. `AllocError` if an allocation failed.
#[tactic(auto, unfolding(crate::specs::Hellos::hello_frame))]
pub fn encode_hello(alloc: Global, hello: &Hello) -> Result<Vec<u8>, AllocError>
    ensures { IfOk result (λ frame. frame.items ≡ hello_frame hello.now) }
{
    let mut body = Vec::new(alloc);
    append_hello(&mut body, hello)?;
    let mut frame = Vec::new(alloc);
    append_count(&mut frame, body.len())?;
    frame.push(HELLO)?;
    frame.extend_from_slice(body.as_slice())?;
    Ok(frame)
}

/// Decodes a hello from all bytes of its frame's body; `None` if they do not encode one.
/// `AllocError` if an allocation failed.
#[tactic(auto, unfolding(crate::specs::Hellos::hello_in))]
pub fn read_hello(alloc: Global, bytes: &[u8]) -> Result<Option<Hello>, AllocError>
    ensures { IfOk result (λ hello. hello ≡ hello_in bytes.now) }
{
    let Some((format, rest)) = read_u32(bytes) else {
        return Ok(None);
    };
    let Some((lps, rest)) = read_u32(rest) else {
        return Ok(None);
    };
    let Some((end, rest)) = read_u64(rest) else {
        return Ok(None);
    };
    let Some((words, rest)) = read_words(alloc, rest)? else {
        return Ok(None);
    };
    let words = words.as_slice();
    let is_in_range = 1 <= end && end <= MOST_END && words.len() <= MOST_WORDS;
    if !is_in_range || !rest.is_empty() {
        return Ok(None);
    }
    let mut identity = Vec::new(alloc);
    identity.extend_from_slice(words)?;
    Ok(Some(Hello {
        format,
        lps,
        end,
        identity: Listed::from_vec(identity),
    }))
}
