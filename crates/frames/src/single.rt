// Reads frames from bytes that are one frame and nothing more.

ghost use Rattle.std.specs.Prelude.{◌≡◌, IfOk};
ghost use Rattle.frames.specs.Cutting.{raw_in, whole_in};

use crate::Frame;
use crate::reading::read_body;
use crate::stream::{MOST_BYTES, Raw, kind_of};
use eventkey::{Listed, read_u8, read_u32};
use std::alloc::{AllocError, Global};

/// The frame that takes up all of the bytes, with its body not decoded; `None` if they are not one
/// frame. Copies the body. There is no reader, so it fails only if an allocation failed.
#[tactic(auto, unfolding(crate::specs::Cutting::raw_in))]
pub fn read_whole_raw(alloc: Global, bytes: &[u8]) -> Result<Option<Raw>, AllocError>
    ensures { IfOk result (λ raw. raw ≡ raw_in bytes.now) }
{
    let Some((size, rest)) = read_u32(bytes) else {
        return Ok(None);
    };
    let Some((number, body)) = read_u8(rest) else {
        return Ok(None);
    };
    let Some(kind) = kind_of(number) else {
        return Ok(None);
    };
    if size > MOST_BYTES || body.len() != size as usize {
        return Ok(None);
    }
    let mut copy = Vec::new(alloc);
    copy.extend_from_slice(body)?;
    Ok(Some(Raw {
        kind,
        body: Listed::from_vec(copy),
    }))
}

/// Decodes a frame from all of the bytes; `None` if they do not encode one. Copies the body.
pub fn read_whole_frame(alloc: Global, bytes: &[u8]) -> Result<Option<Frame>, AllocError>
    ensures { IfOk result (λ frame. frame ≡ whole_in bytes.now) }
{
    match read_whole_raw(alloc, bytes)? {
        Some(raw) => read_body(alloc, raw.kind, raw.body.as_slice()),
        None => Ok(None),
    }
}
