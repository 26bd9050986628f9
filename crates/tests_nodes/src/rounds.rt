// The nodes of a whole run, byte for byte.

use crate::frames_of_ring::{RUN_0, RUN_1, RUN_2, Run};
use crate::in_memory::{MANY, NEVER, Pieces, serve_ring};
use std::alloc::{AllocError, Global};
use std::test::Fail;

/// Whether a node gives the replies of this run to its frames, up to `limit` of them.
fn is_answered(alloc: Global, run: &Run, limit: u64) -> Result<bool, AllocError> {
    let stream = run.frames.as_slice().concat(alloc)?;
    let replies = run.replies.as_slice().concat(alloc)?;
    let mut reader = Pieces::of(stream.as_slice(), 7, NEVER);
    let mut text = Vec::new(alloc);
    let answer = serve_ring(alloc, &mut reader, &mut text, limit);
    Ok(answer == Ok(3) && text.as_slice() == replies.as_slice() && reader.rest.is_empty())
}

#[test]
fn three_nodes_answer_the_rounds_of_a_run(rt: HostRuntime) -> Result<(), Fail> {
    for run in [&RUN_0, &RUN_1, &RUN_2] {
        for limit in [3, MANY, u64::MAX] {
            assert!(rt; is_answered(rt.alloc(), run, limit)?, "{limit}");
        }
    }
    Ok(())
}
