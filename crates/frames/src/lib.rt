//! Frames of bytes between a session and its nodes: the length of a body,
//! its kind, and the body. Also the two ends of a stream of frames: the loop that serves a node, and
//! the port to a node in another program, with the hellos before it.
#![tactic(auto)]

ghost use Rattle.std.specs.Prelude.{◌≡◌};

mod ahead;
mod first_frame;
mod greeted;
mod greeting;
pub mod judging;
mod laws;
mod meeting;
mod node_loop;
mod output;
mod port;
mod ranges;
mod reaction;
mod reading;
mod single;
mod stream;
mod writing;

pub use ahead::ReadAhead;
pub use first_frame::{First, read_first, read_hello_frame};
pub use greeted::{Ending, serve_greeted};
pub use greeting::{FRAMES_FORMAT, Hello, encode_hello, read_hello};
pub use laws::{law_of_bodies, law_of_frames, law_of_hellos};
pub use meeting::{Heard, hear_hello, say_hello};
use node::{Load, NodeFault, Parcel, Reply};
pub use node_loop::serve;
pub use output::write_all;
pub use port::SocketPort;
pub use reaction::{Begun, Response, begin, react};
pub use reading::{read_load, read_parcel};
pub use single::{read_whole_frame, read_whole_raw};
pub use stream::{MOST_BYTES, Raw, read_frame, read_raw};
pub use writing::{encode_fault, encode_load, encode_parcel, encode_reply};

/// What a session and a node exchange.
#[derive(Drop)]
pub enum Frame {
    /// What a node is made from.
    Load(Load),
    /// What a node is posted.
    Parcel(Parcel),
    /// What a node returns for a parcel.
    Reply(Reply),
    /// Why a node refuses a load or a parcel.
    Fault(NodeFault),
}

/// The kind of a frame.
#[derive(Clone, Copy, Debug, PartialEq, Eq)]
pub enum FrameKind {
    /// What a node is made from.
    Load,
    /// What a node is posted.
    Parcel,
    /// What a node returns for a parcel.
    Reply,
    /// Why a node refuses a load or a parcel.
    Fault,
}
