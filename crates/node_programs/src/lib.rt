//! Nodes that are programs of their own, behind Unix sockets: starting or awaiting them,
//! connecting, greeting, serving, and clearing up. Nothing here needs a session.
#![tactic(auto)]

mod calls;
mod fault;
mod folders;
mod greeting;
mod model_text;
mod nodes;
mod pages;
mod processors;
mod simulation;

pub use calls::{Call, CallEnd, Calls, NodeStream};
pub use fault::NodesFault;
pub use folders::is_open_to_all;
pub use nodes::{Behind, Met, clear, meet, serve_on};
pub use processors::count_processors;
pub use simulation::{Apart, Simulation};
