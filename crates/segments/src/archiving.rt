// Archiving: a disk that is full gets a second name, and a segment that goes on from its world
// takes its place, so that a run needs neither a longer disk nor memory for the whole log.

mod beginning;
mod changing;
mod fault;
mod left;
mod naming;
mod parts;
mod reading;

pub use beginning::begin_on;
pub use changing::{ArchivePlace, Archived, NotArchived, archive};
pub use fault::ArchiveFault;
pub use left::{Left, is_begun, left_on};
pub use parts::{remove_parts, remove_second_names};
pub use reading::{
    beginning_in, events_before, front_on, may_have_origin, may_have_origin_in_row, origin_on,
};
