//! The commands on disks that need no session: `reopen`, `cut`, `recover`, `grow`, and `new` of a disk
//! that goes on from another one; and the fault of each command, with what is printed below it.
#![tactic(auto)]

mod advising;
mod beginning;
mod disks;
mod fault;
mod keeping;
mod repairing;
mod said;
mod verifying;

pub use advising::{Asked, Noted, advise, has_few_rounds};
pub use beginning::new_behind;
pub use disks::{
    NewFile, disk_with_log, grow_on, is_blank, open_new, open_old, refuse_contents, reopen_on,
};
pub use fault::Fault;
pub use keeping::{Keeping, text_to_keep};
pub use repairing::{cut_on, recover_on};
pub use said::SystemErrors;
pub use verifying::Verifying;
