// The states of a disk at earlier moments, a ghost value that only proofs read.
ghost use Rattle.std.specs.Prelude.{◌≡◌, ◌-◌, ◌++◌, List, [], ◌∷◌, length};
ghost use Rattle.std.specs.Borrow.{ftrue};
ghost use Rattle.disk.specs.Disk.{PastState, past_state};
ghost use Rattle.disk.specs.Growth.{growth};

use crate::image::Image;
use std::marker::Model;

/// What reads gave and which sectors were dirty at each earlier moment, the latest first. It takes
/// no memory.
#[derive(Drop)]
pub struct History {
    pub ghost past: { List PastState },
}

// It owns no memory.
impl Model for History {
    ghost also_owns = { λ _. ftrue };
}

impl History {
    pub fn new() -> History
        ensures { result.past ≡ [] }
    {
        History {}
    }

    /// Returns the history with one more moment: the state of this image.
    pub fn and(&self, _image: &Image) -> History
        ensures { result.past
            ≡ past_state _image.now.sectors.items _image.now.dirty.items ∷ self.now.past }
    {
        History {}
    }
    /// Returns the history with the moments during a growth from one image to a larger one.
    pub fn and_growth(&self, _image: &Image, _grown: &Image) -> History
        ensures { result.past ≡ growth _image.now.sectors.items _image.now.dirty.items
            (length _grown.now.sectors.items - length _image.now.sectors.items) ++ self.now.past }
    {
        History {}
    }
}
