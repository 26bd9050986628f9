//! The parts of a disk over a file, generic in the file type so that tests can replace it.

pub use crate::file::load_from;
pub use crate::image::Image;
pub use crate::storing::{Stored, lengthen, reserve, shorten, store};
