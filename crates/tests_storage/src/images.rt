// Storing an image piece by piece, and loading one.
use crate::doubles::{Call, Calls};
use crate::shared::{are_filled, on_file, opened, read};
use disk::FileFault;
use disk::parts::{Image, lengthen, load_from, reserve, shorten, store};
use std::alloc::{AllocError, Global};
use std::fs::File;
use std::io;
use std::io::{ErrorKind, Read};
use std::path::PathBuf;
use std::test::Fail;

/// An image of eight sectors, with these dirty.
fn dirty_image(alloc: Global, dirty: &[u32]) -> Result<Image, AllocError> {
    let mut image = Image::blank(alloc, 8)?;
    for n in dirty {
        if *n < image.count() {
            image.mark_dirty(*n);
        }
    }
    Ok(image)
}

/// What is done to a file.
#[derive(Clone, Copy)]
enum Action {
    Store,
    /// The file gets 20 sectors.
    Lengthen,
    /// The file gets the size of the image; the flag says that it may be longer.
    Shorten(bool),
    /// Zeros are written to this many sectors.
    Reserve(u32),
}

fn succeeds(action: Action, file: &Calls, image: &Image) -> bool {
    match action {
        Action::Store => store(file, image).is_ok(),
        Action::Lengthen => lengthen(file, image, 20).is_ok(),
        Action::Shorten(longer) => shorten(file, image, longer).is_ok(),
        Action::Reserve(sectors) => reserve(file, sectors).is_ok(),
    }
}

/// Whether the action makes these calls and succeeds. If one of them fails, it must return an error
/// and make no call after it.
fn makes(action: Action, image: &Image, calls: &[Call]) -> bool {
    for fail in [0u64, 1, 2, 3, 4, 9] {
        let file = Calls::new(fail, None);
        let is_failure = fail < calls.len() as u64;
        if succeeds(action, &file, image) == is_failure || !file.were(calls) {
            return false;
        }
    }
    true
}

const RUNS: [Call; 4] = [
    Call::Write(0, 512),
    Call::Write(3 * 512, 3 * 512),
    Call::Write(7 * 512, 512),
    Call::SyncData,
];

/// Whether a store makes these calls, and the one after it only syncs.
fn are_stored_once(alloc: Global) -> Result<bool, Fail> {
    let mut image = dirty_image(alloc, &[0, 3, 4, 5, 7])?;
    let is_first = makes(Action::Store, &image, &RUNS);
    let stored = store(&Calls::new(9, None), &image)?;
    image.settle(stored);
    Ok(is_first && makes(Action::Store, &image, &[Call::SyncData]))
}

#[test]
fn neighbouring_sectors_are_written_by_one_call(rt: HostRuntime) -> Result<(), Fail> {
    assert!(rt; are_stored_once(rt.alloc())?);
    Ok(())
}

const LENGTHENED: [Call; 5] = [
    Call::Write(2 * 512, 512),
    Call::Write(5 * 512, 512),
    Call::SyncData,
    Call::SetLen(20 * 512),
    Call::SyncAll,
];

#[test]
fn a_file_that_grows_is_synced_before_and_after(rt: HostRuntime) -> Result<(), Fail> {
    let image = dirty_image(rt.alloc(), &[2, 5])?;
    assert!(rt; makes(Action::Lengthen, &image, &LENGTHENED));
    Ok(())
}

const SHORTENED: [Call; 5] = [
    Call::SetLen(8 * 512),
    Call::SyncAll,
    Call::Write(2 * 512, 512),
    Call::Write(5 * 512, 512),
    Call::SyncData,
];

#[test]
fn a_possibly_longer_file_is_truncated_first(rt: HostRuntime) -> Result<(), Fail> {
    let image = dirty_image(rt.alloc(), &[2, 5])?;
    assert!(rt; makes(Action::Shorten(true), &image, &SHORTENED));
    assert!(rt; makes(Action::Shorten(false), &image, &LENGTHENED[..3]));
    Ok(())
}

const PIECES: [Call; 3] = [
    Call::Write(0, 65_536),
    Call::Write(65_536, 65_536),
    Call::Write(131_072, 44 * 512),
];

#[test]
fn the_room_of_a_file_is_written_in_pieces(rt: HostRuntime) -> Result<(), Fail> {
    let image = dirty_image(rt.alloc(), &[])?;
    assert!(rt; makes(Action::Reserve(300), &image, &PIECES));
    assert!(rt; makes(Action::Reserve(256), &image, &PIECES[..2]));
    Ok(())
}

// A read may fail after some bytes, and the file may have become shorter.

/// Returns `left` bytes, all 7, at most 1,000 per call. Then it fails or is at its end.
#[derive(Drop)]
struct Sevens {
    left: usize,
    fails: bool,
}

impl Read for Sevens {
    fn read(&mut self, buf: &mut [u8]) -> io::Result<usize> {
        if self.left == 0 && self.fails {
            return Err(io::Error::from(ErrorKind::Other));
        }
        let count = buf.len().min(self.left).min(1000);
        for place in 0..count {
            buf[place] = 7;
        }
        self.left -= count;
        Ok(count)
    }
}

/// Whether loading an image of 200 sectors from such a reader gives this fault, and leaves this
/// first byte in the last sector.
fn is_loaded(
    alloc: Global,
    left: usize,
    fails: bool,
    expected: (Option<FileFault>, u8),
) -> Result<bool, AllocError> {
    let mut image = Image::blank(alloc, 200)?;
    let fault = load_from(alloc, Sevens { left, fails }, &mut image).err();
    Ok(image.count() == 200 && (fault, image.sector(199)[0]) == expected)
}

const TOO_FEW: [usize; 5] = [0, 511, 512, 70_000, 102_399];

fn are_too_few(alloc: Global) -> Result<bool, AllocError> {
    let expected = (Some(FileFault::File), 0);
    for left in TOO_FEW {
        if !is_loaded(alloc, left, true, expected)? || !is_loaded(alloc, left, false, expected)? {
            return Ok(false);
        }
    }
    Ok(true)
}

#[test]
fn a_load_fails_if_a_read_fails(rt: HostRuntime) -> Result<(), Fail> {
    assert!(rt; are_too_few(rt.alloc())?);
    assert!(rt; is_loaded(rt.alloc(), 102_400, true, (None, 7))?);
    Ok(())
}

/// Eight sectors, with 1, 3, 4 and 7 dirty, each filled with its number or as by `numbered`.
fn dirty_four(alloc: Global, is_filled: bool) -> Result<Image, AllocError> {
    let mut image = dirty_image(alloc, &[1, 3, 4, 7])?;
    for n in [1u8, 3, 4, 7] {
        if u32::from(n) < image.count() {
            image.put(
                u32::from(n),
                &if is_filled { [n; 512] } else { numbered(n) },
            );
        }
    }
    Ok(image)
}

/// Stores an image in a new file of eight sectors that writes at most `most` bytes per call and
/// fails after `calls` calls. Returns whether it succeeds.
fn store_in_part(
    rt: &HostRuntime,
    path: &PathBuf,
    image: &Image,
    most: usize,
    calls: u64,
) -> io::Result<bool> {
    let file = File::create(rt, path.as_path())?;
    file.set_len(8 * 512)?;
    Ok(store(&Calls::new(calls, Some((file, most))), image).is_ok())
}

/// A sector whose content differs from that of each other number, and changes from byte to byte.
fn numbered(n: u8) -> [u8; 512] {
    let mut sector = [0; 512];
    for place in 0..512 {
        sector[place] = ((place % 256) as u8).wrapping_mul(n);
    }
    sector
}

/// Whether the disk has the four sectors of `numbered`, and zeros elsewhere.
fn has_numbered(rt: &HostRuntime, path: &PathBuf) -> Result<bool, Fail> {
    let mut disk = opened(rt, path, Some(8))?;
    for n in [1u8, 3, 4, 7] {
        if read(&mut disk, u32::from(n))? != numbered(n) {
            return Ok(false);
        }
    }
    Ok(are_filled(&mut disk, &[(0, 0), (2, 0), (5, 0), (6, 0)])?)
}

fn is_continued(rt: &HostRuntime, path: &PathBuf) -> Result<bool, Fail> {
    let image = dirty_four(rt.alloc(), false)?;
    for most in [1, 100, 512, 1000] {
        if !store_in_part(rt, path, &image, most, u64::MAX)? || !has_numbered(rt, path)? {
            return Ok(false);
        }
    }
    // a file that writes nothing does not make the store loop for ever
    Ok(!store_in_part(rt, path, &image, 0, u64::MAX)?)
}

#[test]
fn a_partial_write_is_continued(rt: HostRuntime) -> Result<(), Fail> {
    assert!(rt; on_file(&rt, "sparing", is_continued)?);
    Ok(())
}

/// Numbers of writes, and what fills the dirty sectors after them.
const ENDED: [(u64, [u8; 4]); 4] = [
    (0, [0, 0, 0, 0]),
    (1, [1, 0, 0, 0]),
    (2, [1, 3, 4, 0]),
    (3, [1, 3, 4, 7]),
];

/// Whether the dirty sectors are filled so, and the others with zeros.
fn has_four(rt: &HostRuntime, path: &PathBuf, four: [u8; 4]) -> Result<bool, Fail> {
    let mut disk = opened(rt, path, Some(8))?;
    let [one, three, four, seven] = four;
    let filled = [
        (0, 0),
        (1, one),
        (2, 0),
        (3, three),
        (4, four),
        (5, 0),
        (6, 0),
        (7, seven),
    ];
    Ok(are_filled(&mut disk, &filled)?)
}

// A program may end at any moment, also between two writes of a sync. The file keeps what was
// written before.
fn keeps_what_it_wrote(rt: &HostRuntime, path: &PathBuf) -> Result<bool, Fail> {
    let image = dirty_four(rt.alloc(), true)?;
    for (writes, four) in ENDED {
        if store_in_part(rt, path, &image, 4096, writes)? || !has_four(rt, path, four)? {
            return Ok(false);
        }
    }
    Ok(true)
}

#[test]
fn a_program_that_ends_during_a_sync_leaves_what_it_wrote(rt: HostRuntime) -> Result<(), Fail> {
    assert!(rt; on_file(&rt, "ended", keeps_what_it_wrote)?);
    Ok(())
}
