// Ten thousand streams of hostile bytes, compared with the simplest possible decoder: it walks over
// the numbers of a frame and keeps nothing.

use super::*;

/// The bytes that the walk has not passed yet, and whether all before them are right. A number that
/// is cut short or too large is wrong, and counts as 0.
#[derive(Drop)]
struct Walk<'a> {
    rest: &'a [u8],
    is_right: bool,
}

impl<'a> Walk<'a> {
    fn over(rest: &'a [u8]) -> Walk<'a> {
        Walk {
            rest,
            is_right: true,
        }
    }

    fn number(&mut self, size: usize) -> u64 {
        if self.rest.len() < size {
            self.is_right = false;
            return 0;
        }
        let (front, rest) = self.rest.split_at(size);
        let mut number: u64 = 0;
        for byte in front {
            number = number.wrapping_mul(256).wrapping_add(u64::from(*byte));
        }
        self.rest = rest;
        number
    }

    fn at_most(&mut self, size: usize, most: u64) -> u64 {
        let number = self.number(size);
        if number > most {
            self.is_right = false;
            return 0;
        }
        number
    }

    fn message(&mut self) {
        self.at_most(8, (1 << 41) - 1);
        for size in [4, 8, 4, 8, 8, 8, 8] {
            self.number(size);
        }
    }

    fn messages(&mut self, count: u64) {
        for _ in 0..count {
            if !self.is_right {
                return;
            }
            self.message();
        }
    }

    fn signed_list(&mut self) {
        let count = self.number(4);
        for _ in 0..count {
            if !self.is_right {
                return;
            }
            self.at_most(1, 1);
            self.message();
        }
    }

    fn words(&mut self) {
        let count = self.at_most(1, 16);
        for _ in 0..count {
            self.number(8);
        }
    }

    fn part(&mut self) {
        self.number(4);
        self.at_most(8, 1 << 63);
        self.words();
        let pending = self.number(4);
        self.messages(pending);
    }

    fn load(&mut self) {
        let node = self.number(4);
        let nodes = self.at_most(4, 64);
        let end = self.at_most(8, 1 << 40);
        let floor = self.number(8);
        let count = self.number(4);
        for _ in 0..count {
            if !self.is_right {
                return;
            }
            self.part();
        }
        self.is_right = self.is_right && node < nodes && 1 <= end && floor <= end;
    }

    fn parcel(&mut self) {
        self.signed_list();
        self.number(4);
        self.at_most(8, 1 << 40);
    }

    fn fossil(&mut self) {
        self.message();
        let sent = self.at_most(1, 8);
        self.messages(sent);
        self.words();
        self.at_most(8, 1 << 63);
    }

    fn reply(&mut self) {
        self.signed_list();
        if self.at_most(1, 1) == 1 {
            self.at_most(8, (1 << 41) - 1);
        }
        let fossils = self.number(4);
        for _ in 0..fossils {
            if !self.is_right {
                return;
            }
            self.fossil();
        }
        self.number(4);
    }

    fn fault(&mut self) {
        if self.at_most(1, 6) == 0 {
            self.is_right = false;
        }
    }

    /// Whether all bytes are the body of a frame of this kind.
    fn is_body(&mut self, kind: u64) -> bool {
        match kind {
            1 => self.load(),
            2 => self.parcel(),
            3 => self.reply(),
            _ => self.fault(),
        }
        self.is_right && self.rest.is_empty()
    }
}

/// The length of the first frame in bytes, or its fault.
fn judged(bytes: &[u8]) -> Result<Option<usize>, WireFault> {
    if bytes.is_empty() {
        return Ok(None);
    }
    let mut walk = Walk::over(bytes);
    let length = walk.number(4);
    if length > 1 << 24 {
        return Err(WireFault::TooLong);
    }
    let kind = walk.number(1);
    if !walk.is_right {
        return Err(WireFault::Truncated);
    }
    if kind < 1 || kind > 4 {
        return Err(WireFault::BadKind);
    }
    let length = length as usize;
    if walk.rest.len() < length {
        return Err(WireFault::Truncated);
    }
    let mut body = Walk::over(walk.rest.split_at(length).0);
    if body.is_body(kind) {
        Ok(Some(length.saturating_add(5)))
    } else {
        Err(WireFault::BadBody)
    }
}

/// Pseudorandom numbers (xorshift, Marsaglia 2003).
#[derive(Drop)]
struct Random {
    word: u64,
}

impl Random {
    fn below(&mut self, bound: u64) -> u64 {
        let mut word = self.word;
        word ^= (word & 0x7_ffff_ffff_ffff) << 13;
        word ^= word >> 7;
        word ^= (word & 0x7fff_ffff_ffff) << 17;
        self.word = word;
        word.checked_rem(bound).unwrap_or(0)
    }
}

/// Two frames.
fn two_frames(alloc: Global, random: &mut Random) -> Result<Vec<u8>, AllocError> {
    let frames: [&[u8]; 5] = [LOAD_1, PARCEL, REPLY, &LADEN, BELOW_FLOOR];
    let mut bytes = Vec::new(alloc);
    for _ in 0..2 {
        let chosen = random.below(5) as usize;
        bytes.extend_from_slice(frames.get(chosen).copied().unwrap_or(&[]))?;
    }
    Ok(bytes)
}

/// Changes up to two of these bytes.
fn damage(bytes: &mut [u8], random: &mut Random) {
    for _ in 0..random.below(3) {
        let place = random.below(bytes.len() as u64) as usize;
        let byte = (random.below(256) & 255) as u8;
        let small = (random.below(5) & 7) as u8;
        if let Some(old) = bytes.get_mut(place) {
            *old = if small > 2 { byte } else { small };
        }
    }
}

/// Two frames with some bytes changed, and maybe cut short.
fn damaged(alloc: Global, random: &mut Random) -> Result<Vec<u8>, AllocError> {
    let mut bytes = two_frames(alloc, random)?;
    damage(bytes.as_mut_slice(), random);
    let left = random.below((bytes.len() as u64).saturating_add(1)) as usize;
    if random.below(3) == 0 {
        bytes.truncate(left);
    }
    Ok(bytes)
}

/// Random bytes, most of them small.
fn noise(alloc: Global, random: &mut Random) -> Result<Vec<u8>, AllocError> {
    let mut bytes = Vec::new(alloc);
    for place in 0..random.below(40) {
        let bound = if place < 3 || random.below(8) > 0 {
            3
        } else {
            256
        };
        bytes.push((random.below(bound) & 255) as u8)?;
    }
    Ok(bytes)
}

/// Whether the first frame is read with the result of the plain decoder, and its encoding is what was
/// read.
fn is_read_alike(alloc: Global, bytes: &[u8], size: usize) -> Result<bool, WireFault> {
    let read = read_frame(alloc, &mut Pieces::of(bytes, size, NEVER));
    let judged = judged(bytes);
    Ok(match read {
        Ok(None) => judged == Ok(None),
        Ok(Some(frame)) => {
            let encoded = encoded(alloc, &frame)?;
            judged == Ok(Some(encoded.len())) && bytes.starts_with(encoded.as_slice())
        }
        Err(fault) => judged == Err(fault),
    })
}

#[test]
fn hostile_streams_match_the_plain_decoder(rt: HostRuntime) -> Result<(), Fail> {
    let mut random = Random {
        word: 0x9e37_79b9_7f4a_7c15,
    };
    for round in 0..5000u64 {
        let size = if round < 2500 { 7 } else { 4096 };
        let bytes = damaged(rt.alloc(), &mut random)?;
        assert!(rt; is_read_alike(rt.alloc(), bytes.as_slice(), size)?);
        let bytes = noise(rt.alloc(), &mut random)?;
        assert!(rt; is_read_alike(rt.alloc(), bytes.as_slice(), size)?);
    }
    Ok(())
}
