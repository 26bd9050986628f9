// Sessions of a ring of three processes with two tokens, each of which a process holds for two ticks.

ghost use Rattle.std.specs.Prelude.{◌≡◌, length, map};
ghost use Rattle.coordinator.specs.Opening.{AllFresh};

use commitlog::format;
use coordinator::Session;
use disk::{MemDisk, NotOpened};
use models::TokenRing;
use recovery::header;
use std::alloc::Global;
use std::test::Fail;
use wire::Port;

pub const END: u64 = 10;

pub fn ring() -> TokenRing {
    TokenRing::new(3, 2, 2)
}

/// A disk of 64 sectors with an empty log of the ring.
pub fn formatted(alloc: Global, ring: &TokenRing) -> Result<MemDisk, Fail> {
    let mut disk = MemDisk::blank(alloc, 64)?;
    format(&mut disk, &header(alloc, ring, END))?;
    Ok(disk)
}

/// A session over these ports.
pub fn opened<'m, P: Port + Drop>(
    alloc: Global,
    ring: &'m TokenRing,
    ports: Vec<P>,
) -> Result<Session<'m, TokenRing, P, MemDisk>, Fail>
    requires three { length ports.items ≡ 3 }
    requires fresh { AllFresh (map P.state ports.items) }
{
    let disk = formatted(alloc, ring)?;
    match Session::open(alloc, ring, ports, disk, END) {
        Ok(session) => Ok(session),
        Err(NotOpened { fault, disk: _ }) => Err(Fail::from(fault)),
    }
}
