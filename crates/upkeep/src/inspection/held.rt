// The sectors of a disk of which memory holds only some.
ghost use Rattle.std.specs.Prelude.{◌≡◌, ◌<◌, ◌^◌, ◌++◌, ◌∷◌, [], true, false, length, replicate};
ghost use Rattle.std.specs.Prelude.{slice_set, slice_index_or, IfOk, IfSome};
ghost use Rattle.std.specs.Prelude.{OnSome, IfNone};
ghost use Rattle.disk.specs.Disk.{IsSector, zero_sector};
ghost use Rattle.upkeep.specs.Part.{AreSectors};

use disk::{SECTOR_BYTES, Sector};
use std::alloc::{AllocError, Global};
use std::marker::Model;

/// The sectors of a disk, of which memory holds only some: 4 bytes for each sector of the disk, and
/// 512 for each one that is held.
#[derive(Drop)]
pub(crate) struct Held {
    /// For each sector its place in `kept`; 0 if it is not held.
    places: Vec<u32>,
    /// A sector of zeros, and then the held ones.
    kept: Vec<Sector>,
}

impl Model for Held {
    ghost use Rattle.upkeep.specs.Part.{HeldSectors, held_of, HasPlaces};

    ghost Value = { HeldSectors };

    ghost view = { held_of };

    ghost invariant = { HasPlaces };
}

/// Returns the place 0 `count` times.
fn no_places(alloc: Global, count: u32) -> Result<Vec<u32>, AllocError>
    ensures { IfOk result (λ places. places.items ≡ replicate count 0) }
{
    vec![in alloc; 0; count as usize]
}

/// Returns a sector of zeros.
fn one_sector(alloc: Global) -> Result<Vec<Sector>, AllocError>
    ensures items { IfOk result (λ kept. kept.items ≡ zero_sector ∷ []) }
    ensures whole { IfOk result (λ kept. AreSectors kept.items) }
{
    let zeros = [0; SECTOR_BYTES];
    is_sector(zeros);
    let mut kept = Vec::with_capacity(alloc, 1)?;
    kept.push(zeros)?;
    Ok(kept)
}

impl Held {
    /// Returns `count` sectors, none of them held.
    pub(crate) fn none(alloc: Global, count: u32) -> Result<Held, AllocError>
        ensures items { IfOk result (λ all. all.items ≡ replicate count zero_sector) }
        ensures held { IfOk result (λ all. all.held ≡ replicate count false) }
        ensures count { IfOk result (λ all. length all.items ≡ count) }
    {
        let places = no_places(alloc, count)?;
        let kept = one_sector(alloc)?;
        Ok(Held { places, kept })
    }

    /// Returns the number of sectors.
    pub(crate) fn count(&self) -> u32
        ensures count { result ≡ length self.now.items }
        ensures few { length self.now.items < 2 ^ 32 }
        ensures whole { AreSectors self.now.items }
    {
        self.places.len() as u32
    }

    /// Returns the content of a sector, if it is held.
    pub(crate) fn get(&self, n: u32) -> Option<&Sector>
        ensures content { IfSome result (λ sector. slice_index_or self.now.items n [] ≡ sector.now) }
        ensures held { OnSome result (slice_index_or self.now.held n false ≡ true) }
        ensures none { IfNone result (slice_index_or self.now.held n false ≡ false) }
    {
        let place = *self.places.get(n as usize)? as usize;
        if place == 0 {
            return None;
        }
        Some(&self.kept[place])
    }

    /// Holds this content of a sector. If that sector is held, its content stays. Returns `None` if
    /// there is no such sector, or an allocation failed.
    pub(crate) fn put(&mut self, n: usize, sector: &Sector) -> Option<()>
        ensures first { OnSome result (slice_index_or self.old.held n false ≡ false →
            self.new.items ≡ slice_set self.old.items n sector.now) }
        ensures held { OnSome result (slice_index_or self.old.held n false ≡ false →
            self.new.held ≡ slice_set self.old.held n true) }
        ensures again { slice_index_or self.old.held n false ≡ true → self.new ≡ self.old }
        ensures none { IfNone result (self.new ≡ self.old) }
        ensures count { length self.new.items ≡ length self.old.items }
    {
        if n >= self.places.len() {
            return None;
        }
        if self.places[n] != 0 {
            return Some(());
        }
        let place = self.kept.len();
        if place > u32::MAX as usize {
            return None;
        }
        is_sector(*sector);
        push(&mut self.kept, sector)?;
        self.places[n] = place as u32;
        Some(())
    }
}

/// An array of 512 bytes is a sector.
fn is_sector(sector: Sector)
    ensures { IsSector sector }
{}

/// Appends a sector. Returns `None` if an allocation failed.
fn push(kept: &mut Vec<Sector>, sector: &Sector) -> Option<()>
    ensures more { OnSome result (kept.new.items ≡ kept.old.items ++ (sector.now ∷ [])) }
    ensures none { IfNone result (kept.new.items ≡ kept.old.items) }
{
    kept.push(*sector).ok()?;
    Some(())
}
