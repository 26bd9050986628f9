// The laws of growth.

ghost use Rattle.upkeep.specs.Growing.{GenuineStays, HeldLogStays, ReplayStays, RepresentationStays};
ghost use Rattle.upkeep.specs.Growing.{RepresentationAtLeastStays, RepresentationUnderItsEndStays};

/// With any sectors after it, an image represents the same world, at least at the same time, also
/// under its own end; it holds the same log of a model, which is replayed to the same world; and
/// its log is genuine if it was.
///
/// The function has no effect. Its contract is the law.
pub fn law_of_growth()
    ensures representation { RepresentationStays }
    ensures at_least { RepresentationAtLeastStays }
    ensures under_its_end { RepresentationUnderItsEndStays }
    ensures held { HeldLogStays }
    ensures replay { ReplayStays }
    ensures genuine { GenuineStays }
{}
