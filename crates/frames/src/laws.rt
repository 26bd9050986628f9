// Laws of frames, as contracts of functions that do nothing.

ghost use Rattle.frames.specs.Laws.{BodiesAreCanonical, FramesAreReadBack, FramesAreReadWhole};
ghost use Rattle.frames.specs.HelloLaws.{HellosAreCanonical, HellosAreReadBack};
ghost use Rattle.frames.specs.Laws.{FramesAreCanonical, NoByteIsLeftOver};

/// Each frame has one encoding: what is written is read back, whatever follows, and what is read
/// has exactly this encoding.
pub fn law_of_frames()
    ensures again { FramesAreReadBack }
    ensures whole { FramesAreReadWhole }
    ensures encoded { FramesAreCanonical }
{}

/// Each body has one encoding, and a body with further bytes after it is refused.
pub fn law_of_bodies()
    ensures encoded { BodiesAreCanonical }
    ensures whole { NoByteIsLeftOver }
{}

/// Each hello has one encoding, which is read back whatever follows.
pub fn law_of_hellos()
    ensures again { HellosAreReadBack }
    ensures encoded { HellosAreCanonical }
{}
