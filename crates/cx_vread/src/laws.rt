//! What follows from the definitions of a sound source and of one that a tree holds.

ghost use Rattle.cx_vread.specs.Laws.{SoundIsHeld};

/// A tree holds every sound source.
pub fn sound_is_held()
    ensures { SoundIsHeld }
{}
