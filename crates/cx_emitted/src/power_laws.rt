//! What follows for sources whose reset sets each register to 0, and that each source that is written is one: the functions do nothing.

ghost use Rattle.cx_emitted.specs.Power.{PowerIsForgotten, PowerStays};
ghost use Rattle.cx_emitted.specs.Resets.{EachIsReset};

/// Where the reset sets every register to 0, the run from any power-up state comes to what the run from zeros comes to. A state behind an
/// edge with reset is a power-up state again, so reset may be held for several cycles.
pub fn power_is_forgotten()
    ensures runs { PowerIsForgotten }
    ensures held { PowerStays }
{}

/// In each module of the source of a net the reset sets every register to 0.
pub fn sources_are_reset()
    ensures { EachIsReset }
{}
