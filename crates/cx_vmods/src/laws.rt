//! What follows from the definitions of the modules.

ghost use Rattle.cx_vmods.specs.Laws.{EachIsBuilt};

/// The module of each primitive of the table, the timer too, does what the primitive's row says, in any tree of instances in which
/// it stands within another.
pub fn each_is_built()
    ensures { EachIsBuilt }
{}
