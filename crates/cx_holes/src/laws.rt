//! Laws of nets without holes: each function is empty, and its clause is the law.

ghost use Rattle.std.specs.Prelude.{◌↔◌, ◌≤◌, ℕ, List};
ghost use Rattle.cx_meaning.specs.Designs.{PlainDesign};
ghost use Rattle.cx_net.specs.NetFits.{HasNoHoles, HasTargets, IsFit};
ghost use Rattle.cx_net.specs.NetLimits.{IsWritable, nets_below};
ghost use Rattle.cx_net.specs.NetRuns.{AreWords, IsGrounded, NetRun};
ghost use Rattle.cx_net.specs.NetTree.{net_tree};
ghost use Rattle.cx_net.specs.Nets.{PlainNet};
ghost use Rattle.cx_vtree.specs.SimRun.{Outcome};
ghost use Rattle.cx_holes.specs.Inlining.{inlined};
ghost use Rattle.cx_holes.specs.Names.{HasFewWires, NetNames};

/// The net without holes comes to what the net comes to, where this names wires and holes that are there.
pub fn inlining_keeps_runs()
    ensures { (n : PlainNet) (loaded : List (List ℕ)) (last : ℕ) (o : Outcome) → NetNames n →
        NetRun (net_tree n) loaded last o ↔ NetRun (net_tree (inlined n)) loaded last o }
{}

/// All of it has a value in each state that it comes to, where all of the net has.
pub fn inlining_keeps_values()
    ensures { (n : PlainNet) (d : PlainDesign) → NetNames n → IsGrounded (AreWords d) (net_tree n) →
        IsGrounded (AreWords d) (net_tree (inlined n)) }
{}

/// It has no hole, and names wires that are there.
pub fn inlining_leaves_no_hole()
    ensures none { (n : PlainNet) → HasNoHoles (inlined n) }
    ensures names { (n : PlainNet) → NetNames n → NetNames (inlined n) }
{}

/// It fits where the net fits.
pub fn inlining_keeps_fit()
    ensures { (n : PlainNet) → NetNames n → IsFit n → IsFit (inlined n) }
{}

/// What its drivers drive is there, where the net's drivers drive what is there.
pub fn inlining_keeps_targets()
    ensures { (n : PlainNet) → NetNames n → HasTargets n → HasTargets (inlined n) }
{}

/// It can be written where the net can, if the wires that stand for its holes have numbers and leave its nets few enough.
pub fn inlining_keeps_limits()
    ensures { (n : PlainNet) → NetNames n → HasFewWires n → nets_below (net_tree (inlined n)) ≤ 4194304 →
        IsWritable n → IsWritable (inlined n) }
{}

/// A net that fits names wires and holes that are there, where the targets of its drivers are there.
pub fn fitting_nets_name_parts()
    ensures { (n : PlainNet) → IsFit n → HasTargets n → NetNames n }
{}
