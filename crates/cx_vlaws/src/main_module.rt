//! The instance of `main`, and its clock.

ghost use Rattle.std.specs.Prelude.{◌≡◌, List, [], Some, slice_get, true, false, codes};
ghost use Rattle.cx_vtree.specs.Plain.{PlainExpr, PlainSource};
ghost use Rattle.cx_vtree.specs.InstanceTree.{Placed, instances_of};
ghost use Rattle.cx_vtree.specs.Sound.{Scope, misnames, is_sound};
ghost use Rattle.cx_vlaws.specs.MainPorts.{main_ports, reads_net};

/// Instance 0 is there, it is held by itself, nothing is connected to it, and it has the ports of `main` and no others.
pub fn main_comes_first()
    ensures { (source : PlainSource) → is_sound source ≡ true
        → (p : Placed) × (slice_get (instances_of source) 0 ≡ Some p) × (p.part.name ≡ codes "main")
        × (p.part.ports ≡ main_ports) × (p.holder ≡ 0) × (p.conns ≡ []) }
{}

/// An expression that names what is there does not read the clock.
pub fn clock_is_unread()
    ensures { (scope : Scope) (e : PlainExpr) → misnames scope e ≡ false → reads_net e (codes "clk") ≡ false }
{}
