//! What gives each net its value.

ghost use Rattle.std.specs.Prelude.{◌≡◌, ◌<◌, ℕ, List, Some, length, slice_get, true, false};
ghost use Rattle.cx_vtree.specs.declared.meanings.Meaning.TheVariants.{Register};
ghost use Rattle.cx_vtree.specs.Plain.{PlainSource, PlainPort, PlainAssign, PlainConn};
ghost use Rattle.cx_vtree.specs.InstanceTree.{Placed, ports_at, instances_of, Origin, Outside, Tied, Held, Given, origin_of};
ghost use Rattle.cx_vtree.specs.Sound.{is_driven, is_sound};
ghost use Rattle.cx_vlaws.specs.Widths.{scope_at};
ghost use Rattle.cx_vlaws.specs.Origins.{IsNet, width_at, IsThere};
ghost use Rattle.cx_vlaws.specs.Drivers.{IsDriven};

/// Each net has an origin: the net that it is tied to is there and is as wide, an expression names what is there and is as
/// wide, and only `main` has inputs from outside.
pub fn nets_have_origins()
    ensures { (source : PlainSource) (i : ℕ) (name : List ℕ) → is_sound source ≡ true →
        IsNet (instances_of source) i name
        → (o : Origin) × (origin_of (instances_of source) i name ≡ Some o)
        × IsThere (instances_of source) i (width_at (instances_of source) i name) o }
{}

/// Each instance but `main` stands after the one that holds it.
pub fn instances_are_held()
    ensures { (source : PlainSource) (i : ℕ) (p : Placed) → is_sound source ≡ true
        → slice_get (instances_of source) i ≡ Some p → (i ≡ 0 → ⊥)
        → (p.holder < i) × ((q : Placed) × (slice_get (instances_of source) p.holder ≡ Some q)) }
{}

/// An instance but `main` has a connection for each port, and no others.
pub fn connections_are_of_ports()
    ensures { (source : PlainSource) (i : ℕ) (p : Placed) → is_sound source ≡ true
        → slice_get (instances_of source) i ≡ Some p → (i ≡ 0 → ⊥) → length p.conns ≡ length p.part.ports }
{}

/// An input of an instance but `main` is tied to the net that it is connected to, by the connection at the port's own place.
pub fn inputs_are_tied()
    ensures { (source : PlainSource) (i k : ℕ) (p : Placed) (port : PlainPort) → is_sound source ≡ true
        → slice_get (instances_of source) i ≡ Some p → (i ≡ 0 → ⊥)
        → slice_get p.part.ports k ≡ Some port → port.output ≡ false
        → (c : PlainConn) × (slice_get p.conns k ≡ Some c) × (c.port ≡ port.name)
        × (origin_of (instances_of source) i port.name ≡ Some (Tied p.holder c.net)) }
{}

/// A net that an output of an instance is connected to is tied to that output, and so to no other one.
pub fn outputs_are_tied()
    ensures { (source : PlainSource) (i k : ℕ) (p : Placed) (port : PlainPort) → is_sound source ≡ true
        → slice_get (instances_of source) i ≡ Some p → (i ≡ 0 → ⊥)
        → slice_get p.part.ports k ≡ Some port → port.output ≡ true
        → (c : PlainConn) × (slice_get p.conns k ≡ Some c) × (c.port ≡ port.name)
        × (origin_of (instances_of source) p.holder c.net ≡ Some (Tied i port.name)) }
{}

/// A net that an expression is assigned to is given by it.
pub fn assigned_are_given()
    ensures { (source : PlainSource) (i k : ℕ) (p : Placed) (a : PlainAssign) → is_sound source ≡ true
        → slice_get (instances_of source) i ≡ Some p → slice_get p.part.assigns k ≡ Some a
        → origin_of (instances_of source) i a.name ≡ Some (Given a.value) }
{}

/// A wire or an output has a driver: an assigned expression, or an output of an instance.
pub fn driven_nets_have_drivers()
    ensures { (source : PlainSource) (i : ℕ) (p : Placed) (n : List ℕ) → is_sound source ≡ true
        → slice_get (instances_of source) i ≡ Some p → is_driven (scope_at (instances_of source) i n) ≡ true
        → IsDriven (instances_of source) i p n }
{}

/// A register holds its value.
pub fn registers_are_held()
    ensures { (source : PlainSource) (i w : ℕ) (n : List ℕ) → is_sound source ≡ true
        → scope_at (instances_of source) i n ≡ Register w → origin_of (instances_of source) i n ≡ Some (Held w) }
{}

/// The inputs of `main` have their values from outside.
pub fn inputs_of_main_are_outside()
    ensures { (source : PlainSource) (k : ℕ) (port : PlainPort) → is_sound source ≡ true
        → slice_get (ports_at (instances_of source) 0) k ≡ Some port → port.output ≡ false
        → origin_of (instances_of source) 0 port.name ≡ Some Outside }
{}
