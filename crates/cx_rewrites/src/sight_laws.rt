//! Laws of what ports are seen as: each function does nothing, and its clause is the law.

ghost use Rattle.std.specs.Prelude.{◌≡◌, ℕ, true, Some, map};
ghost use Rattle.cx_text.specs.Members.{In};
ghost use Rattle.cx_prim.specs.declared.ports.Side.TheVariants.{Output};
ghost use Rattle.cx_prim.specs.Rows.{Row};
ghost use Rattle.cx_meaning.specs.declared.ports.PortRef.{PortRef};
ghost use Rattle.cx_meaning.specs.declared.ports.PortRef.TheVariants.{Cell};
ghost use Rattle.cx_meaning.specs.declared.sights.Seen.{Seen};
ghost use Rattle.cx_meaning.specs.Rows.{side_of};
ghost use Rattle.cx_meaning.specs.Designs.{PlainComponent};
ghost use Rattle.cx_meaning.specs.Instances.{Instance, OfRow, State, cell_at, cells_of, part_of};
ghost use Rattle.cx_meaning.specs.Active.{Active, Owned, drivers, offset_of, source_order};
ghost use Rattle.cx_meaning.specs.Sights.{Held, Look, Sees, seen};
ghost use Rattle.cx_rules.specs.Circles.{AcyclicBelow, IsAcyclic};
ghost use Rattle.cx_rules.specs.Footprints.{AssignNames, Depends, Leads};
ghost use Rattle.cx_rules.specs.RaceRule.{HasCycle};
ghost use Rattle.cx_rewrites.specs.Moving.{moved_acting, moved_assign, moved_group};
ghost use Rattle.cx_rewrites.specs.Solving.{Solves};
ghost use Rattle.cx_rewrites.specs.Moves.{Moves};
ghost use Rattle.cx_rewrites.specs.Driving.{Between, KeepsApart, assigns_of};
ghost use Rattle.cx_rewrites.specs.Renaming.{IsRenamed, Renames, renamed};

use crate::rewriting::Rewriting;

/// A look that is, at each port of a closed set, what one step gives over the look itself, gives there what is seen.
pub fn solved_is_seen<W: Rewriting>()
    ensures seen { (i : Instance) (held : Held) (act : Active) (s : State) (look : Look) (p : PortRef) (x : Seen)
        → Solves i held act s W.inside look → W.inside p → Sees i held act s p x → look p ≡ x }
    ensures found { (i : Instance) (held : Held) (act : Active) (s : State) (look : Look) (p : PortRef)
        → IsAcyclic i act → AcyclicBelow (cells_of i) → Solves i held act s W.inside look → W.inside p
        → look p ≡ seen i held act s p }
{}

/// What a port is seen as in an instance, the port that it is moved to is seen as in the other.
pub fn seen_moves<W: Rewriting>()
    ensures seen { (move : PortRef → PortRef) (i j : Instance) (held twin_held : Held) (act more : Active)
        (s z : State) (p : PortRef) (x : Seen)
        → Moves move i j held twin_held act more s z W.inside → IsAcyclic j more → AcyclicBelow (cells_of j)
        → W.inside p → Sees i held act s p x → seen j twin_held more z (move p) ≡ x }
    ensures found { (move : PortRef → PortRef) (i j : Instance) (held twin_held : Held)
        (act more : Active) (s z : State) (p : PortRef)
        → Moves move i j held twin_held act more s z W.inside → IsAcyclic j more → AcyclicBelow (cells_of j)
        → IsAcyclic i act → AcyclicBelow (cells_of i)
        → W.inside p → seen j twin_held more z (move p) ≡ seen i held act s p }
{}

/// What a port is seen as, the port of the renamed cell is seen as.
pub fn seen_renamed<W: Rewriting>()
    ensures seen { (cell : ℕ → ℕ) (i j : Instance) (held twin_held : Held) (act more : Active)
        (s z : State) (p : PortRef) (x : Seen)
        → Renames i j cell held twin_held act more s z W.inside → IsAcyclic j more → AcyclicBelow (cells_of j)
        → W.inside p → Sees i held act s p x → seen j twin_held more z (renamed cell p) ≡ x }
    ensures found { (cell : ℕ → ℕ) (i j : Instance) (held twin_held : Held) (act more : Active)
        (s z : State) (p : PortRef)
        → Renames i j cell held twin_held act more s z W.inside → IsAcyclic j more → AcyclicBelow (cells_of j)
        → IsAcyclic i act → AcyclicBelow (cells_of i)
        → W.inside p → seen j twin_held more z (renamed cell p) ≡ seen i held act s p }
{}

/// What drives a moved port are the moved assignments that drive the port, in their order, where between the moved assignments
/// of a component only such stand that are not active or drive other ports; and so where all are moved and none stands
/// between, and the move keeps what is active of the port apart.
pub fn moved_ports_are_driven()
    ensures between { (move : PortRef → PortRef) (act more : Active) (p : PortRef) (part other : PlainComponent)
        → Between move act more p (assigns_of part) (assigns_of other)
        → drivers other more (move p) ≡ map (moved_acting move) (drivers part act p) }
    ensures alone { (move : PortRef → PortRef) (act more : Active) (p : PortRef) (part other : PlainComponent)
        → ((g : ℕ) → more.offset g ≡ act.offset g)
        → other.always ≡ map (moved_assign move) part.always → other.groups ≡ map (moved_group move) part.groups
        → KeepsApart move act p (assigns_of part)
        → drivers other more (move p) ≡ map (moved_acting move) (drivers part act p) }
{}

/// A set of ports is closed under what they lead to, where it has what its active assignments name and what its outputs read.
pub fn sets_are_closed<W: Rewriting>()
    ensures { (i : Instance) (act : Active) (p q : PortRef)
        → ((o : Owned) (k : ℕ) (r : PortRef) → In (source_order (part_of i)) o → offset_of act o.owner ≡ Some k
        → W.inside o.assign.target → AssignNames o.assign r → W.inside r)
        → ((c n m : ℕ) (row : Row) → cell_at (cells_of i) c ≡ OfRow row → side_of row n ≡ Output → row.reads n m ≡ true
        → W.inside (Cell c n) → W.inside (Cell c m))
        → W.inside p → Leads i act p q → W.inside q }
{}

/// What the port of a renamed cell depends on is the port of a renamed cell, which the old port depends on; so a circle through
/// it is a circle of the old instance, where no two ports inside become one.
pub fn circles_come_back<W: Rewriting>()
    ensures depends { (i j : Instance) (cell : ℕ → ℕ) (act more : Active) (p q : PortRef)
        → IsRenamed i j cell act more W.inside → W.inside p → Depends j more (renamed cell p) q
        → (r : PortRef) × (renamed cell r ≡ q) × Depends i act p r × W.inside r }
    ensures circle { (i j : Instance) (cell : ℕ → ℕ) (act more : Active) (p : PortRef)
        → IsRenamed i j cell act more W.inside
        → ((r q : PortRef) → W.inside r → W.inside q → renamed cell r ≡ renamed cell q → r ≡ q)
        → W.inside p → Depends j more (renamed cell p) (renamed cell p) → HasCycle i act }
{}
