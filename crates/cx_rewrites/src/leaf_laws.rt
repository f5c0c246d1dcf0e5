//! Laws of the leaves of control: each function does nothing, and its clause is the law.

ghost use Rattle.std.specs.Prelude.{◌≡◌, ◌<◌, ℕ, List, [], ◌∷◌, Option, None, Some, map};
ghost use Rattle.cx_meaning.specs.declared.ports.PortRef.{PortRef};
ghost use Rattle.cx_meaning.specs.Designs.{Enable, PlainComponent, PlainForm};
ghost use Rattle.cx_meaning.specs.Instances.{Instance, State, cell_count, cells_of, idle, part_of, under};
ghost use Rattle.cx_meaning.specs.Active.{Active, Entry, comb};
ghost use Rattle.cx_meaning.specs.Sights.{Held};
ghost use Rattle.cx_meaning.specs.Cycles.{Fault, Goes, cycle};
ghost use Rattle.cx_meaning.specs.Answers.{turns_of};
ghost use Rattle.cx_meaning.specs.Islands.{form_flat, form_length, group_length, island};
ghost use Rattle.cx_meaning.specs.Calls.{call, called, enable, group_turn, inputs_of_call, test};
ghost use Rattle.cx_meaning.specs.Running.{Children};
ghost use Rattle.cx_frames.proofs.IslandFrames.{AllFine};
ghost use Rattle.cx_rewrites.specs.Moving.{moved_form, moved_occurrence};
ghost use Rattle.cx_rewrites.specs.Tallies.{Counted, Tally, below, island_count, plus, turns_count};
ghost use Rattle.cx_rewrites.specs.Carrying.{Carries, IfExact, Pace, TestCarried};
ghost use Rattle.cx_rewrites.specs.Turns.{CallCarries, CycleCarries, GroupCarries, IsSeenAlike, IsTold, IslandCarries};
ghost use Rattle.cx_rewrites.specs.Cells.{CellAlike, CellGoes, OutcomesFollow, comes_to, left_by};

use crate::rewriting::Rewriting;

/// The turns of a group carry those of another, where its hole is seen alike and its cycles carry.
pub fn groups_carry<W: Rewriting>()
    ensures { (pace : Pace) (faults : Fault → Fault) (one : Tally) (i j : Instance) (held twin_held : Held) (g h : ℕ)
        → GroupCarries pace W.stands faults one i j held twin_held g h
        → Carries pace W.stands faults (turns_count (group_turn i held g) one)
        (turns_of (idle i) (group_turn i held g)) (turns_of (idle j) (group_turn j twin_held h)) }
{}

/// A condition says what another says, where their ports are seen alike.
pub fn tests_carry<W: Rewriting>()
    ensures { (pace : Pace) (faults : Fault → Fault) (i j : Instance) (held twin_held : Held)
        (p q : PortRef) (c d : Option ℕ)
        (before : Tally) (s z : State)
        → IsSeenAlike W.stands i j held twin_held (comb c) (comb d) p q → IsTold faults p q
        → W.stands before s z → TestCarried pace faults (test i held p c s) (test j twin_held q d z) }
{}

/// A call carries another, where the runs of the called children carry and what the call looks at is seen alike.
pub fn calls_carry<W: Rewriting, V: Rewriting>()
    ensures { (pace : Pace) (faults child_faults : Fault → Fault) (i j : Instance) (held twin_held : Held) (g h c e : ℕ)
        (children others : Children) (counts : Held → Counted State)
        → CallCarries pace W.stands V.stands faults child_faults i j held twin_held g h c e
        → ((own : Held) → Carries pace V.stands child_faults (counts own) (children c own) (others e own))
        → Carries pace W.stands faults (λ s n. below c (counts (inputs_of_call i held g c s) (under c s) n))
        (call i children held g c) (call j others twin_held h e) }
{}

/// An island whose ports are moved has the moved flat list, with its lengths; and an island carries it, where the ports that it
/// samples are seen alike and its cycles carry.
pub fn islands_carry<W: Rewriting>()
    ensures flat { (move : PortRef → PortRef) (part other : PlainComponent) (form : PlainForm)
        → ((g : ℕ) → group_length other g ≡ group_length part g)
        → form_flat other (moved_form move form) 0 [] ≡ map (moved_occurrence move) (form_flat part form 0 []) }
    ensures length { (move : PortRef → PortRef) (part other : PlainComponent) (form : PlainForm)
        → ((g : ℕ) → group_length other g ≡ group_length part g)
        → form_length other (moved_form move form) ≡ form_length part form }
    ensures carries { (pace : Pace) (faults : Fault → Fault) (move : PortRef → PortRef) (made : List Entry → Tally)
        (i j : Instance) (held twin_held : Held) (form : PlainForm)
        → ((g : ℕ) → group_length (part_of j) g ≡ group_length (part_of i) g)
        → AllFine W.groups W.inside (form_flat (part_of i) form 0 [])
        → IslandCarries pace W.stands faults move made W.inside i j held twin_held (form_flat (part_of i) form 0 [])
        → Carries pace W.stands faults (island_count made i held form) (island i held form)
        (island j twin_held (moved_form move form)) }
{}

/// A cycle carries another, where each cell of the other goes on and what is left is related, at a pace that promises nothing of
/// faults; and at every pace where the cells follow in their order, between which cells may stand that go on.
pub fn cycles_carry<W: Rewriting>()
    ensures ends { (pace : Pace) (faults : Fault → Fault) (one : Tally) (i j : Instance)
        (held twin_held : Held) (act more : Active)
        → IfExact pace ⊥
        → ((before : Tally) (s z : State) → W.stands before s z → (e : ℕ) → e < cell_count (cells_of j)
        → CellGoes i j held twin_held act more s z e)
        → ((before : Tally) (s z after : State) → W.stands before s z → cycle i held act s ≡ Goes after
        → W.stands (plus before one) after (left_by j twin_held more z))
        → CycleCarries pace W.stands faults one i j held twin_held act more }
    ensures follows { (pace : Pace) (faults : Fault → Fault) (one : Tally) (i j : Instance)
        (held twin_held : Held) (act more : Active)
        → ((before : Tally) (s z : State) → W.stands before s z
        → OutcomesFollow faults (comes_to i held act s) (comes_to j twin_held more z) 0
        (cell_count (cells_of i)) 0 (cell_count (cells_of j)))
        → ((before : Tally) (s z after : State) → W.stands before s z → cycle i held act s ≡ Goes after
        → W.stands (plus before one) after (left_by j twin_held more z))
        → CycleCarries pace W.stands faults one i j held twin_held act more }
    ensures left { (i j : Instance) (held twin_held : Held) (act more : Active) (s z after : State) (c e : ℕ)
        → CellAlike i j held twin_held act more s z c e → cycle i held act s ≡ Goes after
        → left_by j twin_held more z (e ∷ []) ≡ after (c ∷ []) }
{}

/// The enable of a group is its turns, a call, or an island: by its length, if it is a static one, and by the cell that it calls.
pub fn enables_are_leaves()
    ensures turns { (i : Instance) (kids : Children) (held : Held) (g : ℕ) (s : State) (n : ℕ)
        → group_length (part_of i) g ≡ None → called i g ≡ None
        → enable i kids held g s n ≡ turns_of (idle i) (group_turn i held g) s n }
    ensures call { (i : Instance) (kids : Children) (held : Held) (g c : ℕ) (s : State) (n : ℕ)
        → group_length (part_of i) g ≡ None → called i g ≡ Some c
        → enable i kids held g s n ≡ call i kids held g c s n }
    ensures island { (i : Instance) (kids : Children) (held : Held) (g k : ℕ) (s : State) (n : ℕ)
        → group_length (part_of i) g ≡ Some k → enable i kids held g s n ≡ island i held (Enable g) s n }
{}
