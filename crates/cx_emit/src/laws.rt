//! The source of a net does as the net: each function does nothing, and its clause is the law.

ghost use Rattle.std.specs.Prelude.{◌≡◌, ◌≢◌, ℕ, true};
ghost use Rattle.cx_prim.specs.Table.{HasRow, PrimitiveRow};
ghost use Rattle.cx_vtree.specs.Sound.{is_sound};
ghost use Rattle.cx_net.specs.Nets.{PlainNet};
ghost use Rattle.cx_emit.specs.Names.{module_name, primitive_name};
ghost use Rattle.cx_emit.specs.Sources.{source_of};
ghost use Rattle.cx_net.specs.NetFits.{HasNoHoles, IsFit};
ghost use Rattle.cx_net.specs.NetLimits.{IsWritable};
ghost use Rattle.cx_emit.specs.RunsAs.{EdgesCarry, RunsAs, ValuesCarry};

/// The name of a primitive's module tells the primitive and its numbers, and is none of a component's module.
#[tactic(auto, using(crate::proofs::PrimitiveNames::primitive_other))]
pub fn names_tell_primitives()
    ensures apart { (p q : PrimitiveRow) → HasRow p → HasRow q → primitive_name p ≡ primitive_name q → p ≡ q }
    ensures other { (p : PrimitiveRow) (main k : ℕ) → primitive_name p ≢ module_name main k }
{}

/// What has a value in a net has it in its source, if the net is fit, no hole is left in it, and its source is sound.
#[tactic(auto, using(crate::proofs::NodeValues::values_carry))]
pub fn values_carry()
    ensures { (net : PlainNet) → IsFit net → HasNoHoles net → is_sound (source_of net) ≡ true → ValuesCarry net }
{}

/// And after an edge the states stand for each other again, if all has a value on both sides.
#[tactic(auto, using(crate::proofs::EdgeValues::edges_carry))]
pub fn edges_carry()
    ensures { (net : PlainNet) → IsFit net → HasNoHoles net → is_sound (source_of net) ≡ true → EdgesCarry net }
{}

/// So the source of a net runs as the net.
#[tactic(auto, using(crate::proofs::RunLemmas::source_runs_as))]
pub fn source_runs_as()
    ensures { (net : PlainNet) → IsFit net → HasNoHoles net → is_sound (source_of net) ≡ true →
        RunsAs net (source_of net) }
{}

/// The source of a net that can be written keeps every rule of a source.
#[tactic(auto, using(crate::proofs::Soundness::source_is_sound))]
pub fn source_is_sound()
    ensures { (net : PlainNet) → IsFit net → HasNoHoles net → IsWritable net → is_sound (source_of net) ≡ true }
{}
