//! What soundness of a source gives of its tree.

ghost use Rattle.std.specs.Prelude.{◌≡◌, true};
ghost use Rattle.cx_vtree.specs.Plain.{PlainSource};
ghost use Rattle.cx_vtree.specs.InstanceTree.{instances_of};
ghost use Rattle.cx_vtree.specs.Sound.{is_sound};
ghost use Rattle.cx_vnets.specs.RunsFlat.{MemoriesStand};
ghost use Rattle.cx_velab.specs.Covered.{IsTidy};
ghost use Rattle.cx_vsim.specs.Trees.{CanBeCoded, IsSmall, IsApart, IsEvenlyWide, IsRooted, CanBeBuilt};

use cx_vlaws::{
    assigned_are_given, connections_are_of_ports, counts_are_bounded, counts_go_by_instances,
    externals_are_memories, inputs_are_tied, instances_are_held, main_comes_first, meant_is_there,
    modules_have_names, names_are_apart, names_stand_for_their_parts, nets_have_origins,
    outputs_are_tied, registers_are_held, sets_are_of_registers, stores_are_of_arrays,
    widths_are_bounded,
};
use cx_vnets::names_have_numbers;

/// Each net of a tree has an origin, and each port of an instance but `main` a connection at its own place.
fn trees_are_tidy()
    ensures { (source : PlainSource) → is_sound source ≡ true → IsTidy (instances_of source) }
{
    names_are_apart();
    nets_have_origins();
    main_comes_first();
    connections_are_of_ports();
    inputs_are_tied();
    outputs_are_tied();
}

/// The numbers of nets and arrays fit 32 bits.
fn numbers_are_small()
    ensures { (source : PlainSource) → is_sound source ≡ true → IsSmall (instances_of source) }
{
    counts_are_bounded();
    counts_go_by_instances();
}

/// Modules with one name are one, and all of them can be coded.
fn modules_can_be_coded()
    ensures { (source : PlainSource) → is_sound source ≡ true → CanBeCoded (instances_of source) }
{
    numbers_are_small();
    names_have_numbers();
    modules_have_names();
    nets_have_origins();
    assigned_are_given();
    sets_are_of_registers();
    stores_are_of_arrays();
    widths_are_bounded();
}

/// Names are apart, and an edge changes each register and each array once at most.
fn names_and_edges_are_apart()
    ensures { (source : PlainSource) → is_sound source ≡ true → IsApart (instances_of source) }
{
    names_are_apart();
    registers_are_held();
    sets_are_of_registers();
    stores_are_of_arrays();
}

/// What gives a net, a register or a word its value is as wide.
fn trees_are_evenly_wide()
    ensures { (source : PlainSource) → is_sound source ≡ true → IsEvenlyWide (instances_of source) }
{
    names_stand_for_their_parts();
    nets_have_origins();
    main_comes_first();
    registers_are_held();
    sets_are_of_registers();
    stores_are_of_arrays();
    meant_is_there();
}

/// The instance of `main` comes first, and each other one is held.
fn trees_are_rooted()
    ensures { (source : PlainSource) → is_sound source ≡ true → IsRooted (instances_of source) }
{
    main_comes_first();
    instances_are_held();
    assigned_are_given();
}

/// The tree of a sound source is as the tables of its machine need it.
pub fn trees_can_be_built()
    ensures { (source : PlainSource) → is_sound source ≡ true → CanBeBuilt (instances_of source) }
{
    trees_are_tidy();
    modules_can_be_coded();
    numbers_are_small();
    names_and_edges_are_apart();
    trees_are_evenly_wide();
    trees_are_rooted();
}

/// Each external memory of a sound source is the first array of an instance, and has as many words.
pub fn memories_stand()
    ensures { (source : PlainSource) → is_sound source ≡ true → MemoriesStand source }
{
    externals_are_memories();
}
