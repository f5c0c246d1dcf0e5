//! Spare parts of strands, which are made before the first choice.

ghost use Rattle.std.specs.Prelude.{◌≡◌, ◌<◌, ℕ, [], Some, length, vec_capacity, vec_len};
ghost use Rattle.cx_weave.specs.Ledger.{Ledger, arms_box_amount, box_amount, inputs_amount, island_amount};

use crate::strands::{Arms, Strand};
use cx_meaning::Seen;

/// The lists of an island: its samples, and the cells that it drives.
#[derive(Drop)]
pub(crate) struct IslandLists {
    pub(crate) samples: Vec<bool>,
    pub(crate) cells: Vec<u32>,
}

/// What no strand has at present: boxes of strands and of arms, the lists of islands, lists of inputs; and marks of cells.
#[derive(Drop)]
pub(crate) struct Spares<'a> {
    pub(crate) boxes: Vec<Box<Strand<'a>>>,
    pub(crate) arms: Vec<Box<Arms<'a>>>,
    pub(crate) islands: Vec<IslandLists>,
    pub(crate) inputs: Vec<Vec<Seen>>,
    pub(crate) marks: Vec<bool>,
}

/// A box with another strand in it.
pub(crate) fn refilled<'a>(room: Box<Strand<'a>>, strand: Strand<'a>) -> Box<Strand<'a>>
    ensures { result.value ≡ strand.entry }
{
    let mut room = room;
    *room = strand;
    room
}

/// A box of a strand.
pub(crate) fn take_box<'a>(spares: &mut Spares<'a>, strand: Strand<'a>) -> Box<Strand<'a>>
    requires some { 0 < vec_len spares.old.boxes }
    ensures value { result.value ≡ strand.entry }
    ensures ledger { Ledger spares.old spares.new (λ x. 0) box_amount }
{
    let room = spares.boxes.pop().unwrap();
    refilled(room, strand)
}

/// Keeps a box for later.
pub(crate) fn give_box<'a>(spares: &mut Spares<'a>, room: Box<Strand<'a>>)
    requires place { vec_len spares.old.boxes < vec_capacity spares.old.boxes }
    ensures ledger { Ledger spares.old spares.new box_amount (λ x. 0) }
{
    let _ = spares.boxes.push(room);
}

/// A box with other arms in it.
pub(crate) fn refilled_arms<'a>(room: Box<Arms<'a>>, arms: Arms<'a>) -> Box<Arms<'a>>
    ensures { result.value ≡ arms.entry }
{
    let mut room = room;
    *room = arms;
    room
}

/// A box of arms.
pub(crate) fn take_arms<'a>(spares: &mut Spares<'a>, arms: Arms<'a>) -> Box<Arms<'a>>
    requires some { 0 < vec_len spares.old.arms }
    ensures value { result.value ≡ arms.entry }
    ensures ledger { Ledger spares.old spares.new (λ x. 0) arms_box_amount }
{
    let room = spares.arms.pop().unwrap();
    refilled_arms(room, arms)
}

/// Keeps a box of arms for later.
pub(crate) fn give_arms<'a>(spares: &mut Spares<'a>, room: Box<Arms<'a>>)
    requires place { vec_len spares.old.arms < vec_capacity spares.old.arms }
    ensures ledger { Ledger spares.old spares.new arms_box_amount (λ x. 0) }
{
    let _ = spares.arms.push(room);
}

/// The lists of an island.
pub(crate) fn take_island(spares: &mut Spares<'_>) -> IslandLists
    requires some { 0 < vec_len spares.old.islands }
    ensures ledger { Ledger spares.old spares.new (λ x. 0)
        (λ x. island_amount x (vec_capacity result.cells) (length result.samples.items)) }
{
    spares.islands.pop().unwrap()
}

/// Keeps the lists of an island for later.
pub(crate) fn give_island(spares: &mut Spares<'_>, samples: Vec<bool>, cells: Vec<u32>)
    requires place { vec_len spares.old.islands < vec_capacity spares.old.islands }
    ensures ledger { Ledger spares.old spares.new
        (λ x. island_amount x (vec_capacity cells) (length samples.items)) (λ x. 0) }
{
    let _ = spares.islands.push(IslandLists { samples, cells });
}

/// A list of no inputs.
pub(crate) fn take_inputs(spares: &mut Spares<'_>) -> Vec<Seen>
    requires some { 0 < vec_len spares.old.inputs }
    ensures none { result.items ≡ [] }
    ensures ledger { Ledger spares.old spares.new (λ x. 0)
        (λ x. inputs_amount (λ list. vec_capacity list) x (Some result)) }
{
    let mut inputs = spares.inputs.pop().unwrap();
    inputs.clear();
    inputs
}

/// Keeps a list of inputs for later.
pub(crate) fn give_inputs(spares: &mut Spares<'_>, inputs: Vec<Seen>)
    requires place { vec_len spares.old.inputs < vec_capacity spares.old.inputs }
    ensures ledger { Ledger spares.old spares.new
        (λ x. inputs_amount (λ list. vec_capacity list) x (Some inputs)) (λ x. 0) }
{
    let _ = spares.inputs.push(inputs);
}
