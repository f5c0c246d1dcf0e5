//! Words of cells over those of memories.

ghost use Rattle.std.specs.Prelude.{◌≡◌, map};
ghost use Rattle.cx_text.specs.Loading.{plain_loaded, plain_memory, FitsRows, with_words};
ghost use Rattle.cx_meaning.specs.Instances as meaning;
ghost use Rattle.cx_meaning.specs.Instances.{State as StateOf, tree_of};
ghost use Rattle.cx_rules.specs.Externals.{external_rows};
ghost use Rattle.cx_design.specs.PlainForms.{plain_cell, plain_kind};
ghost use Rattle.cx_design.specs.PlainDesigns.{plain_design};
ghost use Rattle.cx_state.specs.States.{plain_state, IsStateOf, StandsFor};
ghost use Rattle.cx_state.specs.Reading.{CanRead, AreReadable, words_among, words_held};

use crate::State;
use cx_cells::{PrimState, read_words};
use cx_design::{Cell, CellKind, Design};
use cx_design_parts::component;
use cx_text::{Loaded, LoadedMemory};

/// Writes the words of a memory over as many others.
fn write_words(kind: &CellKind, held: &Option<PrimState>, words: &mut [u64])
    requires { CanRead (plain_kind kind.now) held.now words.old }
    ensures { words.new ≡ words_held held.now }
{
    match (kind, held) {
        (CellKind::Prim(primitive), Some(held)) => read_words(primitive, held, words),
        (CellKind::Prim(_), None) | (CellKind::Part(_), _) => unreachable!(),
    }
}

/// Writes the words of the external ones among cells over those of as many memories.
fn write_cells(cells: &[Cell], held: &[Option<PrimState>], memories: &mut [LoadedMemory])
    requires { AreReadable (map plain_cell cells.now) held.now (map plain_memory memories.old) }
    ensures { map plain_memory memories.new ≡
        with_words (map plain_memory memories.old) (words_among (map plain_cell cells.now) held.now) }
{
    let mut next = 0;
    for n in 0..cells.len() {
        let cell = &cells[n];
        if cell.external {
            write_words(&cell.kind, &held[n], &mut memories[next].words);
            next += 1;
        }
    }
}

/// Writes the words that the external memories of a design hold in a state over those of memories that fit. It takes no
/// memory.
pub fn external_words(design: &Design, state: &State, into: &mut Loaded)
    requires state { IsStateOf (plain_design design.now) (plain_state state.now) }
    requires fits { FitsRows (external_rows (plain_design design.now)) (plain_loaded into.old) }
    ensures words { (s : StateOf) → StandsFor (tree_of (plain_design design.now)) (plain_state state.now) s
        → plain_loaded into.new ≡
        with_words (plain_loaded into.old) (meaning.words_of (tree_of (plain_design design.now)) s) }
    ensures fits { FitsRows (external_rows (plain_design design.now)) (plain_loaded into.new) }
{
    let main = component(design, design.main as usize);
    let held = state.instances[0].cells.as_slice();
    write_cells(main.cells.as_slice(), held, &mut into.memories);
}
