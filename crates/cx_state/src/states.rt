//! States.

ghost use Rattle.std.specs.Prelude.{◌≡◌, ◌<◌, IfOk, length, map};
ghost use Rattle.cx_text.specs.Loading.{plain_loaded, FitsRows};
ghost use Rattle.cx_rules.specs.Externals.{external_rows};
ghost use Rattle.cx_rules.specs.Flat.{IsFlat};
ghost use Rattle.cx_meaning.specs.Instances as meaning;
ghost use Rattle.cx_meaning.specs.Instances.{tree_of};
ghost use Rattle.cx_design.specs.PlainDesigns.{plain_design};
ghost use Rattle.cx_state.specs.States.{plain_state, instance_state, with_held, IsStateOf, StandsFor, IsUnheld, words_in};

use crate::instances;
use crate::starts::start_state;
use cx_cells::PrimState;
use cx_design::{Checked, Seen};
use cx_text::{Loaded, Memory};
use std::alloc::Global;

/// What the cells of an instance hold, and what its inputs are held as. A component's cell holds nothing of its own.
#[derive(Debug, Drop)]
pub struct InstanceState {
    pub cells: Vec<Option<PrimState>>,
    pub held: Vec<Seen>,
}

/// A state of a design: what its instances hold, by their numbers in pre-order.
#[derive(Debug, Drop)]
pub struct State {
    pub instances: Vec<InstanceState>,
}

impl State {
    /// The state before the first cycle: every cell at the start of its row, but the external memories with the loaded
    /// words. Every input of an instance is held as undefined.
    pub fn start(alloc: Global, design: &Checked, loaded: &Loaded) -> Result<State, Memory>
        requires flat { IsFlat (plain_design design.now) }
        requires fits { FitsRows (external_rows (plain_design design.now)) (plain_loaded loaded.now) }
        ensures fits { IfOk result (λ state. IsStateOf (plain_design design.now) (plain_state state)) }
        ensures value { IfOk result (λ state. StandsFor (tree_of (plain_design design.now))
            (plain_state state)
            (meaning.start (tree_of (plain_design design.now)) (words_in loaded.now.memories.items))) }
        ensures held { IfOk result (λ state. IsUnheld (plain_state state)) }
    {
        let table = instances(alloc, design)?;
        start_state(alloc, design.design(), &table, loaded.memories.as_slice())
    }

    /// Sets what an input of an instance is held as. It takes no memory.
    pub fn hold(&mut self, instance: usize, input: usize, seen: Seen)
        requires instance { instance < length (plain_state self.old) }
        requires input { input < length (instance_state (plain_state self.old) instance).held }
        ensures value { plain_state self.new ≡ with_held (plain_state self.old) instance input seen }
    {
        self.instances[instance].held[input] = seen;
    }
}
