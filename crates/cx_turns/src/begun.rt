//! A design at its start.

ghost use Rattle.std.specs.Prelude.{IfOk};
ghost use Rattle.cx_meaning.specs.Instances.{start};
ghost use Rattle.cx_text.specs.Loading.{plain_loaded, FitsRows};
ghost use Rattle.cx_rules.specs.Externals.{external_rows};
ghost use Rattle.cx_rules.specs.Flat.{IsFlat};
ghost use Rattle.cx_design.specs.PlainDesigns.{plain_design};
ghost use Rattle.cx_state.specs.States.{words_in};
ghost use Rattle.cx_turns.specs.Starts.{IsReady};

use crate::machine::Machine;
use crate::plan::Plan;
use crate::rooms::Room;
use crate::sights::Sight;
use cx_design::Checked;
use cx_eval::Evaluator;
use cx_state::State;
use cx_text::{Loaded, Memory};
use std::alloc::Global;

/// An accepted design at its start, ready to run.
#[derive(Drop)]
pub struct Begun<'a> {
    pub plan: Plan<'a>,
    pub machine: Machine<'a>,
}

impl<'a> Begun<'a> {
    /// A design with the words of its external memories.
    pub fn new(alloc: Global, design: &'a Checked, loaded: &Loaded) -> Result<Begun<'a>, Memory>
        requires flat { IsFlat (plain_design design.now) }
        requires fits { FitsRows (external_rows (plain_design design.now)) (plain_loaded loaded.now) }
        ensures ready { IfOk result (λ begun. IsReady design.now (words_in loaded.now.memories.items) begun) }
    {
        let plan = Plan::new(alloc, design)?;
        let evaluator = Evaluator::new(alloc, design)?;
        let state = State::start(alloc, design, loaded)?;
        let room = Room::new(alloc, plan.design)?;
        let sight = Sight {
            evaluator,
            state,
            instance: 0,
            unclear: None,
        };
        let machine = Machine { sight, room };
        Ok(Begun { plan, machine })
    }
}
