//! The run of a design.

ghost use Rattle.std.specs.Prelude.{◌≡◌, ℕ, List};
ghost use Rattle.cx_meaning.specs.Instances.{start, tree_of};
ghost use Rattle.cx_meaning.specs.Running as running;
ghost use Rattle.cx_text.specs.Loading.{plain_loaded, FitsRows};
ghost use Rattle.cx_rules.specs.Externals.{external_rows};
ghost use Rattle.cx_design.specs.declared.designs.Design.{Design as DesignValue};
ghost use Rattle.cx_design.specs.PlainDesigns.{plain_design};
ghost use Rattle.cx_state.specs.States.{IsUnheld, StandsFor};
ghost use Rattle.cx_turns.specs.Machines.{design_of, rows_of, IsPlan, IsAt};
ghost use Rattle.cx_turns.specs.Starts.{IsReady};
ghost use Rattle.cx_interp.specs.Counted.{HasCounted, MainCounted};
ghost use Rattle.cx_interp.specs.Counts.{plain_counts};
ghost use Rattle.cx_interp.specs.Done.{IsWithin};
ghost use Rattle.cx_interp.specs.Runs.{Answered, GetsWords, HasRun};

use crate::answers::Answer;
use crate::control::run_statement;
use crate::counts::Counts;
use cx_design::Design;
use cx_laws::laws::loaded_start_is_settled;
use cx_state::{State, external_words};
use cx_text::Loaded;
use cx_turns::Begun;
use cx_turns::children::control_of;
use cx_turns::machine::Machine;
use cx_turns::plan::Plan;

/// Runs main from its start.
fn run_main(plan: &Plan<'_>, machine: &mut Machine<'_>, counts: &mut Counts, budget: u64) -> Answer
    requires plan { IsPlan plan.now }
    requires machine { IsAt plan.now machine.old }
    requires unheld { IsUnheld (rows_of machine.old) }
    ensures machine { IsAt plan.now machine.new }
    ensures answered { (words : List (List ℕ)) →
        StandsFor (tree_of (design_of plan.now)) (rows_of machine.old)
        (start (tree_of (design_of plan.now)) words)
        → Answered (design_of plan.now) (rows_of machine.new) result
        (running.run_main (design_of plan.now) words budget) }
    ensures within { IsWithin budget result }
    ensures counted { (words : List (List ℕ)) →
        StandsFor (tree_of (design_of plan.now)) (rows_of machine.old)
        (start (tree_of (design_of plan.now)) words)
        → MainCounted (design_of plan.now) words budget result (plain_counts counts.old) (plain_counts counts.new) }
{
    loaded_start_is_settled();
    let control = control_of(plan, 0);
    run_statement(plan, machine, counts, 0, control, budget)
}

/// What the run of a design has come to.
#[derive(Drop)]
pub struct Ran<'a> {
    pub(crate) design: &'a Design,
    pub(crate) answer: Answer,
    pub(crate) state: State,
}

/// Runs main within a budget of turns, and counts beside it. It takes no memory.
pub fn run<'a>(begun: Begun<'a>, counts: &mut Counts, budget: u64) -> Ran<'a>
    requires ready { (design : DesignValue) × (words : List (List ℕ)) × IsReady design words begun }
    ensures run { (design : DesignValue) (words : List (List ℕ)) → IsReady design words begun.entry →
        HasRun design words budget result }
    ensures counted { (design : DesignValue) (words : List (List ℕ)) → IsReady design words begun.entry →
        HasCounted design words budget result (plain_counts counts.old) (plain_counts counts.new) }
{
    let Begun { plan, mut machine } = begun;
    let answer = run_main(&plan, &mut machine, counts, budget);
    Ran {
        design: plan.design,
        answer,
        state: machine.sight.state,
    }
}

impl Ran<'_> {
    /// How the run ended.
    pub fn answer(&self) -> Answer
        ensures { result ≡ self.now.answer }
    {
        self.answer
    }

    /// Writes the words in which the run left the external memories over those of memories that fit. It takes no memory.
    pub fn memories(&self, into: &mut Loaded)
        requires run { (design : DesignValue) × (words : List (List ℕ)) × (budget : ℕ) ×
            HasRun design words budget self.now }
        requires fits { FitsRows (external_rows (plain_design self.now.design.now)) (plain_loaded into.old) }
        ensures words { GetsWords self.now (plain_loaded into.old) (plain_loaded into.new) }
        ensures fits { FitsRows (external_rows (plain_design self.now.design.now)) (plain_loaded into.new) }
    {
        external_words(self.design, &self.state, into);
    }
}
