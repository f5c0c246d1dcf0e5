//! The plan of an accepted design without static components.

ghost use Rattle.std.specs.Prelude.{◌≡◌, IfOk};
ghost use Rattle.cx_rules.specs.Flat.{IsFlat};
ghost use Rattle.cx_design.specs.PlainDesigns.{plain_design};
ghost use Rattle.cx_turns.specs.Machines.{IsPlan};

use crate::plan::Plan;
use crate::tables::group_tables;
use cx_design::Checked;
use cx_state::instances;
use cx_text::Memory;
use std::alloc::Global;

impl<'a> Plan<'a> {
    /// The plan of an accepted design: its instances have their numbers, and its groups their tables.
    pub(crate) fn new(alloc: Global, design: &'a Checked) -> Result<Plan<'a>, Memory>
        requires flat { IsFlat (plain_design design.now) }
        ensures design { IfOk result (λ plan. plan.design.now ≡ design.now) }
        ensures plan { IfOk result IsPlan }
    {
        let table = instances(alloc, design)?;
        let design = design.design();
        let groups = group_tables(alloc, design)?;
        Ok(Plan {
            design,
            table,
            groups,
        })
    }
}
