//! Static control: islands.

ghost use Rattle.cx_meaning.specs.Designs.{Placed, no_place};
ghost use Rattle.cx_design.specs.PlainForms.{plain_form};
ghost use Rattle.cx_turns.specs.Islands.{IsIsland};
ghost use Rattle.cx_turns.specs.Machines.{design_of, IsPlan, IsInstance, FormStands};
ghost use Rattle.cx_weave.specs.Ledger.{Opened};
ghost use Rattle.cx_weave.specs.Strides.{OpensAs};
ghost use Rattle.cx_weave.specs.Supplied.{MayOpen};

use crate::spares::{IslandLists, Spares, take_island};
use crate::strands::{Island, Strand};
use cx_design::Form;
use cx_design_sizes::form_length;
use cx_interp_islands::accepted_islands_are_short;
use cx_turns::calls::instance_part;
use cx_turns::driven::driven_cells;
use cx_turns::plan::Plan;

/// A static statement of dynamic control, or the enable of a static group there, as it is opened.
pub(crate) fn open_island<'a>(
    spares: &mut Spares<'a>,
    plan: &'a Plan<'_>,
    instance: usize,
    form: &'a Form,
) -> Strand<'a>
    requires plan { IsPlan plan.now }
    requires instance { IsInstance (design_of plan.now) instance }
    requires form { FormStands (design_of plan.now) instance (plain_form form.now) }
    requires island { IsIsland (design_of plan.now) instance (plain_form form.now) }
    requires supplied { MayOpen (design_of plan.now) instance spares.old (Placed (plain_form form.now) no_place) }
    ensures opens { OpensAs (design_of plan.now) instance (Placed (plain_form form.now) no_place) result }
    ensures ledger { Opened spares.old spares.new result }
{
    accepted_islands_are_short();
    let IslandLists { samples, cells } = take_island(spares);
    let mut cells = cells;
    driven_cells(plan, instance, form, &mut spares.marks, &mut cells);
    let left = form_length(instance_part(plan, instance), form);
    Strand::InIsland(Island {
        form,
        cycle: 0,
        left,
        samples,
        cells,
    })
}
