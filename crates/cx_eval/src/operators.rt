//! What operators are seen as.

ghost use Rattle.std.specs.Prelude.{◌≡◌, ◌≤◌, ℕ, IfNone, IfSome, None, Some, get_or, length, nat_lt, slice_get};
ghost use Rattle.cx_prim.specs.CellStates.{IsState};
ghost use Rattle.cx_prim.specs.Rows.{HasSide, is_output_side};
ghost use Rattle.cx_prim.specs.Table.{row_of};
ghost use Rattle.cx_meaning.specs.declared.ports.PortRef.TheVariants.{Cell};
ghost use Rattle.cx_meaning.specs.Instances.{OfRow, cell_at, cells_of};
ghost use Rattle.cx_meaning.specs.declared.sights.Seen as views;
ghost use Rattle.cx_meaning.specs.Sights as sights;
ghost use Rattle.cx_meaning.specs.Sights.{Given, Lacks};
ghost use Rattle.cx_eval_drives.specs.Gathers.{gather_all};
ghost use Rattle.cx_eval_network.specs.declared.planned.PortPlan.TheVariants.{Output};
ghost use Rattle.cx_eval_network.specs.Askings.{IsAsking, asked_of};
ghost use Rattle.cx_eval_network.specs.Networks.{seen_at};
ghost use Rattle.cx_eval_network.specs.Nodes.{part_at};
ghost use Rattle.cx_eval.specs.declared.sources.Source as origins;
ghost use Rattle.cx_eval.specs.Shown.{AreFound, CanBeSeen, ShowInputs, ShowLook, ShowWide, own_component};
ghost use Rattle.cx_eval.specs.Sources.{AreOperators, HasPlan};

use crate::seeing::source_seen;
use crate::sources::{Operator, Source};
use cx_bits::Bits;
use cx_cells::{PrimState, Primitive};
use cx_design::Seen;
use cx_design_parts::output_laws::outputs_read_first;
use cx_design_parts::{At, stands_at};
use cx_eval_network::{Asking, ROOM, cell_state, cells_of, seen_of};
use cx_prim::Cycle;
use cx_state::alike_laws::rows_stand;
use cx_state::width_laws::state_seen_has_width;

/// Finds what the operators of a group are seen as in the asked instance, one behind the other. It takes no memory.
pub(crate) fn find_operators(
    asking: &Asking<'_>,
    component: u32,
    operators: &[Operator],
    slots: &mut [Seen],
)
    requires can { IsAsking asking.now }
    requires component { component ≡ own_component (asked_of asking.now) }
    requires operators { AreOperators (part_at (asked_of asking.now).design
        (asked_of asking.now).rows asking.now.instance) asking.now.active.now operators.now }
    requires room { length operators.now ≤ length slots.old }
    ensures found { AreFound (asked_of asking.now) operators.now slots.new }
{
    for place in 0..operators.len() {
        let seen = operator_seen(asking, component, slots, &operators[place]);
        slots[place] = seen;
    }
}

/// What an operator is seen as.
fn operator_seen(asking: &Asking<'_>, component: u32, slots: &[Seen], operator: &Operator) -> Seen
    requires can { IsAsking asking.now }
    requires component { component ≡ own_component (asked_of asking.now) }
    requires plan { HasPlan (part_at (asked_of asking.now).design (asked_of asking.now).rows
        asking.now.instance) (Cell operator.now.cell operator.now.port) (Output (length operator.now.inputs.items)) }
    requires inputs { ShowInputs (asked_of asking.now) slots.now operator.now }
    ensures value { result ≡
        seen_at (asked_of asking.now) asking.now.instance (Cell operator.now.cell operator.now.port) }
{
    match stands_at(asking.design, component as usize, operator.cell) {
        At::Primitive(primitive) => primitive_seen(asking, component, slots, operator, primitive),
        At::Nothing | At::Part(_) => unreachable!(),
    }
}

/// The same, by its primitive.
fn primitive_seen(
    asking: &Asking<'_>,
    component: u32,
    slots: &[Seen],
    operator: &Operator,
    primitive: &Primitive,
) -> Seen
    requires can { IsAsking asking.now }
    requires component { component ≡ own_component (asked_of asking.now) }
    requires plan { HasPlan (part_at (asked_of asking.now).design (asked_of asking.now).rows
        asking.now.instance) (Cell operator.now.cell operator.now.port) (Output (length operator.now.inputs.items)) }
    requires inputs { ShowInputs (asked_of asking.now) slots.now operator.now }
    requires row { cell_at (cells_of (part_at (asked_of asking.now).design (asked_of asking.now).rows
        asking.now.instance)) operator.now.cell ≡ OfRow (row_of primitive.now) }
    ensures value { result ≡
        seen_at (asked_of asking.now) asking.now.instance (Cell operator.now.cell operator.now.port) }
{
    rows_stand();
    state_seen_has_width();
    outputs_read_first();
    match cell_state(cells_of(asking, asking.instance), operator.cell) {
        Some(state) => output_seen(asking, component, slots, operator, primitive, state),
        None => unreachable!(),
    }
}

/// What an output gives by what its inputs are seen as, and what its primitive holds.
fn output_seen(
    asking: &Asking<'_>,
    component: u32,
    slots: &[Seen],
    operator: &Operator,
    primitive: &Primitive,
    state: &PrimState,
) -> Seen
    requires can { IsAsking asking.now }
    requires component { component ≡ own_component (asked_of asking.now) }
    requires sources { (q : ℕ) (source : origins.Source) → slice_get operator.now.inputs.items q ≡ Some source →
        CanBeSeen (asked_of asking.now) source }
    requires state { IsState (row_of primitive.now).shape state.now }
    requires output { HasSide (row_of primitive.now) operator.now.port is_output_side }
    requires reads { length operator.now.inputs.items ≤ length (row_of primitive.now).ports }
    requires widths { ShowWide (asked_of asking.now) slots.now operator.now.inputs.items (row_of primitive.now).ports }
    ensures value { (look : ℕ → views.Seen) →
        ShowLook (asked_of asking.now) slots.now operator.now.inputs.items look
        → result ≡ sights.output_seen (λ given. (row_of primitive.now).output state.now given operator.now.port)
        (sights.gather look (λ q. nat_lt q (length operator.now.inputs.items)) 0 (row_of primitive.now).ports) }
{
    let mut room = [None; ROOM];
    let inputs = &mut room[..primitive.port_count()];
    match gather(asking, component, slots, &operator.inputs, inputs) {
        Some(seen) => seen,
        None => seen_of(primitive.output(state, inputs, operator.port as usize)),
    }
}

/// Puts what some sources are seen as into slots where nothing stands; or tells the first that is no value.
fn gather(
    asking: &Asking<'_>,
    component: u32,
    slots: &[Seen],
    sources: &[Source],
    inputs: &mut [Option<Bits>],
) -> Option<Seen>
    requires can { IsAsking asking.now }
    requires component { component ≡ own_component (asked_of asking.now) }
    requires sources { (q : ℕ) (source : origins.Source) → slice_get sources.now q ≡ Some source →
        CanBeSeen (asked_of asking.now) source }
    requires bare { (n : ℕ) → get_or inputs.old n None ≡ None }
    requires within { length sources.now ≤ length inputs.old }
    ensures given { IfNone result ((look : ℕ → views.Seen) →
        ShowLook (asked_of asking.now) slots.now sources.now look → Given inputs.new ≡
        gather_all look (λ q. nat_lt q (length sources.now)) 0 (length inputs.new)) }
    ensures lacks { IfSome result (λ seen. (look : ℕ → views.Seen) →
        ShowLook (asked_of asking.now) slots.now sources.now look → (p : ℕ) × (Lacks p seen ≡
        gather_all look (λ q. nat_lt q (length sources.now)) 0 (length inputs.new))) }
    ensures sized { length inputs.new ≡ length inputs.old }
{
    for port in 0..sources.len() {
        match source_seen(asking, component, slots, &sources[port]) {
            Seen::Value(bits) => inputs[port] = Some(bits),
            Seen::Conflict => return Some(Seen::Conflict),
            Seen::Undefined => return Some(Seen::Undefined),
        }
    }
    None
}
