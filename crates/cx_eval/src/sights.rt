//! What a port is seen as.

ghost use Rattle.std.specs.Prelude.{◌≡◌, ◌<◌, ℕ, IfSome, length, take, true};
ghost use Rattle.cx_meaning.specs.declared.ports.PortRef as refs;
ghost use Rattle.cx_meaning.specs.declared.ports.PortRef.TheVariants.{Cell};
ghost use Rattle.cx_meaning.specs.Instances.{paths_of, tree_of};
ghost use Rattle.cx_design.specs.PlainDesigns.{plain_design};
ghost use Rattle.cx_state.specs.States.{IsStateOf, plain_state};
ghost use Rattle.cx_eval_network.specs.Askings.{IsAsking};
ghost use Rattle.cx_eval_network.specs.Nodes.{ArePortsOf, part_at};
ghost use Rattle.cx_eval.specs.Evaluated.{CanAct, IsPort, IsSeen};
ghost use Rattle.cx_eval.specs.Looked.{CanDemand};
ghost use Rattle.cx_eval.specs.Sources.{AreOperators, EndsAt};
ghost use Rattle.cx_eval.specs.Tables.{AreReady, AreTables, design_of};

use crate::demanding::demand_port;
use crate::known::{Ahead, ahead_of};
use crate::operators::find_operators;
use crate::sources::Operator;
use crate::tables::{Tables, ask, known_group};
use cx_design::{Active, PortRef, Seen};
use cx_eval_network::{Asking, GroupList, InstancePorts, Marks};
use cx_state::State;

/// The ports of the asked instance.
pub(crate) fn own_ports<'b>(asking: &Asking<'b>) -> InstancePorts<'b>
    requires can { IsAsking asking.now }
    ensures own { ArePortsOf
        (plain_design asking.now.design.now) asking.now.table.now.rows.items asking.now.instance result }
{
    asking
        .nodes
        .ports_of(asking.design, asking.table, asking.instance)
}

/// Finds the ports of a list of what is active in the asked instance, where one is named. It takes no memory.
pub(crate) fn fill_list(asking: &Asking<'_>, marks: &mut Marks, list: Option<GroupList>)
    requires can { IsAsking asking.now }
    requires ready { CanDemand asking.now marks.old }
    ensures ready { CanDemand asking.now marks.new }
{
    if let Some(list) = list {
        marks.fill(asking, list);
    }
}

/// What a port of an instance is seen as under an active set, where what is marked is right. Where a list of what is
/// active is named, its ports are found first, one behind the other, so that looks wait for none. It takes no memory.
#[inline(always)]
pub(crate) fn seen_in(
    tables: &Tables<'_>,
    marks: &mut Marks,
    state: &State,
    active: &Active,
    instance: usize,
    list: Option<GroupList>,
    port: PortRef,
) -> Seen
    requires tables { AreTables tables.now }
    requires state { IsStateOf (design_of tables.now) (plain_state state.now) }
    requires instance { instance < length (paths_of (tree_of (design_of tables.now))) }
    requires active { CanAct (design_of tables.now) instance active.now }
    requires ready { AreReady tables.now (plain_state state.now) instance active.now marks.old }
    requires port { IsPort (design_of tables.now) instance port }
    ensures value { IsSeen (design_of tables.now) (plain_state state.now) instance active.now port result }
    ensures ready { AreReady tables.now (plain_state state.now) instance active.now marks.new }
{
    let asking = ask(tables, state, active, instance);
    fill_list(&asking, marks, list);
    let ports = own_ports(&asking);
    demand_port(&asking, ports, marks, port)
}

/// What a port is seen as that is an operator of a closed comb group, where there is room for those that it needs. It takes no
/// memory.
pub(crate) fn test_seen(
    tables: &Tables<'_>,
    slots: &mut [Seen],
    state: &State,
    active: &Active,
    instance: usize,
    port: PortRef,
) -> Option<Seen>
    requires tables { AreTables tables.now }
    requires state { IsStateOf (design_of tables.now) (plain_state state.now) }
    requires instance { instance < length (paths_of (tree_of (design_of tables.now))) }
    requires active { CanAct (design_of tables.now) instance active.now }
    ensures value { IfSome result
        (IsSeen (design_of tables.now) (plain_state state.now) instance active.now port) }
{
    let operators = operators_to(tables, active, instance, port)?;
    last_seen(tables, slots, state, active, instance, operators)
}

/// The operators of a closed group up to one that is a port: what it takes to see this.
fn operators_to<'b>(
    tables: &'b Tables<'_>,
    active: &Active,
    instance: usize,
    port: PortRef,
) -> Option<&'b [Operator]>
    requires tables { AreTables tables.now }
    requires instance { instance < length (paths_of (tree_of (design_of tables.now))) }
    ensures operators { IfSome result (λ operators. AreOperators
        (part_at (design_of tables.now) tables.now.table.rows.items instance) active.now operators.now) }
    ensures last { IfSome result (λ operators. EndsAt port operators.now) }
{
    match active {
        Active::Group(group) => match ahead_of(known_group(tables, instance, *group)) {
            Ahead::Closed(closed) => up_to(&closed.operators, port),
            Ahead::Nothing | Ahead::List(_) => None,
        },
        Active::Nothing | Active::Entries(_) | Active::CallEnd(_) => None,
    }
}

/// Those of some operators up to one that is a port.
fn up_to(operators: &[Operator], port: PortRef) -> Option<&[Operator]>
    ensures first { IfSome result (λ some. (count : ℕ) × (some.now ≡ take count operators.now)) }
    ensures last { IfSome result (λ some. EndsAt port some.now) }
{
    for place in 0..operators.len() {
        if is_port(&operators[place], port) {
            return Some(&operators[..place + 1]);
        }
    }
    None
}

/// Whether an operator is a port.
fn is_port(operator: &Operator, port: PortRef) -> bool
    ensures value { result ≡ true → port ≡ Cell operator.now.cell operator.now.port }
{
    match port {
        PortRef::Cell(cell, number) => operator.cell == cell && operator.port == number,
        PortRef::Input(_) | PortRef::Output(_) | PortRef::Done(_) | PortRef::Literal(_, _) => false,
    }
}

/// What the last of some operators is seen as, where there is room for all of them. It takes no memory.
fn last_seen(
    tables: &Tables<'_>,
    slots: &mut [Seen],
    state: &State,
    active: &Active,
    instance: usize,
    operators: &[Operator],
) -> Option<Seen>
    requires tables { AreTables tables.now }
    requires state { IsStateOf (design_of tables.now) (plain_state state.now) }
    requires instance { instance < length (paths_of (tree_of (design_of tables.now))) }
    requires active { CanAct (design_of tables.now) instance active.now }
    requires operators { AreOperators (part_at (design_of tables.now) tables.now.table.rows.items instance)
        active.now operators.now }
    ensures value { IfSome result (λ seen. (port : refs.PortRef) → EndsAt port operators.now →
        IsSeen (design_of tables.now) (plain_state state.now) instance active.now port seen) }
{
    if operators.len() > slots.len() || operators.is_empty() {
        return None;
    }
    let asking = ask(tables, state, active, instance);
    let component = tables.table.rows[instance].component;
    find_operators(&asking, component, operators, slots);
    Some(slots[operators.len() - 1])
}
