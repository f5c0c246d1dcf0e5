//! Static invokes that break the rule.

ghost use Rattle.std.specs.Prelude.{◌≡◌, ◌<◌, ◌↔◌, ◌∷◌, ◌++◌, ℕ, [], false, replicate, true, IfOk, IsTrue, List, OnOk, Some, length, not};
ghost use Rattle.std.specs.List.{list_any};
ghost use Rattle.cx_graphs.specs.Graphs.{Bounded, IsGraph, IsReached, edges_of};
ghost use Rattle.cx_graphs.specs.Tallies.{IsClear};
ghost use Rattle.cx_meaning.specs.Instances as instances;
ghost use Rattle.cx_meaning.specs.Designs.{PlainAssign, component_at};
ghost use Rattle.cx_meaning.specs.Active.{same_port};
ghost use Rattle.cx_meaning.specs.Instances.{cell_at, cells_of};
ghost use Rattle.cx_text.specs.Members.{In};
ghost use Rattle.cx_rules.specs.Ports.{component_of};
ghost use Rattle.cx_rules.specs.InvokeShape.{input_port};
ghost use Rattle.cx_design.specs.PlainForms.{plain_assigns, plain_invoke};
ghost use Rattle.cx_design.specs.PlainDesigns.{plain_design};
ghost use Rattle.cx_race.specs.Links.{AreLinks};
ghost use Rattle.cx_shape_state.specs.Tells.{Tells};
ghost use Rattle.cx_shape_calls.specs.StaticInvokes as invokes;
ghost use Rattle.cx_shape_calls.specs.StaticInvokes.{AreBound, AreMarksOf, FeedsBack, IsMarkOf};

use cx_design::{Assign, Design, PortRef, StaticInvoke};
use cx_design_parts::{At, component, stands_at};
use cx_graphs::{Owners, Tally};
use cx_race::{add_assigns, links};
use cx_shape_state::{Resting, all_rest};
use cx_text::Memory;
use std::alloc::Global;

/// For each static invoke of a component whether it breaks the rule.
pub fn wrong_invokes(alloc: Global, design: &Design, number: usize) -> Result<Vec<bool>, Memory>
    requires within { number < length design.now.components.items }
    ensures marks { IfOk result (λ marks. AreMarksOf (component_of (plain_design design.now) number)
        (length (component_at (plain_design design.now) number).invokes) marks.items) }
{
    if component(design, number).invokes.is_empty() {
        return Ok(Vec::new(alloc));
    }
    let resting = Resting::of(alloc, design, number)?;
    let links = links(alloc, design, number)?;
    let marks = marks(alloc, design, number, &resting, links.as_slice())?;
    Ok(marks)
}

fn marks(
    alloc: Global,
    design: &Design,
    number: usize,
    resting: &Resting,
    links: &[Vec<u32>],
) -> Result<Vec<bool>, Memory>
    requires within { number < length design.now.components.items }
    requires tells { Tells (component_of (plain_design design.now) number) resting.now }
    requires links { AreLinks (component_at (plain_design design.now) number) (edges_of links.now) }
    ensures marks { IfOk result (λ marks. AreMarksOf (component_of (plain_design design.now) number)
        (length (component_at (plain_design design.now) number).invokes) marks.items) }
{
    let invokes = component(design, number).invokes.as_slice();
    let mut tally = Tally::new(alloc, links.len())?;
    let mut marks = Vec::new(alloc);
    for place in 0..invokes.len() {
        let invoke = &invokes[place];
        let wrong = is_wrong_invoke(alloc, design, number, resting, links, &mut tally, invoke)?;
        marks.push(wrong)?;
    }
    Ok(marks)
}

/// Whether a static invoke breaks the rule.
fn is_wrong_invoke(
    alloc: Global,
    design: &Design,
    number: usize,
    resting: &Resting,
    links: &[Vec<u32>],
    tally: &mut Tally,
    invoke: &StaticInvoke,
) -> Result<bool, Memory>
    requires within { number < length design.now.components.items }
    requires tells { Tells (component_of (plain_design design.now) number) resting.now }
    requires links { AreLinks (component_at (plain_design design.now) number) (edges_of links.now) }
    requires tally { IsClear (length links.now) tally.old.owners.items tally.old.touched.items }
    requires stands { In (component_at (plain_design design.now) number).invokes (plain_invoke invoke.now) }
    ensures tally { OnOk result (IsClear (length links.now) tally.new.owners.items tally.new.touched.items) }
    ensures value { IfOk result (IsMarkOf (component_of (plain_design design.now) number) (plain_invoke invoke.now)) }
{
    if invoke.latency.is_none() {
        return Ok(true);
    }
    let inputs = invoke.inputs.as_slice();
    let count = input_count(design, number, invoke.cell);
    let unbound = has_unbound(alloc, inputs, invoke.cell, count)?;
    if unbound {
        return Ok(true);
    }
    let restless = is_restless(alloc, design, number, resting, inputs)?;
    if restless {
        return Ok(true);
    }
    let fed_back = is_fed_back(alloc, design, number, links, tally, invoke)?;
    Ok(fed_back)
}

/// How many inputs the component of a cell has; none where it is another cell.
fn input_count(design: &Design, number: usize, cell: u32) -> usize
    requires within { number < length design.now.components.items }
    ensures value { result ≡
        instances.input_count (cell_at (cells_of (component_of (plain_design design.now) number)) cell) }
{
    match stands_at(design, number, cell) {
        At::Part(part) => part.inputs.len(),
        At::Nothing | At::Primitive(_) => 0,
    }
}

/// Whether one of the first so many inputs of a cell is bound by no assignment.
fn has_unbound(alloc: Global, inputs: &[Assign], cell: u32, count: usize) -> Result<bool, Memory>
    ensures value { IfOk result (λ unbound. unbound ≡ invokes.some_unbound cell (plain_assigns inputs.now) count) }
{
    let marks = bound_inputs(alloc, inputs, cell, count)?;
    Ok(is_one_unset(marks.as_slice()))
}

/// Whether one of the marks is not set.
fn is_one_unset(marks: &[bool]) -> bool
    ensures value { result ≡ list_any not marks.now }
{
    for mark in marks {
        if !*mark {
            return true;
        }
    }
    false
}

/// For each of so many inputs of a cell whether an assignment binds it.
fn bound_inputs(
    alloc: Global,
    inputs: &[Assign],
    cell: u32,
    count: usize,
) -> Result<Vec<bool>, Memory>
    ensures value { IfOk result (λ marks. AreBound cell (plain_assigns inputs.now) count marks.items) }
{
    let mut marks = no_marks(alloc, count)?;
    for input in inputs {
        mark_input(&mut marks, cell, input.target);
    }
    Ok(marks)
}

/// A mark for each of so many inputs, none of them set.
fn no_marks(alloc: Global, count: usize) -> Result<Vec<bool>, Memory>
    ensures value { IfOk result (λ marks. marks.items ≡ replicate count false) }
{
    Ok(vec![in alloc; false; count]?)
}

/// Marks the input of a cell that a port is, where it is one: input n is port n + 1, behind the go.
fn mark_input(marks: &mut Vec<bool>, cell: u32, port: PortRef)
    ensures value { (inputs : List PlainAssign) (a : PlainAssign) → a.target ≡ port →
        AreBound cell inputs (length marks.old.items) marks.old.items →
        AreBound cell (inputs ++ a ∷ []) (length marks.old.items) marks.new.items }
{
    let Some(input) = input_number(cell, port) else {
        return;
    };
    if input < marks.len() {
        marks[input] = true;
    }
}

/// Which input of a cell a port is, where it is not the go of the cell.
fn input_number(cell: u32, port: PortRef) -> Option<usize>
    ensures value { (n : ℕ) → (same_port (input_port cell n) port ≡ true) ↔ (result ≡ Some n) }
{
    match port {
        PortRef::Cell(owner, port) => {
            if owner == cell && port != 0 {
                Some(port as usize - 1)
            } else {
                None
            }
        }
        PortRef::Input(_) | PortRef::Output(_) | PortRef::Done(_) | PortRef::Literal(_, _) => None,
    }
}

/// Whether one of the inputs has a source that does not rest on state.
fn is_restless(
    alloc: Global,
    design: &Design,
    number: usize,
    resting: &Resting,
    inputs: &[Assign],
) -> Result<bool, Memory>
    requires within { number < length design.now.components.items }
    requires tells { Tells (component_of (plain_design design.now) number) resting.now }
    ensures value { IfOk result (λ restless.
        restless ≡
        invokes.is_restless (component_of (plain_design design.now) number) (plain_assigns inputs.now)) }
{
    for input in inputs {
        if !all_rest(alloc, design, number, resting, true, input)? {
            return Ok(true);
        }
    }
    Ok(false)
}

/// Whether one of the inputs names a cell that leads to the invoked one.
fn is_fed_back(
    alloc: Global,
    design: &Design,
    number: usize,
    links: &[Vec<u32>],
    tally: &mut Tally,
    invoke: &StaticInvoke,
) -> Result<bool, Memory>
    requires within { number < length design.now.components.items }
    requires links { AreLinks (component_at (plain_design design.now) number) (edges_of links.now) }
    requires tally { IsClear (length links.now) tally.old.owners.items tally.old.touched.items }
    requires stands { In (component_at (plain_design design.now) number).invokes (plain_invoke invoke.now) }
    ensures tally { OnOk result (IsClear (length links.now) tally.new.owners.items tally.new.touched.items) }
    ensures value { IfOk result (λ fed_back.
        IsTrue fed_back ↔ FeedsBack (component_at (plain_design design.now) number)
        (plain_invoke invoke.now).inputs invoke.now.cell) }
{
    let mut named = Vec::new(alloc);
    add_assigns(alloc, &mut named, invoke.inputs.as_slice())?;
    let fed_back = lead_to(alloc, links, tally, named, invoke.cell)?;
    Ok(fed_back)
}

/// Whether links lead from one of some cells to a cell, or it is one of them. A tally of the cells serves meanwhile and is
/// empty again at the end, so what is not reached costs nothing.
fn lead_to(
    alloc: Global,
    links: &[Vec<u32>],
    tally: &mut Tally,
    cells: Vec<u32>,
    cell: u32,
) -> Result<bool, Memory>
    requires graph { IsGraph (edges_of links.now) }
    requires tally { IsClear (length links.now) tally.old.owners.items tally.old.touched.items }
    requires cells { Bounded (length links.now) cells.items }
    requires within { cell < length links.now }
    ensures tally { OnOk result (IsClear (length links.now) tally.new.owners.items tally.new.touched.items) }
    ensures value { IfOk result (λ lead. IsTrue lead ↔ IsReached (edges_of links.now) cells.items cell) }
{
    let mut lists = Vec::new(alloc);
    lists.push(cells)?;
    let mut groups = Tally::new(alloc, 0)?;
    tally.tally_reached(links, &mut groups, &[], &[], lists.as_slice())?;
    let lead = !tally.owners[cell as usize].is(Owners::Nobody);
    tally.clear();
    Ok(lead)
}
