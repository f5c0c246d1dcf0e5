//! Numbers for the ports of a component.

ghost use Rattle.std.specs.Prelude.{◌≡◌, ◌+◌, ◌-◌, ◌<◌, ◌≤◌, ℕ, IfOk, length, slice_index};
ghost use Rattle.cx_meaning.specs.declared.ports.PortRef.TheVariants.{Cell};
ghost use Rattle.cx_meaning.specs.Instances.{Instance, cell_at, cells_of, cell_count};
ghost use Rattle.cx_rules.specs.Ports.{component_of};
ghost use Rattle.cx_rules.specs.Wellformed as wellformed;
ghost use Rattle.cx_design.specs.PlainDesigns.{plain_design};
ghost use Rattle.cx_design_leads.specs.Nodes.{IsNodesOf, below, node_count, node_of, ports_before};

use cx_cells::Primitive;
use cx_design::{Design, PortRef};
use cx_design_parts::{At, component, stands_at};
use cx_prim::Cycle;
use cx_text::Memory;
use std::alloc::Global;

/// A numbering of the ports of a component: those of its cells, cell by cell, then its inputs, its outputs and the dones of
/// its groups.
#[derive(Debug, Drop)]
pub struct Nodes {
    /// Where the ports of each cell begin, and where those of the last end.
    cells: Vec<u32>,
    inputs: u32,
    outputs: u32,
    dones: u32,
    count: u32,
}

impl Nodes {
    /// The numbering of a component. Ports that no `u32` counts are too many for any memory.
    pub fn new(alloc: Global, design: &Design, number: usize) -> Result<Nodes, Memory>
        requires within { number < length design.now.components.items }
        ensures value { IfOk result (IsNodesOf (component_of (plain_design design.now) number)) }
    {
        let part = component(design, number);
        let cells = starts(alloc, design, number)?;
        let inputs = start(cells.as_slice(), part.cells.len());
        let outputs = sum(inputs, part.inputs.len())?;
        let dones = sum(outputs, part.outputs.len())?;
        let count = sum(dones, part.groups.len())?;
        Ok(Nodes {
            cells,
            inputs,
            outputs,
            dones,
            count,
        })
    }

    /// How many nodes there are.
    pub fn count(&self) -> usize
        ensures value { (i : Instance) → IsNodesOf i self.now → result ≡ node_count i }
    {
        self.count as usize
    }

    /// The node of a port. A literal has none, nor has a port that is not there.
    pub fn node(&self, port: PortRef) -> Option<u32>
        ensures value { (i : Instance) → IsNodesOf i self.now → result ≡ node_of i port }
    {
        match port {
            PortRef::Cell(cell, port) => self.cell_node(cell, port),
            PortRef::Input(port) => between(self.inputs, self.outputs, port),
            PortRef::Output(port) => between(self.outputs, self.dones, port),
            PortRef::Done(group) => between(self.dones, self.count, group),
            PortRef::Literal(_, _) => None,
        }
    }

    /// The node of a port of a cell.
    fn cell_node(&self, cell: u32, port: u32) -> Option<u32>
        ensures value { (i : Instance) → IsNodesOf i self.now → result ≡ node_of i (Cell cell port) }
    {
        let cell = cell as usize;
        if cell + 1 < self.cells.len() {
            between(self.cells[cell], self.cells[cell + 1], port)
        } else {
            None
        }
    }
}

/// The node of a number, of those from the first to before the last.
fn between(first: u32, last: u32, number: u32) -> Option<u32>
    ensures value { (count : ℕ) → last ≡ first + count → result ≡ below count first number }
{
    if first <= last && number < last - first {
        Some(first + number)
    } else {
        None
    }
}

/// Where the ports of each cell begin, and where those of the last end.
fn starts(alloc: Global, design: &Design, number: usize) -> Result<Vec<u32>, Memory>
    requires within { number < length design.now.components.items }
    ensures len { IfOk result (λ starts.
        length starts.items ≡ cell_count (cells_of (component_of (plain_design design.now) number)) + 1) }
    ensures value { IfOk result (λ starts. (c : ℕ) → c < length starts.items
        → slice_index starts.items c ≡
        ports_before (cells_of (component_of (plain_design design.now) number)) c) }
{
    let mut next = 0;
    let mut starts = Vec::new(alloc);
    starts.push(next)?;
    for cell in 0..component(design, number).cells.len() {
        let cell_number = narrow(cell)?;
        next = sum(next, port_count(design, number, cell_number)? as usize)?;
        starts.push(next)?;
    }
    Ok(starts)
}

/// Where the ports of a cell begin.
fn start(starts: &[u32], cell: usize) -> u32
    requires within { cell < length starts.now }
    ensures value { result ≡ slice_index starts.now cell }
{
    starts[cell]
}

/// How many ports a cell has.
fn port_count(design: &Design, number: usize, cell: u32) -> Result<u32, Memory>
    requires within { number < length design.now.components.items }
    ensures value { IfOk result (λ count. count ≡
        wellformed.port_count (cell_at (cells_of (component_of (plain_design design.now) number)) cell)) }
{
    match stands_at(design, number, cell) {
        At::Nothing => Ok(0),
        At::Primitive(primitive) => narrow(primitive.port_count()),
        At::Part(part) => sum(sum(2, part.inputs.len())?, part.outputs.len()),
    }
}

fn sum(first: u32, second: usize) -> Result<u32, Memory>
    ensures value { IfOk result (λ sum. sum ≡ first + second) }
{
    match (first as usize).checked_add(second) {
        Some(sum) => narrow(sum),
        None => Err(Memory),
    }
}

/// A number as a `u32`. One that is no `u32` counts what is too much for any memory.
pub fn narrow(number: usize) -> Result<u32, Memory>
    ensures value { IfOk result (λ narrow. narrow ≡ number) }
{
    match u32::try_from(number) {
        Ok(narrow) => Ok(narrow),
        Err(_) => Err(Memory),
    }
}
