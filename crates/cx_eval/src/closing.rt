//! The operators of a group, each behind what its inputs are seen as.

ghost use Rattle.std.specs.Prelude.{◌≡◌, List, [], ◌∷◌, ◌++◌, IfOk, IfSome, OnOk, Some, length, slice_get, slice_set};
ghost use Rattle.cx_meaning.specs.declared.ports.PortRef.TheVariants.{Cell};
ghost use Rattle.cx_meaning.specs.Instances.{Instance};
ghost use Rattle.cx_design.specs.declared.actives.Active as actives;
ghost use Rattle.cx_eval_network.specs.declared.planned.PortPlan.TheVariants.{Output};
ghost use Rattle.cx_eval_network.specs.Lists.{AreListed, IsListed};
ghost use Rattle.cx_eval.specs.declared.sources.Operator as operator;
ghost use Rattle.cx_eval.specs.Sources.{AreKnownPorts, AreOperators, AreSeenBy, HasPlan, HaveGrown, IsNumberSeen, IsPartGroup, IsSeenBy};

use crate::leaves::{PartGroup, leaf};
use crate::sources::{Operator, Source};
use cx_design::PortRef;
use cx_eval_network::{FoundBy, ListedPort, PortPlan, port_plan};
use cx_text::Memory;
use std::alloc::Global;

/// The listed ports of a group by their numbers, ascending, and what each is seen as, as far as that is known.
#[derive(Drop)]
pub(crate) struct KnownPorts {
    pub(crate) numbers: Vec<usize>,
    pub(crate) sources: Vec<Option<Source>>,
}

impl KnownPorts {
    /// Listed ports of which nothing is known.
    fn new(alloc: Global, ports: &[ListedPort]) -> Result<KnownPorts, Memory>
        ensures unknown { IfOk result (λ known. (i : Instance) (active : actives.Active)
            (operators : List operator.Operator) → AreKnownPorts i active operators known) }
    {
        let mut numbers = Vec::new(alloc);
        for port in ports {
            numbers.push(port.number)?;
        }
        numbers.sort_unstable();
        let sources = vec![in alloc; None; numbers.len()]?;
        Ok(KnownPorts { numbers, sources })
    }

    /// What a port is seen as, by its number.
    pub(crate) fn source(&self, of: &PartGroup<'_>, number: usize) -> Option<Source>
        ensures value { IfSome result (λ source. (i : Instance) (operators : List operator.Operator) →
            IsPartGroup i of.now → AreKnownPorts i of.now.active.now operators self.now
            → IsNumberSeen i of.now.active.now operators number source) }
    {
        match place_of(&self.numbers, number) {
            Some(place) => source_at(&self.sources, place),
            None => leaf(of, number),
        }
    }

    /// A listed port is seen as a source.
    fn know(&mut self, number: usize, source: Source)
        ensures known { (i : Instance) (active : actives.Active) (operators : List operator.Operator) →
            IsNumberSeen i active operators number source →
            AreKnownPorts i active operators self.old → AreKnownPorts i active operators self.new }
    {
        if let Some(place) = place_of(&self.numbers, number) {
            put_source(&mut self.sources, place, source);
        }
    }
}

/// The place of a number among some that ascend, where it is there.
fn place_of(numbers: &[usize], number: usize) -> Option<usize>
    ensures value { IfSome result (λ place. slice_get numbers.now place ≡ Some number) }
{
    match numbers.binary_search(&number) {
        Ok(place) => Some(place),
        Err(_) => None,
    }
}

/// The source of a place, where it is known.
fn source_at(sources: &[Option<Source>], place: usize) -> Option<Source>
    ensures value { IfSome result (λ source. slice_get sources.now place ≡ Some (Some source)) }
{
    match sources.get(place) {
        Some(source) => *source,
        None => None,
    }
}

/// Puts a source at a place, where this is there.
fn put_source(sources: &mut [Option<Source>], place: usize, source: Source)
    ensures value { sources.new ≡ slice_set sources.old place (Some source) }
{
    if place < sources.len() {
        sources[place] = Some(source);
    }
}

/// What a port of a cell is seen as.
pub(crate) fn cell_source(
    of: &PartGroup<'_>,
    known: &KnownPorts,
    cell: u32,
    port: u32,
) -> Option<Source>
    ensures value { IfSome result (λ source. (i : Instance) (operators : List operator.Operator) →
        IsPartGroup i of.now → AreKnownPorts i of.now.active.now operators known.now
        → IsSeenBy i of.now.active.now operators (Cell cell port) source) }
{
    let number = of.part.numbers.node(PortRef::Cell(cell, port))?;
    known.source(of, number as usize)
}

/// What the first so many ports of a cell are seen as; none where one of them has no source.
pub(crate) fn port_sources(
    alloc: Global,
    of: &PartGroup<'_>,
    known: &KnownPorts,
    cell: u32,
    count: usize,
) -> Result<Option<Vec<Source>>, Memory>
    ensures count { IfOk result (λ found. IfSome found (λ sources. length sources.items ≡ count)) }
    ensures value { IfOk result (λ found. IfSome found (λ sources. (i : Instance)
        (operators : List operator.Operator) → IsPartGroup i of.now
        → AreKnownPorts i of.now.active.now operators known.now
        → AreSeenBy i of.now.active.now operators cell sources.items)) }
{
    let mut sources = Vec::new(alloc);
    for port in 0..count {
        match cell_source(of, known, cell, narrow(port)?) {
            Some(source) => add_source(&mut sources, source)?,
            None => return Ok(None),
        }
    }
    Ok(Some(sources))
}

/// Adds a source.
fn add_source(sources: &mut Vec<Source>, source: Source) -> Result<(), Memory>
    ensures items { OnOk result (sources.new.items ≡ sources.old.items ++ source ∷ []) }
{
    // As a copy: for a push of the source itself the kit's borrow checker does not find the module of `Seen`.
    sources.extend_from_slice(&[source])?;
    Ok(())
}

/// Adds an operator where what its inputs are seen as is known, and tells how it is seen.
fn add_operator(
    alloc: Global,
    of: &PartGroup<'_>,
    known: &KnownPorts,
    operators: &mut Vec<Operator>,
    cell: u32,
    port: u32,
    reads: usize,
) -> Result<Option<Source>, Memory>
    ensures grown { OnOk result (HaveGrown operators.old.items operators.new.items) }
    ensures operators { OnOk result ((i : Instance) → IsPartGroup i of.now →
        AreKnownPorts i of.now.active.now operators.old.items known.now
        → HasPlan i (Cell cell port) (Output reads) → AreOperators i of.now.active.now operators.old.items
        → AreOperators i of.now.active.now operators.new.items) }
    ensures seen { IfOk result (λ found. IfSome found (λ source. (i : Instance) →
        IsSeenBy i of.now.active.now operators.new.items (Cell cell port) source)) }
{
    match port_sources(alloc, of, known, cell, reads)? {
        Some(inputs) => {
            let place = operators.len();
            operators.push(Operator { cell, port, inputs })?;
            Ok(Some(Source::Slot(place)))
        }
        None => Ok(None),
    }
}

/// What a listed port is seen as; an operator is added.
fn listed_source(
    alloc: Global,
    of: &PartGroup<'_>,
    known: &KnownPorts,
    operators: &mut Vec<Operator>,
    port: &ListedPort,
) -> Result<Option<Source>, Memory>
    requires listed { IsListed of.now.part.now.ports.items of.now.plans.now.ports.items
        of.now.active.now port.now }
    ensures grown { OnOk result (HaveGrown operators.old.items operators.new.items) }
    ensures operators { OnOk result ((i : Instance) → IsPartGroup i of.now →
        AreKnownPorts i of.now.active.now operators.old.items known.now
        → AreOperators i of.now.active.now operators.old.items
        → AreOperators i of.now.active.now operators.new.items) }
    ensures seen { IfOk result (λ found. IfSome found (λ source. (i : Instance) → IsPartGroup i of.now →
        AreKnownPorts i of.now.active.now operators.old.items known.now
        → IsNumberSeen i of.now.active.now operators.new.items port.now.number source)) }
{
    match port.found_by {
        FoundBy::Fixed(seen) => Ok(Some(Source::Fixed(seen))),
        FoundBy::State { cell, port } => Ok(Some(Source::State { cell, port })),
        FoundBy::Port(other) => Ok(known.source(of, other as usize)),
        FoundBy::Inputs { cell, port, reads } => {
            add_operator(alloc, of, known, operators, cell, port, reads)
        }
        FoundBy::Look => Ok(None),
    }
}

/// What the listed ports of a group are seen as, and the operators that this needs, where there were none.
pub(crate) fn known_ports(
    alloc: Global,
    of: &PartGroup<'_>,
    ports: &[ListedPort],
    operators: &mut Vec<Operator>,
) -> Result<KnownPorts, Memory>
    requires listed { AreListed of.now.part.now.ports.items of.now.plans.now.ports.items
        of.now.active.now ports.now }
    requires none { operators.old.items ≡ [] }
    ensures operators { OnOk result
        ((i : Instance) → IsPartGroup i of.now → AreOperators i of.now.active.now operators.new.items) }
    ensures known { IfOk result (λ known. (i : Instance) → IsPartGroup i of.now →
        AreKnownPorts i of.now.active.now operators.new.items known) }
{
    let mut known = KnownPorts::new(alloc, ports)?;
    for port in ports {
        if let Some(source) = listed_source(alloc, of, &known, operators, port)? {
            known.know(port.number, source);
        }
    }
    Ok(known)
}

/// A number as a `u32`. One that is no `u32` counts what is too much for any memory.
pub(crate) fn narrow(number: usize) -> Result<u32, Memory>
    ensures value { IfOk result (λ narrow. narrow ≡ number) }
{
    match u32::try_from(number) {
        Ok(narrow) => Ok(narrow),
        Err(_) => Err(Memory),
    }
}

/// How many inputs of its cell's primitive an output reads, where a port is one that reads some.
fn reads_of(of: &PartGroup<'_>, port: PortRef) -> Option<usize>
    ensures value { IfSome result (λ reads. (i : Instance) → IsPartGroup i of.now → HasPlan i port (Output reads)) }
{
    let number = of.part.numbers.node(port)?;
    match port_plan(&of.plans.ports, number as usize) {
        Some(PortPlan::Output(reads)) if *reads > 0 => Some(*reads),
        Some(_) | None => None,
    }
}

/// Adds the operators that the first so many ports of a cell are, where what their inputs are seen as is known.
pub(crate) fn add_outputs(
    alloc: Global,
    of: &PartGroup<'_>,
    known: &KnownPorts,
    operators: &mut Vec<Operator>,
    cell: u32,
    count: usize,
) -> Result<(), Memory>
    ensures grown { OnOk result (HaveGrown operators.old.items operators.new.items) }
    ensures operators { OnOk result ((i : Instance) → IsPartGroup i of.now →
        AreKnownPorts i of.now.active.now operators.old.items known.now
        → AreOperators i of.now.active.now operators.old.items → AreOperators i of.now.active.now operators.new.items) }
{
    for port in 0..count {
        add_output(alloc, of, known, operators, cell, narrow(port)?)?;
    }
    Ok(())
}

/// The same of one port.
fn add_output(
    alloc: Global,
    of: &PartGroup<'_>,
    known: &KnownPorts,
    operators: &mut Vec<Operator>,
    cell: u32,
    port: u32,
) -> Result<(), Memory>
    ensures grown { OnOk result (HaveGrown operators.old.items operators.new.items) }
    ensures operators { OnOk result ((i : Instance) → IsPartGroup i of.now →
        AreKnownPorts i of.now.active.now operators.old.items known.now
        → AreOperators i of.now.active.now operators.old.items → AreOperators i of.now.active.now operators.new.items) }
{
    match reads_of(of, PortRef::Cell(cell, port)) {
        Some(reads) => match add_operator(alloc, of, known, operators, cell, port, reads) {
            Ok(_) => Ok(()),
            Err(memory) => Err(memory),
        },
        None => Ok(()),
    }
}
