//! The group of an invoke.

ghost use Rattle.std.specs.Prelude.{◌≡◌, [], ◌∷◌, ◌++◌, OnOk, IfOk, codes, flat_map, map, unwrap_or};
ghost use Rattle.cx_meaning.specs.Designs.{Atom, Always};
ghost use Rattle.cx_design.specs.PlainForms.{plain_assign, plain_assigns, plain_group, plain_guard};
ghost use Rattle.cx_numbering.specs.Names.{cell_among};
ghost use Rattle.cx_numbering.specs.DesignOf as design;
ghost use Rattle.cx_names.specs.Sites.{IsSite, tree_at, part_at};
ghost use Rattle.cx_names.specs.Calls.{invoke_of, capture_of, enable_of};

use crate::operands::{cell_port, known_port, placed, port};
use crate::sites::Site;
use cx_ast::{BindItem, OperandForm};
use cx_design::{Assign, Group, Guard};
use cx_meaning::{GroupKind, PlacedPort, PortRef};
use cx_text::{Memory, Name, Place};
use std::alloc::Global;

/// An invoke: the cell, whether the word static stands there and with what length, what is bound, and where the statement stands.
#[derive(Clone, Copy)]
pub(crate) struct Call<'a> {
    pub cell: &'a Name,
    pub is_written: bool,
    pub length: Option<u64>,
    pub inputs: &'a [BindItem],
    pub outputs: &'a [BindItem],
    pub place: Place,
}

/// The literal `1'd1`.
pub(crate) const ONE: PortRef = PortRef::Literal(1, 1);

/// Adds the assignment of each bound input.
pub(crate) fn add_inputs(site: &Site, assigns: &mut Vec<Assign>, call: Call) -> Result<(), Memory>
    requires { IsSite site.now }
    ensures { OnOk result (plain_assigns assigns.new.items ≡
        plain_assigns assigns.old.items ++ map (design.input_assign (tree_at site.now) (part_at site.now)
        (invoke_of call.entry)) call.entry.inputs.now) }
{
    for bind in call.inputs {
        let target = cell_port(site, call.cell, &bind.name)?;
        let source = placed(site, &bind.value)?;
        assigns.push(Assign {
            target,
            guard: Guard::True,
            source,
            place: call.place,
        })?;
    }
    Ok(())
}

// The name of the port that an invoke of a cell drives. A cell that has none has an empty one.
fn go_name(site: &Site, cell: &Name) -> &'static str
    requires { IsSite site.now }
    ensures { result.now ≡ unwrap_or (design.found_go (tree_at site.now) (part_at site.now)
        (cell_among cell.now (part_at site.now).cells)) [] }
{
    let Some(found) = site.scope.cell(cell) else {
        return "";
    };
    site.scope.kind(found).go().unwrap_or("")
}

// The port of a cell that an invoke drives.
fn go_port(alloc: Global, site: &Site, cell: &Name) -> Result<PortRef, Memory>
    requires { IsSite site.now }
    ensures { IfOk result (λ p. p ≡ design.go_port (tree_at site.now) (part_at site.now)
        (design.found_go (tree_at site.now) (part_at site.now) (cell_among cell.now (part_at site.now).cells))
        cell.now) }
{
    let name = go_name(site, cell);
    let port = known_port(alloc, site, cell, name.as_bytes())?;
    Ok(port)
}

// The done of a cell, at a place.
fn cell_done(alloc: Global, site: &Site, cell: &Name, place: Place) -> Result<PlacedPort, Memory>
    requires { IsSite site.now }
    ensures { IfOk result (λ p. p ≡ record {
      port = design.cell_port (tree_at site.now)
          (part_at site.now) cell.now (codes "done");
      place = place;
    }) }
{
    let port = known_port(alloc, site, cell, b"done")?;
    Ok(PlacedPort { port, place })
}

// The guard of a go: with outputs it is cut by the done.
fn go_guard(alloc: Global, site: &Site, call: Call) -> Result<Guard, Memory>
    requires { IsSite site.now }
    ensures { IfOk result (λ g. plain_guard g ≡
        design.go_guard (tree_at site.now) (part_at site.now) (invoke_of call.entry) call.entry.outputs.now) }
{
    if call.outputs.is_empty() {
        return Ok(Guard::True);
    }
    let done = cell_done(alloc, site, call.cell, call.place)?;
    Ok(Guard::Not(Box::new(alloc, Guard::Port(done))?))
}

// The assignment of the go.
fn go(alloc: Global, site: &Site, call: Call) -> Result<Assign, Memory>
    requires { IsSite site.now }
    ensures { IfOk result (λ a.
        plain_assign a ≡ design.go_assign (tree_at site.now) (part_at site.now) (invoke_of call.entry)) }
{
    let target = go_port(alloc, site, call.cell)?;
    let guard = go_guard(alloc, site, call)?;
    let source = PlacedPort {
        port: ONE,
        place: call.place,
    };
    Ok(Assign {
        target,
        guard,
        source,
        place: call.place,
    })
}

/// A port of the register that an output is bound to.
pub(crate) fn register_port(
    alloc: Global,
    site: &Site,
    bind: &BindItem,
    port: &[u8],
) -> Result<PortRef, Memory>
    requires { IsSite site.now }
    ensures { IfOk result (λ p. p ≡ design.cell_port (tree_at site.now) (part_at site.now)
        (design.register_of (tree_at site.now) (part_at site.now) bind.now) port.now) }
{
    if let OperandForm::Port(cell, _) = &bind.value.form {
        return known_port(alloc, site, cell, port);
    }
    let none = Name::from_bytes(alloc, b"")?;
    known_port(alloc, site, &none, port)
}

// The done of the register that an output is bound to.
fn register_done(
    alloc: Global,
    site: &Site,
    bind: &BindItem,
    place: Place,
) -> Result<PlacedPort, Memory>
    requires { IsSite site.now }
    ensures { IfOk result (λ p. p ≡ record {
      port = design.cell_port (tree_at site.now) (part_at site.now)
          (design.register_of (tree_at site.now) (part_at site.now) bind.now) (codes "done");
      place = place;
    }) }
{
    let port = register_port(alloc, site, bind, b"done")?;
    Ok(PlacedPort { port, place })
}

/// The assignment of an output to its register.
pub(crate) fn capture(
    alloc: Global,
    site: &Site,
    call: Call,
    bind: &BindItem,
) -> Result<Assign, Memory>
    requires { IsSite site.now }
    ensures { IfOk result (λ a.
        plain_assign a ≡ capture_of (tree_at site.now) (part_at site.now) (invoke_of call.entry) bind.now) }
{
    let target = port(site, &bind.value.form)?;
    let source = cell_port(site, call.cell, &bind.name)?;
    Ok(Assign {
        target,
        guard: Guard::True,
        source: PlacedPort {
            port: source,
            place: bind.place,
        },
        place: call.place,
    })
}

// The assignment of the enable of an output's register.
fn enable(alloc: Global, site: &Site, call: Call, bind: &BindItem) -> Result<Assign, Memory>
    requires { IsSite site.now }
    ensures { IfOk result (λ a.
        plain_assign a ≡ enable_of (tree_at site.now) (part_at site.now) (invoke_of call.entry) bind.now) }
{
    let target = register_port(alloc, site, bind, b"write_en")?;
    let source = cell_done(alloc, site, call.cell, call.place)?;
    Ok(Assign {
        target,
        guard: Guard::True,
        source,
        place: call.place,
    })
}

// Adds the two assignments of each output.
fn add_captures(
    alloc: Global,
    site: &Site,
    assigns: &mut Vec<Assign>,
    call: Call,
) -> Result<(), Memory>
    requires { IsSite site.now }
    ensures { OnOk result (plain_assigns assigns.new.items ≡
        plain_assigns assigns.old.items ++ flat_map
        (design.capture_assigns (tree_at site.now) (part_at site.now) (invoke_of call.entry))
        call.entry.outputs.now) }
{
    for bind in call.outputs {
        assigns.push(capture(alloc, site, call, bind)?)?;
        assigns.push(enable(alloc, site, call, bind)?)?;
    }
    Ok(())
}

// The dones of the registers of the outputs, as guards.
fn register_guards(alloc: Global, site: &Site, call: Call) -> Result<Vec<Guard>, Memory>
    requires { IsSite site.now }
    ensures { IfOk result (λ gs. map plain_guard gs.items ≡
        map (λ b. Atom (design.register_done (tree_at site.now) (part_at site.now) (invoke_of call.entry) b))
        call.entry.outputs.now) }
{
    let mut all = Vec::with_capacity(alloc, call.outputs.len())?;
    for bind in call.outputs {
        let done = register_done(alloc, site, bind, call.place)?;
        all.push(Guard::Port(done))?;
    }
    Ok(all)
}

// The assignment of the done of the group.
fn done(alloc: Global, site: &Site, group: u32, call: Call) -> Result<Assign, Memory>
    requires { IsSite site.now }
    ensures { IfOk result (λ a. plain_assign a ≡
        design.done_assign (tree_at site.now) (part_at site.now)
        (invoke_of call.entry) group call.entry.outputs.now) }
{
    match call.outputs {
        [] => {
            let source = cell_done(alloc, site, call.cell, call.place)?;
            Ok(done_when(group, Guard::True, source, call.place))
        }
        [bind] => {
            let source = register_done(alloc, site, bind, call.place)?;
            Ok(done_when(group, Guard::True, source, call.place))
        }
        _ => {
            let guards = register_guards(alloc, site, call)?;
            let source = PlacedPort {
                port: ONE,
                place: call.place,
            };
            Ok(done_when(group, Guard::And(guards), source, call.place))
        }
    }
}

// The assignment of the done of a group from this.
fn done_when(group: u32, guard: Guard, source: PlacedPort, place: Place) -> Assign
    ensures { plain_assign result ≡
        record { target = PortRef.Done group; guard = plain_guard guard; source = source; place = place } }
{
    Assign {
        target: PortRef::Done(group),
        guard,
        source,
        place,
    }
}

/// The group of an invoke: its inputs, its go, its outputs, its done.
pub(crate) fn invoke_group(
    alloc: Global,
    site: &Site,
    group: u32,
    call: Call,
) -> Result<Group, Memory>
    requires { IsSite site.now }
    ensures { IfOk result (λ g. plain_group g ≡
        design.invoke_group (tree_at site.now) (part_at site.now) group (invoke_of call.entry)) }
{
    let mut assigns = Vec::new(alloc);
    add_inputs(site, &mut assigns, call)?;
    assigns.push(go(alloc, site, call)?)?;
    add_captures(alloc, site, &mut assigns, call)?;
    assigns.push(done(alloc, site, group, call)?)?;
    let name = Name::from_bytes(alloc, b"")?;
    Ok(Group {
        name,
        kind: GroupKind::Plain,
        assigns,
        place: call.place,
    })
}
