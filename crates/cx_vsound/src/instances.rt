//! The rules on instances.

ghost use Rattle.std.specs.Prelude.{◌≡◌, [], ◌∷◌, ◌++◌, map, IfOk, OnOk};
ghost use Rattle.cx_vtree.specs.PlainParts.{plain_port, plain_conn, plain_instance};
ghost use Rattle.cx_vscope.specs.Drafts.{draft_modules};
ghost use Rattle.cx_vtree.specs.Sound as sound;
ghost use Rattle.cx_vscope.specs.ScopeValues.{scope_by};
ghost use Rattle.cx_vsound.specs.Parts.{instance_faults_by};
ghost use Rattle.cx_vsound.specs.Search.{faults_in, noted, over};

use crate::earlier::Earlier;
use crate::nets::{add_driven, ports_of};
use crate::search::{LineFaults, Search, after};
use cx_text::Memory;
use cx_vscope::{ModuleScope, Names, is_source, is_wire, same, width_of};
use cx_vtree::{Conn, Instance, ModulePort};
use std::alloc::Global;

/// Whether a port is connected to a net that it may not be connected to, or another port stands in its place.
fn miswired(scope: &ModuleScope, p: &ModulePort, c: &Conn) -> bool
    ensures { result ≡ sound.miswired (scope_by scope.now) (plain_port p.now) (plain_conn c.now) }
{
    let net = scope.meaning(&c.net);
    let fixed = p.name.bytes() == b"clk".as_slice() || p.name.bytes() == b"reset".as_slice();
    !same(&p.name, &c.port)
        || (if p.output {
            !is_wire(net)
        } else {
            !is_source(net)
        })
        || (fixed && !same(&p.name, &c.net))
}

/// Whether an instance does not connect all ports of its module in their order, as it may.
fn misconnects(scope: &ModuleScope, ports: &[ModulePort], conns: &[Conn]) -> bool
    ensures { result ≡ sound.misconnects (scope_by scope.now) (map plain_port ports.now) (map plain_conn conns.now) }
{
    let mut ports = ports;
    let mut conns = conns;
    while let Some((p, more_ports)) = ports.split_first() {
        let Some((c, more_conns)) = conns.split_first() else {
            return true;
        };
        if miswired(scope, p, c) {
            return true;
        }
        ports = more_ports;
        conns = more_conns;
    }
    !conns.is_empty()
}

/// Whether a port is connected to a net of another width.
fn misfits(scope: &ModuleScope, ports: &[ModulePort], conns: &[Conn]) -> bool
    ensures { result ≡ sound.misfits (scope_by scope.now) (map plain_port ports.now) (map plain_conn conns.now) }
{
    let mut ports = ports;
    let mut conns = conns;
    while let Some((p, more_ports)) = ports.split_first() {
        let Some((c, more_conns)) = conns.split_first() else {
            return false;
        };
        if p.width != width_of(scope.meaning(&c.net)) {
            return true;
        }
        ports = more_ports;
        conns = more_conns;
    }
    false
}

fn instance_faults(
    before: &Earlier,
    scope: &ModuleScope,
    earlier: &Names,
    doubled: bool,
    i: &Instance,
) -> LineFaults
    ensures { faults_in result ≡ instance_faults_by doubled (draft_modules before.now)
        (scope_by scope.now) earlier.now (plain_instance i.now) }
{
    let ports = ports_of(before, &i.module);
    LineFaults {
        name: earlier.has(&i.name)
            || before.named(&i.module).is_none()
            || misconnects(scope, ports, &i.conns)
            || doubled,
        width: misfits(scope, ports, &i.conns),
        limit: false,
    }
}

/// Goes on past the line of an instance. `earlier` has the names before, and `driven` the nets that are driven before.
fn instance<'a>(
    alloc: Global,
    search: Search,
    before: &Earlier,
    scope: &ModuleScope,
    earlier: &mut Names<'a>,
    driven: &mut Names<'a>,
    i: &'a Instance,
) -> Result<Search, Memory>
    ensures value { IfOk result (λ s. s ≡ noted search
        (sound.instance_faults (draft_modules before.now) (scope_by scope.now) earlier.old driven.old
        (plain_instance i.now))) }
    ensures names { OnOk result (earlier.new ≡ earlier.old ++ i.now.name ∷ []) }
    ensures driven { OnOk result (driven.new ≡
        driven.old ++ sound.driven_by (sound.ports_of (draft_modules before.now) i.now.module)
        (map plain_conn i.now.conns.items)) }
{
    let doubled = add_driven(alloc, driven, ports_of(before, &i.module), &i.conns)?;
    let search = after(search, instance_faults(before, scope, earlier, doubled, i));
    earlier.push(&i.name)?;
    Ok(search)
}

/// Goes on past the lines of instances.
pub fn instances<'a>(
    alloc: Global,
    search: Search,
    before: &Earlier,
    scope: &ModuleScope,
    earlier: &mut Names<'a>,
    driven: &mut Names<'a>,
    instances: &'a [Instance],
) -> Result<Search, Memory>
    ensures { IfOk result (λ s. s ≡ over search
        (sound.instances_faults (draft_modules before.now) (scope_by scope.now) earlier.old driven.old
        (map plain_instance instances.now))) }
{
    let mut search = search;
    for i in instances {
        search = instance(alloc, search, before, scope, earlier, driven, i)?;
    }
    Ok(search)
}
