//! The rules on ports, declarations and assigns.

ghost use Rattle.std.specs.Prelude.{◌≡◌, ◌^◌, suc, nat_le, [], ◌++◌, map, IfOk, OnOk};
ghost use Rattle.cx_vtree.specs.PlainParts.{plain_port, plain_assign};
ghost use Rattle.cx_vscope.specs.Drafts.{draft_decl};
ghost use Rattle.cx_vtree.specs.Sound as sound;
ghost use Rattle.cx_vscope.specs.ScopeValues.{scope_by};
ghost use Rattle.cx_vsound.specs.Search.{faults_in, over};

use crate::search::{LineFaults, Search, after};
use cx_text::{Memory, WIDTH_BITS};
use cx_vscope::{
    DraftDecl, ModuleScope, Names, Numeral, decl_name, has_width, is_driven, shape_of, too_deep,
    width_of,
};
use cx_vtree::{ModulePort, NetAssign};
use std::alloc::Global;

/// Whether a width is not 1 to 128.
fn bad_width(width: u8) -> bool
    ensures { result ≡ sound.bad_width width }
{
    width == 0 || width > WIDTH_BITS
}

fn is_port(p: &ModulePort, name: &[u8], output: bool) -> bool
    ensures { result ≡ sound.is_port name.now output (plain_port p.now) }
{
    p.name.bytes() == name && p.output == output
}

/// Whether a port is another than one at this index has to be.
fn wrong_port(is_main: bool, index: usize, p: &ModulePort) -> bool
    ensures { result ≡ sound.wrong_port is_main index (plain_port p.now) }
{
    if index == 0 {
        return !is_port(p, b"clk", false);
    }
    if index == 1 {
        return !is_port(p, b"reset", false);
    }
    if !is_main {
        return false;
    }
    if index == 2 {
        return !is_port(p, b"go", false);
    }
    if index == 3 {
        return !is_port(p, b"done", true);
    }
    true
}

fn port_faults(
    is_main: bool,
    drivers: &Names,
    earlier: &Names,
    index: usize,
    p: &ModulePort,
) -> LineFaults
    ensures { faults_in result ≡ sound.port_faults is_main drivers.now earlier.now index (plain_port p.now) }
{
    LineFaults {
        name: earlier.has(&p.name)
            || wrong_port(is_main, index, p)
            || (p.output && !drivers.has(&p.name)),
        width: bad_width(p.width) || ((is_main || index < 2) && p.width != 1),
        limit: false,
    }
}

/// Goes on past the lines of ports.
pub fn ports(
    alloc: Global,
    search: Search,
    is_main: bool,
    drivers: &Names,
    ports: &[ModulePort],
) -> Result<Search, Memory>
    ensures { IfOk result
        (λ s. s ≡ over search (sound.ports_faults is_main drivers.now [] 0 (map plain_port ports.now))) }
{
    let mut search = search;
    let mut earlier = Names::new(alloc);
    for (index, p) in ports.iter().enumerate() {
        search = after(search, port_faults(is_main, drivers, &earlier, index, p));
        earlier.push(&p.name)?;
    }
    Ok(search)
}

/// Whether an array has 2^64 words or more.
fn is_too_long(last: &Numeral) -> bool
    ensures { result ≡ nat_le (2 ^ 64) (suc last.now) }
{
    match last.small() {
        None => true,
        Some(last) => last == u64::MAX,
    }
}

fn decl_faults(drivers: &Names, earlier: &Names, d: &DraftDecl) -> LineFaults
    ensures { faults_in result ≡ sound.decl_faults drivers.now earlier.now (draft_decl d.now) }
{
    match d {
        DraftDecl::Wire { name, width } => LineFaults {
            name: earlier.has(name) || !drivers.has(name),
            width: bad_width(*width),
            limit: false,
        },
        DraftDecl::Register { name, width } => LineFaults {
            name: earlier.has(name),
            width: bad_width(*width),
            limit: false,
        },
        DraftDecl::Array { name, width, last } => LineFaults {
            name: earlier.has(name),
            width: bad_width(*width),
            limit: is_too_long(last),
        },
    }
}

/// Goes on past the lines of declarations. `earlier` has the names of the ports, and gains those of the declarations.
pub fn decls<'a>(
    search: Search,
    drivers: &Names,
    earlier: &mut Names<'a>,
    decls: &'a [DraftDecl],
) -> Result<Search, Memory>
    ensures value { IfOk result
        (λ s. s ≡ over search (sound.decls_faults drivers.now earlier.old (map draft_decl decls.now))) }
    ensures names { OnOk result (earlier.new ≡ earlier.old ++ map sound.decl_name (map draft_decl decls.now)) }
{
    let mut search = search;
    for d in decls {
        search = after(search, decl_faults(drivers, earlier, d));
        earlier.push(decl_name(d))?;
    }
    Ok(search)
}

fn assign_faults(scope: &ModuleScope, earlier: &Names, a: &NetAssign) -> LineFaults
    ensures { faults_in result ≡ sound.assign_faults (scope_by scope.now) earlier.now (plain_assign a.now) }
{
    let net = scope.meaning(&a.name);
    let value = shape_of(scope, &a.value);
    LineFaults {
        name: !is_driven(net) || earlier.has(&a.name) || value.misnamed,
        width: !has_width(value, width_of(net)),
        limit: too_deep(&a.value),
    }
}

/// Goes on past the lines of assigns. `driven` has the nets that are driven before, and gains those that are assigned.
pub fn assigns<'a>(
    search: Search,
    scope: &ModuleScope,
    driven: &mut Names<'a>,
    assigns: &'a [NetAssign],
) -> Result<Search, Memory>
    ensures value { IfOk result
        (λ s. s ≡ over search (sound.assigns_faults (scope_by scope.now) driven.old (map plain_assign assigns.now))) }
    ensures names { OnOk result (driven.new ≡ driven.old ++ map (λ a. a.name) (map plain_assign assigns.now)) }
{
    let mut search = search;
    for a in assigns {
        search = after(search, assign_faults(scope, driven, a));
        driven.push(&a.name)?;
    }
    Ok(search)
}
