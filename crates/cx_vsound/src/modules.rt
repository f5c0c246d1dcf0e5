//! The rules on modules.

ghost use Rattle.std.specs.Prelude.{◌≡◌, [], ◌++◌, map, IfOk, OnOk};
ghost use Rattle.cx_vtree.specs.PlainParts.{plain_port};
ghost use Rattle.cx_vscope.specs.Drafts.{draft_decl, draft_module, draft_modules};
ghost use Rattle.cx_vtree.specs.Sound as sound;
ghost use Rattle.cx_vsound.specs.Parts.{counts_in, signature_faults, body_faults};
ghost use Rattle.cx_vsound.specs.Search.{faults_in, over};

use crate::counts::{Sums, module_counts, too_large};
use crate::earlier::Earlier;
use crate::edges::edge;
use crate::instances::instances;
use crate::nets::drivers;
use crate::parts::{assigns, decls, ports};
use crate::search::{LineFaults, Search, after, clean};
use cx_text::{Memory, Name};
use cx_vscope::{DraftModule, ModuleScope, Names};
use cx_vtree::ModulePort;
use std::alloc::Global;

fn module_faults(is_main: bool, before: &Earlier, own: Sums, m: &DraftModule) -> LineFaults
    ensures { faults_in result ≡
        sound.module_faults is_main (draft_modules before.now) (counts_in own) (draft_module m.now) }
{
    let fewest = if is_main { 4usize } else { 2usize };
    LineFaults {
        name: has_module(before, &m.name)
            || m.ports.len() < fewest
            || (is_main && m.name.bytes() != b"main".as_slice()),
        width: false,
        limit: is_main && too_large(own),
    }
}

/// Whether a module of this name is among some.
fn has_module(modules: &Earlier, name: &Name) -> bool
    ensures { result ≡ sound.has_name (map (λ m. m.name) (draft_modules modules.now)) name.now }
{
    modules.number(name).is_some()
}

/// The names of ports.
fn port_names<'a>(alloc: Global, ports: &'a [ModulePort]) -> Result<Names<'a>, Memory>
    ensures { IfOk result (λ names. names ≡ map (λ p. p.name) (map plain_port ports.now)) }
{
    let mut names = Names::new(alloc);
    for p in ports {
        names.push(&p.name)?;
    }
    Ok(names)
}

/// Goes on past the lines of a module to its last declaration. `names` gains the names of its ports and declarations.
fn signature<'a>(
    alloc: Global,
    search: Search,
    is_main: bool,
    before: &Earlier,
    own: Sums,
    names: &mut Names<'a>,
    m: &'a DraftModule,
) -> Result<Search, Memory>
    requires { names.old ≡ map (λ p. p.name) (map plain_port m.now.ports.items) }
    ensures value { IfOk result (λ s. s ≡ over search
        (signature_faults is_main (draft_modules before.now) (counts_in own) (draft_module m.now))) }
    ensures names { OnOk result (names.new ≡
        map (λ p. p.name) (map plain_port m.now.ports.items)
        ++ map sound.decl_name (map draft_decl m.now.decls.items)) }
{
    let driving = drivers(alloc, before, m)?;
    let search = after(search, module_faults(is_main, before, own, m));
    let search = ports(alloc, search, is_main, &driving, &m.ports)?;
    let past = decls(clean(search), &driving, names, &m.decls)?;
    Ok(past)
}

/// Goes on past the other lines of a module.
fn body<'a>(
    alloc: Global,
    search: Search,
    before: &Earlier,
    names: &mut Names<'a>,
    m: &'a DraftModule,
) -> Result<Search, Memory>
    requires { names.old ≡ map (λ p. p.name) (map plain_port m.now.ports.items)
        ++ map sound.decl_name (map draft_decl m.now.decls.items) }
    ensures { IfOk result (λ s. s ≡ over search (body_faults (draft_modules before.now) (draft_module m.now))) }
{
    let scope = ModuleScope::new(alloc, m)?;
    let mut driven = Names::new(alloc);
    let search = assigns(search, &scope, &mut driven, &m.assigns)?;
    let search = instances(
        alloc,
        search,
        before,
        &scope,
        names,
        &mut driven,
        &m.instances,
    )?;
    let search = edge(alloc, search, &scope, &m.edge)?;
    Ok(clean(search))
}

/// Goes on past the lines of a module.
fn module_lines(
    alloc: Global,
    search: Search,
    is_main: bool,
    before: &Earlier,
    own: Sums,
    m: &DraftModule,
) -> Result<Search, Memory>
    ensures { IfOk result (λ s. s ≡ over search
        (sound.lines_faults is_main (draft_modules before.now) (counts_in own) (draft_module m.now))) }
{
    let mut names = port_names(alloc, &m.ports)?;
    let declared = signature(alloc, search, is_main, before, own, &mut names, m)?;
    let past = body(alloc, declared, before, &mut names, m)?;
    Ok(past)
}

/// Goes on past the lines of all modules.
pub fn modules(alloc: Global, search: Search, modules: &[DraftModule]) -> Result<Search, Memory>
    ensures { IfOk result (λ s. s ≡ over search (sound.modules_faults [] [] (draft_modules modules.now))) }
{
    let mut search = search;
    let mut counts = Vec::new(alloc);
    let mut before = Earlier::new(alloc);
    for i in 0..modules.len() {
        let m = &modules[i];
        let own = module_counts(&before, &counts, m);
        let is_main = modules[i + 1..].is_empty();
        search = module_lines(alloc, search, is_main, &before, own, m)?;
        before.push(m)?;
        counts.push(own)?;
    }
    Ok(search)
}
