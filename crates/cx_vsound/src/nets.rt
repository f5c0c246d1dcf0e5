//! What drives nets.

ghost use Rattle.std.specs.Prelude.{◌≡◌, [], ◌∷◌, ◌++◌, ◌||◌, map, option_map, IfOk, OnOk};
ghost use Rattle.std.specs.Option.{option_copied};
ghost use Rattle.cx_vtree.specs.PlainParts.{plain_port, plain_conn};
ghost use Rattle.cx_vscope.specs.Drafts.{draft_module, draft_modules};
ghost use Rattle.cx_vtree.specs.Sound as sound;
ghost use Rattle.cx_vsound.specs.Parts.{output_names};

use crate::earlier::Earlier;
use cx_text::{Memory, Name};
use cx_vscope::{DraftModule, Names};
use cx_vtree::{Conn, ModulePort};
use std::alloc::Global;

/// The names of the outputs among ports.
fn output_names<'a>(alloc: Global, ports: &'a [ModulePort]) -> Result<Names<'a>, Memory>
    ensures { IfOk result (λ names. names ≡ output_names (map plain_port ports.now)) }
{
    let mut names = Names::new(alloc);
    for p in ports {
        if p.output {
            names.push(&p.name)?;
        }
    }
    Ok(names)
}

/// The ports of the module of a name; none where there is no such module.
pub fn ports_of<'a>(modules: &Earlier<'a>, name: &Name) -> &'a [ModulePort]
    ensures { map plain_port result.now ≡ sound.ports_of (draft_modules modules.now) name.now }
{
    match modules.named(name) {
        None => &[],
        Some(m) => &m.ports,
    }
}

/// Adds a net, and tells whether it or one before was there already.
fn add_net<'a>(driven: &mut Names<'a>, doubled: bool, net: &'a Name) -> Result<bool, Memory>
    ensures value { IfOk result (λ d. d ≡ (doubled || sound.has_name driven.old net.now)) }
    ensures names { OnOk result (driven.new ≡ driven.old ++ net.now ∷ []) }
{
    let again = doubled || driven.has(net);
    driven.push(net)?;
    Ok(again)
}

/// Adds the nets that connections drive, by the outputs of the instance's module. Tells whether one of them was driven before.
pub fn add_driven<'a>(
    alloc: Global,
    driven: &mut Names<'a>,
    ports: &[ModulePort],
    conns: &'a [Conn],
) -> Result<bool, Memory>
    ensures value { IfOk result (λ d.
        d ≡ sound.doubles driven.old (sound.driven_by (map plain_port ports.now) (map plain_conn conns.now))) }
    ensures names { OnOk result
        (driven.new ≡ driven.old ++ sound.driven_by (map plain_port ports.now) (map plain_conn conns.now)) }
{
    let outputs = output_names(alloc, ports)?;
    let mut doubled = false;
    for c in conns {
        if outputs.has(&c.port) {
            doubled = add_net(driven, doubled, &c.net)?;
        }
    }
    Ok(doubled)
}

/// The nets that a module drives.
pub fn drivers<'a>(alloc: Global, before: &Earlier, m: &'a DraftModule) -> Result<Names<'a>, Memory>
    ensures { IfOk result (λ names. names ≡ sound.drivers_in (draft_modules before.now) (draft_module m.now)) }
{
    let mut names = Names::new(alloc);
    for a in &m.assigns {
        names.push(&a.name)?;
    }
    for i in &m.instances {
        let _doubled = add_driven(alloc, &mut names, ports_of(before, &i.module), &i.conns)?;
    }
    Ok(names)
}
