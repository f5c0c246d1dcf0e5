//! What the names of a module stand for.

ghost use Rattle.std.specs.Prelude.{◌≡◌, IfOk, [], map, List, ℕ, OnOk};
ghost use Rattle.cx_vtree.specs.PlainParts.{plain_port};
ghost use Rattle.cx_vscope.specs.Drafts.{draft_decl};
ghost use Rattle.cx_vtree.specs.Sound as sound;
ghost use Rattle.cx_vscope.specs.Scopes.{meant_by, nothing_meant, scope_of};
ghost use Rattle.cx_vscope.specs.ScopeValues.{scope_by};

use crate::drafts::{DraftDecl, DraftModule};
use crate::meanings::{decl_meaning, decl_name, port_meaning};
use cx_text::{Memory, Name};
use cx_vtree::{Meaning, ModulePort};
use std::alloc::Global;
use std::collections::HashMap;

/// What each name stands for in a module: what the first part of that name makes it.
#[derive(Drop)]
pub struct ModuleScope<'a> {
    meanings: HashMap<&'a Name, Meaning>,
}

/// Adds declarations, the last one first, so that the first one of a name decides.
fn add_decls<'a>(
    meanings: &mut HashMap<&'a Name, Meaning>,
    decls: &'a [DraftDecl],
) -> Result<(), Memory>
    requires { (name : List ℕ) → meant_by meanings.old name ≡ sound.meant_decl [] name }
    ensures { OnOk result
        ((name : List ℕ) → meant_by meanings.new name ≡ sound.meant_decl (map draft_decl decls.now) name) }
{
    let mut i = decls.len();
    while i > 0 {
        i -= 1;
        let d = &decls[i];
        meanings.insert(decl_name(d), decl_meaning(d))?;
    }
    Ok(())
}

/// Adds ports, the last one first, over declarations.
fn add_ports<'a>(
    meanings: &mut HashMap<&'a Name, Meaning>,
    ports: &'a [ModulePort],
    decls: &[DraftDecl],
) -> Result<(), Memory>
    requires { (name : List ℕ) → meant_by meanings.old name ≡ sound.meant_decl (map draft_decl decls.now) name }
    ensures { OnOk result ((name : List ℕ) →
        meant_by meanings.new name ≡
        sound.meant_in (map plain_port ports.now) (map draft_decl decls.now) name) }
{
    let mut i = ports.len();
    while i > 0 {
        i -= 1;
        let p = &ports[i];
        meanings.insert(&p.name, port_meaning(p))?;
    }
    Ok(())
}

impl<'a> ModuleScope<'a> {
    /// A scope in which no name stands for anything.
    pub fn empty(alloc: Global) -> ModuleScope<'a>
        ensures { scope_by result ≡ nothing_meant }
    {
        ModuleScope {
            meanings: HashMap::new(alloc),
        }
    }

    /// The scope of a module.
    pub fn new(alloc: Global, m: &'a DraftModule) -> Result<ModuleScope<'a>, Memory>
        ensures { IfOk result (λ scope. scope_by scope ≡ scope_of m.now) }
    {
        let mut meanings = HashMap::new(alloc);
        add_decls(&mut meanings, &m.decls)?;
        add_ports(&mut meanings, &m.ports, &m.decls)?;
        Ok(ModuleScope { meanings })
    }

    /// What a name stands for.
    pub fn meaning(&self, name: &Name) -> Meaning
        ensures { result ≡ scope_by self.now name.now }
    {
        match self.meanings.get(&name) {
            None => Meaning::Nothing,
            Some(meaning) => *meaning,
        }
    }
}
