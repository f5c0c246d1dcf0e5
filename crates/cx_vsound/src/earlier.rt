//! Modules and instances by their names.

ghost use Rattle.std.specs.Prelude.{◌≡◌, ◌∷◌, ◌++◌, [], List, ℕ, Some, None, map, option_map, IfOk, OnOk, OnErr, if◌then◌else◌};
ghost use Rattle.std.specs.Option.{option_copied, option_or};
ghost use Rattle.cx_vtree.specs.InstanceTree.{same_name};
ghost use Rattle.cx_vtree.specs.PlainParts.{plain_instance};
ghost use Rattle.cx_vtree.specs.Sound as sound;
ghost use Rattle.cx_vscope.specs.Drafts.{draft_module, draft_modules};
ghost use Rattle.cx_vsound.specs.Firsts.{HasFirst, instance_names, module_names};
ghost use Rattle.cx_vtree.specs.NameNumbers.{position, number_by};

use cx_text::{Memory, Name};
use cx_vscope::DraftModule;
use cx_vtree::Instance;
use std::alloc::Global;
use std::collections::HashMap;
use std::marker::Model;

/// Gives a name a number, where it has none yet.
fn enter<'a>(
    first: &mut HashMap<&'a Name, usize>,
    name: &'a Name,
    number: usize,
) -> Result<(), Memory>
    ensures err { OnErr result ((q : List ℕ) → number_by first.new q ≡ number_by first.old q) }
    ensures entered { OnOk result ((q : List ℕ) →
        number_by first.new q ≡
        option_or (number_by first.old q) (if same_name name.now q then Some number else None)) }
{
    if !first.contains_key(&name) {
        first.insert(name, number)?;
    }
    Ok(())
}

/// Modules in the order in which they came, found by their names.
#[derive(Drop)]
pub struct Earlier<'a> {
    list: Vec<&'a DraftModule>,
    first: HashMap<&'a Name, usize>,
}

impl<'a> Model for Earlier<'a> {
    ghost use Rattle.std.specs.Prelude.{List, map};
    ghost use Rattle.std.specs.Coded.{codes};
    ghost use Rattle.cx_vscope.specs.contracts.drafts.DraftModule as drafts;
    ghost use Rattle.cx_vscope.specs.declared.drafts.DraftModule.{DraftModule};
    ghost use Rattle.cx_vscope.specs.Drafts.{draft_modules};
    ghost use Rattle.cx_vsound.specs.Firsts.{HasFirst, module_names};

    ghost Value = { List DraftModule };

    ghost coded = { Prim.hlevel (codes, drafts.the_row.coded) };

    ghost view = { λ s. map (λ m. m.now) s.list.items };

    ghost invariant = { λ s. HasFirst s.first (module_names (draft_modules (map (λ m. m.now) s.list.items))) };
}

impl<'a> Earlier<'a> {
    /// No modules.
    pub fn new(alloc: Global) -> Earlier<'a>
        ensures { result ≡ [] }
    {
        Earlier {
            list: Vec::new(alloc),
            first: HashMap::new(alloc),
        }
    }

    /// The number of the first module of a name.
    pub fn number(&self, name: &Name) -> Option<usize>
        ensures { result ≡ position (module_names (draft_modules self.now)) name.now }
    {
        match self.first.get(&name) {
            None => None,
            Some(number) => Some(*number),
        }
    }

    /// The first module of a name.
    pub fn named(&self, name: &Name) -> Option<&'a DraftModule>
        ensures { option_map draft_module (option_copied result) ≡
            sound.module_named (draft_modules self.now) name.now }
    {
        let Some(number) = self.first.get(&name) else {
            return None;
        };
        match self.list.get(*number) {
            None => None,
            Some(m) => Some(*m),
        }
    }

    /// Adds a module.
    pub fn push(&mut self, m: &'a DraftModule) -> Result<(), Memory>
        ensures { OnOk result (self.new ≡ self.old ++ m.now ∷ []) }
    {
        self.list.reserve(1)?;
        enter(&mut self.first, &m.name, self.list.len())?;
        self.list.push_reserved(m);
        Ok(())
    }
}

/// All modules of some.
pub fn all_modules<'a>(alloc: Global, modules: &'a [DraftModule]) -> Result<Earlier<'a>, Memory>
    ensures { IfOk result (λ all. all ≡ modules.now) }
{
    let mut all = Earlier::new(alloc);
    for m in modules {
        all.push(m)?;
    }
    Ok(all)
}

/// The instances of a module, found by their names.
#[derive(Drop)]
pub struct Instances<'a> {
    list: &'a [Instance],
    first: HashMap<&'a Name, usize>,
}

impl<'a> Model for Instances<'a> {
    ghost use Rattle.std.specs.Prelude.{List, map};
    ghost use Rattle.cx_vtree.specs.Plain.{PlainInstance};
    ghost use Rattle.cx_vtree.specs.PlainParts.{plain_instance};
    ghost use Rattle.cx_vsound.specs.Firsts.{HasFirst, instance_names};

    ghost Value = { List PlainInstance };

    ghost view = { λ s. map plain_instance s.list.now };

    ghost invariant = { λ s. HasFirst s.first (instance_names (map plain_instance s.list.now)) };
}

/// The number of the first instance of each name.
fn instance_numbers<'a>(
    alloc: Global,
    list: &'a [Instance],
) -> Result<HashMap<&'a Name, usize>, Memory>
    ensures { IfOk result (λ first. HasFirst first (instance_names (map plain_instance list.now))) }
{
    let mut first = HashMap::new(alloc);
    for i in 0..list.len() {
        enter(&mut first, &list[i].name, i)?;
    }
    Ok(first)
}

impl<'a> Instances<'a> {
    pub fn new(alloc: Global, list: &'a [Instance]) -> Result<Instances<'a>, Memory>
        ensures { IfOk result (λ instances. instances ≡ map plain_instance list.now) }
    {
        let first = instance_numbers(alloc, list)?;
        Ok(Instances { list, first })
    }

    /// The name of the module of the first instance of a name.
    pub fn kind(&self, name: &Name) -> Option<&'a Name>
        ensures { option_copied result ≡ sound.instance_kind self.now name.now }
    {
        let Some(number) = self.first.get(&name) else {
            return None;
        };
        match self.list.get(*number) {
            None => None,
            Some(instance) => Some(&instance.module),
        }
    }
}
