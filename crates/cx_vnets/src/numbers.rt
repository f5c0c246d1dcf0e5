//! The numbers of the nets and the arrays of a module.

ghost use Rattle.std.specs.Prelude.{◌≡◌, ◌+◌, ◌<◌, ◌≤◌, ◌^◌, ◌++◌, List, ℕ, Some, None, IfOk, OnOk, IsSome, length, map, if◌then◌else◌};
ghost use Rattle.std.specs.Option.{option_or};
ghost use Rattle.cx_vtree.specs.InstanceTree.{same_name, declared_nets, declared_arrays};
ghost use Rattle.cx_vtree.specs.PlainParts.{plain_port, plain_decl};
ghost use Rattle.cx_vnets.specs.ModuleNumbers.{position_from};
ghost use Rattle.cx_vtree.specs.NameNumbers.{position, number_by};
ghost use Rattle.cx_vnets.specs.Numberings.{nets_by, arrays_by};

use cx_text::{Memory, Name};
use cx_vtree::{Decl, ModulePort};
use std::alloc::Global;
use std::collections::HashMap;

/// The numbers of a module's nets and of its arrays, by their names.
#[derive(Drop)]
pub struct ModuleNumbers<'a> {
    nets: HashMap<&'a Name, u32>,
    arrays: HashMap<&'a Name, u32>,
}

/// Gives a name a number, where it has none yet.
fn enter<'a>(
    numbers: &mut HashMap<&'a Name, u32>,
    name: &'a Name,
    number: u32,
) -> Result<(), Memory>
    ensures { OnOk result ((q : List ℕ) → number_by numbers.new q ≡
        option_or (number_by numbers.old q) (if same_name name.now q then Some number else None)) }
{
    if !numbers.contains_key(&name) {
        numbers.insert(name, number)?;
    }
    Ok(())
}

/// Numbers ports, from 0 on.
fn enter_ports<'a>(nets: &mut HashMap<&'a Name, u32>, ports: &'a [ModulePort]) -> Result<(), Memory>
    requires { length ports.now < 2 ^ 32 }
    ensures { OnOk result ((q : List ℕ) → number_by nets.new q ≡
        option_or (number_by nets.old q) (position_from 0 (map (λ p. p.name) (map plain_port ports.now)) q)) }
{
    for (number, port) in ports.iter().enumerate() {
        enter(nets, &port.name, number as u32)?;
    }
    Ok(())
}

/// Numbers wires and registers, from a number on.
fn enter_nets<'a>(
    nets: &mut HashMap<&'a Name, u32>,
    decls: &'a [Decl],
    first: u32,
) -> Result<(), Memory>
    requires { first + length decls.now < 2 ^ 32 }
    ensures { OnOk result ((q : List ℕ) → number_by nets.new q ≡
        option_or (number_by nets.old q) (position_from first (declared_nets (map plain_decl decls.now)) q)) }
{
    let mut next = first;
    for decl in decls {
        match decl {
            Decl::Wire { name, .. } | Decl::Register { name, .. } => {
                enter(nets, name, next)?;
                next += 1;
            }
            Decl::Array { .. } => {}
        }
    }
    Ok(())
}

/// Numbers arrays, from 0 on.
fn enter_arrays<'a>(arrays: &mut HashMap<&'a Name, u32>, decls: &'a [Decl]) -> Result<(), Memory>
    requires { length decls.now < 2 ^ 32 }
    ensures { OnOk result ((q : List ℕ) → number_by arrays.new q ≡
        option_or (number_by arrays.old q) (position_from 0 (declared_arrays (map plain_decl decls.now)) q)) }
{
    let mut next = 0;
    for decl in decls {
        if let Decl::Array { name, .. } = decl {
            enter(arrays, name, next)?;
            next += 1;
        }
    }
    Ok(())
}

impl<'a> ModuleNumbers<'a> {
    /// The numbers of a module of these parts: a net's place among the ports, wires and registers, an array's among the
    /// arrays.
    pub fn new(
        alloc: Global,
        ports: &'a [ModulePort],
        decls: &'a [Decl],
    ) -> Result<ModuleNumbers<'a>, Memory>
        requires { length ports.now + length decls.now < 2 ^ 32 }
        ensures nets { IfOk result (λ n. nets_by n ≡
            position
            (map (λ p. p.name) (map plain_port ports.now) ++ declared_nets (map plain_decl decls.now))) }
        ensures arrays { IfOk result (λ n. arrays_by n ≡ position (declared_arrays (map plain_decl decls.now))) }
    {
        let mut nets = HashMap::new(alloc);
        enter_ports(&mut nets, ports)?;
        enter_nets(&mut nets, decls, ports.len() as u32)?;
        let mut arrays = HashMap::new(alloc);
        enter_arrays(&mut arrays, decls)?;
        Ok(ModuleNumbers { nets, arrays })
    }

    /// The number of a net.
    pub fn net(&self, name: &Name) -> u32
        requires { IsSome (nets_by self.now name.now) }
        ensures { nets_by self.now name.now ≡ Some result }
    {
        match self.nets.get(&name) {
            Some(number) => *number,
            None => unreachable!(),
        }
    }

    /// The number of an array.
    pub fn array(&self, name: &Name) -> u32
        requires { IsSome (arrays_by self.now name.now) }
        ensures { arrays_by self.now name.now ≡ Some result }
    {
        match self.arrays.get(&name) {
            Some(number) => *number,
            None => unreachable!(),
        }
    }
}
