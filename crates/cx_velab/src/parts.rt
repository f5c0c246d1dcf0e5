//! Modules with the numbers of their names and their codes.

ghost use Rattle.std.specs.Prelude.{◌≡◌, ◌<◌, ℕ, Some, IfOk, OnOk, length, map, slice_get};
ghost use Rattle.cx_vtree.specs.Plain.{PlainModule};
ghost use Rattle.cx_vtree.specs.PlainParts.{plain_module};
ghost use Rattle.cx_vtree.specs.InstanceTree.{Placed};
ghost use Rattle.cx_velab.specs.Rows.{placed_of};
ghost use Rattle.cx_velab.specs.Parts.{CanCode, PartStands, Extends, HasPart, ModulesAreNamed, AllCanCode, AreFound, PartsStand};

use crate::Row;
use crate::coding::push_module;
use cx_text::{Memory, Name};
use cx_vnets::{Code, ModuleNumbers};
use cx_vtree::Module;
use std::alloc::Global;
use std::collections::HashMap;

/// The numbers of a module's names, and the number of its first code.
#[derive(Drop)]
pub struct ModulePart<'a> {
    pub numbers: ModuleNumbers<'a>,
    pub first: u32,
}

/// A number as a `u32`. One that is no `u32` counts what is too much for any memory.
fn narrow(number: usize) -> Result<u32, Memory>
    ensures { IfOk result (λ narrow. narrow ≡ number) }
{
    match u32::try_from(number) {
        Ok(narrow) => Ok(narrow),
        Err(_) => Err(Memory),
    }
}

/// Numbers the names of a module and appends its codes.
pub fn code_part<'a>(
    alloc: Global,
    codes: &mut Vec<Code>,
    part: &'a Module,
) -> Result<ModulePart<'a>, Memory>
    requires { CanCode (plain_module part.now) }
    ensures part { IfOk result (λ p. PartStands codes.new.items (plain_module part.now) p) }
    ensures kept { OnOk result (Extends codes.old.items codes.new.items) }
{
    let first = narrow(codes.len())?;
    let numbers = ModuleNumbers::new(alloc, &part.ports, &part.decls)?;
    push_module(alloc, codes, &numbers, part)?;
    Ok(ModulePart { numbers, first })
}

/// The parts of all instances, and which one each has, by the numbers of the instances. Instances of one module share one.
#[derive(Drop)]
pub struct PartTable<'a> {
    pub list: Vec<ModulePart<'a>>,
    pub of_rows: Vec<usize>,
}

/// The number of the part of an instance's module: of one that was made before, or of a new one.
fn part_number<'a>(
    alloc: Global,
    found: &mut HashMap<&'a Name, usize>,
    list: &mut Vec<ModulePart<'a>>,
    codes: &mut Vec<Code>,
    rows: &[Row<'a>],
    i: usize,
) -> Result<usize, Memory>
    requires within { i < length rows.now }
    requires named { ModulesAreNamed (map placed_of rows.now) }
    requires can { AllCanCode (map placed_of rows.now) }
    requires found { AreFound (map placed_of rows.now) found.old list.old.items codes.old.items }
    ensures number { IfOk result (λ j. (p : Placed) → slice_get (map placed_of rows.now) i ≡ Some p
        → HasPart list.new.items codes.new.items j p.part) }
    ensures kept { OnOk result ((j : ℕ) (m : PlainModule) → HasPart list.old.items codes.old.items j m →
        HasPart list.new.items codes.new.items j m) }
    ensures found { OnOk result (AreFound (map placed_of rows.now) found.new list.new.items codes.new.items) }
{
    let row = &rows[i];
    let part = row.module;
    let name = &part.name;
    if let Some(number) = found.get(&name) {
        return Ok(*number);
    }
    let made = code_part(alloc, codes, part)?;
    let number = list.len();
    list.push(made)?;
    found.insert(name, number)?;
    Ok(number)
}

/// Numbers the names and appends the codes of the modules of all instances, each module once.
pub fn all_parts<'a>(
    alloc: Global,
    codes: &mut Vec<Code>,
    rows: &[Row<'a>],
) -> Result<PartTable<'a>, Memory>
    requires named { ModulesAreNamed (map placed_of rows.now) }
    requires can { AllCanCode (map placed_of rows.now) }
    ensures { IfOk result (λ ps. PartsStand (map placed_of rows.now) codes.new.items ps.list.items ps.of_rows.items) }
{
    let mut found = HashMap::new(alloc);
    let mut list = Vec::new(alloc);
    let mut of_rows = Vec::new(alloc);
    for i in 0..rows.len() {
        of_rows.push(part_number(alloc, &mut found, &mut list, codes, rows, i)?)?;
    }
    Ok(PartTable { list, of_rows })
}
