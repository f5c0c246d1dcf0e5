//! The instances below some, each before those that it holds.

ghost use Rattle.std.specs.Prelude.{◌≡◌, ◌<◌, List, ◌∷◌, ◌++◌, map, reverse, length, IfOk, OnOk};
ghost use Rattle.cx_vtree.specs.InstanceTree.{below, tree_from};
ghost use Rattle.cx_vtree.specs.PlainParts.{plain_instance, plain_modules};
ghost use Rattle.cx_velab.specs.Trees.{trees, work};
ghost use Rattle.cx_velab.specs.Rows.{placed_of, plain_pending, HasLast};

use crate::finding::{find, last_numbers};
use cx_text::{Memory, Name};
use cx_vtree::{Instance, Module};
use std::alloc::Global;
use std::collections::HashMap;

/// An instance of the tree: its module, how it stands in the module around it, and the number of the instance that holds
/// it.
#[derive(Clone, Copy)]
pub struct Row<'a> {
    pub module: &'a Module,
    pub instance: &'a Instance,
    pub holder: usize,
}

/// Instances that are still to be listed: what stands in an instance, and how many modules ended before its own.
#[derive(Clone, Copy)]
struct Pending<'a> {
    before: usize,
    instances: &'a [Instance],
    holder: usize,
}

/// Lists the first of the instances on top, and leaves those below it and the others to be listed.
fn step<'a>(
    last: &HashMap<&'a Name, usize>,
    modules: &'a [Module],
    rows: &mut Vec<Row<'a>>,
    pending: &mut Vec<Pending<'a>>,
    top: Pending<'a>,
) -> Result<(), Memory>
    requires { HasLast last.now (plain_modules modules.now) }
    ensures tree { OnOk result (map placed_of rows.new.items ++
        trees (reverse (map (plain_pending (plain_modules modules.now)) pending.new.items))
        (length rows.new.items) ≡ map placed_of rows.old.items
        ++ trees (plain_pending (plain_modules modules.now) top.entry ∷
        reverse (map (plain_pending (plain_modules modules.now)) pending.old.items)) (length rows.old.items)) }
    ensures less { OnOk result (work
        (reverse (map (plain_pending (plain_modules modules.now)) pending.new.items)) <
        work (plain_pending (plain_modules modules.now) top.entry ∷
        reverse (map (plain_pending (plain_modules modules.now)) pending.old.items))) }
{
    if let Some((instance, rest)) = top.instances.split_first() {
        pending.push(Pending {
            before: top.before,
            instances: rest,
            holder: top.holder,
        })?;
        if let Some((module, before)) = find(last, modules, top.before, &instance.module) {
            let holder = rows.len();
            rows.push(Row {
                module,
                instance,
                holder: top.holder,
            })?;
            pending.push(Pending {
                before,
                instances: &module.instances,
                holder,
            })?;
        }
    }
    Ok(())
}

/// The instances below some, which are of the last modules of their names: each before those that it holds, and these in
/// the order of the text. The first is number 0, and holds itself.
pub fn rows<'a>(
    alloc: Global,
    modules: &'a [Module],
    instances: &'a [Instance],
) -> Result<Vec<Row<'a>>, Memory>
    ensures { IfOk result (λ rows. map placed_of rows.items ≡
        below (tree_from (reverse (plain_modules modules.now))) 0 0 (map plain_instance instances.now)) }
{
    let last = last_numbers(alloc, modules)?;
    let mut rows = Vec::new(alloc);
    let mut pending = Vec::new(alloc);
    pending.push(Pending {
        before: modules.len(),
        instances,
        holder: 0,
    })?;
    while let Some(top) = pending.pop() {
        step(&last, modules, &mut rows, &mut pending, top)?;
    }
    Ok(rows)
}
