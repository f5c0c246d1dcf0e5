//! Modules by their names.

ghost use Rattle.std.specs.Prelude.{◌≡◌, ◌<◌, Some, length, reverse, option_map, slice_get, take, IfOk};
ghost use Rattle.cx_vtree.specs.PlainParts.{plain_module, plain_modules};
ghost use Rattle.cx_velab.specs.Trees.{found_from};
ghost use Rattle.cx_velab.specs.Rows.{HasLast, plain_found, plain_last};

use cx_text::{Memory, Name};
use cx_vtree::Module;
use std::alloc::Global;
use std::collections::HashMap;

/// The number of the last module of each name.
pub fn last_numbers<'a>(
    alloc: Global,
    modules: &'a [Module],
) -> Result<HashMap<&'a Name, usize>, Memory>
    ensures { IfOk result (λ found. HasLast found (plain_modules modules.now)) }
{
    let mut found = HashMap::new(alloc);
    for i in 0..modules.len() {
        let module = &modules[i];
        found.insert(&module.name, i)?;
    }
    Ok(found)
}

/// The last module of a name, and those before it.
fn last_of<'a>(modules: &'a [Module], kind: &Name) -> Option<(&'a Module, &'a [Module])>
    ensures { option_map plain_last result ≡ found_from (reverse (plain_modules modules.now)) kind.now }
{
    let mut before = modules;
    while let Some((last, rest)) = before.split_last() {
        if last.name.bytes() == kind.bytes() {
            return Some((last, rest));
        }
        before = rest;
    }
    None
}

/// The first `count` modules, or all where there are fewer.
fn first(modules: &[Module], count: usize) -> &[Module]
    ensures { plain_modules result.now ≡ take count (plain_modules modules.now) }
{
    if count < modules.len() {
        &modules[..count]
    } else {
        modules
    }
}

/// The module of a number.
fn module_at(modules: &[Module], number: usize) -> &Module
    requires { number < length modules.now }
    ensures { slice_get (plain_modules modules.now) number ≡ Some (plain_module result.now) }
{
    &modules[number]
}

/// The last module of a name among the first `count`, with its number. Only where a module of this name stands behind these,
/// they are walked.
pub fn find<'a>(
    last: &HashMap<&'a Name, usize>,
    modules: &'a [Module],
    count: usize,
    kind: &Name,
) -> Option<(&'a Module, usize)>
    requires { HasLast last.now (plain_modules modules.now) }
    ensures { option_map (plain_found (plain_modules modules.now)) result ≡
        found_from (reverse (take count (plain_modules modules.now))) kind.now }
{
    let Some(number) = last.get(&kind) else {
        return None;
    };
    if *number < count {
        return Some((module_at(modules, *number), *number));
    }
    match last_of(first(modules, count), kind) {
        None => None,
        Some((module, before)) => Some((module, before.len())),
    }
}
