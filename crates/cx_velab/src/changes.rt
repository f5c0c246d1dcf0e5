//! The sets and stores of an instance.

ghost use Rattle.std.specs.Prelude.{◌≡◌, ℕ, ◌+◌, ◌<◌, ◌^◌, List, Some, IsSome, IfOk, OnOk, length, map, slice_get};
ghost use Rattle.cx_vtree.specs.Plain.{PlainAssign, PlainStore};
ghost use Rattle.cx_vtree.specs.PlainParts.{plain_assign, plain_item};
ghost use Rattle.cx_vnets.specs.ModuleCodes.{Numbering};
ghost use Rattle.cx_vnets.specs.Numberings.{nets_by, arrays_by};
ghost use Rattle.cx_velab.specs.Coded.{item_exprs, items_exprs};
ghost use Rattle.cx_velab.specs.Changes.{numbered, item_sets, item_stores, numbered_sets, numbered_stores, IsSet, IsStore, AddsSets, AddsStores, AreSmall, AreNamed, ItemIsNamed, ItemsAreNamed};

use cx_text::{Memory, Name};
use cx_vnets::{ModuleNumbers, NetPosition, Set, Store};
use cx_vtree::{EdgeItem, NetAssign};

/// The set of a register.
fn set_of(numbers: &ModuleNumbers<'_>, place: NetPosition, name: &Name, code: u32) -> Set
    requires named { IsSome (nets_by numbers.now name.now) }
    requires small { AreSmall (nets_by numbers.now) place.nets }
    ensures { (a : PlainAssign) → a.name ≡ name.now → IsSet (nets_by numbers.now) place result (code, a) }
{
    Set {
        net: place.nets + numbers.net(name),
        code,
        place,
    }
}

/// Appends the sets of assigns, whose codes are numbered from `first` on.
pub fn push_sets(
    sets: &mut Vec<Set>,
    numbers: &ModuleNumbers<'_>,
    place: NetPosition,
    first: u32,
    assigns: &[NetAssign],
) -> Result<(), Memory>
    requires named { AreNamed (nets_by numbers.now) (map plain_assign assigns.now) }
    requires small { AreSmall (nets_by numbers.now) place.nets }
    requires codes { first + length assigns.now < 2 ^ 32 }
    ensures { OnOk result (AddsSets (nets_by numbers.now) place sets.old.items sets.new.items
        (numbered first (map plain_assign assigns.now))) }
{
    let mut code = first;
    for assign in assigns {
        sets.push(set_of(numbers, place, &assign.name, code))?;
        code += 1;
    }
    Ok(())
}

/// The store into an array.
fn store_of(numbers: &ModuleNumbers<'_>, place: NetPosition, array: &Name, code: u32) -> Store
    requires named { IsSome (arrays_by numbers.now array.now) }
    requires small { AreSmall (arrays_by numbers.now) place.arrays }
    requires codes { code + 3 < 2 ^ 32 }
    ensures { (s : PlainStore) → s.array ≡ array.now → IsStore (arrays_by numbers.now) place result (code, s) }
{
    Store {
        array: place.arrays + numbers.array(array),
        guard: code,
        index: code + 1,
        value: code + 2,
        place,
    }
}

/// Appends the set or the store of an item, whose codes are numbered from `code` on. The answer is the number after them.
fn push_item(
    sets: &mut Vec<Set>,
    stores: &mut Vec<Store>,
    numbers: &ModuleNumbers<'_>,
    place: NetPosition,
    code: u32,
    item: &EdgeItem,
) -> Result<u32, Memory>
    requires named { ItemIsNamed (nets_by numbers.now) (arrays_by numbers.now) (plain_item item.now) }
    requires nets { AreSmall (nets_by numbers.now) place.nets }
    requires arrays { AreSmall (arrays_by numbers.now) place.arrays }
    requires codes { code + length (item_exprs (plain_item item.now)) < 2 ^ 32 }
    ensures next { IfOk result (λ n. n ≡ code + length (item_exprs (plain_item item.now))) }
    ensures sets { OnOk result (AddsSets (nets_by numbers.now) place sets.old.items sets.new.items
        (item_sets code (plain_item item.now))) }
    ensures stores { OnOk result (AddsStores
        (arrays_by numbers.now) place stores.old.items stores.new.items
        (item_stores code (plain_item item.now))) }
{
    match item {
        EdgeItem::Set(assign) => {
            sets.push(set_of(numbers, place, &assign.name, code))?;
            Ok(code + 1)
        }
        EdgeItem::Store { array, .. } => {
            stores.push(store_of(numbers, place, array, code))?;
            Ok(code + 3)
        }
    }
}

/// Appends the sets and stores of items, whose codes are numbered from `first` on.
pub fn push_items(
    sets: &mut Vec<Set>,
    stores: &mut Vec<Store>,
    numbers: &ModuleNumbers<'_>,
    place: NetPosition,
    first: u32,
    items: &[EdgeItem],
) -> Result<(), Memory>
    requires named { ItemsAreNamed (nets_by numbers.now) (arrays_by numbers.now) (map plain_item items.now) }
    requires nets { AreSmall (nets_by numbers.now) place.nets }
    requires arrays { AreSmall (arrays_by numbers.now) place.arrays }
    requires codes { first + length (items_exprs (map plain_item items.now)) < 2 ^ 32 }
    ensures sets { OnOk result (AddsSets (nets_by numbers.now) place sets.old.items sets.new.items
        (numbered_sets first (map plain_item items.now))) }
    ensures stores { OnOk result (AddsStores
        (arrays_by numbers.now) place stores.old.items stores.new.items
        (numbered_stores first (map plain_item items.now))) }
{
    let mut code = first;
    for item in items {
        code = push_item(sets, stores, numbers, place, code, item)?;
    }
    Ok(())
}
