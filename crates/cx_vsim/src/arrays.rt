//! The numbers of the arrays of external memories.

ghost use Rattle.std.specs.Prelude.{◌≡◌, ◌<◌, Some, IfOk, length, map, option_map};
ghost use Rattle.std.proofs.Props.{props};
ghost use Rattle.cx_vtree.specs.PlainParts.{plain_external};
ghost use Rattle.cx_vtree.specs.PlainSources.{plain_source};
ghost use Rattle.cx_vtree.specs.InstanceTree.{instances_of};
ghost use Rattle.cx_vtree.specs.SimRun.{instance_named};
ghost use Rattle.cx_velab.specs.Rows.{placed_of};
ghost use Rattle.cx_velab.specs.Tables.{all_places};
ghost use Rattle.cx_vsim.specs.Externals.{HasArray, array_of};
ghost use Rattle.cx_vsim.specs.Mains.{HasMain};

use crate::place_laws::externals_have_arrays;
use cx_text::{Memory, Name};
use cx_velab::Row;
use cx_vnets::NetPosition;
use cx_vtree::{External, Source};
use std::alloc::Global;
use std::collections::HashMap;

/// The number of the first instance of `main` of each name.
fn main_numbers<'a>(alloc: Global, rows: &[Row<'a>]) -> Result<HashMap<&'a Name, usize>, Memory>
    ensures { IfOk result (λ numbers. HasMain numbers (map placed_of rows.now)) }
{
    let mut numbers = HashMap::new(alloc);
    let mut i = rows.len();
    while i > 0 {
        i -= 1;
        let row = &rows[i];
        if row.holder == 0 {
            let instance = row.instance;
            numbers.insert(&instance.name, i)?;
        }
    }
    Ok(numbers)
}

/// The instances of a source, those of `main` found by their names.
#[derive(Drop)]
struct Instances<'a> {
    rows: &'a [Row<'a>],
    main: HashMap<&'a Name, usize>,
    ghost numbered: { HasMain main (map placed_of rows.now) } by { Prim.hlevel props },
}

impl<'a> Instances<'a> {
    fn new(alloc: Global, rows: &'a [Row<'a>]) -> Result<Instances<'a>, Memory>
        ensures { IfOk result (λ instances. instances.rows.now ≡ rows.now) }
    {
        let main = main_numbers(alloc, rows)?;
        Ok(Instances { rows, main })
    }

    /// The first instance of `main` of a name.
    fn named(&self, name: &Name) -> Option<usize>
        ensures { result ≡ instance_named (map placed_of self.now.rows.now) 0 name.now }
    {
        self.main.get(&name).copied()
    }
}

/// The number of the array of an external memory.
fn external_array(instances: &Instances<'_>, places: &[NetPosition], external: &External) -> usize
    requires places { places.now ≡
        all_places (map placed_of instances.now.rows.now) (length (map placed_of instances.now.rows.now)) }
    requires there { HasArray (map placed_of instances.now.rows.now) (plain_external external.now) }
    ensures { array_of (map placed_of instances.now.rows.now) (plain_external external.now) ≡ Some result }
{
    match instances.named(&external.instance) {
        Some(instance) => places[instance].arrays as usize,
        None => unreachable!(),
    }
}

/// The numbers of the arrays of the external memories, in their order.
pub fn external_arrays(
    alloc: Global,
    source: &Source,
    rows: &[Row<'_>],
    places: &[NetPosition],
) -> Result<Vec<usize>, Memory>
    requires rows { map placed_of rows.now ≡ instances_of (plain_source source.now) }
    requires places { places.now ≡ all_places (map placed_of rows.now) (length (map placed_of rows.now)) }
    ensures { IfOk result (λ ns. map Some ns.items ≡
        map (array_of (instances_of (plain_source source.now))) (plain_source source.now).externals) }
{
    externals_have_arrays();
    let instances = Instances::new(alloc, rows)?;
    let mut numbers = Vec::new(alloc);
    for external in source.externals() {
        numbers.push(external_array(&instances, places, external))?;
    }
    Ok(numbers)
}
