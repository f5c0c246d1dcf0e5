//! The numbers of what a source has.

ghost use Rattle.std.specs.Prelude.{◌≡◌, IfOk, [], ◌∷◌, map};
ghost use Rattle.cx_vtree.specs.InstanceTree.{main_instance};
ghost use Rattle.cx_vtree.specs.PlainParts.{plain_instance};
ghost use Rattle.cx_vtree.specs.PlainSources.{plain_source};
ghost use Rattle.cx_vsim.specs.Numbers.{AreNumbersOf};

use crate::{external_arrays, trees_can_be_built};
use cx_text::{Memory, Name};
use cx_velab::{places, rows};
use cx_vnets::NetPosition;
use cx_vtree::{Instance, Source};
use std::alloc::Global;

/// The numbers of the arrays of the external memories, and where each instance begins.
#[derive(Drop)]
pub(crate) struct Numbers {
    pub arrays: Vec<usize>,
    pub places: Vec<NetPosition>,
}

/// `main` as an instance: without a name, and with nothing connected to it.
fn root(alloc: Global) -> Result<Vec<Instance>, Memory>
    ensures { IfOk result (λ list. map plain_instance list.items ≡ main_instance ∷ []) }
{
    let main = Instance {
        module: Name::from_bytes(alloc, b"main")?,
        name: Name::from_bytes(alloc, b"")?,
        conns: Vec::new(alloc),
    };
    let mut list = Vec::new(alloc);
    list.push(main)?;
    Ok(list)
}

/// The numbers of a source.
pub(crate) fn numbers_of(alloc: Global, source: &Source) -> Result<Numbers, Memory>
    ensures { IfOk result (AreNumbersOf (plain_source source.now)) }
{
    trees_can_be_built();
    let main = root(alloc)?;
    let rows = rows(alloc, source.modules(), &main)?;
    let places = places(alloc, &rows)?;
    let arrays = external_arrays(alloc, source, &rows, &places)?;
    Ok(Numbers { arrays, places })
}
