//! The instances of a source with their places and codes.

ghost use Rattle.std.specs.Prelude.{◌≡◌, ◌<◌, IfOk, [], ◌∷◌, length, map};
ghost use Rattle.cx_vtree.specs.InstanceTree.{main_instance, tree_from, below};
ghost use Rattle.cx_vtree.specs.PlainParts.{plain_instance};
ghost use Rattle.cx_velab.specs.Rows.{placed_of};
ghost use Rattle.cx_vnets.specs.Numbers.{place_of};
ghost use Rattle.cx_vsim.specs.Trees.{CanBeBuilt};
ghost use Rattle.cx_vsim.specs.Tables.{tree_of, TableStands, IsPartOf};

use cx_text::{Memory, Name};
use cx_velab::{ModulePart, PartTable, Row, all_parts, places};
use cx_vnets::{Code, NetPosition};
use cx_vtree::Instance;
use std::alloc::Global;

/// The instances of a source, where the nets and arrays of each begin, and the codes of their modules.
#[derive(Drop)]
pub(crate) struct Table<'a> {
    pub rows: Vec<Row<'a>>,
    pub places: Vec<NetPosition>,
    pub parts: PartTable<'a>,
    pub codes: Vec<Code>,
}

/// `main` as an instance: without a name, and with nothing connected to it.
pub(crate) fn root(alloc: Global) -> Result<Vec<Instance>, Memory>
    ensures { IfOk result (λ list. map plain_instance list.items ≡ main_instance ∷ []) }
{
    let main = Instance {
        module: Name::from_bytes(alloc, b"main")?,
        name: Name::from_bytes(alloc, b"")?,
        conns: Vec::new(alloc),
    };
    let mut list = Vec::new(alloc);
    list.push(main)?;
    Ok(list)
}

/// Lists the places of instances, and codes their modules. More codes than 32 bits can number count as want of memory.
pub(crate) fn listed<'a>(alloc: Global, rows: Vec<Row<'a>>) -> Result<Table<'a>, Memory>
    requires { CanBeBuilt (map placed_of rows.items) }
    ensures rows { IfOk result (λ t. t.rows.items ≡ rows.entry.items) }
    ensures stands { IfOk result TableStands }
{
    let places = places(alloc, &rows)?;
    let mut codes = Vec::new(alloc);
    let parts = all_parts(alloc, &mut codes, &rows)?;
    if codes.len() > u32::MAX as usize {
        return Err(Memory);
    }
    Ok(Table {
        rows,
        places,
        parts,
        codes,
    })
}

impl<'a> Table<'a> {
    /// Where the nets and arrays of an instance begin.
    pub fn place(&self, i: usize) -> NetPosition
        requires within { i < length self.now.rows.items }
        requires stands { TableStands self.now }
        ensures { result ≡ place_of (tree_of self.now) i }
    {
        self.places[i]
    }

    /// The numbers and codes of the module of an instance.
    pub fn part(&self, i: usize) -> &ModulePart<'a>
        requires within { i < length self.now.rows.items }
        requires stands { TableStands self.now }
        ensures { IsPartOf (tree_of self.now) self.now.codes.items i result.now }
    {
        &self.parts.list[self.parts.of_rows[i]]
    }
}
