//! `share`.

ghost use Rattle.std.specs.Prelude.{◌≡◌, IfOk, length, map};
ghost use Rattle.cx_ast.specs.PlainTree.{plain_tree};
ghost use Rattle.cx_design.specs.PlainDesigns.{plain_design};
ghost use Rattle.cx_numbering.specs.DesignOf.{design_of};
ghost use Rattle.cx_sharing.specs.SharedTree.{shared_tree};
ghost use Rattle.cx_sharing.specs.SharedRows.{shared_rows};

use crate::components::shared_components;
use crate::giving::all_keepers;
use crate::rows::all_rows;
use cx_ast::Tree;
use cx_copies::copied_imports;
use cx_design::Checked;
use cx_sharing::SharedRow;
use cx_text::Memory;
use std::alloc::Global;

/// A tree in which one cell stands for those that are never used together, and a row for each cell that is gone.
#[derive(Drop)]
pub struct Sharing {
    pub tree: Tree,
    pub rows: Vec<SharedRow>,
}

/// Makes one cell of combinational cells that are never used together. The design is that of the tree.
pub fn share(alloc: Global, tree: &Tree, design: &Checked) -> Result<Sharing, Memory>
    requires design { plain_design design.now ≡ design_of (plain_tree tree.now) }
    ensures tree { IfOk result (λ sharing. plain_tree sharing.tree ≡ shared_tree (plain_tree tree.now)) }
    ensures rows { IfOk result (λ sharing. sharing.rows.items ≡ shared_rows (plain_tree tree.now)) }
{
    let parts = design.design().components.as_slice();
    let keepers = all_keepers(alloc, parts)?;
    let rows = all_rows(alloc, parts, keepers.as_slice())?;
    let imports = copied_imports(alloc, tree.imports.as_slice())?;
    let components = shared_components(
        alloc,
        parts,
        keepers.as_slice(),
        tree.components.as_slice(),
    )?;
    let tree = Tree {
        imports,
        components,
    };
    Ok(Sharing { tree, rows })
}
