//! Where the nets and the arrays of each instance begin.

ghost use Rattle.std.specs.Prelude.{◌≡◌, ◌<◌, ◌≤◌, ◌+◌, ◌^◌, IfOk, length, map};
ghost use Rattle.cx_vtree.specs.PlainParts.{plain_decl, plain_module};
ghost use Rattle.cx_vtree.specs.InstanceTree.{declared_arrays};
ghost use Rattle.cx_velab.specs.Paths.{nets_in};
ghost use Rattle.cx_velab.specs.Rows.{placed_of};
ghost use Rattle.cx_vnets.specs.Numbers.{nets_before, arrays_before};
ghost use Rattle.cx_velab.specs.Tables.{all_places};

use crate::Row;
use cx_text::Memory;
use cx_vnets::NetPosition;
use cx_vtree::{Decl, Module};
use std::alloc::Global;

/// How many nets a module has.
fn net_count(part: &Module) -> usize
    ensures { result ≡ length (nets_in (plain_module part.now)) }
{
    let mut count = part.ports.len();
    for decl in &part.decls {
        match decl {
            Decl::Wire { .. } | Decl::Register { .. } => count += 1,
            Decl::Array { .. } => {}
        }
    }
    count
}

/// How many arrays there are.
fn array_count(decls: &[Decl]) -> usize
    ensures { result ≡ length (declared_arrays (map plain_decl decls.now)) }
{
    let mut count = 0;
    for decl in decls {
        if let Decl::Array { .. } = decl {
            count += 1;
        }
    }
    count
}

/// Where the nets and the arrays of each instance begin: after those of the instances before it.
pub fn places(alloc: Global, rows: &[Row<'_>]) -> Result<Vec<NetPosition>, Memory>
    requires nets { nets_before (map placed_of rows.now) (length rows.now) < 2 ^ 32 }
    requires arrays { arrays_before (map placed_of rows.now) (length rows.now) < 2 ^ 32 }
    ensures { IfOk result (λ ps. ps.items ≡ all_places (map placed_of rows.now) (length rows.now)) }
{
    let mut places = Vec::new(alloc);
    let mut nets = 0;
    let mut arrays = 0;
    for row in rows {
        places.push(NetPosition { nets, arrays })?;
        nets += net_count(row.module) as u32;
        arrays += array_count(&row.module.decls) as u32;
    }
    Ok(places)
}
