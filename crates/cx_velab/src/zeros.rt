//! What is stored before a run: zeros everywhere.

ghost use Rattle.std.specs.Prelude.{◌≡◌, ◌≤◌, ◌++◌, ℕ, Some, IfOk, OnOk, map, slice_get, replicate};
ghost use Rattle.cx_vtree.specs.Plain.{PlainDecl, PlainPort};
ghost use Rattle.cx_vtree.specs.PlainParts.{plain_port, plain_decl, plain_module};
ghost use Rattle.cx_vtree.specs.InstanceTree.{Placed};
ghost use Rattle.cx_vnets.specs.Stores.{plain_words};
ghost use Rattle.cx_vnets.specs.CodeLaws.{declared_widths, net_widths};
ghost use Rattle.cx_velab.specs.Rows.{placed_of};
ghost use Rattle.cx_velab.specs.Tables.{IsWidth, decl_width, HasWidths, module_zeros, zero_arrays, all_zeros, all_zero_arrays};
ghost use Rattle.cx_bits.specs.BitVector.{zero_of};

use crate::Row;
use cx_bits::Bits;
use cx_text::Memory;
use cx_vnets::{Stored, Words};
use cx_vtree::{Decl, Module, ModulePort};
use std::alloc::Global;

/// The zero of a width.
fn zero(width: u8) -> Bits
    requires { IsWidth width }
    ensures { result ≡ zero_of width }
{
    match Bits::new(width, 0) {
        Some(bits) => bits,
        None => unreachable!(),
    }
}

/// Appends a zero for each port.
fn push_ports(nets: &mut Vec<Bits>, ports: &[ModulePort]) -> Result<(), Memory>
    requires { (j : ℕ) (p : PlainPort) → slice_get (map plain_port ports.now) j ≡ Some p → IsWidth p.width }
    ensures { OnOk result
        (nets.new.items ≡ nets.old.items ++ map zero_of (map (λ p. p.width) (map plain_port ports.now))) }
{
    for port in ports {
        nets.push(zero(port.width))?;
    }
    Ok(())
}

/// Appends a zero for each wire and register.
fn push_decls(nets: &mut Vec<Bits>, decls: &[Decl]) -> Result<(), Memory>
    requires { (j : ℕ) (d : PlainDecl) → slice_get (map plain_decl decls.now) j ≡ Some d → IsWidth (decl_width d) }
    ensures { OnOk result
        (nets.new.items ≡ nets.old.items ++ map zero_of (declared_widths (map plain_decl decls.now))) }
{
    for decl in decls {
        match decl {
            Decl::Wire { width, .. } | Decl::Register { width, .. } => nets.push(zero(*width))?,
            Decl::Array { .. } => {}
        }
    }
    Ok(())
}

/// An array of zeros.
fn zero_words(alloc: Global, width: u8, length: u64) -> Result<Words, Memory>
    requires { IsWidth width }
    ensures { IfOk result
        (λ x. plain_words x ≡ record { zero = zero_of width; words = replicate length (zero_of width) }) }
{
    let zero = zero(width);
    let mut words = Vec::new(alloc);
    for _index in 0..length {
        words.push(zero)?;
    }
    Ok(Words { zero, words })
}

/// Appends the arrays.
fn push_arrays(alloc: Global, arrays: &mut Vec<Words>, decls: &[Decl]) -> Result<(), Memory>
    requires { (j : ℕ) (d : PlainDecl) → slice_get (map plain_decl decls.now) j ≡ Some d → IsWidth (decl_width d) }
    ensures { OnOk result (map plain_words arrays.new.items ≡
        map plain_words arrays.old.items ++ zero_arrays (map plain_decl decls.now)) }
{
    for decl in decls {
        if let Decl::Array { width, length, .. } = decl {
            arrays.push(zero_words(alloc, *width, *length)?)?;
        }
    }
    Ok(())
}

/// Appends a zero for each net of a module.
fn push_nets(nets: &mut Vec<Bits>, part: &Module) -> Result<(), Memory>
    requires { HasWidths (plain_module part.now) }
    ensures { OnOk result (nets.new.items ≡ nets.old.items ++ module_zeros (plain_module part.now)) }
{
    push_ports(nets, &part.ports)?;
    push_decls(nets, &part.decls)?;
    Ok(())
}

/// Zeros for all nets, and all arrays with zeros for words.
pub fn stored(alloc: Global, rows: &[Row<'_>]) -> Result<Stored, Memory>
    requires { (i : ℕ) (p : Placed) → slice_get (map placed_of rows.now) i ≡ Some p → HasWidths p.part }
    ensures nets { IfOk result (λ s. s.nets.items ≡ all_zeros (map placed_of rows.now)) }
    ensures arrays { IfOk result (λ s. map plain_words s.arrays.items ≡ all_zero_arrays (map placed_of rows.now)) }
{
    let mut nets = Vec::new(alloc);
    let mut arrays = Vec::new(alloc);
    for row in rows {
        push_nets(&mut nets, row.module)?;
        push_arrays(alloc, &mut arrays, &row.module.decls)?;
    }
    Ok(Stored { nets, arrays })
}
