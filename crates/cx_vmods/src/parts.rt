//! What stands in a module behind its ports.

ghost use Rattle.std.specs.Prelude.{◌≡◌, OnOk, IfOk, []};
ghost use Rattle.cx_prim.specs.Widths.{IsWidth};
ghost use Rattle.cx_vtree.specs.PlainParts.{plain_expr, plain_assign};
ghost use Rattle.cx_vmods.specs.Parts.{nothing, with_piece, Wire, Output, Register, Array, Store};
ghost use Rattle.cx_vmods.specs.Shown.{parts_shown};
ghost use Rattle.cx_vmods.specs.Spelling as plain;

use crate::exprs::{literal, net};
use crate::spelling::spelled;
use cx_text::Memory;
use cx_vtree::{Decl, EdgeItem, Expr, NetAssign};
use std::alloc::Global;

/// The declarations and the assigned nets of a module, and what its edge does with reset and without.
#[derive(Drop)]
pub struct Parts {
    pub decls: Vec<Decl>,
    pub assigns: Vec<NetAssign>,
    pub reset: Vec<NetAssign>,
    pub step: Vec<EdgeItem>,
}

/// A name of the module with the value of an expression.
fn assign(alloc: Global, name: &str, value: Expr) -> Result<NetAssign, Memory>
    ensures value { IfOk result
        (λ a. plain_assign a ≡ record { name = plain.spelled name.now; value = plain_expr value }) }
{
    let name = spelled(alloc, name)?;
    Ok(NetAssign { name, value })
}

impl Parts {
    /// A module with nothing behind its ports.
    pub fn none(alloc: Global) -> Parts
        ensures value { parts_shown result ≡ nothing }
    {
        Parts {
            decls: Vec::new(alloc),
            assigns: Vec::new(alloc),
            reset: Vec::new(alloc),
            step: Vec::new(alloc),
        }
    }

    /// Adds a wire with its value.
    #[tactic(auto, unfolding(crate::specs::Parts::with_piece))]
    pub fn wire(&mut self, alloc: Global, name: &str, width: u8, value: Expr) -> Result<(), Memory>
        ensures value { OnOk result (parts_shown self.new ≡
            with_piece (parts_shown self.old) (Wire name.now width (plain_expr value))) }
    {
        let own = spelled(alloc, name)?;
        self.decls.push(Decl::Wire { name: own, width })?;
        self.assigns.push(assign(alloc, name, value)?)?;
        Ok(())
    }

    /// Gives an output its value.
    #[tactic(auto, unfolding(crate::specs::Parts::with_piece))]
    pub fn output(&mut self, alloc: Global, name: &str, value: Expr) -> Result<(), Memory>
        ensures value { OnOk result
            (parts_shown self.new ≡ with_piece (parts_shown self.old) (Output name.now (plain_expr value))) }
    {
        self.assigns.push(assign(alloc, name, value)?)?;
        Ok(())
    }

    /// Gives an output the value of a net.
    pub fn output_net(&mut self, alloc: Global, name: &str, from: &str) -> Result<(), Memory>
        ensures value { OnOk result (parts_shown self.new ≡
            with_piece (parts_shown self.old) (Output name.now (plain.net from.now))) }
    {
        let value = net(alloc, from)?;
        self.output(alloc, name, value)
    }

    /// Adds a register that is 0 after an edge with reset, and takes a value at the others.
    #[tactic(auto, unfolding(crate::specs::Parts::with_piece))]
    pub fn register(
        &mut self,
        alloc: Global,
        name: &str,
        width: u8,
        next: Expr,
    ) -> Result<(), Memory>
        requires { IsWidth width }
        ensures value { OnOk result (parts_shown self.new ≡
            with_piece (parts_shown self.old) (Register name.now width (plain_expr next))) }
    {
        let own = spelled(alloc, name)?;
        self.decls.push(Decl::Register { name: own, width })?;
        self.reset.push(assign(alloc, name, literal(width, 0))?)?;
        self.step.push(EdgeItem::Set(assign(alloc, name, next)?))?;
        Ok(())
    }

    /// Adds an array of so many words.
    #[tactic(auto, unfolding(crate::specs::Parts::with_piece))]
    pub fn array(&mut self, alloc: Global, name: &str, width: u8, length: u64) -> Result<(), Memory>
        ensures value { OnOk result
            (parts_shown self.new ≡ with_piece (parts_shown self.old) (Array name.now width length)) }
    {
        let name = spelled(alloc, name)?;
        self.decls.push(Decl::Array {
            name,
            width,
            length,
        })?;
        Ok(())
    }

    /// Stores a word at the edge where the guard is not 0, at the index that a net holds.
    #[tactic(auto, unfolding(crate::specs::Parts::with_piece))]
    pub fn store(
        &mut self,
        alloc: Global,
        guard: Expr,
        array: &str,
        index: &str,
        value: Expr,
    ) -> Result<(), Memory>
        ensures value { OnOk result (parts_shown self.new ≡
            with_piece (parts_shown self.old)
            (Store (plain_expr guard) array.now (plain.net index.now) (plain_expr value))) }
    {
        let array = spelled(alloc, array)?;
        let index = net(alloc, index)?;
        self.step.push(EdgeItem::Store {
            guard,
            array,
            index,
            value,
        })?;
        Ok(())
    }
}
