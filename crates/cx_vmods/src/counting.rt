//! The count of cycles with `go`.

ghost use Rattle.std.specs.Prelude.{◌≡◌, IfOk, OnOk};
ghost use Rattle.cx_prim.specs.Widths.{IsWidth};
ghost use Rattle.cx_vtree.specs.PlainParts.{plain_expr};
ghost use Rattle.cx_vmods.specs.Parts.{with_pieces};
ghost use Rattle.cx_vmods.specs.Clocked as plain;
ghost use Rattle.cx_vmods.specs.Shown.{parts_shown};

use crate::exprs::{binary, binary_nets, choice_by, literal, net};
use crate::parts::Parts;
use cx_text::Memory;
use cx_vtree::{Expr, Operator};
use std::alloc::Global;

/// Whether `count` is a number.
fn is_at(alloc: Global, width: u8, number: u32) -> Result<Expr, Memory>
    requires { IsWidth width }
    ensures value { IfOk result (λ e. plain_expr e ≡ plain.is_at width number) }
{
    let at = literal(width, u128::from(number));
    binary(alloc, Operator::Equal, net(alloc, "count")?, at)
}

/// The next count: one more with `go`, 0 after the last one, and 0 without `go`.
fn next(alloc: Global, width: u8) -> Result<Expr, Memory>
    requires { IsWidth width }
    ensures value { IfOk result (λ e. plain_expr e ≡ plain.next_count width) }
{
    let more = binary(
        alloc,
        Operator::Add,
        net(alloc, "count")?,
        literal(width, 1),
    )?;
    let going = choice_by(alloc, "ends", literal(width, 0), more)?;
    choice_by(alloc, "go", going, literal(width, 0))
}

impl Parts {
    /// Counts the cycles with `go`, up to `last` and from 0 again. `done` follows the last one.
    pub fn count_to(&mut self, alloc: Global, width: u8, last: u32) -> Result<(), Memory>
        requires { IsWidth width }
        ensures value { OnOk result
            (parts_shown self.new ≡ with_pieces (parts_shown self.old) (plain.counting width last)) }
    {
        self.wire(alloc, "ends", 1, is_at(alloc, width, last)?)?;
        let finishes = binary_nets(alloc, Operator::And, "go", "ends")?;
        self.wire(alloc, "finishes", 1, finishes)?;
        self.register(alloc, "count", width, next(alloc, width)?)?;
        self.register(alloc, "finished", 1, net(alloc, "finishes")?)?;
        self.output_net(alloc, "done", "finished")
    }

    /// A wire that is 1 where no cycle was counted.
    pub fn starts(&mut self, alloc: Global, width: u8) -> Result<(), Memory>
        requires { IsWidth width }
        ensures value { OnOk result (parts_shown self.new ≡ with_pieces (parts_shown self.old) (plain.starting width)) }
    {
        self.wire(alloc, "starts", 1, is_at(alloc, width, 0)?)
    }

    /// `done` follows a cycle in which an enabling port is 1.
    pub fn done_after(&mut self, alloc: Global, enable: &str) -> Result<(), Memory>
        ensures value { OnOk result
            (parts_shown self.new ≡ with_pieces (parts_shown self.old) (plain.done_after enable.now)) }
    {
        let next = net(alloc, enable)?;
        self.register(alloc, "finished", 1, next)?;
        self.output_net(alloc, "done", "finished")?;
        Ok(())
    }

    /// A register that takes a value after the last cycle.
    pub fn answer(
        &mut self,
        alloc: Global,
        name: &str,
        width: u8,
        value: Expr,
    ) -> Result<(), Memory>
        requires { IsWidth width }
        ensures value { OnOk result (parts_shown self.new ≡
            with_pieces (parts_shown self.old) (plain.answering name.now width (plain_expr value))) }
    {
        let next = choice_by(alloc, "finishes", value, net(alloc, name)?)?;
        self.register(alloc, name, width, next)?;
        Ok(())
    }
}
