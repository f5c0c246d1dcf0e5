//! The modules of memories.

ghost use Rattle.std.specs.Prelude.{◌≡◌, IfOk, OnOk};
ghost use Rattle.cx_prim.specs.MemoryRows.{IsLayout};
ghost use Rattle.cx_prim.specs.Widths.{IsWidth};
ghost use Rattle.cx_vtree.specs.PlainParts.{plain_expr};
ghost use Rattle.cx_vmods.specs.Parts.{made_of, with_pieces};
ghost use Rattle.cx_vmods.specs.Memories as plain;
ghost use Rattle.cx_vmods.specs.Shown.{parts_shown};

use crate::addresses::{in_range, index, word_count};
use crate::exprs::{binary, binary_nets, choice_by, literal, net, word};
use crate::parts::Parts;
use crate::widths::bits_for;
use cx_text::Memory;
use cx_vtree::{Expr, Operator};
use std::alloc::Global;

/// The word at the addresses, and 0 where one is out of range.
fn read(alloc: Global, width: u8) -> Result<Expr, Memory>
    requires { IsWidth width }
    ensures value { IfOk result (λ e. plain_expr e ≡ plain.read width) }
{
    let found = word(alloc, "words", "index")?;
    choice_by(alloc, "in_range", found, literal(width, 0))
}

impl Parts {
    /// The words, the index of the one at the addresses, and whether no address is out of range.
    fn words(
        &mut self,
        alloc: Global,
        width: u8,
        sizes: &[u64],
        widths: &[u64],
    ) -> Result<(), Memory>
        requires { IsLayout width sizes.now widths.now }
        ensures value { OnOk result (parts_shown self.new ≡
            with_pieces (parts_shown self.old) (plain.words width sizes.now widths.now)) }
    {
        let count = word_count(sizes);
        let index_width = bits_for(count as u32);
        self.wire(alloc, "in_range", 1, in_range(alloc, 0, sizes, widths)?)?;
        let number = index(alloc, 0, index_width, sizes, widths)?;
        self.wire(alloc, "index", index_width, number)?;
        self.array(alloc, "words", width, count)
    }

    /// The word in range takes `write_data` where the guard is 1.
    fn write(&mut self, alloc: Global, guard: Expr) -> Result<(), Memory>
        ensures value { OnOk result
            (parts_shown self.new ≡ with_pieces (parts_shown self.old) (plain.write (plain_expr guard))) }
    {
        let guard = binary(alloc, Operator::And, guard, net(alloc, "in_range")?)?;
        let value = net(alloc, "write_data")?;
        self.store(alloc, guard, "words", "index", value)?;
        Ok(())
    }

    /// Read data that follows the addresses.
    fn reading(&mut self, alloc: Global, width: u8) -> Result<(), Memory>
        requires { IsWidth width }
        ensures value { OnOk result (parts_shown self.new ≡ with_pieces (parts_shown self.old) (plain.reading width)) }
    {
        let found = read(alloc, width)?;
        self.output(alloc, "read_data", found)?;
        Ok(())
    }

    /// Read data that is registered.
    fn holding_read(&mut self, alloc: Global, width: u8) -> Result<(), Memory>
        requires { IsWidth width }
        ensures value { OnOk result
            (parts_shown self.new ≡ with_pieces (parts_shown self.old) (plain.holding_read width)) }
    {
        let next = next(alloc, width)?;
        self.register(alloc, "held", width, next)?;
        self.output_net(alloc, "read_data", "held")?;
        Ok(())
    }
}

/// The next read data: a read takes the word, and a write leaves what was read.
fn next(alloc: Global, width: u8) -> Result<Expr, Memory>
    requires { IsWidth width }
    ensures value { IfOk result (λ e. plain_expr e ≡ plain.next width) }
{
    let held = net(alloc, "held")?;
    let accessed = choice_by(alloc, "write_en", held, read(alloc, width)?)?;
    choice_by(alloc, "content_en", accessed, net(alloc, "held")?)
}

/// A memory whose read data follows the addresses.
#[tactic(auto, unfolding(crate::specs::Memories::combinational))]
pub fn combinational(
    alloc: Global,
    width: u8,
    sizes: &[u64],
    widths: &[u64],
) -> Result<Parts, Memory>
    requires { IsLayout width sizes.now widths.now }
    ensures value { IfOk result
        (λ parts. parts_shown parts ≡ made_of (plain.combinational width sizes.now widths.now)) }
{
    let writes = net(alloc, "write_en")?;
    let mut parts = Parts::none(alloc);
    parts.words(alloc, width, sizes, widths)?;
    parts.write(alloc, writes)?;
    parts.reading(alloc, width)?;
    parts.done_after(alloc, "write_en")?;
    Ok(parts)
}

/// A memory whose read data is registered.
#[tactic(auto, unfolding(crate::specs::Memories::sequential))]
pub fn sequential(alloc: Global, width: u8, sizes: &[u64], widths: &[u64]) -> Result<Parts, Memory>
    requires { IsLayout width sizes.now widths.now }
    ensures value { IfOk result (λ parts. parts_shown parts ≡ made_of (plain.sequential width sizes.now widths.now)) }
{
    let writes = binary_nets(alloc, Operator::And, "content_en", "write_en")?;
    let mut parts = Parts::none(alloc);
    parts.words(alloc, width, sizes, widths)?;
    parts.write(alloc, writes)?;
    parts.holding_read(alloc, width)?;
    parts.done_after(alloc, "content_en")?;
    Ok(parts)
}
