//! The word that the addresses of a memory name.

ghost use Rattle.std.specs.Prelude.{◌≡◌, ◌+◌, ◌^◌, ◌<◌, ◌≤◌, true, IfOk, length};
ghost use Rattle.cx_text.specs.Loading as loading;
ghost use Rattle.cx_prim.specs.MemoryRows.{are_sizes};
ghost use Rattle.cx_prim.specs.Widths.{IsWidth};
ghost use Rattle.cx_vtree.specs.PlainParts.{plain_expr};
ghost use Rattle.cx_vmods.specs.Addresses as plain;
ghost use Rattle.cx_vmods.specs.Addresses.{AreAddresses};

use crate::exprs::{binary, joined, literal, net, part};
use cx_text::Memory;
use cx_vtree::{Expr, Operator};
use std::alloc::Global;

/// The name of an address.
fn address(n: usize) -> &'static str
    ensures value { result.now ≡ plain.address n }
{
    match n {
        0 => "addr0",
        1 => "addr1",
        2 => "addr2",
        _ => "addr3",
    }
}

/// The number of words of a memory of these sizes.
pub fn word_count(sizes: &[u64]) -> u64
    requires { are_sizes sizes.now ≡ true }
    ensures value { result ≡ loading.word_count sizes.now }
    ensures within { result < 2 ^ 32 }
{
    match sizes.split_first() {
        None => 1,
        Some((size, rest)) => *size * word_count(rest),
    }
}

/// Whether an address is below its size; 1 where every number of its width is.
fn below(alloc: Global, n: usize, size: u64, width: u8) -> Result<Expr, Memory>
    requires some_bits { 1 ≤ width }
    requires few_bits { width ≤ 64 }
    ensures value { IfOk result (λ e. plain_expr e ≡ plain.below n size width) }
{
    if 1u128 << width <= u128::from(size) {
        return Ok(literal(1, 1));
    }
    let own = net(alloc, address(n))?;
    binary(alloc, Operator::Less, own, literal(width, u128::from(size)))
}

/// Whether each address from `n` on is below its size.
pub fn in_range(alloc: Global, n: usize, sizes: &[u64], widths: &[u64]) -> Result<Expr, Memory>
    requires addresses { AreAddresses sizes.now widths.now }
    requires few { n + length sizes.now ≤ 4 }
    ensures value { IfOk result (λ e. plain_expr e ≡ plain.in_range n sizes.now widths.now) }
{
    let Some((size, sizes)) = sizes.split_first() else {
        return Ok(literal(1, 1));
    };
    let Some((width, widths)) = widths.split_first() else {
        return Ok(literal(1, 1));
    };
    let own = below(alloc, n, *size, *width as u8)?;
    if sizes.len() == 0 {
        return Ok(own);
    }
    let others = in_range(alloc, n + 1, sizes, widths)?;
    binary(alloc, Operator::And, own, others)
}

/// An address, cut to the width of the index or with zeros above.
fn fitted(alloc: Global, n: usize, width: u8, index_width: u8) -> Result<Expr, Memory>
    requires some_bits { 1 ≤ width }
    requires index { IsWidth index_width }
    ensures value { IfOk result (λ e. plain_expr e ≡ plain.fitted n width index_width) }
{
    if index_width <= width {
        return part(alloc, address(n), index_width - 1, 0);
    }
    let zeros = literal(index_width - width, 0);
    joined(alloc, zeros, net(alloc, address(n))?)
}

/// The number of the word, by the addresses from `n` on: each times the number of words of the dimensions behind it.
pub fn index(
    alloc: Global,
    n: usize,
    index_width: u8,
    sizes: &[u64],
    widths: &[u64],
) -> Result<Expr, Memory>
    requires addresses { AreAddresses sizes.now widths.now }
    requires few { n + length sizes.now ≤ 4 }
    requires index { IsWidth index_width }
    ensures value { IfOk result (λ e. plain_expr e ≡ plain.index n index_width sizes.now widths.now) }
{
    let Some((_, sizes)) = sizes.split_first() else {
        return Ok(literal(index_width, 0));
    };
    let Some((width, widths)) = widths.split_first() else {
        return Ok(literal(index_width, 0));
    };
    let own = fitted(alloc, n, *width as u8, index_width)?;
    if sizes.len() == 0 {
        return Ok(own);
    }
    let stride = literal(index_width, u128::from(word_count(sizes)));
    let before = binary(alloc, Operator::Multiply, own, stride)?;
    let behind = index(alloc, n + 1, index_width, sizes, widths)?;
    binary(alloc, Operator::Add, before, behind)
}
