//! Codes that compare a net with a literal, and the rows of a table by a net and a value.

ghost use Rattle.std.specs.Prelude.{◌≡◌, ◌+◌, ◌<◌, true, IfSome};
ghost use Rattle.cx_vnets.specs.Watches as watches;
ghost use Rattle.cx_vnets.specs.Watches.{IsComparison, IsLiteral, IsNet, IsNoted, NotesGrow};

use crate::codes::Code;
use cx_bits::Bits;
use cx_vtree::Operator;

/// Who compares which net with which value.
#[derive(Drop)]
pub struct Watches {
    /// By a net and a value the nets that compare the net with the value; and by a net those that tell on which side of a value
    /// it is.
    pub rows: Vec<Vec<u32>>,
    /// For each net, whether it is compared at all.
    pub compared: Vec<bool>,
}

/// A net of an instance, and the literal with which it is compared.
#[derive(Clone, Copy, Debug, PartialEq, Eq)]
pub(crate) struct Comparison {
    pub net: u32,
    pub literal: Bits,
    /// It is told on which side of the literal the net is, and not only whether it is the same.
    pub sided: bool,
}

/// The net that a code is.
pub(crate) fn net_of(code: &Code) -> Option<u32>
    ensures { IfSome result (λ k. IsNet code.now k) }
{
    match code {
        Code::Net(net) => Some(*net),
        _ => None,
    }
}

/// The literal that a code is.
fn literal_of(code: &Code) -> Option<Bits>
    ensures { IfSome result (λ b. IsLiteral code.now b) }
{
    match code {
        Code::Literal(literal) => Some(*literal),
        _ => None,
    }
}

/// Of an operator that compares, whether it tells on which side of another value one is.
fn is_sided(op: Operator) -> Option<bool>
    ensures { result ≡ watches.is_sided op }
{
    match op {
        Operator::Equal | Operator::NotEqual => Some(false),
        Operator::Less | Operator::Greater | Operator::AtMost | Operator::AtLeast => Some(true),
        _ => None,
    }
}

/// What an operator with two operands compares, where it compares a net with a literal.
pub(crate) fn compared(op: Operator, left: &Code, right: &Code) -> Option<Comparison>
    ensures { IfSome result (λ c. IsComparison op left.now right.now c.net c.literal c.sided) }
{
    let sided = is_sided(op)?;
    let net = net_of(left)?;
    let literal = literal_of(right)?;
    Some(Comparison {
        net,
        literal,
        sided,
    })
}

/// Notes that a net is compared.
pub(crate) fn note(compared: &mut Vec<bool>, net: usize)
    ensures grows { NotesGrow compared.old.items compared.new.items }
    ensures noted { IsNoted compared.new.items net }
{
    if net < compared.len() {
        compared[net] = true;
    }
}

/// Whether a value is the next above another.
pub(crate) fn is_next(old: Bits, new: Bits) -> bool
    ensures { result ≡ true → new.value ≡ old.value + 1 }
{
    old.value() < new.value() && new.value() - old.value() == 1
}

/// The row of a net and a value in a table of so many rows.
pub(crate) fn row_of(net: usize, value: Bits, count: usize) -> usize
    requires some { 0 < count }
    ensures row { result ≡ watches.row_of net value count }
    ensures within { result < count }
{
    let low = (value.value() % 4294967296) as usize;
    (net % 4294967296 * 40503 + low) % count
}
