//! What combinational primitives do to their inputs.

ghost use Rattle.std.specs.Prelude.{◌≡◌};
ghost use Rattle.cx_prim.specs.Operators.{IsUnary, apply_unary, binary_out_width, apply_binary};

use cx_bits::Bits;

/// What a primitive with one input does to its value.
#[derive(Clone, Copy, Debug, PartialEq, Eq)]
pub enum UnaryOperator {
    Wire,
    Not,
    /// The low bits.
    Slice,
    /// Zeros above.
    Pad,
}

/// What a primitive with the inputs `left` and `right` does to them. Comparisons give one bit.
#[derive(Clone, Copy, Debug, PartialEq, Eq)]
pub enum BinaryOperator {
    Add,
    Sub,
    And,
    Or,
    Xor,
    /// `left` shifted left by `right`.
    Lsh,
    /// `left` shifted right by `right`.
    Rsh,
    Lt,
    Gt,
    Equal,
    Neq,
    Le,
    Ge,
    /// Comparisons of numbers in two's complement.
    Slt,
    Sgt,
    Sle,
    Sge,
}

impl UnaryOperator {
    /// The output, of the given width.
    pub fn apply(self, value: Bits, out_width: u8) -> Bits
        requires { IsUnary self value.width out_width }
        ensures value { result ≡ apply_unary self out_width value }
    {
        match self {
            UnaryOperator::Wire => value,
            UnaryOperator::Not => value.not(),
            UnaryOperator::Slice => value.low(out_width),
            UnaryOperator::Pad => value.pad(out_width),
        }
    }
}

impl BinaryOperator {
    /// The width of the output.
    pub fn out_width(self, width: u8) -> u8
        ensures value { result ≡ binary_out_width self width }
    {
        match self {
            BinaryOperator::Add
            | BinaryOperator::Sub
            | BinaryOperator::And
            | BinaryOperator::Or
            | BinaryOperator::Xor
            | BinaryOperator::Lsh
            | BinaryOperator::Rsh => width,
            _ => 1,
        }
    }

    /// The output.
    pub fn apply(self, left: Bits, right: Bits) -> Bits
        requires { left.width ≡ right.width }
        ensures value { result ≡ apply_binary self left right }
    {
        match self {
            BinaryOperator::Add => left.add(right),
            BinaryOperator::Sub => left.sub(right),
            BinaryOperator::And => left.and(right),
            BinaryOperator::Or => left.or(right),
            BinaryOperator::Xor => left.xor(right),
            BinaryOperator::Lsh => left.shl(right),
            BinaryOperator::Rsh => left.shr(right),
            BinaryOperator::Lt => left.lt(right),
            BinaryOperator::Gt => right.lt(left),
            BinaryOperator::Equal => left.eq(right),
            BinaryOperator::Neq => left.eq(right).not(),
            BinaryOperator::Le => right.lt(left).not(),
            BinaryOperator::Ge => left.lt(right).not(),
            BinaryOperator::Slt => left.signed_lt(right),
            BinaryOperator::Sgt => right.signed_lt(left),
            BinaryOperator::Sle => right.signed_lt(left).not(),
            BinaryOperator::Sge => left.signed_lt(right).not(),
        }
    }
}
