//! Expressions.

ghost use Rattle.std.specs.Prelude.{◌≡◌, ◌++◌, OnOk};
ghost use Rattle.cx_vtree.specs.Lines.{op_text, expr_text};
ghost use Rattle.cx_vtree.specs.PlainParts.{plain_expr};

use crate::numbers::{decimal, number, push};
use cx_text::Memory;
use cx_vtree::{Expr, Operator};

/// An operator as it is spelled.
fn operator(op: Operator) -> &'static [u8]
    ensures { result.now ≡ op_text op }
{
    match op {
        Operator::Add => b"+",
        Operator::Subtract => b"-",
        Operator::Multiply => b"*",
        Operator::And => b"&",
        Operator::Or => b"|",
        Operator::Xor => b"^",
        Operator::ShiftLeft => b"<<",
        Operator::ShiftRight => b">>",
        Operator::Equal => b"==",
        Operator::NotEqual => b"!=",
        Operator::Less => b"<",
        Operator::Greater => b">",
        Operator::AtMost => b"<=",
        Operator::AtLeast => b">=",
    }
}

/// Appends an expression.
pub fn expr(out: &mut Vec<u8>, e: &Expr) -> Result<(), Memory>
    ensures { OnOk result (out.new.items ≡ out.old.items ++ expr_text (plain_expr e.now)) }
{
    match e {
        Expr::Net(name) => push(out, name.bytes()),
        Expr::Literal(bits) => {
            decimal(out, u64::from(bits.width()))?;
            push(out, b"'h")?;
            number(out, 16, bits.value())
        }
        Expr::Slice(name, high, low) => {
            push(out, name.bytes())?;
            push(out, b"[")?;
            decimal(out, u64::from(*high))?;
            push(out, b":")?;
            decimal(out, u64::from(*low))?;
            push(out, b"]")
        }
        Expr::Item(name, index) => {
            push(out, name.bytes())?;
            push(out, b"[")?;
            expr(out, index)?;
            push(out, b"]")
        }
        Expr::Binary(op, left, right) => {
            push(out, b"(")?;
            expr(out, left)?;
            push(out, b" ")?;
            push(out, operator(*op))?;
            push(out, b" ")?;
            expr(out, right)?;
            push(out, b")")
        }
        Expr::Not(inner) => {
            push(out, b"(~")?;
            expr(out, inner)?;
            push(out, b")")
        }
        Expr::Choose(test, one, other) => {
            push(out, b"(")?;
            expr(out, test)?;
            push(out, b" ? ")?;
            expr(out, one)?;
            push(out, b" : ")?;
            expr(out, other)?;
            push(out, b")")
        }
        Expr::Cat(high, low) => {
            push(out, b"{")?;
            expr(out, high)?;
            push(out, b", ")?;
            expr(out, low)?;
            push(out, b"}")
        }
    }
}
