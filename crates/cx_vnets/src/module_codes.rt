//! Expressions as codes.

ghost use Rattle.std.specs.Prelude.{IfOk};
ghost use Rattle.cx_vtree.specs.PlainParts.{plain_expr};
ghost use Rattle.cx_vnets.specs.ModuleCodes.{IsCode, HasNumbers};
ghost use Rattle.cx_vnets.specs.Numberings.{nets_by, arrays_by};

use crate::Code;
use crate::numbers::ModuleNumbers;
use cx_text::Memory;
use cx_vtree::Expr;
use std::alloc::Global;

/// The code of an expression over the nets and arrays of a module.
pub fn code(alloc: Global, numbers: &ModuleNumbers<'_>, expr: &Expr) -> Result<Code, Memory>
    requires { HasNumbers (nets_by numbers.now) (arrays_by numbers.now) (plain_expr expr.now) }
    ensures { IfOk result (λ c. IsCode (nets_by numbers.now) (arrays_by numbers.now) c (plain_expr expr.now)) }
{
    match expr {
        Expr::Net(name) => Ok(Code::Net(numbers.net(name))),
        Expr::Literal(bits) => Ok(Code::Literal(*bits)),
        Expr::Slice(name, high, low) => Ok(Code::Slice(numbers.net(name), *high, *low)),
        Expr::Item(name, index) => {
            let index = code(alloc, numbers, index)?;
            Ok(Code::Item(numbers.array(name), Box::new(alloc, index)?))
        }
        Expr::Binary(op, left, right) => {
            let left = Box::new(alloc, code(alloc, numbers, left)?)?;
            let right = Box::new(alloc, code(alloc, numbers, right)?)?;
            Ok(Code::Binary(*op, left, right))
        }
        Expr::Not(inner) => {
            let inner = code(alloc, numbers, inner)?;
            Ok(Code::Not(Box::new(alloc, inner)?))
        }
        Expr::Choose(test, one, other) => {
            let test = Box::new(alloc, code(alloc, numbers, test)?)?;
            let one = Box::new(alloc, code(alloc, numbers, one)?)?;
            let other = Box::new(alloc, code(alloc, numbers, other)?)?;
            Ok(Code::Choose(test, one, other))
        }
        Expr::Cat(high, low) => {
            let high = Box::new(alloc, code(alloc, numbers, high)?)?;
            let low = Box::new(alloc, code(alloc, numbers, low)?)?;
            Ok(Code::Cat(high, low))
        }
    }
}
