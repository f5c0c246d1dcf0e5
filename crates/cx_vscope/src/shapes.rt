//! What the rules on names and widths look at of an expression.

ghost use Rattle.std.specs.Prelude.{◌≡◌, ◌&&◌, not, codes};
ghost use Rattle.cx_vtree.specs.InstanceTree.{same_name};
ghost use Rattle.cx_vtree.specs.Plain.{Named, Part};
ghost use Rattle.cx_vtree.specs.Sound as sound;
ghost use Rattle.cx_vtree.specs.PlainParts.{plain_expr};
ghost use Rattle.cx_vscope.specs.ScopeValues.{scope_by};
ghost use Rattle.cx_vscope.specs.Shapes as shapes;

use crate::exprs::{
    applied_width, chosen_width, joined_width, literal_width, overflows, part_width,
};
use crate::meanings::{is_array, is_source, width_of};
use crate::scopes::ModuleScope;
use cx_text::Name;
use cx_vtree::{Expr, Meaning, Operator};

/// Whether a name stands in an expression where it may not, and its width, None where the widths in it do not fit.
#[derive(Clone, Copy, Debug, PartialEq, Eq)]
pub struct Shape {
    pub misnamed: bool,
    pub width: Option<u8>,
}

/// Whether a name that means this may stand in an expression.
fn is_readable(meaning: Meaning, name: &Name) -> bool
    ensures { result ≡ (sound.is_source meaning && not (same_name name.now (codes "clk"))) }
{
    is_source(meaning) && name.bytes() != b"clk".as_slice()
}

/// The shape of a net.
fn net_shape(scope: &ModuleScope, name: &Name) -> Shape
    ensures { result ≡ shapes.shape_of (scope_by scope.now) (Named name.now) }
{
    let meaning = scope.meaning(name);
    Shape {
        misnamed: !is_readable(meaning, name),
        width: Some(width_of(meaning)),
    }
}

/// The shape of the bits `high` to `low` of a net.
fn part_shape(scope: &ModuleScope, name: &Name, high: u8, low: u8) -> Shape
    ensures { result ≡ shapes.shape_of (scope_by scope.now) (Part name.now high low) }
{
    let meaning = scope.meaning(name);
    Shape {
        misnamed: !is_readable(meaning, name),
        width: part_width(width_of(meaning), high, low),
    }
}

/// The shape of the words of an array.
pub fn array_shape(scope: &ModuleScope, name: &Name) -> Shape
    ensures { result ≡ shapes.array_shape (scope_by scope.now) name.now }
{
    let meaning = scope.meaning(name);
    Shape {
        misnamed: !is_array(meaning),
        width: Some(width_of(meaning)),
    }
}

/// The second of two widths, where the first is one.
fn behind(first: Option<u8>, second: Option<u8>) -> Option<u8>
    ensures { result ≡ shapes.width_behind first second }
{
    match first {
        None => None,
        Some(_) => second,
    }
}

/// The shape of a word of an array.
pub fn indexed(array: Shape, index: Shape) -> Shape
    ensures { result ≡ shapes.indexed array index }
{
    Shape {
        misnamed: array.misnamed || index.misnamed,
        width: behind(index.width, array.width),
    }
}

fn operator_width(op: Operator, left: Option<u8>, right: Option<u8>) -> Option<u8>
    ensures { result ≡ sound.operator_width op left right }
{
    let v = left?;
    let w = right?;
    applied_width(op, v, w)
}

/// The shape of an operator between two sides.
pub fn applied(op: Operator, left: Shape, right: Shape) -> Shape
    ensures { result ≡ shapes.applied op left right }
{
    Shape {
        misnamed: left.misnamed || right.misnamed,
        width: operator_width(op, left.width, right.width),
    }
}

fn choice_width(test: Option<u8>, one: Option<u8>, other: Option<u8>) -> Option<u8>
    ensures { result ≡ sound.choice_width test one other }
{
    let t = test?;
    let v = one?;
    let w = other?;
    chosen_width(t, v, w)
}

/// The shape of a choice.
pub fn chosen(test: Shape, one: Shape, other: Shape) -> Shape
    ensures { result ≡ shapes.chosen test one other }
{
    Shape {
        misnamed: test.misnamed || one.misnamed || other.misnamed,
        width: choice_width(test.width, one.width, other.width),
    }
}

fn sides_width(high: Option<u8>, low: Option<u8>) -> Option<u8>
    ensures { result ≡ sound.sides_width high low }
{
    let v = high?;
    let w = low?;
    joined_width(v, w)
}

/// The shape of two sides one behind the other.
pub fn joined(high: Shape, low: Shape) -> Shape
    ensures { result ≡ shapes.joined high low }
{
    Shape {
        misnamed: high.misnamed || low.misnamed,
        width: sides_width(high.width, low.width),
    }
}

/// The shape of an expression. Each name in it is looked up once.
pub fn shape_of(scope: &ModuleScope, e: &Expr) -> Shape
    ensures { result ≡ shapes.shape_of (scope_by scope.now) (plain_expr e.now) }
{
    match e {
        Expr::Net(name) => net_shape(scope, name),
        Expr::Literal(bits) => Shape {
            misnamed: overflows(*bits),
            width: literal_width(*bits),
        },
        Expr::Slice(name, high, low) => part_shape(scope, name, *high, *low),
        Expr::Item(name, index) => indexed(array_shape(scope, name), shape_of(scope, index)),
        Expr::Binary(op, left, right) => {
            applied(*op, shape_of(scope, left), shape_of(scope, right))
        }
        Expr::Not(inner) => shape_of(scope, inner),
        Expr::Choose(test, one, other) => chosen(
            shape_of(scope, test),
            shape_of(scope, one),
            shape_of(scope, other),
        ),
        Expr::Cat(high, low) => joined(shape_of(scope, high), shape_of(scope, low)),
    }
}

/// Whether the widths in an expression of this shape fit, and it has this width.
pub fn has_width(shape: Shape, width: u8) -> bool
    ensures { result ≡ shapes.has_width shape width }
{
    match shape.width {
        None => false,
        Some(w) => w == width,
    }
}
