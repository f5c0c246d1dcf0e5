//! Numbers that fit their types.

ghost use Rattle.std.specs.Prelude.{◌≡◌, ◌+◌, ◌*◌, ◌∷◌, [], IfOk};
ghost use Rattle.cx_design.specs.PlainForms.{plain_component, plain_form};
ghost use Rattle.cx_meaning.specs.Islands as plain;
ghost use Rattle.cx_prim.specs.declared.names.PrimitiveName.TheVariants as primitives;

use cx_cells::Primitive;
use cx_design::{Component, Form};
use cx_design_sizes::form_length;
use cx_text::Memory;

/// The number of a part. There are no more parts than 32 bits number.
pub(crate) fn number(place: usize) -> Result<u32, Memory>
    ensures { IfOk result (λ number. number ≡ place) }
{
    if place > u32::MAX as usize {
        return Err(Memory);
    }
    Ok(place as u32)
}

/// The sum of two numbers of cycles. There are no more cycles than 64 bits number.
pub(crate) fn sum(one: u64, other: u64) -> Result<u64, Memory>
    ensures { IfOk result (λ sum. sum ≡ one + other) }
{
    match one.checked_add(other) {
        None => Err(Memory),
        Some(sum) => Ok(sum),
    }
}

/// So many times a number of cycles. There are no more cycles than 64 bits number.
pub(crate) fn product(count: u64, length: u64) -> Result<u64, Memory>
    ensures { IfOk result (λ product. product ≡ count * length) }
{
    match count.checked_mul(length) {
        None => Err(Memory),
        Some(product) => Ok(product),
    }
}

/// The length of static control, in cycles. There are no more cycles than 64 bits number.
pub(crate) fn static_length(part: &Component, form: &Form) -> Result<u64, Memory>
    ensures { IfOk result (λ length. length ≡ plain.form_length (plain_component part.now) (plain_form form.now)) }
{
    let length = form_length(part, form);
    if length == u64::MAX {
        return Err(Memory);
    }
    Ok(length)
}

/// The timer of so many cycles. A timer counts 1 cycle at least, and no more than 32 bits number.
pub(crate) fn timer(length: u64) -> Result<Primitive, Memory>
    ensures { IfOk result (λ timer. timer ≡ record { name = primitives.Timer; numbers = length ∷ [] }) }
{
    if length == 0 || length > u64::from(u32::MAX) {
        return Err(Memory);
    }
    Ok(Primitive::timer(length as u32))
}
