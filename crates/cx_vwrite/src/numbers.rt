//! Bytes and numbers.

ghost use Rattle.std.specs.Prelude.{◌≡◌, ◌<◌, ◌≤◌, [], ◌∷◌, ◌++◌, OnOk};
ghost use Rattle.cx_vtree.specs.Lines.{glyph, number_text, decimal_text};

use cx_text::Memory;

/// Appends bytes.
pub fn push(out: &mut Vec<u8>, text: &[u8]) -> Result<(), Memory>
    ensures { OnOk result (out.new.items ≡ out.old.items ++ text.now) }
{
    out.extend_from_slice(text)?;
    Ok(())
}

/// Appends the byte of a digit: `0` to `9`, then `a` to `f`.
fn digit(out: &mut Vec<u8>, d: u8) -> Result<(), Memory>
    requires { d < 16 }
    ensures { OnOk result (out.new.items ≡ out.old.items ++ glyph d ∷ []) }
{
    let byte = if d < 10 { b'0' + d } else { b'a' + (d - 10) };
    out.push(byte)?;
    Ok(())
}

/// Appends a number in a base of at most 16, without leading zeros.
#[tactic(auto, using(crate::proofs::NumberText::one_digit, crate::proofs::NumberText::digits_end))]
pub fn number(out: &mut Vec<u8>, base: u128, n: u128) -> Result<(), Memory>
    requires low { 2 ≤ base }
    requires high { base ≤ 16 }
    ensures { OnOk result (out.new.items ≡ out.old.items ++ number_text base n) }
{
    if n < base {
        return digit(out, n as u8);
    }
    number(out, base, n / base)?;
    digit(out, (n % base) as u8)?;
    Ok(())
}

/// Appends a number in decimal.
pub fn decimal(out: &mut Vec<u8>, n: u64) -> Result<(), Memory>
    ensures { OnOk result (out.new.items ≡ out.old.items ++ decimal_text n) }
{
    number(out, 10, u128::from(n))
}
