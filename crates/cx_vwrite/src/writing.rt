//! The text of a source.

ghost use Rattle.std.specs.Prelude.{◌≡◌, ◌≤◌, ◌++◌, OnOk, IfOk, IfErr, length};
ghost use Rattle.cx_vtree.specs.PlainParts.{plain_externals, plain_modules};
ghost use Rattle.cx_vtree.specs.PlainSources.{plain_source};
ghost use Rattle.cx_vtree.specs.Spelling.{text_of};
ghost use Rattle.cx_vwrite.specs.Refused.{IsTooLong};

use crate::modules::{externals, modules};
use crate::refusals::WriteRefusal;
use cx_text::{Memory, VERILOG_BYTES};
use cx_vtree::{External, Module, Source};
use std::alloc::Global;

/// The text of external memories and modules, however long, whether they are sound or not.
pub fn spell(alloc: Global, es: &[External], ms: &[Module]) -> Result<Vec<u8>, Memory>
    ensures { IfOk result (λ text.
        text.items ≡ text_of (record { externals = plain_externals es.now; modules = plain_modules ms.now })) }
{
    let mut out = Vec::new(alloc);
    externals(&mut out, es)?;
    modules(&mut out, ms)?;
    Ok(out)
}

/// The text of a source, however long.
fn whole(alloc: Global, source: &Source) -> Result<Vec<u8>, Memory>
    ensures { IfOk result (λ text. text.items ≡ text_of (plain_source source.now)) }
{
    let text = spell(alloc, source.externals(), source.modules())?;
    Ok(text)
}

/// The bytes that spell a source. `TooLong` comes where they are more than a Verilog text may have, with their number.
pub fn write(alloc: Global, source: &Source) -> Result<Vec<u8>, WriteRefusal>
    ensures value { IfOk result (λ text. text.items ≡ text_of (plain_source source.now)) }
    ensures within { IfOk result (λ text. length text.items ≤ VERILOG_BYTES) }

    ensures too_long { IfErr result (IsTooLong VERILOG_BYTES (text_of (plain_source source.now))) }
{
    let text = whole(alloc, source)?;
    let length = text.len();
    if length > VERILOG_BYTES {
        return Err(WriteRefusal::TooLong(length as u64));
    }
    Ok(text)
}
