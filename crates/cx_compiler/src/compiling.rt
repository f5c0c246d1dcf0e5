//! The compiler on texts: the text of a design gives a Verilog text.

ghost use Rattle.std.specs.Prelude.{◌≡◌, ◌≤◌, ◌⊎◌, IfOk, IfErr, MatchResult, decimal, length, true};
ghost use Rattle.cx_text.specs.declared.diagnostics.Diagnostic.{Diagnostic as DiagnosticValue};
ghost use Rattle.cx_text.specs.declared.rules.Rule.TheVariants as rules;
ghost use Rattle.cx_meaning.specs.Designs.{no_place};
ghost use Rattle.cx_compiler.specs.Runnable.{CanBeFlattened, runnable};
ghost use Rattle.cx_design.specs.PlainDesigns.{plain_design};
ghost use Rattle.cx_net.specs.NetsAsData.{plain_net};
ghost use Rattle.cx_vtree.specs.PlainSources.{plain_source};
ghost use Rattle.cx_vtree.specs.Sound.{is_sound};
ghost use Rattle.cx_emit.specs.Emitted.{CanBeEmitted};
ghost use Rattle.cx_compiler.specs.Simulated.{IsVerilogOf};
ghost use Rattle.cx_compiler.specs.Compiled.{CompileBreak, EmitsWithin, HasItsNet, IsCompilable, IsCompileStop, IsCompiled, IsDesignTooLarge, IsDesignWritten, IsRealised, IsRunTooLarge, IsRunWritten, KeepsRules, KeepsRulesWithin, RunEmitsWithin, written_net, written_source};
ghost use Rattle.cx_compiler.specs.Promise.{KeepsPromise};
ghost use Rattle.cx_commands.specs.declared.stops.Stop.TheVariants as stops;

use crate::accepting::accepted_design;
use crate::flat_laws::{accepted_texts_run_as_meant, what_is_run_is_accepted, what_is_run_is_flat};
use cx_commands::Stop;
use cx_design::Checked;
use cx_design_sizes::design_size;
use cx_emit::emit;
use cx_emitted::script_laws::sources_realise_always;
use cx_flat::flattened;
use cx_fsm::build;
use cx_holes::inline;
use cx_limits::counted_design_size;
use cx_net::Net;
use cx_static::lower;
use cx_text::{COMPILE_SIZE, Diagnostic, Memory, Name, Place, Rule};
use cx_vtree::Source;
use cx_vwrite::{WriteRefusal, write};
use itoa::Buffer;
use std::alloc::Global;

/// Writes the Verilog text of a design that is accepted and within the size that is compiled. What it writes keeps the promise: it is done
/// first in the cycle, and with the bytes, with which the interpreter ends, and never where the interpreter needs
/// more turns; and from any power-up state each run begins where the one before ended, with waits between.
pub fn compile(alloc: Global, text: &[u8]) -> Result<Vec<u8>, Stop>
    requires { length text.now ≤ 1048576 }
    ensures answer { IfOk result (λ verilog. IsCompiled text.now verilog.items) }
    ensures promise { IfOk result (λ verilog. KeepsPromise text.now verilog.items) }
    ensures cause { IfErr result (IsCompileStop text.now) }

    // A text that is accepted and within the size is compiled, unless memory is wanting.
    ensures all_answers { IsCompilable text.now → MatchResult result (λ _. Unit {0}) (λ stop. stop ≡ stops.Memory) }

    // A rule that the text breaks is told, with its place and its name, or that its design is too large, unless memory is wanting.
    ensures all_refusals { (told : DiagnosticValue) → CompileBreak text.now told
        → MatchResult result (λ _. ⊥) (λ stop. (stop ≡ stops.Memory) ⊎ (stop ≡ stops.Rule told)) }
{
    sources_realise_always();
    accepted_texts_run_as_meant();
    what_is_run_is_accepted();
    what_is_run_is_flat();
    match accepted_design(alloc, text) {
        Ok(design) => compile_accepted(alloc, design),
        Err(stop) => Err(stop),
    }
}

/// The Verilog text of the design that is run of an accepted one, where its size is within the limit.
pub fn compile_accepted(alloc: Global, checked: Checked) -> Result<Vec<u8>, Stop>
    requires flattens { CanBeFlattened (plain_design checked) }
    requires rules { KeepsRules (runnable (plain_design checked)) }
    requires net { RunEmitsWithin (plain_design checked) }
    ensures answer { IfOk result (λ verilog. IsRunWritten (plain_design checked) verilog.items) }
    ensures meaning { IfOk result (λ _. IsRealised (runnable (plain_design checked))) }
    ensures cause { IfErr result (IsRunTooLarge (plain_design checked)) }
{
    let size = counted_design_size(alloc, checked.design())?;
    if size > COMPILE_SIZE {
        return Err(too_large(alloc, size));
    }
    let run = flattened(alloc, checked)?;
    let text = verilog_of(alloc, &run)?;
    Ok(text)
}

/// The Verilog text of a design, where its size is within the limit.
pub fn compile_design(alloc: Global, design: &Checked) -> Result<Vec<u8>, Stop>
    requires rules { KeepsRulesWithin (plain_design design.now) }
    requires net { EmitsWithin (plain_design design.now) }
    ensures answer { IfOk result (λ verilog. IsDesignWritten (plain_design design.now) verilog.items) }
    ensures meaning { IfOk result (λ _. IsRealised (plain_design design.now)) }
    ensures cause { IfErr result (IsDesignTooLarge (plain_design design.now)) }
{
    let size = design_size(design.design());
    if size > COMPILE_SIZE {
        return Err(too_large(alloc, size));
    }
    let text = verilog_of(alloc, design)?;
    Ok(text)
}

/// The rule on sizes, which a design of this size breaks.
pub(crate) fn too_large(alloc: Global, size: u64) -> Stop
    ensures { (result ≡ stops.Memory) ⊎
        (result ≡ stops.Rule (record { rule = rules.TooLarge; place = no_place; name = decimal size })) }
{
    let mut buffer = Buffer::new();
    match Name::from_bytes(alloc, buffer.format(size).as_bytes()) {
        Ok(name) => Stop::Rule(Diagnostic {
            rule: Rule::TooLarge,
            place: Place { line: 1, column: 1 },
            name,
        }),
        Err(memory) => memory.into(),
    }
}

/// The Verilog text of a design.
fn verilog_of(alloc: Global, design: &Checked) -> Result<Vec<u8>, Memory>
    requires rules { KeepsRules (plain_design design.now) }
    requires net { CanBeEmitted (written_net (plain_design design.now)) }
    ensures spelled { IfOk result (λ text. IsVerilogOf text.items (written_source (plain_design design.now))) }
    ensures meaning { IfOk result (λ _. IsRealised (plain_design design.now)) }
{
    let source = source_of(alloc, design)?;
    spelled(alloc, &source)
}

/// The Verilog source of a design, by the last pass.
fn source_of(alloc: Global, design: &Checked) -> Result<Source, Memory>
    requires rules { KeepsRules (plain_design design.now) }
    requires net { CanBeEmitted (written_net (plain_design design.now)) }
    ensures value { IfOk result (λ source. plain_source source ≡ written_source (plain_design design.now)) }
    ensures meaning { IfOk result (λ _. IsRealised (plain_design design.now)) }
{
    let net = design_net(alloc, design)?;
    emit(alloc, &net)
}

/// The net of a design without holes, by the passes before.
pub(crate) fn design_net(alloc: Global, design: &Checked) -> Result<Net, Memory>
    requires rules { KeepsRules (plain_design design.now) }
    ensures value { IfOk result (λ net. plain_net net ≡ written_net (plain_design design.now)) }
    ensures meaning { IfOk result (λ net. HasItsNet (plain_design design.now) (plain_net net)) }
{
    let lowered = lower(alloc, design)?;
    inline(alloc, build(alloc, &lowered)?)
}

/// The text that spells a source. Want of memory is told too where this is longer than a Verilog text may be.
fn spelled(alloc: Global, source: &Source) -> Result<Vec<u8>, Memory>
    requires sound { is_sound (plain_source source.now) ≡ true }
    ensures { IfOk result (λ text. IsVerilogOf text.items (plain_source source.now)) }
{
    match write(alloc, source) {
        Ok(text) => Ok(text),
        Err(WriteRefusal::TooLong(_) | WriteRefusal::Memory) => Err(Memory),
    }
}
