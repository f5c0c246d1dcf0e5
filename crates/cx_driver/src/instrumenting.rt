//! The text of the instrumented design of a text.

ghost use Rattle.std.specs.Prelude.{◌≡◌, ◌≤◌, ◌⊎◌, IfOk, IfErr, MatchResult, length};
ghost use Rattle.cx_text.specs.declared.diagnostics.Diagnostic.{Diagnostic as DiagnosticValue};
ghost use Rattle.cx_design.specs.PlainDesigns.{plain_design};
ghost use Rattle.cx_commands.specs.declared.stops.Stop.TheVariants as stops;
ghost use Rattle.cx_driver.specs.Counting.{CanCount};
ghost use Rattle.cx_driver.specs.Instrumenting.{InstrumentBreak, IsInstrumentable, IsInstrumented, IsInstrumentedDesign, IsInstrumentedStop, IsInstrumentStop};

use crate::counting::counting;
use cx_commands::Stop;
use cx_compiler::flat_laws::{what_is_run_is_accepted, what_is_run_is_flat};
use cx_compiler::{accepted_design, compile_accepted};
use cx_design::Checked;
use cx_emitted::script_laws::sources_realise_always;
use std::alloc::Global;

/// Writes the Verilog text of the design of a text with a counter for each group, where it keeps the limits and is
/// within the size that is compiled.
pub fn instrument(alloc: Global, text: &[u8]) -> Result<Vec<u8>, Stop>
    requires { length text.now ≤ 1048576 }
    ensures answer { IfOk result (λ verilog. IsInstrumented text.now verilog.items) }
    ensures cause { IfErr result (IsInstrumentStop text.now) }
    // A text that is accepted, and whose instrumented design keeps the limits and is within the size, is answered,
    // unless memory is wanting.
    ensures all_answers { IsInstrumentable text.now → MatchResult result (λ _. Unit {0}) (λ stop. stop ≡ stops.Memory) }
    // A rule that the text breaks is told, or else a limit that the instrumented design exceeds, or else that it is
    // too large, unless memory is wanting.
    ensures all_refusals { (told : DiagnosticValue) → InstrumentBreak text.now told
        → MatchResult result (λ _. ⊥) (λ stop. (stop ≡ stops.Memory) ⊎ (stop ≡ stops.Rule told)) }
{
    match accepted_design(alloc, text) {
        Ok(design) => instrument_design(alloc, &design),
        Err(stop) => Err(stop),
    }
}

/// The same of the design of a text.
fn instrument_design(alloc: Global, design: &Checked) -> Result<Vec<u8>, Stop>
    requires counted { CanCount (plain_design design.now) }
    ensures answer { IfOk result (λ verilog. IsInstrumentedDesign (plain_design design.now) verilog.items) }
    ensures cause { IfErr result (IsInstrumentedStop (plain_design design.now)) }
{
    sources_realise_always();
    what_is_run_is_accepted();
    what_is_run_is_flat();
    match counting(alloc, design) {
        Ok(profiled) => compile_accepted(alloc, profiled.design),
        Err(stop) => Err(stop),
    }
}
