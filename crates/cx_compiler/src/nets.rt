//! The net of a design's text, for those who step it.

ghost use Rattle.std.specs.Prelude.{◌≡◌, ◌≤◌, ◌⊎◌, All, IfOk, IfErr, MatchResult, length};
ghost use Rattle.cx_text.specs.declared.diagnostics.Diagnostic.{Diagnostic as DiagnosticValue};
ghost use Rattle.cx_text.specs.Loading.{plain_rows};
ghost use Rattle.cx_data.specs.Widths.{HasWordWidth};
ghost use Rattle.cx_rules.specs.Externals.{external_rows};
ghost use Rattle.cx_compiler.specs.Runnable.{CanBeFlattened, runnable};
ghost use Rattle.cx_design.specs.PlainDesigns.{plain_design};
ghost use Rattle.cx_net.specs.NetsAsData.{plain_net};
ghost use Rattle.cx_compiler.specs.Compiled.{CompileBreak, IsCompilable, IsCompileStop, IsNetOfText, IsRunTooLarge, IsSizedNet, KeepsRules, net_rows};
ghost use Rattle.cx_commands.specs.declared.stops.Stop.TheVariants as stops;

use crate::accepting::accepted_design;
use crate::compiling::{design_net, too_large};
use crate::flat_laws::{what_is_run_is_accepted, what_is_run_is_flat};
use cx_commands::Stop;
use cx_design::Checked;
use cx_flat::flattened;
use cx_limits::counted_design_size;
use cx_net::Net;
use cx_text::{COMPILE_SIZE, MemoryRow};
use std::alloc::Global;

/// The net of a design, without holes, and its external memories in order.
#[derive(Debug, Drop)]
pub struct DesignNet {
    pub net: Net,
    pub rows: Vec<MemoryRow>,
}

/// The net of a design that is accepted and within the size that is compiled: that of which `compile` writes the text.
pub fn net_of(alloc: Global, text: &[u8]) -> Result<DesignNet, Stop>
    requires { length text.now ≤ 1048576 }
    ensures answer { IfOk result (λ own. IsNetOfText text.now (plain_net own.net)) }
    ensures rows { IfOk result (λ own. plain_rows own.rows.items ≡ net_rows (plain_net own.net)) }
    ensures widths { IfOk result (λ own. All HasWordWidth (plain_rows own.rows.items)) }
    ensures cause { IfErr result (IsCompileStop text.now) }

    // A text that is accepted and within the size has a net, unless memory is wanting.
    ensures all_answers { IsCompilable text.now → MatchResult result (λ _. Unit {0}) (λ stop. stop ≡ stops.Memory) }

    // A rule that the text breaks is told, with its place and its name, or that its design is too large, unless memory is wanting.
    ensures all_refusals { (told : DiagnosticValue) → CompileBreak text.now told
        → MatchResult result (λ _. ⊥) (λ stop. (stop ≡ stops.Memory) ⊎ (stop ≡ stops.Rule told)) }
{
    what_is_run_is_accepted();
    what_is_run_is_flat();
    match accepted_design(alloc, text) {
        Ok(design) => sized_net(alloc, design),
        Err(stop) => Err(stop),
    }
}

/// The net of the design that is run of an accepted one, where its size is within the limit.
fn sized_net(alloc: Global, checked: Checked) -> Result<DesignNet, Stop>
    requires flattens { CanBeFlattened (plain_design checked) }
    requires rules { KeepsRules (runnable (plain_design checked)) }
    ensures answer { IfOk result (λ own. IsSizedNet (plain_design checked) (plain_net own.net)) }
    ensures rows { IfOk result (λ own. plain_rows own.rows.items ≡ external_rows (runnable (plain_design checked))) }
    ensures widths { IfOk result (λ own. All HasWordWidth (plain_rows own.rows.items)) }
    ensures cause { IfErr result (IsRunTooLarge (plain_design checked)) }
{
    let size = counted_design_size(alloc, checked.design())?;
    if size > COMPILE_SIZE {
        return Err(too_large(alloc, size));
    }
    let run = flattened(alloc, checked)?;
    let net = design_net(alloc, &run)?;
    let rows = run.rows(alloc)?;
    Ok(DesignNet { net, rows })
}
