//! The checks of a design.

ghost use Rattle.std.specs.Prelude.{◌≡◌, IfOk, IfErr, OnOk, MatchResult};
ghost use Rattle.cx_text.specs.declared.diagnostics.Diagnostic.{Diagnostic};
ghost use Rattle.cx_rules.specs.Accepted.{FirstBreak, IsAccepted};
ghost use Rattle.cx_design.specs.PlainDesigns.{plain_design};
ghost use Rattle.cx_check.specs.Verdicts.{IsRefusal, TellsAs};

use cx_design::{Checked, Design, Refusal};
use std::alloc::Global;

/// A design that is not accepted, and why.
#[derive(Drop)]
pub struct Refused {
    pub design: Design,
    pub refusal: Refusal,
}

/// Tries the rules on a design, stage by stage. The first break of the first stage that has one refuses it, and the design is
/// handed back.
pub fn check(alloc: Global, design: Design) -> Result<Checked, Refused>
    ensures accepted { IfOk result (λ checked. IsAccepted (plain_design design)) }
    ensures value { IfOk result (λ checked. plain_design checked ≡ plain_design design) }
    ensures rule { IfErr result (λ refused. IsRefusal (plain_design design) refused.refusal) }
    ensures back { IfErr result (λ refused. plain_design refused.design ≡ plain_design design) }
    // A design that breaks a rule is refused, by its first break and with its name, unless memory is wanting.
    ensures all_refusals { (told : Diagnostic) → FirstBreak (plain_design design) told →
        MatchResult result (λ _. ⊥) (λ refused. TellsAs (plain_design design) told refused.refusal) }
{
    match stages(alloc, &design) {
        Ok(()) => Ok(Checked::new(design)),
        Err(refusal) => Err(Refused { design, refusal }),
    }
}

/// The first break of the first stage that has one.
fn stages(alloc: Global, design: &Design) -> Result<(), Refusal>
    ensures accepted { OnOk result (IsAccepted (plain_design design.now)) }
    ensures rule { IfErr result (IsRefusal (plain_design design.now)) }
{
    cx_widths::check(alloc, design)?;
    crate::check_shapes(alloc, design)?;
    cx_comb::check(alloc, design)?;
    cx_race::check(alloc, design)?;
    cx_limits::limits(alloc, design)
}
