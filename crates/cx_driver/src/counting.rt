//! The instrumented design of an accepted one.

ghost use Rattle.std.specs.Prelude.{◌≡◌, IfOk, IfErr, map};
ghost use Rattle.cx_rules.specs.Accepted.{IsAccepted};
ghost use Rattle.cx_design.specs.PlainDesigns.{plain_design};
ghost use Rattle.cx_profiling.specs.Instrumented.{instrumented};
ghost use Rattle.cx_profile.specs.Profiles.{memory_place};
ghost use Rattle.cx_compiler.specs.Texts.{tree_stop};
ghost use Rattle.cx_driver.specs.Counted.{AreEntries};
ghost use Rattle.cx_driver.specs.Counting.{IsLimitStop};
ghost use Rattle.cx_driver.specs.Profiling.{group_paths};

use cx_commands::Stop;
use cx_design::{Checked, Refusal};
use cx_profile::{Profiled, instrument};
use std::alloc::Global;

/// The instrumented design of an accepted one. It is refused for the first limit that it exceeds.
pub(crate) fn counting(alloc: Global, design: &Checked) -> Result<Profiled, Stop>
    ensures design { IfOk result (λ p. plain_design p.design ≡ instrumented (plain_design design.now)) }
    ensures accepted { IfOk result (λ _. IsAccepted (instrumented (plain_design design.now))) }
    ensures memory { IfOk result (λ p. p.memory ≡ memory_place (plain_design design.now)) }
    ensures paths { IfOk result (λ p. map (λ g. g.path) p.groups.items ≡ group_paths (plain_design design.now)) }
    ensures entries { IfOk result (λ p. AreEntries (plain_design design.now) p.groups.items) }
    ensures limit { IfErr result (IsLimitStop (plain_design design.now)) }
{
    match instrument(alloc, design) {
        Ok(profiled) => {
            let _ = profiled.design.design();
            Ok(profiled)
        }
        Err(refusal) => Err(of_refusal(refusal)),
    }
}

/// What a refusal of a design is told as.
fn of_refusal(refusal: Refusal) -> Stop
    ensures { result ≡ tree_stop refusal }
{
    match refusal {
        Refusal::Rule(told) => Stop::Rule(told),
        Refusal::Memory => Stop::Memory,
    }
}
