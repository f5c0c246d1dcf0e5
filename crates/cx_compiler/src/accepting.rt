//! The checks on texts.

ghost use Rattle.std.specs.Prelude.{◌≡◌, ◌≤◌, ◌⊎◌, IfOk, IfErr, OnOk, MatchResult, length};
ghost use Rattle.cx_text.specs.declared.diagnostics.Diagnostic.{Diagnostic as DiagnosticValue};
ghost use Rattle.cx_ast.specs.PlainTree.{plain_tree};
ghost use Rattle.cx_numbering.specs.DesignOf.{design_of};
ghost use Rattle.cx_design.specs.PlainDesigns.{plain_design};
ghost use Rattle.cx_names.specs.Targets.{HasTargets};
ghost use Rattle.cx_check.specs.Acceptance.{IsAcceptedTree};
ghost use Rattle.cx_compiler.specs.Texts.{IsAcceptedText, IsDesignOf, IsRunOf, IsTextRefusal, IsTreeStop, TextBreak, tree_stop};
ghost use Rattle.cx_commands.specs.declared.stops.Stop.TheVariants as stops;

use crate::flat_laws::{accepted_texts_run_as_meant, what_is_run_is_flat};
use cx_ast::Tree;
use cx_check::accept;
use cx_commands::{Stop, tree_of};
use cx_design::{Checked, Refusal};
use cx_flat::flattened;
use std::alloc::Global;

/// Reads a text and tries all rules on it.
pub fn check_text(alloc: Global, text: &[u8]) -> Result<(), Stop>
    requires { length text.now ≤ 1048576 }
    ensures accepted { OnOk result (IsAcceptedText text.now) }
    ensures cause { IfErr result (IsTextRefusal text.now) }
    // A text that is accepted is answered, unless memory is wanting.
    ensures all_answers { IsAcceptedText text.now → MatchResult result (λ _. Unit {0}) (λ stop. stop ≡ stops.Memory) }
    // A rule that the text breaks is told, with its place and its name, unless memory is wanting.
    ensures all_refusals { (told : DiagnosticValue) → TextBreak text.now told
        → MatchResult result (λ _. ⊥) (λ stop. (stop ≡ stops.Memory) ⊎ (stop ≡ stops.Rule told)) }
{
    match accepted_design(alloc, text) {
        Ok(_) => Ok(()),
        Err(stop) => Err(stop),
    }
}

/// The design of a text that is accepted.
pub fn accepted_design(alloc: Global, text: &[u8]) -> Result<Checked, Stop>
    requires { length text.now ≤ 1048576 }
    ensures design { IfOk result (λ checked. IsDesignOf text.now (plain_design checked)) }
    ensures cause { IfErr result (IsTextRefusal text.now) }
{
    match tree_of(alloc, text) {
        Ok(tree) => tried(alloc, &tree),
        Err(stop) => Err(stop),
    }
}

/// The design that is run of a text that is accepted: its design, or the flat one where a component is static.
pub fn design_to_run(alloc: Global, text: &[u8]) -> Result<Checked, Stop>
    requires { length text.now ≤ 1048576 }
    ensures run { IfOk result (λ run. IsRunOf text.now (plain_design run)) }
    ensures cause { IfErr result (IsTextRefusal text.now) }
{
    accepted_texts_run_as_meant();
    what_is_run_is_flat();
    match accepted_design(alloc, text) {
        Ok(design) => Ok(flattened(alloc, design)?),
        Err(stop) => Err(stop),
    }
}

/// The design of a tree that breaks no rule.
pub fn tried(alloc: Global, tree: &Tree) -> Result<Checked, Stop>
    requires targets { HasTargets (plain_tree tree.now) }
    ensures accepted { IfOk result (λ checked. IsAcceptedTree (plain_tree tree.now)) }
    ensures value { IfOk result (λ checked. plain_design checked ≡ design_of (plain_tree tree.now)) }
    ensures cause { IfErr result (IsTreeStop (plain_tree tree.now)) }
{
    match accept(alloc, tree) {
        Ok(checked) => Ok(checked),
        Err(refusal) => Err(of_accept(refusal)),
    }
}

/// What a refusal of a tree is told as.
fn of_accept(refusal: Refusal) -> Stop
    ensures { result ≡ tree_stop refusal }
{
    match refusal {
        Refusal::Rule(told) => Stop::Rule(told),
        Refusal::Memory => Stop::Memory,
    }
}
