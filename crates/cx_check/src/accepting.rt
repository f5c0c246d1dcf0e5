//! From a tree to an accepted design.

ghost use Rattle.std.specs.Prelude.{◌≡◌, IfOk, IfErr, MatchResult};
ghost use Rattle.cx_text.specs.declared.diagnostics.Diagnostic.{Diagnostic as DiagnosticValue};
ghost use Rattle.cx_ast.specs.PlainTree.{plain_tree};
ghost use Rattle.cx_rules.specs.Accepted.{IsAccepted};
ghost use Rattle.cx_design.specs.PlainDesigns.{plain_design};
ghost use Rattle.cx_names.specs.Targets.{HasTargets};
ghost use Rattle.cx_numbering.specs.DesignOf.{design_of};
ghost use Rattle.cx_check.specs.Verdicts.{IsRefusal, TellsAs};
ghost use Rattle.cx_check.specs.Acceptance.{IsAcceptedTree, IsTreeRefusal, TreeBreak};

use cx_ast::Tree;
use cx_design::{Checked, Design, Refusal};
use std::alloc::Global;

/// The design of a tree, where it is accepted; else what it is refused for: the first break of the rules on names, or the first
/// break of its design.
pub fn accept(alloc: Global, tree: &Tree) -> Result<Checked, Refusal>
    requires targets { HasTargets (plain_tree tree.now) }
    ensures accepted { IfOk result (λ checked. IsAcceptedTree (plain_tree tree.now)) }
    ensures value { IfOk result (λ checked. plain_design checked ≡ design_of (plain_tree tree.now)) }
    ensures rule { IfErr result (IsTreeRefusal (plain_tree tree.now)) }
    // A tree that breaks a rule is refused, by that rule at that place and with its name, unless memory is wanting.
    ensures all_refusals { (told : DiagnosticValue) → TreeBreak (plain_tree tree.now) told →
        MatchResult result (λ _. ⊥) (TellsAs (design_of (plain_tree tree.now)) told) }
{
    match cx_names::resolve(alloc, tree) {
        Ok(design) => accept_named(alloc, design),
        Err(refusal) => Err(refusal),
    }
}

/// The answer of the checks of a design.
fn accept_named(alloc: Global, design: Design) -> Result<Checked, Refusal>
    ensures accepted { IfOk result (λ checked. IsAccepted (plain_design design)) }
    ensures value { IfOk result (λ checked. plain_design checked ≡ plain_design design) }
    ensures rule { IfErr result (IsRefusal (plain_design design)) }
{
    match crate::check(alloc, design) {
        Ok(checked) => Ok(checked),
        Err(refused) => Err(refused.refusal),
    }
}
