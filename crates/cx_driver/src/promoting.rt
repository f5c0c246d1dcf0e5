//! The promoted design of a text, as a text.

ghost use Rattle.std.specs.Prelude.{◌≡◌, ◌≤◌, ◌⊎◌, IfOk, IfErr, MatchResult, length};
ghost use Rattle.cx_text.specs.declared.diagnostics.Diagnostic.{Diagnostic as DiagnosticValue};
ghost use Rattle.cx_ast.specs.PlainTree.{plain_tree};
ghost use Rattle.cx_check.specs.Acceptance.{IsAcceptedTree};
ghost use Rattle.cx_commands.specs.declared.stops.Stop.TheVariants as stops;
ghost use Rattle.cx_compiler.specs.Texts.{IsAcceptedText, IsTextRefusal, IsTreeStop, TextBreak};
ghost use Rattle.cx_rewritten.specs.Sources.{IsTreeOfText};
ghost use Rattle.cx_driver.specs.Promoting.{PromotesText, PromotesTree};

use cx_ast::Tree;
use cx_commands::{Stop, tree_of};
use cx_compiler::tried;
use cx_rewritten::promote_text;
use std::alloc::Global;

/// Writes the design of a text with its groups of known length as static ones and runs of them as static seqs, behind
/// a line for each such group.
pub fn promote(alloc: Global, text: &[u8]) -> Result<Vec<u8>, Stop>
    requires { length text.now ≤ 1048576 }
    ensures answer { IfOk result (λ answer. PromotesText text.now answer.items) }
    ensures cause { IfErr result (IsTextRefusal text.now) }
    // A text that is accepted is answered, unless memory is wanting.
    ensures all_answers { IsAcceptedText text.now → MatchResult result (λ _. Unit {0}) (λ stop. stop ≡ stops.Memory) }
    // A rule that the text breaks is told, with its place and its name, unless memory is wanting.
    ensures all_refusals { (told : DiagnosticValue) → TextBreak text.now told
        → MatchResult result (λ _. ⊥) (λ stop. (stop ≡ stops.Memory) ⊎ (stop ≡ stops.Rule told)) }
{
    match tree_of(alloc, text) {
        Ok(tree) => promote_tree(alloc, &tree),
        Err(stop) => Err(stop),
    }
}

/// The same of the tree of a text.
fn promote_tree(alloc: Global, tree: &Tree) -> Result<Vec<u8>, Stop>
    requires source { IsTreeOfText (plain_tree tree.now) }
    ensures accepted { IfOk result (λ _. IsAcceptedTree (plain_tree tree.now)) }
    ensures promoted { IfOk result (λ answer. PromotesTree (plain_tree tree.now) answer.items) }
    ensures cause { IfErr result (IsTreeStop (plain_tree tree.now)) }
{
    match tried(alloc, tree) {
        Ok(design) => Ok(promote_text(alloc, tree, &design)?),
        Err(stop) => Err(stop),
    }
}
