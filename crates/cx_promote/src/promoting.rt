//! From a tree to its promoted tree.

ghost use Rattle.std.specs.Prelude.{◌≡◌, IfOk, None, false, true};
ghost use Rattle.cx_ast.specs.PlainTree.{plain_tree};
ghost use Rattle.cx_design.specs.PlainDesigns.{plain_design};
ghost use Rattle.cx_names.specs.Targets.{HasTargets};
ghost use Rattle.cx_numbering.specs.DesignOf.{design_of};
ghost use Rattle.cx_numbering.specs.NameRules.{names_break};
ghost use Rattle.cx_rules.specs.Accepted.{KeepsStage};
ghost use Rattle.cx_check.specs.Acceptance.{IsAcceptedTree};
ghost use Rattle.cx_promotion.specs.Rewriting.{IsPromotedTree, made_rows, made_tree};

use crate::by_name::Lengths;
use crate::components::{add_rows, promoted_component};
use crate::lengths::lengths;
use crate::sites::Site;
use cx_ast::Tree;
use cx_copies::{copied_imports, copied_tree};
use cx_design::{Checked, Design, Refusal};
use cx_names_scopes::Index;
use cx_promotion::PromotedRow;
use cx_text::Memory;
use std::alloc::Global;

/// A promoted tree, with a row for each promoted group in source order.
#[derive(Debug, Drop)]
pub struct Promotion {
    pub tree: Tree,
    pub rows: Vec<PromotedRow>,
}

/// Makes the groups of known length static, and runs of their enables static seqs, in the tree of an accepted design. Where the
/// tree so made exceeds a limit, the tree stays as it is, and there are no rows. The promoted tree is accepted.
#[tactic(auto, using(crate::proofs::PromotedLemmas::promoted_made, crate::proofs::PromotedLemmas::promoted_not))]
pub fn promote(alloc: Global, tree: &Tree, design: &Checked) -> Result<Promotion, Memory>
    requires accepted { IsAcceptedTree (plain_tree tree.now) }
    requires targets { HasTargets (plain_tree tree.now) }
    requires its { plain_design design.now ≡ design_of (plain_tree tree.now) }
    ensures promoted { IfOk result (λ p. IsPromotedTree (plain_tree tree.now) (plain_tree p.tree) p.rows.items) }
    ensures accepted { IfOk result (λ p. IsAcceptedTree (plain_tree p.tree)) }
    ensures targets { IfOk result (λ p. HasTargets (plain_tree p.tree)) }
{
    let made = made(alloc, tree, design.design())?;
    if keeps_limits(alloc, &made.tree)? {
        return Ok(made);
    }
    let tree = copied_tree(alloc, tree)?;
    Ok(Promotion {
        tree,
        rows: Vec::new(alloc),
    })
}

/// The tree with its groups promoted, whatever its size, and the rows.
fn made(alloc: Global, tree: &Tree, design: &Design) -> Result<Promotion, Memory>
    requires its { plain_design design.now ≡ design_of (plain_tree tree.now) }
    ensures tree { IfOk result (λ p. plain_tree p.tree ≡ made_tree (plain_tree tree.now)) }
    ensures rows { IfOk result (λ p. p.rows.items ≡ made_rows (plain_tree tree.now)) }
{
    let imports = copied_imports(alloc, tree.imports.as_slice())?;
    let index = Index::new(alloc, tree)?;
    let parts = tree.components.as_slice();
    let indexes = index.parts.as_slice();
    let mut components = Vec::with_capacity(alloc, parts.len())?;
    let mut rows = Vec::new(alloc);
    for number in 0..parts.len() {
        let cycles = lengths(alloc, design, number)?;
        let site = Site {
            tree,
            part: &parts[number],
            design,
            number,
        };
        let lengths = Lengths {
            numbers: &indexes[number].groups.numbers,
            cycles: cycles.as_slice(),
        };
        components.push(promoted_component(alloc, site, lengths)?)?;
        add_rows(alloc, &mut rows, site, cycles.as_slice())?;
    }
    let tree = Tree {
        imports,
        components,
    };
    Ok(Promotion { tree, rows })
}

/// Whether the design of a tree that breaks no rule on names keeps the limits.
#[tactic(auto, using(crate::proofs::PromotedLemmas::breaks_limit))]
fn keeps_limits(alloc: Global, tree: &Tree) -> Result<bool, Memory>
    requires targets { HasTargets (plain_tree tree.now) }
    requires named { names_break (plain_tree tree.now) ≡ None }
    ensures keeps { IfOk result (λ keeps. keeps ≡ true → KeepsStage 7 (design_of (plain_tree tree.now))) }
    ensures breaks { IfOk result (λ keeps. keeps ≡ false → KeepsStage 7 (design_of (plain_tree tree.now)) → ⊥) }
{
    let design = match cx_names::resolve(alloc, tree) {
        Ok(design) => design,
        Err(Refusal::Memory) => return Err(Memory),
        Err(Refusal::Rule(_)) => unreachable!(),
    };
    match cx_limits::limits(alloc, &design) {
        Ok(()) => Ok(true),
        Err(Refusal::Rule(_)) => Ok(false),
        Err(Refusal::Memory) => Err(Memory),
    }
}
