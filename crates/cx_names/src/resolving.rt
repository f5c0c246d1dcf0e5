//! The design of a tree, or the first break of the rules on names.

ghost use Rattle.std.specs.Prelude.{◌≡◌, ◌<◌, ◌^◌, None, Some, IfOk, map};
ghost use Rattle.cx_ast.specs.PlainTree.{plain_tree};
ghost use Rattle.cx_rules.specs.Sizes.{design_size, sizes_of};
ghost use Rattle.cx_rules.specs.Wellformed.{IsDesign};
ghost use Rattle.cx_design.specs.PlainDesigns.{plain_design};
ghost use Rattle.cx_design.specs.PlainForms.{plain_component, plain_parts};
ghost use Rattle.cx_design_sizes.specs.Capped.{capped};
ghost use Rattle.cx_names.specs.Targets.{HasTargets};
ghost use Rattle.cx_names.specs.Refused.{IfRule};
ghost use Rattle.cx_numbering.specs.DesignOf.{design_of};
ghost use Rattle.cx_numbering.specs.NameRules.{names_break};

use crate::{Parts, design_parts};
use cx_ast::Tree;
use cx_design::{Component, Design, Refusal};
use cx_design_sizes::component_size;
use cx_names_parts::first_name_break;
use cx_text::Memory;
use std::alloc::Global;

// The size of components, and 1 for each.
fn total_size(components: &[Component]) -> u64
    ensures { result ≡ capped (sizes_of (map plain_component components.now)) }
{
    let mut size = 0u64;
    for component in components {
        size = size
            .saturating_add(component_size(component))
            .saturating_add(1);
    }
    size
}

// The design of these parts, where 32 bits count them.
fn counted(parts: Parts) -> Result<Design, Memory>
    requires { design_size (plain_parts parts.components.items parts.main) < 2 ^ 32 →
        IsDesign (plain_parts parts.components.items parts.main) }
    ensures { IfOk result (λ design. plain_design design ≡ plain_parts parts.components.items parts.main) }
{
    if total_size(&parts.components) > u64::from(u32::MAX) {
        return Err(Memory);
    }
    Ok(Design {
        components: parts.components,
        main: parts.main,
    })
}

// The design of a tree that keeps the rules on names.
fn kept_design(alloc: Global, tree: &Tree) -> Result<Design, Memory>
    requires targets { HasTargets (plain_tree tree.now) }
    requires kept { names_break (plain_tree tree.now) ≡ None }
    ensures { IfOk result (λ design. plain_design design ≡ design_of (plain_tree tree.now)) }
{
    let parts = design_parts(alloc, tree)?;
    let design = counted(parts)?;
    Ok(design)
}

/// The design of a tree that keeps the rules on names; else their first break. A design whose size 32 bits do not count is
/// more than there is memory for.
pub fn resolve(alloc: Global, tree: &Tree) -> Result<Design, Refusal>
    requires targets { HasTargets (plain_tree tree.now) }
    ensures value { IfOk result (λ design. plain_design design ≡ design_of (plain_tree tree.now)) }
    ensures accepted { IfOk result (λ design. names_break (plain_tree tree.now) ≡ None) }
    ensures first { IfRule result (λ told. names_break (plain_tree tree.now) ≡ Some told) }
{
    match first_name_break(alloc, tree) {
        Err(Memory) => Err(Refusal::Memory),
        Ok(Some(told)) => Err(Refusal::Rule(told)),
        Ok(None) => match kept_design(alloc, tree) {
            Ok(design) => Ok(design),
            Err(Memory) => Err(Refusal::Memory),
        },
    }
}
