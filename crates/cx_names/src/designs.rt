//! The parts of a design.

ghost use Rattle.std.specs.Prelude.{◌≡◌, IfOk, map};
ghost use Rattle.cx_ast.specs.PlainTree as written;
ghost use Rattle.cx_ast.specs.PlainTree.{plain_tree};
ghost use Rattle.cx_design.specs.PlainForms.{plain_component, plain_parts};
ghost use Rattle.cx_numbering.specs.DesignOf.{component_of, design_of};
ghost use Rattle.cx_names_scopes.specs.Indexed.{IsIndex};
ghost use Rattle.cx_names.specs.Sites.{ArePortNumbers};

use crate::components::component;
use crate::numbers::number_or_zero;
use crate::ports::all_port_numbers;
use crate::sites::Site;
use cx_ast::Tree;
use cx_design::Component;
use cx_names_scopes::{Index, Numbers, Scope};
use cx_text::{Memory, Name};
use std::alloc::Global;

/// The components of a design, and the number of the one named `main`.
#[derive(Drop)]
pub struct Parts {
    pub components: Vec<Component>,
    pub main: u32,
}

// The components, in order.
fn components(
    alloc: Global,
    tree: &Tree,
    index: &Index,
    ports: &Vec<Numbers>,
) -> Result<Vec<Component>, Memory>
    requires index { IsIndex (plain_tree tree.now) index.now }
    requires ports { ArePortNumbers (plain_tree tree.now).components ports.now.items }
    ensures { IfOk result (λ all. map plain_component all.items ≡
        map (component_of (plain_tree tree.now)) (plain_tree tree.now).components) }
{
    let mut all = Vec::with_capacity(alloc, tree.components.len())?;
    for number in 0..tree.components.len() {
        let site = Site {
            scope: Scope {
                tree,
                index,
                part: &tree.components[number],
                own: &index.parts[number],
            },
            ports,
        };
        all.push(component(alloc, &site)?)?;
    }
    Ok(all)
}

/// The parts of the design of a tree. A name that names nothing has the number 0. There is no memory for parts that 32 bits
/// do not number.
pub fn design_parts(alloc: Global, tree: &Tree) -> Result<Parts, Memory>
    ensures value { IfOk result
        (λ parts. plain_parts parts.components.items parts.main ≡ design_of (plain_tree tree.now)) }
{
    let index = Index::new(alloc, tree)?;
    let ports = all_port_numbers(alloc, &tree.components)?;
    let components = components(alloc, tree, &index, &ports)?;
    let name = Name::from_bytes(alloc, b"main")?;
    let main = number_or_zero(index.components.find(&name))?;
    Ok(Parts { components, main })
}
