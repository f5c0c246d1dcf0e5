//! The rules on the ports of signatures.

ghost use Rattle.std.specs.Prelude.{◌≡◌, ◌&&◌, ◌||◌, not, nat_eq, if◌then◌else◌, OnOk, flat_map, map};
ghost use Rattle.cx_ast.specs.PlainTree.{plain_port};
ghost use Rattle.cx_numbering.specs.Names.{same_name, is_own_name as is_own_name_of};
ghost use Rattle.cx_numbering.specs.NameRules as rules;
ghost use Rattle.cx_names_scopes.specs.Scopes.{IsScope, tree_in, part_in};
ghost use Rattle.cx_names_rules.specs.Found.{first_of};

use crate::found::tell_if;
use cx_ast::{Attribute, PortItem};
use cx_names_scopes::{Scope, is_named, is_own_name};
use cx_text::{Diagnostic, Memory, Name, Rule};
use std::alloc::Global;

/// Whether a component is main.
pub fn is_main(scope: &Scope) -> bool
    ensures { result ≡ rules.is_main (tree_in scope.now) (part_in scope.now) }
{
    is_named(&scope.part.name, b"main")
}

// Whether an attribute is that of another own port than this.
fn is_of_other(name: &Name, attribute: &Attribute) -> bool
    ensures { result ≡ (is_own_name_of attribute.now.name && not (same_name attribute.now.name name.now)) }
{
    is_own_name(&attribute.name) && !is_named(&attribute.name, name.bytes())
}

// Whether a port has the attribute of another own port.
fn has_other_attribute(scope: &Scope, name: &Name, attributes: &[Attribute]) -> bool
    ensures { result ≡ rules.has_other_attribute (tree_in scope.now) (part_in scope.now) name.now attributes.now }
{
    for attribute in attributes {
        if is_of_other(name, attribute) {
            return true;
        }
    }
    false
}

// Whether an own port stands on its side: done is an output, and the others are inputs.
fn is_on_side(scope: &Scope, is_input: bool, name: &Name) -> bool
    ensures { result ≡ rules.is_on_side (tree_in scope.now) (part_in scope.now) is_input name.now }
{
    if is_input {
        !is_named(name, b"done")
    } else {
        is_named(name, b"done")
    }
}

// Whether a port is on the wrong side or of a wrong width, or is one that main may not have.
fn is_misplaced(scope: &Scope, is_input: bool, port: &PortItem) -> bool
    ensures { result ≡ (if is_own_name_of port.now.name
        then not (rules.is_on_side (tree_in scope.now) (part_in scope.now) is_input port.now.name)
        || not (nat_eq port.now.width 1) else rules.is_main (tree_in scope.now) (part_in scope.now)) }
{
    if is_own_name(&port.name) {
        !is_on_side(scope, is_input, &port.name) || port.width != 1
    } else {
        is_main(scope)
    }
}

// Whether a port is one that a signature may not have.
fn is_wrong_port(scope: &Scope, is_input: bool, port: &PortItem) -> bool
    ensures { result ≡ rules.is_wrong_port (tree_in scope.now) (part_in scope.now) is_input (plain_port port.now) }
{
    is_misplaced(scope, is_input, port) || has_other_attribute(scope, &port.name, &port.attributes)
}

// Tells of a port of the signature.
#[tactic(auto, using(crate::proofs::FoundRules::in_turn))]
fn port(
    alloc: Global,
    found: &mut Option<Diagnostic>,
    scope: &Scope,
    is_input: bool,
    port: &PortItem,
) -> Result<(), Memory>
    requires { IsScope scope.now }
    ensures { OnOk result (found.new ≡ first_of found.old
        (rules.port_breaks (tree_in scope.now) (part_in scope.now) is_input (plain_port port.now))) }
{
    let is_no_width = !(1 <= port.width && port.width <= 128);
    tell_if(
        alloc,
        found,
        is_no_width,
        Rule::BadParameters,
        port.place,
        &port.name,
    )?;
    let is_wrong = is_wrong_port(scope, is_input, port);
    tell_if(
        alloc,
        found,
        is_wrong,
        Rule::LeftOut,
        port.place,
        &port.name,
    )
}

/// Tells of the ports of one side of the signature.
#[tactic(auto, using(crate::proofs::FoundRules::in_turn))]
pub fn signature_ports(
    alloc: Global,
    found: &mut Option<Diagnostic>,
    scope: &Scope,
    is_input: bool,
    ports: &[PortItem],
) -> Result<(), Memory>
    requires { IsScope scope.now }
    ensures { OnOk result (found.new ≡ first_of found.old
        (flat_map (rules.port_breaks (tree_in scope.now) (part_in scope.now) is_input)
        (map plain_port ports.now))) }
{
    for item in ports {
        port(alloc, found, scope, is_input, item)?;
    }
    Ok(())
}
