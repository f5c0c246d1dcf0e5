//! Breaks that are told of ports.

ghost use Rattle.std.specs.Prelude.{◌≡◌, ◌<◌, IfOk, length};
ghost use Rattle.cx_rules.specs.Ports.{component_of};
ghost use Rattle.cx_design.specs.PlainDesigns.{plain_design};
ghost use Rattle.cx_design_parts.specs.Breaks.{first_of, plain_spot};
ghost use Rattle.cx_widths.specs.WidthBreaks.{is_bad, told_port, literal_break, source_break};

use cx_design::{Design, PlacedPort, PortRef};
use cx_design_parts::{Break, FirstBreak, Spot, is_target_only, keeps_literal, path};
use cx_text::{Memory, Name, Place, Rule};
use std::alloc::Global;

/// Keeps a break that is told of a port, where there is one.
pub fn add_port(
    alloc: Global,
    first: &mut FirstBreak,
    design: &Design,
    rule: Rule,
    spot: Spot,
    place: Place,
    port: Option<PortRef>,
) -> Result<(), Memory>
    requires within { spot.component < length design.now.components.items }
    ensures value { IfOk result (λ _. first.new ≡
        first_of first.old
        (told_port rule (component_of (plain_design design.now) spot.component) (plain_spot spot) place port)) }
{
    let Some(port) = port else {
        return Ok(());
    };
    if first.is_first(rule, spot, place) {
        let name = path(alloc, design, spot.component, port)?;
        first.keep(Break {
            rule,
            spot,
            place,
            name,
        });
    }
    Ok(())
}

/// Keeps a break of the rule on literals, where the port is a literal that breaks it.
pub fn add_literal(
    alloc: Global,
    first: &mut FirstBreak,
    spot: Spot,
    port: PlacedPort,
) -> Result<(), Memory>
    ensures value { IfOk result (λ _. first.new ≡ first_of first.old (literal_break (plain_spot spot) port)) }
{
    if !is_bad_literal(port.port) {
        return Ok(());
    }
    if first.is_first(Rule::Literal, spot, port.place) {
        let name = Name::from_bytes(alloc, b"".as_slice())?;
        first.keep(Break {
            rule: Rule::Literal,
            spot,
            place: port.place,
            name,
        });
    }
    Ok(())
}

/// Whether a port is a literal of no width from 1 to 128, or whose value does not fit.
fn is_bad_literal(port: PortRef) -> bool
    ensures value { result ≡ is_bad port }
{
    match port {
        PortRef::Literal(width, value) => !keeps_literal(width, value),
        PortRef::Cell(_, _) | PortRef::Input(_) | PortRef::Output(_) | PortRef::Done(_) => false,
    }
}

/// Keeps a break of the rule on sources, where the port can be a target alone.
pub fn add_source(
    alloc: Global,
    first: &mut FirstBreak,
    design: &Design,
    spot: Spot,
    port: PlacedPort,
) -> Result<(), Memory>
    requires within { spot.component < length design.now.components.items }
    ensures value { IfOk result (λ _. first.new ≡
        first_of first.old
        (source_break (component_of (plain_design design.now) spot.component) (plain_spot spot) port)) }
{
    let told = if is_target_only(design, spot.component, port.port) {
        Some(port.port)
    } else {
        None
    };
    add_port(
        alloc,
        first,
        design,
        Rule::NotASource,
        spot,
        port.place,
        told,
    )
}
