//! What leads to cells in a component.

ghost use Rattle.std.specs.Prelude.{◌<◌, IfOk, length};
ghost use Rattle.cx_meaning.specs.Designs.{component_at};
ghost use Rattle.cx_design.specs.PlainDesigns.{plain_design};
ghost use Rattle.cx_race.specs.Footprints.{AreFootprints};

use crate::cells::{driven, named};
use crate::linking::links;
use cx_design::Design;
use cx_design_parts::component;
use cx_text::Memory;
use std::alloc::Global;

/// What leads to cells in a component: from each cell the links of continuous assignments, from each group what it drives, and what it
/// drives or names.
#[derive(Debug, Drop)]
pub struct Footprints {
    pub links: Vec<Vec<u32>>,
    pub driven: Vec<Vec<u32>>,
    pub named: Vec<Vec<u32>>,
}

/// What leads to cells in a component.
pub fn footprints_of(alloc: Global, design: &Design, number: usize) -> Result<Footprints, Memory>
    requires within { number < length design.now.components.items }
    ensures value { IfOk result (AreFootprints (component_at (plain_design design.now) number)) }
{
    let part = component(design, number);
    Ok(Footprints {
        links: links(alloc, design, number)?,
        driven: driven(alloc, part.groups.as_slice())?,
        named: named(alloc, part.groups.as_slice())?,
    })
}
