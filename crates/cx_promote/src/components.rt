//! Components of a promoted tree, and the rows of their groups.

ghost use Rattle.std.specs.Prelude.{◌≡◌, ◌++◌, IfOk, OnOk, option_map, true};
ghost use Rattle.cx_ast.specs.PlainTree.{plain_component};
ghost use Rattle.cx_ast.specs.PlainStatements.{plain_block};
ghost use Rattle.cx_numbering.specs.Names.{group_names, groups_in};
ghost use Rattle.cx_names_scopes.specs.Numbered.{AreNumbersOf};
ghost use Rattle.cx_promotion.specs.Rewriting as promotion;
ghost use Rattle.cx_promote.specs.Lengths.{Begins, long_in};
ghost use Rattle.cx_promote.specs.Sites.{IsSite, instance_at, part_at, tree_at};

use crate::by_name::Lengths;
use crate::control::promoted_block;
use crate::groups::promoted_wires;
use crate::sites::Site;
use cx_ast::{Block, ComponentItem, WireItem};
use cx_copies::{copied_attributes, copied_cells, copied_marks, copied_name, copied_ports};
use cx_promotion::PromotedRow;
use cx_text::{Memory, Name};
use std::alloc::Global;

/// So many levels of blocks may stand below the block of a component's control.
const BELOW_CONTROL: u32 = 63;

/// A component with its groups promoted.
pub(crate) fn promoted_component(
    alloc: Global,
    site: Site,
    lengths: Lengths,
) -> Result<ComponentItem, Memory>
    requires site { IsSite site }
    requires lengths { Begins
        (promotion.length_of (tree_at site) (part_at site) (instance_at site)) lengths.cycles.now
        (groups_in (part_at site).wires) }
    requires numbers { AreNumbersOf (group_names (part_at site)) lengths.numbers.now }
    ensures value { IfOk result (λ c. plain_component c ≡
        promotion.promote_component (tree_at site.entry) (part_at site.entry) (instance_at site.entry)) }
{
    let item = site.part;
    let attributes = copied_attributes(alloc, item.attributes.as_slice())?;
    let name = copied_name(alloc, &item.name)?;
    let marks = copied_marks(alloc, item.marks.as_slice())?;
    let inputs = copied_ports(alloc, item.inputs.as_slice())?;
    let outputs = copied_ports(alloc, item.outputs.as_slice())?;
    let cells = copied_cells(alloc, item.cells.as_slice())?;
    let wires = promoted_wires(alloc, site, lengths.cycles)?;
    let control = promoted_control(alloc, &lengths, &item.control)?;
    Ok(ComponentItem {
        attributes,
        length: item.length,
        name,
        marks,
        inputs,
        outputs,
        cells,
        wires,
        control,
        place: item.place,
    })
}

/// The control of a component, where there is any.
fn promoted_control(
    alloc: Global,
    lengths: &Lengths,
    control: &Option<Block>,
) -> Result<Option<Block>, Memory>
    ensures value { IfOk result (λ c. option_map plain_block c ≡
        option_map (promotion.promote_block (long_in lengths.now) promotion.BELOW_CONTROL true)
        (option_map plain_block control.now)) }
{
    match control {
        None => Ok(None),
        Some(block) => Ok(Some(promoted_block(alloc, lengths, BELOW_CONTROL, true, block)?)),
    }
}

/// Adds a row for each promotable group of a component, in source order.
#[tactic(auto, using(crate::proofs::ListLemmas::begins_item, crate::proofs::ListLemmas::begins_within, crate::proofs::ListLemmas::begins_next))]
pub(crate) fn add_rows(
    alloc: Global,
    rows: &mut Vec<PromotedRow>,
    site: Site,
    lengths: &[Option<u64>],
) -> Result<(), Memory>
    requires lengths { Begins
        (promotion.length_of (tree_at site) (part_at site) (instance_at site)) lengths.now
        (groups_in (part_at site).wires) }
    ensures value { OnOk result (rows.new.items ≡
        rows.old.items ++ promotion.rows_in (tree_at site.entry) (part_at site.entry) (instance_at site.entry)
        (groups_in (part_at site.entry).wires)) }
{
    let mut place = 0;
    for wire in &site.part.wires {
        let WireItem::Group(group) = wire else {
            continue;
        };
        if let Some(cycles) = lengths[place] {
            rows.push(row(alloc, &site.part.name, &group.name, cycles)?)?;
        }
        place += 1;
    }
    Ok(())
}

/// The row of a group.
fn row(alloc: Global, component: &Name, group: &Name, cycles: u64) -> Result<PromotedRow, Memory>
    ensures value { IfOk result (λ r. r ≡ record { component = component.now; group = group.now; cycles = cycles }) }
{
    let component = copied_name(alloc, component)?;
    let group = copied_name(alloc, group)?;
    Ok(PromotedRow {
        component,
        group,
        cycles,
    })
}
