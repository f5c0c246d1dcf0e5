//! Room for the samples and the active groups of any one island of a design, so that a run takes no memory.

ghost use Rattle.std.specs.Prelude.{◌≡◌, ◌≤◌, ◌<◌, ◌-◌, ◌^◌, ℕ, IfOk, length};
ghost use Rattle.std.specs.Vec.{vec_len, vec_capacity};
ghost use Rattle.cx_meaning.specs.Designs.{component_at};
ghost use Rattle.cx_design.specs.PlainDesigns.{plain_design};
ghost use Rattle.cx_design.specs.PlainForms.{plain_component, plain_form};
ghost use Rattle.cx_laws.specs.Samples.{active_by, form_ifs};
ghost use Rattle.cx_interp_islands.specs.Rooms.{form_groups, samples_of};
ghost use Rattle.cx_turns.specs.Marks.{set_count};
ghost use Rattle.cx_turns.specs.Rooms.{PartFits, HasRoom, HasActive, HoldsEntries, entry_room};

use cx_design::{Active, ActiveEntry, Component, Design, Form};
use cx_design_parts::statements;
use cx_interp_islands::{active_entries, if_count, reserve_entries};
use cx_text::Memory;
use std::alloc::Global;

/// The samples of an island, by the numbers of its static ifs, the groups that are active in a cycle of it, and the cells that
/// its groups drive, with the marks by which these are listed.
#[derive(Drop)]
pub struct Room {
    pub samples: Vec<bool>,
    pub active: Active,
    pub marks: Vec<bool>,
    pub cells: Vec<u32>,
}

/// Makes as many samples as a statement has static ifs, if there are fewer.
pub fn add_samples(form: &Form, samples: &mut Vec<bool>) -> Result<(), Memory>
    ensures room { IfOk result (λ _. form_ifs (plain_form form.now) ≤ vec_len samples.new) }
    ensures grows { IfOk result (λ _. vec_len samples.old ≤ vec_len samples.new) }
{
    let count = if_count(form);
    if samples.len() < count {
        samples.resize(count, false)?;
    }
    Ok(())
}

/// Makes room for the islands of a component.
fn add_component(
    alloc: Global,
    component: &Component,
    samples: &mut Vec<bool>,
    entries: &mut Vec<ActiveEntry>,
) -> Result<(), Memory>
    ensures room { IfOk result
        (λ _. PartFits (plain_component component.now) (vec_len samples.new) (vec_capacity entries.new)) }
    ensures samples { IfOk result (λ _. vec_len samples.old ≤ vec_len samples.new) }
    ensures entries { IfOk result (λ _. vec_capacity entries.old ≤ vec_capacity entries.new) }
{
    let list = statements(alloc, component)?;
    for statement in &list {
        add_samples(statement.form, samples)?;
        reserve_entries(statement.form, entries)?;
    }
    Ok(())
}

/// The most cells that a component has.
pub fn most_cells(design: &Design) -> usize
    ensures { (k : ℕ) → k < length (plain_design design.now).components →
        length (component_at (plain_design design.now) k).cells ≤ result }
{
    let mut most = 0usize;
    for component in &design.components {
        most = most.max(component.cells.len());
    }
    most
}

/// So many samples, or marks, of which none is set.
pub fn make_unset(alloc: Global, count: usize) -> Result<Vec<bool>, Memory>
    ensures count { IfOk result (λ unset. vec_len unset ≡ count) }
    ensures unset { IfOk result (λ unset. set_count unset.items ≡ 0) }
{
    let mut unset = Vec::new(alloc);
    unset.resize(count, false)?;
    Ok(unset)
}

impl Room {
    /// Room for the largest island of a design.
    pub(crate) fn new(alloc: Global, design: &Design) -> Result<Room, Memory>
        ensures { IfOk result (λ room. HasRoom (plain_design design.now) room) }
    {
        let mut samples = Vec::new(alloc);
        let mut entries = Vec::new(alloc);
        for component in &design.components {
            add_component(alloc, component, &mut samples, &mut entries)?;
        }
        let active = Active::Entries(entries);
        let count = most_cells(design);
        let marks = make_unset(alloc, count)?;
        let cells = Vec::with_capacity(alloc, count)?;
        Ok(Room {
            samples,
            active,
            marks,
            cells,
        })
    }
}

/// Makes the groups that run in a cycle of an island the active ones.
pub fn activate(part: &Component, form: &Form, samples: &[bool], cycle: u64, active: &mut Active)
    requires cycle { cycle < 2 ^ 64 - 1 }
    requires samples { form_ifs (plain_form form.now) ≤ length samples.now }
    requires holds { HoldsEntries active.old }
    requires room { form_groups (plain_form form.now) ≤ entry_room active.old }
    ensures value { HasActive active.new
        (active_by (plain_component part.now) (samples_of samples.now) cycle (plain_form form.now)) }
    ensures room { entry_room active.new ≡ entry_room active.old }
{
    match active {
        Active::Entries(entries) => {
            entries.clear();
            active_entries(part, form, samples, cycle, entries);
        }
        Active::Nothing | Active::Group(_) | Active::CallEnd(_) => {}
    }
}
