//! What is counted beside a run: of each group of each instance, in how many cycles it was active.

ghost use Rattle.std.specs.Prelude.{◌≡◌, IfOk, List, [], false, is_some, map, replicate, true};
ghost use Rattle.cx_meaning.specs.Active.{Entry, group as acting, offset_in};
ghost use Rattle.cx_profiling.specs.Counting.{once};
ghost use Rattle.cx_design.specs.PlainActives.{plain_entry};
ghost use Rattle.cx_turns.specs.Machines.{design_of, IsPlan};
ghost use Rattle.cx_turns.specs.Rooms.{HasActive};
ghost use Rattle.cx_interp.specs.Counts.{GrowsAt, HasRows, IsZero, KeepsShape, count_at, one_more, plain_counts};

use cx_design::{Active, ActiveEntry};
use cx_text::Memory;
use cx_turns::calls::instance_part;
use cx_turns::plan::Plan;
use std::alloc::Global;

/// For each instance, by its number, a count for each group of its component, modulo two to the 64. Without rows nothing is
/// counted.
#[derive(Debug, Drop)]
pub struct Counts {
    pub(crate) rows: Vec<Vec<u64>>,
}

/// So many zeros.
fn zeros(alloc: Global, count: usize) -> Result<Vec<u64>, Memory>
    ensures { IfOk result (λ row. row.items ≡ replicate count 0) }
{
    let mut row = Vec::new(alloc);
    row.resize(count, 0)?;
    Ok(row)
}

/// Whether a group stands in a list of entries.
fn stands_among(entries: &[ActiveEntry], group: u32) -> bool
    ensures { result ≡ is_some (offset_in (map plain_entry entries.now) group) }
{
    for entry in entries {
        if entry.group == group {
            return true;
        }
    }
    false
}

/// One more at a place of a row, if it is there.
#[inline(always)]
fn add_one(row: &mut Vec<u64>, place: usize)
    ensures { row.new.items ≡ one_more row.old.items place }
{
    if place < row.len() {
        row[place] = row[place].wrapping_add(1);
    }
}

impl Counts {
    /// Zeros for each group of each instance of a plan's design.
    pub fn new(alloc: Global, plan: &Plan<'_>) -> Result<Counts, Memory>
        requires plan { IsPlan plan.now }
        ensures rows { IfOk result (λ counts. HasRows (design_of plan.now) (plain_counts counts)) }
        ensures zeros { IfOk result (λ counts. IsZero (plain_counts counts)) }
    {
        let mut rows = Vec::new(alloc);
        for instance in 0..plan.table.rows.len() {
            let groups = instance_part(plan, instance).groups.len();
            rows.push(zeros(alloc, groups)?)?;
        }
        Ok(Counts { rows })
    }

    /// No rows: a run with them counts nothing.
    pub fn none(alloc: Global) -> Counts
        ensures { plain_counts result ≡ [] }
    {
        Counts {
            rows: Vec::new(alloc),
        }
    }

    /// The count of a group of an instance; 0 where there is none.
    pub fn count(&self, instance: usize, group: u32) -> u64
        ensures { result ≡ count_at (plain_counts self.now) instance group }
    {
        let group = group as usize;
        if instance < self.rows.len() && group < self.rows[instance].len() {
            self.rows[instance][group]
        } else {
            0
        }
    }

    /// Counts a cycle with one group active.
    #[inline(always)]
    pub(crate) fn add(&mut self, instance: usize, group: u32)
        ensures { GrowsAt instance (λ g. once ((acting group).offset g)) (plain_counts self.old)
            (plain_counts self.new) }
    {
        if instance < self.rows.len() {
            add_one(&mut self.rows[instance], group as usize);
        }
    }

    /// Counts a cycle with a group active that stands in none of the entries before it.
    fn add_new(&mut self, instance: usize, group: u32, before: &[ActiveEntry])
        ensures known { is_some (offset_in (map plain_entry before.now) group) ≡ true →
            plain_counts self.new ≡ plain_counts self.old }
        ensures unknown { is_some (offset_in (map plain_entry before.now) group) ≡ false →
            GrowsAt instance (λ g. once ((acting group).offset g)) (plain_counts self.old)
            (plain_counts self.new) }
    {
        if stands_among(before, group) {
            return;
        }
        self.add(instance, group);
    }

    /// Counts each of the groups that stand in some entries once.
    fn add_each(&mut self, instance: usize, entries: &[ActiveEntry])
        ensures { GrowsAt instance (λ g. once (offset_in (map plain_entry entries.now) g))
            (plain_counts self.old) (plain_counts self.new) }
    {
        for place in 0..entries.len() {
            self.add_new(instance, entries[place].group, &entries[..place]);
        }
    }

    /// Counts a cycle of an island, in which these groups are active: each of them once.
    #[inline(always)]
    pub(crate) fn add_active(&mut self, instance: usize, active: &Active)
        ensures shape { KeepsShape (plain_counts self.old) (plain_counts self.new) }
        ensures grows { (list : List Entry) → HasActive active.now list →
            GrowsAt instance (λ g. once (offset_in list g)) (plain_counts self.old) (plain_counts self.new) }
    {
        if self.rows.is_empty() {
            return;
        }
        match active {
            Active::Entries(entries) => self.add_each(instance, entries.as_slice()),
            Active::Nothing | Active::Group(_) | Active::CallEnd(_) => {}
        }
    }
}
