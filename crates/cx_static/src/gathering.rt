//! The lists of an island, as they are gathered.

use crate::islands::{IslandTimer, Occurrence, Sample, SamplePoint};
use cx_design::Cell;

/// The cells of a component so far, and the lists of an island so far.
#[derive(Drop)]
pub(crate) struct Gathering {
    pub cells: Vec<Cell>,
    pub timers: Vec<IslandTimer>,
    pub points: Vec<SamplePoint>,
    pub occurrences: Vec<Occurrence>,
}

/// Where a statement begins: at a count of a timer of the island, where these samples are as wanted.
#[derive(Clone, Copy)]
pub(crate) struct Start<'a> {
    pub timer: u32,
    pub at: u64,
    pub samples: &'a [Sample],
}
