//! Islands as lists.

use cx_meaning::PortRef;

/// A sample that has to be as wanted.
#[derive(Clone, Copy, Debug, PartialEq, Eq)]
pub struct Sample {
    /// The number of a point of the island.
    pub point: u32,
    pub wanted: bool,
}

/// A `static if`: the port that it looks at, and when it does: where a timer of the island has a count.
#[derive(Debug, Drop)]
pub struct SamplePoint {
    pub port: PortRef,
    /// The number of a timer of the island.
    pub timer: u32,
    /// The count of that timer.
    pub at: u64,
    /// The samples of the `static if`s around it, outermost first.
    pub samples: Vec<Sample>,
}

/// An enable: its group is active while a timer runs and has a count in a range, and samples are as wanted.
#[derive(Debug, Drop)]
pub struct Occurrence {
    pub group: u32,
    /// The number of a timer of the island.
    pub timer: u32,
    /// The first count of that timer.
    pub from: u64,
    /// The count behind the last one.
    pub to: u64,
    /// The samples of the `static if`s around it, outermost first.
    pub samples: Vec<Sample>,
}

/// A timer of an island. The first one counts the whole island; another counts the rounds of a body that is repeated.
#[derive(Clone, Copy, Debug, PartialEq, Eq)]
pub struct IslandTimer {
    /// The cell of the timer in the component.
    pub cell: u32,
    /// The number of the timer around it, where there is one.
    pub outer: Option<u32>,
    /// The first count of the timer around it at which this one runs; 0 without one.
    pub from: u64,
    /// The count behind the last one; the length of the island without a timer around it.
    pub to: u64,
}

/// An island of static control: what happens in which of its cycles. Points and occurrences are in source order.
#[derive(Debug, Drop)]
pub struct Island {
    /// In cycles.
    pub length: u64,
    pub timers: Vec<IslandTimer>,
    pub points: Vec<SamplePoint>,
    pub occurrences: Vec<Occurrence>,
}
