//! What is open of a statement.

use cx_design::{Form, Statement};
use cx_meaning::{PlacedPort, Seen};

/// An island of dynamic control before one of its cycles, with so many left: the samples of its static ifs by their numbers,
/// and the cells that it drives, ascending.
#[derive(Drop)]
pub(crate) struct Island<'a> {
    pub(crate) form: &'a Form,
    pub(crate) cycle: u64,
    pub(crate) left: u64,
    pub(crate) samples: Vec<bool>,
    pub(crate) cells: Vec<u32>,
}

/// What is open of a statement: a leaf, or what is open of its parts.
#[derive(Drop)]
#[cycle(strand)]
pub(crate) enum Strand<'a> {
    /// One idle turn.
    Idling,
    /// A group that calls nothing.
    InGroup(u32),
    /// An if before its test.
    Choosing {
        port: PlacedPort,
        comb: Option<u32>,
        first: &'a Statement,
        second: &'a Statement,
    },
    /// A while before a test.
    Testing {
        port: PlacedPort,
        comb: Option<u32>,
        body: &'a Statement,
    },
    InIsland(Island<'a>),
    /// A call after its child, before the capture cycle.
    Capturing {
        group: u32,
        cell: u32,
    },
    /// A call before its idle turn.
    Closing(u32),
    /// What never ends.
    Waiting,
    /// A seq, with the parts behind the one that runs.
    InSeq {
        first: Box<Strand<'a>>,
        later: &'a [Statement],
    },
    /// A par, with the arms that have not ended.
    InPar(Box<Arms<'a>>),
    /// A while, while its body runs.
    InLoop {
        run: Box<Strand<'a>>,
        port: PlacedPort,
        comb: Option<u32>,
        body: &'a Statement,
    },
    /// A repeat, with so many rounds behind this one.
    InRepeat {
        run: Box<Strand<'a>>,
        left: u64,
        body: &'a Statement,
    },
    /// A call of the child at a cell, while the child runs; its inputs, once they are seen.
    InCall {
        group: u32,
        cell: u32,
        inputs: Option<Vec<Seen>>,
        child: Box<Strand<'a>>,
    },
}

/// The arms of a par that have not ended, of which there is one at least.
#[derive(Drop)]
#[cycle(strand)]
pub(crate) enum Arms<'a> {
    One(Strand<'a>),
    /// Two halves, and how many leaves are open in both; 2^64 - 1 where there are more.
    Both {
        leaves: u64,
        one: Box<Arms<'a>>,
        other: Box<Arms<'a>>,
    },
}
