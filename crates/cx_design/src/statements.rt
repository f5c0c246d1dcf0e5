//! Control.

use cx_meaning::PlacedPort;
use cx_text::Place;

/// A statement of control and where it stands. `run` in cx_meaning's `specs/Control.antt` says what it does.
#[derive(Debug, Drop)]
#[cycle(statement)]
pub struct Statement {
    pub form: Form,
    pub place: Place,
}

/// The forms of a statement. Groups are numbers in the component; a written length is in cycles.
#[derive(Debug, Drop)]
#[cycle(statement)]
pub enum Form {
    Empty,
    Enable(u32),
    Seq(Vec<Statement>),
    Par(Vec<Statement>),
    If {
        test: PlacedPort,
        comb: Option<u32>,
        yes: Box<Statement>,
        no: Box<Statement>,
    },
    While {
        test: PlacedPort,
        comb: Option<u32>,
        body: Box<Statement>,
    },
    Repeat {
        count: u64,
        body: Box<Statement>,
    },
    StaticSeq {
        length: Option<u64>,
        parts: Vec<Statement>,
    },
    StaticPar {
        length: Option<u64>,
        parts: Vec<Statement>,
    },
    StaticIf {
        length: Option<u64>,
        test: PlacedPort,
        yes: Box<Statement>,
        no: Box<Statement>,
    },
    StaticRepeat {
        length: Option<u64>,
        count: u64,
        body: Box<Statement>,
    },
    /// The number of a static invoke of the component. It stands in a design that is not lowered alone.
    StaticInvoke(u32),
    /// The number of an island. It stands in a lowered design alone.
    Timed(u32),
}
