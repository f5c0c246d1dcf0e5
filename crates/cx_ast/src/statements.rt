//! Control.

use crate::components::{Attribute, Mark};
use crate::operands::OperandItem;
use cx_text::{Name, Place};

/// A port bound in an `invoke`: `name = value`.
#[derive(Debug, Drop)]
pub struct BindItem {
    pub name: Name,
    pub value: OperandItem,
    pub place: Place,
}

/// Statements between braces. The place is that of the `{`.
#[cycle(statement)]
#[derive(Debug, Drop)]
pub struct Block {
    pub statements: Vec<StatementItem>,
    pub place: Place,
}

/// A statement of control.
#[cycle(statement)]
#[derive(Debug, Drop)]
pub struct StatementItem {
    pub attributes: Vec<Attribute>,
    pub form: StatementForm,
    pub place: Place,
}

/// What a statement is. `length` is the n of `static<n>`, in cycles, where it is written.
#[cycle(statement)]
#[derive(Debug, Drop)]
pub enum StatementForm {
    Enable {
        group: Name,
        marks: Vec<Mark>,
    },
    Seq {
        marks: Vec<Mark>,
        block: Block,
    },
    Par {
        marks: Vec<Mark>,
        block: Block,
    },
    StaticSeq {
        length: Option<u64>,
        marks: Vec<Mark>,
        block: Block,
    },
    StaticPar {
        length: Option<u64>,
        marks: Vec<Mark>,
        block: Block,
    },
    If {
        test: OperandItem,
        comb: Option<Name>,
        yes: Block,
        no: Option<Block>,
    },
    StaticIf {
        length: Option<u64>,
        test: OperandItem,
        yes: Block,
        no: Option<Block>,
    },
    While {
        test: OperandItem,
        comb: Option<Name>,
        body: Block,
    },
    Repeat {
        count: u64,
        body: Block,
    },
    StaticRepeat {
        length: Option<u64>,
        count: u64,
        body: Block,
    },
    Invoke {
        cell: Name,
        inputs: Vec<BindItem>,
        outputs: Vec<BindItem>,
    },
    StaticInvoke {
        length: Option<u64>,
        cell: Name,
        inputs: Vec<BindItem>,
        outputs: Vec<BindItem>,
    },
}
