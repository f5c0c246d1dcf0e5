//! Ports, as assignments, guards and conditions name them.

use cx_text::Place;

/// A port of a component, or a literal in the place of one.
#[derive(Clone, Copy, Debug, PartialEq, Eq)]
pub enum PortRef {
    /// A cell's number and a port's number in it. The ports of a primitive are in the order of its row; those of a
    /// component's cell are `go`, its inputs, its outputs, and `done`.
    Cell(u32, u32),
    /// An input of the component's signature, by its number.
    Input(u32),
    /// An output of the component's signature, by its number.
    Output(u32),
    /// The done hole of a group, by the group's number.
    Done(u32),
    /// A width in bits and a value.
    Literal(u32, u128),
}

/// A source, an operand of a guard or a condition, and where it stands.
#[derive(Clone, Copy, Debug, PartialEq, Eq)]
pub struct PlacedPort {
    pub port: PortRef,
    pub place: Place,
}

/// A comparison of two unsigned numbers.
#[derive(Clone, Copy, Debug, PartialEq, Eq)]
pub enum Comparison {
    Equal,
    NotEqual,
    Less,
    Greater,
    AtMost,
    AtLeast,
}
