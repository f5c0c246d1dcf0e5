//! The ports of a component's cell.

ghost use Rattle.std.specs.Prelude.{◌≡◌};
ghost use Rattle.cx_meaning.specs.Sights as sights;
ghost use Rattle.cx_design.specs.PlainForms.{plain_component};
ghost use Rattle.cx_design_parts.specs.Cells.{plain_part_port};

use cx_design::Component;

/// A port of a component's cell: its `go`, an input or an output of the signature by its number, or its `done`.
#[derive(Clone, Copy, Debug, PartialEq, Eq)]
pub enum PartPort {
    Go,
    Input(u32),
    Output(u32),
    Done,
}

/// The port of a number: `go`, then the inputs, then the outputs, then `done`.
pub fn part_port(component: &Component, port: u32) -> PartPort
    ensures value { plain_part_port result ≡ sights.part_port (plain_component component.now) port }
{
    let Some(behind_go) = port.checked_sub(1) else {
        return PartPort::Go;
    };
    let inputs = component.inputs.len();
    let outputs = component.outputs.len();
    if (behind_go as usize) < inputs {
        PartPort::Input(behind_go)
    } else if (behind_go as usize - inputs) < outputs {
        PartPort::Output(behind_go - inputs as u32)
    } else {
        PartPort::Done
    }
}
