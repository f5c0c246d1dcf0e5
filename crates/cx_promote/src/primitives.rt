//! What promotion asks of a primitive: the port that starts it, its done, and the cycles until then.

ghost use Rattle.std.specs.Prelude.{◌≡◌};
ghost use Rattle.cx_prim.specs.Table.{row_of};
ghost use Rattle.cx_promotion.specs.Promotable as promotable;
ghost use Rattle.cx_promote.specs.Cycles.{cycles_named, is_pipe_name};

use cx_design::Primitive;
use cx_prim::{Cycle, PortName, PrimitiveName};

/// Whether a port is the done of its primitive.
pub(crate) fn is_done_port(primitive: &Primitive, port: u32) -> bool
    ensures value { result ≡ promotable.is_named PortName.Done (row_of primitive.now).ports port }
{
    let port = port as usize;
    if port < primitive.port_count() {
        is_name(PortName::Done, primitive.port(port).name)
    } else {
        false
    }
}

/// The port that starts a primitive: `content_en`, else `write_en`, else `go`.
pub(crate) fn starting_port(primitive: &Primitive) -> Option<usize>
    ensures value { result ≡ promotable.starting_port (row_of primitive.now) }
{
    match port_named(primitive, PortName::ContentEn) {
        Some(port) => Some(port),
        None => match port_named(primitive, PortName::WriteEn) {
            Some(port) => Some(port),
            None => port_named(primitive, PortName::Go),
        },
    }
}

/// The first port of a name.
#[tactic(auto, using(crate::proofs::PortLemmas::first_here, crate::proofs::PortLemmas::first_later, crate::proofs::PortLemmas::first_none))]
fn port_named(primitive: &Primitive, name: PortName) -> Option<usize>
    ensures value { result ≡ promotable.first_named name (row_of primitive.now).ports 0 }
{
    for port in 0..primitive.port_count() {
        if is_name(name, primitive.port(port).name) {
            return Some(port);
        }
    }
    None
}

/// Whether two names are the same, of those that matter here.
fn is_name(wanted: PortName, name: PortName) -> bool
    ensures value { result ≡ promotable.is_name wanted name }
{
    match wanted {
        PortName::Done => matches!(name, PortName::Done),
        PortName::WriteEn => matches!(name, PortName::WriteEn),
        PortName::ContentEn => matches!(name, PortName::ContentEn),
        PortName::Go => matches!(name, PortName::Go),
        _ => false,
    }
}

/// The timing of a primitive: the cycles from its start until it is done, if it is ever done, and whether it is a pipe.
#[derive(Clone, Copy)]
pub(crate) struct Timing {
    pub(crate) cycles: Option<u64>,
    pub(crate) is_pipe: bool,
}

/// The timing of a primitive.
pub(crate) fn timing_of(primitive: &Primitive) -> Timing
    ensures cycles { result.cycles ≡ promotable.cycles_of (row_of primitive.now).shape }
    ensures pipe { result.is_pipe ≡ promotable.is_pipe (row_of primitive.now).shape }
{
    match PrimitiveName::from_text(primitive.name().as_bytes()) {
        Some(name) => timing_at(name, primitive.numbers()),
        None => Timing {
            cycles: None,
            is_pipe: false,
        },
    }
}

/// The timing of the primitive of a name at its numbers.
fn timing_at(name: PrimitiveName, numbers: &[u64]) -> Timing
    ensures cycles { result.cycles ≡ cycles_named name numbers.now }
    ensures pipe { result.is_pipe ≡ is_pipe_name name }
{
    Timing {
        cycles: cycles_at(name, numbers),
        is_pipe: is_pipe_at(name),
    }
}

/// Whether the primitive of a name is a pipe.
fn is_pipe_at(name: PrimitiveName) -> bool
    ensures value { result ≡ is_pipe_name name }
{
    match name {
        PrimitiveName::MultPipe | PrimitiveName::DivPipe => true,
        _ => false,
    }
}

/// The cycles of the primitive of a name at its numbers: a multiplier takes three, and a divider its width.
fn cycles_at(name: PrimitiveName, numbers: &[u64]) -> Option<u64>
    ensures value { result ≡ cycles_named name numbers.now }
{
    match name {
        PrimitiveName::Reg
        | PrimitiveName::StdMemD1
        | PrimitiveName::StdMemD2
        | PrimitiveName::StdMemD3
        | PrimitiveName::StdMemD4
        | PrimitiveName::CombMemD1
        | PrimitiveName::CombMemD2
        | PrimitiveName::CombMemD3
        | PrimitiveName::CombMemD4
        | PrimitiveName::SeqMemD1
        | PrimitiveName::SeqMemD2
        | PrimitiveName::SeqMemD3
        | PrimitiveName::SeqMemD4 => Some(1),
        PrimitiveName::MultPipe => Some(3),
        PrimitiveName::DivPipe => match numbers.split_first() {
            Some((width, _)) => Some(*width),
            None => None,
        },
        _ => None,
    }
}
