//! Ports and groups in place of others.

ghost use Rattle.std.specs.Prelude.{◌≡◌, ℕ, IfOk};
ghost use Rattle.cx_meaning.specs.declared.ports.PortRef.{PortRef};
ghost use Rattle.cx_rewrites.specs.Moving.{moved_port};

use cx_design::{PlacedPort, PortRef};
use cx_text::Memory;

/// Gives each port of a component the port that stands in its place.
pub trait PortMoves {
    /// The port in place of each port.
    ghost moving: { Self → PortRef → PortRef };

    /// The port in place of a port.
    fn port(&self, port: PortRef) -> Result<PortRef, Memory>
        ensures value { IfOk result (λ moved. moved ≡ moving self.now port) };
}

/// Gives each group of a component the group that stands in its place.
pub trait GroupMoves {
    /// The number in place of that of each group.
    ghost numbering: { Self → ℕ → ℕ };

    /// The number in place of that of a group.
    fn group(&self, group: u32) -> Result<u32, Memory>
        ensures value { IfOk result (λ n. n ≡ numbering self.now group) };
}

/// Each group stays.
pub struct SameGroups;

impl GroupMoves for SameGroups {
    ghost numbering = { λ groups group. group };

    fn group(&self, group: u32) -> Result<u32, Memory> {
        Ok(group)
    }
}

/// The port in place of a placed port.
pub fn moved_placed<M: PortMoves>(moves: &M, placed: PlacedPort) -> Result<PlacedPort, Memory>
    ensures value { IfOk result (λ moved. moved ≡ moved_port (M.moving moves.now) placed) }
{
    Ok(PlacedPort {
        port: moves.port(placed.port)?,
        place: placed.place,
    })
}
