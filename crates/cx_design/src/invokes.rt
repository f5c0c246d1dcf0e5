//! Static invokes.

use crate::groups::Assign;

/// An invoke of a cell of a static component, which takes the latency of that component, and a cycle more where registers are captured.
#[derive(Debug, Drop)]
pub struct StaticInvoke {
    /// The number of the cell.
    pub cell: u32,
    /// Whether the word `static` stands at the invoke.
    pub written: bool,
    /// The length that is written, in cycles.
    pub length: Option<u64>,
    /// The latency of the cell's component, in cycles.
    pub latency: Option<u64>,
    /// An assignment of each input that is bound, in the order of the binds.
    pub inputs: Vec<Assign>,
    /// The number of the group that captures registers, in the cycle behind the last.
    pub captures: Option<u32>,
}
