//! Designs whose islands are lists.

ghost use Rattle.std.specs.Prelude.{◌≡◌, map};
ghost use Rattle.cx_static.specs.PlainLowered.{lowered_of_parts, plain_lowered, plain_lowereds};

use crate::islands::Island;
use cx_design::Component;

/// A component whose last cells are the timers of its islands, and whose control has `Timed` in place of each island.
#[derive(Debug, Drop)]
pub struct LoweredComponent {
    pub part: Component,
    /// By the numbers that `Timed` has.
    pub islands: Vec<Island>,
}

/// A design whose islands are lists.
#[derive(Debug, Drop)]
pub struct Lowered {
    components: Vec<LoweredComponent>,
    main: u32,
}

impl Lowered {
    /// Keeps lowered components and the number of `main`.
    pub(crate) fn new(components: Vec<LoweredComponent>, main: u32) -> Lowered
        ensures { plain_lowereds result ≡ lowered_of_parts components.items main }
    {
        Lowered { components, main }
    }

    /// The components, by the numbers that they have in the design.
    pub fn components(&self) -> &[LoweredComponent]
        ensures value { map plain_lowered result.now ≡ (plain_lowereds self.now).components }
    {
        &self.components
    }

    /// The number of `main`.
    pub fn main(&self) -> u32
        ensures value { result ≡ (plain_lowereds self.now).main }
    {
        self.main
    }
}
