//! Nets.

ghost use Rattle.cx_net.specs.NetFits.{IsNet};
ghost use Rattle.cx_net.specs.PlainNets.{net_of_parts};

use crate::components::NetComponent;

/// A net: components of guarded drivers, and the number of the one that is `main`. It keeps that its numbers name its own parts, that its
/// widths agree, and that no cell leads back to its component.
#[derive(Debug, Drop)]
pub struct Net {
    components: Vec<NetComponent>,
    main: u32,
    pub ghost keeps: { ∥ IsNet (net_of_parts components.items main) ∥₁ },
}

impl Net {
    ghost use Rattle.std.specs.Prelude.{◌≡◌, map};
    ghost use Rattle.cx_net.specs.PlainNets.{plain_net_component};
    ghost use Rattle.cx_net.specs.NetsAsData.{plain_net};

    /// Keeps components and the number of `main`, which are those of a net.
    pub fn new(components: Vec<NetComponent>, main: u32) -> Net
        requires net { ∥ IsNet (net_of_parts components.items main) ∥₁ }
        ensures value { plain_net result ≡ net_of_parts components.items main }
    {
        Net { components, main }
    }

    /// The components.
    pub fn components(&self) -> &[NetComponent]
        ensures value { map plain_net_component result.now ≡ (plain_net self.now).components }
    {
        &self.components
    }

    /// The number of `main`.
    pub fn main(&self) -> u32
        ensures value { result ≡ (plain_net self.now).main }
    {
        self.main
    }

    /// Gives up the components.
    pub fn into_components(self) -> Vec<NetComponent>
        ensures value { map plain_net_component result.items ≡ (plain_net self).components }
    {
        self.components
    }
}
