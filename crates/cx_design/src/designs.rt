//! Designs.

ghost use Rattle.cx_rules.specs.Wellformed.{IsDesign};
ghost use Rattle.cx_design.specs.PlainForms.{plain_parts};

use crate::components::Component;

/// A design: its components in source order, and the number of the one named `main`. It keeps that its numbers name its
/// own parts, that its names are apart, that no cell leads back to its component, and that it breaks no rule on names.
#[derive(Drop)]
pub struct Design {
    pub components: Vec<Component>,
    pub main: u32,
    pub ghost keeps: { ∥ IsDesign (plain_parts components.items main) ∥₁ },
}
