//! Values of 1 to 128 bits, with exact arithmetic modulo two to their width.
#![tactic(auto)]

mod values;

pub use values::Bits;
