//! Decides whether the tree of a design's text is accepted: the rules on names and the stages of checks are tried in order,
//! and the first rule that is broken is told with its place and name.
#![tactic(auto)]

pub mod accept_laws;
mod accepting;
mod checking;
mod shapes;

pub use accepting::accept;
pub use checking::{Refused, check};
pub use shapes::check_shapes;
