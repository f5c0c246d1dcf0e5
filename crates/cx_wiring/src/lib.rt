//! The net of a lowered design, as a definition: what it has, how large it is, and that it fits.
#![tactic(auto)]
