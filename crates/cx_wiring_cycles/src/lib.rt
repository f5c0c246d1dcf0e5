//! What one cycle of the net of a component gives: of a statement, of an island, at its ports.
#![tactic(auto)]
