//! The numbered design that a text's tree stands for, and the rules on names.
#![tactic(auto)]
