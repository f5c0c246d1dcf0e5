//! Laws at worked designs, and nets alone. Designs that are compiled and simulated are cases of `cx_cases`.
#![tactic(auto)]

#[cfg(test)]
mod laws;
#[cfg(test)]
mod nets;
#[cfg(test)]
mod stepped;
