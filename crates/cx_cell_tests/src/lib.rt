//! Values from outside for the operators on values and for the primitives.
#![tactic(auto)]

#[cfg(test)]
mod arithmetic;
#[cfg(test)]
mod comparisons;
#[cfg(test)]
mod conditions;
#[cfg(test)]
mod laws;
#[cfg(test)]
mod memories;
#[cfg(test)]
mod names;
#[cfg(test)]
mod pipes;
#[cfg(test)]
mod ports;
#[cfg(test)]
mod tables;
#[cfg(test)]
mod turns;
#[cfg(test)]
mod values;
#[cfg(test)]
mod words;
