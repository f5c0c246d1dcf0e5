//! Worked values of crates that read and write texts and files, by calls of each alone. Whole runs are the cases of `cx_cases`.
#![tactic(auto)]

#[cfg(test)]
mod outside;
#[cfg(test)]
mod texts;
#[cfg(test)]
mod trees;
#[cfg(test)]
mod verilog;
