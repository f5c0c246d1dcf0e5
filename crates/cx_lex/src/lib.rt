//! Reads the tokens of a design's text, with their places.
#![tactic(auto)]

mod classes;
mod comments;
mod faults;
mod items;
mod lexing;
mod literals;
mod signs;

pub use cx_ast::{Sign, Token, TokenKind};
pub use faults::{LexFault, LexKind};
pub use lexing::{lex, one_reading};
